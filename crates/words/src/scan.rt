// Reads the words after a verb: options and names in any order.
ghost use Rattle.std.specs.Prelude.{◌≡◌, ℕ, ◌≤◌, Bool, true, List, [], ◌∷◌, ◌++◌, map, length, IfOk, OnOk, string_bytes};
ghost use Rattle.words.specs.declared.setting.Setting.{Setting};
ghost use Rattle.words.specs.Named.{setting_word_of};
ghost use Rattle.words.specs.Scans.{Hears, HearsOwn, Opens, Owns, Says, Takes, dashed, start};

use crate::help::Verb;
use crate::named::Named;
use crate::option_problem::OptionProblem;
use crate::setting::Setting;
use crate::word_problem::WordProblem;
use std::alloc::Global;

// The options of a verb.
pub trait Options: Copy {
    // What holds where no option says otherwise.
    ghost unset: { Self };

    // What an option with a text makes of them.
    ghost sets: { Setting → List ℕ → Self → Self → Type 0 };

    // Which options these are.
    ghost takes: { Setting → Bool };

    const VERB: Verb;

    fn has(setting: Setting) -> bool
        ensures value { result ≡ takes setting };

    fn given() -> Self
        ensures value { result ≡ unset };

    // The same with one option as a text writes it.
    fn with(self, heap: Global, setting: Setting, value: &str) -> Result<Self, WordProblem>
        ensures sets { IfOk result (λ p. sets setting value.now self p) };
}

// What the next word may be: any, the value of an option, or a name whatever it begins with.
#[derive(Clone, Copy)]
pub enum Next {
    Word,
    Value(Setting),
    Name,
}

// What the words say so far, but for the names.
#[derive(Clone, Copy)]
pub struct Scan<O> {
    pub options: O,
    pub next: Next,
}

// What all words say.
#[derive(Drop)]
pub struct Said<O> {
    pub options: O,
    pub names: Vec<String>,
}

fn is_option(word: &[u8]) -> bool
    ensures value { result ≡ dashed word.now }
{
    word.len() > 1 && word[0] == b'-'
}

// The option that a word names, of these.
fn setting_in<O: Options>(heap: Global, word: &str) -> Result<Setting, WordProblem>
    ensures named { IfOk result (λ x. word.now ≡ setting_word_of x) }
    ensures listed { IfOk result (λ x. O.takes x ≡ true) }
{
    match Setting::named(word) {
        Some(setting) if O::has(setting) => Ok(setting),
        _ => Err(OptionProblem::Unknown(String::from_str(heap, word)?, O::VERB).into()),
    }
}

impl<O: Options> Scan<O> {
    pub fn start() -> Scan<O>
        ensures value { result ≡ start O.unset }
    {
        Scan {
            options: O::given(),
            next: Next::Word,
        }
    }

    fn set(self, heap: Global, setting: Setting, value: &str) -> Result<Scan<O>, WordProblem>
        ensures takes { IfOk result (λ t. Takes O.sets setting value.now self t) }
    {
        let options = self.options.with(heap, setting, value)?;
        Ok(Scan {
            options,
            next: Next::Word,
        })
    }

    // A word that begins with a dash.
    fn option(self, heap: Global, word: &str) -> Result<Scan<O>, WordProblem>
        ensures opens { IfOk result (λ t. Opens O.sets word.now self t) }
        ensures listed { IfOk result (Owns O.takes) }
    {
        if word == "--" {
            return Ok(Scan {
                next: Next::Name,
                ..self
            });
        }
        match word.split_once('=') {
            Some((name, value)) => {
                let setting = setting_in::<O>(heap, name)?;
                self.set(heap, setting, value)
            }
            None => {
                let setting = setting_in::<O>(heap, word)?;
                Ok(Scan {
                    next: Next::Value(setting),
                    ..self
                })
            }
        }
    }

    // What one more word says of the options, or None where it is a name.
    pub fn hear(self, heap: Global, word: &str) -> Result<Option<Scan<O>>, WordProblem>
        ensures hears { IfOk result (λ h. Hears O.sets word.now self h) }
        ensures own { IfOk result (HearsOwn O.takes) }
    {
        match self.next {
            Next::Value(setting) => Ok(Some(self.set(heap, setting, word)?)),
            Next::Name => Ok(None),
            Next::Word => {
                if is_option(word.as_bytes()) {
                    Ok(Some(self.option(heap, word)?))
                } else {
                    Ok(None)
                }
            }
        }
    }
}

// Notes one more name, or refuses it at once where there are as many as the verb takes.
fn note(names: &mut Vec<String>, word: &String, most: usize, verb: Verb) -> Result<(), WordProblem>
    ensures few { OnOk result (length names.new.items ≤ most) }
    ensures noted { OnOk result (map string_bytes names.new.items ≡ map string_bytes names.old.items ++ (string_bytes word.now ∷ [])) }
{
    if names.len() >= most {
        return Err(WordProblem::WordCount(verb));
    }
    names.push(word.clone()?)?;
    Ok(())
}

// What the words say that stand after a verb with these options. One more name than `most` is refused.
pub fn read<O: Options>(heap: Global, words: &[String], most: usize) -> Result<Said<O>, WordProblem>
    ensures few { IfOk result (λ r. length r.names.items ≤ most) }
    ensures says { IfOk result (λ r. Says O.unset O.sets words.now r.options (map string_bytes r.names.items)) }
{
    let mut scan = Scan::<O>::start();
    let mut names = Vec::new(heap);
    for word in words {
        if let Some(more) = scan.hear(heap, word.as_str())? {
            scan = more;
            continue;
        }
        note(&mut names, word, most, O::VERB)?;
    }
    if let Next::Value(setting) = scan.next {
        return Err(OptionProblem::NoValue(setting).into());
    }
    Ok(Said {
        options: scan.options,
        names,
    })
}
