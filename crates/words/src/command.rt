// What the user asks for, read from the words of the command line.
ghost use Rattle.std.specs.Prelude.{◌≡◌, ◌<◌, true, map, IfOk, string_bytes};
ghost use Rattle.words.specs.declared.help.Verb.TheVariants.{Inverse, Show, Times};
ghost use Rattle.words.specs.Named.{ops_of};
ghost use Rattle.words.specs.Menus.{lists};
ghost use Rattle.words.specs.Command.{Calls, Listed, Shows, Sound};

use crate::field_name::FieldName;
use crate::help::Verb;
use crate::inquiry::Inquiry;
use crate::menu::Menu;
use crate::options::{field_in, number_in};
use crate::request::Request;
use crate::word_problem::{Limit, WordProblem};
use crate::{inquiry, request};
use std::alloc::Global;

// Codes are plain numbers: a type for a code with its field would still have to say in Times that both fields are one.
#[derive(Drop)]
pub enum Command {
    Overview,
    About(Verb),
    Fields,
    Times(FieldName, u16, u16),
    Inverse(FieldName, u16),
    Cut(Request),
    Show(Vec<String>),
    Candidates(Inquiry),
}

fn code_in(heap: Global, word: &str, field: FieldName) -> Result<u16, WordProblem>
    ensures below { IfOk result (λ x. x < (ops_of field).order) }
{
    let most = u32::from(field.largest());
    Ok(number_in(heap, word, most, Limit::CodeOf(field))? as u16)
}

fn verb_in(word: &String, menu: Menu) -> Result<Verb, WordProblem>
    ensures listed { IfOk result (λ v. lists menu v ≡ true) }
{
    if word.as_str() == "--help" || word.as_str() == "-h" {
        return Ok(Verb::Help);
    }
    let verb = menu.named(word.as_str());
    verb.try_ok_or_else(|| Ok(WordProblem::NotAVerb(word.clone()?, menu)))
}

fn times_in(heap: Global, words: &[String]) -> Result<Command, WordProblem>
    ensures sound { IfOk result Sound }
    ensures calls { IfOk result (Calls Times) }
{
    let [field, a, b] = words else {
        return Err(WordProblem::WordCount(Verb::Times));
    };
    let field = field_in(heap, field.as_str())?;
    let a = code_in(heap, a.as_str(), field)?;
    let b = code_in(heap, b.as_str(), field)?;
    Ok(Command::Times(field, a, b))
}

fn inverse_in(heap: Global, words: &[String]) -> Result<Command, WordProblem>
    ensures sound { IfOk result Sound }
    ensures calls { IfOk result (Calls Inverse) }
{
    let [field, a] = words else {
        return Err(WordProblem::WordCount(Verb::Inverse));
    };
    let field = field_in(heap, field.as_str())?;
    let a = code_in(heap, a.as_str(), field)?;
    Ok(Command::Inverse(field, a))
}

fn help_in(words: &[String], menu: Menu) -> Result<Command, WordProblem>
    ensures sound { IfOk result Sound }
    ensures listed { IfOk result (Listed menu) }
{
    match words {
        [] => Ok(Command::Overview),
        [verb] => Ok(Command::About(verb_in(verb, menu)?)),
        _ => Err(WordProblem::WordCount(Verb::Help)),
    }
}

// The words as they are.
fn names_in(heap: Global, words: &[String]) -> Result<Vec<String>, WordProblem>
    ensures same { IfOk result (λ v. map string_bytes v.items ≡ map string_bytes words.now) }
{
    Ok(words.to_vec(heap)?)
}

fn show_in(heap: Global, words: &[String]) -> Result<Command, WordProblem>
    ensures sound { IfOk result Sound }
    ensures calls { IfOk result (Calls Show) }
    ensures files { IfOk result (Shows words.now) }
{
    if words.is_empty() {
        return Err(WordProblem::WordCount(Verb::Show));
    }
    Ok(Command::Show(names_in(heap, words)?))
}

// The words are those after the program's own name. Codes in a command are codes of its field, and its verbs are on the menu.
pub fn read(heap: Global, words: &[String], menu: Menu) -> Result<Command, WordProblem>
    ensures sound { IfOk result Sound }
    ensures listed { IfOk result (Listed menu) }
{
    let [verb, rest @ ..] = words else {
        return Ok(Command::Overview);
    };
    match verb_in(verb, menu)? {
        Verb::Times => times_in(heap, rest),
        Verb::Inverse => inverse_in(heap, rest),
        Verb::Cut => Ok(Command::Cut(request::read(heap, rest)?)),
        Verb::Show => show_in(heap, rest),
        Verb::Candidates => Ok(Command::Candidates(inquiry::read(heap, rest)?)),
        Verb::Help => help_in(rest, menu),
        Verb::Fields => {
            if rest.is_empty() {
                Ok(Command::Fields)
            } else {
                Err(WordProblem::WordCount(Verb::Fields))
            }
        }
    }
}
