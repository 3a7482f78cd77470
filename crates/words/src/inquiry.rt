// What `candidates` is asked for.
ghost use Rattle.std.specs.Prelude.{◌≡◌, IfOk};
ghost use Rattle.words.specs.Inquiries.{Inquires};

use crate::asking::Wanted;
use crate::help::Verb;
use crate::option_problem::OptionProblem;
use crate::scan;
use crate::setting::Setting;
use crate::word_problem::WordProblem;
use std::alloc::Global;

#[derive(Drop)]
pub struct Inquiry {
    // Counted from 0.
    pub column: u16,
    // Counted from 1.
    pub place: u8,
    pub value: Option<u8>,
    pub pieces: Vec<String>,
}

// The words are those after the verb. What is asked for is what they write.
pub fn read(heap: Global, words: &[String]) -> Result<Inquiry, WordProblem>
    ensures asked { IfOk result (Inquires words.now) }
{
    // All words may be names.
    let said = scan::read::<Wanted>(heap, words, words.len())?;
    if said.names.is_empty() {
        return Err(WordProblem::WordCount(Verb::Candidates));
    }
    let column = said
        .options
        .column
        .ok_or(OptionProblem::Missing(Setting::Column))?;
    let place = said
        .options
        .place
        .ok_or(OptionProblem::Missing(Setting::Place))?;
    Ok(Inquiry {
        column,
        place,
        value: said.options.value,
        pieces: said.names,
    })
}
