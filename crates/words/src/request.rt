// What `cut` is asked for.
ghost use Rattle.std.specs.Prelude.{◌≡◌, ◌≤◌, map, length, IfOk, string_bytes};
ghost use Rattle.words.specs.Options.{Sets, given};
ghost use Rattle.words.specs.Requests.{Asked};
ghost use Rattle.words.specs.Scans.{Says};

use crate::help::Verb;
use crate::options::CutOptions;
use crate::scan;
use crate::scan::Said;
use crate::word_problem::WordProblem;
use std::alloc::Global;

#[derive(Drop)]
pub struct Request {
    pub options: CutOptions,
    pub file: String,
    pub folder: String,
}

// What the words say, with two names at most: those of the file and of the folder.
fn said(heap: Global, words: &[String]) -> Result<Said<CutOptions>, WordProblem>
    ensures few { IfOk result (λ r. length r.names.items ≤ 2) }
    ensures says { IfOk result (λ r. Says given Sets words.now r.options (map string_bytes r.names.items)) }
{
    scan::read::<CutOptions>(heap, words, 2)
}

// The words are those after the verb. What is asked for is what they write.
pub fn read(heap: Global, words: &[String]) -> Result<Request, WordProblem>
    ensures asked { IfOk result (Asked words.now) }
{
    let said = said(heap, words)?;
    match <[String; 2]>::try_from(said.names) {
        Ok([file, folder]) => Ok(Request {
            options: said.options,
            file,
            folder,
        }),
        Err(_names) => Err(WordProblem::WordCount(Verb::Cut)),
    }
}
