// Why the words of the command line ask for nothing.
use crate::field_name::FieldName;
use crate::help::Verb;
use crate::menu::Menu;
use crate::named::Named;
use crate::option_problem::OptionProblem;
use crate::setting::Setting;
use std::alloc::{AllocError, AllocFailed};
use std::fmt;

// What a number is written for, which says how large it may be.
#[derive(Clone, Copy)]
pub enum Limit {
    CodeOf(FieldName),
    ValueOf(Setting),
}

#[derive(Drop)]
pub enum WordProblem {
    NotAVerb(String, Menu),
    NotAField(String),
    NotANumber(String),
    TooLarge(String, Limit),
    WordCount(Verb),
    Options(OptionProblem),
    Memory,
}

// The line that the user reads, after the program's name. Words are escaped, so that it stays one line.
impl fmt::Display for WordProblem {
    fn fmt<W: fmt::Write>(&self, f: &mut fmt::Formatter<W>) -> fmt::Result {
        match self {
            WordProblem::NotAVerb(word, menu) => {
                let word = word.as_str().escape_debug();
                let verbs = menu.verbs();
                write!(f, "'{word}' is no verb: the verbs are {verbs} and help")
            }
            WordProblem::NotAField(word) => {
                let word = word.as_str().escape_debug();
                write!(f, "'{word}' is no field: the fields are gf256 and mod257")
            }
            WordProblem::NotANumber(word) => {
                let word = word.as_str().escape_debug();
                write!(
                    f,
                    "'{word}' is no number: write decimal (87) or hexadecimal (0x57)"
                )
            }
            WordProblem::TooLarge(word, Limit::CodeOf(field)) => {
                let word = word.as_str().escape_debug();
                let name = field.word();
                let largest = field.largest();
                write!(
                    f,
                    "'{word}' is no code of {name}: its codes are 0 to {largest} (0x0 to 0x{largest:x})"
                )
            }
            WordProblem::TooLarge(word, Limit::ValueOf(setting)) => {
                let word = word.as_str().escape_debug();
                let name = setting.word();
                let takes = setting.takes();
                write!(f, "'{word}' is too large for {name}: it takes {takes}")
            }
            WordProblem::WordCount(verb) => write!(f, "usage: {}", verb.usage()),
            WordProblem::Options(problem) => write!(f, "{problem}"),
            WordProblem::Memory => write!(f, "no memory is left"),
        }
    }
}

impl From<OptionProblem> for WordProblem {
    fn from(problem: OptionProblem) -> WordProblem {
        WordProblem::Options(problem)
    }
}

impl From<AllocError> for WordProblem {
    fn from(_e: AllocError) -> WordProblem {
        WordProblem::Memory
    }
}

impl<T: Drop> From<AllocFailed<T>> for WordProblem {
    fn from(_e: AllocFailed<T>) -> WordProblem {
        WordProblem::Memory
    }
}
