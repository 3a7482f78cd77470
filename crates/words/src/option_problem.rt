// Why the options of a verb cannot be read.
use crate::help::Verb;
use crate::named::Named;
use crate::setting::Setting;
use std::fmt;

#[derive(Drop)]
pub enum OptionProblem {
    Unknown(String, Verb),
    NoValue(Setting),
    Missing(Setting),
    NotRows(String),
}

impl fmt::Display for OptionProblem {
    fn fmt<W: fmt::Write>(&self, f: &mut fmt::Formatter<W>) -> fmt::Result {
        match self {
            OptionProblem::Unknown(word, verb) => {
                let word = word.as_str().escape_debug();
                let name = verb.word();
                let options = verb.options();
                write!(
                    f,
                    "'{word}' is no option of {name}: the options are {options}"
                )
            }
            OptionProblem::NoValue(setting) => {
                let word = setting.word();
                let takes = setting.takes();
                write!(f, "{word} has no value: it takes {takes}")
            }
            OptionProblem::Missing(setting) => {
                let word = setting.word();
                let takes = setting.takes();
                write!(f, "{word} is missing: it takes {takes}")
            }
            OptionProblem::NotRows(word) => {
                let word = word.as_str().escape_debug();
                write!(
                    f,
                    "'{word}' is no kind of rows: the kinds are cauchy and vandermonde"
                )
            }
        }
    }
}
