// What the options of `candidates` say.
ghost use Rattle.std.specs.Prelude.{◌≡◌, IfOk};
ghost use Rattle.words.specs.Askings.{Wants, unasked};
ghost use Rattle.words.specs.Menus.{inquires};

use crate::help::Verb;
use crate::named::Named;
use crate::option_problem::OptionProblem;
use crate::options::number_in;
use crate::scan::Options;
use crate::setting::Setting;
use crate::word_problem::{Limit, WordProblem};
use std::alloc::Global;

// The values of those that are given.
#[derive(Clone, Copy)]
pub struct Wanted {
    pub column: Option<u16>,
    pub place: Option<u8>,
    pub value: Option<u8>,
}

impl Options for Wanted {
    ghost unset = { unasked };

    ghost sets = { Wants };

    ghost takes = { inquires };

    const VERB: Verb = Verb::Candidates;

    fn has(setting: Setting) -> bool {
        setting.is_of(Verb::Candidates)
    }

    fn given() -> Wanted {
        Wanted {
            column: None,
            place: None,
            value: None,
        }
    }

    fn with(self, heap: Global, setting: Setting, value: &str) -> Result<Wanted, WordProblem> {
        match setting {
            Setting::Column => {
                let column = number_in(heap, value, 65535, Limit::ValueOf(setting))? as u16;
                Ok(Wanted {
                    column: Some(column),
                    ..self
                })
            }
            Setting::Place => {
                let place = number_in(heap, value, 255, Limit::ValueOf(setting))? as u8;
                Ok(Wanted {
                    place: Some(place),
                    ..self
                })
            }
            Setting::Value => {
                let byte = number_in(heap, value, 255, Limit::ValueOf(setting))? as u8;
                Ok(Wanted {
                    value: Some(byte),
                    ..self
                })
            }
            Setting::Field
            | Setting::Rows
            | Setting::Need
            | Setting::Of
            | Setting::Job
            | Setting::Stamp => Err(OptionProblem::Unknown(
                String::from_str(heap, setting.word())?,
                Wanted::VERB,
            ).into()),
        }
    }
}
