// How a job is to be cut, as the options say.
ghost use Rattle.std.specs.Prelude.{◌≡◌, IfOk};
ghost use Rattle.words.specs.Options.{Number, Sets, given, settings_of};
ghost use Rattle.words.specs.Menus.{cuts};
ghost use Rattle.words.specs.Named.{rows_word_of, word_of};

use crate::code;
use crate::code::Refusal;
use crate::field_name::FieldName;
use crate::help::Verb;
use crate::named::Named;
use crate::option_problem::OptionProblem;
use crate::scan::Options;
use crate::setting::Setting;
use crate::word_problem::{Limit, WordProblem};
use piece::Settings;
use piece::kind::Rows;
use std::alloc::Global;

#[derive(Clone, Copy)]
pub struct CutOptions {
    pub field: FieldName,
    pub rows: Rows,
    pub need: u8,
    pub total: u8,
    pub job: u16,
    pub stamp: u32,
}

pub(crate) fn field_in(heap: Global, value: &str) -> Result<FieldName, WordProblem>
    ensures named { IfOk result (λ x. value.now ≡ word_of x) }
{
    let field = FieldName::named(value);
    field.try_ok_or_else(|| Ok(WordProblem::NotAField(String::from_str(heap, value)?)))
}

fn rows_in(heap: Global, value: &str) -> Result<Rows, WordProblem>
    ensures named { IfOk result (λ x. value.now ≡ rows_word_of x) }
{
    let rows = Rows::named(value);
    rows.try_ok_or_else(|| Ok(OptionProblem::NotRows(String::from_str(heap, value)?).into()))
}

// Where `most` fits a narrower type, the result may be narrowed to it by `as`. `most` stands beside `limit`, since two of
// the settings that a limit may name take no number.
pub(crate) fn number_in(
    heap: Global,
    value: &str,
    most: u32,
    limit: Limit,
) -> Result<u32, WordProblem>
    ensures number { IfOk result (λ x. Number most value.now x) }
{
    match code::read(value.as_bytes(), most) {
        Ok(number) => Ok(number),
        Err(Refusal::NotANumber) => Err(WordProblem::NotANumber(String::from_str(heap, value)?)),
        Err(Refusal::TooLarge) => Err(WordProblem::TooLarge(String::from_str(heap, value)?, limit)),
    }
}

impl Options for CutOptions {
    ghost unset = { given };

    ghost sets = { Sets };

    ghost takes = { cuts };

    const VERB: Verb = Verb::Cut;

    fn has(setting: Setting) -> bool {
        setting.is_of(Verb::Cut)
    }

    fn given() -> CutOptions {
        CutOptions {
            field: FieldName::Gf256,
            rows: Rows::Cauchy,
            need: 10,
            total: 14,
            job: 1,
            stamp: 1,
        }
    }

    // Whether need and total are in range is left to the cutting.
    fn with(self, heap: Global, setting: Setting, value: &str) -> Result<CutOptions, WordProblem> {
        match setting {
            Setting::Field => {
                let field = field_in(heap, value)?;
                Ok(CutOptions { field, ..self })
            }
            Setting::Rows => {
                let rows = rows_in(heap, value)?;
                Ok(CutOptions { rows, ..self })
            }
            Setting::Need => {
                let need = number_in(heap, value, 255, Limit::ValueOf(setting))? as u8;
                Ok(CutOptions { need, ..self })
            }
            Setting::Of => {
                let total = number_in(heap, value, 255, Limit::ValueOf(setting))? as u8;
                Ok(CutOptions { total, ..self })
            }
            Setting::Job => {
                let job = number_in(heap, value, 65535, Limit::ValueOf(setting))? as u16;
                Ok(CutOptions { job, ..self })
            }
            Setting::Stamp => {
                let stamp = number_in(heap, value, 4294967295, Limit::ValueOf(setting))?;
                Ok(CutOptions { stamp, ..self })
            }
            Setting::Column | Setting::Place | Setting::Value => Err(OptionProblem::Unknown(
                String::from_str(heap, setting.word())?,
                CutOptions::VERB,
            ).into()),
        }
    }
}

impl CutOptions {
    pub fn settings(&self) -> Settings
        ensures value { result ≡ settings_of self.now }
    {
        Settings {
            rows: self.rows.into(),
            m: self.need,
            n: self.total,
        }
    }
}
