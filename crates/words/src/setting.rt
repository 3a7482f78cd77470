// The options of the verbs, as a user names them.
ghost use Rattle.std.specs.Prelude.{◌≡◌, [], ◌∷◌, refl};
ghost use Rattle.std.proofs.Common.{lit<};
ghost use Rattle.words.specs.declared.setting.Setting.TheVariants.{Column, Field, Job, Need, Of, Place, Rows, Stamp, Value};
ghost use Rattle.words.specs.Menus.{has_option};
ghost use Rattle.words.specs.Named.{setting_word_of};

use crate::help::Verb;
use crate::named::Named;

#[derive(Clone, Copy)]
pub enum Setting {
    Field,
    Rows,
    Need,
    Of,
    Job,
    Stamp,
    Column,
    Place,
    Value,
}

impl Named for Setting {
    ghost text = { setting_word_of };

    ghost all = { Field ∷ Rows ∷ Need ∷ Of ∷ Job ∷ Stamp ∷ Column ∷ Place ∷ Value ∷ [] };

    fn all() -> &'static [Setting] {
        &[
            Setting::Field,
            Setting::Rows,
            Setting::Need,
            Setting::Of,
            Setting::Job,
            Setting::Stamp,
            Setting::Column,
            Setting::Place,
            Setting::Value,
        ]
    }

    fn word(self) -> &'static str {
        match self {
            Setting::Field => "--field",
            Setting::Rows => "--rows",
            Setting::Need => "--need",
            Setting::Of => "--of",
            Setting::Job => "--job",
            Setting::Stamp => "--stamp",
            Setting::Column => "--column",
            Setting::Place => "--place",
            Setting::Value => "--value",
        }
    }

    ghost whole = { elim [ Field ↦ (0, lit< tt, refl) | Rows ↦ (1, lit< tt, refl) | Need ↦ (2, lit< tt, refl) | Of ↦ (3, lit< tt, refl) | Job ↦ (4, lit< tt, refl) | Stamp ↦ (5, lit< tt, refl) | Column ↦ (6, lit< tt, refl) | Place ↦ (7, lit< tt, refl) | Value ↦ (8, lit< tt, refl) ] };
}

impl Setting {
    // Whether it is an option of the verb.
    pub fn is_of(self, verb: Verb) -> bool
        ensures { result ≡ has_option verb self }
    {
        match self {
            Setting::Field
            | Setting::Rows
            | Setting::Need
            | Setting::Of
            | Setting::Job
            | Setting::Stamp => matches!(verb, Verb::Cut),
            Setting::Column | Setting::Place | Setting::Value => matches!(verb, Verb::Candidates),
        }
    }

    // What it takes.
    pub fn takes(self) -> &'static str {
        match self {
            Setting::Field => "gf256 or mod257",
            Setting::Rows => "cauchy or vandermonde",
            Setting::Need => "1 to 16",
            Setting::Of => "a number from --need to 32",
            Setting::Job => "0 to 65,535",
            Setting::Stamp => "0 to 4,294,967,295",
            Setting::Column => "a column of the pieces, counted from 0",
            Setting::Place => "1 to the number of pieces that bring the job back",
            Setting::Value => "a byte, 0 to 255",
        }
    }
}
