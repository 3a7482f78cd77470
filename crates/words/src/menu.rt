// Which verbs a program has.
ghost use Rattle.std.specs.Prelude.{◌≡◌, true, MatchOption, ◌≢◌};
ghost use Rattle.words.specs.Named.{verb_word_of};
ghost use Rattle.words.specs.Menus.{lists};

use crate::help::Verb;
use crate::named::Named;

#[derive(Clone, Copy)]
pub enum Menu {
    // Working with the fields, and cutting.
    Cutting,
    // Every verb.
    Whole,
}

impl Menu {
    pub fn has(self, verb: Verb) -> bool
        ensures value { result ≡ lists self verb }
    {
        match verb {
            Verb::Show | Verb::Candidates => matches!(self, Menu::Whole),
            Verb::Fields | Verb::Times | Verb::Inverse | Verb::Cut | Verb::Help => true,
        }
    }

    // Its verb that a word names.
    pub fn named(self, word: &str) -> Option<Verb>
        ensures cases { MatchOption result ((x : Verb) → lists self x ≡ true → word.now ≢ verb_word_of x) (λ x. (word.now ≡ verb_word_of x) × (lists self x ≡ true)) }
    {
        Verb::named(word).filter(|verb| self.has(*verb))
    }

    // Its verbs but for help, which comes last.
    pub fn verbs(self) -> &'static str {
        match self {
            Menu::Cutting => "fields, times, inverse, cut",
            Menu::Whole => "fields, times, inverse, cut, show, candidates",
        }
    }
}
