// What a user calls by a word.
ghost use Rattle.std.specs.Prelude.{◌≡◌, ℕ, List, MatchOption, ◌≢◌};
ghost use Rattle.std.specs.List.{Contains};

pub trait Named: Copy + 'static {
    ghost text: { Self → List ℕ };

    ghost all: { List Self };

    fn all() -> &'static [Self]
        ensures value { result.now ≡ all };

    fn word(self) -> &'static str
        ensures value { result.now ≡ text self };

    // The one that a word names.
    final fn named(word: &str) -> Option<Self>
        ensures cases { MatchOption result ((x : Self) → word.now ≢ text x) (λ x. word.now ≡ text x) }
    {
        // Not by find: the check finds no proof.
        for x in Self::all() {
            if x.word() == word {
                return Some(*x);
            }
        }
        None
    }

    // None is left out.
    ghost whole: { (x : Self) → Contains all x };
}
