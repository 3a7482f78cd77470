// The kinds of rows, as a user names them.
ghost use Rattle.std.specs.Prelude.{◌≡◌, ◌≤◌, [], ◌∷◌, refl};
ghost use Rattle.std.proofs.Common.{lit<};
ghost use Rattle.piece.specs.declared.kind.Rows.TheVariants.{Cauchy, Vandermonde};
ghost use Rattle.piece.specs.Rows.{number_of};
ghost use Rattle.words.specs.Named.{rows_word_of};

use crate::named::Named;
use piece::kind::Rows;

impl Named for Rows {
    ghost text = { rows_word_of };

    ghost all = { Vandermonde ∷ Cauchy ∷ [] };

    fn all() -> &'static [Rows] {
        &[Rows::Vandermonde, Rows::Cauchy]
    }

    fn word(self) -> &'static str {
        match self {
            Rows::Vandermonde => "vandermonde",
            Rows::Cauchy => "cauchy",
        }
    }

    ghost whole = { elim [ Vandermonde ↦ (0, lit< tt, refl) | Cauchy ↦ (1, lit< tt, refl) ] };
}

// The kind that a number stands for in a piece; there are no others than 0 and 1.
pub fn coded(code: u8) -> Rows
    ensures value { code ≤ 1 → number_of result ≡ code }
{
    Rows::try_from(code).unwrap_or(Rows::Cauchy)
}
