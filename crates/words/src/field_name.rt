// The fields, as a user names them.
ghost use Rattle.std.specs.Prelude.{◌≡◌, ◌+◌, ◌<◌, [], ◌∷◌, MatchOption, refl};
ghost use Rattle.std.proofs.Common.{lit<};
ghost use Rattle.words.specs.declared.field_name.FieldName.TheVariants.{Gf256, Mod257};
ghost use Rattle.words.specs.Named.{ops_of, word_of};

use crate::named::Named;
use field::Field;
use field::gf256::Gf256;
use field::mod257::Mod257;

#[derive(Clone, Copy, PartialEq)]
pub enum FieldName {
    Gf256,
    Mod257,
}

impl Named for FieldName {
    ghost text = { word_of };

    ghost all = { Gf256 ∷ Mod257 ∷ [] };

    fn all() -> &'static [FieldName] {
        &[FieldName::Gf256, FieldName::Mod257]
    }

    fn word(self) -> &'static str {
        match self {
            FieldName::Gf256 => "gf256",
            FieldName::Mod257 => "mod257",
        }
    }

    ghost whole = { elim [ Gf256 ↦ (0, lit< tt, refl) | Mod257 ↦ (1, lit< tt, refl) ] };
}

// A match stands in these: a closure takes no type, and a visitor would be a struct and an impl for one call alone.
impl FieldName {
    pub fn title(self) -> &'static str {
        match self {
            FieldName::Gf256 => "GF(2^8)",
            FieldName::Mod257 => "integers modulo 257",
        }
    }

    // The largest code.
    pub fn largest(self) -> u16
        ensures value { result + 1 ≡ (ops_of self).order }
    {
        match self {
            FieldName::Gf256 => Gf256::order() - 1,
            FieldName::Mod257 => Mod257::order() - 1,
        }
    }

    pub fn times(self, a: u16, b: u16) -> u16
        requires left { a < (ops_of self).order }
        requires right { b < (ops_of self).order }
        ensures value { result ≡ (ops_of self).mul a b }
    {
        match self {
            FieldName::Gf256 => Gf256::mul(a, b),
            FieldName::Mod257 => Mod257::mul(a, b),
        }
    }

    // The inverse of a code; 0 has none.
    pub fn inverse(self, a: u16) -> Option<u16>
        requires { a < (ops_of self).order }
        ensures cases { MatchOption result (a ≡ 0) (λ x. x ≡ (ops_of self).inv a) }
    {
        if a == 0 {
            return None;
        }
        Some(match self {
            FieldName::Gf256 => Gf256::inv(a),
            FieldName::Mod257 => Mod257::inv(a),
        })
    }
}
