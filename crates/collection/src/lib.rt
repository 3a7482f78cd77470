#![tactic(auto)]
// Collections of pieces, and the jobs that they bring back.
ghost use Rattle.std.specs.Prelude.{◌≡◌};
ghost use Rattle.collection.specs.Collected.{field_numbers_of};

use field::Field;

mod back;
mod book;
pub mod closed;
pub mod fault;
pub mod join;
pub mod open;

// The work that suffices for any job, in codes.
pub const WORK: usize = 4623;

// The numbers of a field, by which a collection knows the field that it is for.
#[derive(Clone, Copy, Debug, PartialEq)]
pub struct FieldNumbers {
    // The field code.
    pub code: u8,
    // How many codes there are.
    pub order: u16,
    // The bits that a code takes in a piece.
    pub width: u32,
}

impl FieldNumbers {
    // The numbers of the field F.
    pub fn of<F: Field>() -> FieldNumbers
        ensures { result ≡ field_numbers_of F.ops }
    {
        FieldNumbers {
            code: F::code(),
            order: F::order(),
            width: F::width(),
        }
    }
}
