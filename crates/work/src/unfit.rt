// Why pieces leave no column to ask for.
ghost use Rattle.std.specs.Prelude.{◌≡◌};
ghost use Rattle.work.specs.declared.unfit.Unfit.TheVariants.{Memory};

use std::alloc::{AllocError, AllocFailed};

// What the pieces of a job have in common.
#[derive(Clone, Copy)]
pub enum Common {
    Field,
    Settings,
    Length,
    Job,
    Stamp,
}

#[derive(Clone, Copy)]
pub enum Unfit {
    NoPiece,
    // The piece at this index differs from the first in this.
    Differ { at: usize, what: Common },
    // The rows are Vandermonde.
    Rows,
    Count { needs: usize, given: usize },
    // The pieces at these two indices have one number.
    Twice { first: usize, second: usize },
    // There is no such column.
    Column { column: usize, columns: usize },
    // There is no such place.
    Place { place: u8, m: u8 },
    Memory,
}

impl From<AllocError> for Unfit {
    ghost from_gives = { λ _ r. r ≡ Memory };

    fn from(_e: AllocError) -> Unfit {
        Unfit::Memory
    }
}

impl<T: Drop> From<AllocFailed<T>> for Unfit {
    ghost from_gives = { λ _ r. r ≡ Memory };

    fn from(_e: AllocFailed<T>) -> Unfit {
        Unfit::Memory
    }
}
