#![tactic(auto)]
// Pieces of a job: settings, cutting and reading.
ghost use Rattle.std.specs.Prelude.{◌≡◌, ◌+◌, ◌-◌, ◌/◌, ◌≤◌};
ghost use Rattle.piece.specs.Rows.{OfNumber};

pub mod bits;
pub mod columns;
pub mod entries;
pub mod fault;
mod head;
pub mod kind;
pub mod layout;
pub mod read;
pub mod scheme;
pub mod worked;

use kind::{Rows, UnknownRows};

// The longest job, in bytes. A piece has no more symbols than this.
pub const LONGEST: usize = 4096;

// How a job is cut: the number of a kind of rows, how many pieces bring it back, and how many there are. Any numbers may
// stand here, also one of no kind of rows; the calls refuse what is out of range.
#[derive(Clone, Copy, Debug, PartialEq)]
pub struct Settings {
    pub rows: u8,
    pub m: u8,
    pub n: u8,
}

impl Settings {
    // The kind of rows that the number names.
    pub fn kind(&self) -> Result<Rows, UnknownRows>
        ensures { OfNumber self.now.rows result }
    {
        Rows::try_from(self.rows)
    }

    // How many columns a job of so many bytes fills.
    pub fn columns(&self, length: usize) -> usize
        requires { 1 ≤ self.now.m }
        ensures { result ≡ (length + (self.now.m - 1)) / self.now.m }
    {
        length.div_ceil(self.m as usize)
    }
}

// What the first ten bytes of a piece say, but for the field.
// A header as it was read may be out of range, so contracts say where one is in range, and not its type.
#[derive(Clone, Copy, Debug, PartialEq)]
pub struct Header {
    pub settings: Settings,
    // The piece's number, from 1 on.
    pub number: u8,
    // The job's length in bytes.
    pub length: u16,
    // The job's number.
    pub job: u16,
    pub stamp: u32,
}
