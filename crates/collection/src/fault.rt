// Why a collection refuses. Each refusal has a number, by which documents and other languages know it.
ghost use Rattle.std.specs.Prelude.{◌≡◌};
ghost use Rattle.collection.specs.Adding.{number as add_number};
ghost use Rattle.collection.specs.Closing.{number as close_number};
ghost use Rattle.collection.specs.HandingOver.{number as hand_over_number};
ghost use Rattle.collection.specs.Joining.{number as join_number};
ghost use Rattle.collection.specs.declared.fault.AddFault.TheVariants.{Reader};

use crate::FieldNumbers;
use piece::Header;
use piece::fault::ReadFault;

// Why a piece is not taken.
#[derive(Clone, Copy, Debug, PartialEq)]
pub enum AddFault {
    // The work is shorter than 4,623 codes.
    Work { has: usize },
    // The reader refuses the piece.
    Reader(ReadFault),
    // The collection is for another field.
    Field { has: FieldNumbers },
    // It has m pieces.
    Full { m: u8 },
    // The piece differs from the first in settings, length, job number or stamp.
    Differs { first: Header, piece: Header },
    // A piece of this number is there.
    Again { number: u8 },
}

impl AddFault {
    pub fn number(&self) -> u8
        ensures { result ≡ add_number self.now }
    {
        match self {
            AddFault::Work { .. } => 5,
            AddFault::Reader(fault) => fault.number(),
            AddFault::Field { .. } => 7,
            AddFault::Full { .. } => 11,
            AddFault::Differs { .. } => 12,
            AddFault::Again { .. } => 13,
        }
    }
}

// The reader's refusal goes on whole.
impl From<ReadFault> for AddFault {
    ghost from_gives = { λ e r. r ≡ Reader e };

    fn from(e: ReadFault) -> AddFault {
        AddFault::Reader(e)
    }
}

// Why a collection cannot be closed.
#[derive(Clone, Copy, Debug, PartialEq)]
pub enum CloseFault {
    // The collection is for another field.
    Field { has: FieldNumbers },
    // It has fewer pieces than bring a job back.
    Few { has: usize, needs: u8 },
}

impl CloseFault {
    pub fn number(&self) -> u8
        ensures { result ≡ close_number self.now }
    {
        match self {
            CloseFault::Field { .. } => 7,
            CloseFault::Few { .. } => 14,
        }
    }
}

// Why a closed collection cannot be handed over.
#[derive(Clone, Copy, Debug, PartialEq)]
pub enum HandOverFault {
    // The collection is for another field.
    Field { has: FieldNumbers },
    // The buffer is shorter than the job.
    Room { has: usize, needs: usize },
    // No job of the stated length has the pieces.
    NoJob,
}

impl HandOverFault {
    pub fn number(&self) -> u8
        ensures { result ≡ hand_over_number self.now }
    {
        match self {
            HandOverFault::Field { .. } => 7,
            HandOverFault::Room { .. } => 20,
            HandOverFault::NoJob => 21,
        }
    }
}

// Why a list of pieces is refused, with its place: that of the piece, or the number of pieces where it is the whole list.
// at stands in each variant: a match on one gives its place and its fault.
#[derive(Clone, Copy, Debug, PartialEq)]
pub enum JoinFault {
    Add { at: usize, fault: AddFault },
    Close { at: usize, fault: CloseFault },
    HandOver { at: usize, fault: HandOverFault },
}

impl JoinFault {
    pub fn number(&self) -> u8
        ensures { result ≡ join_number self.now }
    {
        match self {
            JoinFault::Add { fault, .. } => fault.number(),
            JoinFault::Close { fault, .. } => fault.number(),
            JoinFault::HandOver { fault, .. } => fault.number(),
        }
    }
}
