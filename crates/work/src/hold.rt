// Reads pieces to keep them.
ghost use Rattle.std.specs.Prelude.{◌≡◌, drop, IfOk, IfErr};
ghost use Rattle.piece.specs.Reading.{Accepts, header_in};
ghost use Rattle.words.specs.Named.{ops_of};
ghost use Rattle.work.specs.Opened.{named_in};
ghost use Rattle.work.specs.Unheld.{Unheld};
ghost use Rattle.work.specs.declared.hold.HoldProblem.TheVariants.{Fault, Memory};

use crate::held::Held;
use crate::open;
use piece::fault::ReadFault;
use std::alloc::{AllocError, Global};

// Why bytes are not kept as a piece. Not one generic type with CutProblem: a From of any fault is one of AllocError too.
#[derive(Clone, Copy)]
pub enum HoldProblem {
    Fault(ReadFault),
    Memory,
}

impl From<ReadFault> for HoldProblem {
    ghost from_gives = { λ e r. r ≡ Fault e };

    fn from(fault: ReadFault) -> HoldProblem {
        HoldProblem::Fault(fault)
    }
}

impl From<AllocError> for HoldProblem {
    ghost from_gives = { λ _ r. r ≡ Memory };

    fn from(_e: AllocError) -> HoldProblem {
        HoldProblem::Memory
    }
}

// Reads a piece of the field that its header names.
pub fn hold(heap: Global, bytes: &[u8]) -> Result<Held, HoldProblem>
    ensures held { IfOk result (λ p. (p.field ≡ named_in bytes.now) × Accepts (ops_of (named_in bytes.now)) bytes.now × (p.header ≡ header_in bytes.now) × (p.body.items ≡ drop 10 bytes.now)) }
    ensures refused { IfErr result (Unheld bytes.now) }
{
    let piece = open::open(bytes)?;
    let body = Vec::from_slice(heap, piece.body)?;
    Ok(Held {
        field: piece.field,
        header: piece.header,
        body,
    })
}
