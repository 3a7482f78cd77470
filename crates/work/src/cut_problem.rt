// Why a job cannot be cut.
ghost use Rattle.std.specs.Prelude.{◌≡◌};
ghost use Rattle.work.specs.declared.cut_problem.CutProblem.TheVariants.{Fault, Memory};

use piece::fault::CutFault;
use std::alloc::{AllocError, AllocFailed};

#[derive(Clone, Copy)]
pub enum CutProblem {
    Fault(CutFault),
    Memory,
}

impl From<CutFault> for CutProblem {
    ghost from_gives = { λ e r. r ≡ Fault e };

    fn from(fault: CutFault) -> CutProblem {
        CutProblem::Fault(fault)
    }
}

impl From<AllocError> for CutProblem {
    ghost from_gives = { λ _ r. r ≡ Memory };

    fn from(_e: AllocError) -> CutProblem {
        CutProblem::Memory
    }
}

impl<T: Drop> From<AllocFailed<T>> for CutProblem {
    ghost from_gives = { λ _ r. r ≡ Memory };

    fn from(_e: AllocFailed<T>) -> CutProblem {
        CutProblem::Memory
    }
}
