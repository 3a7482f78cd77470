// The refusals of cutting, with their numbers.
use crate::grouped::Counted;
use piece::fault::CutFault;
use std::fmt;

// A type of this crate, since Display of another crate's type needs one.
#[derive(Clone, Copy)]
pub struct Shown(pub CutFault);

impl fmt::Display for Shown {
    fn fmt<W: fmt::Write>(&self, f: &mut fmt::Formatter<W>) -> fmt::Result {
        let refusal = self.0.number();
        match self.0 {
            CutFault::Settings { rows, m, n } => write!(
                f,
                "refused ({refusal}): rows kind {rows}, need {m} of {n}: the rows kind is 0 or 1, need is 1 to 16, of is need to 32"
            ),
            CutFault::Job { length } => {
                let length = Counted(length, "byte");
                write!(
                    f,
                    "refused ({refusal}): the job has {length}, more than 4,096"
                )
            }
            CutFault::Number { number, n } => write!(
                f,
                "refused ({refusal}): there is no piece {number}: the pieces are 1 to {n}"
            ),
            CutFault::Room { has, needs } => {
                let has = Counted(has, "byte");
                let needs = Counted(needs, "byte");
                write!(
                    f,
                    "refused ({refusal}): the buffer has {has}, the piece {needs}"
                )
            }
        }
    }
}
