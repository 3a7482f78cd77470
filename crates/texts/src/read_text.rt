// The refusals of reading, with their numbers and their bytes.
use crate::grouped::Counted;
use piece::fault::ReadFault;
use std::fmt;

// The longest body.
const LONGEST: usize = 4608;

// A type of this crate, since Display of another crate's type needs one.
#[derive(Clone, Copy)]
pub struct Unread(pub ReadFault);

impl fmt::Display for Unread {
    fn fmt<W: fmt::Write>(&self, f: &mut fmt::Formatter<W>) -> fmt::Result {
        let refusal = self.0.number();
        match self.0 {
            ReadFault::Short { length } => {
                let length = Counted(length, "byte");
                write!(
                    f,
                    "refused ({refusal}) at byte 0: the file has {length}, a header has 10"
                )
            }
            ReadFault::Field { code, .. } => write!(
                f,
                "refused ({refusal}) at byte 0: the field code is {code}: it is 0 for gf256 and 1 for mod257"
            ),
            ReadFault::Header {
                rows,
                m,
                n,
                number,
                length,
            } => write!(
                f,
                "refused ({refusal}) at byte 0: rows kind {rows}, needs {m} of {n}, piece {number}, a job of {length}: the rows kind is 0 or 1, needs and the piece are at most of, a job has at most 4,096 bytes"
            ),
            // Of a longer file only the front was read.
            ReadFault::Body { has, needs } if has > LONGEST => {
                let needs = Counted(needs, "byte");
                write!(
                    f,
                    "refused ({refusal}) at byte 10: the body has more than 4,608 bytes, its columns take {needs}"
                )
            }
            ReadFault::Body { has, needs } => {
                let has = Counted(has, "byte");
                let needs = Counted(needs, "byte");
                write!(
                    f,
                    "refused ({refusal}) at byte 10: the body has {has}, its columns take {needs}"
                )
            }
            ReadFault::Value { byte } => write!(
                f,
                "refused ({refusal}) at byte {byte}: a value is no code of the field, or a spare bit is 1"
            ),
        }
    }
}
