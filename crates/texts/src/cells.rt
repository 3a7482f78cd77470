// The symbols of a column.
use std::fmt;

// A blank and two hexadecimal digits or more for each, the first place first.
#[derive(Clone, Copy)]
pub struct Cells<'a>(pub &'a [u16]);

impl fmt::Display for Cells<'_> {
    fn fmt<W: fmt::Write>(&self, f: &mut fmt::Formatter<W>) -> fmt::Result {
        for cell in self.0 {
            write!(f, " {cell:02x}")?;
        }
        Ok(())
    }
}
