// A number with a comma before each three digits.
use std::fmt;

#[derive(Clone, Copy)]
pub struct Grouped(pub usize);

// With so many commas at most.
fn write_grouped<W: fmt::Write>(
    f: &mut fmt::Formatter<W>,
    number: usize,
    commas: u8,
) -> fmt::Result {
    if commas == 0 || number < 1000 {
        return write!(f, "{number}");
    }
    write_grouped(f, number / 1000, commas - 1)?;
    let group = number % 1000;
    write!(f, ",{group:03}")
}

// Above 999,999,999,999 the first group is longer.
impl fmt::Display for Grouped {
    fn fmt<W: fmt::Write>(&self, f: &mut fmt::Formatter<W>) -> fmt::Result {
        write_grouped(f, self.0, 3)
    }
}

// So many of something, as `1 byte` or `1,024 bytes`.
#[derive(Clone, Copy)]
pub struct Counted(pub usize, pub &'static str);

impl fmt::Display for Counted {
    fn fmt<W: fmt::Write>(&self, f: &mut fmt::Formatter<W>) -> fmt::Result {
        let number = Grouped(self.0);
        let what = self.1;
        let end = if self.0 == 1 { "" } else { "s" };
        write!(f, "{number} {what}{end}")
    }
}
