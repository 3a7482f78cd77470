// Why pieces leave no column to ask for, in words.
use crate::grouped::{Counted, Grouped};
use std::fmt;
use work::unfit::{Common, Unfit};

// The refusal, and the names of the files in their order.
#[derive(Clone, Copy)]
pub struct Misfit<'a>(pub Unfit, pub &'a [String]);

// No index is out of range: Unfit names pieces that were given.
fn name_at(names: &[String], at: usize) -> &str {
    names.get(at).map_or("", |name| name.as_str())
}

// A text and no Display: the type is of crate work, which holds no words.
fn common(what: Common) -> &'static str {
    match what {
        Common::Field => "field",
        Common::Settings => "settings (rows, needs, of)",
        Common::Length => "job's length",
        Common::Job => "job's number",
        Common::Stamp => "stamp",
    }
}

fn no_column<W: fmt::Write>(
    f: &mut fmt::Formatter<W>,
    column: usize,
    columns: usize,
) -> fmt::Result {
    let column = Grouped(column);
    if columns == 0 {
        return write!(f, "there is no column {column}: the job is empty");
    }
    let last = Grouped(columns - 1);
    write!(
        f,
        "there is no column {column}: the columns are 0 to {last}"
    )
}

impl fmt::Display for Misfit<'_> {
    fn fmt<W: fmt::Write>(&self, f: &mut fmt::Formatter<W>) -> fmt::Result {
        match self.0 {
            Unfit::NoPiece => write!(f, "no piece was given"),
            Unfit::Differ { at, what } => {
                let first = name_at(self.1, 0).escape_debug();
                let other = name_at(self.1, at).escape_debug();
                let what = common(what);
                write!(
                    f,
                    "'{first}' and '{other}' are no pieces of one cut: they differ in the {what}"
                )
            }
            Unfit::Rows => write!(
                f,
                "the pieces are cut with Vandermonde rows, for which no hiding is claimed: candidates wants Cauchy rows"
            ),
            Unfit::Count { needs, given } => {
                let are = if needs == 1 { "is" } else { "are" };
                let were = if given == 1 { "was" } else { "were" };
                let needs = Counted(needs, "piece");
                write!(f, "m - 1 = {needs} {are} needed, {given} {were} given")
            }
            Unfit::Twice { first, second } => {
                let first = name_at(self.1, first).escape_debug();
                let second = name_at(self.1, second).escape_debug();
                write!(f, "'{first}' and '{second}' have the same piece number")
            }
            Unfit::Column { column, columns } => no_column(f, column, columns),
            Unfit::Place { place, m } => {
                write!(f, "there is no place {place}: the places are 1 to {m}")
            }
            Unfit::Memory => write!(f, "no memory is left"),
        }
    }
}
