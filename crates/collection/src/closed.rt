// A closed collection.
ghost use Rattle.std.specs.Prelude.{◌≡◌, ◌≤◌, length};
ghost use Rattle.collection.specs.Books.{SymbolsBelow, places};

use crate::book::Book;

pub mod calls;

// A collection whose m pieces were turned into the symbols of the job, where there is one. It keeps the work that it was
// lent until it is handed over or given up. The row j of the work has the symbols at the place j of all columns.
pub struct Closed<'w> {
    pub(crate) work: &'w mut [u16],
    pub(crate) book: Book,
    ghost full: { book.have ≡ places book },
    ghost room: { 4623 ≤ length work.now },
    ghost codes: { SymbolsBelow book work.now },
}
