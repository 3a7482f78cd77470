// An open collection.
ghost use Rattle.std.specs.Prelude.{◌≡◌, ◌≤◌, length};
ghost use Rattle.collection.specs.Books.{SymbolsBelow};

use crate::book::Book;

pub mod calls;

// A collection that takes pieces. It keeps the work that it was lent until it is given up, or hands it on as it is closed.
// The work holds one row for each piece: room for m coefficients, then the piece's symbols.
pub struct Open<'w> {
    work: &'w mut [u16],
    book: Book,
    ghost room: { (1 ≤ book.have → 4623 ≤ length work.now) },
    ghost codes: { SymbolsBelow book work.now },
}
