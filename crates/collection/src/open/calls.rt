// What can be done with an open collection.
ghost use Rattle.std.specs.Prelude.{◌≡◌, ℕ, ◌+◌, ◌-◌, ◌*◌, ◌/◌, ◌<◌, ◌≤◌, List, [], length, replicate, MatchResult, slice_index};
ghost use Rattle.field.specs.Rows.{Wiped};
ghost use Rattle.piece.specs.Bits.{value_in};
ghost use Rattle.piece.specs.Layouts.{Bytes};
ghost use Rattle.piece.specs.Pieces.{Lawful, listed};
ghost use Rattle.piece.specs.Reading.{GoodBody, count};
ghost use Rattle.collection.specs.Adding.{RefusesPiece, Takes};
ghost use Rattle.collection.specs.Books.{Follows, places, stride};
ghost use Rattle.collection.specs.ClosedOf.{closed_of};
ghost use Rattle.collection.specs.Closing.{Closes, RefusesClose};
ghost use Rattle.collection.specs.Collected.{For, fresh, read_of, taking, with_piece};
ghost use Rattle.collection.specs.Opened.{opened};

use super::Open;
use crate::WORK;
use crate::back::bring_back;
use crate::book::Book;
use crate::closed::Closed;
use crate::fault::{AddFault, CloseFault};
use field::Field;
use piece::bits::unpack;
use piece::read::columns;
use piece::{Header, LONGEST};

// The longest row: 16 coefficients and as many symbols as a body has.
const ROW: usize = 4112;

impl<'w> Open<'w> {
    // A collection for the field F that has no piece. It keeps the work until it ends.
    pub fn start<F: Field>(work: &'w mut [u16]) -> Open<'w>
        ensures named { result.work.ghost_name ≡ work.entry.ghost_name }
        ensures fresh { opened result ≡ fresh F.ops (length work.old) }
    {
        Open {
            work,
            book: Book::start::<F>(),
        }
    }

    // Writes symbols into the work, behind the rows that are there.
    fn lay(&mut self, from: usize, symbols: &[u16])
        requires behind { self.old.book.have * stride self.old.book ≤ from }
        requires room { from + length symbols.now ≤ length self.old.work.now }
        ensures named { self.new.work.ghost_name ≡ self.old.work.ghost_name }
        ensures book { self.new.book ≡ self.old.book }
        ensures size { length self.new.work.now ≡ length self.old.work.now }
        ensures before { (i : ℕ) → i < from → slice_index self.new.work.now i ≡ slice_index self.old.work.now i }
        ensures laid { (k : ℕ) → k < length symbols.now → slice_index self.new.work.now (from + k) ≡ slice_index symbols.now k }
    {
        self.work[from..from + symbols.len()].copy_from_slice(symbols);
    }

    // Takes a piece that was admitted; symbols is scratch for its symbols, and wiped.
    fn take<F: Field>(&mut self, header: &Header, body: &[u8], symbols: &mut [u16])
        requires room { 4623 ≤ length self.old.work.now }
        requires field { For F.ops self.old.book.field }
        requires follows { Follows self.old.book header.now }
        requires lawful { Lawful header.now.settings }
        requires least { 1 ≤ header.now.number }
        requires most { header.now.number ≤ header.now.settings.n }
        requires short { header.now.length ≤ 4096 }
        requires body { GoodBody F.ops (count header.now) body.now }
        requires symbols { length symbols.old ≡ count header.now }
        ensures named { self.new.work.ghost_name ≡ self.old.work.ghost_name }
        ensures taken { opened self.new ≡ with_piece (opened self.old) (taking F.ops header.now body.now) }
        ensures wiped { Wiped symbols.new }
    {
        let m = header.settings.m as usize;
        let from = self.book.have() * (m + symbols.len()) + m;
        unpack(body, F::width(), symbols);
        self.lay(from, symbols);
        symbols.fill(0);
        self.book = self.book.with(header);
    }

    // Adds a piece, or refuses it for the first reason that applies.
    pub fn add<F: Field>(&mut self, piece: &[u8]) -> Result<(), AddFault>
        ensures named { self.new.work.ghost_name ≡ self.old.work.ghost_name }
        ensures bytes { Bytes piece.now }
        ensures answer { MatchResult result (λ _. Takes F.ops (opened self.old) piece.now) (λ f. RefusesPiece F.ops (opened self.old) piece.now f) }
        ensures after { MatchResult result (λ _. opened self.new ≡ with_piece (opened self.old) (read_of F.ops piece.now)) (λ _. opened self.new ≡ opened self.old) }
    {
        let has = self.work.len();
        if has < WORK {
            return Err(AddFault::Work { has });
        }
        let book = self.book;
        let admitted = book.admit::<F>(piece)?;
        let count = columns(&admitted.header);
        // Fixed scratch, of which the front is used: the library allocates nothing.
        let mut symbols = [0u16; LONGEST];
        self.take::<F>(&admitted.header, admitted.body, &mut symbols[..count]);
        Ok(())
    }

    // Whether the collection can be closed.
    pub fn can_close<F: Field>(&self) -> Result<(), CloseFault>
        ensures { MatchResult result (λ _. Closes F.ops (opened self.now)) (λ f. RefusesClose F.ops (opened self.now) f) }
    {
        let book = self.book;
        if !book.is_for::<F>() {
            return Err(CloseFault::Field { has: book.field() });
        }
        let has = book.have();
        let needs = book.needs();
        if has < needs as usize {
            return Err(CloseFault::Few { has, needs });
        }
        Ok(())
    }

    // Closes a collection that can be closed: brings the symbols of the job back.
    pub fn close<F: Field>(self) -> Closed<'w>
        requires { Closes F.ops (opened self) }
        ensures named { result.work.ghost_name ≡ self.entry.work.ghost_name }
        ensures same { closed_of F.ops result ≡ opened self.entry }
    {
        let Open { work, book } = self;
        let m = book.needs() as usize;
        let w = m + book.columns();
        // Fixed scratch, of which the front is used: the library allocates nothing.
        let mut factors = [0u16; 16];
        let mut row = [0u16; ROW];
        bring_back::<F>(&book, &mut work[..m * w], &mut factors[..m], &mut row[..w]);
        Closed { work, book }
    }

    // Gives the collection up; the work is all zeros then.
    pub fn give_up(self)
        ensures { self.exit.0.now ≡ replicate (length self.entry.work.now) 0 }
    {
        let Open { work, book: _ } = self;
        work.fill(0);
    }
}
