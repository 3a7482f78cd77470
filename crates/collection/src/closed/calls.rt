// What can be done with a closed collection.
ghost use Rattle.std.specs.Prelude.{◌≡◌, ℕ, ◌<◌, ◌≤◌, true, false, length, replicate, MatchResult, slice_index};
ghost use Rattle.piece.specs.Reading.{count};
ghost use Rattle.collection.specs.Back.{Whole, job_in};
ghost use Rattle.collection.specs.Books.{first_in, places, solution};
ghost use Rattle.collection.specs.ClosedOf.{closed_of};
ghost use Rattle.collection.specs.HandingOver.{Handed, HandsOver, RefusesHandOver};

use super::Closed;
use crate::back::{full_at, is_row, write_row};
use crate::fault::HandOverFault;
use field::Field;

impl<'w> Closed<'w> {
    // The symbols of the job at the place j, one for each column.
    fn row(&self, j: usize) -> &[u16]
        requires { j < places self.now.book }
        ensures size { length result.now ≡ count (first_in self.now.book) }
        ensures symbols { (k : ℕ) → k < count (first_in self.now.book) → slice_index result.now k ≡ solution self.now.book self.now.work.now k j }
    {
        let m = self.book.needs() as usize;
        let n = self.book.columns();
        let from = j * (m + n) + m;
        &self.work[from..from + n]
    }

    // Whether the rows have the symbols of a job: bytes, and zeros that fill up the last column.
    fn is_job(&self) -> bool
        ensures yes { result ≡ true → Whole self.now.book self.now.work.now }
        ensures no { result ≡ false → Whole self.now.book self.now.work.now → ⊥ }
    {
        let m = self.book.needs() as usize;
        // By j: a closure for all would need clauses of its own.
        for j in 0..m {
            if !is_row(self.row(j), full_at(self.book.length(), m, j)) {
                return false;
            }
        }
        true
    }

    // Writes the job that the rows have.
    fn write_job(&self, job: &mut [u8])
        requires whole { Whole self.now.book self.now.work.now }
        requires size { length job.old ≡ (first_in self.now.book).length }
        ensures { job.new ≡ job_in self.now.book self.now.work.now }
    {
        let m = self.book.needs() as usize;
        // By j: a closure for for_each would need clauses of its own.
        for j in 0..m {
            let full = full_at(self.book.length(), m, j);
            write_row(job, &self.row(j)[..full], m, j);
        }
    }

    // Whether the collection can be handed over into this buffer.
    pub fn can_hand_over<F: Field>(&self, job: &[u8]) -> Result<(), HandOverFault>
        ensures { MatchResult result (λ _. HandsOver F.ops (closed_of F.ops self.now) (length job.now)) (λ f. RefusesHandOver F.ops (closed_of F.ops self.now) (length job.now) f) }
    {
        let book = self.book;
        if !book.is_for::<F>() {
            return Err(HandOverFault::Field { has: book.field() });
        }
        let has = job.len();
        let needs = book.length();
        if has < needs {
            return Err(HandOverFault::Room { has, needs });
        }
        if !self.is_job() {
            return Err(HandOverFault::NoJob);
        }
        Ok(())
    }

    // Hands the job over: writes it to the front of the buffer, leaves the rest alone and answers its length. The work is
    // all zeros then.
    pub fn hand_over<F: Field>(self, job: &mut [u8]) -> usize
        requires { HandsOver F.ops (closed_of F.ops self) (length job.old) }
        ensures handed { Handed F.ops (closed_of F.ops self.entry) job.old job.new result }
        ensures wiped { self.exit.0.now ≡ replicate (length self.entry.work.now) 0 }
    {
        let n = self.book.length();
        self.write_job(&mut job[..n]);
        let Closed { work, book: _ } = self;
        work.fill(0);
        n
    }

    // Gives the collection up; the work is all zeros then. Beside that of Open: a caller has one of the two types, never both.
    pub fn give_up(self)
        ensures { self.exit.0.now ≡ replicate (length self.entry.work.now) 0 }
    {
        let Closed {
            work: lent,
            book: _,
        } = self;
        lent.fill(0);
    }
}
