// Bringing the symbols of a job back from those of its pieces.
ghost use Rattle.std.specs.Prelude.{◌≡◌, ℕ, ◌+◌, ◌*◌, ◌%◌, ◌<◌, ◌≤◌, true, false, ◌≢◌, length, if◌then◌else◌, nat_lt, slice_index};
ghost use Rattle.field.specs.Rows.{Wiped};
ghost use Rattle.algebra.specs.Flat.{cell};
ghost use Rattle.collection.specs.Back.{Brought, Entered, InRow, full_length_at};
ghost use Rattle.collection.specs.Books.{SymbolsBelow, places, stride};
ghost use Rattle.collection.specs.Collected.{For};

use crate::book::Book;
use algebra::eliminate;
use field::Field;
use piece::entries::entries_of;
use piece::scheme::Scheme;

// Writes the coefficients of each piece in front of its symbols.
fn lay_entries<F: Field>(book: &Book, rows: &mut [u16])
    requires full { book.now.have ≡ places book.now }
    requires size { length rows.old ≡ places book.now * stride book.now }
    ensures { Entered F.ops book.now rows.old rows.new }
{
    let m = book.needs() as usize;
    let w = m + book.columns();
    let scheme = Scheme::of(book.settings());
    // By index: of what is written through chunks_mut only the length is known.
    for (t, number) in book.numbers().iter().enumerate() {
        let from = t * w;
        entries_of::<F>(&mut rows[from..from + m], scheme, *number);
    }
}

// Turns the rows of the pieces into rows of the job's symbols; factors and row are scratch, and wiped.
pub fn bring_back<F: Field>(book: &Book, rows: &mut [u16], factors: &mut [u16], row: &mut [u16])
    requires field { For F.ops book.now.field }
    requires full { book.now.have ≡ places book.now }
    requires size { length rows.old ≡ places book.now * stride book.now }
    requires codes { SymbolsBelow book.now rows.old }
    requires factors { length factors.old ≡ places book.now }
    requires row { length row.old ≡ stride book.now }
    ensures brought { Brought F.ops book.now rows.old rows.new }
    ensures factors { Wiped factors.new }
    ensures row { Wiped row.new }
{
    lay_entries::<F>(book, rows);
    eliminate::<F>(rows, factors, row);
}

// The greatest symbol that a row of a job may have in the column k: a byte, and 0 where it fills up.
fn most_at(k: usize, full: usize) -> u16
    ensures { result ≡ (if nat_lt k full then 255 else 0) }
{
    if k < full { 255 } else { 0 }
}

// Whether a row has bytes at its first places and zeros at the others.
pub fn is_row(row: &[u16], full: usize) -> bool
    ensures yes { result ≡ true → InRow full row.now }
    ensures no { result ≡ false → InRow full row.now → ⊥ }
{
    row.iter()
        .enumerate()
        .all(|(k, symbol)| *symbol <= most_at(k, full))
}

// How many symbols at the place j belong to a job of this length.
pub fn full_at(len: usize, m: usize, j: usize) -> usize
    requires short { len ≤ 4096 }
    requires few { m ≤ 16 }
    requires within { j < m }
    ensures { result ≡ full_length_at len m j }
{
    (len + (m - 1 - j)) / m
}

// Writes the symbols of one row to their places in the job.
pub fn write_row(job: &mut [u8], row: &[u16], m: usize, j: usize)
    requires place { j < m }
    requires within { (k : ℕ) → k < length row.now → k * m + j < length job.old }
    requires bytes { (k : ℕ) → k < length row.now → slice_index row.now k < 256 }
    ensures here { (k : ℕ) → k < length row.now → slice_index job.new (k * m + j) ≡ slice_index row.now k }
    ensures rest { (i : ℕ) → i % m ≢ j → slice_index job.new i ≡ slice_index job.old i }
{
    // By index: of what is written through a zip of iter_mut only the length is known.
    for (k, symbol) in row.iter().enumerate() {
        // as, where it is proved to lose nothing: try_from with unwrap says no more.
        job[k * m + j] = *symbol as u8;
    }
}
