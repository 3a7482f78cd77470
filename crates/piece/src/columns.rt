// What the columns of pieces tell: how far two jobs are apart, and what m - 1 symbols leave open.
ghost use Rattle.std.specs.Prelude.{◌≡◌, ℕ, ◌+◌, ◌-◌, ◌*◌, ◌<◌, ◌≤◌, true, false, ◌≢◌, length, IfErr, MatchOption, MatchResult, OnErr, OnOk, slice_index};
ghost use Rattle.algebra.specs.Field.{Distinct};
ghost use Rattle.algebra.specs.Flat.{cell};
ghost use Rattle.field.specs.Laws.{Codes};
ghost use Rattle.piece.specs.Columns.{Candidate, Distance, Hiding, InRange, Numbers, System};
ghost use Rattle.piece.specs.Guesses.{Answers, Refuses, Stands};
ghost use Rattle.piece.specs.Pieces.{entry};
ghost use Rattle.piece.specs.Schemes.{as_settings};

use crate::Settings;
use crate::entries::entries_of;
use crate::kind::Rows;
use crate::scheme::Scheme;
use algebra::eliminate;
use field::Field;

// What m - 1 pieces show of a column, and what is guessed to stand at one of its places.
#[derive(Clone, Copy, Debug)]
pub struct Guess<'a> {
    pub settings: Settings,
    // The pieces' numbers, and their symbols of the column in the same order.
    pub numbers: &'a [u8],
    pub symbols: &'a [u16],
    // The place, counted from 0, and the element there.
    pub place: usize,
    pub value: u16,
}

// What is out of range where no column is found.
#[derive(Clone, Copy, Debug, PartialEq)]
pub enum OutOfRange {
    // The rows are not Cauchy's, or m or n is out of its range.
    Settings,
    // The numbers are not m - 1 different ones from 1 to n.
    Numbers,
    // The symbols are not m - 1 codes.
    Symbols,
    // The place is not below m.
    Place,
    // The value is no code.
    Value,
    // The column has not exactly m entries.
    Room,
}

// Where two jobs of equal length differ in a column, at most m - 1 of their n symbols of it are equal; and any m - 1
// symbols of a column cut with Cauchy rows leave every element at every place possible, in exactly one way. Both hold
// for every field. Answers how many they are.
pub fn columns_stand<F: Field>() -> u8
    ensures distance { Distance F.ops }
    ensures hiding { Hiding F.ops }
    ensures count { result ≡ 2 }
{
    2
}

// Where the number at an index stands before, if it does.
fn earlier(numbers: &[u8], i: usize) -> Option<usize>
    requires { i < length numbers.now }
    ensures cases { MatchOption result ((k : ℕ) → k < i → slice_index numbers.now k ≢ slice_index numbers.now i) (λ k. (k < i) × (slice_index numbers.now k ≡ slice_index numbers.now i)) }
{
    numbers[..i].iter().position(|number| *number == numbers[i])
}

// Where a number stands twice, if one does.
pub fn twice(numbers: &[u8]) -> Option<(usize, usize)>
    ensures cases { MatchOption result (Distinct (length numbers.now) (λ k. slice_index numbers.now k)) (λ x. (x.0 < x.1) × (x.1 < length numbers.now) × (slice_index numbers.now x.0 ≡ slice_index numbers.now x.1)) }
{
    // Both answers are indices, so the loop counts them.
    for second in 0..numbers.len() {
        if let Some(first) = earlier(numbers, second) {
            return Some((first, second));
        }
    }
    None
}

// Whether numbers are 1 to n and all different.
fn numbers_differ(numbers: &[u8], n: u8) -> bool
    ensures yes { result ≡ true → Numbers n numbers.now }
    ensures no { result ≡ false → Numbers n numbers.now → ⊥ }
{
    numbers.iter().all(|number| (1..=n).contains(number)) && twice(numbers).is_none()
}

// Whether all symbols are codes.
fn are_codes<F: Field>(symbols: &[u16]) -> bool
    ensures yes { result ≡ true → Codes F.ops.order symbols.now }
    ensures no { result ≡ false → Codes F.ops.order symbols.now → ⊥ }
{
    symbols.iter().all(|symbol| *symbol < F::order())
}

// The row that reads a place, and the value there behind it.
fn read_place(row: &mut [u16], place: usize, value: u16)
    requires { place + 1 < length row.old }
    ensures one { slice_index row.new place ≡ 1 }
    ensures zeros { (j : ℕ) → j < length row.old - 1 → j ≢ place → slice_index row.new j ≡ 0 }
    ensures value { slice_index row.new (length row.old - 1) ≡ value }
{
    let m = row.len() - 1;
    row.fill(0);
    row[place] = 1;
    row[m] = value;
}

// The row of a piece, and its symbol behind it.
fn read_piece<F: Field>(row: &mut [u16], scheme: Scheme, number: u8, symbol: u16)
    requires least { 1 ≤ number }
    requires most { number ≤ scheme.n }
    requires code { symbol < F.ops.order }
    requires places { length row.old ≡ scheme.m + 1 }
    ensures codes { Codes F.ops.order row.new }
    ensures entries { (j : ℕ) → j < scheme.m → slice_index row.new j ≡ entry F.ops (as_settings scheme) number j }
    ensures symbol { slice_index row.new scheme.m ≡ symbol }
{
    let m = scheme.m as usize;
    entries_of::<F>(&mut row[..m], scheme, number);
    row[m] = symbol;
}

// Copies the last column of rows that are one longer than there are rows.
#[tactic(auto, unfolding(algebra::specs::Flat::cell))]
fn copy_last(column: &mut [u16], rows: &[u16])
    requires few { length column.old ≤ 16 }
    requires size { length rows.now ≡ length column.old * (length column.old + 1) }
    ensures { (j : ℕ) → j < length column.old → slice_index column.new j ≡ cell (length column.old + 1) rows.now j (length column.old) }
{
    let m = column.len();
    // By index: of what is written through a zip of iter_mut only the length is known.
    for (j, symbol) in column.iter_mut().enumerate() {
        *symbol = rows[j * (m + 1) + m];
    }
}

impl Guess<'_> {
    // Whether a column may be asked for, into so much room.
    fn check<F: Field>(&self, room: usize) -> Result<(), OutOfRange>
        ensures { MatchResult result (λ _. Stands F.ops self.now room) (Refuses F.ops self.now room) }
    {
        match Scheme::try_from(self.settings) {
            Ok(scheme) if scheme.rows == Rows::Cauchy => {}
            _ => return Err(OutOfRange::Settings),
        }
        let m = self.settings.m as usize;
        if self.numbers.len() != m - 1 || !numbers_differ(self.numbers, self.settings.n) {
            return Err(OutOfRange::Numbers);
        }
        if self.symbols.len() != m - 1 || !are_codes::<F>(self.symbols) {
            return Err(OutOfRange::Symbols);
        }
        if self.place >= m {
            return Err(OutOfRange::Place);
        }
        if self.value >= F::order() {
            return Err(OutOfRange::Value);
        }
        if room != m {
            return Err(OutOfRange::Room);
        }
        Ok(())
    }

    // The system that the column solves, row after row.
    fn lay_system<F: Field>(&self, grid: &mut [u16])
        requires asked { Stands F.ops self.now self.now.settings.m }
        requires size { length grid.old ≡ self.now.settings.m * (self.now.settings.m + 1) }
        ensures { System F.ops self.now.settings self.now.numbers.now self.now.symbols.now self.now.place self.now.value grid.new }
    {
        let scheme = Scheme::of(self.settings);
        let w = self.settings.m as usize + 1;
        read_place(&mut grid[..w], self.place, self.value);
        // By index: of what is written through chunks_mut only the length is known.
        for (r, (number, symbol)) in self.numbers.iter().zip(self.symbols).enumerate() {
            let from = (r + 1) * w;
            read_piece::<F>(&mut grid[from..from + w], scheme, *number, *symbol);
        }
    }

    // Writes the one column that has the value at the place and gives the symbols of the m - 1 pieces of these numbers,
    // cut with Cauchy rows. It must have exactly m entries. Where anything is out of range, the column is left as it was.
    pub fn candidate<F: Field>(&self, column: &mut [u16]) -> Result<(), OutOfRange>
        ensures asked { OnOk result (Stands F.ops self.now (length column.old)) }
        ensures refused { OnErr result (Stands F.ops self.now (length column.old) → ⊥) }
        ensures why { IfErr result (Refuses F.ops self.now (length column.old)) }
        ensures fits { OnOk result (Answers F.ops self.now column.new) }
        ensures kept { OnErr result (column.new ≡ column.old) }
    {
        self.check::<F>(column.len())?;
        let m = column.len();
        let w = m + 1;
        // Fixed scratch, of which the front is used: the library allocates nothing.
        let mut grid = [0u16; 272];
        let mut factors = [0u16; 16];
        let mut row = [0u16; 17];
        let rows = &mut grid[..m * w];
        self.lay_system::<F>(rows);
        eliminate::<F>(rows, &mut factors[..m], &mut row[..w]);
        copy_last(column, rows);
        Ok(())
    }
}
