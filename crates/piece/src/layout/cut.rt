// Laying a job out, and cutting its pieces.
ghost use Rattle.std.specs.Prelude.{◌≡◌, ℕ, ◌+◌, ◌-◌, ◌*◌, ◌/◌, ◌^◌, ◌<◌, ◌≤◌, true, ◌++◌, length, drop, Ok, Err, MatchResult, slice_index};
ghost use Rattle.field.specs.Laws.{Codes};
ghost use Rattle.piece.specs.Cutting.{cutting, job_of, laying, size, written};
ghost use Rattle.piece.specs.Pieces.{entry, piece, place, value};
ghost use Rattle.piece.specs.Schemes.{as_settings};

use super::Layout;
use crate::bits::{bytes_for, pack};
use crate::entries::entries_of;
use crate::fault::CutFault;
use crate::head::write_header;
use crate::scheme::Scheme;
use crate::{Header, LONGEST, Settings};
use field::Field;

// The row of the place j: its symbol in each column, and 0 past the job's end.
fn lay_row(row: &mut [u16], job: &[u8], m: usize, j: usize)
    requires small { length row.old * m + j < 2 ^ 32 }
    requires place { j < m }
    ensures { (k : ℕ) → k < length row.old → slice_index row.new k ≡ place m job.now k j }
{
    for (k, cell) in row.iter_mut().enumerate() {
        let i = k * m + j;
        *cell = job.get(i).map_or(0, |byte| *byte as u16);
    }
}

// All rows, one behind the other.
fn lay_out(cells: &mut [u16], job: &[u8], m: usize, columns: usize)
    requires few { m ≤ 16 }
    requires short { columns ≤ 4096 }
    requires room { m * columns ≤ length cells.old }
    ensures laid { (k j : ℕ) → k < columns → j < m → slice_index cells.new (j * columns + k) ≡ place m job.now k j }
    ensures rest { (i : ℕ) → m * columns ≤ i → slice_index cells.new i ≡ slice_index cells.old i }
{
    // By index: of what is written through chunks_mut only the length is known.
    for j in 0..m {
        let from = j * columns;
        lay_row(&mut cells[from..from + columns], job, m, j);
    }
}

// The bytes of a piece with so many columns.
fn size<F: Field>(columns: usize) -> usize
    requires { columns ≤ 4096 }
    ensures { result ≡ size F.ops columns }
{
    10 + bytes_for(F::width(), columns)
}

impl Layout {
    // Lays a job out. Refuses settings out of range, then a job that is too long.
    pub fn new(settings: Settings, job: &[u8]) -> Result<Layout, CutFault>
        ensures { MatchResult result (λ l. (laying settings job.now ≡ Ok tt) × (as_settings l.scheme ≡ settings) × (job_of l ≡ job.now)) (λ f. laying settings job.now ≡ Err f) }
    {
        let scheme = Scheme::try_from(settings)?;
        let length = job.len();
        if length > LONGEST {
            return Err(CutFault::Job { length });
        }
        let columns = settings.columns(length);
        let mut cells = [0u16; 4111];
        lay_out(&mut cells, job, scheme.m as usize, columns);
        Ok(Layout {
            scheme,
            length,
            columns,
            cells,
        })
    }

    // The values of the piece of this number, one for each column; factors is scratch for the entries of its row.
    fn values<F: Field>(&self, values: &mut [u16], number: u8, factors: &mut [u16])
        requires least { 1 ≤ number }
        requires most { number ≤ self.now.scheme.n }
        requires columns { length values.old ≡ self.now.columns }
        requires places { length factors.old ≡ self.now.scheme.m }
        ensures codes { Codes F.ops.order values.new }
        ensures value { (k : ℕ) → k < length values.new → slice_index values.new k ≡ value F.ops (as_settings self.now.scheme) (job_of self.now) number k }
    {
        let all = self.scheme.m as usize * self.columns;
        entries_of::<F>(factors, self.scheme, number);
        F::combine(values, &self.cells[0..all], factors);
    }

    // Writes the piece of this number to the front of a buffer and answers its length; the bytes behind it are left
    // alone. Refuses a number outside 1 to n, then a buffer shorter than the piece, and leaves the buffer as it was.
    pub fn cut<F: Field>(
        &self,
        number: u8,
        job_number: u16,
        stamp: u32,
        out: &mut [u8],
    ) -> Result<usize, CutFault>
        ensures answer { result ≡ cutting F.ops (as_settings self.now.scheme) (job_of self.now) number (length out.old) }
        ensures bytes { out.new ≡ written result (piece F.ops (as_settings self.now.scheme) number job_number stamp (job_of self.now)) out.old }
    {
        let n = self.scheme.n;
        if number < 1 || number > n {
            return Err(CutFault::Number { number, n });
        }
        let needs = size::<F>(self.columns);
        let has = out.len();
        if has < needs {
            return Err(CutFault::Room { has, needs });
        }
        let m = self.scheme.m as usize;
        // Fixed scratch, of which the front is used: the library allocates nothing.
        let mut values = [0u16; LONGEST];
        let mut factors = [0u16; 16];
        self.write::<F>(
            number,
            job_number,
            stamp,
            out,
            &mut values[0..self.columns],
            &mut factors[0..m],
        );
        Ok(needs)
    }

    // Writes the piece of this number to the front of a buffer that holds it; values and factors are scratch for the
    // piece's values and the entries of its row.
    fn write<F: Field>(
        &self,
        number: u8,
        job_number: u16,
        stamp: u32,
        out: &mut [u8],
        values: &mut [u16],
        factors: &mut [u16],
    )
        requires least { 1 ≤ number }
        requires most { number ≤ self.now.scheme.n }
        requires room { size F.ops self.now.columns ≤ length out.old }
        requires columns { length values.old ≡ self.now.columns }
        requires places { length factors.old ≡ self.now.scheme.m }
        ensures { out.new ≡ piece F.ops (as_settings self.now.scheme) number job_number stamp (job_of self.now) ++ drop (size F.ops self.now.columns) out.old }
    {
        self.values::<F>(values, number, factors);
        // as, where it is proved to lose nothing: try_from with unwrap says no more.
        let header = Header {
            settings: self.scheme.into(),
            number,
            length: self.length as u16,
            job: job_number,
            stamp,
        };
        write_header(out, F::code(), &header);
        pack(values, F::width(), &mut out[10..]);
    }
}

// Cuts one piece of a job: lays the job out, and writes the piece to the front of a buffer. Number, job number and stamp
// stand apart, as the callers across C have them; `write` joins them into a header.
pub fn cut<F: Field>(
    settings: Settings,
    number: u8,
    job_number: u16,
    stamp: u32,
    job: &[u8],
    out: &mut [u8],
) -> Result<usize, CutFault>
    ensures answer { result ≡ cutting F.ops settings job.now number (length out.old) }
    ensures bytes { out.new ≡ written result (piece F.ops settings number job_number stamp job.now) out.old }
{
    let layout = Layout::new(settings, job)?;
    layout.cut::<F>(number, job_number, stamp, out)
}
