#![tactic(auto)]

ghost use Rattle.std.specs.Prelude.{ℕ, ◌+◌, ◌*◌, ◌<◌, ◌≤◌, get_or, length, ◌≢◌, ◌≡◌, IfNone, IfSome};
ghost use Rattle.algebra.specs.Codes.{Regular};
ghost use Rattle.algebra.specs.Field.{Added, Cleared, Columns, Scaled};
ghost use Rattle.algebra.specs.Flat.{Eliminated, Grid, Keeps, cell};
ghost use Rattle.algebra.specs.Theorems.{AlgebraStands};
ghost use Rattle.field.specs.Laws.{Codes};
ghost use Rattle.field.specs.Rows.{Wiped};

use field::Field;
use std::marker::PhantomData;

// Root count, kernels of Vandermonde and Cauchy rows, how many rows vanish, row operations, pivots, systems with one
// solution and what m - 1 Cauchy rows leave open: for every field. Answers how many statements there are.
pub fn theorems_stand() -> u8
    ensures theorems { AlgebraStands }
    ensures count { result ≡ 12 }
{
    12
}

// Copies the row r out of rows. Of slices, like opposites: as a method of System it would have to say that the rows stay
// as they are.
fn copy_row(row: &mut [u16], rows: &[u16], r: usize)
    requires within { r * length row.old + length row.old ≤ length rows.now }
    ensures { (c : ℕ) → c < length row.old → get_or row.new c 0 ≡ cell (length row.old) rows.now r c }
{
    let from = r * row.len();
    row.copy_from_slice(&rows[from..from + row.len()]);
}

// A system of equations over the field F. The rows stand one behind the other, as many as factors and each as long as row;
// both are scratch.
#[derive(Drop)]
struct System<'a, F: Field> {
    rows: &'a mut [u16],
    factors: &'a mut [u16],
    row: &'a mut [u16],
    field: PhantomData<F>,
    ghost grid: { Grid F.ops.order (length factors.now) (length row.now) rows.now },
    ghost wide: { length factors.now ≤ length row.now },
}

impl<F: Field> System<'_, F> {
    // The first row from c down that is not 0 in the column c.
    fn find_pivot(&self, c: usize) -> Option<usize>
        requires { c < length self.now.factors.now }
        ensures from { IfSome result (λ p. c ≤ p) }
        ensures within { IfSome result (λ p. p < length self.now.factors.now) }
        ensures found { IfSome result (λ p. cell (length self.now.row.now) self.now.rows.now p c ≢ 0) }
        ensures before { IfSome result (λ p. (i : ℕ) → c ≤ i → i < p → cell (length self.now.row.now) self.now.rows.now i c ≡ 0) }
        ensures none { IfNone result ((i : ℕ) → c ≤ i → i < length self.now.factors.now → cell (length self.now.row.now) self.now.rows.now i c ≡ 0) }
    {
        let w = self.row.len();
        // A closure for find would need clauses of its own, longer than the loop.
        for r in c..self.factors.len() {
            if self.rows[r * w + c] != 0 {
                return Some(r);
            }
        }
        None
    }

    // Makes the entry of the row c in the column c not zero, by the row p, which is not zero there.
    // Three clauses Keeps and not one: they name the three references that the loop of solve needs.
    fn raise(&mut self, c: usize, p: usize)
        requires from { c ≤ p }
        requires within { p < length self.old.factors.now }
        requires zero { c < p → cell (length self.old.row.now) self.old.rows.now c c ≡ 0 }
        requires other { cell (length self.old.row.now) self.old.rows.now p c ≢ 0 }
        ensures rows { Keeps self.old.rows self.new.rows }
        ensures factors { Keeps self.old.factors self.new.factors }
        ensures row { Keeps self.old.row self.new.row }
        ensures same { c ≡ p → self.new.rows.now ≡ self.old.rows.now }
        ensures added { let m = length self.old.factors.now in let w = length self.old.row.now in c < p → Columns w (Added F.ops.add F.ops.mul m c p 1) (cell w self.old.rows.now) (cell w self.new.rows.now) }
        ensures pivot { cell (length self.old.row.now) self.new.rows.now c c ≢ 0 }
    {
        if c < p {
            let w = self.row.len();
            let from = c * w;
            let rows = &mut *self.rows;
            let row = &mut *self.row;
            copy_row(row, rows, p);
            F::add_row(&mut rows[from..from + w], row);
        }
    }

    // Makes the entry of the row c in the column c one.
    fn normalize(&mut self, c: usize)
        requires within { c < length self.old.factors.now }
        requires pivot { cell (length self.old.row.now) self.old.rows.now c c ≢ 0 }
        ensures rows { Keeps self.old.rows self.new.rows }
        ensures factors { Keeps self.old.factors self.new.factors }
        ensures row { Keeps self.old.row self.new.row }
        ensures scaled { let m = length self.old.factors.now in let w = length self.old.row.now in Columns w (Scaled F.ops.mul m c (F.ops.inv (cell w self.old.rows.now c c))) (cell w self.old.rows.now) (cell w self.new.rows.now) }
    {
        let w = self.row.len();
        let from = c * w;
        let k = F::inv(self.rows[from + c]);
        F::scale_row(&mut self.rows[from..from + w], k, self.row);
    }

    // Makes each entry of the column c but that of the row c zero, where that one is 1.
    fn clear_column(&mut self, c: usize)
        requires { c < length self.old.factors.now }
        ensures rows { Keeps self.old.rows self.new.rows }
        ensures factors { Keeps self.old.factors self.new.factors }
        ensures row { Keeps self.old.row self.new.row }
        ensures cleared { let m = length self.old.factors.now in let w = length self.old.row.now in Columns w (Cleared F.ops.add F.ops.mul m c (λ r. F.ops.neg (cell w self.old.rows.now r c))) (cell w self.old.rows.now) (cell w self.new.rows.now) }
        ensures wiped { Wiped self.new.row.now }
    {
        let w = self.row.len();
        let rows = &mut *self.rows;
        let factors = &mut *self.factors;
        opposites::<F>(factors, rows, w, c);
        copy_row(self.row, rows, c);
        F::spread(rows, factors, self.row);
    }

    // Gauss-Jordan elimination: at the end the coefficients are the identity and the symbols are the solutions.
    fn solve(&mut self)
        requires { Regular F.ops (length self.old.factors.now) (cell (length self.old.row.now) self.old.rows.now) }
        ensures rows { self.new.rows.ghost_name ≡ self.old.rows.ghost_name }
        ensures factors { self.new.factors.ghost_name ≡ self.old.factors.ghost_name }
        ensures row { self.new.row.ghost_name ≡ self.old.row.ghost_name }
        ensures eliminated { Eliminated F.ops (length self.old.factors.now) (length self.old.row.now) self.old.rows.now self.new.rows.now }
        ensures factors_wiped { Wiped self.new.factors.now }
        ensures row_wiped { Wiped self.new.row.now }
    {
        // c is a column and the row of its pivot, so the loop counts it.
        for c in 0..self.factors.len() {
            let p = self.find_pivot(c).unwrap();
            self.raise(c, p);
            self.normalize(c);
            self.clear_column(c);
        }
        self.factors.fill(0);
        self.row.fill(0);
    }
}

// Writes the opposite of each entry of the column c into factors, and 0 for the row c.
fn opposites<F: Field>(factors: &mut [u16], rows: &[u16], w: usize, c: usize)
    requires grid { Grid F.ops.order (length factors.old) w rows.now }
    requires row { c < length factors.old }
    requires column { c < w }
    ensures codes { Codes F.ops.order factors.new }
    ensures value { (r : ℕ) → r < length factors.old → r ≢ c → get_or factors.new r 0 ≡ F.ops.neg (cell w rows.now r c) }
    ensures none { get_or factors.new c 0 ≡ 0 }
{
    // By index: of what is written through a zip of iter_mut only the length is known.
    for (r, factor) in factors.iter_mut().enumerate() {
        *factor = F::neg(rows[r * w + c]);
    }
    factors[c] = 0;
}

// Gauss-Jordan elimination. The rows stand one behind the other; each has as many coefficients as there are rows and
// then symbols, and each column of symbols is a right side of its own. At the end the coefficients are the identity and
// the symbols are the solutions. There are as many rows as factors, each as long as row; both are scratch, and wiped.
pub fn eliminate<F: Field>(rows: &mut [u16], factors: &mut [u16], row: &mut [u16])
    requires grid { Grid F.ops.order (length factors.old) (length row.old) rows.old }
    requires wide { length factors.old ≤ length row.old }
    requires regular { Regular F.ops (length factors.old) (cell (length row.old) rows.old) }
    ensures eliminated { Eliminated F.ops (length factors.old) (length row.old) rows.old rows.new }
    ensures factors { Wiped factors.new }
    ensures row { Wiped row.new }
{
    let mut system = System::<F> {
        rows,
        factors,
        row,
        field: PhantomData,
    };
    system.solve();
}
