// Multiples of rows by doublings: products with the element coded 2, in plain loops over whole rows.
ghost use Rattle.std.specs.Prelude.{◌≡◌, ℕ, ◌*◌, ◌/◌, ◌%◌, ◌^◌, ◌<◌, length};
ghost use Rattle.field.specs.Laws.{Codes, FieldLaws, Ops};
ghost use Rattle.field.specs.Rows.{Combined, GainMultiples, Gains, Multiple, Wiped};
ghost use Rattle.field.specs.Digits.{Digits, GainWhere, Gathered};

// A field whose codes are read in base two: a code is its lowest digit plus the element coded 2 times the code of the rest.
// Not a trait of which Field is a part: the check does not cover methods whose generic callee leads back to their own impl.
pub trait Doubling {
    ghost arith: { Ops };

    // How many digits a code has.
    fn places() -> u32
        ensures { result ≡ arith.width };

    // Adds a row to a row.
    fn plus_row(out: &mut [u16], row: &[u16])
        requires lengths { length row.now ≡ length out.old }
        requires sums { Codes arith.order out.old }
        requires codes { Codes arith.order row.now }
        ensures codes { Codes arith.order out.new }
        ensures value { Gains arith out.old row.now out.new };

    // Multiplies a row by the element coded 2.
    fn double_row(row: &mut [u16])
        requires { Codes arith.order row.old }
        ensures codes { Codes arith.order row.new }
        ensures value { Multiple arith 2 row.old row.new };

    ghost laws: { FieldLaws arith };

    ghost digits: { Digits arith };
}

// Adds the row to each of the rows whose factor has the digit 1 at this place.
fn add_where<D: Doubling>(rows: &mut [u16], factors: &[u16], place: u32, row: &[u16])
    requires size { length rows.old ≡ length factors.now * length row.now }
    requires place { place < 16 }
    requires sums { Codes D.arith.order rows.old }
    requires codes { Codes D.arith.order row.now }
    ensures codes { Codes D.arith.order rows.new }
    ensures value { GainWhere D.arith place rows.old factors.now row.now rows.new }
{
    let len = row.len();
    // By index: of what is written through chunks_exact_mut only the length is known.
    for (r, factor) in factors.iter().enumerate() {
        if (*factor >> place) % 2 == 1 {
            let from = r * len;
            D::plus_row(&mut rows[from..from + len], row);
        }
    }
}

// To each of the rows its own factor times the row, which is doubled as the digits of the factors are gone through, from
// the lowest up, and wiped then.
pub fn spread<D: Doubling>(rows: &mut [u16], factors: &[u16], row: &mut [u16])
    requires size { length rows.old ≡ length factors.now * length row.old }
    requires sums { Codes D.arith.order rows.old }
    requires factors { Codes D.arith.order factors.now }
    requires codes { Codes D.arith.order row.old }
    ensures codes { Codes D.arith.order rows.new }
    ensures value { GainMultiples D.arith rows.old factors.now row.old rows.new }
    ensures wiped { Wiped row.new }
{
    for place in 0..D::places() {
        add_where::<D>(rows, factors, place, row);
        D::double_row(row);
    }
    row.fill(0);
}

// Adds to out those of the rows whose factor has the digit 1 at this place.
fn gather<D: Doubling>(out: &mut [u16], rows: &[u16], factors: &[u16], place: u32)
    requires size { length rows.now ≡ length factors.now * length out.old }
    requires place { place < 16 }
    requires sums { Codes D.arith.order out.old }
    requires codes { Codes D.arith.order rows.now }
    ensures codes { Codes D.arith.order out.new }
    ensures value { Gathered D.arith place out.old rows.now factors.now out.new }
{
    if out.is_empty() {
        return;
    }
    for (row, factor) in rows.chunks_exact(out.len()).zip(factors) {
        if (*factor >> place) % 2 == 1 {
            D::plus_row(out, row);
        }
    }
}

// The sum over the rows of factor times row. From the highest digit of the factors down, what is there is doubled and the
// rows with that digit are added: one doubling for each digit, however many rows there are.
pub fn combine<D: Doubling>(out: &mut [u16], rows: &[u16], factors: &[u16])
    requires size { length rows.now ≡ length factors.now * length out.old }
    requires codes { Codes D.arith.order rows.now }
    requires factors { Codes D.arith.order factors.now }
    ensures codes { Codes D.arith.order out.new }
    ensures value { Combined D.arith rows.now factors.now out.new }
{
    out.fill(0);
    for place in (0..D::places()).rev() {
        D::double_row(out);
        gather::<D>(out, rows, factors, place);
    }
}
