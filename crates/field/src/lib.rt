#![tactic(auto)]

ghost use Rattle.std.specs.Prelude.{◌≡◌, ℕ, ◌*◌, ◌<◌, length};
ghost use Rattle.field.specs.Laws.{Bounds, Codes, FieldLaws, Ops};
ghost use Rattle.field.specs.Rows.{Combined, GainMultiples, Gains, GainsMultiple, Multiple, Wiped};
ghost use Rattle.field.specs.Worked.{WorkedSumsStand};

mod doublings;
pub mod gf256;
mod inverses256;
mod inverses257;
pub mod mod257;

// A field on codes: whole numbers from 0 to order - 1, of which 0 is the zero and 1 the one.
// Rows are parts of buffers that callers lend: that they hold codes is said in contracts, a type would ask more of callers.
pub trait Field {
    ghost ops: { Ops };

    // The field code, 0 to 3: the number by which a piece says which field it was cut with. A number, since a piece's
    // header holds it.
    fn code() -> u8
        ensures { result ≡ ops.code };

    // How many codes there are: 256 to 512.
    fn order() -> u16
        ensures { result ≡ ops.order };

    // The stored width: the bits that a code takes in a piece, 8 or 9.
    fn width() -> u32
        ensures { result ≡ ops.width };

    fn add(a: u16, b: u16) -> u16
        requires left { a < ops.order }
        requires right { b < ops.order }
        ensures { result ≡ ops.add a b };

    fn mul(a: u16, b: u16) -> u16
        requires left { a < ops.order }
        requires right { b < ops.order }
        ensures { result ≡ ops.mul a b };

    // The opposite.
    fn neg(a: u16) -> u16
        requires { a < ops.order }
        ensures { result ≡ ops.neg a };

    // The inverse; of 0, which has none, some code.
    fn inv(a: u16) -> u16
        requires { a < ops.order }
        ensures { result ≡ ops.inv a };

    // Adds a row to a row, place by place.
    fn add_row(out: &mut [u16], row: &[u16])
        requires lengths { length row.now ≡ length out.old }
        requires sums { Codes ops.order out.old }
        requires codes { Codes ops.order row.now }
        ensures codes { Codes ops.order out.new }
        ensures value { Gains ops out.old row.now out.new }
    {
        // By index: of what is written through a zip of iter_mut only the length is known.
        for (k, x) in out.iter_mut().enumerate() {
            *x = Self::add(*x, row[k]);
        }
    }

    // Adds multiples of one row to many, which stand one behind the other: to each its own factor times the row.
    // The row is used up: it holds zeros then.
    fn spread(rows: &mut [u16], factors: &[u16], row: &mut [u16])
        requires size { length rows.old ≡ length factors.now * length row.old }
        requires sums { Codes ops.order rows.old }
        requires factors { Codes ops.order factors.now }
        requires codes { Codes ops.order row.old }
        ensures codes { Codes ops.order rows.new }
        ensures value { GainMultiples ops rows.old factors.now row.old rows.new }
        ensures wiped { Wiped row.new }
    {
        let len = row.len();
        // By place: of what is written through chunks_exact_mut only the length is known.
        for (i, x) in rows.iter_mut().enumerate() {
            let term = Self::mul(factors[i / len], row[i % len]);
            *x = Self::add(*x, term);
        }
        row.fill(0);
    }

    // Writes a sum of multiples: at each place, the sum over the rows of factor times row. The rows stand one behind the
    // other, each as long as out.
    fn combine(out: &mut [u16], rows: &[u16], factors: &[u16])
        requires size { length rows.now ≡ length factors.now * length out.old }
        requires codes { Codes ops.order rows.now }
        requires factors { Codes ops.order factors.now }
        ensures codes { Codes ops.order out.new }
        ensures value { Combined ops rows.now factors.now out.new }
    {
        out.fill(0);
        let len = out.len();
        // The place goes round in out while the rows go by: chunks would need a zip of iter_mut inside.
        for (i, x) in rows.iter().enumerate() {
            let term = Self::mul(factors[i / len], *x);
            out[i % len] = Self::add(out[i % len], term);
        }
    }

    // Adds c times a row to a row; the scratch row holds zeros then.
    fn add_multiple(out: &mut [u16], row: &[u16], c: u16, scratch: &mut [u16])
        requires lengths { length row.now ≡ length out.old }
        requires room { length scratch.old ≡ length out.old }
        requires factor { c < ops.order }
        requires sums { Codes ops.order out.old }
        requires codes { Codes ops.order row.now }
        ensures codes { Codes ops.order out.new }
        ensures value { GainsMultiple ops c out.old row.now out.new }
        ensures wiped { Wiped scratch.new }
    {
        scratch.copy_from_slice(row);
        Self::spread(out, &[c], scratch);
    }

    // Multiplies a row by c; the scratch row holds zeros then.
    fn scale_row(row: &mut [u16], c: u16, scratch: &mut [u16])
        requires room { length scratch.old ≡ length row.old }
        requires factor { c < ops.order }
        requires codes { Codes ops.order row.old }
        ensures codes { Codes ops.order row.new }
        ensures value { Multiple ops c row.old row.new }
        ensures wiped { Wiped scratch.new }
    {
        scratch.copy_from_slice(row);
        row.fill(0);
        Self::spread(row, &[c], scratch);
    }

    ghost laws: { FieldLaws ops };

    ghost bounds: { Bounds ops };
}

// The code of a byte: every field has at least 256 codes.
pub fn byte_code<F: Field>(byte: u8) -> u16
    ensures code { result < F.ops.order }
    ensures value { result ≡ byte }
{
    u16::from(byte)
}

// Sums worked by hand come out as written. Answers how many the table has.
pub fn worked_sums_stand() -> u8
    ensures sums { WorkedSumsStand }
    ensures count { result ≡ 6 }
{
    6
}
