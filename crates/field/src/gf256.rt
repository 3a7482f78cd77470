ghost use Rattle.std.specs.Prelude.{◌≡◌, ℕ, ◌<◌};
ghost use Rattle.field.specs.Gf256.{Remainder, carryless, gf256, times, xtime};
ghost use Rattle.field.specs.Laws256.{laws256, bounds256, digits256};

use crate::doublings::Doubling;
use crate::inverses256::INVERSES;
use crate::{Field, doublings};

// GF(2^8): a code is a polynomial over two elements, bit i the coefficient of x^i, and products are taken modulo
// x^8 + x^4 + x^3 + x + 1, as in FIPS 197.
pub struct Gf256;

// The polynomial x^8 + x^4 + x^3 + x + 1.
const POLYNOMIAL: u16 = 0x11b;

// a times x: shifted, and where x^8 comes up, the polynomial taken away.
fn times_x(a: u16) -> u16
    requires { a < 256 }
    ensures { result ≡ xtime a }
{
    let d = a * 2;
    d ^ (d / 256 * POLYNOMIAL)
}

impl Field for Gf256 {
    ghost ops = { gf256 };

    ghost laws = { laws256 };

    ghost bounds = { bounds256 };

    fn code() -> u8 {
        0
    }

    fn order() -> u16 {
        256
    }

    fn width() -> u32 {
        8
    }

    fn add(a: u16, b: u16) -> u16 {
        a ^ b
    }

    fn mul(a: u16, b: u16) -> u16 {
        let mut x = a;
        let mut y = b;
        let mut r = 0;
        for _ in 0..8u32 {
            if y % 2 == 1 {
                r ^= x;
            }
            x = times_x(x);
            y /= 2;
        }
        r
    }

    fn neg(a: u16) -> u16 {
        a
    }

    fn inv(a: u16) -> u16 {
        INVERSES[usize::from(a)]
    }

    // Here and modulo 257 alike: Field and Doubling stand apart, for the reason at Doubling.
    fn add_row(out: &mut [u16], row: &[u16]) {
        Gf256::plus_row(out, row);
    }

    fn spread(rows: &mut [u16], factors: &[u16], row: &mut [u16]) {
        doublings::spread::<Gf256>(rows, factors, row);
    }

    fn combine(out: &mut [u16], rows: &[u16], factors: &[u16]) {
        doublings::combine::<Gf256>(out, rows, factors);
    }
}

impl Doubling for Gf256 {
    ghost arith = { gf256 };

    ghost laws = { laws256 };

    ghost digits = { digits256 };

    fn places() -> u32 {
        8
    }

    fn plus_row(out: &mut [u16], row: &[u16]) {
        // By index: of what is written through a zip of iter_mut only the length is known.
        for (k, x) in out.iter_mut().enumerate() {
            *x ^= row[k];
        }
    }

    fn double_row(row: &mut [u16]) {
        for x in row.iter_mut() {
            *x = times_x(*x);
        }
    }
}

// The product of two codes. It is the remainder of their carry-less product by the polynomial, and no other number is.
pub fn product(a: u8, b: u8) -> u8
    ensures value { result ≡ times a b }
    ensures remainder { Remainder (carryless a b) result }
    ensures only { (s : ℕ) → Remainder (carryless a b) s → s ≡ result }
{
    let p = Gf256::mul(u16::from(a), u16::from(b));
    // as, where it is proved to lose nothing: try_from with unwrap says no more.
    p as u8
}
