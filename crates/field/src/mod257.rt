ghost use Rattle.std.specs.Prelude.{◌≡◌, ◌%◌, ◌<◌};
ghost use Rattle.field.specs.Mod257.{mod257};
ghost use Rattle.field.specs.Laws257.{laws257, bounds257, digits257};

use crate::doublings::Doubling;
use crate::inverses257::INVERSES;
use crate::{Field, doublings};

// The integers modulo 257.
pub struct Mod257;

// The remainder of a sum of two codes, or of twice a code: a test where rows would wait for a division.
fn folded(sum: u16) -> u16
    requires { sum < 514 }
    ensures { result ≡ sum % 257 }
{
    if sum >= 257 { sum - 257 } else { sum }
}

impl Field for Mod257 {
    ghost ops = { mod257 };

    ghost laws = { laws257 };

    ghost bounds = { bounds257 };

    fn code() -> u8 {
        1
    }

    fn order() -> u16 {
        257
    }

    fn width() -> u32 {
        9
    }

    fn add(a: u16, b: u16) -> u16 {
        (a + b) % 257
    }

    fn mul(a: u16, b: u16) -> u16 {
        // as, where it is proved to lose nothing: try_from with unwrap says no more.
        ((u32::from(a) * u32::from(b)) % 257) as u16
    }

    fn neg(a: u16) -> u16 {
        (257 - a) % 257
    }

    fn inv(a: u16) -> u16 {
        INVERSES[usize::from(a)]
    }

    // Here and in GF(2^8) alike: Field and Doubling stand apart, for the reason at Doubling.
    fn add_row(out: &mut [u16], row: &[u16]) {
        Mod257::plus_row(out, row);
    }

    fn spread(rows: &mut [u16], factors: &[u16], row: &mut [u16]) {
        doublings::spread::<Mod257>(rows, factors, row);
    }

    fn combine(out: &mut [u16], rows: &[u16], factors: &[u16]) {
        doublings::combine::<Mod257>(out, rows, factors);
    }
}

impl Doubling for Mod257 {
    ghost arith = { mod257 };

    ghost laws = { laws257 };

    ghost digits = { digits257 };

    fn places() -> u32 {
        9
    }

    fn plus_row(out: &mut [u16], row: &[u16]) {
        // By index: of what is written through a zip of iter_mut only the length is known.
        for (k, x) in out.iter_mut().enumerate() {
            *x = folded(*x + row[k]);
        }
    }

    fn double_row(row: &mut [u16]) {
        for x in row.iter_mut() {
            *x = folded(*x * 2);
        }
    }
}
