// The fields once more, written another way, to compare with.
ghost use Rattle.std.specs.Prelude.{◌≡◌, ◌+◌, ◌%◌, ◌<◌};

use field::Field;
use field::gf256::Gf256;
use field::mod257::Mod257;

// A field whose products are worked out once more.
pub trait Second: Field {
    // The product of a and b; `before` is that of a and b - 1, and 0 where b is 0.
    fn product(a: u16, b: u16, before: u16) -> u16
        requires left { a < Self.ops.order }
        requires before { before < Self.ops.order }
        ensures below { result < Self.ops.order };
}

impl Second for Gf256 {
    fn product(a: u16, b: u16, _before: u16) -> u16 {
        product256(a, b)
    }
}

// Adds a once more for each b.
impl Second for Mod257 {
    fn product(a: u16, b: u16, before: u16) -> u16 {
        if b == 0 { 0 } else { sum257(before, a) }
    }
}

// The product of GF(2^8): the whole carry-less product first, then long division from its highest bit.
pub fn product256(a: u16, b: u16) -> u16
    ensures below { result < 256 }
{
    let mut long = 0u32;
    for i in 0..8u32 {
        if (b >> i) & 1 == 1 {
            long ^= u32::from(a & 0xff) << i;
        }
    }
    for i in 0..7u32 {
        let top = 14 - i;
        if (long >> top) & 1 == 1 {
            long ^= 0x11b << (top - 8);
        }
    }
    (long & 0xff) as u16
}

// a + b modulo 257, with no remainder taken.
pub fn sum257(a: u16, b: u16) -> u16
    requires left { a < 257 }
    requires right { b < 257 }
    ensures value { result ≡ (a + b) % 257 }
{
    let s = a + b;
    if s >= 257 { s - 257 } else { s }
}
