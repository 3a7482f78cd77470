// Compares the fields with their second implementation.
ghost use Rattle.std.specs.Prelude.{◌≡◌, ◌+◌, ◌*◌, ◌<◌};

use crate::second;
use crate::second::Second;
use field::Field;
use field::gf256::Gf256;

// What FIPS 197, section 4.2, publishes of products by 0x57: the other factor, and the product.
pub const PUBLISHED: [(u16, u16); 6] = [
    (0x83, 0xc1),
    (0x13, 0xfe),
    (0x02, 0xae),
    (0x04, 0x47),
    (0x08, 0x8e),
    (0x10, 0x07),
];

// How much was compared, and how often the two implementations differ.
#[derive(Default, Drop)]
pub struct Tally {
    pub products: u32,
    pub inverses: u32,
    pub differences: u32,
}

impl Tally {
    // Two methods and not one with a counter: each says which one it raises.
    fn product(&mut self, ours: u16, theirs: u16)
        requires { self.old.products < 1000000 }
        ensures products { self.new.products ≡ self.old.products + 1 }
        ensures inverses { self.new.inverses ≡ self.old.inverses }
    {
        self.products += 1;
        self.judge(ours == theirs);
    }

    fn inverse(&mut self, ours: u16, theirs: u16)
        requires { self.old.inverses < 1000000 }
        ensures products { self.new.products ≡ self.old.products }
        ensures inverses { self.new.inverses ≡ self.old.inverses + 1 }
    {
        self.inverses += 1;
        self.judge(ours == theirs);
    }

    fn judge(&mut self, same: bool)
        ensures products { self.new.products ≡ self.old.products }
        ensures inverses { self.new.inverses ≡ self.old.inverses }
    {
        if !same {
            self.differences = self.differences.saturating_add(1);
        }
    }
}

// All products and inverses of a field; the second inverse is the code whose second product with a is 1, or 0.
pub fn all<F: Second>() -> Tally
    ensures products { result.products ≡ F.ops.order * F.ops.order }
    ensures inverses { result.inverses ≡ F.ops.order }
{
    let mut tally = Tally::default();
    for a in 0..F::order() {
        // 0 where there is none, as inv answers.
        let mut inverse = 0;
        let mut theirs = 0;
        for b in 0..F::order() {
            theirs = F::product(a, b, theirs);
            tally.product(F::mul(a, b), theirs);
            if theirs == 1 {
                inverse = b;
            }
        }
        tally.inverse(F::inv(a), inverse);
    }
    tally
}

// 0x57 times b in GF(2^8), by each implementation.
pub fn both(b: u16) -> (u16, u16)
    requires { b < 256 }
{
    (Gf256::mul(0x57, b), second::product256(0x57, b))
}
