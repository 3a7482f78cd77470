ghost use Rattle.field.specs.Gf256.{gf256};
ghost use Rattle.field.specs.Laws256.{laws256, bounds256};

use field::Field;
use field::gf256::Gf256;

// GF(2^8) once more, with the row operations that the trait gives to every field.
pub struct Plain;

impl Field for Plain {
    ghost ops = { gf256 };

    ghost laws = { laws256 };

    ghost bounds = { bounds256 };

    fn code() -> u8 {
        Gf256::code()
    }

    fn order() -> u16 {
        Gf256::order()
    }

    fn width() -> u32 {
        Gf256::width()
    }

    fn add(a: u16, b: u16) -> u16 {
        Gf256::add(a, b)
    }

    fn mul(a: u16, b: u16) -> u16 {
        Gf256::mul(a, b)
    }

    fn neg(a: u16) -> u16 {
        Gf256::neg(a)
    }

    fn inv(a: u16) -> u16 {
        Gf256::inv(a)
    }
}
