// The kinds of rows that pieces are cut with.
ghost use Rattle.std.specs.Prelude.{◌≡◌};
ghost use Rattle.piece.specs.Rows.{OfNumber, number_of};

// Vandermonde: the entries of a piece are the powers of its number. Cauchy: they are inverses of differences.
#[derive(Clone, Copy, Debug, PartialEq, Eq)]
pub enum Rows {
    Vandermonde,
    Cauchy,
}

// A number that is no kind of rows.
#[derive(Clone, Copy, Debug, PartialEq, Eq)]
pub struct UnknownRows(pub u8);

impl TryFrom<u8> for Rows {
    type Error = UnknownRows;

    ghost try_from_gives = { OfNumber };

    fn try_from(number: u8) -> Result<Rows, UnknownRows> {
        match number {
            0 => Ok(Rows::Vandermonde),
            1 => Ok(Rows::Cauchy),
            _ => Err(UnknownRows(number)),
        }
    }
}

impl From<Rows> for u8 {
    ghost from_gives = { λ rows number. number ≡ number_of rows };

    fn from(rows: Rows) -> u8 {
        match rows {
            Rows::Vandermonde => 0,
            Rows::Cauchy => 1,
        }
    }
}
