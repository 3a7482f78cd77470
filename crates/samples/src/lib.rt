#![tactic(auto)]
// Examples of the libraries at work, proved and run.
#[cfg(test)]
mod joined;
#[cfg(test)]
mod plain;

#[cfg(test)]
mod tests {
    use crate::plain::Plain;
    use algebra::eliminate;
    use field::Field;
    use field::gf256::{Gf256, product};
    use field::mod257::Mod257;
    use piece::Settings;
    use piece::columns::{Guess, OutOfRange};
    use piece::fault::ReadFault;
    use piece::layout::cut::cut;
    use piece::read::read;
    use std::test::Fail;

    // 57 times 83 is C1, also by whole rows.
    #[test]
    fn multiple_added(rt: HostRuntime) {
        let row = [0x83u16, 1, 0];
        let mut out = [0u16, 1, 2];
        let mut scratch = [7u16; 3];
        Gf256::add_multiple(&mut out, &row, 0x57, &mut scratch);
        assert_eq!(rt; out, [0xc1, 0x56, 2]);
        assert_eq!(rt; scratch, [0; 3]);
        assert_eq!(rt; product(0x57, 0x83), 0xc1);
    }

    // The row 256 0 5 times 256.
    #[test]
    fn row_scaled(rt: HostRuntime) {
        let mut row = [256u16, 0, 5];
        let mut scratch = [1u16; 3];
        Mod257::scale_row(&mut row, 256, &mut scratch);
        assert_eq!(rt; row, [1, 0, 252]);
        assert_eq!(rt; scratch, [0; 3]);
    }

    // Doublings and the scalar bodies of the trait agree.
    #[test]
    fn both_ways(rt: HostRuntime) {
        let factors = [0u16, 1, 0x80, 0xff];
        let mut fast = [0u16, 3, 5, 9, 0x11, 0x21, 0x41, 0x81];
        let mut slow = fast;
        let mut row = [0xb6u16, 0x53];
        let mut again = row;
        Gf256::spread(&mut fast, &factors, &mut row);
        Plain::spread(&mut slow, &factors, &mut again);
        assert_eq!(rt; fast, slow);
        assert_eq!(rt; row, again);
        let other = [1u16, 2, 4, 8, 16, 32, 64, 128];
        Gf256::add_row(&mut fast, &other);
        Plain::add_row(&mut slow, &other);
        assert_eq!(rt; fast, slow);
    }

    // x + y = 7 and x + 2 y = 5 in GF(2^8), two right sides at once.
    #[test]
    fn system_solved(rt: HostRuntime) -> Result<(), Fail> {
        let mut rows = [1u16, 1, 7, 0, 1, 2, 5, 1];
        let mut factors = [0u16; 2];
        let mut row = [0u16; 4];
        eliminate::<Gf256>(&mut rows, &mut factors, &mut row);
        assert_eq!(rt; rows[2] ^ rows[6], 7);
        assert_eq!(rt; rows[2] ^ Gf256::mul(2, rows[6] & 0xff), 5);
        assert_eq!(rt; rows[3] ^ rows[7], 0);
        assert_eq!(rt; rows[3] ^ Gf256::mul(2, rows[7] & 0xff), 1);
        Ok(())
    }

    // The symbol of the piece numbered 1 of a column of two places: the entries are the inverses of 2 and 3.
    fn first_symbol(column: [u16; 2]) -> u16 {
        Gf256::mul(0x8d, column[0] & 0xff) ^ Gf256::mul(0xf6, column[1] & 0xff)
    }

    // The symbol 0x57 of the piece numbered 1 of a column of two places, and an element at one of them.
    fn guess(place: usize, value: u16) -> Guess<'static> {
        Guess {
            settings: Settings {
                rows: 1,
                m: 2,
                n: 3,
            },
            numbers: &[1],
            symbols: &[0x57],
            place,
            value,
        }
    }

    // Whatever stands at the first place, a column gives the symbol of the piece that was seen.
    #[test]
    fn column_open(rt: HostRuntime) {
        let mut column = [0u16; 2];
        assert_eq!(rt; guess(0, 0xb6).candidate::<Gf256>(&mut column), Ok(()));
        assert_eq!(rt; column[0], 0xb6);
        assert_eq!(rt; first_symbol(column), 0x57);
        let mut other = [0u16; 2];
        assert_eq!(rt; guess(0, 0).candidate::<Gf256>(&mut other), Ok(()));
        assert_eq!(rt; other[0], 0);
        assert_eq!(rt; first_symbol(other), 0x57);
    }

    // A column of two places has no place 2.
    #[test]
    fn place_refused(rt: HostRuntime) {
        let mut column = [3u16, 5];
        assert_eq!(rt;
            guess(2, 0xb6).candidate::<Gf256>(&mut column),
            Err(OutOfRange::Place)
        );
        assert_eq!(rt; column, [3, 5]);
    }

    // The worked piece, cut to the byte, with what stands behind it left alone.
    #[test]
    fn piece_cut(rt: HostRuntime) {
        let settings = Settings {
            rows: 0,
            m: 2,
            n: 3,
        };
        let mut out = [0xeeu8; 14];
        let made = cut::<Gf256>(settings, 1, 7, 1, &[1, 2, 3], &mut out);
        assert_eq!(rt; made, Ok(12));
        assert_eq!(rt; out, [1, 0x10, 0, 3, 0, 7, 0, 0, 0, 1, 3, 3, 0xee, 0xee]);
    }

    // And read: the header's fields, and the body as a part of the bytes.
    #[test]
    fn piece_read(rt: HostRuntime) -> Result<(), Fail> {
        let bytes = [1u8, 0x10, 0, 3, 0, 7, 0, 0, 0, 1, 3, 3];
        match read::<Gf256>(&bytes) {
            Ok(piece) => {
                assert_eq!(rt; piece.header.job, 7);
                assert_eq!(rt;
                    piece.header.settings,
                    Settings {
                        rows: 0,
                        m: 2,
                        n: 3,
                    }
                );
                assert_eq!(rt; piece.body.len(), 2);
                Ok(())
            }
            Err(_) => Err(Fail::new("refused")),
        }
    }

    // A value of 257 begins in the byte 11.
    #[test]
    fn value_refused(rt: HostRuntime) -> Result<(), Fail> {
        let bytes = [0x41u8, 0x10, 0, 4, 0, 7, 0, 0, 0, 1, 0x00, 0x40, 0x40];
        match read::<Mod257>(&bytes) {
            Ok(_) => Err(Fail::new("accepted")),
            Err(fault) => {
                assert_eq!(rt; fault, ReadFault::Value { byte: 11 });
                Ok(())
            },
        }
    }
}
