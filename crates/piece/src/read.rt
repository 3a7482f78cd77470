// Reading a piece.
ghost use Rattle.std.specs.Prelude.{◌≡◌, ◌+◌, ◌-◌, ◌*◌, ◌/◌, ◌≤◌, ◌≢◌, length, drop, MatchResult};
ghost use Rattle.piece.specs.Composed.{ReaderExact, ReadsBackWhole};
ghost use Rattle.piece.specs.Reading.{Accepts, BadBody, GoodBody, Refuses, code_in, count, header_in, sensible};

use crate::fault::ReadFault;
use crate::{Header, LONGEST, Settings, bits};
use field::Field;

// A piece as it is read: its header, and its body as a part of the bytes that were given.
#[derive(Drop)]
pub struct Piece<'a> {
    pub header: Header,
    pub body: &'a [u8],
}

fn is_sensible(h: &Header) -> bool
    ensures { result ≡ sensible h.now }
{
    h.settings.kind().is_ok()
        && h.settings.m <= h.settings.n
        && h.number <= h.settings.n
        && usize::from(h.length) <= LONGEST
}

// The fields of ten header bytes: the field code, and the others.
fn split(head: &[u8; 10]) -> (u8, Header)
    ensures code { result.0 ≡ code_in head.now }
    ensures header { result.1 ≡ header_in head.now }
{
    let settings = Settings {
        rows: head[0] / 16 % 4,
        m: head[0] % 16 + 1,
        n: head[1] / 8 + 1,
    };
    let header = Header {
        settings,
        number: head[1] % 8 * 4 + head[2] / 64 + 1,
        length: (head[2] % 64) as u16 * 256 + head[3] as u16,
        job: u16::from_be_bytes([head[4], head[5]]),
        stamp: u32::from_be_bytes([head[6], head[7], head[8], head[9]]),
    };
    (head[0] / 64, header)
}

// How many columns a job of the header's length fills.
pub fn columns(h: &Header) -> usize
    requires { 1 ≤ h.now.settings.m }
    ensures { result ≡ count h.now }
{
    h.settings.columns(h.length as usize)
}

// Whether the body is one of the header's columns: of the right length, with codes of the field and spare bits 0.
fn check_body<F: Field>(header: &Header, body: &[u8]) -> Result<(), ReadFault>
    requires some { 1 ≤ header.now.settings.m }
    requires few { header.now.settings.m ≤ 16 }
    requires short { header.now.length ≤ 4096 }
    ensures { MatchResult result (λ _. GoodBody F.ops (count header.now) body.now) (λ f. BadBody F.ops (count header.now) body.now f) }
{
    let count = columns(header);
    let needs = bits::bytes_for(F::width(), count);
    let has = body.len();
    if has != needs {
        return Err(ReadFault::Body { has, needs });
    }
    match bits::fault(body, F::width(), F::order(), count) {
        Some(at) => Err(ReadFault::Value { byte: 10 + at }),
        None => Ok(()),
    }
}

// Reads a piece of the field F: any bytes are accepted as a header with a lawful body, or refused for the first reason
// that applies.
pub fn read<F: Field>(piece: &[u8]) -> Result<Piece<'_>, ReadFault>
    ensures { MatchResult result (λ p. Accepts F.ops piece.now × (p.header ≡ header_in piece.now) × (p.body.now ≡ drop 10 piece.now)) (λ f. Refuses F.ops piece.now f) }
{
    let [a, b, c, d, e, f, g, h, i, j, body @ ..] = piece else {
        return Err(ReadFault::Short {
            length: piece.len(),
        });
    };
    // Ten names: std has no split_first_chunk.
    let (code, header) = split(&[*a, *b, *c, *d, *e, *f, *g, *h, *i, *j]);
    let wants = F::code();
    if code != wants {
        return Err(ReadFault::Field { code, wants });
    }
    if !is_sensible(&header) {
        let Settings { rows, m, n } = header.settings;
        return Err(ReadFault::Header {
            rows,
            m,
            n,
            number: header.number,
            length: header.length,
        });
    }
    check_body::<F>(&header, body)?;
    Ok(Piece { header, body })
}

// The reader accepts exactly the bytes that are some header with a lawful body, and reads back what was cut: for every
// field. Answers how many statements there are.
pub fn reading_stands<F: Field>() -> u8
    ensures exact { ReaderExact F.ops }
    ensures back { ReadsBackWhole F.ops }
    ensures number { result ≡ 2 }
{
    2
}
