// Reads a piece of either field: of the one that its header names.
ghost use Rattle.std.specs.Prelude.{◌≡◌, ◌≤◌, length, drop, MatchResult};
ghost use Rattle.piece.specs.Reading.{Accepts, Refuses, count, header_in};
ghost use Rattle.words.specs.Named.{ops_of};
ghost use Rattle.work.specs.Opened.{named_in};
ghost use Rattle.work.specs.Whole.{Whole};

use field::Field;
use field::gf256::Gf256;
use field::mod257::Mod257;
use piece::fault::ReadFault;
use piece::read::Piece;
use piece::{Header, read};
use words::field_name::FieldName;

// A piece as it is read, with its body as a part of the bytes that were given: its header is in range, and its body holds
// a code for each column.
#[derive(Drop)]
pub struct Opened<'a> {
    pub field: FieldName,
    pub header: Header,
    pub body: &'a [u8],
    ghost whole: { Whole (ops_of field) header body.now },
}

// The field that a header's code names, as the format has it; where it names none, the first, which refuses it.
fn field_of(bytes: &[u8]) -> FieldName
    ensures { 10 ≤ length bytes.now → result ≡ named_in bytes.now }
{
    if bytes.len() < 10 {
        return FieldName::Gf256;
    }
    if bytes[0] / 64 == 1 {
        FieldName::Mod257
    } else {
        FieldName::Gf256
    }
}

// The bytes read as a piece of the field F, of this name: F has none of its own.
fn of_field<F: Field>(field: FieldName, bytes: &[u8]) -> Result<Opened<'_>, ReadFault>
    requires { F.ops ≡ ops_of field }
    ensures { MatchResult result (λ p. (p.field ≡ field) × Accepts F.ops bytes.now × (p.header ≡ header_in bytes.now) × (p.body.now ≡ drop 10 bytes.now)) (λ f. Refuses F.ops bytes.now f) }
{
    let Piece { header, body } = read::read::<F>(bytes)?;
    Ok(Opened {
        field,
        header,
        body,
    })
}

// Reads a piece of the field that its header names. A code that names no field is read as the first field, which
// refuses it.
pub fn open(bytes: &[u8]) -> Result<Opened<'_>, ReadFault>
    ensures { MatchResult result (λ p. (p.field ≡ named_in bytes.now) × Accepts (ops_of (named_in bytes.now)) bytes.now × (p.header ≡ header_in bytes.now) × (p.body.now ≡ drop 10 bytes.now)) (λ f. Refuses (ops_of (named_in bytes.now)) bytes.now f) }
{
    // A match stands here: a closure takes no type, and a visitor would be a struct and an impl for this call alone.
    match field_of(bytes) {
        FieldName::Gf256 => of_field::<Gf256>(FieldName::Gf256, bytes),
        FieldName::Mod257 => of_field::<Mod257>(FieldName::Mod257, bytes),
    }
}

// How many columns a job of the header's length fills, also of a header that was not read: where no piece brings the job
// back, there is none.
pub fn columns(header: &Header) -> usize
    ensures { 1 ≤ header.now.settings.m → result ≡ count header.now }
{
    if header.settings.m == 0 {
        return 0;
    }
    read::columns(header)
}
