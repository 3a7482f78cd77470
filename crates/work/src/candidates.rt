// What m - 1 pieces leave open of a column.
ghost use Rattle.std.specs.Prelude.{◌≡◌, ℕ, ◌+◌, ◌*◌, ◌<◌, ◌≤◌, true, false, ◌≢◌, ◌⊎◌, map, length, IfOk, IfErr, MatchOption, OnErr, OnOk, OnSome, nat_lt, slice_index, slice_index_or};
ghost use Rattle.algebra.specs.Field.{Distinct};
ghost use Rattle.piece.specs.Bits.{bytes_for, value_in};
ghost use Rattle.work.specs.Questions.{Askable, Fitting};
ghost use Rattle.work.specs.Told.{Agree, Asked, Has, Lacks, Ready, Tells, Together, Unasked, Unfits, number_of, symbol_of};

use crate::held::Held;
use crate::open::columns;
use crate::question::Question;
use crate::unfit::{Common, Unfit};
use field::Field;
use field::gf256::Gf256;
use field::mod257::Mod257;
use piece::columns::{Guess, OutOfRange, twice};
use piece::kind::Rows;
use piece::{Header, Settings, bits};
use std::alloc::{AllocError, Global};
use words::field_name::FieldName;

// The most columns that a piece has.
const MOST: usize = 4096;

// What m - 1 pieces tell of a column: their numbers and their symbols of it, in their order.
#[derive(Drop)]
pub struct Told {
    pub field: FieldName,
    pub settings: Settings,
    pub numbers: Vec<u8>,
    pub symbols: Vec<u16>,
}

// The value of a column, where all up to it are unpacked into a buffer: unpack writes to one of its caller.
fn value_at(body: &[u8], width: u32, column: usize, values: &mut [u16]) -> u16
    requires wide { width ≤ 16 }
    requires many { length values.old ≡ column + 1 }
    requires room { (column + 1) * width ≤ 8 * length body.now }
    ensures value { result ≡ value_in width body.now column }
{
    bits::unpack(body, width, values);
    values[column]
}

// The symbol of a column, if the body has it.
fn symbol<F: Field>(body: &[u8], column: usize) -> Option<u16>
    ensures cases { MatchOption result ((4096 ≤ column) ⊎ (length body.now < bytes_for F.ops.width (column + 1))) (λ v. v ≡ value_in F.ops.width body.now column) }
    ensures within { OnSome result (bytes_for F.ops.width (column + 1) ≤ length body.now) }
{
    if column >= MOST {
        return None;
    }
    let width = F::width();
    if body.len() < bits::bytes_for(width, column + 1) {
        return None;
    }
    let mut values = [0u16; MOST];
    Some(value_at(body, width, column, &mut values[0..column + 1]))
}

// The piece's symbol of a column, if it has it.
fn symbol_of(piece: &Held, column: usize) -> Option<u16>
    ensures found { MatchOption result (Lacks column piece.now) (λ v. v ≡ symbol_of column piece.now) }
    ensures within { OnSome result (Has column piece.now) }
{
    // A match stands here: a closure takes no type, and a visitor would be a struct and an impl for this call alone.
    match piece.field {
        FieldName::Gf256 => symbol::<Gf256>(piece.body.as_slice(), column),
        FieldName::Mod257 => symbol::<Mod257>(piece.body.as_slice(), column),
    }
}

// What the pieces have in the column, in their order.
fn symbols(heap: Global, pieces: &[Held], column: usize) -> Result<Vec<u16>, Unfit>
    ensures symbols { IfOk result (λ v. v.items ≡ map (symbol_of column) pieces.now) }
    ensures within { OnOk result ((i : ℕ) (d : Held) → i < length pieces.now → Has column (slice_index_or pieces.now i d)) }
    ensures refused { IfErr result (Unfits pieces.now column) }
{
    let mut all = Vec::new(heap);
    // Not by try_collect: it does not say at which piece it fails, and `refused` has to.
    for piece in pieces {
        let Some(symbol) = symbol_of(piece, column) else {
            let columns = columns(&piece.header);
            return Err(Unfit::Column { column, columns });
        };
        all.push(symbol)?;
    }
    Ok(all)
}

// The pieces' numbers, in their order.
fn numbers(heap: Global, pieces: &[Held]) -> Result<Vec<u8>, AllocError>
    ensures numbers { IfOk result (λ v. v.items ≡ map number_of pieces.now) }
{
    pieces.iter().map(|piece| piece.header.number).collect(heap)
}

// What two pieces do not have in common, if there is anything. Field by field: the first that differs is answered.
fn difference(a: &Held, b: &Held) -> Option<Common>
    ensures agree { MatchOption result (Agree a.now b.now) (λ _. Agree a.now b.now → ⊥) }
{
    if a.field != b.field {
        return Some(Common::Field);
    }
    if a.header.settings != b.header.settings {
        return Some(Common::Settings);
    }
    if a.header.length != b.header.length {
        return Some(Common::Length);
    }
    if a.header.job != b.header.job {
        return Some(Common::Job);
    }
    if a.header.stamp != b.header.stamp {
        return Some(Common::Stamp);
    }
    None
}

// The first piece that is not of the first one's job and cut, and what tells.
fn stranger(pieces: &[Held]) -> Option<(usize, Common)>
    ensures cases { MatchOption result (Together pieces.now) (λ x. (x.0 < length pieces.now) × ((d : Held) → Agree (slice_index_or pieces.now 0 d) (slice_index_or pieces.now x.0 d) → ⊥)) }
{
    let first = pieces.first()?;
    // Not by enumerate and find_map: the check finds no proof.
    for (at, piece) in pieces.iter().enumerate() {
        if let Some(what) = difference(first, piece) {
            return Some((at, what));
        }
    }
    None
}

// What the pieces tell of a column, if they are m - 1 different pieces of one job, cut with Cauchy rows.
fn tell(heap: Global, pieces: &[Held], column: usize) -> Result<Told, Unfit>
    ensures tells { IfOk result (Tells pieces.now column) }
    ensures ready { IfOk result Ready }
    ensures refused { IfErr result (Unfits pieces.now column) }
{
    let Some(head) = pieces.first() else {
        return Err(Unfit::NoPiece);
    };
    if let Some((at, what)) = stranger(pieces) {
        return Err(Unfit::Differ { at, what });
    }
    let settings = head.header.settings;
    if settings.kind() != Ok(Rows::Cauchy) {
        return Err(Unfit::Rows);
    }
    let needs = usize::from(settings.m).saturating_sub(1);
    let given = pieces.len();
    if given != needs {
        return Err(Unfit::Count { needs, given });
    }
    let numbers = numbers(heap, pieces)?;
    if let Some((first, second)) = twice(numbers.as_slice()) {
        return Err(Unfit::Twice { first, second });
    }
    let symbols = symbols(heap, pieces, column)?;
    Ok(Told {
        field: head.field,
        settings,
        numbers,
        symbols,
    })
}

// The index of a place that is counted from 1.
fn place_index(settings: Settings, place: u8) -> Result<usize, Unfit>
    ensures index { IfOk result (λ p. (p + 1 ≡ place) × (p < settings.m)) }
    ensures refused { IfErr result (λ u. (u ≡ Unfit.Place place settings.m) × ((place ≡ 0) ⊎ (settings.m < place))) }
{
    let m = settings.m;
    if place == 0 || place > m {
        return Err(Unfit::Place { place, m });
    }
    Ok(usize::from(place) - 1)
}

// The question that pieces leave of a column, counted from 0, and a place, counted from 1.
pub fn ask(heap: Global, pieces: &[Held], column: usize, place: u8) -> Result<Question, Unfit>
    ensures asked { IfOk result (Asked pieces.now column place) }
    ensures refused { IfErr result (Unasked pieces.now column place) }
{
    let told = tell(heap, pieces, column)?;
    let place = place_index(told.settings, place)?;
    Ok(Question { told, place })
}

// Writes the one column that has the value at the place and gives the symbols of the question. Where it may not be asked
// for, the column is left as it was.
fn fit(question: &Question, value: u16, column: &mut [u16]) -> Result<(), OutOfRange>
    ensures refused { OnErr result (Askable question.now.told question.now.place value (length column.old) → ⊥) }
    ensures fits { OnOk result (Fitting question.now.told question.now.place value column.new) }
    ensures kept { OnErr result (column.new ≡ column.old) }
{
    let told = &question.told;
    let guess = Guess {
        settings: told.settings,
        numbers: told.numbers.as_slice(),
        symbols: told.symbols.as_slice(),
        place: question.place,
        value,
    };
    // A match stands here: a closure takes no type, and a visitor would be a struct and an impl for this call alone.
    match told.field {
        FieldName::Gf256 => guess.candidate::<Gf256>(column),
        FieldName::Mod257 => guess.candidate::<Mod257>(column),
    }
}

// The same in memory of its own; the cells are a buffer of the caller, as `candidate` takes one.
fn fitted(
    heap: Global,
    question: &Question,
    value: u16,
    cells: &mut [u16],
) -> Result<Vec<u16>, AllocError>
    requires byte { value < 256 }
    requires room { length cells.old ≡ question.now.told.settings.m }
    ensures fits { IfOk result (λ v. Fitting question.now.told question.now.place value v.items) }
{
    fit(question, value, cells).unwrap();
    Vec::from_slice(heap, cells)
}

// The one column that has the value at the place and gives the symbols of the question.
pub fn column(heap: Global, question: &Question, value: u8) -> Result<Vec<u16>, AllocError>
    ensures fits { IfOk result (λ v. Fitting question.now.told question.now.place value v.items) }
{
    let mut cells = [0u16; 16];
    let m = usize::from(question.told.settings.m);
    fitted(heap, question, u16::from(value), &mut cells[0..m])
}

// Whether zeros fill up the column: the job ends before the column does.
pub fn is_filled(header: &Header, column: u16) -> bool
    ensures value { result ≡ nat_lt header.now.length ((column + 1) * header.now.settings.m) }
{
    // Not by usize::from: the check finds no proof there that the product fits.
    (header.length as usize) < (column as usize + 1) * header.settings.m as usize
}
