ghost use Rattle.std.specs.Prelude.{◌≡◌, ◌≤◌, None, IsSome, slice_index, unwrap_or};
ghost use Rattle.collection.specs.Collected.{blank};
ghost use Rattle.collection.specs.Numbering.{Differing, Numbered};

use crate::FieldNumbers;
use piece::Header;

pub mod admit;

// What a collection knows of its pieces, but for their symbols.
// The ranges stand here and not in a type of their own, since a header holds settings as they were read.
#[derive(Clone, Copy)]
pub struct Book {
    field: FieldNumbers,
    // The header of the first piece.
    first: Option<Header>,
    // The numbers of the pieces, in the order in which they were taken: in an array with their count, since a book is
    // copied and nothing is allocated.
    numbers: [u8; 16],
    have: usize,
    ghost kind: { (unwrap_or first blank).settings.rows ≤ 1 },
    ghost some: { 1 ≤ (unwrap_or first blank).settings.m },
    ghost needed: { (unwrap_or first blank).settings.m ≤ 16 },
    ghost enough: { (unwrap_or first blank).settings.m ≤ (unwrap_or first blank).settings.n },
    ghost made: { (unwrap_or first blank).settings.n ≤ 32 },
    ghost short: { (unwrap_or first blank).length ≤ 4096 },
    ghost few: { have ≤ (unwrap_or first blank).settings.m },
    ghost order: { 256 ≤ field.order },
    ghost none: { (have ≡ 0 → first ≡ None) },
    ghost begun: { (1 ≤ have → IsSome first) },
    ghost lead: { (1 ≤ have → (unwrap_or first blank).number ≡ slice_index numbers 0) },
    ghost within: { Numbered (unwrap_or first blank).settings.n have numbers },
    ghost differ: { Differing have numbers },
}
