// Which pieces a collection takes.
ghost use Rattle.std.specs.Prelude.{◌≡◌, ℕ, ◌+◌, ◌-◌, ◌/◌, ◌<◌, ◌≤◌, true, false, ◌≢◌, List, length, take, drop, MatchResult, nat_le, slice_index};
ghost use Rattle.piece.specs.Pieces.{Lawful};
ghost use Rattle.piece.specs.Reading.{Accepts, Headed, Refuses, count, header_in, number};
ghost use Rattle.collection.specs.Adding.{Alike, RefusesPiece, Takes};
ghost use Rattle.collection.specs.Books.{Follows, Grown, Hinders, first_in, in_open, places};
ghost use Rattle.collection.specs.Collected.{For, blank};
ghost use Rattle.collection.specs.Numbering.{Numbered};

use super::Book;
use crate::FieldNumbers;
use crate::fault::AddFault;
use field::Field;
use piece::fault::ReadFault;
use piece::read::{Piece, columns, read};
use piece::{Header, Settings};

// The header of an empty job that is one piece: it stands for the first piece while there is none.
const BLANK: Header = Header {
    settings: Settings {
        rows: 0,
        m: 1,
        n: 1,
    },
    number: 1,
    length: 0,
    job: 0,
    stamp: 0,
};

// Whether two headers are of pieces of one deposit: all but the number is equal.
fn alike(a: &Header, b: &Header) -> bool
    ensures yes { result ≡ true → Alike a.now b.now }
    ensures no { result ≡ false → Alike a.now b.now → ⊥ }
{
    *a == Header {
        number: a.number,
        ..*b
    }
}

// Whether the reader finds no header of its field: its refusals 6 and 7.
fn finds_no_header(fault: &ReadFault) -> bool
    ensures { result ≡ nat_le (number fault.now) 7 }
{
    matches!(fault, ReadFault::Short { .. } | ReadFault::Field { .. })
}

impl Book {
    // The book of a collection that has no piece, for the field F.
    pub fn start<F: Field>() -> Book
        ensures field { For F.ops result.field }
        ensures first { first_in result ≡ blank }
        ensures none { result.have ≡ 0 }
    {
        Book {
            field: FieldNumbers::of::<F>(),
            first: None,
            numbers: [0; 16],
            have: 0,
        }
    }

    // How many pieces were taken.
    pub fn have(&self) -> usize
        ensures { result ≡ self.now.have }
    {
        self.have
    }

    // The numbers of the field that the collection is for.
    pub fn field(&self) -> FieldNumbers
        ensures { result ≡ self.now.field }
    {
        self.field
    }

    // How many pieces bring the job back; 1 while there is none.
    pub fn needs(&self) -> u8
        ensures { result ≡ places self.now }
    {
        self.first().settings.m
    }

    // The header of the first piece, or the blank one while there is none.
    fn first(&self) -> Header
        ensures { result ≡ first_in self.now }
    {
        self.first.unwrap_or(BLANK)
    }

    // The settings that the pieces were cut with.
    pub fn settings(&self) -> Settings
        ensures { result ≡ (first_in self.now).settings }
    {
        self.first().settings
    }

    // The job's length in bytes.
    pub fn length(&self) -> usize
        ensures { result ≡ (first_in self.now).length }
    {
        self.first().length as usize
    }

    // How many columns the job's symbols fill.
    pub fn columns(&self) -> usize
        ensures { result ≡ count (first_in self.now) }
    {
        columns(&self.first())
    }

    // The numbers of the pieces, in the order in which they were taken.
    pub fn numbers(&self) -> &[u8]
        ensures value { result.now ≡ take self.now.have self.now.numbers }
        ensures many { length result.now ≡ self.now.have }
    {
        &self.numbers[..self.have]
    }

    // Whether the collection is for the field F.
    pub fn is_for<F: Field>(&self) -> bool
        ensures yes { result ≡ true → For F.ops self.now.field }
        ensures no { result ≡ false → For F.ops self.now.field → ⊥ }
    {
        self.field == FieldNumbers::of::<F>()
    }

    // Whether a piece of this number was taken.
    fn has_number(&self, number: u8) -> bool
        ensures yes { result ≡ true → ((t : ℕ) × (t < self.now.have) × (slice_index self.now.numbers t ≡ number)) }
        ensures no { result ≡ false → (t : ℕ) → t < self.now.have → slice_index self.now.numbers t ≢ number }
    {
        self.numbers().contains(&number)
    }

    // Whether a piece with this header may follow those that were taken.
    fn follows(&self, header: &Header) -> Result<(), AddFault>
        ensures { MatchResult result (λ _. Follows self.now header.now) (λ f. Hinders self.now header.now f) }
    {
        let m = self.needs();
        if self.have >= m as usize {
            return Err(AddFault::Full { m });
        }
        match self.first {
            Some(first) if !alike(&first, header) => Err(AddFault::Differs {
                first,
                piece: *header,
            }),
            _ if self.has_number(header.number) => Err(AddFault::Again {
                number: header.number,
            }),
            _ => Ok(()),
        }
    }

    // Why a piece is refused by a collection for another field: the reader's refusal, where there is no header of the
    // field F, or else that the field is another.
    fn other_field<F: Field>(&self, bytes: &[u8]) -> AddFault
        requires { For F.ops self.now.field → ⊥ }
        ensures { (work : List ℕ) → 4623 ≤ length work → RefusesPiece F.ops (in_open self.now work) bytes.now result }
    {
        let has = self.field;
        match read::<F>(bytes) {
            Err(fault) if finds_no_header(&fault) => AddFault::Reader(fault),
            _ => AddFault::Field { has },
        }
    }

    // Reads a piece that may follow those that were taken.
    pub fn admit<'a, F: Field>(&self, bytes: &'a [u8]) -> Result<Piece<'a>, AddFault>
        ensures { MatchResult result (λ p. For F.ops self.now.field × Accepts F.ops bytes.now × Follows self.now (header_in bytes.now) × (p.header ≡ header_in bytes.now) × (p.body.now ≡ drop 10 bytes.now))
            (λ f. (work : List ℕ) → 4623 ≤ length work → RefusesPiece F.ops (in_open self.now work) bytes.now f) }
    {
        if !self.is_for::<F>() {
            return Err(self.other_field::<F>(bytes));
        }
        let piece = read::<F>(bytes)?;
        self.follows(&piece.header)?;
        Ok(piece)
    }

    // The book with a piece of this header more.
    pub fn with(self, header: &Header) -> Book
        requires follows { Follows self header.now }
        requires lawful { Lawful header.now.settings }
        requires least { 1 ≤ header.now.number }
        requires most { header.now.number ≤ header.now.settings.n }
        requires short { header.now.length ≤ 4096 }
        ensures { Grown self header.now result }
    {
        let have = self.have;
        let mut numbers = self.numbers;
        numbers[have] = header.number;
        Book {
            field: self.field,
            first: Some(self.first.unwrap_or(*header)),
            numbers,
            have: have + 1,
        }
    }
}
