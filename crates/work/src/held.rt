ghost use Rattle.words.specs.Named.{ops_of};
ghost use Rattle.work.specs.Whole.{Whole};

use piece::Header;
use words::field_name::FieldName;

// A piece that was read and is kept, with its own copy of the body: its header is in range, and its body holds a code for
// each column. Beside Opened, which borrows its body: one type for both would be generic in the body for nothing else.
#[derive(Drop)]
pub struct Held {
    pub field: FieldName,
    pub header: Header,
    pub body: Vec<u8>,
    ghost whole: { Whole (ops_of field) header body.items },
}
