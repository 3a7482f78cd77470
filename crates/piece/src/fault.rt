// Why a piece cannot be cut, and why bytes cannot be read. Each refusal has a number, by which documents and other
// languages know it.
ghost use Rattle.std.specs.Prelude.{◌≡◌};
ghost use Rattle.piece.specs.Cutting.{number as cut_number};
ghost use Rattle.piece.specs.Reading.{number as read_number};

// Why a piece cannot be cut.
#[derive(Clone, Copy, Debug, PartialEq)]
pub enum CutFault {
    // The rows kind is not 0 or 1, or m or n is out of its range. Spelled out: texts print each number by itself.
    Settings { rows: u8, m: u8, n: u8 },
    // The job is too long.
    Job { length: usize },
    // There is no piece of this number.
    Number { number: u8, n: u8 },
    // The buffer is shorter than the piece.
    Room { has: usize, needs: usize },
}

impl CutFault {
    pub fn number(&self) -> u8
        ensures { result ≡ cut_number self.now }
    {
        match self {
            CutFault::Settings { .. } => 1,
            CutFault::Job { .. } => 2,
            CutFault::Number { .. } => 3,
            CutFault::Room { .. } => 4,
        }
    }
}

// Why bytes are no piece of the field that reads them.
#[derive(Clone, Copy, Debug, PartialEq)]
pub enum ReadFault {
    // There are fewer than ten bytes.
    Short {
        length: usize,
    },
    // The header's field code is not the field's.
    Field {
        code: u8,
        wants: u8,
    },
    // The rows kind is above 1, m above n, the number above n, or the length above 4,096. Spelled out: texts print each
    // number by itself.
    Header {
        rows: u8,
        m: u8,
        n: u8,
        number: u8,
        length: u16,
    },
    // The body has the wrong length.
    Body {
        has: usize,
        needs: usize,
    },
    // A value is no code, or a spare bit is 1; at this byte of the piece.
    Value {
        byte: usize,
    },
}

impl ReadFault {
    pub fn number(&self) -> u8
        ensures { result ≡ read_number self.now }
    {
        match self {
            ReadFault::Short { .. } => 6,
            ReadFault::Field { .. } => 7,
            ReadFault::Header { .. } => 8,
            ReadFault::Body { .. } => 9,
            ReadFault::Value { .. } => 10,
        }
    }
}
