ghost use Rattle.std.specs.Prelude.{◌≡◌, ◌+◌, ◌-◌, ◌/◌, ◌≤◌};
ghost use Rattle.piece.specs.Layouts.{Bytes, Filled};

use crate::scheme::Scheme;

pub mod cut;

// A job laid out by place: row j has the symbols at the place j of all columns, one row behind the other. Any of the
// job's pieces is cut from it. It holds the plan in clear, so it is wiped when it ends.
pub struct Layout {
    scheme: Scheme,
    // The job's length in bytes.
    length: usize,
    // How many columns its symbols fill.
    columns: usize,
    // Fixed, of which the front is used: the library allocates nothing.
    cells: [u16; 4111],
    ghost short: { length ≤ 4096 },
    ghost many: { columns ≡ (length + (scheme.m - 1)) / scheme.m },
    ghost bytes: { Bytes cells },
    ghost filled: { Filled scheme.m length columns cells },
}

impl Drop for Layout {
    fn drop(mut self) {
        self.cells.fill(0);
        let Layout {
            scheme: _,
            length: _,
            columns: _,
            cells: _,
        } = self;
    }
}
