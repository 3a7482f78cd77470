// Carries out `candidates`.
ghost use Rattle.std.specs.Prelude.{◌≡◌, true};
ghost use Rattle.words.specs.Menus.{lists};
ghost use Rattle.words.specs.declared.help.Verb.TheVariants.{Candidates};

use crate::pieces;
use crate::problem::Problem;
use std::io;
use texts::cells::Cells;
use words::field_name::FieldName;
use words::inquiry::Inquiry;
use words::menu::Menu;
use work::candidates;
use work::held::Held;
use work::question::Question;

// Says where hiding is not claimed.
fn show_notes(rt: &HostRuntime, first: &Held, column: u16) -> io::Result<()> {
    if let FieldName::Mod257 = first.field {
        println!(rt;
            "note: modulo 257 a candidate may hold 256 (100), which is no byte: hiding is not claimed there"
        )?;
    }
    if candidates::is_filled(&first.header, column) {
        println!(rt;
            "note: zeros fill up this last column, and they are known: hiding is not claimed for it"
        )?;
    }
    Ok(())
}

fn show_column(
    rt: &HostRuntime,
    inquiry: &Inquiry,
    question: &Question,
    value: u8,
) -> Result<(), Problem> {
    let found = candidates::column(rt.alloc(), question, value)?;
    let column = inquiry.column;
    let place = inquiry.place;
    let cells = Cells(found.as_slice());
    println!(rt; "column {column}, place {place} is {value:02x}:{cells}")?;
    Ok(())
}

fn show_columns(rt: &HostRuntime, inquiry: &Inquiry, question: &Question) -> Result<(), Problem> {
    if let Some(value) = inquiry.value {
        return show_column(rt, inquiry, question, value);
    }
    for value in 0..=255u8 {
        show_column(rt, inquiry, question, value)?;
    }
    Ok(())
}

// Only where the verb is on the menu.
pub fn run(rt: &HostRuntime, menu: Menu, inquiry: &Inquiry) -> Result<(), Problem>
    requires { lists menu Candidates ≡ true }
{
    let heap = rt.alloc();
    let files = inquiry.pieces.as_slice();
    let pieces = pieces::read(rt, files)?;
    let column = inquiry.column;
    let question = candidates::ask(
        heap,
        pieces.as_slice(),
        usize::from(column),
        inquiry.place,
    ).try_map_err(|unfit| Ok(Problem::Unfit(unfit, files.to_vec(heap)?)))?;
    if let Some(first) = pieces.as_slice().first() {
        show_notes(rt, first, column)?;
    }
    show_columns(rt, inquiry, &question)
}
