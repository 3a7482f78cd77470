// Carries out a command.
ghost use Rattle.std.specs.Prelude.{◌<◌};
ghost use Rattle.words.specs.Command.{Listed, Sound};
ghost use Rattle.words.specs.Named.{ops_of};

use crate::compare::Tally;
use crate::problem::Problem;
use crate::{compare, run_candidates, run_cut, run_show};
use field::gf256::Gf256;
use field::mod257::Mod257;
use std::io;
use std::process::ExitCode;
use words::command::Command;
use words::field_name::FieldName;
use words::help::{About, Overview};
use words::menu::Menu;

fn show_tally(rt: &HostRuntime, field: FieldName, tally: &Tally) -> io::Result<()> {
    let title = field.title();
    let products = tally.products;
    let inverses = tally.inverses;
    let differences = tally.differences;
    println!(rt;
        "{title}: {products} products and {inverses} inverses compared, {differences} differ"
    )
}

// Answers whether every published product came out in both implementations.
fn show_published(rt: &HostRuntime) -> io::Result<bool> {
    let mut all = true;
    for (b, published) in compare::PUBLISHED {
        let (ours, theirs) = compare::both(b);
        println!(rt;
            "GF(2^8): 0x57 times 0x{b:x} is 0x{ours:x}; second implementation 0x{theirs:x}; published 0x{published:x}"
        )?;
        all = all && ours == published && theirs == published;
    }
    Ok(all)
}

fn show_fields(rt: &HostRuntime) -> Result<(), Problem> {
    let first = compare::all::<Gf256>();
    show_tally(rt, FieldName::Gf256, &first)?;
    let other = compare::all::<Mod257>();
    show_tally(rt, FieldName::Mod257, &other)?;
    let published = show_published(rt)?;
    if published && first.differences == 0 && other.differences == 0 {
        Ok(())
    } else {
        Err(Problem::Differs)
    }
}

fn show_product(rt: &HostRuntime, field: FieldName, a: u16, b: u16) -> io::Result<()>
    requires left { a < (ops_of field).order }
    requires right { b < (ops_of field).order }
{
    let title = field.title();
    let r = field.times(a, b);
    println!(rt; "{title}: 0x{a:x} times 0x{b:x} is 0x{r:x} ({a} times {b} is {r})")
}

fn show_inverse(rt: &HostRuntime, field: FieldName, a: u16) -> Result<(), Problem>
    requires { a < (ops_of field).order }
{
    let Some(r) = field.inverse(a) else {
        return Err(Problem::NoInverse(field));
    };
    let title = field.title();
    println!(rt; "{title}: the inverse of 0x{a:x} is 0x{r:x} (the inverse of {a} is {r})")?;
    Ok(())
}

// The verbs of the command are on the menu.
pub fn run(rt: &HostRuntime, menu: Menu, command: Command) -> Result<ExitCode, Problem>
    requires sound { Sound command }
    requires listed { Listed menu command }
{
    match command {
        Command::Overview => print!(rt; "{}", Overview(menu))?,
        Command::About(verb) => print!(rt; "{}", About(menu, verb))?,
        Command::Fields => show_fields(rt)?,
        Command::Times(field, a, b) => show_product(rt, field, a, b)?,
        Command::Inverse(field, a) => show_inverse(rt, field, a)?,
        Command::Cut(request) => run_cut::run(rt, &request)?,
        Command::Show(files) => return run_show::run(rt, menu, files.as_slice()),
        Command::Candidates(inquiry) => run_candidates::run(rt, menu, &inquiry)?,
    }
    Ok(ExitCode::SUCCESS)
}
