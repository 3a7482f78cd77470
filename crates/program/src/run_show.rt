// Carries out `show`.
ghost use Rattle.std.specs.Prelude.{◌≡◌, true};
ghost use Rattle.words.specs.Menus.{lists};
ghost use Rattle.words.specs.declared.help.Verb.TheVariants.{Show};

use crate::problem::Problem;
use files::read;
use std::io;
use std::process::ExitCode;
use texts::grouped::Counted;
use words::menu::Menu;
use words::named::Named;
use work::open;
use work::open::Opened;

fn show_piece(rt: &HostRuntime, file: &String, piece: &Opened<'_>) -> io::Result<()> {
    let header = piece.header;
    let length = Counted(usize::from(header.length), "byte");
    let columns = Counted(open::columns(&header), "column");
    let body = Counted(piece.body.len(), "byte");
    let name = file.as_str().escape_debug();
    let field = piece.field.word();
    let rows = header.settings.kind().unwrap().word();
    let m = header.settings.m;
    let n = header.settings.n;
    let number = header.number;
    print!(rt; "{name}: {field}, {rows}, needs {m} of {n}, piece {number}, ")?;
    let job = header.job;
    let stamp = header.stamp;
    println!(rt; "a job of {length}, job {job}, stamp {stamp}, {columns}, a body of {body}")
}

fn refuse(rt: &HostRuntime, problem: Problem) -> Result<ExitCode, Problem> {
    eprintln!(rt; "jobvault: {problem}")?;
    Ok(ExitCode::FAILURE)
}

fn show(rt: &HostRuntime, file: &String) -> Result<ExitCode, Problem> {
    let bytes = match read::piece(rt, file) {
        Ok(bytes) => bytes,
        Err(problem) => return refuse(rt, Problem::Files(problem)),
    };
    match open::open(bytes.as_slice()) {
        Ok(piece) => {
            show_piece(rt, file, &piece)?;
            Ok(ExitCode::SUCCESS)
        }
        Err(fault) => refuse(rt, Problem::NoPiece(file.clone()?, fault)),
    }
}

// Shows each file that is a piece, and says of each other one why it is none. Only where the verb is on the menu.
pub fn run(rt: &HostRuntime, menu: Menu, files: &[String]) -> Result<ExitCode, Problem>
    requires { lists menu Show ≡ true }
{
    let mut code = ExitCode::SUCCESS;
    for file in files {
        if show(rt, file)? == ExitCode::FAILURE {
            code = ExitCode::FAILURE;
        }
    }
    Ok(code)
}
