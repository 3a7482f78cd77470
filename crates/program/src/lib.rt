#![tactic(auto)]
// What the programs do: read their words, carry out what these ask for, and say in one line why they could not.
ghost use Rattle.std.specs.Prelude.{IfOk};
ghost use Rattle.words.specs.Command.{Listed, Sound};

mod compare;
mod pieces;
mod problem;
mod run;
mod run_candidates;
mod run_cut;
mod run_show;
mod second;

use problem::Problem;
use std::env;
use std::process::ExitCode;
use words::command;
use words::command::Command;
use words::menu::Menu;

// What the words ask for, in a program with this menu.
fn asked(rt: &HostRuntime, menu: Menu) -> Result<Command, Problem>
    ensures sound { IfOk result Sound }
    ensures listed { IfOk result (Listed menu) }
{
    let args = env::args(rt).map_err(Problem::NoWords)?;
    let words = args.skip(1).collect::<Vec<String>>(rt.alloc())?;
    Ok(command::read(rt.alloc(), words.as_slice(), menu)?)
}

fn carry_out(rt: &HostRuntime, menu: Menu) -> Result<ExitCode, Problem> {
    let command = asked(rt, menu)?;
    run::run(rt, menu, command)
}

// A program with this menu. Where it ends with status 1, it has said why.
pub fn answer(rt: &HostRuntime, menu: Menu) -> ExitCode {
    match carry_out(rt, menu) {
        Ok(code) => code,
        Err(problem) => {
            let _ = eprintln!(rt; "jobvault: {problem}");
            ExitCode::FAILURE
        }
    }
}
