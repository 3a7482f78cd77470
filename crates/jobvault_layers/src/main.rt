#![tactic(auto)]
// The program with all verbs: it also shows pieces, and what too few of them leave open.
ghost use Rattle.std.specs.Prelude.{◌≡◌};
ghost use Rattle.words.specs.declared.menu.Menu.TheVariants.{Whole};

use std::process::ExitCode;
use words::menu::Menu;

// The verbs that the program has.
fn menu() -> Menu
    ensures { result ≡ Whole }
{
    Menu::Whole
}

fn main(rt: HostRuntime) -> ExitCode {
    program::answer(&rt, menu())
}
