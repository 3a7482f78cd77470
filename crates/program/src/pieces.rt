// Reads the pieces that a verb is given.
use crate::problem::Problem;
use files::read as file;
use work::held::Held;
use work::hold;
use work::hold::HoldProblem;

fn piece(rt: &HostRuntime, file: &String) -> Result<Held, Problem> {
    let bytes = file::piece(rt, file)?;
    let piece = hold::hold(rt.alloc(), bytes.as_slice());
    piece.try_map_err(|problem| match problem {
        HoldProblem::Fault(fault) => Ok(Problem::NoPiece(file.clone()?, fault)),
        HoldProblem::Memory => Ok(Problem::Memory),
    })
}

// The pieces of these files, in their order; the first file that is no piece is refused.
pub fn read(rt: &HostRuntime, files: &[String]) -> Result<Vec<Held>, Problem> {
    let mut all = Vec::new(rt.alloc());
    // A for loop: it reads files, which a chain should not.
    for file in files {
        all.push(piece(rt, file)?)?;
    }
    Ok(all)
}
