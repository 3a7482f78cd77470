// Why the program ends with status 1.
use files::file_problem::FileProblem;
use piece::fault::{CutFault, ReadFault};
use std::alloc::{AllocError, AllocFailed};
use std::{fmt, io};
use texts::cut_text::Shown;
use texts::read_text::Unread;
use texts::unfit_text::Misfit;
use words::field_name::FieldName;
use words::named::Named;
use words::word_problem::WordProblem;
use work::cut_problem::CutProblem;
use work::unfit::Unfit;

#[derive(Drop)]
pub enum Problem {
    Words(WordProblem),
    NoInverse(FieldName),
    Differs,
    Cut(CutFault),
    Files(FileProblem),
    // The file that is no piece.
    NoPiece(String, ReadFault),
    // Beside the files that were given.
    Unfit(Unfit, Vec<String>),
    NoWords(io::Error),
    Memory,
    System(io::Error),
}

// The line that the user reads, after the program's name. Words are escaped, so that it stays one line.
impl fmt::Display for Problem {
    fn fmt<W: fmt::Write>(&self, f: &mut fmt::Formatter<W>) -> fmt::Result {
        match self {
            Problem::Words(problem) => write!(f, "{problem}"),
            Problem::NoInverse(field) => write!(f, "0 has no inverse in {}", field.word()),
            Problem::Differs => write!(f, "the implementations of a field differ"),
            Problem::Cut(fault) => write!(f, "{}", Shown(*fault)),
            Problem::Files(problem) => write!(f, "{problem}"),
            Problem::NoPiece(file, fault) => {
                let file = file.as_str().escape_debug();
                write!(f, "'{file}': {}", Unread(*fault))
            }
            Problem::Unfit(unfit, names) => write!(f, "{}", Misfit(*unfit, names.as_slice())),
            Problem::NoWords(e) => write!(f, "cannot read the words of the command line: {e}"),
            Problem::Memory => write!(f, "no memory is left"),
            Problem::System(e) => write!(f, "{e}"),
        }
    }
}

impl From<WordProblem> for Problem {
    fn from(problem: WordProblem) -> Problem {
        Problem::Words(problem)
    }
}

impl From<FileProblem> for Problem {
    fn from(problem: FileProblem) -> Problem {
        Problem::Files(problem)
    }
}

impl From<CutProblem> for Problem {
    fn from(problem: CutProblem) -> Problem {
        match problem {
            CutProblem::Fault(fault) => Problem::Cut(fault),
            CutProblem::Memory => Problem::Memory,
        }
    }
}

impl From<io::Error> for Problem {
    fn from(e: io::Error) -> Problem {
        Problem::System(e)
    }
}

impl From<AllocError> for Problem {
    fn from(_e: AllocError) -> Problem {
        Problem::Memory
    }
}

impl<T: Drop> From<AllocFailed<T>> for Problem {
    fn from(_e: AllocFailed<T>) -> Problem {
        Problem::Memory
    }
}
