// Why a job or a piece cannot be read, or pieces cannot be written.
use std::alloc::{AllocError, AllocFailed};
use std::{fmt, io};

#[derive(Drop)]
pub enum FileProblem {
    NotRead(String, io::Error),
    NoName(String),
    NoFolder(String, io::Error),
    NotAFolder(String),
    Exists(String),
    // With what could not be removed of the pieces that were written.
    NotWritten(String, io::Error, Option<String>),
    Memory,
}

impl fmt::Display for FileProblem {
    fn fmt<W: fmt::Write>(&self, f: &mut fmt::Formatter<W>) -> fmt::Result {
        match self {
            FileProblem::NotRead(path, e) => {
                let path = path.as_str().escape_debug();
                write!(f, "cannot read '{path}': {e}")
            }
            FileProblem::NoName(path) => {
                let path = path.as_str().escape_debug();
                write!(f, "'{path}' has no last part to name the pieces by")
            }
            FileProblem::NoFolder(path, e) => {
                let path = path.as_str().escape_debug();
                write!(f, "cannot write to the folder '{path}': {e}")
            }
            FileProblem::NotAFolder(path) => {
                let path = path.as_str().escape_debug();
                write!(f, "'{path}' is no folder")
            }
            FileProblem::Exists(path) => {
                let path = path.as_str().escape_debug();
                write!(f, "'{path}' is there already: nothing was written")
            }
            FileProblem::NotWritten(path, e, left) => {
                let path = path.as_str().escape_debug();
                write!(f, "cannot write '{path}': {e}; ")?;
                let Some(left) = left else {
                    return write!(f, "no piece is left behind");
                };
                let left = left.as_str().escape_debug();
                write!(f, "'{left}' could not be removed")
            }
            FileProblem::Memory => write!(f, "no memory is left"),
        }
    }
}

impl From<AllocError> for FileProblem {
    fn from(_e: AllocError) -> FileProblem {
        FileProblem::Memory
    }
}

impl<T: Drop> From<AllocFailed<T>> for FileProblem {
    fn from(_e: AllocFailed<T>) -> FileProblem {
        FileProblem::Memory
    }
}
