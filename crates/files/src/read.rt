// Reads jobs and pieces from files.
use crate::file_problem::FileProblem;
use std::fs::File;
use std::io::Read;
use std::{fs, io};

// The longest piece has 4,618 bytes: one more tells that a file is longer.
const ENOUGH: u64 = 4619;

fn job_bytes(rt: &HostRuntime, file: &String) -> io::Result<Vec<u8>> {
    if file.as_str() == "-" {
        let mut bytes = Vec::new(rt.alloc());
        rt.stdin().read_to_end(&mut bytes)?;
        return Ok(bytes);
    }
    fs::read(rt, file.as_str())
}

fn piece_bytes(rt: &HostRuntime, file: &String) -> io::Result<Vec<u8>> {
    let mut bytes = Vec::new(rt.alloc());
    File::open(rt, file.as_str())?
        .take(ENOUGH)
        .read_to_end(&mut bytes)?;
    Ok(bytes)
}

fn named(file: &String, bytes: io::Result<Vec<u8>>) -> Result<Vec<u8>, FileProblem> {
    bytes.try_map_err(|e| Ok(FileProblem::NotRead(file.clone()?, e)))
}

// The bytes of a job; `-` is standard input.
pub fn job(rt: &HostRuntime, file: &String) -> Result<Vec<u8>, FileProblem> {
    named(file, job_bytes(rt, file))
}

// The bytes of a piece, or of a file that may be none: at most 4,619, so that a longer file is still refused.
pub fn piece(rt: &HostRuntime, file: &String) -> Result<Vec<u8>, FileProblem> {
    named(file, piece_bytes(rt, file))
}
