// Writes pieces to files.
ghost use Rattle.std.specs.Prelude.{◌≡◌, ◌++◌, IfOk, codes, string_bytes};
ghost use Rattle.files.specs.Naming.{Named, Paths, between, path_of};

use crate::file_problem::FileProblem;
use std::alloc::{AllocError, Global};
use std::fs::File;
use std::io::{ErrorKind, Write};
use std::path::Path;
use std::{fs, io};

// The name that the pieces of a file begin with.
pub fn name_of(heap: Global, file: &String) -> Result<String, FileProblem>
    ensures named { IfOk result (λ name. Named (string_bytes file.now) (string_bytes name)) }
{
    if file.as_str() == "-" {
        return Ok(String::from_str(heap, "stdin")?);
    }
    let Some(name) = Path::new(file.as_str()).file_name() else {
        return Err(FileProblem::NoName(file.clone()?));
    };
    Ok(String::from_str(heap, name)?)
}

// What stands between a folder and the names in it.
fn between(folder: &str) -> &'static str
    ensures { result.now ≡ between folder.now }
{
    if folder.ends_with('/') { "" } else { "/" }
}

// Where the piece of this number goes.
fn path_of(heap: Global, folder: &str, name: &str, number: usize) -> Result<String, AllocError>
    ensures { IfOk result (λ path. string_bytes path ≡ path_of folder.now name.now number) }
{
    let between = between(folder);
    format!(in heap; "{folder}{between}{name}.{number:02}")
}

// Where the pieces go, the first piece first.
pub fn paths(
    heap: Global,
    folder: &String,
    name: &String,
    count: usize,
) -> Result<Vec<String>, FileProblem>
    ensures paths { IfOk result (λ all. Paths (string_bytes folder.now) (string_bytes name.now) count all.items) }
{
    let folder = folder.as_str();
    let name = name.as_str();
    let all = (1..=count)
        .map(|number| path_of(heap, folder, name, number))
        .try_collect(heap)?;
    Ok(all)
}

// Where a piece is written before it is whole.
fn part_of(heap: Global, path: &String) -> Result<String, AllocError>
    ensures { IfOk result (λ part. string_bytes part ≡ string_bytes path.now ++ codes ".part") }
{
    format!(in heap; "{path}.part")
}

fn check_folder(rt: &HostRuntime, folder: &String) -> Result<(), FileProblem> {
    let found = fs::metadata(rt, folder.as_str());
    let found = found.try_map_err(|e| Ok(FileProblem::NoFolder(folder.clone()?, e)))?;
    if !found.is_dir() {
        return Err(FileProblem::NotAFolder(folder.clone()?));
    }
    Ok(())
}

// A link that leads nowhere is there too.
fn check_free(rt: &HostRuntime, path: &String) -> Result<(), FileProblem> {
    match fs::symlink_metadata(rt, path.as_str()) {
        Ok(_) => Err(FileProblem::Exists(path.clone()?)),
        Err(e) if e.kind() == ErrorKind::NotFound => Ok(()),
        Err(e) => Err(FileProblem::NotWritten(path.clone()?, e, None)),
    }
}

// Refuses where a folder is missing or a file is in the way, before anything is written.
pub fn check(rt: &HostRuntime, folder: &String, paths: &[String]) -> Result<(), FileProblem> {
    check_folder(rt, folder)?;
    for path in paths {
        check_free(rt, path)?;
        check_free(rt, &part_of(rt.alloc(), path)?)?;
    }
    Ok(())
}

// Writes a new file whole, or leaves none.
fn fill(rt: &HostRuntime, part: &str, path: &str, bytes: &[u8]) -> io::Result<()> {
    let mut file = File::create_new(rt, part)?;
    let written = file.write_all(bytes);
    drop(file);
    let done = written.and_then(|_| fs::rename(rt, part, path));
    if done.is_err() {
        let _ = fs::remove_file(rt, part);
    }
    done
}

// Removes what this run wrote, and answers the last file that could not be removed.
fn take_back(rt: &HostRuntime, paths: &[String]) -> Result<Option<String>, AllocError> {
    let mut left = None;
    for path in paths {
        if fs::remove_file(rt, path.as_str()).is_err() {
            left = Some(path.clone()?);
        }
    }
    Ok(left)
}

// Writes each piece to its file. Where one cannot be written, those before it are removed. The paths are a list of their
// own, since check asks for them alone, before anything is written.
pub fn write(rt: &HostRuntime, paths: &[String], pieces: &[Vec<u8>]) -> Result<(), FileProblem> {
    for (i, (path, piece)) in paths.iter().zip(pieces.iter()).enumerate() {
        let part = part_of(rt.alloc(), path)?;
        if let Err(e) = fill(rt, part.as_str(), path.as_str(), piece.as_slice()) {
            let left = take_back(rt, &paths[0..i])?;
            return Err(FileProblem::NotWritten(path.clone()?, e, left));
        }
    }
    Ok(())
}
