// Carries out `cut`.
use crate::problem::Problem;
use files::{read, store};
use std::io;
use texts::grouped::Counted;
use words::named::Named;
use words::request::Request;
use work::cut;

fn show_sum(
    rt: &HostRuntime,
    request: &Request,
    name: &String,
    job: usize,
    piece: usize,
) -> io::Result<()> {
    let options = request.options;
    let name = name.as_str().escape_debug();
    let folder = request.folder.as_str().escape_debug();
    let job = Counted(job, "byte");
    let pieces = Counted(usize::from(options.total), "piece");
    let piece = Counted(piece, "byte");
    let need = options.need;
    let bring = if need == 1 { "brings" } else { "bring" };
    print!(rt;
        "{name}: {job} cut into {pieces} of {piece} in {folder}, any {need} {bring} it back"
    )?;
    let field = options.field.word();
    let rows = options.rows.word();
    let number = options.job;
    let stamp = options.stamp;
    println!(rt; " ({field}, {rows}, job {number}, stamp {stamp})")
}

fn show_files(rt: &HostRuntime, paths: &[String]) -> io::Result<()> {
    for path in paths {
        let path = path.as_str().escape_debug();
        println!(rt; "wrote {path}")?;
    }
    Ok(())
}

pub fn run(rt: &HostRuntime, request: &Request) -> Result<(), Problem> {
    let heap = rt.alloc();
    let job = read::job(rt, &request.file)?;
    let name = store::name_of(heap, &request.file)?;
    let pieces = cut::pieces(heap, &request.options, job.as_slice())?;
    let paths = store::paths(heap, &request.folder, &name, pieces.len())?;
    store::check(rt, &request.folder, paths.as_slice())?;
    store::write(rt, paths.as_slice(), pieces.as_slice())?;
    let length = pieces.as_slice().first().map_or(0, |piece| piece.len());
    show_sum(rt, request, &name, job.len(), length)?;
    show_files(rt, paths.as_slice())?;
    Ok(())
}
