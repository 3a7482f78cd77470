// Cuts a job into its pieces, as values.
ghost use Rattle.std.specs.Prelude.{◌≡◌, IfOk};
ghost use Rattle.piece.specs.Schemes.{as_settings};
ghost use Rattle.piece.specs.Cutting.{job_of};
ghost use Rattle.piece.specs.Pieces.{piece};
ghost use Rattle.work.specs.Files.{Cuts};
ghost use Rattle.words.specs.Named.{ops_of};
ghost use Rattle.words.specs.Options.{settings_of};

use crate::cut_problem::CutProblem;
use field::Field;
use field::gf256::Gf256;
use field::mod257::Mod257;
use piece::layout::Layout;
use std::alloc::Global;
use words::field_name::FieldName;
use words::options::CutOptions;

// The longest piece: a header of 10 bytes, and 4,096 values of 9 bits. Layout::cut writes to a buffer of its caller.
const LONGEST: usize = 4618;

// The bytes of the piece of this number.
fn bytes<F: Field>(
    heap: Global,
    layout: &Layout,
    number: u8,
    job: u16,
    stamp: u32,
) -> Result<Vec<u8>, CutProblem>
    ensures piece { IfOk result (λ v. v.items ≡ piece F.ops (as_settings layout.now.scheme) number job stamp (job_of layout.now)) }
{
    let mut buffer = [0u8; LONGEST];
    let length = layout.cut::<F>(number, job, stamp, &mut buffer)?;
    Ok(Vec::from_slice(heap, &buffer[0..length])?)
}

// The bytes of each piece, the first piece first.
fn each<F: Field>(
    heap: Global,
    layout: &Layout,
    options: &CutOptions,
) -> Result<Vec<Vec<u8>>, CutProblem>
    ensures cuts { IfOk result (λ all. Cuts F.ops (as_settings layout.now.scheme) options.now.job options.now.stamp (job_of layout.now) options.now.total all.items) }
{
    let mut all = Vec::new(heap);
    // Not by map and try_collect: the check finds no proof where a closure takes a layout with it.
    for i in 0..options.total {
        let bytes = bytes::<F>(heap, layout, i + 1, options.job, options.stamp)?;
        all.push(bytes)?;
    }
    Ok(all)
}

// Cuts a job as the options say: the bytes of each piece, the first piece first.
pub fn pieces(heap: Global, options: &CutOptions, job: &[u8]) -> Result<Vec<Vec<u8>>, CutProblem>
    ensures cuts { IfOk result (λ all. Cuts (ops_of options.now.field) (settings_of options.now) options.now.job options.now.stamp job.now options.now.total all.items) }
{
    let layout = Layout::new(options.settings(), job)?;
    // A match stands here: a closure takes no type, and a visitor would be a struct and an impl for this call alone.
    match options.field {
        FieldName::Gf256 => each::<Gf256>(heap, &layout, options),
        FieldName::Mod257 => each::<Mod257>(heap, &layout, options),
    }
}
