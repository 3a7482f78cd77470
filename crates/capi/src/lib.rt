#![tactic(auto)]
// The functions that C calls. All exports of the repository stand here.
ghost use Rattle.std.specs.Prelude.{◌≡◌, ℕ, min, length, pos, neg_ℤ};
ghost use Rattle.field.specs.Gf256.{gf256};
ghost use Rattle.field.specs.Mod257.{mod257};
ghost use Rattle.piece.specs.Cutting.{cutting, written};
ghost use Rattle.piece.specs.Pieces.{piece};
ghost use Rattle.capi.specs.Answered.{answered, asked};

use field::Field;
use field::gf256::Gf256;
use field::mod257::Mod257;
use piece::Settings;
use piece::layout::cut::cut;

pub mod join;

// A number that no byte holds becomes 255, which is out of every range too; so it is refused and not taken for another.
fn narrow(x: u32) -> u8
    ensures { result ≡ min x 255 }
{
    u8::try_from(x).unwrap_or(255)
}

// The answer for a refusal of this number. C has no Result: a length, or the refusal's number made negative.
fn refused(number: u8) -> i32
    ensures { result ≡ neg_ℤ (pos number) }
{
    -i32::from(number)
}

// Cuts one piece of a job, over any field, from numbers as C passes them.
// join_for ends alike, over a fault with a number of its own.
fn cut_for<F: Field>(
    rows: u32,
    m: u32,
    n: u32,
    number: u32,
    job_number: u16,
    stamp: u32,
    job: &[u8],
    out: &mut [u8],
) -> i32
    ensures answer { result ≡ answered (cutting F.ops (asked rows m n) job.now number (length out.old)) }
    ensures bytes { out.new ≡ written (cutting F.ops (asked rows m n) job.now number (length out.old)) (piece F.ops (asked rows m n) number job_number stamp job.now) out.old }
{
    let settings = Settings {
        rows: narrow(rows),
        m: narrow(m),
        n: narrow(n),
    };
    match cut::<F>(settings, narrow(number), job_number, stamp, job, out) {
        // as, where it is proved to lose nothing: try_from with unwrap says no more.
        Ok(len) => len as i32,
        Err(fault) => refused(fault.number()),
    }
}

// Cuts one piece of a job over GF(2^8). One export for each field, here and in `join`, since C has no type parameters.
#[unsafe(no_mangle)]
pub extern "C" fn jobvault_cut_gf256(
    rows: u32,
    m: u32,
    n: u32,
    number: u32,
    job_number: u16,
    stamp: u32,
    job: &[u8],
    out: &mut [u8],
) -> i32
    ensures answer { result ≡ answered (cutting gf256 (asked rows m n) job.now number (length out.old)) }
    ensures bytes { out.new ≡ written (cutting gf256 (asked rows m n) job.now number (length out.old)) (piece gf256 (asked rows m n) number job_number stamp job.now) out.old }
{
    cut_for::<Gf256>(rows, m, n, number, job_number, stamp, job, out)
}

// Cuts one piece of a job over the integers modulo 257.
#[unsafe(no_mangle)]
pub extern "C" fn jobvault_cut_mod257(
    rows: u32,
    m: u32,
    n: u32,
    number: u32,
    job_number: u16,
    stamp: u32,
    job: &[u8],
    out: &mut [u8],
) -> i32
    ensures answer { result ≡ answered (cutting mod257 (asked rows m n) job.now number (length out.old)) }
    ensures bytes { out.new ≡ written (cutting mod257 (asked rows m n) job.now number (length out.old)) (piece mod257 (asked rows m n) number job_number stamp job.now) out.old }
{
    cut_for::<Mod257>(rows, m, n, number, job_number, stamp, job, out)
}
