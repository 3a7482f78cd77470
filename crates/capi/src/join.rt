// Bringing a job back, for C: the pieces stand one behind the other.
ghost use Rattle.std.specs.Prelude.{◌≡◌, ◌≤◌, length, take, replicate};
ghost use Rattle.field.specs.Gf256.{gf256};
ghost use Rattle.field.specs.Mod257.{mod257};
ghost use Rattle.collection.specs.Joining.{bytes_in};
ghost use Rattle.capi.specs.Joined.{AnswersJoin, parted};

use crate::refused;
use collection::join::join;
use field::Field;
use field::gf256::Gf256;
use field::mod257::Mod257;

// More pieces than this are not looked at: the last of them is refused in any case.
const MOST: usize = 17;

// Fills the list with the parts of the bytes, each of this length and the last shorter where need be, as far as it has
// room; answers how many there are.
fn part<'a>(list: &mut [&'a [u8]], bytes: &'a [u8], each: usize) -> usize
    ensures few { result ≤ length list.old }
    ensures parts { bytes_in (take result list.new) ≡ parted (length list.old) each bytes.now }
{
    let mut rest = bytes;
    for (n, slot) in list.iter_mut().enumerate() {
        if rest.is_empty() {
            return n;
        }
        let (front, back) = rest.split_at(each.min(rest.len()));
        *slot = front;
        rest = back;
    }
    list.len()
}

// Joins the pieces, each as long as the first, over any field.
fn join_for<F: Field>(pieces: &[u8], each: usize, work: &mut [u16], job: &mut [u8]) -> i32
    ensures answer { AnswersJoin F.ops (length work.old) each pieces.now job.old job.new result }
    ensures wiped { work.new ≡ replicate (length work.old) 0 }
{
    // Fixed scratch, of which the front is used: the library allocates nothing.
    let mut list: [&[u8]; MOST] = [&[]; MOST];
    let n = part(&mut list, pieces, each);
    match join::<F>(&list[..n], work, job) {
        // as, where it is proved to lose nothing: try_from with unwrap says no more.
        Ok(len) => len as i32,
        Err(fault) => refused(fault.number()),
    }
}

// Brings a job back over GF(2^8).
#[unsafe(no_mangle)]
pub extern "C" fn jobvault_join_gf256(
    pieces: &[u8],
    each: usize,
    work: &mut [u16],
    job: &mut [u8],
) -> i32
    ensures answer { AnswersJoin gf256 (length work.old) each pieces.now job.old job.new result }
    ensures wiped { work.new ≡ replicate (length work.old) 0 }
{
    join_for::<Gf256>(pieces, each, work, job)
}

// Brings a job back over the integers modulo 257.
#[unsafe(no_mangle)]
pub extern "C" fn jobvault_join_mod257(
    pieces: &[u8],
    each: usize,
    work: &mut [u16],
    job: &mut [u8],
) -> i32
    ensures answer { AnswersJoin mod257 (length work.old) each pieces.now job.old job.new result }
    ensures wiped { work.new ≡ replicate (length work.old) 0 }
{
    join_for::<Mod257>(pieces, each, work, job)
}
