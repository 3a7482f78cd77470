// A job from the bytes of its pieces, in one call.
ghost use Rattle.std.specs.Prelude.{◌≡◌, ℕ, ◌≤◌, List, length, replicate, Err, MatchResult};
ghost use Rattle.collection.specs.Closing.{Closes};
ghost use Rattle.collection.specs.Collected.{fresh};
ghost use Rattle.collection.specs.Joining.{AnyMBringBack, Feeds, Joins, NoJobIsMadeUp, bytes_in, fed};
ghost use Rattle.collection.specs.Opened.{opened};

use crate::fault::JoinFault;
use crate::open::Open;
use field::Field;

// Adds the pieces in the order of the list, and looks whether they suffice to close the collection; answers the first
// refusal, with its place.
fn feed<F: Field>(collection: &mut Open<'_>, pieces: &[&[u8]]) -> Result<(), JoinFault>
    requires { opened collection.old ≡ fresh F.ops (opened collection.old).room }
    ensures named { collection.new.work.ghost_name ≡ collection.old.work.ghost_name }
    ensures fed { MatchResult result (λ _. Feeds F.ops (opened collection.old).room (bytes_in pieces.now) (length (bytes_in pieces.now)) × (opened collection.new ≡ fed F.ops (opened collection.old).room (bytes_in pieces.now) (length (bytes_in pieces.now))) × Closes F.ops (opened collection.new))
        (λ f. (job : List ℕ) → Joins F.ops (opened collection.old).room (bytes_in pieces.now) job job (Err f)) }
{
    for (at, piece) in pieces.iter().enumerate() {
        collection
            .add::<F>(piece)
            .map_err(|fault| JoinFault::Add { at, fault })?;
    }
    let at = pieces.len();
    collection
        .can_close::<F>()
        .map_err(|fault| JoinFault::Close { at, fault })
}

// Joins the pieces; the work is left as it may be. A collection must be given up or handed over, so no `?` stands here.
fn join_in<F: Field>(pieces: &[&[u8]], work: &mut [u16], job: &mut [u8]) -> Result<usize, JoinFault>
    ensures { Joins F.ops (length work.old) (bytes_in pieces.now) job.old job.new result }
{
    let mut collection = Open::start::<F>(work);
    if let Err(fault) = feed::<F>(&mut collection, pieces) {
        collection.give_up();
        return Err(fault);
    }
    let closed = collection.close::<F>();
    match closed.can_hand_over::<F>(job) {
        Ok(()) => Ok(closed.hand_over::<F>(job)),
        Err(fault) => {
            closed.give_up();
            let at = pieces.len();
            Err(JoinFault::HandOver { at, fault })
        }
    }
}

// Brings a job back from the bytes of its pieces, in the order of the list: writes it to the front of the buffer, leaves
// the rest alone and answers its length; or refuses, with the place in the list. The work is all zeros then.
pub fn join<F: Field>(
    pieces: &[&[u8]],
    work: &mut [u16],
    job: &mut [u8],
) -> Result<usize, JoinFault>
    ensures answer { Joins F.ops (length work.old) (bytes_in pieces.now) job.old job.new result }
    ensures back { AnyMBringBack F.ops (length work.old) (bytes_in pieces.now) job.old job.new result }
    ensures none { NoJobIsMadeUp F.ops (length work.old) (bytes_in pieces.now) job.old job.new result }
    ensures wiped { work.new ≡ replicate (length work.old) 0 }
{
    let joined = join_in::<F>(pieces, work, job);
    work.fill(0);
    joined
}
