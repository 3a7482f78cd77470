// Jobs cut and brought back.
use collection::fault::{AddFault, CloseFault, HandOverFault, JoinFault};
use collection::join::join;
use field::Field;
use field::gf256::Gf256;
use field::mod257::Mod257;
use piece::Settings;
use piece::layout::cut::cut;
use std::test::Fail;

const JOB: [u8; 5] = [0xca, 0xfe, 0x00, 0xff, 0x17];

// The piece of this number, any 2 of 3, Cauchy rows.
fn piece_of<F: Field>(number: u8) -> Result<[u8; 14], Fail> {
    let settings = Settings {
        rows: 1,
        m: 2,
        n: 3,
    };
    let mut out = [0u8; 14];
    let _ = cut::<F>(settings, number, 7, 1, &JOB, &mut out)?;
    Ok(out)
}

// Any two of three bring the job back, in any order, and leave the rest of the buffer and zeros in the work.
#[test]
fn brought_back(rt: HostRuntime) -> Result<(), Fail> {
    let one = piece_of::<Gf256>(1)?;
    let three = piece_of::<Gf256>(3)?;
    let mut work = [9u16; 4623];
    let mut job = [0xeeu8; 7];
    let joined = join::<Gf256>(&[&three[0..13], &one[0..13]], &mut work, &mut job);
    assert_eq!(rt; joined, Ok(5));
    assert_eq!(rt; job, [0xca, 0xfe, 0x00, 0xff, 0x17, 0xee, 0xee]);
    assert_eq!(rt; work[0], 0);
    assert_eq!(rt; work[4622], 0);
    Ok(())
}

// The same modulo 257.
#[test]
fn brought_back_mod_257(rt: HostRuntime) -> Result<(), Fail> {
    let two = piece_of::<Mod257>(2)?;
    let three = piece_of::<Mod257>(3)?;
    let mut work = [9u16; 4623];
    let mut job = [0u8; 5];
    let joined = join::<Mod257>(&[&two, &three], &mut work, &mut job);
    assert_eq!(rt; joined, Ok(5));
    assert_eq!(rt; job, JOB);
    Ok(())
}

// A piece that comes twice is refused at its place, with its number.
#[test]
fn twice_refused(rt: HostRuntime) -> Result<(), Fail> {
    let one = piece_of::<Gf256>(1)?;
    let mut work = [0u16; 4623];
    let mut job = [0u8; 5];
    let joined = join::<Gf256>(&[&one[0..13], &one[0..13]], &mut work, &mut job);
    let fault = AddFault::Again { number: 1 };
    assert_eq!(rt; joined, Err(JoinFault::Add { at: 1, fault }));
    Ok(())
}

// One piece of two is too few, and a buffer one byte short does not do.
#[test]
fn too_few_and_too_short(rt: HostRuntime) -> Result<(), Fail> {
    let one = piece_of::<Gf256>(1)?;
    let two = piece_of::<Gf256>(2)?;
    let mut work = [0u16; 4623];
    let mut job = [0u8; 4];
    let few = CloseFault::Few { has: 1, needs: 2 };
    assert_eq!(rt;
        join::<Gf256>(&[&one[0..13]], &mut work, &mut job),
        Err(JoinFault::Close { at: 1, fault: few })
    );
    let room = HandOverFault::Room { has: 4, needs: 5 };
    assert_eq!(rt;
        join::<Gf256>(&[&one[0..13], &two[0..13]], &mut work, &mut job),
        Err(JoinFault::HandOver { at: 2, fault: room })
    );
    Ok(())
}

// Pieces that no job has: the symbol that fills up the last column would not be 0.
#[test]
fn no_job(rt: HostRuntime) -> Result<(), Fail> {
    let one = piece_of::<Gf256>(1)?;
    let mut two = piece_of::<Gf256>(2)?;
    two[12] ^= 1;
    let mut work = [0u16; 4623];
    let mut job = [0u8; 5];
    let fault = HandOverFault::NoJob;
    assert_eq!(rt;
        join::<Gf256>(&[&one[0..13], &two[0..13]], &mut work, &mut job),
        Err(JoinFault::HandOver { at: 2, fault })
    );
    assert_eq!(rt; job, [0; 5]);
    Ok(())
}
