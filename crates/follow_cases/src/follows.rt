//! What a follower of a file that grows says, one catching up after the other.
use crate::growing_disk::GrowingDisk;
use case_lines::{done, numbers_in};
use follower::Follower;
use journal_file::JournalFault;
use rtb_disk::Disk;
use rtb_num::{Calls, Txt, write_decimal};
use std::alloc::{AllocError, Global};

/// Answers a call, or tells that it is none.
///
/// - `follow_grown | GROWS | FAILS | IMAGE | .. | IMAGE`: what each catching up with a file says, of which there is one
///   more than images: how many effects are carried out, or the fault; and behind that whether campaign 1 is live, where
///   it is there. The file is the next image from each of the calls GROWS on, and those of FAILS fail; calls are a length
///   or a read, counted from 1.
pub fn answer(alloc: Global, call: &[u8], args: &[Txt], out: &mut Txt) -> Result<bool, AllocError> {
    match args {
        [grows, fails, images @ ..] if call == b"follow_grown".as_slice() => {
            let grows = numbers_in(alloc, grows.as_bytes())?;
            let calls = Calls::new(numbers_in(alloc, fails.as_bytes())?);
            let disk = GrowingDisk::new(alloc, images, grows, calls);
            done(put_caught(alloc, disk, images.len() + 1, out))
        }
        _ => Ok(false),
    }
}

fn put_caught<D: Disk + Drop>(
    alloc: Global,
    disk: D,
    times: usize,
    out: &mut Txt,
) -> Result<(), AllocError> {
    let mut follower = Follower::new(alloc, disk);
    let told = put_each(&mut follower, times, out);
    drop(follower);
    told
}

fn put_each<D: Disk>(
    follower: &mut Follower<D>,
    times: usize,
    out: &mut Txt,
) -> Result<(), AllocError> {
    for turn in 0..times {
        if turn > 0 {
            out.extend(b", ")?;
        }
        put_one(follower.catch_up(), out)?;
        put_campaign(follower, out)?;
    }
    Ok(())
}

fn put_one(caught: Result<u64, JournalFault>, out: &mut Txt) -> Result<(), AllocError> {
    match caught {
        Ok(effects) => write_decimal(effects, out),
        Err(JournalFault::Damaged { at }) => {
            out.extend(b"damaged ")?;
            write_decimal(at, out)
        }
        Err(JournalFault::DiskFailed) => out.extend(b"failed"),
        Err(JournalFault::Memory) => Err(AllocError),
    }
}

fn put_campaign<D: Disk>(follower: &Follower<D>, out: &mut Txt) -> Result<(), AllocError> {
    match follower.report(1) {
        Some(report) if report.live => out.extend(b" live"),
        Some(_) => out.extend(b" paused"),
        None => Ok(()),
    }
}
