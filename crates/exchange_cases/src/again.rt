//! What a second run of `compact` makes of what a crash of the first one leaves.
use crate::fields::field;
use crate::runs::run_over;
use crate::told::content_after;
use crate::worlds::{both, disk_of, with_last, world_of};
use exchange_run::Outcome;
use link_door::MemWorld;
use rtb_num::{List, MemSink, Txt};
use std::alloc::{AllocError, Global};
use std::sync::Wait;
use std::thread::Threads;

// The picks of a crash.
const PICKS: u64 = 8;

/// Appends a letter for each pick: what a second run makes of what a crash leaves is `whole BYTES`, written, `c`, or
/// there before, `w`; or it is something else, `x`. The journal is as it was.
pub fn put_again<R: Threads + Wait + Sync>(
    rt: &R,
    alloc: Global,
    args: &[Txt],
    out: &mut Txt,
) -> Result<(), AllocError> {
    let ended = run_silently(rt, alloc, args, world_of(alloc, args));
    let told = put_letters(rt, alloc, args, &ended, out);
    drop(ended);
    told
}

fn run_silently<R: Threads + Wait + Sync>(
    rt: &R,
    alloc: Global,
    args: &[Txt],
    world: Result<MemWorld, AllocError>,
) -> Result<Outcome<MemWorld>, AllocError> {
    let mut sink = MemSink::new(alloc, List::new(alloc));
    run_over(rt, alloc, args, world, &mut sink)
}

fn put_letters<R: Threads + Wait + Sync>(
    rt: &R,
    alloc: Global,
    args: &[Txt],
    ended: &Result<Outcome<MemWorld>, AllocError>,
    out: &mut Txt,
) -> Result<(), AllocError> {
    for pick in 0..PICKS {
        let letter = match ended {
            Ok(outcome) => letter_of(rt, alloc, args, outcome, pick)?,
            Err(_) => return Err(AllocError),
        };
        out.push(letter)?;
    }
    Ok(())
}

fn letter_of<R: Threads + Wait + Sync>(
    rt: &R,
    alloc: Global,
    args: &[Txt],
    outcome: &Outcome<MemWorld>,
    pick: u64,
) -> Result<u8, AllocError> {
    let journal = content_after(alloc, &outcome.other, pick)?;
    let file = content_after(alloc, &outcome.disk, pick)?;
    if journal.as_bytes() != field(args, b"journal ") {
        return Ok(b'x');
    }
    let world = world_with(alloc, args, journal.as_bytes(), file.as_bytes());
    let ended = run_silently(rt, alloc, args, world);
    let letter = letter_in(alloc, &ended, field(args, b"whole "));
    drop(ended);
    letter
}

// A world of two disks that have these bytes, and of the one that it gives at last.
fn world_with(
    alloc: Global,
    args: &[Txt],
    journal: &[u8],
    file: &[u8],
) -> Result<MemWorld, AllocError> {
    let from = disk_of(alloc, journal, b"", b"");
    let into = disk_of(alloc, file, b"", b"");
    match with_last(alloc, args, b"", b"", both(alloc, from, into)) {
        Ok(disks) => Ok(MemWorld::new(
            alloc,
            List::new(alloc),
            disks,
            List::new(alloc),
            List::new(alloc),
        )),
        Err(AllocError) => Err(AllocError),
    }
}

// What a second run comes to.
fn letter_in(
    alloc: Global,
    ended: &Result<Outcome<MemWorld>, AllocError>,
    whole: &[u8],
) -> Result<u8, AllocError> {
    match ended {
        Ok(outcome) => {
            let written = content_after(alloc, &outcome.disk, u64::MAX)?;
            Ok(letter_for(outcome.status, written.as_bytes() == whole))
        }
        Err(_) => Err(AllocError),
    }
}

fn letter_for(status: u8, is_whole: bool) -> u8 {
    match status {
        0 if is_whole => b'c',
        12 if is_whole => b'w',
        _ => b'x',
    }
}
