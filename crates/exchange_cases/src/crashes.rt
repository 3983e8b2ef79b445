//! What crashes leave of a run's journal.
use crate::journals::tell_journal;
use link_door::{MemDoor, MemLink};
use rtb_disk::MemDisk;
use rtb_num::{List, Txt, write_decimal};
use std::alloc::{AllocError, Global};

// The picks of a crash.
const PICKS: u64 = 8;

/// Appends how many messages were answered by 200 or 201, and behind a colon a digit for each pick: which of the fields
/// `front LINE`, from 0 on, is the line that is told of the journal then, or `x`.
pub fn put_crash(
    alloc: Global,
    args: &[Txt],
    doors: &List<MemDoor>,
    disk: &Option<MemDisk>,
    out: &mut Txt,
) -> Result<(), AllocError> {
    put_answered(doors, out)?;
    out.extend(b": ")?;
    for pick in 0..PICKS {
        let mut told = Txt::new(alloc);
        tell_journal(alloc, disk, pick, &mut told)?;
        put_place(args, told.as_bytes(), out)?;
    }
    Ok(())
}

// The place of the line among the fronts.
fn put_place(args: &[Txt], told: &[u8], out: &mut Txt) -> Result<(), AllocError> {
    let mut place: u64 = 0;
    for arg in args {
        if let Some(front) = arg.as_bytes().strip_prefix(b"front ".as_slice()) {
            if front == told {
                return write_decimal(place, out);
            }
            place = place.saturating_add(1);
        }
    }
    out.push(b'x')
}

fn put_answered(doors: &List<MemDoor>, out: &mut Txt) -> Result<(), AllocError> {
    let mut answered: u64 = 0;
    for door in doors.as_slice() {
        for link in door.served().as_slice() {
            answered = answered.saturating_add(answered_on(link));
        }
    }
    write_decimal(answered, out)
}

fn answered_on(link: &MemLink) -> u64 {
    match str::from_utf8(link.sent().as_bytes()) {
        Ok(text) => text.split("HTTP/1.1 20").skip(1).count() as u64,
        Err(_) => 0,
    }
}
