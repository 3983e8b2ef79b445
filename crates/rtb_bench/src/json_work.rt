//! A JSON text that is read so many times.
use crate::counts::{Counts, with_tree};
use crate::put_number;
use bumpalo::Bump;
use exact_json::{read, room_for};
use rtb_num::Txt;
use std::alloc::{AllocError, Global};

/// Reads the bytes so many times, in room that is kept, and counts what they hold. Appends how many values there were in
/// all, and how many bytes in texts; or that they are no JSON text.
pub fn put_counts(
    alloc: Global,
    times: u32,
    bytes: &[u8],
    line: &mut Txt,
) -> Result<(), AllocError> {
    match counts_of(alloc, times, bytes) {
        Some(counts) => {
            put_number(b"values=", counts.values, line)?;
            put_number(b" bytes=", counts.bytes, line)?;
        }
        None => line.extend(b"fault")?,
    }
    line.extend(b"\n")
}

// What all readings counted; none where one found no JSON text.
fn counts_of(alloc: Global, times: u32, bytes: &[u8]) -> Option<Counts> {
    let mut room = Bump::new(alloc);
    let mut counts = Counts {
        values: 0,
        bytes: 0,
    };
    let mut faults: u32 = 0;
    for _ in 0..times {
        match with_reading(alloc, &room, bytes, counts) {
            Some(now) => counts = now,
            None => faults = faults.saturating_add(1),
        }
        clear(alloc, &mut room);
    }
    if faults == 0 { Some(counts) } else { None }
}

fn with_reading(alloc: Global, room: &Bump, bytes: &[u8], counts: Counts) -> Option<Counts> {
    match read(alloc, room, bytes) {
        Ok(doc) => Some(with_tree(counts, doc.root())),
        Err(_) => None,
    }
}

// Lets go of what was read in it.
fn clear(alloc: Global, room: &mut Bump) {
    match room.reset() {
        Ok(()) => {}
        Err(_) => *room = Bump::new(alloc),
    }
}

/// Reads the bytes so many times, each time in room that is made for them and let go behind it, as an answer to a request
/// for the best expressions begins. Appends how many readings found a JSON text.
pub fn put_readings(
    alloc: Global,
    times: u32,
    bytes: &[u8],
    line: &mut Txt,
) -> Result<(), AllocError> {
    let mut sum: u64 = 0;
    for _ in 0..times {
        let arena = Bump::try_with_capacity(alloc, room_for(bytes.len()))?;
        let found = read(alloc, &arena, bytes).is_ok();
        drop(arena);
        sum = sum.saturating_add(u64::from(found));
    }
    put_number(b"sum=", sum, line)?;
    line.extend(b"\n")
}
