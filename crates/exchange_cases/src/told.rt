//! What is told of a run.
//!
//! - `run`: the status, and what is written.
//! - `files`: the same, and in brackets what the disks have then, each `=` where it is what it was, or `none`; of a third disk
//!   only where it came back.
//! - `sent`: what was sent on each link that came back, with ` / ` behind it, the status, and what is told of the journal.
//! - `answers`: the status and the body of each answer on the links that came back, with `; ` between two, ` / ` behind
//!   each link and `// ` behind each door, the status, and what is told of the journal. `last` tells the last of a link.
//! - `crash`: that of `crashes.rt`.
use crate::crashes::put_crash;
use crate::fields::field;
use crate::journals::tell_journal;
use exchange_run::Outcome;
use link_door::{MemDoor, MemWorld};
use rtb_disk::{Disk, MemDisk};
use rtb_num::{Failed, List, Txt, write_decimal};
use std::alloc::{AllocError, Global};

/// Appends what the call tells of a run of these fields, where it ended.
pub fn tell_ended(
    alloc: Global,
    call: &[u8],
    args: &[Txt],
    ended: &Result<Outcome<MemWorld>, AllocError>,
    written: &Txt,
    out: &mut Txt,
) -> Result<(), AllocError> {
    match ended {
        Ok(outcome) => tell_outcome(alloc, call, args, outcome, written, out),
        Err(_) => Err(AllocError),
    }
}

fn tell_outcome(
    alloc: Global,
    call: &[u8],
    args: &[Txt],
    outcome: &Outcome<MemWorld>,
    written: &Txt,
    out: &mut Txt,
) -> Result<(), AllocError> {
    if call == b"run".as_slice() {
        return put_written(outcome.status, written, out);
    }
    if call == b"files".as_slice() {
        put_written(outcome.status, written, out)?;
        put_files(alloc, args, &outcome.other, &outcome.disk, out)?;
        return put_third(alloc, args, &outcome.last, out);
    }
    if call == b"crash".as_slice() {
        return put_crash(alloc, args, &outcome.doors, &outcome.disk, out);
    }
    if call == b"sent".as_slice() {
        put_sent(&outcome.doors, out)?;
    } else {
        put_answers(&outcome.doors, call == b"last".as_slice(), out)?;
    }
    put_end(alloc, outcome.status, &outcome.disk, out)
}

// The status, and what was written, if anything was.
fn put_written(status: u8, written: &Txt, out: &mut Txt) -> Result<(), AllocError> {
    write_decimal(u64::from(status), out)?;
    if written.is_empty() {
        return Ok(());
    }
    out.extend_all(&[b" ", written.as_bytes()])
}

// ---- files

fn put_files(
    alloc: Global,
    args: &[Txt],
    from: &Option<MemDisk>,
    into: &Option<MemDisk>,
    out: &mut Txt,
) -> Result<(), AllocError> {
    put_file(alloc, from, field(args, b"journal "), out)?;
    put_file(alloc, into, field(args, b"file "), out)
}

fn put_third(
    alloc: Global,
    args: &[Txt],
    last: &Option<MemDisk>,
    out: &mut Txt,
) -> Result<(), AllocError> {
    if last.is_none() {
        return Ok(());
    }
    put_file(alloc, last, field(args, b"later "), out)
}

fn put_file(
    alloc: Global,
    disk: &Option<MemDisk>,
    before: &[u8],
    out: &mut Txt,
) -> Result<(), AllocError> {
    if disk.is_none() {
        return out.extend(b" none");
    }
    let content = content_after(alloc, disk, u64::MAX)?;
    if content.as_bytes() == before {
        return out.extend(b" [=]");
    }
    out.extend_all(&[b" [", content.as_bytes(), b"]"])
}

/// What a crash leaves of the disk by the pick: at most 4096 bytes, and none where there is no disk.
pub fn content_after(alloc: Global, disk: &Option<MemDisk>, pick: u64) -> Result<Txt, AllocError> {
    match disk {
        Some(disk) => content_of(alloc, disk.after_crash(pick)?),
        None => Ok(Txt::new(alloc)),
    }
}

fn content_of<D: Disk + Drop>(alloc: Global, disk: D) -> Result<Txt, AllocError> {
    let mut disk = disk;
    let mut bytes = [0u8; 4096];
    match disk.read(0, &mut bytes) {
        Ok(n) => Txt::from_slice(alloc, &bytes[..n.min(4096)]),
        Err(Failed) => Err(AllocError),
    }
}

// ---- links

fn put_sent(doors: &List<MemDoor>, out: &mut Txt) -> Result<(), AllocError> {
    for door in doors.as_slice() {
        for link in door.served().as_slice() {
            out.extend_all(&[link.sent().as_bytes(), b" / "])?;
        }
    }
    Ok(())
}

fn put_answers(doors: &List<MemDoor>, is_last: bool, out: &mut Txt) -> Result<(), AllocError> {
    for door in doors.as_slice() {
        for link in door.served().as_slice() {
            put_answers_on(link.sent().as_bytes(), is_last, out)?;
            out.extend(b" / ")?;
        }
        out.extend(b"// ")?;
    }
    Ok(())
}

fn put_answers_on(sent: &[u8], is_last: bool, out: &mut Txt) -> Result<(), AllocError> {
    let Ok(text) = str::from_utf8(sent) else {
        return out.extend(b"not UTF-8");
    };
    if is_last {
        return put_last(text, out);
    }
    let mut first = true;
    for answer in text.split("HTTP/1.1 ").skip(1) {
        if !first {
            out.extend(b"; ")?;
        }
        put_answer(answer, out)?;
        first = false;
    }
    Ok(())
}

fn put_last(text: &str, out: &mut Txt) -> Result<(), AllocError> {
    match text.rsplit_once("HTTP/1.1 ") {
        Some((_, answer)) => put_answer(answer, out),
        None => out.extend(b"nothing"),
    }
}

// The status and the body of an answer, which begins with its status.
fn put_answer(answer: &str, out: &mut Txt) -> Result<(), AllocError> {
    if let Some((status, _)) = answer.split_once(" ") {
        out.extend(status.as_bytes())?;
    }
    if let Some((_, body)) = answer.split_once("\r\n\r\n") {
        if !body.is_empty() {
            out.extend_all(&[b" ", body.as_bytes()])?;
        }
    }
    Ok(())
}

// The status, and what is told of the journal.
fn put_end(
    alloc: Global,
    status: u8,
    disk: &Option<MemDisk>,
    out: &mut Txt,
) -> Result<(), AllocError> {
    write_decimal(u64::from(status), out)?;
    out.extend(b"; ")?;
    tell_journal(alloc, disk, u64::MAX, out)
}
