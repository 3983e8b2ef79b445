//! Crashes at each call of the journal, with each of eight picks of the changes.
use crate::errands::{hand_out, write_out};
use crate::journals::{Written, calls_to_open, write_whole};
use crate::opened::{Opened, disk_behind, disk_of, open, open_only, put_content};
use case_lines::{done, number_in, put_space};
use journal_file::Journal;
use rtb_disk::{Disk, MemDisk};
use rtb_num::{List, Txt};
use std::alloc::{AllocError, Global};

/// Answers a call of this area, or tells that it is none. Each stops the disk at each call in turn, and last
/// not at all, and opens what a crash leaves by the picks 0 to 7: a word of eight letters for each stop.
///
/// - `append_crash | CONTENT | BLOCK`: `b` where the payloads are those from before, `a` where the block
///   stands behind them. Stops begin with the append.
/// - `repair_crash | CONTENT | BLOCK | N`: the same of a repair, behind an append whose call N failed. Stops
///   begin with the repair.
/// - `create_crash | CONTENT`: `c` where there is no payload and no journal yet, `j` where there is the
///   journal without blocks. Stops begin with the opening.
/// - `compact_crash | CONTENT | BLOCK | .. | BLOCK`: `u` where the file may be written anew, `f` where it is
///   the journal of all blocks. Stops begin with the first sync.
pub fn answer(alloc: Global, call: &[u8], args: &[Txt], out: &mut Txt) -> Result<bool, AllocError> {
    match args {
        [content, block] if call == b"append_crash".as_slice() => {
            done(append_crashes(alloc, content, block.as_bytes(), out))
        }
        [content, block, fail] if call == b"repair_crash".as_slice() => {
            let fail = number_in(fail.as_bytes()).unwrap_or(0);
            done(repair_crashes(alloc, content, block.as_bytes(), fail, out))
        }
        [content] if call == b"create_crash".as_slice() => done(create_crashes(
            alloc, content, out,
        )),
        [content, blocks @ ..] if call == b"compact_crash".as_slice() => {
            done(compact_crashes(alloc, content, blocks, out))
        }
        _ => Ok(false),
    }
}

// Appends the payloads of the journal on this disk, one after the other. Tells whether it is opened.
fn put_payloads<D: Disk + Drop>(
    alloc: Global,
    disk: D,
    payloads: &mut Txt,
) -> Result<bool, AllocError> {
    let mut gates = List::new(alloc);
    let opened = open(disk, payloads, &mut gates);
    drop(gates);
    let is_opened = is_journal(&opened);
    drop(opened);
    is_opened
}

fn is_journal<D: Disk + Drop>(opened: &Result<Opened<D>, AllocError>) -> Result<bool, AllocError> {
    match opened {
        Ok(Opened::Journal(_)) => Ok(true),
        Ok(Opened::Not(..)) => Ok(false),
        Err(_) => Err(AllocError),
    }
}

fn append_crashes(
    alloc: Global,
    content: &Txt,
    block: &[u8],
    out: &mut Txt,
) -> Result<(), AllocError> {
    let before = calls_to_open(alloc, content)? as u64;
    for call in 1..=5u64 {
        put_space(call.saturating_sub(1) as usize, out)?;
        let disk = disk_that_stops(alloc, content, before.saturating_add(call))?;
        append_crash(alloc, content, disk, block, false, out)?;
    }
    Ok(())
}

// A disk with this content, each call of which fails from that number on.
fn disk_that_stops(alloc: Global, content: &Txt, call: u64) -> Result<MemDisk, AllocError> {
    let mut disk = disk_of(alloc, content)?;
    disk.stop_at(call);
    Ok(disk)
}

// What crashes behind an append to the journal on the disk leave, and a repair where that is asked.
fn append_crash(
    alloc: Global,
    content: &Txt,
    disk: MemDisk,
    block: &[u8],
    repairs: bool,
    out: &mut Txt,
) -> Result<(), AllocError> {
    let disk = disk_with_block(alloc, disk, block, repairs)?;
    let told = tell_appended(alloc, content, block, &disk, out);
    drop(disk);
    told
}

fn repair_crashes(
    alloc: Global,
    content: &Txt,
    block: &[u8],
    fail: u64,
    out: &mut Txt,
) -> Result<(), AllocError> {
    let before = (calls_to_open(alloc, content)? as u64).saturating_add(fail);
    let left = if fail < 3 { 5u64 } else { 3u64 };
    for call in 1..=left {
        put_space(call.saturating_sub(1) as usize, out)?;
        let disk = disk_that_fails(alloc, content, before, before.saturating_add(call))?;
        append_crash(alloc, content, disk, block, true, out)?;
    }
    Ok(())
}

// A disk with this content, of which one call fails, and each from another number on.
fn disk_that_fails(
    alloc: Global,
    content: &Txt,
    fail: u64,
    stop: u64,
) -> Result<MemDisk, AllocError> {
    let mut fails = List::new(alloc);
    fails.push(fail)?;
    let mut disk = MemDisk::new(alloc, content.copy()?, fails);
    disk.stop_at(stop);
    Ok(disk)
}

// The disk behind an append of the block, and a repair where that is asked.
fn disk_with_block<D: Disk + Drop>(
    alloc: Global,
    disk: D,
    block: &[u8],
    repairs: bool,
) -> Result<D, AllocError> {
    match open_only(alloc, disk)? {
        Opened::Journal(journal) => Ok(disk_behind_append(journal, block, repairs)),
        Opened::Not(disk, _) => Ok(disk),
    }
}

fn disk_behind_append<D: Disk + Drop>(journal: Journal<D>, block: &[u8], repairs: bool) -> D {
    let mut journal = journal;
    write(&mut journal, block, repairs);
    journal.into_disk()
}

fn write<D: Disk + Drop>(journal: &mut Journal<D>, block: &[u8], repairs: bool) -> bool {
    if journal.broken() {
        return false;
    }
    if repairs {
        return hand_out(journal, block);
    }
    write_out(journal, block)
}

// A letter for each pick.
fn tell_appended(
    alloc: Global,
    content: &Txt,
    block: &[u8],
    disk: &MemDisk,
    out: &mut Txt,
) -> Result<(), AllocError> {
    let mut old = Txt::new(alloc);
    let mut new = Txt::new(alloc);
    let told = tell_between(alloc, content, block, disk, &mut old, &mut new, out);
    drop(old);
    drop(new);
    told
}

// Fills in the payloads without the block and with it, and tells which of them is there.
fn tell_between(
    alloc: Global,
    content: &Txt,
    block: &[u8],
    disk: &MemDisk,
    old: &mut Txt,
    new: &mut Txt,
    out: &mut Txt,
) -> Result<(), AllocError> {
    put_payloads(alloc, disk_of(alloc, content)?, old)?;
    new.extend_all(&[old.as_bytes(), block])?;
    for pick in 0..8u64 {
        let letter = letter_at(alloc, disk, pick, old.as_bytes(), new.as_bytes())?;
        out.push(letter)?;
    }
    Ok(())
}

fn letter_at(
    alloc: Global,
    disk: &MemDisk,
    pick: u64,
    old: &[u8],
    new: &[u8],
) -> Result<u8, AllocError> {
    let after = disk.after_crash(pick)?;
    let mut found = Txt::new(alloc);
    let is_opened = put_payloads(alloc, after, &mut found);
    let letter = letter_of(is_opened, found.as_bytes(), old, new);
    drop(found);
    letter
}

fn letter_of(
    is_opened: Result<bool, AllocError>,
    found: &[u8],
    old: &[u8],
    new: &[u8],
) -> Result<u8, AllocError> {
    if !is_opened? {
        return Ok(b'x');
    }
    if found == old {
        return Ok(b'b');
    }
    if found == new {
        return Ok(b'a');
    }
    Ok(b'x')
}

fn create_crashes(alloc: Global, content: &Txt, out: &mut Txt) -> Result<(), AllocError> {
    let calls = calls_to_open(alloc, content)? as u64;
    for call in 1..=calls.saturating_add(1) {
        put_space(call.saturating_sub(1) as usize, out)?;
        create_crash(alloc, disk_that_stops(alloc, content, call)?, out)?;
    }
    Ok(())
}

fn create_crash(alloc: Global, disk: MemDisk, out: &mut Txt) -> Result<(), AllocError> {
    let disk = disk_behind(open_only(alloc, disk)?);
    let told = tell_created(alloc, &disk, out);
    drop(disk);
    told
}

fn tell_created(alloc: Global, disk: &MemDisk, out: &mut Txt) -> Result<(), AllocError> {
    for pick in 0..8u64 {
        let letter = letter_of_creation(alloc, disk.after_crash(pick)?)?;
        out.push(letter)?;
    }
    Ok(())
}

fn letter_of_creation<D: Disk + Drop>(alloc: Global, disk: D) -> Result<u8, AllocError> {
    let mut disk = disk;
    let mut found = Txt::new(alloc);
    let content = put_content(&mut disk, &mut found);
    let is_new = found.as_bytes() == b"\x01RTBXJ01\0".as_slice();
    found.truncate(0);
    let is_opened = put_payloads(alloc, disk, &mut found);
    let is_empty = found.is_empty();
    drop(found);
    content?;
    if is_new {
        return Ok(b'j');
    }
    Ok(if is_opened? && is_empty { b'c' } else { b'x' })
}

fn compact_crashes(
    alloc: Global,
    content: &Txt,
    blocks: &[Txt],
    out: &mut Txt,
) -> Result<(), AllocError> {
    let calls = calls_to_write(alloc, content, blocks)?;
    let mut all = Txt::new(alloc);
    let told = compact_at_each(alloc, content, blocks, calls, &mut all, out);
    drop(all);
    told
}

// Fills in all payloads, and tells what crashes leave at each call.
fn compact_at_each(
    alloc: Global,
    content: &Txt,
    blocks: &[Txt],
    calls: u64,
    all: &mut Txt,
    out: &mut Txt,
) -> Result<(), AllocError> {
    for block in blocks {
        all.extend(block.as_bytes())?;
    }
    for call in 1..=calls.saturating_add(1) {
        put_space(call.saturating_sub(1) as usize, out)?;
        let disk = disk_that_stops(alloc, content, call)?;
        compact_crash(alloc, disk, blocks, all.as_bytes(), out)?;
    }
    Ok(())
}

// How many calls of the disk it takes to write a file whole.
fn calls_to_write(alloc: Global, content: &Txt, blocks: &[Txt]) -> Result<u64, AllocError> {
    let disk = disk_with_blocks(disk_of(alloc, content)?, blocks);
    let calls = disk.history().len() as u64;
    drop(disk);
    Ok(calls)
}

fn compact_crash(
    alloc: Global,
    disk: MemDisk,
    blocks: &[Txt],
    all: &[u8],
    out: &mut Txt,
) -> Result<(), AllocError> {
    let disk = disk_with_blocks(disk, blocks);
    let told = tell_written(alloc, &disk, all, out);
    drop(disk);
    told
}

fn tell_written(
    alloc: Global,
    disk: &MemDisk,
    all: &[u8],
    out: &mut Txt,
) -> Result<(), AllocError> {
    for pick in 0..8u64 {
        let letter = letter_of_writing(alloc, disk, pick, all)?;
        out.push(letter)?;
    }
    Ok(())
}

fn disk_with_blocks<D: Disk + Drop>(disk: D, blocks: &[Txt]) -> D {
    match write_whole(disk, blocks) {
        Written::Whole(disk) | Written::Refused(disk) | Written::Failed(disk) => disk,
    }
}

fn letter_of_writing(
    alloc: Global,
    disk: &MemDisk,
    pick: u64,
    all: &[u8],
) -> Result<u8, AllocError> {
    if takes_blocks(disk.after_crash(pick)?) {
        return Ok(b'u');
    }
    letter_of_finish(alloc, disk.after_crash(pick)?, all)
}

fn takes_blocks<D: Disk + Drop>(disk: D) -> bool {
    let written = write_whole(disk, &[]);
    let is_whole = matches!(&written, Written::Whole(_));
    drop(written);
    is_whole
}

fn letter_of_finish<D: Disk + Drop>(alloc: Global, disk: D, all: &[u8]) -> Result<u8, AllocError> {
    let mut found = Txt::new(alloc);
    let is_opened = put_payloads(alloc, disk, &mut found);
    let is_whole = found.as_bytes() == all;
    drop(found);
    Ok(if is_opened? && is_whole { b'f' } else { b'x' })
}
