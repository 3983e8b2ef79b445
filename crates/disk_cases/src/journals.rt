//! Journals on disks in memory.
ghost use Rattle.std.specs.Prelude.{◌≡◌, false};
ghost use Rattle.journal_file.specs.Compaction.{has_failed};

use crate::disks::{failing_disk, tell_record};
use crate::opened::{
    Opened, append_to, disk_behind, disk_of, open, open_only, put_content, repair_with,
};
use case_lines::{done, number_in, numbers_in};
use journal_file::{Compact, CompactFault, Journal, JournalFault, block_at};
use rtb_disk::{Disk, MemDisk};
use rtb_num::{List, Txt, write_decimal};
use std::alloc::{AllocError, Global};

/// Answers a call of this area, or tells that it is none.
///
/// - `open | CONTENT | CALLS`: the places of the gates that were read, in brackets all payloads one after
///   the other, and how the reading ended, where the calls with these numbers fail.
/// - `append | CONTENT | BLOCK | .. | BLOCK`: the file behind the appends.
/// - `calls | CONTENT | CALLS | BLOCK`: the calls of the disk in an append, where those with these numbers
///   fail, counted from the first of the append, and in a repair where it failed.
/// - `block_at | CONTENT | GATE`: the next gate and in brackets the payload, or what there is else.
/// - `compact | CONTENT | BLOCK | .. | BLOCK`: what the file is where it is written whole with these blocks,
///   or in brackets what it still is where it is not taken.
pub fn answer(alloc: Global, call: &[u8], args: &[Txt], out: &mut Txt) -> Result<bool, AllocError> {
    match args {
        [content, rest @ ..] => answer_on(alloc, call, content, rest, out),
        [] => Ok(false),
    }
}

fn answer_on(
    alloc: Global,
    call: &[u8],
    content: &Txt,
    rest: &[Txt],
    out: &mut Txt,
) -> Result<bool, AllocError> {
    if call == b"append".as_slice() {
        return done(append(alloc, content, rest, out));
    }
    if call == b"compact".as_slice() {
        return done(compact(alloc, content, rest, out));
    }
    match rest {
        [one] => answer_of_one(alloc, call, content, one.as_bytes(), out),
        [fails, block] if call == b"calls".as_slice() => {
            done(calls(alloc, content, fails.as_bytes(), block.as_bytes(), out))
        }
        _ => Ok(false),
    }
}

fn answer_of_one(
    alloc: Global,
    call: &[u8],
    content: &Txt,
    one: &[u8],
    out: &mut Txt,
) -> Result<bool, AllocError> {
    if call == b"open".as_slice() {
        return done(tell_reading(alloc, content, one, out));
    }
    if call == b"block_at".as_slice() {
        return done(find_block(alloc, content, one, out));
    }
    Ok(false)
}

fn tell_reading(
    alloc: Global,
    content: &Txt,
    fails: &[u8],
    out: &mut Txt,
) -> Result<(), AllocError> {
    let disk = failing_disk(alloc, content, fails)?;
    let mut payloads = Txt::new(alloc);
    let mut gates = List::new(alloc);
    let opened = open(disk, &mut payloads, &mut gates);
    let told = tell_opened(gates.as_slice(), &payloads, &opened, out);
    drop(opened);
    drop(payloads);
    drop(gates);
    told
}

fn tell_opened<D: Disk + Drop>(
    gates: &[u64],
    payloads: &Txt,
    opened: &Result<Opened<D>, AllocError>,
    out: &mut Txt,
) -> Result<(), AllocError> {
    match opened {
        Ok(opened) => tell_read(gates, payloads, opened, out),
        Err(_) => Err(AllocError),
    }
}

fn tell_read<D: Disk + Drop>(
    gates: &[u64],
    payloads: &Txt,
    opened: &Opened<D>,
    out: &mut Txt,
) -> Result<(), AllocError> {
    tell_gates(gates, out)?;
    out.extend_all(&[b"[", payloads.as_bytes(), b"] "])?;
    tell_end(opened, out)
}

fn tell_gates(gates: &[u64], out: &mut Txt) -> Result<(), AllocError> {
    for gate in gates {
        write_decimal(*gate, out)?;
        out.push(b' ')?;
    }
    Ok(())
}

fn tell_end<D: Disk + Drop>(opened: &Opened<D>, out: &mut Txt) -> Result<(), AllocError> {
    match opened {
        Opened::Journal(_) => out.extend(b"end"),
        Opened::Not(_, fault) => tell_fault(*fault, out),
    }
}

fn tell_fault(fault: JournalFault, out: &mut Txt) -> Result<(), AllocError> {
    match fault {
        JournalFault::DiskFailed => out.extend(b"disk failed"),
        JournalFault::Memory => out.extend(b"memory"),
        JournalFault::Damaged { at } => {
            out.extend(b"damaged at ")?;
            write_decimal(at, out)
        }
    }
}

fn append(alloc: Global, content: &Txt, blocks: &[Txt], out: &mut Txt) -> Result<(), AllocError> {
    let disk = disk_of(alloc, content)?;
    match open_only(alloc, disk)? {
        Opened::Journal(journal) => append_all(journal, blocks, out),
        Opened::Not(disk, fault) => {
            drop(disk);
            tell_fault(fault, out)
        }
    }
}

fn append_all<D: Disk + Drop>(
    journal: Journal<D>,
    blocks: &[Txt],
    out: &mut Txt,
) -> Result<(), AllocError> {
    let mut journal = journal;
    for block in blocks {
        if !append_to(&mut journal, block.as_bytes()) {
            return out.extend(b"failed");
        }
    }
    put_content(&mut journal.into_disk(), out)
}

fn calls(
    alloc: Global,
    content: &Txt,
    fails: &[u8],
    block: &[u8],
    out: &mut Txt,
) -> Result<(), AllocError> {
    let before = calls_to_open(alloc, content)?;
    let fails = numbers_behind(alloc, before as u64, fails)?;
    let disk = MemDisk::new(alloc, content.copy()?, fails);
    match open_only(alloc, disk)? {
        Opened::Journal(journal) => tell_calls(journal, before, block, out),
        Opened::Not(disk, fault) => {
            drop(disk);
            tell_fault(fault, out)
        }
    }
}

// The numbers, counted from behind these calls.
fn numbers_behind(alloc: Global, before: u64, line: &[u8]) -> Result<List<u64>, AllocError> {
    let mut numbers = List::new(alloc);
    for number in numbers_in(alloc, line)?.as_slice() {
        numbers.push(number.saturating_add(before))?;
    }
    Ok(numbers)
}

// The calls of an append, and of a repair where it failed.
fn tell_calls(
    journal: Journal<MemDisk>,
    before: usize,
    block: &[u8],
    out: &mut Txt,
) -> Result<(), AllocError> {
    let mut journal = journal;
    let written = write_twice(&mut journal, block, out);
    let disk = journal.into_disk();
    let told = match written {
        Ok(true) => tell_behind(&disk, before, out),
        Ok(false) => out.extend(b"failed again"),
        Err(refused) => Err(refused),
    };
    drop(disk);
    told
}

fn write_twice(
    journal: &mut Journal<MemDisk>,
    block: &[u8],
    out: &mut Txt,
) -> Result<bool, AllocError> {
    if !append_to(journal, block) {
        out.extend(b"failed ")?;
    }
    Ok(repair_with(journal, block))
}

// The record behind so many calls.
fn tell_behind(disk: &MemDisk, before: usize, out: &mut Txt) -> Result<(), AllocError> {
    let made = disk.history();
    tell_record(&made[before.min(made.len())..], out)
}

/// How many calls of the disk it takes to open a journal.
pub fn calls_to_open(alloc: Global, content: &Txt) -> Result<usize, AllocError> {
    let disk = disk_of(alloc, content)?;
    let disk = disk_behind(open_only(alloc, disk)?);
    let calls = disk.history().len();
    drop(disk);
    Ok(calls)
}

fn find_block(alloc: Global, content: &Txt, gate: &[u8], out: &mut Txt) -> Result<(), AllocError> {
    let mut disk = disk_of(alloc, content)?;
    let told = tell_block(alloc, &mut disk, number_in(gate).unwrap_or(0), out);
    drop(disk);
    told
}

fn tell_block(
    alloc: Global,
    disk: &mut MemDisk,
    gate: u64,
    out: &mut Txt,
) -> Result<(), AllocError> {
    let mut payload = Txt::new(alloc);
    match block_at(disk, gate, &mut payload) {
        Ok(Some(next)) => {
            write_decimal(next, out)?;
            out.extend_all(&[b" [", payload.as_bytes(), b"]"])
        }
        Ok(None) => out.extend(b"none"),
        Err(fault) => tell_fault(fault, out),
    }
}

fn compact(alloc: Global, content: &Txt, blocks: &[Txt], out: &mut Txt) -> Result<(), AllocError> {
    let disk = disk_of(alloc, content)?;
    match write_whole(disk, blocks) {
        Written::Whole(disk) => put_all(disk, out),
        Written::Refused(disk) => put_refused(disk, out),
        Written::Failed(_) => out.extend(b"disk failed"),
    }
}

fn put_all<D: Disk + Drop>(disk: D, out: &mut Txt) -> Result<(), AllocError> {
    let mut disk = disk;
    put_content(&mut disk, out)
}

fn put_refused<D: Disk + Drop>(disk: D, out: &mut Txt) -> Result<(), AllocError> {
    out.extend(b"not empty [")?;
    put_all(disk, out)?;
    out.push(b']')
}

/// How the writing of a file ended.
#[derive(Drop)]
pub enum Written<D: Disk> {
    Whole(D),
    Refused(D),
    Failed(D),
}

/// Writes a file whole, of these blocks.
pub fn write_whole<D: Disk + Drop>(disk: D, blocks: &[Txt]) -> Written<D> {
    match Compact::start(disk) {
        Ok(compact) => add_all(compact, blocks),
        Err((disk, CompactFault::NotEmpty)) => Written::Refused(disk),
        Err((disk, CompactFault::DiskFailed)) => Written::Failed(disk),
    }
}

fn add_all<D: Disk + Drop>(compact: Compact<D>, blocks: &[Txt]) -> Written<D>
    requires { has_failed compact ≡ false }
{
    let mut compact = compact;
    for block in blocks {
        if compact.add(block.as_bytes()).is_err() {
            return Written::Failed(compact.into_disk());
        }
    }
    match compact.finish() {
        Ok(disk) => Written::Whole(disk),
        Err((disk, _)) => Written::Failed(disk),
    }
}
