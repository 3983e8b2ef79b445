//! Disks in memory.
use case_lines::{done, number_in, numbers_in, put_space};
use rtb_disk::{Call, Disk, Made, MemDisk};
use rtb_num::{Failed, Txt, write_decimal};
use std::alloc::{AllocError, Global};
use std::mem;

/// Answers a call of this area, or tells that it is none.
///
/// - `disk | CONTENT | CALLS | STEPS`: what each step gives on a disk with this content whose calls with
///   these numbers fail, and how many faults it counted. STEPS are words: `length`, `read:PLACE:COUNT`,
///   `write:PLACE:TEXT`, `cut:COUNT`, `sync`, `stop:CALL`, and `crash:PICK`, which goes on with the disk
///   after a crash. A write and a cut ask for the length first, which is a call too.
/// - `record | CONTENT | CALLS | STEPS`: the calls in the disk's record, with `!` at those that failed.
pub fn answer(alloc: Global, call: &[u8], args: &[Txt], out: &mut Txt) -> Result<bool, AllocError> {
    match args {
        [content, fails, steps] if call == b"disk".as_slice() => {
            done(tell_steps(alloc, content, fails.as_bytes(), steps.as_bytes(), out))
        }
        [content, fails, steps] if call == b"record".as_slice() => {
            done(tell_calls(alloc, content, fails.as_bytes(), steps.as_bytes(), out))
        }
        _ => Ok(false),
    }
}

// Takes the steps, and tells what each gives.
fn tell_steps(
    alloc: Global,
    content: &Txt,
    fails: &[u8],
    steps: &[u8],
    out: &mut Txt,
) -> Result<(), AllocError> {
    let mut disk = failing_disk(alloc, content, fails)?;
    let told = tell_each(&mut disk, steps, out);
    drop(disk);
    told
}

fn tell_each(disk: &mut MemDisk, steps: &[u8], out: &mut Txt) -> Result<(), AllocError> {
    take_all(disk, steps, out)?;
    out.extend(b"faults ")?;
    write_decimal(disk.calls().faults(), out)
}

// Takes the steps, and tells the record.
fn tell_calls(
    alloc: Global,
    content: &Txt,
    fails: &[u8],
    steps: &[u8],
    out: &mut Txt,
) -> Result<(), AllocError> {
    let mut disk = failing_disk(alloc, content, fails)?;
    let told = tell_record_of(&mut disk, steps, out);
    drop(disk);
    told
}

// The record alone: what the steps give is taken away again.
fn tell_record_of(disk: &mut MemDisk, steps: &[u8], out: &mut Txt) -> Result<(), AllocError> {
    let before = out.len();
    take_all(disk, steps, out)?;
    out.truncate(before);
    tell_record(disk.history(), out)
}

/// A disk with this content, whose calls with these numbers fail.
pub fn failing_disk(alloc: Global, content: &Txt, fails: &[u8]) -> Result<MemDisk, AllocError> {
    let fails = numbers_in(alloc, fails)?;
    Ok(MemDisk::new(alloc, content.copy()?, fails))
}

fn take_all(disk: &mut MemDisk, steps: &[u8], out: &mut Txt) -> Result<(), AllocError> {
    for step in steps.split(|c| *c == b' ') {
        take(disk, step, out)?;
        out.push(b' ')?;
    }
    Ok(())
}

// One step.
fn take(disk: &mut MemDisk, step: &[u8], out: &mut Txt) -> Result<(), AllocError> {
    let (word, rest) = cut_at_colon(step);
    if word == b"stop".as_slice() {
        disk.stop_at(number_in(rest).unwrap_or(0));
        return out.extend(b"done");
    }
    if word == b"crash".as_slice() {
        crash(disk, number_in(rest).unwrap_or(0))?;
        return out.extend(b"crashed");
    }
    ask(disk, word, rest, out)
}

// Goes on with the disk after a crash.
fn crash(disk: &mut MemDisk, pick: u64) -> Result<(), AllocError> {
    let after = disk.after_crash(pick)?;
    drop(mem::replace(disk, after));
    Ok(())
}

// A call of the disk.
fn ask<D: Disk>(disk: &mut D, word: &[u8], rest: &[u8], out: &mut Txt) -> Result<(), AllocError> {
    if word == b"length".as_slice() {
        return tell_number(disk.length(), out);
    }
    if word == b"read".as_slice() {
        return read(disk, rest, out);
    }
    if word == b"write".as_slice() {
        return write(disk, rest, out);
    }
    if word == b"cut".as_slice() {
        return cut(disk, rest, out);
    }
    if word == b"sync".as_slice() {
        return tell_done(disk.sync(), out);
    }
    out.extend(b"unreadable")
}

fn cut_at_colon(text: &[u8]) -> (&[u8], &[u8]) {
    let n = text.iter().take_while(|c| **c != b':').count();
    (&text[..n], &text[(n + 1).min(text.len())..])
}

fn tell_number(answer: Result<u64, Failed>, out: &mut Txt) -> Result<(), AllocError> {
    match answer {
        Ok(n) => write_decimal(n, out),
        Err(Failed) => out.extend(b"failed"),
    }
}

fn tell_done(answer: Result<(), Failed>, out: &mut Txt) -> Result<(), AllocError> {
    match answer {
        Ok(()) => out.extend(b"done"),
        Err(Failed) => out.extend(b"failed"),
    }
}

// `PLACE:COUNT`, of at most 64 bytes
fn read<D: Disk>(disk: &mut D, rest: &[u8], out: &mut Txt) -> Result<(), AllocError> {
    let (place, count) = cut_at_colon(rest);
    match (number_in(place), number_in(count)) {
        (Some(place), Some(count)) => read_at(disk, place, count.min(64) as usize, out),
        _ => out.extend(b"unreadable"),
    }
}

fn read_at<D: Disk>(
    disk: &mut D,
    place: u64,
    count: usize,
    out: &mut Txt,
) -> Result<(), AllocError> {
    let mut bytes = [0u8; 64];
    match disk.read(place, &mut bytes[..count.min(64)]) {
        Ok(n) => out.extend(&bytes[..n.min(64)]),
        Err(Failed) => out.extend(b"failed"),
    }
}

// `PLACE:TEXT`
fn write<D: Disk>(disk: &mut D, rest: &[u8], out: &mut Txt) -> Result<(), AllocError> {
    let (place, text) = cut_at_colon(rest);
    match number_in(place) {
        Some(place) => write_inside(disk, place, text, out),
        None => out.extend(b"unreadable"),
    }
}

fn write_inside<D: Disk>(
    disk: &mut D,
    place: u64,
    text: &[u8],
    out: &mut Txt,
) -> Result<(), AllocError> {
    match disk.length() {
        Ok(length) if place <= length => tell_done(disk.write_at(place, text), out),
        _ => out.extend(b"unreadable"),
    }
}

// `COUNT`
fn cut<D: Disk>(disk: &mut D, rest: &[u8], out: &mut Txt) -> Result<(), AllocError> {
    match number_in(rest) {
        Some(count) => cut_inside(disk, count, out),
        None => out.extend(b"unreadable"),
    }
}

fn cut_inside<D: Disk>(disk: &mut D, count: u64, out: &mut Txt) -> Result<(), AllocError> {
    match disk.length() {
        Ok(length) if count <= length => tell_done(disk.cut(count), out),
        _ => out.extend(b"unreadable"),
    }
}

/// Tells the calls of a record, with one space between two.
pub fn tell_record(made: &[Made], out: &mut Txt) -> Result<(), AllocError> {
    for (i, one) in made.iter().enumerate() {
        put_space(i, out)?;
        tell_made(one, out)?;
    }
    Ok(())
}

fn tell_made(one: &Made, out: &mut Txt) -> Result<(), AllocError> {
    tell_call(&one.call, out)?;
    if one.failed {
        return out.push(b'!');
    }
    Ok(())
}

fn tell_call(call: &Call, out: &mut Txt) -> Result<(), AllocError> {
    match call {
        Call::Length => out.extend(b"length"),
        Call::Sync => out.extend(b"sync"),
        Call::Read { place, count } => tell_two(b"read:", *place, *count, out),
        Call::Cut { count } => tell_one(b"cut:", *count, out),
        Call::Write { place, bytes } => {
            tell_one(b"write:", *place, out)?;
            out.extend_all(&[b":", bytes.as_bytes()])
        }
    }
}

fn tell_one(word: &[u8], number: u64, out: &mut Txt) -> Result<(), AllocError> {
    out.extend(word)?;
    write_decimal(number, out)
}

fn tell_two(word: &[u8], first: u64, second: u64, out: &mut Txt) -> Result<(), AllocError> {
    tell_one(word, first, out)?;
    tell_one(b":", second, out)
}
