//! The program `rtb_bench`: parts of the exchange, each measured by itself. Its words are a job, or several
//! with the word `then` between two:
//!
//! - `serve FILE EACH TIMES WORKERS`: the exchange of the journal in the file is served over links in memory, one for
//!   each of so many workers, to each of which comes so many times what the next EACH bytes of standard input are; with the
//!   word `key` behind it its addresses are signed (`served.rt`);
//! - `turns WORK EACH WORKERS`: each of so many threads takes so many turns under the lock, with that many steps of
//!   work in each (`turns.rt`);
//! - `book CAMPAIGNS SALES`: a book with so many campaigns and so many sales, where each line of standard input is
//!   a step, up to an empty line (`book.rt`);
//! - `json N`: what is left of standard input is read as JSON so many times, and all of it is counted; behind it a word may
//!   say how many bytes are taken. `read N`: it is read alone, each time in room that is made for it;
//! - `which N`: it is a request for the best expressions, which are indexed, and found so many times (`plans.rt`);
//! - `find PROFILE CAMPAIGNS N`: campaigns that are drawn are indexed, and found so many times; `scan` with the same
//!   words: each is asked (`index_work.rt`).
//!
//! A number that is left out is 0. What it prints is the same on every run, and never a time: the caller measures. It
//! ends with status 9 where a job finds no memory, or no file to work on.
#![tactic(auto)]

mod book;
mod counts;
mod draws;
mod generated;
mod index_work;
mod json_work;
mod plans;
mod profile;
mod served;
mod turns;

use case_lines::number_in;
use rtb_io::{Status, read_all};
use rtb_num::{Sink, StdSink, StdSource, Txt, write_decimal};
use std::alloc::AllocError;
use std::io::Read;
use std::process::ExitCode;
use std::rt::Env;
use std::sync::Wait;
use std::thread::Threads;
use std::{env, io};

// The most bytes that a job takes of standard input at once.
const MOST_BYTES: usize = 1_073_741_824;

fn main(rt: HostRuntime) -> io::Result<ExitCode> {
    let words = words_of(&rt)?;
    let status = run_all(&rt, &rt, words.as_slice());
    drop(words);
    Ok(ExitCode::from(status.code()))
}

// The words behind the program's name.
fn words_of<R: Env + AllocGlobal>(rt: &R) -> io::Result<Vec<Txt>> {
    let mut words = Vec::new(rt.alloc());
    for word in env::args(rt)?.skip(1) {
        words.push(Txt::from_vec(word.into_bytes()))?;
    }
    Ok(words)
}

// Does the jobs, up to the first that does not end well.
fn run_all<T: Threads + Wait + Sync>(rt: &HostRuntime, threads: &T, words: &[Txt]) -> Status {
    for job in words.split(|word| word.as_bytes() == b"then".as_slice()) {
        let mut line = Txt::new(rt.alloc());
        let done = run(rt, threads, job, &mut line);
        let told = StdSink::new(io::writer(rt)).write(line.as_bytes());
        drop(line);
        if done.is_err() || told.is_err() {
            return Status::Memory;
        }
    }
    Status::Done
}

// Does a job, and appends the line of its answer.
fn run<T: Threads + Wait + Sync>(
    rt: &HostRuntime,
    threads: &T,
    job: &[Txt],
    line: &mut Txt,
) -> Result<(), AllocError> {
    let name = word_at(job, 0);
    if name == b"serve".as_slice() {
        return served::serve(rt, threads, job, line);
    }
    let (one, two, three) = (number_at(job, 1), number_at(job, 2), number_at(job, 3));
    if name == b"turns".as_slice() {
        return turns::count(threads, rt.alloc(), one, two, three, line);
    }
    if name == b"book".as_slice() {
        return book::run(rt, one, two);
    }
    if name == b"find".as_slice() || name == b"scan".as_slice() {
        let by_index = name == b"find".as_slice();
        return index_work::put_sums(rt.alloc(), by_index, word_at(job, 1), two, three, line);
    }
    let bytes = next_bytes(rt, size_of(job))?;
    let told = put_work(rt, name, one, bytes.as_bytes(), line);
    drop(bytes);
    told
}

// How many bytes work on bytes takes: so many as the last word says, or else all.
fn size_of(job: &[Txt]) -> u32 {
    if job.len() > 2 {
        return number_at(job, 2);
    }
    4_294_967_295
}

// Work on bytes.
fn put_work(
    rt: &HostRuntime,
    name: &[u8],
    times: u32,
    bytes: &[u8],
    line: &mut Txt,
) -> Result<(), AllocError> {
    if name == b"json".as_slice() {
        return json_work::put_counts(rt.alloc(), times, bytes, line);
    }
    if name == b"read".as_slice() {
        return json_work::put_readings(rt.alloc(), times, bytes, line);
    }
    plans::put_found(rt.alloc(), times, bytes, line)
}

// The next so many bytes of standard input.
fn next_bytes(rt: &HostRuntime, size: u32) -> Result<Txt, AllocError> {
    let mut source = StdSource::new(rt.reader().take(u64::from(size)));
    match read_all(rt.alloc(), &mut source, MOST_BYTES) {
        Ok(bytes) => Ok(bytes),
        Err(_) => Err(AllocError),
    }
}

/// The word at that place, or none.
pub fn word_at(job: &[Txt], place: usize) -> &[u8] {
    match job.get(place) {
        Some(word) => word.as_bytes(),
        None => &[],
    }
}

/// The number at that place, or 0.
pub fn number_at(job: &[Txt], place: usize) -> u32 {
    number_in(word_at(job, place))
        .unwrap_or(0)
        .min(4_294_967_295) as u32
}

/// Appends the name and the number.
pub fn put_number(name: &[u8], number: u64, line: &mut Txt) -> Result<(), AllocError> {
    line.extend(name)?;
    write_decimal(number, line)
}
