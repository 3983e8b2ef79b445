//! The program `rtbx`: runs the command that its words name, and ends with its status.
#![tactic(auto)]

ghost use Rattle.std.specs.Prelude.{◌≢◌};
ghost use Rattle.rtb_io.specs.declared.status.Status.TheVariants.{NotWritten};

use exchange_run::{end_with, explain, run};
use link_door::{OsWorld, Pause, World};
use rtb_io::Status;
use rtb_num::{Sink, Source, StdSink, StdSource, Txt};
use std::alloc::Global;
use std::env;
use std::fs::File;
use std::io::{self, Write};
use std::process::ExitCode;
use std::rt::Env;
use std::sync::Wait;
use std::sync::atomic::AtomicU64;
use std::sync::atomic::Ordering::SeqCst;
use std::thread::Threads;

fn main(rt: HostRuntime) -> ExitCode {
    match fill_closed(&rt) {
        Ok(filled) => {
            let status = run_words(&rt, &rt);
            drop(filled);
            ExitCode::from(status)
        }
        Err(_) => {
            let _ = rt.stderr().write_all(b"rtbx: cannot open /dev/null\n");
            ExitCode::from(Status::NotWritten.code())
        }
    }
}

// What standard input, output and error are replaced by where they are closed.
const NULL: &str = "/dev/null";

// Opens the null device three times, for reading alone. A system gives the least number that is free, so each of
// 0, 1 and 2 that was closed is open then, no journal and no socket gets its number, and a write to it fails as
// before. They are held until the program ends.
fn fill_closed(rt: &HostRuntime) -> io::Result<(File, File, File)> {
    let first = File::open(rt, NULL)?;
    let second = File::open(rt, NULL)?;
    let third = File::open(rt, NULL)?;
    Ok((first, second, third))
}

// Runs the command that the words name. Its workers are threads of the second.
fn run_words<R: Threads + Wait + Sync>(rt: &HostRuntime, threads: &R) -> u8 {
    let alloc = rt.alloc();
    let mut sink = StdSink::new(io::writer(rt));
    match words_of(rt) {
        Ok(words) => {
            let mut source = StdSource::new(rt.reader());
            let mut world = OsWorld::new(rt, threads);
            let words = words.as_slice();
            let limits = Limits::new(rt);
            let status = status_of_run(
                alloc,
                words,
                &mut world,
                &limits,
                &mut source,
                &mut sink,
                threads,
            );
            drop(limits);
            complain(alloc, words, &mut rt.stderr());
            status
        }
        Err(fault) => {
            let status = end_with(status_of(&fault), &mut sink);
            complain_of(status, &mut rt.stderr());
            status.code()
        }
    }
}

// Runs the command, and lets go of what the world handed out.
fn status_of_run<W: World, P: Pause + Sync, S: Source, K: Sink, R: Threads + Wait + Sync>(
    alloc: Global,
    words: &[Txt],
    world: &mut W,
    pause: &P,
    source: &mut S,
    sink: &mut K,
    rt: &R,
) -> u8
where
    W::Disk: Drop,
{
    let outcome = run(alloc, words, world, pause, source, sink, rt);
    let status = outcome.status;
    drop(outcome);
    status
}

// Says on standard error which limit was met, once for each.
#[derive(Drop)]
struct Limits<'r> {
    rt: &'r HostRuntime,
    // The bits of those that were said.
    said: AtomicU64,
}

impl<'r> Limits<'r> {
    fn new(rt: &'r HostRuntime) -> Limits<'r> {
        Limits {
            rt,
            said: AtomicU64::new(0),
        }
    }
}

impl<'r> Pause for Limits<'r> {
    fn between(&self, _: u32) {}

    fn met(&self, limit: &[u8]) {
        let bit = bit_of(limit);
        if self.said.fetch_or(bit, SeqCst) & bit == 0 {
            say_full(self.rt, limit);
        }
    }
}

// A bit for each of the limits that an answer may say was met.
fn bit_of(limit: &[u8]) -> u64 {
    if limit == b"sales".as_slice() {
        return 1;
    }
    if limit == b"campaigns".as_slice() {
        return 2;
    }
    if limit == b"conjunctions".as_slice() {
        return 4;
    }
    if limit == b"values".as_slice() {
        return 8;
    }
    16
}

fn say_full(rt: &HostRuntime, limit: &[u8]) {
    let mut line = Txt::new(rt.alloc());
    let written = line.extend(b"rtbx: full: ").is_ok()
        && line.extend(limit).is_ok()
        && line.push(b'\n').is_ok();
    if written {
        let _ = rt.stderr().write_all(line.as_bytes());
    }
}

// The words behind the program's name.
fn words_of<R: Env + AllocGlobal>(rt: &R) -> io::Result<Vec<Txt>> {
    let mut words = Vec::new(rt.alloc());
    for word in env::args(rt)?.skip(1) {
        words.push(Txt::from_vec(word.into_bytes()))?;
    }
    Ok(words)
}

// Words that are not UTF-8 are of no command.
fn status_of(fault: &io::Error) -> Status
    ensures { result ≢ NotWritten }
{
    match fault.kind() {
        io::ErrorKind::OutOfMemory => Status::Memory,
        _ => Status::Usage,
    }
}

// Says what is wrong with words that are of no command, where that can be written.
fn complain<W: Write>(alloc: Global, words: &[Txt], errors: &mut W) {
    let mut text = Txt::new(alloc);
    if explain(alloc, words, &mut text).is_ok() && !text.is_empty() {
        let _ = errors.write_all(text.as_bytes());
    }
}

// Says what is wrong with words that are not UTF-8, where that can be written.
fn complain_of<W: Write>(status: Status, errors: &mut W) {
    if let Status::Usage = status {
        let _ = errors.write_all(
            b"rtbx: each word has to be UTF-8\nrtbx: a right command is: rtbx recover --journal exchange.journal\n",
        );
    }
}
