//! The program `exchange_cases`: reads cases of the exchange that need what no built program has, as disks that fail and
//! crash, a line each, and prints those that are answered otherwise than they say.
//!
//! `case_lines` says what a case is. `commands.rt`, `sales.rt` and `journals.rt` have calls of their own; each other case
//! is a run of a command: `runs.rt` runs it, `worlds.rt` has the world that its fields say, `links.rt` the messages that
//! come, and `told.rt`, `crashes.rt` and `again.rt` what is told of it.
#![tactic(auto)]

mod again;
mod answers;
mod bodies;
mod commands;
mod crashes;
mod fields;
mod journals;
mod links;
mod pauses;
mod runs;
mod sales;
mod sent;
mod told;
mod worlds;

use case_lines::run_cases;
use rtb_io::Status;
use rtb_num::{Sink, Source, StdSink, StdSource, Txt};
use std::alloc::{AllocError, Global};
use std::io;
use std::process::ExitCode;
use std::sync::Wait;
use std::thread::Threads;

// The report on all cases of standard input, or the status of what stood in the way.
fn main(rt: HostRuntime) -> ExitCode {
    let mut source = StdSource::new(rt.reader());
    let mut sink = StdSink::new(io::writer(&rt));
    ExitCode::from(tell_cases(&rt, rt.alloc(), &mut source, &mut sink).code())
}

// The report on all cases of the source. Workers are threads of the runtime.
fn tell_cases<R: Threads + Wait + Sync, I: Source, O: Sink>(
    rt: &R,
    alloc: Global,
    source: &mut I,
    sink: &mut O,
) -> Status {
    let answer_to = |alloc: Global, call: &[u8], args: &[Txt], out: &mut Txt| {
        answer(rt, alloc, call, args, out)
    };
    run_cases(&answer_to, alloc, source, sink)
}

// The answer of a call.
fn answer<R: Threads + Wait + Sync>(
    rt: &R,
    alloc: Global,
    call: &[u8],
    args: &[Txt],
    out: &mut Txt,
) -> Result<bool, AllocError> {
    if commands::answer(alloc, call, args, out)? {
        return Ok(true);
    }
    if sales::answer(alloc, call, args, out)? {
        return Ok(true);
    }
    if journals::answer(alloc, call, args, out)? {
        return Ok(true);
    }
    runs::answer(rt, alloc, call, args, out)
}
