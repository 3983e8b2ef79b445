//! The program `seat_cases`: reads cases of the calls of workers on one exchange, a line each, and prints those that
//! are answered otherwise than they say.
//!
//! `case_lines` says what a case is.
#![tactic(auto)]

ghost use Rattle.std.specs.Prelude.{◌≡◌, ◌<◌};

mod answers;
mod seats;
mod session;
mod steps;

use case_lines::{done, run_cases};
use rtb_base::Steps;
use rtb_io::Status;
use rtb_num::{Sink, Source, StdSink, StdSource, Txt};
use std::alloc::{AllocError, Global};
use std::io;
use std::marker::Brand;
use std::process::ExitCode;
use std::sync::Wait;
use std::sync::ledger::{Blank, Ledger};

// The report on all cases of standard input, or the status of what stood in the way.
fn main(rt: HostRuntime) -> ExitCode {
    let mut source = StdSource::new(rt.reader());
    let mut sink = StdSink::new(io::writer(&rt));
    ExitCode::from(tell_cases(&rt, rt.alloc(), &mut source, &mut sink).code())
}

fn tell_cases<R: Wait, I: Source, O: Sink>(
    rt: &R,
    alloc: Global,
    source: &mut I,
    sink: &mut O,
) -> Status {
    let answer_to = |alloc: Global, call: &[u8], args: &[Txt], out: &mut Txt| {
        answer(rt, alloc, call, args, out)
    };
    run_cases(&answer_to, alloc, source, sink)
}

fn answer<R: Wait>(
    rt: &R,
    alloc: Global,
    call: &[u8],
    args: &[Txt],
    out: &mut Txt,
) -> Result<bool, AllocError> {
    answer_with::<R, Brand>(rt, alloc, call, args, Blank::new(1), out)
}

// - `seats | CONTENT | FAILS | STOP | COMMAND | ..`: one thread has two seats of an exchange over a disk in memory with this
//   content, of which the calls with these numbers fail, and all from the number STOP on, where there is one. `session.rt`
//   has the commands.
fn answer_with<R: Wait, L: Ledger>(
    rt: &R,
    alloc: Global,
    call: &[u8],
    args: &[Txt],
    blank: Blank,
    out: &mut Txt,
) -> Result<bool, AllocError>
    requires name { blank.name ≡ L.name }
    requires parts { blank.parts ≡ L.parts }
    requires some { 0 < blank.parts }
{
    let mut steps = Steps::<L>::new(blank);
    match args {
        [content, fails, stop, commands @ ..] if call == b"seats".as_slice() => {
            let disk = session::disk_of(alloc, content, fails.as_bytes(), stop.as_bytes())?;
            done(session::run(rt, alloc, disk, commands, &mut steps, out))
        }
        _ => Ok(false),
    }
}
