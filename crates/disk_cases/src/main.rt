//! The program `disk_cases`: reads cases of disks and journals, a line each, and prints those that are
//! answered otherwise than they say.
//!
//! `case_lines` says what a case is; each area has a module with its calls.
#![tactic(auto)]

mod crashes;
mod disks;
mod errands;
mod journals;
mod opened;

use case_lines::run_cases;
use rtb_num::{StdSink, StdSource, Txt};
use std::alloc::{AllocError, Global};
use std::io;
use std::process::ExitCode;

// The report on all cases of standard input, or the status of what stood in the way.
fn main(rt: HostRuntime) -> ExitCode {
    let mut source = StdSource::new(rt.reader());
    let mut sink = StdSink::new(io::writer(&rt));
    ExitCode::from(run_cases(&answer, rt.alloc(), &mut source, &mut sink).code())
}

// The areas of the disk and the journal.
fn answer(alloc: Global, call: &[u8], args: &[Txt], out: &mut Txt) -> Result<bool, AllocError> {
    if disks::answer(alloc, call, args, out)? {
        return Ok(true);
    }
    if journals::answer(alloc, call, args, out)? {
        return Ok(true);
    }
    crashes::answer(alloc, call, args, out)
}
