//! The program `request_cases`: reads cases of requests, campaigns and their targets, a line each, and prints those that
//! are answered otherwise than they say.
//!
//! `case_lines` says what a case is; each area has a module with its calls.
#![tactic(auto)]

mod campaigns;
mod requests;
mod targeting;

use case_lines::run_cases;
use rtb_num::{StdSink, StdSource, Txt};
use std::alloc::{AllocError, Global};
use std::io;
use std::process::ExitCode;

// The report on all cases of standard input, or the status of what stood in the way.
fn main(rt: HostRuntime) -> ExitCode {
    let mut source = StdSource::new(rt.reader());
    let mut sink = StdSink::new(io::writer(&rt));
    ExitCode::from(run_cases(&answer, rt.alloc(), &mut source, &mut sink).code())
}

// The areas of what is sold and who buys.
fn answer(alloc: Global, call: &[u8], args: &[Txt], out: &mut Txt) -> Result<bool, AllocError> {
    if requests::answer(alloc, call, args, out)? {
        return Ok(true);
    }
    if targeting::answer(alloc, call, args, out)? {
        return Ok(true);
    }
    campaigns::answer(alloc, call, args, out)
}
