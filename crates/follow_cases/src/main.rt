//! The program `follow_cases`: reads cases of a follower over a file that grows, a line each, and prints those that are
//! answered otherwise than they say.
//!
//! `case_lines` says what a case is. `growing_disk.rt` has the disk of such a file, which tells what it shows.
#![tactic(auto)]

mod follows;
mod growing_disk;

use case_lines::run_cases;
use follows::answer;
use rtb_num::{StdSink, StdSource};
use std::io;
use std::process::ExitCode;

// The report on all cases of standard input, or the status of what stood in the way.
fn main(rt: HostRuntime) -> ExitCode {
    let mut source = StdSource::new(rt.reader());
    let mut sink = StdSink::new(io::writer(&rt));
    ExitCode::from(run_cases(&answer, rt.alloc(), &mut source, &mut sink).code())
}
