//! The program `market_cases`: reads cases of the book of sales, of the table of campaigns and of the market's
//! rules, a line each, and prints those that are answered otherwise than they say.
//!
//! `case_lines` says what a case is. In a case of the book or the table each field is one command of a script,
//! which `book.rt` and `table.rt` list, and the answer has what each command says, with `; ` between two.
//! `offers.rt` has clearing, `rules.rt` the calls on the rules, and `market.rt` which requests and campaigns their words stand for.
#![tactic(auto)]

mod ask;
mod book;
mod market;
mod offers;
mod records;
mod rules;
mod table;
mod words;

use case_lines::{done, run_cases};
use rtb_num::{StdSink, StdSource, Txt};
use std::alloc::{AllocError, Global};
use std::io;
use std::process::ExitCode;

// The report on all cases of standard input, or the status of what stood in the way.
fn main(rt: HostRuntime) -> ExitCode {
    let mut source = StdSource::new(rt.reader());
    let mut sink = StdSink::new(io::writer(&rt));
    ExitCode::from(run_cases(&answer, rt.alloc(), &mut source, &mut sink).code())
}

// The calls `book | ..` and `table | ..`, of clearing, and those of the rules.
fn answer(alloc: Global, call: &[u8], args: &[Txt], out: &mut Txt) -> Result<bool, AllocError> {
    if call == b"book".as_slice() {
        return done(book::run(alloc, args, out));
    }
    if call == b"table".as_slice() {
        return done(table::run(alloc, args, out));
    }
    if offers::answer(alloc, call, args, out)? {
        return Ok(true);
    }
    rules::answer(alloc, call, args, out)
}
