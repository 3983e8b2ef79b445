//! The program `wire_cases`: prints what links and doors do over sockets, reads cases of the wire, a line each, and
//! prints those that are answered otherwise than they say.
//!
//! `case_lines` says what a case is; each area has a module with its calls. `small_service.rt` and `pieces.rt` have
//! the service and the link of conversations.
#![tactic(auto)]

mod conversations;
mod links;
mod markup;
mod messages;
mod pieces;
mod small_service;
mod sockets;
mod tokens;

use case_lines::run_cases;
use rtb_num::{Sink, StdSink, StdSource, Txt};
use std::alloc::{AllocError, Global};
use std::io;
use std::process::ExitCode;
use std::sync::Wait;

// What was tried over sockets and the report on all cases of standard input, or the status of what stood in the way.
fn main(rt: HostRuntime) -> ExitCode {
    let mut source = StdSource::new(rt.reader());
    let mut sink = StdSink::new(io::writer(&rt));
    if !tell_sockets(&rt, &rt, &mut sink) {
        return ExitCode::from(1);
    }
    ExitCode::from(run_cases(&answer, rt.alloc(), &mut source, &mut sink).code())
}

// Whether what was tried over sockets was written.
fn tell_sockets<W: Wait + Sync, O: Sink>(rt: &HostRuntime, waits: &W, sink: &mut O) -> bool {
    let mut tried = Txt::new(rt.alloc());
    if sockets::put_tried(rt, waits, &mut tried).is_err() {
        return false;
    }
    sink.write(tried.as_bytes()).is_ok()
}

// Markup, messages, tokens, links and conversations.
fn answer(alloc: Global, call: &[u8], args: &[Txt], out: &mut Txt) -> Result<bool, AllocError> {
    if markup::answer(alloc, call, args, out)? {
        return Ok(true);
    }
    if messages::answer(alloc, call, args, out)? {
        return Ok(true);
    }
    if tokens::answer(call, args, out)? {
        return Ok(true);
    }
    if links::answer(alloc, call, args, out)? {
        return Ok(true);
    }
    conversations::answer(alloc, call, args, out)
}
