//! The command `make`: a run that anybody can repeat, or its trace.
ghost use Rattle.std.specs.Prelude.{◌≡◌, IfOk, false, true};
ghost use Rattle.rtb_base.specs.Faults.{RisesOnlyWhere};
ghost use Rattle.rtb_io.specs.Statuses.{code_of};
ghost use Rattle.rtb_io.specs.declared.status.Status.TheVariants.{Done, NotWritten};
ghost use Rattle.made_run.specs.Runs.{IsCounted, IsMade, counts_line};
ghost use Rattle.run_commands.specs.Audit.{EndsNumbered};
ghost use Rattle.run_commands.specs.Make.{RunsMake, text_of};

use crate::status_lines::{end_with, tell};
use made_run::{Made, count_run, make_run, put_counts};
use rtb_io::Status;
use rtb_num::{Sink, Txt};
use run_words::MakeOptions;
use std::alloc::{AllocError, Global};
use std::sync::Wait;

/// Runs the command `make`: serves drawn campaigns and requests in memory, and prints the counts of the run, or its trace.
///
/// It ends with status 0, or 9 for want of memory with its line; and in place of each of them 7, where the sink failed.
/// The world is not asked for anything.
pub fn make<K: Sink, R: Wait>(alloc: Global, options: &MakeOptions, sink: &mut K, rt: &R) -> Status
    ensures makes { RunsMake options.now (K.written sink.old) (K.written sink.new) (code_of result) }
    ensures cause { RisesOnlyWhere (result ≡ NotWritten) (K.faults sink.old) (K.faults sink.new) }
{
    match made(alloc, options, rt) {
        Ok(made) => {
            let status = tell_made(alloc, options, &made, sink);
            drop(made);
            status
        }
        Err(AllocError) => end_with(Status::Memory, sink),
    }
}

// The words give 100,000 requests at most. A trace that is not wanted is not kept.
fn made<R: Wait>(alloc: Global, options: &MakeOptions, rt: &R) -> Result<Made, AllocError>
    ensures traced { options.now.trace ≡ true → IfOk result (λ made. IsMade options.now.start options.now.requests made) }
    ensures counted { options.now.trace ≡ false → IfOk result (λ made. IsCounted options.now.start options.now.requests made) }
{
    let Ok(requests) = u32::try_from(options.requests) else {
        return Err(AllocError);
    };
    if options.trace {
        make_run(alloc, rt, options.start, requests)
    } else {
        count_run(alloc, rt, options.start, requests)
    }
}

// Prints what is wanted of the run.
fn tell_made<K: Sink>(alloc: Global, options: &MakeOptions, made: &Made, sink: &mut K) -> Status
    ensures ends { EndsNumbered Done (text_of options.now made.now) (K.written sink.old) (K.written sink.new) (code_of result) }
    ensures cause { RisesOnlyWhere (result ≡ NotWritten) (K.faults sink.old) (K.faults sink.new) }
{
    if options.trace {
        return tell(Status::Done, made.trace.as_bytes(), sink);
    }
    match line_of(alloc, options.requests, made) {
        Ok(line) => tell(Status::Done, line.as_bytes(), sink),
        Err(AllocError) => end_with(Status::Memory, sink),
    }
}

fn line_of(alloc: Global, requests: u64, made: &Made) -> Result<Txt, AllocError>
    ensures { IfOk result (λ line. line ≡ counts_line requests made.now) }
{
    let mut line = Txt::new(alloc);
    put_counts(requests, made, &mut line)?;
    Ok(line)
}
