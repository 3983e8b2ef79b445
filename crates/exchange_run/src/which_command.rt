//! The command `which`: the best expressions for an assignment.
ghost use Rattle.std.specs.Prelude.{◌≡◌, ◌≢◌, IfErr, IfOk};
ghost use Rattle.rtb_base.specs.Faults.{RisesOnlyWhere};
ghost use Rattle.rtb_io.specs.Fronts.{TakesAtMost};
ghost use Rattle.rtb_io.specs.Statuses.{code_of};
ghost use Rattle.rtb_io.specs.declared.status.Status.TheVariants.{NotWritten};
ghost use Rattle.run_commands.specs.Endings.{line_of};
ghost use Rattle.exchange_run.specs.Plan.{IsLine, IsPlan, Plans, status_of};

use rtb_io::{ReadFault, Status, read_all};
use rtb_num::{Sink, Source};
use run_commands::{end_with, tell};
use std::alloc::{AllocError, Global};
use which_run::{LONGEST_INPUT, Reply, which_text};

/// Runs the command `which`: reads a request for the best expressions as one JSON text, and writes the best with the
/// mark of each expression, or the refusal, and a line feed.
///
/// It answers the status that the program ends with: 0 where the request was answered, 1 where it was refused, 9 for
/// want of memory, 10 where the source failed, each of the last two with a line of its own; and in place of each of
/// them 7, where the sink failed. From the source it takes at most 16,781,312 bytes.
pub fn run_which<S: Source, K: Sink>(alloc: Global, source: &mut S, sink: &mut K) -> u8
    ensures plans { Plans (S.left source.old) (S.left source.new) (S.faults source.old) (S.faults source.new) (K.written sink.old) (K.written sink.new) result }
    ensures cause { RisesOnlyWhere (result ≡ code_of NotWritten) (K.faults sink.old) (K.faults sink.new) }
    ensures taken { TakesAtMost 16781312 (S.left source.old) (S.left source.new) }
{
    match line_or_status(alloc, source) {
        Ok(line) => tell(status_of(line.refused), line.text.as_bytes(), sink).code(),
        Err(status) => end_with(status, sink).code(),
    }
}

// What the run comes to, before it is written: the reply as a line, or the status of what stands in its place.
fn line_or_status<S: Source>(alloc: Global, source: &mut S) -> Result<Reply, Status>
    ensures answered { IfOk result (λ l. IsPlan (S.left source.old) (S.left source.new) (S.faults source.old) (S.faults source.new) (status_of l.refused) l.text) }
    ensures stopped { IfErr result (λ s. IsPlan (S.left source.old) (S.left source.new) (S.faults source.old) (S.faults source.new) s (line_of s)) }
    ensures stops { IfErr result (λ s. s ≢ NotWritten) }
    ensures taken { TakesAtMost 16781312 (S.left source.old) (S.left source.new) }
{
    match read_all(alloc, source, LONGEST_INPUT) {
        Ok(bytes) => match line_to(alloc, bytes.as_bytes()) {
            Ok(line) => Ok(line),
            Err(_) => Err(Status::Memory),
        },
        Err(ReadFault::Failed) => Err(Status::NotRead),
        Err(ReadFault::Memory) => Err(Status::Memory),
    }
}

// The reply to the bytes, with a line feed.
fn line_to(alloc: Global, bytes: &[u8]) -> Result<Reply, AllocError>
    ensures { IfOk result (λ l. IsLine bytes.now l.refused l.text) }
{
    let mut line = which_text(alloc, bytes)?;
    line.text.push(b'\n')?;
    Ok(line)
}

fn status_of(refused: bool) -> Status
    ensures value { result ≡ status_of refused }
    ensures other { result ≢ NotWritten }
{
    if refused {
        Status::Refused
    } else {
        Status::Done
    }
}
