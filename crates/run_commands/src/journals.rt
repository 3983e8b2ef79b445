//! How a run ends where its journal was not opened or read.
ghost use Rattle.std.specs.Prelude.{◌≡◌, IfOk};
ghost use Rattle.rtb_base.specs.Faults.{RisesOnlyWhere};
ghost use Rattle.rtb_io.specs.Statuses.{code_of};
ghost use Rattle.rtb_io.specs.declared.status.Status.TheVariants.{NotWritten};
ghost use Rattle.run_commands.specs.Endings.{damage_line};
ghost use Rattle.run_commands.specs.Journals.{EndsAt};
ghost use Rattle.journal_file.specs.declared.faults.JournalFault.TheVariants.{Damaged};

use crate::status_lines::{end_with, tell};
use journal_file::JournalFault;
use rtb_io::Status;
use rtb_num::{Sink, Txt, write_decimal};
use std::alloc::{AllocError, Global};

/// Writes the line of the fault. It answers the status, or that the sink failed.
pub(crate) fn end_at<K: Sink>(alloc: Global, fault: JournalFault, sink: &mut K) -> Status
    ensures ends { EndsAt fault (K.written sink.old) (K.written sink.new) (code_of result) }
    ensures cause { RisesOnlyWhere (result ≡ NotWritten) (K.faults sink.old) (K.faults sink.new) }
{
    match fault {
        JournalFault::DiskFailed => end_with(Status::JournalFailed, sink),
        JournalFault::Memory => end_with(Status::Memory, sink),
        JournalFault::Damaged { at } => end_damaged(alloc, at, sink),
    }
}

// The same, of damage at the place.
fn end_damaged<K: Sink>(alloc: Global, at: u64, sink: &mut K) -> Status
    ensures ends { EndsAt (Damaged at) (K.written sink.old) (K.written sink.new) (code_of result) }
    ensures cause { RisesOnlyWhere (result ≡ NotWritten) (K.faults sink.old) (K.faults sink.new) }
{
    match damage_line(alloc, at) {
        Ok(line) => tell(Status::Damaged, line.as_bytes(), sink),
        Err(AllocError) => end_with(Status::Memory, sink),
    }
}

fn damage_line(alloc: Global, at: u64) -> Result<Txt, AllocError>
    ensures { IfOk result (λ line. line ≡ damage_line at) }
{
    let mut line = Txt::new(alloc);
    line.extend(b"rtbx: damaged at ")?;
    write_decimal(at, &mut line)?;
    line.extend(b"\n")?;
    Ok(line)
}
