//! The command `recover`: the counts of the exchange that a journal gives.
ghost use Rattle.std.specs.Prelude.{◌≡◌, [], MatchResult, None};
ghost use Rattle.recovery.specs.Openings.{IsUnwritten};
ghost use Rattle.rtb_base.specs.Faults.{RisesOnlyWhere};
ghost use Rattle.rtb_io.specs.Statuses.{code_of};
ghost use Rattle.rtb_io.specs.declared.status.Status.TheVariants.{Done, NotWritten};
ghost use Rattle.run_commands.specs.Endings.{Ends};
ghost use Rattle.run_commands.specs.Journals.{EndsAt};
ghost use Rattle.run_commands.specs.Recover.{Recovers, Tells};

use crate::journals::end_at;
use crate::outcome::Outcome;
use crate::status_lines::{end_with, tell};
use journal_file::JournalFault;
use link_door::World;
use rtb_disk::Disk;
use rtb_io::Status;
use rtb_num::{Failed, Sink, Txt};
use run_words::RecoverOptions;
use std::alloc::Global;

/// Runs the command `recover`: reads the journal, which is there and is read alone, writes no byte to it, and prints
/// the counts of the exchange that it gives.
///
/// It ends with status 0, or 4 where the world gave no disk, 5 where the disk failed, 6 where the journal is
/// damaged, or 9 for want of memory, each with a line of its own; and in place of each of them 7, where the
/// sink failed.
pub fn recover<W: World, K: Sink>(
    alloc: Global,
    options: &RecoverOptions,
    world: &mut W,
    sink: &mut K,
) -> Outcome<W>
    ensures recovers { Recovers ⟦<W::Disk as Disk>⟧ options.now.journal (W.asked world.old) (W.asked world.new) (W.disks_left world.old) (W.disks_left world.new) (W.faults world.old) (W.faults world.new) (K.written sink.old) (K.written sink.new) result.status result.disk }
    ensures doors { result.doors ≡ [] }
    ensures other { result.other ≡ None }
    ensures last { result.last ≡ None }
    ensures past { result.past ≡ None }
    ensures others { W.doors_left world.new ≡ W.doors_left world.old }
    ensures keys { W.keys_left world.new ≡ W.keys_left world.old }
    ensures cause { RisesOnlyWhere (result.status ≡ code_of NotWritten) (K.faults sink.old) (K.faults sink.new) }
{
    match world.disk_to_read(&options.journal) {
        Ok(disk) => {
            let (disk, status) = tell_journal(alloc, disk, sink);
            Outcome::with_disk(alloc, status, disk)
        }
        Err(Failed) => Outcome::without_world(alloc, end_with(Status::NoDisk, sink).code()),
    }
}

// Writes what the journal on the disk says.
fn tell_journal<D: Disk, K: Sink>(alloc: Global, disk: D, sink: &mut K) -> (D, Status)
    ensures tells { Tells (D.store disk) (D.faults disk) (D.faults result.0) (K.written sink.old) (K.written sink.new) (code_of result.1) }
    ensures unwritten { IsUnwritten (D.store disk) (D.store result.0) }
    ensures cause { RisesOnlyWhere (result.1 ≡ NotWritten) (K.faults sink.old) (K.faults sink.new) }
{
    let mut text = Txt::new(alloc);
    let (disk, told) = recovery::recover(alloc, disk, &mut text);
    let status = end_recovery(alloc, told, &text, sink);
    (disk, status)
}

// Writes the text, or the line of the fault.
fn end_recovery<K: Sink>(
    alloc: Global,
    told: Result<(), JournalFault>,
    text: &Txt,
    sink: &mut K,
) -> Status
    ensures ends { MatchResult told (λ _. Ends Done text.now (K.written sink.old) (K.written sink.new) (code_of result)) (λ fault. EndsAt fault (K.written sink.old) (K.written sink.new) (code_of result)) }
    ensures cause { RisesOnlyWhere (result ≡ NotWritten) (K.faults sink.old) (K.faults sink.new) }
{
    match told {
        Ok(()) => tell(Status::Done, text.as_bytes(), sink),
        Err(fault) => end_at(alloc, fault, sink),
    }
}
