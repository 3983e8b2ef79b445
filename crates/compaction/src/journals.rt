//! A journal read whole, and written anew on another disk without its oldest sales.
ghost use Rattle.std.specs.Prelude.{◌≡◌, ◌≢◌, ◌++◌, Err, IfOk, OnOk, true};
ghost use Rattle.compaction.specs.Lines.{compact_line};
ghost use Rattle.compaction.specs.Writing.{Compacts, Writes};
ghost use Rattle.compaction.specs.declared.fault.CompactionFault.TheVariants.{NotRead, WriteFailed};
ghost use Rattle.journal_file.specs.Readings.{HasNotFailed, faults_read, reads_of, store_read};
ghost use Rattle.journal_file.specs.declared.faults.JournalFault.{JournalFault};
ghost use Rattle.journal_file.specs.declared.faults.JournalFault.TheVariants as journal;
ghost use Rattle.plain_exchange.specs.State.{forget};
ghost use Rattle.recovery.specs.Openings.{IsAtStart, IsLed, IsUnwritten, Opens};
ghost use Rattle.rtb_base.specs.Faults.{RisesOnlyWhere};

use crate::fault::CompactionFault;
use crate::writing::write_exchange;
use auction_core::Core;
use journal_file::{JournalFault, Reading};
use recovery::replay;
use rtb_disk::Disk;
use rtb_num::Txt;
use std::alloc::Global;

/// What a compaction left, and how it ended.
#[derive(Drop)]
pub struct Compacted<D: Disk> {
    /// The disk of the journal that was read.
    pub from: D,
    /// The disk of the file that was written.
    pub into: D,
    pub done: Result<(), CompactionFault>,
}

/// Reads the journal on the disk `from` whole, forgets its oldest sales but for so many, and writes the exchange that
/// is left to the disk `into`, as a journal. Appends the line that tells it. The disks are of different files.
///
/// Nothing is written to `from`; it is synced. Where `into` has a file that is neither short nor one whose writing was
/// not finished, it is left as it is, and refused. Where a call fails, what was written is no journal, and a later call
/// begins it anew; only where the last of its calls fails, it may be the whole journal.
pub fn compact<D: Disk>(alloc: Global, from: D, into: D, keep: u64, line: &mut Txt) -> Compacted<D>
    ensures compacts { Compacts keep (D.store from) (D.store into) (D.store result.into) line.old line.new result.done }
    ensures unwritten { IsUnwritten (D.store from) (D.store result.from) }
    ensures read_cause { RisesOnlyWhere (result.done ≡ Err (NotRead journal.DiskFailed)) (D.faults from) (D.faults result.from) }
    ensures write_cause { RisesOnlyWhere (result.done ≡ Err WriteFailed) (D.faults into) (D.faults result.into) }
{
    let (from, read) = read_exchange(alloc, from);
    match read {
        Ok(core) => {
            let (into, written) = write_kept(alloc, core, keep, into, line);
            Compacted {
                from,
                into,
                done: written,
            }
        }
        Err(fault) => Compacted {
            from,
            into,
            done: Err(CompactionFault::NotRead(fault)),
        },
    }
}

// Reads the journal on the disk whole, and writes nothing to it.
fn read_exchange<D: Disk>(alloc: Global, disk: D) -> (D, Result<Core, JournalFault>)
    ensures opened { (D.store disk).told ≡ true → Opens (D.store disk).reads result.1 }
    ensures led { IfOk result.1 IsLed }
    ensures unwritten { IsUnwritten (D.store disk) (D.store result.0) }
    ensures cause { RisesOnlyWhere (result.1 ≡ Err journal.DiskFailed) (D.faults disk) (D.faults result.0) }
{
    match Reading::start(disk) {
        Ok(reading) => read_from(alloc, reading),
        Err((disk, fault)) => (disk, Err(fault)),
    }
}

// The same, by a reading from which nothing was read yet.
fn read_from<D: Disk>(alloc: Global, reading: Reading<D>) -> (D, Result<Core, JournalFault>)
    ensures opened { IsAtStart reading → Opens (reads_of reading) result.1 }
    ensures led { IfOk result.1 IsLed }
    ensures same { D.store result.0 ≡ store_read reading }
    ensures cause { HasNotFailed reading → RisesOnlyWhere (result.1 ≡ Err journal.DiskFailed) (faults_read reading) (D.faults result.0) }
{
    let mut reading = reading;
    // No sale is made, so that it is all one how long one would be held.
    let read = replay(alloc, &mut reading, 0, 0);
    (reading.into_disk(), read)
}

// Forgets the oldest sales but for so many, and writes the exchange that is left.
fn write_kept<D: Disk>(
    alloc: Global,
    core: Core,
    keep: u64,
    disk: D,
    line: &mut Txt,
) -> (D, Result<(), CompactionFault>)
    requires led { IsLed core }
    ensures writes { (D.store disk).told ≡ true → Writes (forget keep core.state) (D.store disk) (D.store result.0) result.1 }
    ensures line { OnOk result.1 (line.new ≡ line.old ++ compact_line (forget keep core.state)) }
    ensures read { (fault : JournalFault) → result.1 ≢ Err (NotRead fault) }
    ensures cause { RisesOnlyWhere (result.1 ≡ Err WriteFailed) (D.faults disk) (D.faults result.0) }
{
    let mut core = core;
    core.forget(keep);
    let written = write_exchange(alloc, &core, disk, line);
    drop(core);
    written
}
