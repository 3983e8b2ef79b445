//! Blocks of a journal that another program writes, passed one after the other.
ghost use Rattle.std.specs.Prelude.{◌≡◌, ℕ, List, Err, OnOk, false};
ghost use Rattle.compaction.specs.Passing.{AreRead, AreWritten, Steps, WritesStep};
ghost use Rattle.compaction.specs.declared.fault.CompactionFault.TheVariants.{NotRead, WriteFailed};
ghost use Rattle.journal_file.specs.Compaction.{Adds, faults_written, has_failed, store_written};
ghost use Rattle.journal_file.specs.Unfinished.{IsUnfinished};
ghost use Rattle.journal_file.specs.declared.faults.JournalFault.TheVariants as journal;
ghost use Rattle.recovery.specs.Openings.{IsLed};
ghost use Rattle.rtb_base.specs.Faults.{RisesOnlyWhere};
ghost use Rattle.rtb_disk.specs.Stores.{Always};

use crate::carrying::carry_out;
use crate::fault::CompactionFault;
use auction_core::Core;
use journal_file::{Compact, JournalFault, block_at};
use rtb_disk::Disk;
use rtb_num::Txt;
use std::alloc::Global;

/// Reads the blocks from the gate on to one that is shut, and carries out the effects of each.
pub(crate) fn read_blocks<D: Disk>(
    alloc: Global,
    from: &mut D,
    core: &mut Core,
    gate: &mut u64,
) -> Result<(), JournalFault>
    ensures read { AreRead D.Disk from.old from.new core.old.state core.new.state gate.old gate.new result }
    ensures led { IsLed core.old → OnOk result (IsLed core.new) }
    ensures same { D.store from.new ≡ D.store from.old }
    ensures cause { RisesOnlyWhere (result ≡ Err journal.DiskFailed) (D.faults from.old) (D.faults from.new) }
{
    let mut payload = Txt::new(alloc);
    for _ in 0..u64::MAX {
        let more = pass_block(alloc, from, core, gate, &mut payload)?;
        if !more {
            return Ok(());
        }
    }
    // No disk has so many blocks.
    Err(JournalFault::Memory)
}

/// The same, where each block is written behind those of the file, as it is.
pub(crate) fn write_blocks<D: Disk>(
    alloc: Global,
    from: &mut D,
    core: &mut Core,
    gate: &mut u64,
    file: &mut Compact<D>,
) -> Result<(), CompactionFault>
    requires whole { has_failed file.old ≡ false }
    ensures written { AreWritten D.Disk from.old from.new core.old.state core.new.state gate.old gate.new file.old file.new result }
    ensures any_moment { (written : List (List ℕ)) → Adds file.old written → Always IsUnfinished (store_written file.old) (store_written file.new) }
    ensures whole { OnOk result (has_failed file.new ≡ false) }
    ensures same { D.store from.new ≡ D.store from.old }
    ensures read_cause { RisesOnlyWhere (result ≡ Err (NotRead journal.DiskFailed)) (D.faults from.old) (D.faults from.new) }
    ensures write_cause { RisesOnlyWhere (result ≡ Err WriteFailed) (faults_written file.old) (faults_written file.new) }
{
    let mut payload = Txt::new(alloc);
    for _ in 0..u64::MAX {
        let more = write_block(alloc, from, core, gate, &mut payload, file)?;
        if !more {
            return Ok(());
        }
    }
    // No disk has so many blocks.
    Err(CompactionFault::Memory)
}

// Passes the block at the gate, and adds it to the file. False where the gate is shut.
fn write_block<D: Disk>(
    alloc: Global,
    from: &mut D,
    core: &mut Core,
    gate: &mut u64,
    payload: &mut Txt,
    file: &mut Compact<D>,
) -> Result<bool, CompactionFault>
    requires whole { has_failed file.old ≡ false }
    ensures steps { WritesStep D.Disk from.old from.new core.old.state core.new.state gate.old gate.new file.old file.new result }
    ensures any_moment { (written : List (List ℕ)) → Adds file.old written → Always IsUnfinished (store_written file.old) (store_written file.new) }
    ensures whole { OnOk result (has_failed file.new ≡ false) }
    ensures same { D.store from.new ≡ D.store from.old }
    ensures read_cause { RisesOnlyWhere (result ≡ Err (NotRead journal.DiskFailed)) (D.faults from.old) (D.faults from.new) }
    ensures write_cause { RisesOnlyWhere (result ≡ Err WriteFailed) (faults_written file.old) (faults_written file.new) }
{
    match pass_block(alloc, from, core, gate, payload) {
        Ok(true) => match file.add(payload.as_bytes()) {
            Ok(()) => Ok(true),
            Err(_) => Err(CompactionFault::WriteFailed),
        },
        Ok(false) => Ok(false),
        Err(fault) => Err(CompactionFault::NotRead(fault)),
    }
}

// Reads the block at the gate into the text, in place of what it has, carries out its effects, and goes on to the next
// gate. False where the gate is shut.
fn pass_block<D: Disk>(
    alloc: Global,
    from: &mut D,
    core: &mut Core,
    gate: &mut u64,
    payload: &mut Txt,
) -> Result<bool, JournalFault>
    ensures steps { Steps D.Disk from.old from.new payload.new core.old.state core.new.state gate.old gate.new result }
    ensures led { IsLed core.old → OnOk result (IsLed core.new) }
    ensures same { D.store from.new ≡ D.store from.old }
    ensures cause { RisesOnlyWhere (result ≡ Err journal.DiskFailed) (D.faults from.old) (D.faults from.new) }
{
    payload.truncate(0);
    match block_at(from, *gate, payload) {
        Ok(Some(next)) => match carry_out(alloc, *gate, payload.as_bytes(), core) {
            Ok(()) => {
                *gate = next;
                Ok(true)
            }
            Err(fault) => Err(fault),
        },
        Ok(None) => Ok(false),
        Err(fault) => Err(fault),
    }
}
