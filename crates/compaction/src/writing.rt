//! A file that an exchange is written to.
ghost use Rattle.std.specs.Prelude.{◌≡◌, ◌≢◌, ◌++◌, ℕ, List, [], Err, IfErr, IfOk, MatchResult, OnOk, false, true};
ghost use Rattle.compaction.specs.Gathering.{Begins, Closes, Fills, HaveUsers, IsWritable};
ghost use Rattle.compaction.specs.Lines.{compact_line};
ghost use Rattle.compaction.specs.Writing.{Writes};
ghost use Rattle.compaction.specs.declared.fault.CompactionFault.TheVariants.{NotRead, WriteFailed};
ghost use Rattle.journal_file.specs.Compaction.{Adds, faults_written, has_failed, store_written};
ghost use Rattle.journal_file.specs.declared.faults.JournalFault.{JournalFault};
ghost use Rattle.plain_exchange.specs.Effects.{kept_effects};
ghost use Rattle.rtb_base.specs.Faults.{RisesOnlyWhere};

use crate::blocks::put_effects;
use crate::fault::{CompactionFault, WriteFault};
use crate::line::put_line;
use auction_core::Core;
use journal_file::{Compact, CompactFault, DiskFailed};
use rtb_disk::Disk;
use rtb_num::Txt;
use std::alloc::Global;

/// Writes the exchange to the disk as a journal, and appends the line that tells it.
pub(crate) fn write_exchange<D: Disk>(
    alloc: Global,
    core: &Core,
    disk: D,
    line: &mut Txt,
) -> (D, Result<(), CompactionFault>)
    requires writable { IsWritable core.now.state }
    ensures writes { (D.store disk).told ≡ true → Writes core.now.state (D.store disk) (D.store result.0) result.1 }
    ensures line { OnOk result.1 (line.new ≡ line.old ++ compact_line core.now.state) }
    ensures read { (fault : JournalFault) → result.1 ≢ Err (NotRead fault) }
    ensures cause { RisesOnlyWhere (result.1 ≡ Err WriteFailed) (D.faults disk) (D.faults result.0) }
{
    match begin_file(alloc, core, disk) {
        Ok(file) => finish_file(core, file, line),
        Err((disk, fault)) => (disk, Err(fault)),
    }
}

/// Begins a file on the disk with the effects that make the exchange again.
pub(crate) fn begin_file<D: Disk>(
    alloc: Global,
    core: &Core,
    disk: D,
) -> Result<Compact<D>, (D, CompactionFault)>
    requires users { HaveUsers core.now.state.sales }
    ensures begins { (D.store disk).told ≡ true → Begins (kept_effects core.now.state) (D.store disk) result }
    ensures whole { IfOk result (λ file. has_failed file ≡ false) }
    ensures read { (fault : JournalFault) → IfErr result (λ e. e.1 ≢ NotRead fault) }
    ensures cause { MatchResult result (λ file. faults_written file ≡ D.faults disk) (λ e. RisesOnlyWhere (e.1 ≡ WriteFailed) (D.faults disk) (D.faults e.0)) }
{
    match Compact::start(disk) {
        Ok(file) => fill(alloc, core, file),
        Err((disk, CompactFault::DiskFailed)) => Err((disk, CompactionFault::WriteFailed)),
        Err((disk, CompactFault::NotEmpty)) => Err((disk, CompactionFault::NotEmpty)),
    }
}

// Adds the effects to a file that has no block yet.
fn fill<D: Disk>(
    alloc: Global,
    core: &Core,
    file: Compact<D>,
) -> Result<Compact<D>, (D, CompactionFault)>
    requires whole { has_failed file ≡ false }
    requires users { HaveUsers core.now.state.sales }
    ensures fills { Adds file [] → Fills (kept_effects core.now.state) (store_written file) result }
    ensures whole { IfOk result (λ f. has_failed f ≡ false) }
    ensures read { (fault : JournalFault) → IfErr result (λ e. e.1 ≢ NotRead fault) }
    ensures cause { MatchResult result (λ f. faults_written f ≡ faults_written file) (λ e. RisesOnlyWhere (e.1 ≡ WriteFailed) (faults_written file) (D.faults e.0)) }
{
    let mut file = file;
    match put_effects(alloc, core, &mut file) {
        Ok(()) => Ok(file),
        Err(WriteFault::DiskFailed) => Err((file.into_disk(), CompactionFault::WriteFailed)),
        Err(WriteFault::Memory) => Err((file.into_disk(), CompactionFault::Memory)),
    }
}

/// Makes the file a journal, and appends the line that tells the exchange.
pub(crate) fn finish_file<D: Disk>(
    core: &Core,
    file: Compact<D>,
    line: &mut Txt,
) -> (D, Result<(), CompactionFault>)
    requires whole { has_failed file ≡ false }
    ensures closes { (payloads : List (List ℕ)) → Adds file payloads → Closes payloads (store_written file) (D.store result.0) result.1 }
    ensures line { OnOk result.1 (line.new ≡ line.old ++ compact_line core.now.state) }
    ensures read { (fault : JournalFault) → result.1 ≢ Err (NotRead fault) }
    ensures cause { RisesOnlyWhere (result.1 ≡ Err WriteFailed) (faults_written file) (D.faults result.0) }
{
    match put_line(core, line) {
        Ok(()) => close(file),
        Err(_) => (file.into_disk(), Err(CompactionFault::Memory)),
    }
}

// Makes the file a journal.
fn close<D: Disk>(file: Compact<D>) -> (D, Result<(), CompactionFault>)
    requires whole { has_failed file ≡ false }
    ensures closes { (payloads : List (List ℕ)) → Adds file payloads → Closes payloads (store_written file) (D.store result.0) result.1 }
    ensures read { (fault : JournalFault) → result.1 ≢ Err (NotRead fault) }
    ensures cause { RisesOnlyWhere (result.1 ≡ Err WriteFailed) (faults_written file) (D.faults result.0) }
{
    match file.finish() {
        Ok(disk) => (disk, Ok(())),
        Err((disk, DiskFailed)) => (disk, Err(CompactionFault::WriteFailed)),
    }
}
