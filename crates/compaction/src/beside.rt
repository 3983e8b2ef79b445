//! A journal that is written anew beside who writes it.
ghost use Rattle.std.specs.Prelude.{◌≡◌, Err, IfOk, MatchResult, OnOk, false};
ghost use Rattle.compaction.specs.Beside.{BeginsBeside, faults_beside, is_stuck};
ghost use Rattle.compaction.specs.Passing.{BeginsKept, IsJournalRead};
ghost use Rattle.compaction.specs.declared.fault.CompactionFault.TheVariants.{NotRead, WriteFailed};
ghost use Rattle.journal_file.specs.declared.faults.JournalFault.TheVariants as journal;
ghost use Rattle.plain_exchange.specs.State.{empty, forget};
ghost use Rattle.recovery.specs.Openings.{IsLed};
ghost use Rattle.rtb_base.specs.Faults.{RisesOnlyWhere};

use crate::fault::CompactionFault;
use crate::header::{Header, read_header};
use crate::passing::{read_blocks, write_blocks};
use crate::writing::{begin_file, finish_file};
use auction_core::Core;
use journal_file::{Compact, JournalFault};
use rtb_disk::Disk;
use rtb_num::Txt;
use std::alloc::Global;

// The place of the first gate behind the name.
const FIRST: u64 = 8;

/// A journal that is being written anew beside who writes it: the other file, which is none until it is finished, and how
/// far the journal was passed.
#[derive(Drop)]
pub struct Beside<D: Disk> {
    pub(crate) file: Compact<D>,
    // The exchange that the blocks of the file give.
    pub(crate) core: Core,
    // The place of the gate behind the blocks that were passed.
    pub(crate) gate: u64,
}

/// Reads the journal on the disk `from` as it stands, and begins the file on `into`, which has what the journal says
/// without its oldest sales but for so many. Nothing is written to `from`, which another program may append to meanwhile.
///
/// Where `into` has a file that is neither short nor one whose writing was not finished, it is left as it is, and refused.
pub fn begin_beside<D: Disk>(
    alloc: Global,
    from: &mut D,
    into: D,
    keep: u64,
) -> Result<Beside<D>, (D, CompactionFault)>
    ensures begins { BeginsBeside keep from.old from.new into result }
    ensures whole { IfOk result (λ b. is_stuck b ≡ false) }
    ensures unwritten { D.store from.new ≡ D.store from.old }
    ensures read_cause { MatchResult result (λ b. D.faults from.new ≡ D.faults from.old) (λ e. RisesOnlyWhere (e.1 ≡ NotRead journal.DiskFailed) (D.faults from.old) (D.faults from.new)) }
    ensures write_cause { MatchResult result (λ b. faults_beside b ≡ D.faults into) (λ e. RisesOnlyWhere (e.1 ≡ WriteFailed) (D.faults into) (D.faults e.0)) }
{
    let mut core = Core::new(alloc, 0, 0);
    let mut gate = FIRST;
    match read_journal(alloc, from, &mut core, &mut gate) {
        Ok(()) => begin_kept(alloc, core, gate, into, keep),
        Err(fault) => {
            drop(core);
            Err((into, CompactionFault::NotRead(fault)))
        }
    }
}

// Reads the journal to its end. A creation that was not finished has no blocks.
fn read_journal<D: Disk>(
    alloc: Global,
    from: &mut D,
    core: &mut Core,
    gate: &mut u64,
) -> Result<(), JournalFault>
    requires first { gate.old ≡ 8 }
    requires empty { core.old.state ≡ empty }
    ensures read { IsJournalRead D.Disk from.old from.new core.new.state gate.new result }
    ensures led { IsLed core.old → OnOk result (IsLed core.new) }
    ensures same { D.store from.new ≡ D.store from.old }
    ensures cause { RisesOnlyWhere (result ≡ Err journal.DiskFailed) (D.faults from.old) (D.faults from.new) }
{
    match read_header(from)? {
        Header::Journal => read_blocks(alloc, from, core, gate),
        Header::Creation => Ok(()),
        Header::Foreign => Err(JournalFault::Damaged { at: 0 }),
    }
}

// Forgets the oldest sales but for so many, and begins the file with what is left.
fn begin_kept<D: Disk>(
    alloc: Global,
    core: Core,
    gate: u64,
    into: D,
    keep: u64,
) -> Result<Beside<D>, (D, CompactionFault)>
    requires led { IsLed core }
    ensures begins { BeginsKept (forget keep core.state) gate into result }
    ensures whole { IfOk result (λ b. is_stuck b ≡ false) }
    ensures cause { MatchResult result (λ b. faults_beside b ≡ D.faults into) (λ e. RisesOnlyWhere (e.1 ≡ WriteFailed) (D.faults into) (D.faults e.0)) }
{
    let mut core = core;
    core.forget(keep);
    match begin_file(alloc, &core, into) {
        Ok(file) => Ok(Beside { file, core, gate }),
        Err(refused) => {
            drop(core);
            Err(refused)
        }
    }
}

impl<D: Disk> Beside<D> {
    ghost use Rattle.std.specs.Prelude.{◌≡◌, ◌≢◌, ◌++◌, ℕ, List, Err, OnOk, false};
    ghost use Rattle.compaction.specs.Beside.{EndsBeside, Follows, IsUnderWay, Stands, disk_beside, faults_beside, is_stuck, store_beside};
    ghost use Rattle.compaction.specs.Gathering.{Closes};
    ghost use Rattle.compaction.specs.Lines.{compact_line};
    ghost use Rattle.compaction.specs.Passing.{Passes};
    ghost use Rattle.compaction.specs.declared.fault.CompactionFault.TheVariants.{NotRead, WriteFailed};
    ghost use Rattle.journal_file.specs.Compaction.{Adds};
    ghost use Rattle.journal_file.specs.declared.faults.JournalFault.{JournalFault};
    ghost use Rattle.journal_file.specs.declared.faults.JournalFault.TheVariants as journal;
    ghost use Rattle.rtb_base.specs.Faults.{RisesOnlyWhere};
    ghost use Rattle.rtb_disk.specs.Stores.{Store};

    /// Writes behind it each block that the journal has gained. After a fault the disk alone is of use.
    pub fn follow(&mut self, alloc: Global, from: &mut D) -> Result<(), CompactionFault>
        requires whole { is_stuck self.old ≡ false }
        ensures follows { (keep : ℕ) (passed written : List (List ℕ)) (first : D) (into : Store) → IsUnderWay keep passed written first into from.old self.old → Follows keep passed written first into from.old from.new self.new result }
        ensures whole { OnOk result (is_stuck self.new ≡ false) }
        ensures unwritten { D.store from.new ≡ D.store from.old }
        ensures read_cause { RisesOnlyWhere (result ≡ Err (NotRead journal.DiskFailed)) (D.faults from.old) (D.faults from.new) }
        ensures write_cause { RisesOnlyWhere (result ≡ Err WriteFailed) (faults_beside self.old) (faults_beside self.new) }
    {
        self.pass_all(alloc, from)
    }

    // The same, of any journal that has the blocks that were passed.
    fn pass_all(&mut self, alloc: Global, from: &mut D) -> Result<(), CompactionFault>
        requires whole { is_stuck self.old ≡ false }
        ensures passes { (keep : ℕ) (passed written : List (List ℕ)) (into : Store) → Stands keep passed written into self.old → Passes keep passed written into from.old from.new self.new result }
        ensures whole { OnOk result (is_stuck self.new ≡ false) }
        ensures same { D.store from.new ≡ D.store from.old }
        ensures read_cause { RisesOnlyWhere (result ≡ Err (NotRead journal.DiskFailed)) (D.faults from.old) (D.faults from.new) }
        ensures write_cause { RisesOnlyWhere (result ≡ Err WriteFailed) (faults_beside self.old) (faults_beside self.new) }
    {
        match read_header(from) {
            Ok(Header::Journal) => write_blocks(
                alloc,
                from,
                &mut self.core,
                &mut self.gate,
                &mut self.file,
            ),
            Ok(Header::Creation) => Ok(()),
            Ok(Header::Foreign) => Err(CompactionFault::NotRead(JournalFault::Damaged { at: 0 })),
            Err(_) => Err(CompactionFault::NotRead(JournalFault::DiskFailed)),
        }
    }

    /// Follows to the end of the journal, which nobody else writes by now, and finishes the file. Appends the line that
    /// tells what it has.
    pub fn finish(
        self,
        alloc: Global,
        last: &mut D,
        line: &mut Txt,
    ) -> (D, Result<(), CompactionFault>)
        requires whole { is_stuck self ≡ false }
        ensures ends { (keep : ℕ) (passed written : List (List ℕ)) (into : Store) → Stands keep passed written into self → EndsBeside D.Disk keep passed written last.old last.new into (D.store result.0) line.old line.new result.1 }
        ensures unwritten { D.store last.new ≡ D.store last.old }
        ensures read_cause { RisesOnlyWhere (result.1 ≡ Err (NotRead journal.DiskFailed)) (D.faults last.old) (D.faults last.new) }
        ensures write_cause { RisesOnlyWhere (result.1 ≡ Err WriteFailed) (faults_beside self) (D.faults result.0) }
    {
        let mut beside = self;
        match beside.pass_all(alloc, last) {
            Ok(()) => beside.close(line),
            Err(fault) => (beside.into_disk(), Err(fault)),
        }
    }

    // Finishes the file.
    fn close(self, line: &mut Txt) -> (D, Result<(), CompactionFault>)
        requires whole { is_stuck self ≡ false }
        ensures closes { (written : List (List ℕ)) → Adds self.file written → Closes written (store_beside self) (D.store result.0) result.1 }
        ensures line { OnOk result.1 (line.new ≡ line.old ++ compact_line self.core.state) }
        ensures cause { RisesOnlyWhere (result.1 ≡ Err WriteFailed) (faults_beside self) (D.faults result.0) }
        ensures read { (fault : JournalFault) → result.1 ≢ Err (NotRead fault) }
    {
        let core = self.core;
        let closed = finish_file(&core, self.file, line);
        drop(core);
        closed
    }

    /// The disk of the file as it stands.
    pub fn into_disk(self) -> D
        ensures { result ≡ disk_beside self }
    {
        self.file.into_disk()
    }
}
