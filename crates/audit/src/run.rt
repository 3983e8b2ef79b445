//! The audit of a trace over a journal.
ghost use Rattle.std.specs.Prelude.{◌≡◌, ℕ, List, [], Option, Err, IfErr, IfOk, OnOk, true};
ghost use Rattle.audit.specs.Inputs.{IsNext};
ghost use Rattle.audit.specs.Standing.{Said};
ghost use Rattle.audit.specs.Verdicts.{Audits, IsOfJournal, of_journal, of_source};
ghost use Rattle.journal_file.specs.Readings.{HasNotFailed, faults_read, reads_of, store_read};
ghost use Rattle.journal_file.specs.declared.faults.JournalFault.TheVariants.{DiskFailed as disk_failed};
ghost use Rattle.recovery.specs.Openings.{IsAtStart, IsUnwritten, Opens};
ghost use Rattle.rtb_base.specs.Faults.{RisesOnlyWhere};
ghost use Rattle.trace.specs.Traces.{IsHeader, header_bytes};

use crate::entries::Audit;
use crate::input::{Input, Next};
use crate::verdict::{AuditFault, Verdict};
use address_keys::Keys;
use auction_core::Core;
use journal_file::{JournalFault, Reading};
use recovery::replay;
use rtb_disk::Disk;
use rtb_io::ReadFault;
use rtb_num::Source;
use std::alloc::Global;
use trace::{Header, Headers};

// How many sales the exchange of a trace had in its list at most.
const MOST_SALES: u64 = 4_194_304;

/// Reads the journal on the disk and then the trace, and says whether the trace accounts for itself from the journal's
/// state on, where addresses are signed by `keys`.
///
/// Where the journal gives no state nothing is read of the trace. Nothing is written to the disk; it is synced. No more
/// of the trace is held than one entry, and pieces of about 60 KiB.
pub fn audit_run<D: Disk, I: Source>(
    alloc: Global,
    disk: D,
    source: &mut I,
    keys: &Keys,
) -> (D, Result<Verdict, AuditFault>)
    ensures audits { Audits keys.now (D.store disk) (I.left source.old) (I.left source.new) result.1 }
    ensures first { IsOfJournal result.1 → source.new ≡ source.old }
    ensures unwritten { IsUnwritten (D.store disk) (D.store result.0) }
    ensures disk_cause { RisesOnlyWhere (result.1 ≡ Err AuditFault.DiskFailed) (D.faults disk) (D.faults result.0) }
    ensures source_cause { RisesOnlyWhere (result.1 ≡ Err AuditFault.SourceFailed) (I.faults source.old) (I.faults source.new) }
{
    let (disk, read) = read_journal(alloc, disk);
    let said = judge(alloc, read, source, keys);
    (disk, said)
}

// The exchange that the journal on the disk gives. For how long it holds a sale is told by the trace.
fn read_journal<D: Disk>(alloc: Global, disk: D) -> (D, Result<Core, JournalFault>)
    ensures opened { (D.store disk).told ≡ true → Opens (D.store disk).reads result.1 }
    ensures unwritten { IsUnwritten (D.store disk) (D.store result.0) }
    ensures cause { RisesOnlyWhere (result.1 ≡ Err disk_failed) (D.faults disk) (D.faults result.0) }
{
    match Reading::start(disk) {
        Ok(reading) => read_from(alloc, reading),
        Err((disk, fault)) => (disk, Err(fault)),
    }
}

// The same, by a reading from which nothing was read yet.
fn read_from<D: Disk>(alloc: Global, reading: Reading<D>) -> (D, Result<Core, JournalFault>)
    ensures opened { IsAtStart reading → Opens (reads_of reading) result.1 }
    ensures same { D.store result.0 ≡ store_read reading }
    ensures cause { HasNotFailed reading → RisesOnlyWhere (result.1 ≡ Err disk_failed) (faults_read reading) (D.faults result.0) }
{
    let mut reading = reading;
    let read = replay(alloc, &mut reading, 1, MOST_SALES);
    (reading.into_disk(), read)
}

// What is said of the trace, where the journal gives an exchange.
fn judge<I: Source>(
    alloc: Global,
    read: Result<Core, JournalFault>,
    source: &mut I,
    keys: &Keys,
) -> Result<Verdict, AuditFault>
    ensures says { IfOk read (λ core. Said keys.now core.state (I.left source.old) (I.left source.new) result) }
    ensures unread { IfErr read (λ fault. result ≡ Err (of_journal fault)) }
    ensures first { IfErr read (λ _. source.new ≡ source.old) }
    ensures cause { RisesOnlyWhere (result ≡ Err AuditFault.SourceFailed) (I.faults source.old) (I.faults source.new) }
{
    match read {
        Ok(core) => judge_trace(alloc, core, source, keys),
        Err(fault) => Err(fault.into()),
    }
}

// The same, over an exchange.
fn judge_trace<I: Source>(
    alloc: Global,
    core: Core,
    source: &mut I,
    keys: &Keys,
) -> Result<Verdict, AuditFault>
    ensures says { Said keys.now core.state (I.left source.old) (I.left source.new) result }
    ensures cause { RisesOnlyWhere (result ≡ Err AuditFault.SourceFailed) (I.faults source.old) (I.faults source.new) }
{
    let mut input = Input::new(alloc);
    let header = input.next::<Headers, I>(alloc, source);
    judge_behind(alloc, core, header, input, source, keys)
}

// The same, of a trace of which this came first.
fn judge_behind<I: Source>(
    alloc: Global,
    core: Core,
    header: Result<Next<Header>, ReadFault>,
    input: Input,
    source: &mut I,
    keys: &Keys,
) -> Result<Verdict, AuditFault>
    ensures says { (left : Option (List ℕ)) → IfOk header (IsNext IsHeader header_bytes left (I.left source.old) [] input) → Said keys.now core.state left (I.left source.new) result }
    ensures cause { OnOk header (RisesOnlyWhere (result ≡ Err AuditFault.SourceFailed) (I.faults source.old) (I.faults source.new)) }
    ensures no_header { IfErr header (λ fault. (result ≡ Err (of_source fault)) × (source.new ≡ source.old)) }
{
    match header {
        Ok(Next::Item(header, size)) => judge_entries(
            alloc, core, header, size, input, source, keys,
        ),
        Ok(Next::End) => end_apart(core, input, Err(AuditFault::Torn { at: 0 })),
        Ok(Next::Torn) => end_apart(core, input, Err(AuditFault::Torn { at: 0 })),
        Err(fault) => end_apart(core, input, Err(fault.into())),
    }
}

// The same, of a trace that has this header, which has so many bytes.
fn judge_entries<I: Source>(
    alloc: Global,
    core: Core,
    header: Header,
    size: usize,
    input: Input,
    source: &mut I,
    keys: &Keys,
) -> Result<Verdict, AuditFault>
    ensures says { (left : Option (List ℕ)) → IsNext IsHeader header_bytes left (I.left source.old) [] input (Next.Item header size) → Said keys.now core.state left (I.left source.new) result }
    ensures cause { RisesOnlyWhere (result ≡ Err AuditFault.SourceFailed) (I.faults source.old) (I.faults source.new) }
{
    let mut core = core;
    core.hold_for(header.ttl, MOST_SALES);
    let mut audit = Audit::new(core, header, size as u64, input);
    let said = audit.run(alloc, keys, source);
    drop(audit);
    said
}

// Lets go of what is not needed.
fn end_apart<T: Drop>(core: Core, input: Input, said: T) -> T
    ensures { result ≡ said }
{
    drop(core);
    drop(input);
    said
}
