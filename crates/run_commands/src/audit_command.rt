//! The command `audit`: whether a trace accounts for itself from a journal on.
ghost use Rattle.std.specs.Prelude.{◌≡◌, ◌≢◌, [], Err, IfOk, List, None, Ok, ℕ};
ghost use Rattle.rtb_base.specs.Faults.{RisesOnlyWhere};
ghost use Rattle.rtb_io.specs.Statuses.{code_of};
ghost use Rattle.rtb_io.specs.declared.status.Status.TheVariants.{NotWritten};
ghost use Rattle.run_commands.specs.Audit.{EndsAudited, EndsNumbered, IsAudited, RunsAudit, RunsAuditWith, illegal_line, legal_line, torn_line};

use crate::journals::end_at;
use crate::named_keys::read_keys;
use crate::outcome::Outcome;
use crate::status_lines::{end_with, tell};
use address_keys::Keys;
use audit::{AuditFault, Verdict, audit_run};
use journal_file::JournalFault;
use link_door::{Door, Link, World};
use rtb_disk::Disk;
use rtb_io::Status;
use rtb_num::{Failed, Sink, Source, Txt, write_decimal};
use run_words::AuditOptions;
use std::alloc::{AllocError, Global};

/// Runs the command `audit`: reads the keys that are named, the journal, and then a trace from the source, writes no byte to
/// the disk, and prints whether the trace accounts for itself from the journal's exchange on.
///
/// It ends with status 0 where it does and 1 where an entry does not, or 4 where the world gave no disk, 5 where the disk
/// failed, 6 where the journal is damaged, 10 where the source failed, 14 where the trace is torn, 15 where it has more
/// entries than may be, 16 where a key that is named was not read or is none, or 9 for want of memory, each with a line of its own; and in place of each of them 7, where the
/// sink failed.
pub fn audit<W: World, S: Source, K: Sink>(
    alloc: Global,
    options: &AuditOptions,
    world: &mut W,
    source: &mut S,
    sink: &mut K,
) -> Outcome<W>
    ensures audits { RunsAudit ⟦<W as World>⟧ ⟦<W::Disk as Disk>⟧ options.now world.old world.new (S.left source.old) (S.left source.new) (S.faults source.old) (S.faults source.new) (K.written sink.old) (K.written sink.new) result.status result.disk }
    ensures doors { result.doors ≡ [] }
    ensures other { result.other ≡ None }
    ensures last { result.last ≡ None }
    ensures past { result.past ≡ None }
    ensures cause { RisesOnlyWhere (result.status ≡ code_of NotWritten) (K.faults sink.old) (K.faults sink.new) }
{
    match read_keys(world, &options.key, &options.former_key) {
        Ok(keys) => {
            let outcome = audit_journal(alloc, &options.journal, &keys, world, source, sink);
            drop(keys);
            outcome
        }
        Err(Failed) => {
            let status = end_with(Status::NoKey, sink);
            Outcome::without_world(alloc, status.code())
        }
    }
}

// The same, with the keys.
fn audit_journal<W: World, S: Source, K: Sink>(
    alloc: Global,
    path: &Txt,
    keys: &Keys,
    world: &mut W,
    source: &mut S,
    sink: &mut K,
) -> Outcome<W>
    ensures audits { RunsAuditWith ⟦<W as World>⟧ ⟦<W::Disk as Disk>⟧ path.now keys.now world.old world.new (S.left source.old) (S.left source.new) (S.faults source.old) (S.faults source.new) (K.written sink.old) (K.written sink.new) result.status result.disk }
    ensures doors { result.doors ≡ [] }
    ensures other { result.other ≡ None }
    ensures last { result.last ≡ None }
    ensures past { result.past ≡ None }
    ensures cause { RisesOnlyWhere (result.status ≡ code_of NotWritten) (K.faults sink.old) (K.faults sink.new) }
{
    match world.disk_to_read(path) {
        Ok(disk) => {
            let (disk, status) = audit_disk(alloc, keys, disk, source, sink);
            Outcome::with_disk(alloc, status, disk)
        }
        Err(Failed) => {
            let status = end_with(Status::NoDisk, sink);
            Outcome::without_world(alloc, status.code())
        }
    }
}

// The same, over the journal on the disk.
fn audit_disk<D: Disk, S: Source, K: Sink>(
    alloc: Global,
    keys: &Keys,
    disk: D,
    source: &mut S,
    sink: &mut K,
) -> (D, Status)
    ensures audited { IsAudited ⟦<D as Disk>⟧ keys.now disk result.0 (S.left source.old) (S.left source.new) (S.faults source.old) (S.faults source.new) (K.written sink.old) (K.written sink.new) (code_of result.1) }
    ensures cause { RisesOnlyWhere (result.1 ≡ NotWritten) (K.faults sink.old) (K.faults sink.new) }
{
    let (disk, said) = audit_run(alloc, disk, source, keys);
    let status = end_audit(alloc, said, sink);
    (disk, status)
}

// Writes what is said.
fn end_audit<K: Sink>(alloc: Global, said: Result<Verdict, AuditFault>, sink: &mut K) -> Status
    ensures ends { EndsAudited said (K.written sink.old) (K.written sink.new) (code_of result) }
    ensures cause { RisesOnlyWhere (result ≡ NotWritten) (K.faults sink.old) (K.faults sink.new) }
{
    match said {
        Ok(verdict) => end_judged(alloc, verdict, sink),
        Err(fault) => end_unjudged(alloc, fault, sink),
    }
}

fn end_judged<K: Sink>(alloc: Global, verdict: Verdict, sink: &mut K) -> Status
    ensures ends { EndsAudited (Ok verdict) (K.written sink.old) (K.written sink.new) (code_of result) }
    ensures cause { RisesOnlyWhere (result ≡ NotWritten) (K.faults sink.old) (K.faults sink.new) }
{
    match verdict {
        Verdict::Legal { entries, passed } => {
            let line = legal_line(alloc, entries, passed);
            end_numbered(Status::Done, line, sink)
        }
        Verdict::Illegal { at } => {
            let line = illegal_line(alloc, at);
            end_numbered(Status::Refused, line, sink)
        }
    }
}

fn end_unjudged<K: Sink>(alloc: Global, fault: AuditFault, sink: &mut K) -> Status
    ensures ends { EndsAudited (Err fault) (K.written sink.old) (K.written sink.new) (code_of result) }
    ensures cause { RisesOnlyWhere (result ≡ NotWritten) (K.faults sink.old) (K.faults sink.new) }
{
    match fault {
        AuditFault::DiskFailed => end_with(Status::JournalFailed, sink),
        AuditFault::Damaged { at } => end_at(alloc, JournalFault::Damaged { at }, sink),
        AuditFault::SourceFailed => end_with(Status::NotRead, sink),
        AuditFault::Torn { at } => {
            let line = torn_line(alloc, at);
            end_numbered(Status::TraceTorn, line, sink)
        }
        AuditFault::TooLong => end_with(Status::TraceTooLong, sink),
        AuditFault::Memory => end_with(Status::Memory, sink),
    }
}

// Writes the line, where there was memory for it.
fn end_numbered<K: Sink>(status: Status, line: Result<Txt, AllocError>, sink: &mut K) -> Status
    requires { status ≢ NotWritten }
    ensures ends { (text : List ℕ) → IfOk line (λ told. told ≡ text) → EndsNumbered status text (K.written sink.old) (K.written sink.new) (code_of result) }
    ensures cause { RisesOnlyWhere (result ≡ NotWritten) (K.faults sink.old) (K.faults sink.new) }
{
    match line {
        Ok(line) => tell(status, line.as_bytes(), sink),
        Err(AllocError) => end_with(Status::Memory, sink),
    }
}

fn legal_line(alloc: Global, entries: u64, passed: u64) -> Result<Txt, AllocError>
    ensures { IfOk result (λ line. line ≡ legal_line entries passed) }
{
    let mut line = Txt::new(alloc);
    line.extend(b"legal entries=")?;
    write_decimal(entries, &mut line)?;
    line.extend(b" passed=")?;
    write_decimal(passed, &mut line)?;
    line.extend(b"\n")?;
    Ok(line)
}

fn illegal_line(alloc: Global, at: u64) -> Result<Txt, AllocError>
    ensures { IfOk result (λ line. line ≡ illegal_line at) }
{
    let mut line = Txt::new(alloc);
    line.extend(b"illegal at ")?;
    write_decimal(at, &mut line)?;
    line.extend(b"\n")?;
    Ok(line)
}

fn torn_line(alloc: Global, at: u64) -> Result<Txt, AllocError>
    ensures { IfOk result (λ line. line ≡ torn_line at) }
{
    let mut line = Txt::new(alloc);
    line.extend(b"rtbx: trace torn at ")?;
    write_decimal(at, &mut line)?;
    line.extend(b"\n")?;
    Ok(line)
}
