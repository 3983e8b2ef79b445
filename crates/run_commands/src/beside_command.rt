//! The command `compact` beside who writes the journal.
ghost use Rattle.std.specs.Prelude.{◌≡◌, [], Err, List, None, OnOk, Option, false, ℕ};
ghost use Rattle.std.specs.Io.KnownBytes.{Appends};
ghost use Rattle.compaction.specs.Beside.{is_stuck};
ghost use Rattle.compaction.specs.declared.fault.CompactionFault.{CompactionFault as AFault};
ghost use Rattle.link_door.specs.declared.asked.Asked.TheVariants as asked_for;
ghost use Rattle.rtb_base.specs.Faults.{RisesOnlyWhere};
ghost use Rattle.rtb_io.specs.Statuses.{code_of};
ghost use Rattle.rtb_io.specs.declared.status.Status.TheVariants.{NotWritten};
ghost use Rattle.run_commands.specs.Beside.{EndsBehind, RunsBeside, beside_line};
ghost use Rattle.run_commands.specs.Compact.{EndsCompacted};
ghost use Rattle.run_commands.specs.Given.{Gives, GivesDiskToRead};
ghost use Rattle.run_commands.specs.Turns.{Followed, IsFinished, IsStarted, Turned};

use crate::compact_command::end_compaction;
use crate::outcome::Outcome;
use crate::status_lines::end_with;
use compaction::{Beside, CompactionFault, begin_beside};
use link_door::World;
use rtb_disk::Disk;
use rtb_io::{Status, write_all};
use rtb_num::{Failed, Sink, Txt};
use run_words::CompactOptions;
use std::alloc::Global;
use std::sync::Wait;

// How many milliseconds the journal is waited for between two looks for more blocks.
const TURN: u64 = 50;

/// Runs `compact` beside who writes the journal: reads it as it stands, writes what is kept to the other file, says that it
/// follows, writes behind it each block that comes until nobody else writes the journal, and then finishes the file.
pub(crate) fn compact_beside<W: World, K: Sink, R: Wait>(
    alloc: Global,
    options: &CompactOptions,
    world: &mut W,
    sink: &mut K,
    rt: &R,
) -> Outcome<W>
    ensures compacts { RunsBeside ⟦<W as World>⟧ ⟦<W::Disk as Disk>⟧ options.now world.old world.new (K.written sink.old) (K.written sink.new) result.status result.disk result.other result.last }
    ensures doors { result.doors ≡ [] }
    ensures past { result.past ≡ None }
    ensures cause { RisesOnlyWhere (result.status ≡ code_of NotWritten) (K.faults sink.old) (K.faults sink.new) }
{
    match world.disk_to_read(&options.journal) {
        Ok(from) => compact_from(alloc, options, world, sink, rt, from),
        Err(Failed) => Outcome::without_world(alloc, end_with(Status::NoDisk, sink).code()),
    }
}

// The same, with the disk by which the journal is read.
fn compact_from<W: World, K: Sink, R: Wait>(
    alloc: Global,
    options: &CompactOptions,
    world: &mut W,
    sink: &mut K,
    rt: &R,
    from: W::Disk,
) -> Outcome<W>
    ensures compacts { (before : W) → GivesDiskToRead ⟦<W as World>⟧ options.now.journal before world.old from
        → RunsBeside ⟦<W as World>⟧ ⟦<W::Disk as Disk>⟧ options.now before world.new (K.written sink.old) (K.written sink.new) result.status result.disk result.other result.last }
    ensures doors { result.doors ≡ [] }
    ensures past { result.past ≡ None }
    ensures cause { RisesOnlyWhere (result.status ≡ code_of NotWritten) (K.faults sink.old) (K.faults sink.new) }
{
    match world.disk(&options.into) {
        Ok(into) => compact_into(alloc, options, world, sink, rt, from, into),
        Err(Failed) => Outcome::with_other(alloc, end_with(Status::NoDisk, sink), from, None),
    }
}

// The same, with that of the file too.
fn compact_into<W: World, K: Sink, R: Wait>(
    alloc: Global,
    options: &CompactOptions,
    world: &mut W,
    sink: &mut K,
    rt: &R,
    from: W::Disk,
    into: W::Disk,
) -> Outcome<W>
    ensures compacts { (before between : W) → GivesDiskToRead ⟦<W as World>⟧ options.now.journal before between from → Gives ⟦<W as World>⟧ (asked_for.Disk options.now.into) between world.old into
        → RunsBeside ⟦<W as World>⟧ ⟦<W::Disk as Disk>⟧ options.now before world.new (K.written sink.old) (K.written sink.new) result.status result.disk result.other result.last }
    ensures doors { result.doors ≡ [] }
    ensures past { result.past ≡ None }
    ensures cause { RisesOnlyWhere (result.status ≡ code_of NotWritten) (K.faults sink.old) (K.faults sink.new) }
{
    let mut from = from;
    match begin_beside(alloc, &mut from, into, options.keep) {
        Ok(beside) => {
            let ended = announce(alloc, options, world, sink, rt, from, beside);
            let Behind {
                from,
                into,
                last,
                status,
            } = ended;
            Outcome::with_last(alloc, status, from, into, last)
        }
        Err((into, fault)) => {
            let status = end_fault(alloc, fault, sink);
            Outcome::with_other(alloc, status, from, Some(into))
        }
    }
}

// Writes the line of the fault.
fn end_fault<K: Sink>(alloc: Global, fault: CompactionFault, sink: &mut K) -> Status
    ensures ends { EndsCompacted (Err fault) [] (K.written sink.old) (K.written sink.new) (code_of result) }
    ensures cause { RisesOnlyWhere (result ≡ NotWritten) (K.faults sink.old) (K.faults sink.new) }
{
    let line = Txt::new(alloc);
    end_compaction(alloc, Err(fault), &line, sink)
}

// How a compaction ended whose file was begun, and the disks of both files.
struct Behind<D> {
    from: D,
    into: D,
    last: Option<D>,
    status: Status,
}

// Says that what is kept is written, and goes on.
fn announce<W: World, K: Sink, R: Wait>(
    alloc: Global,
    options: &CompactOptions,
    world: &mut W,
    sink: &mut K,
    rt: &R,
    from: W::Disk,
    beside: Beside<W::Disk>,
) -> Behind<W::Disk>
    requires whole { is_stuck beside ≡ false }
    ensures ends { (first into : W.Disk) → IsStarted options.now.keep first from into beside
        → EndsBehind ⟦<W as World>⟧ ⟦<W::Disk as Disk>⟧ options.now world.old world.new first result.from into result.into (K.written sink.old) (K.written sink.new) (code_of result.status) result.last }
    ensures cause { RisesOnlyWhere (result.status ≡ NotWritten) (K.faults sink.old) (K.faults sink.new) }
{
    match write_all(sink, b"following\n") {
        Ok(()) => end_behind(alloc, options, world, sink, rt, from, beside),
        Err(Failed) => Behind {
            from,
            into: beside.into_disk(),
            last: None,
            status: Status::NotWritten,
        },
    }
}

// Follows the journal until nobody else writes it, and finishes the file.
fn end_behind<W: World, K: Sink, R: Wait>(
    alloc: Global,
    options: &CompactOptions,
    world: &mut W,
    sink: &mut K,
    rt: &R,
    from: W::Disk,
    beside: Beside<W::Disk>,
) -> Behind<W::Disk>
    requires whole { is_stuck beside ≡ false }
    ensures ends { (first into : W.Disk) (before : Option (List ℕ)) → IsStarted options.now.keep first from into beside → Appends before (K.written sink.old) beside_line
        → EndsBehind ⟦<W as World>⟧ ⟦<W::Disk as Disk>⟧ options.now world.old world.new first result.from into result.into before (K.written sink.new) (code_of result.status) result.last }
    ensures cause { RisesOnlyWhere (result.status ≡ NotWritten) (K.faults sink.old) (K.faults sink.new) }
{
    let mut from = from;
    let mut beside = beside;
    match follow(alloc, &options.journal, world, rt, &mut from, &mut beside) {
        Ok(Some(last)) => finish(alloc, sink, from, beside, last),
        Ok(None) => Behind {
            from,
            into: beside.into_disk(),
            last: None,
            status: end_with(Status::NoDisk, sink),
        },
        Err(fault) => Behind {
            from,
            into: beside.into_disk(),
            last: None,
            status: end_fault(alloc, fault, sink),
        },
    }
}

// Writes behind it what the journal gains, until the world gives its disk. None where the world failed.
fn follow<W: World, R: Wait>(
    alloc: Global,
    path: &Txt,
    world: &mut W,
    rt: &R,
    from: &mut W::Disk,
    beside: &mut Beside<W::Disk>,
) -> Result<Option<W::Disk>, CompactionFault>
    requires whole { is_stuck beside.old ≡ false }
    ensures followed { (keep : ℕ) (first into : W.Disk) → IsStarted keep first from.old into beside.old → Followed ⟦<W as World>⟧ path.now keep first into world.old world.new from.new beside.new result }
    ensures whole { OnOk result (is_stuck beside.new ≡ false) }
{
    for _ in rt.forever() {
        match follow_once(alloc, path, world, from, beside)? {
            Ok(None) => {}
            Ok(Some(disk)) => return Ok(Some(disk)),
            Err(Failed) => return Ok(None),
        }
    }
    unreachable!()
}

// Writes behind it what the journal has gained, and asks for its disk for a while.
fn follow_once<W: World>(
    alloc: Global,
    path: &Txt,
    world: &mut W,
    from: &mut W::Disk,
    beside: &mut Beside<W::Disk>,
) -> Result<Result<Option<W::Disk>, Failed>, CompactionFault>
    requires whole { is_stuck beside.old ≡ false }
    ensures turned { (keep : ℕ) (first into : W.Disk) → IsStarted keep first from.old into beside.old → Turned ⟦<W as World>⟧ path.now keep first into world.old world.new from.new beside.new result }
    ensures whole { OnOk result (is_stuck beside.new ≡ false) }
{
    match beside.follow(alloc, from) {
        Ok(()) => Ok(world.disk_when_free(path, TURN)),
        Err(fault) => Err(fault),
    }
}

// Reads the journal to its end by the disk that nobody else writes, and finishes the file.
fn finish<D: Disk, K: Sink>(
    alloc: Global,
    sink: &mut K,
    from: D,
    beside: Beside<D>,
    last: D,
) -> Behind<D>
    requires whole { is_stuck beside ≡ false }
    ensures finishes { (keep : ℕ) (first into : D) → IsStarted keep first from into beside
        → IsFinished ⟦<D as Disk>⟧ keep first result.from into result.into last result.last (K.written sink.old) (K.written sink.new) (code_of result.status) }
    ensures cause { RisesOnlyWhere (result.status ≡ NotWritten) (K.faults sink.old) (K.faults sink.new) }
{
    let mut last = last;
    let mut line = Txt::new(alloc);
    let (into, done) = beside.finish(alloc, &mut last, &mut line);
    Behind {
        from,
        into,
        last: Some(last),
        status: end_compaction(alloc, done, &line, sink),
    }
}
