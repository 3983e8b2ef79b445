//! The command `compact`: a journal written anew without its oldest sales.
ghost use Rattle.std.specs.Prelude.{◌≡◌, [], ◌∷◌, ◌++◌, Option, List};
ghost use Rattle.link_door.specs.Worlds.{HandsOut};
ghost use Rattle.link_door.specs.declared.asked.Asked.{Asked};
ghost use Rattle.link_door.specs.declared.asked.Asked.TheVariants as asked_for;
ghost use Rattle.rtb_base.specs.Faults.{RisesOnlyWhere};
ghost use Rattle.rtb_io.specs.Statuses.{code_of};
ghost use Rattle.rtb_io.specs.declared.status.Status.TheVariants.{NotWritten};
ghost use Rattle.run_commands.specs.Beside.{Compacts};
ghost use Rattle.run_commands.specs.Given.{IsThere};
ghost use Rattle.run_commands.specs.Compact.{CompactsInto, EndsCompacted, RunsCompact};

use crate::beside_command::compact_beside;
use crate::journals::end_at;
use crate::outcome::Outcome;
use crate::status_lines::{end_with, tell};
use compaction::{Compacted, CompactionFault};
use link_door::World;
use rtb_disk::Disk;
use rtb_io::Status;
use rtb_num::{Failed, Sink, Txt};
use run_words::CompactOptions;
use std::alloc::Global;
use std::sync::Wait;

/// Runs the command `compact`: reads the journal, forgets its oldest sales but for so many, writes the exchange that is
/// left to another file as a journal, and prints how many sales are in its list and how many are forgotten.
///
/// With `--beside` another program may write the journal meanwhile. What is kept is written, then a line says that it
/// follows, and each block that the journal gains is written behind it, until nobody else writes the journal.
///
/// It ends with status 0, or 4 where the world gave no disk for one of them, as where the journal is not there, 5 where the journal's disk failed, 6 where
/// the journal is damaged, 12 where the other file has something in it, 13 where its disk failed, or 9 for want of
/// memory, each with a line of its own; and in place of each of them 7, where the sink failed.
pub fn compact<W: World, K: Sink, R: Wait>(
    alloc: Global,
    options: &CompactOptions,
    world: &mut W,
    sink: &mut K,
    rt: &R,
) -> Outcome<W>
    ensures compacts { Compacts ⟦<W as World>⟧ ⟦<W::Disk as Disk>⟧ options.now world.old world.new (K.written sink.old) (K.written sink.new) result.status result.disk result.other result.last }
    ensures doors { result.doors ≡ [] }
    ensures past { result.past ≡ None }
    ensures others { W.doors_left world.new ≡ W.doors_left world.old }
    ensures keys { W.keys_left world.new ≡ W.keys_left world.old }
    ensures cause { RisesOnlyWhere (result.status ≡ code_of NotWritten) (K.faults sink.old) (K.faults sink.new) }
{
    if options.beside {
        return compact_beside(alloc, options, world, sink, rt);
    }
    compact_alone(alloc, options, world, sink)
}

// The same, where nobody else has the journal.
fn compact_alone<W: World, K: Sink>(
    alloc: Global,
    options: &CompactOptions,
    world: &mut W,
    sink: &mut K,
) -> Outcome<W>
    ensures compacts { RunsCompact ⟦<W::Disk as Disk>⟧ options.now (W.asked world.old) (W.asked world.new) (W.disks_left world.old) (W.disks_left world.new) (W.faults world.old) (W.faults world.new) (K.written sink.old) (K.written sink.new) result.status result.disk result.other }
    ensures last { result.last ≡ None }
    ensures doors { result.doors ≡ [] }
    ensures past { result.past ≡ None }
    ensures others { W.doors_left world.new ≡ W.doors_left world.old }
    ensures keys { W.keys_left world.new ≡ W.keys_left world.old }
    ensures cause { RisesOnlyWhere (result.status ≡ code_of NotWritten) (K.faults sink.old) (K.faults sink.new) }
{
    match world.disk_there(&options.journal) {
        Ok(from) => compact_from(alloc, options, world, sink, from),
        Err(Failed) => Outcome::without_world(alloc, end_with(Status::NoDisk, sink).code()),
    }
}

// The same, with the disk of the journal.
fn compact_from<W: World, K: Sink>(
    alloc: Global,
    options: &CompactOptions,
    world: &mut W,
    sink: &mut K,
    from: W::Disk,
) -> Outcome<W>
    ensures compacts { (disks : Option (List W.Disk)) (asked : List Asked) → HandsOut disks (W.disks_left world.old) (from ∷ []) → W.asked world.old ≡ asked ++ asked_for.DiskThere options.now.journal ∷ [] → IsThere (W.Disk.store from) → RunsCompact ⟦<W::Disk as Disk>⟧ options.now asked (W.asked world.new) disks (W.disks_left world.new) (W.faults world.old) (W.faults world.new) (K.written sink.old) (K.written sink.new) result.status result.disk result.other }
    ensures last { result.last ≡ None }
    ensures doors { result.doors ≡ [] }
    ensures past { result.past ≡ None }
    ensures others { W.doors_left world.new ≡ W.doors_left world.old }
    ensures keys { W.keys_left world.new ≡ W.keys_left world.old }
    ensures cause { RisesOnlyWhere (result.status ≡ code_of NotWritten) (K.faults sink.old) (K.faults sink.new) }
{
    match world.disk(&options.into) {
        Ok(into) => {
            let ended = compact_disks(alloc, from, into, options.keep, sink);
            let Ended { from, into, status } = ended;
            Outcome::with_other(alloc, status, from, Some(into))
        }
        Err(Failed) => Outcome::with_other(alloc, end_with(Status::NoDisk, sink), from, None),
    }
}

// How a compaction ended, and the disks of its files.
struct Ended<D> {
    from: D,
    into: D,
    status: Status,
}

// Compacts the journal on the first disk into the second.
fn compact_disks<D: Disk, K: Sink>(
    alloc: Global,
    from: D,
    into: D,
    keep: u64,
    sink: &mut K,
) -> Ended<D>
    ensures compacts { CompactsInto ⟦<D as Disk>⟧ keep from result.from into result.into (K.written sink.old) (K.written sink.new) (code_of result.status) }
    ensures cause { RisesOnlyWhere (result.status ≡ NotWritten) (K.faults sink.old) (K.faults sink.new) }
{
    let mut line = Txt::new(alloc);
    let compacted = compaction::compact(alloc, from, into, keep, &mut line);
    let Compacted { from, into, done } = compacted;
    Ended {
        from,
        into,
        status: end_compaction(alloc, done, &line, sink),
    }
}

/// Writes the line, or that of the fault.
pub(crate) fn end_compaction<K: Sink>(
    alloc: Global,
    done: Result<(), CompactionFault>,
    line: &Txt,
    sink: &mut K,
) -> Status
    ensures ends { EndsCompacted done line.now (K.written sink.old) (K.written sink.new) (code_of result) }
    ensures cause { RisesOnlyWhere (result ≡ NotWritten) (K.faults sink.old) (K.faults sink.new) }
{
    match done {
        Ok(()) => tell(Status::Done, line.as_bytes(), sink),
        Err(CompactionFault::NotRead(fault)) => end_at(alloc, fault, sink),
        Err(CompactionFault::NotEmpty) => end_with(Status::NotEmpty, sink),
        Err(CompactionFault::WriteFailed) => end_with(Status::WriteFailed, sink),
        Err(CompactionFault::Memory) => end_with(Status::Memory, sink),
    }
}
