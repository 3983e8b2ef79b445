//! The command `follow`: reports from a journal that another program writes.
ghost use Rattle.std.specs.Prelude.{◌≡◌, [], ◌∷◌, Option, List, ℕ, MatchResult, None, Some};
ghost use Rattle.rtb_base.specs.Faults.{RisesOnlyWhere};
ghost use Rattle.rtb_io.specs.Statuses.{code_of};
ghost use Rattle.rtb_io.specs.declared.status.Status.TheVariants.{NotWritten};
ghost use Rattle.run_commands.specs.Follow.{EndsFollowed, Follows, Reports};
ghost use Rattle.run_commands.specs.Given.{GivesDiskToRead};

use crate::outcome::Outcome;
use crate::rooms::{list_with, only_item};
use crate::serve_command::end_without_doors;
use crate::status_lines::end_with;
use follower::{Follower, serve_reports};
use link_door::{Door, Link, World};
use rtb_disk::Disk;
use rtb_io::{Status, write_all};
use rtb_num::{Failed, Sink};
use run_words::FollowOptions;
use std::alloc::Global;
use std::sync::Wait;

// How many milliseconds a link waits for its peer.
const PATIENCE: u64 = 60_000;

/// Runs the command `follow`: opens a door, says that it follows, and answers the links that come through it, one after
/// the other, with reports of what the journal says by then, until no more will come. It writes no byte to the journal.
///
/// It ends with status 0, or 3 where the world gave no door, 4 where it gave no disk, 8 where the door failed, or 9 for
/// want of memory, each with a line of its own; and in place of each of them 7, where the sink failed. Where the sink
/// fails at the first line, nothing is served.
pub fn follow<W: World, K: Sink, R: Wait>(
    alloc: Global,
    options: &FollowOptions,
    world: &mut W,
    sink: &mut K,
    rt: &R,
) -> Outcome<W>
    ensures follows { Follows ⟦<W as World>⟧ ⟦<W::Disk as Disk>⟧ ⟦<W::Door as Door>⟧ ⟦<<W::Door as Door>::Link as Link>⟧ options.now world.old world.new (K.written sink.old) (K.written sink.new) result.status result.doors result.disk }
    ensures other { result.other ≡ None }
    ensures last { result.last ≡ None }
    ensures past { result.past ≡ None }
    ensures cause { RisesOnlyWhere (result.status ≡ code_of NotWritten) (K.faults sink.old) (K.faults sink.new) }
{
    match world.disk_to_read(&options.journal) {
        Ok(disk) => follow_disk(alloc, options, world, sink, rt, disk),
        Err(Failed) => {
            let status = end_with(Status::NoDisk, sink);
            Outcome::without_world(alloc, status.code())
        }
    }
}

// The same, with the disk that the world gave.
fn follow_disk<W: World, K: Sink, R: Wait>(
    alloc: Global,
    options: &FollowOptions,
    world: &mut W,
    sink: &mut K,
    rt: &R,
    disk: W::Disk,
) -> Outcome<W>
    ensures follows { (before : W) → GivesDiskToRead ⟦<W as World>⟧ options.now.journal before world.old disk
        → Follows ⟦<W as World>⟧ ⟦<W::Disk as Disk>⟧ ⟦<W::Door as Door>⟧ ⟦<<W::Door as Door>::Link as Link>⟧ options.now before world.new (K.written sink.old) (K.written sink.new) result.status result.doors result.disk }
    ensures other { result.other ≡ None }
    ensures last { result.last ≡ None }
    ensures past { result.past ≡ None }
    ensures cause { RisesOnlyWhere (result.status ≡ code_of NotWritten) (K.faults sink.old) (K.faults sink.new) }
{
    match world.doors(alloc, &options.listen, 1, PATIENCE) {
        Ok(doors) => {
            let (door, room) = only_item(doors);
            let ended = announce(alloc, sink, rt, disk, door);
            let Ended { disk, door, status } = ended;
            Outcome::with_doors(status, list_with(room, door), disk)
        }
        Err(fault) => {
            let status = end_without_doors(fault, sink);
            Outcome::with_disk(alloc, status, disk)
        }
    }
}

// How the reporting ended, and what it was done with.
struct Ended<D, G> {
    disk: D,
    door: G,
    status: Status,
}

// Says that it follows, and serves the door.
fn announce<D: Disk, G: Door, K: Sink, R: Wait>(
    alloc: Global,
    sink: &mut K,
    rt: &R,
    disk: D,
    door: G,
) -> Ended<D, G>
    ensures reports { Reports ⟦<D as Disk>⟧ ⟦<G as Door>⟧ ⟦<<G as Door>::Link as Link>⟧ disk result.disk door result.door (K.written sink.old) (K.written sink.new) (code_of result.status) }
    ensures cause { RisesOnlyWhere (result.status ≡ NotWritten) (K.faults sink.old) (K.faults sink.new) }
{
    match write_all(sink, b"following\n") {
        Ok(()) => {
            let mut follower = Follower::new(alloc, disk);
            let mut door = door;
            let done = serve_reports(rt, alloc, &mut follower, &mut door);
            Ended {
                status: end_behind(done, sink),
                disk: follower.into_disk(),
                door,
            }
        }
        Err(Failed) => Ended {
            disk,
            door,
            status: Status::NotWritten,
        },
    }
}

// What is left to be written once the door was served.
fn end_behind<K: Sink>(done: Result<(), Failed>, sink: &mut K) -> Status
    ensures ends { EndsFollowed done (K.written sink.old) (K.written sink.new) (code_of result) }
    ensures cause { RisesOnlyWhere (result ≡ NotWritten) (K.faults sink.old) (K.faults sink.new) }
{
    match done {
        Ok(()) => Status::Done,
        Err(Failed) => end_with(Status::DoorFailed, sink),
    }
}
