//! The links of a door, one after the other.
ghost use Rattle.std.specs.Prelude.{◌≡◌, ◌<◌, None, Some};
ghost use Rattle.door_worker.specs.Doors.{LeavesNone, ServesDoor};
ghost use Rattle.door_worker.specs.Languages.{rtb};
ghost use Rattle.door_worker.specs.Working.{IsAt, ServesAt, TalksOn};
ghost use Rattle.exchange_shared.specs.Seats.{MayCall, lock_of};
ghost use Rattle.rtb_base.specs.Faults.{RisesOnlyWhere};

use crate::desk::{Desk, converse};
use crate::worker::{Tools, Worker};
use address_keys::Keys;
use command_read::Rooms;
use conj_index::Scratch;
use exchange_shared::{Exchange, Seat};
use link_door::{Door, Pause};
use rtb_base::Steps;
use rtb_disk::Disk;
use rtb_num::Txt;
use session::LinkRoom;
use std::alloc::Global;
use std::marker::Brand;
use std::sync::Wait;
use std::sync::ledger::{Blank, Ledger};

/// Why a door was served no more.
#[derive(Clone, Copy)]
pub enum DoorEnd {
    /// No more links come.
    Served,
    /// The door failed.
    Failed,
}

/// Serves the links of the door with the seat, one after the other, each to its end, and gives each back to the door.
///
/// A message comes at the moment that the door tells once the message was read. `pause` is called between finding the
/// campaigns of an auction and selling, with the number of the worker. `public` is what the addresses of notices begin
/// with, as `http://ads.example`; by `keys` addresses are signed.
pub fn serve_door<D: Disk, R: Wait, G: Door, P: Pause>(
    exchange: &Exchange<D>,
    rt: &R,
    alloc: Global,
    worker: u32,
    pause: &P,
    public: &Txt,
    keys: &Keys,
    seat: Seat<D>,
    door: &mut G,
) -> (Seat<D>, DoorEnd)
    requires seat { MayCall (lock_of exchange.now) seat }
    requires worker { seat.worker ≡ worker }
    ensures seat { MayCall (lock_of exchange.now) result.0 }
    ensures served { ServesDoor G.Link.Link (rtb public.now keys.now) seat (G.held door.old) result.0 (G.held door.new) }
    ensures all { result.1 ≡ DoorEnd.Served → LeavesNone (G.held door.old) (G.held door.new) }
    ensures cause { RisesOnlyWhere (result.1 ≡ DoorEnd.Failed) (G.faults door.old) (G.faults door.new) }
{
    let tools = Tools {
        rt,
        alloc,
        pause,
        public,
        keys,
        number: worker,
    };
    let mut worker = Worker {
        exchange,
        seat: Some(seat),
        scratch: Scratch::new(alloc),
        rooms: Rooms::new(alloc),
    };
    let mut room = LinkRoom::new();
    let end = serve_links(&tools, &mut room, &mut worker, door);
    drop(room);
    let Worker {
        exchange: _,
        seat,
        scratch,
        rooms,
    } = worker;
    drop(scratch);
    drop(rooms);
    match seat {
        Some(seat) => (seat, end),
        None => unreachable!(),
    }
}

// Serves the links that are left.
fn serve_links<'e, D: Disk, R: Wait, G: Door, P: Pause>(
    tools: &Tools<'e, R, P>,
    room: &mut LinkRoom,
    worker: &mut Worker<'e, D>,
    door: &mut G,
) -> DoorEnd
    requires seat { IsAt worker.old }
    ensures here { worker.new.here ≡ worker.old.here }
    ensures served { ServesAt G.Link.Link (rtb tools.now.public.now tools.now.keys.now) worker.old (G.held door.old) worker.new (G.held door.new) }
    ensures all { result ≡ DoorEnd.Served → LeavesNone (G.held door.old) (G.held door.new) }
    ensures cause { RisesOnlyWhere (result ≡ DoorEnd.Failed) (G.faults door.old) (G.faults door.new) }
{
    for _ in tools.rt.forever() {
        match serve_next(tools, room, worker, door) {
            Some(end) => return end,
            None => {}
        }
    }
    unreachable!()
}

// Serves the next link; why there is none, where there is none.
fn serve_next<'e, D: Disk, R: Wait, G: Door, P: Pause>(
    tools: &Tools<'e, R, P>,
    room: &mut LinkRoom,
    worker: &mut Worker<'e, D>,
    door: &mut G,
) -> Option<DoorEnd>
    requires seat { IsAt worker.old }
    ensures here { worker.new.here ≡ worker.old.here }
    ensures served { ServesAt G.Link.Link (rtb tools.now.public.now tools.now.keys.now) worker.old (G.held door.old) worker.new (G.held door.new) }
    ensures all { result ≡ Some DoorEnd.Served → LeavesNone (G.held door.old) (G.held door.new) }
    ensures cause { RisesOnlyWhere (result ≡ Some DoorEnd.Failed) (G.faults door.old) (G.faults door.new) }
{
    match door.next() {
        Ok(Some(link)) => {
            let link = serve_one::<D, R, G, P, Brand>(
                tools,
                room,
                worker,
                door,
                link,
                Blank::new(1),
            );
            door.done(link);
            None
        }
        Ok(None) => Some(DoorEnd::Served),
        Err(_) => Some(DoorEnd::Failed),
    }
}

// Serves a link that the door gave. The steps are not counted.
fn serve_one<'e, D: Disk, R: Wait, G: Door, P: Pause, L: Ledger>(
    tools: &Tools<'e, R, P>,
    room: &mut LinkRoom,
    worker: &mut Worker<'e, D>,
    door: &mut G,
    link: G::Link,
    blank: Blank,
) -> G::Link
    requires name { blank.name ≡ L.name }
    requires parts { blank.parts ≡ L.parts }
    requires some { 0 < blank.parts }
    requires seat { IsAt worker.old }
    ensures here { worker.new.here ≡ worker.old.here }
    ensures talked { TalksOn G.Link.Link (rtb tools.now.public.now tools.now.keys.now) worker.old (G.held door.old) link result worker.new (G.held door.new) }
    ensures faults { G.faults door.new ≡ G.faults door.old }
{
    let mut link = link;
    let mut steps = Steps::<L>::new(blank);
    let mut desk = Desk {
        tools,
        worker,
        door,
    };
    converse(room, &mut desk, &mut link, &mut steps);
    link
}
