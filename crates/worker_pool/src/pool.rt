//! The doors of an exchange.
ghost use Rattle.std.specs.Prelude.{◌≡◌, ◌<◌, ◌^◌, true, None, length, map};
ghost use Rattle.door_worker.specs.Languages.{rtb};
ghost use Rattle.exchange_shared.specs.Seats.{IsOrdered, MayCall, lock_of, worker_of};
ghost use Rattle.exchange_state.specs.Standing.{SaysFront, SaysSomeSince};
ghost use Rattle.exchange_state.specs.Tickets.{IsLegalFrom};
ghost use Rattle.exchange_state.specs.Views.{calls, failures, faults_told, out};
ghost use Rattle.hist_lock.specs.Views.{Complete, first_seat};
ghost use Rattle.rtb_base.specs.Faults.{RoseBy};
ghost use Rattle.rtb_disk.specs.Stores.{EachImage};
ghost use Rattle.worker_pool.specs.Ending.{IsWritten, end_of};
ghost use Rattle.worker_pool.specs.Pools.{AreServed, EndsAs, KeepsBudgets, LeaveAs};

use crate::hiring::hire;
use crate::jobs::{doors_of, serve_jobs};
use crate::laws::budgets_hold_at_each_place;
use address_keys::Keys;
use exchange_shared::{Exchange, Seat, StoreFailed};
use exchange_state::ExchangeState;
use hist_lock::Past;
use link_door::{Door, Pause};
use rtb_disk::Disk;
use rtb_num::{List, Txt};
use std::alloc::Global;
use std::sync::Wait;
use std::thread::Threads;

/// Why the serving of doors ended.
#[derive(Clone, Copy)]
pub enum PoolEnd {
    /// No door has a link left, and the last write was done.
    Served,
    /// A door failed. The others were served to their end.
    DoorFailed,
    /// No door failed, and the last write was not done.
    LastWriteFailed,
    /// Memory was refused before anything was served.
    Memory,
}

/// What comes back of serving doors.
#[derive(Drop)]
pub struct Pool<D: Disk, G: Door> {
    /// The doors, in their order.
    pub doors: List<G>,
    pub disk: D,
    /// The history of the exchange.
    pub past: Past<ExchangeState<D>>,
    pub end: PoolEnd,
}

/// Serves the doors, each with a worker of its own, in a thread where one can be started. The first door is worker 0's,
/// and worker k serves door k, both counted from 0. Once all have returned, what is not durable is written once more,
/// and the exchange is closed.
///
/// `pause`, `public` and `keys` are as for `serve_door`.
pub fn serve_doors<
    D: Disk + Send,
    R: Threads + Wait + Sync,
    G: Door + Drop + Send,
    P: Pause + Sync,
>(
    exchange: Exchange<D>,
    rt: &R,
    alloc: Global,
    pause: &P,
    public: &Txt,
    keys: &Keys,
    seat: Seat<D>,
    doors: List<G>,
) -> Pool<D, G>
    requires seat { MayCall (lock_of exchange) seat }
    requires first { seat ≡ first_seat (lock_of exchange) seat.origin }
    requires some { 0 < length doors }
    requires few { length doors < 2 ^ 32 }
    ensures origin { result.past.origin ≡ seat.origin }
    ensures legal { IsLegalFrom result.past.origin (calls result.past.seen) }
    ensures budgets { KeepsBudgets result.past }
    ensures order { IsOrdered result.past.origin result.past.seen }
    ensures served { AreServed G.Link.Link (rtb public.now keys.now) result.past (map G.held doors) (map G.held result.doors) }
    ensures images { result.past.origin.told ≡ true → EachImage (SaysFront result.past.origin result.past.seen) (D.store result.disk).now }
    ensures since { result.past.origin.told ≡ true → SaysSomeSince result.past.origin result.past.seen (D.store result.disk) }
    ensures faults { D.faults result.disk ≡ faults_told result.past.origin result.past.seen }
    ensures counted { RoseBy (failures result.past.seen) result.past.origin.faults (D.faults result.disk) }
    ensures left { LeaveAs G.faults G.held doors result.doors result.end }
    ensures end { EndsAs result.past (map G.faults doors) (map G.faults result.doors) result.end }
{
    match hire(&exchange, alloc, seat, doors) {
        Ok((mut jobs, room)) => {
            let (seat, failed) = serve_jobs(
                &exchange,
                rt,
                alloc,
                pause,
                public,
                keys,
                jobs.as_mut_slice(),
            );
            let doors = doors_of(jobs, room);
            write_last(exchange, rt, seat, doors, failed)
        }
        Err((seat, doors)) => close(exchange, seat, doors, PoolEnd::Memory),
    }
}

// Writes what is not durable, and closes the exchange.
fn write_last<D: Disk, R: Wait, G: Door>(
    exchange: Exchange<D>,
    rt: &R,
    seat: Seat<D>,
    doors: List<G>,
    failed: bool,
) -> Pool<D, G>
    requires seat { MayCall (lock_of exchange) seat }
    requires last { (seat.worker ≡ 0) × (seat.out ≡ 0) }
    ensures doors { result.doors ≡ doors }
    ensures written { IsWritten seat failed result.past result.end }
    ensures complete { Complete worker_of seat result.past.seen }
    ensures order { IsOrdered result.past.origin result.past.seen }
    ensures legal { IsLegalFrom result.past.origin (calls result.past.seen) }
    ensures budgets { KeepsBudgets result.past }
    ensures images { result.past.origin.told ≡ true → EachImage (SaysFront result.past.origin result.past.seen) (D.store result.disk).now }
    ensures since { result.past.origin.told ≡ true → SaysSomeSince result.past.origin result.past.seen (D.store result.disk) }
    ensures faults { D.faults result.disk ≡ faults_told result.past.origin result.past.seen }
    ensures counted { RoseBy (failures result.past.seen) result.past.origin.faults (D.faults result.disk) }
{
    match exchange.flush(rt, seat) {
        Ok(seat) => close(exchange, seat, doors, end_of(failed, true)),
        Err(StoreFailed { seat }) => close(exchange, seat, doors, end_of(failed, false)),
    }
}

// A failed door comes before a last write that was not done.
fn end_of(failed: bool, written: bool) -> PoolEnd
    ensures { result ≡ end_of failed written }
{
    if failed {
        return PoolEnd::DoorFailed;
    }
    if written {
        PoolEnd::Served
    } else {
        PoolEnd::LastWriteFailed
    }
}

fn close<D: Disk, G: Door>(
    exchange: Exchange<D>,
    seat: Seat<D>,
    doors: List<G>,
    end: PoolEnd,
) -> Pool<D, G>
    requires seat { MayCall (lock_of exchange) seat }
    requires last { (seat.worker ≡ 0) × (seat.out ≡ 0) }
    requires home { out seat.seen ≡ None }
    ensures doors { result.doors ≡ doors }
    ensures end { result.end ≡ end }
    ensures past { (result.past.origin ≡ seat.origin) × (result.past.seen ≡ seat.seen) }
    ensures complete { Complete worker_of seat result.past.seen }
    ensures order { IsOrdered result.past.origin result.past.seen }
    ensures legal { IsLegalFrom result.past.origin (calls result.past.seen) }
    ensures budgets { KeepsBudgets result.past }
    ensures images { result.past.origin.told ≡ true → EachImage (SaysFront result.past.origin result.past.seen) (D.store result.disk).now }
    ensures since { result.past.origin.told ≡ true → SaysSomeSince result.past.origin result.past.seen (D.store result.disk) }
    ensures faults { D.faults result.disk ≡ faults_told result.past.origin result.past.seen }
    ensures counted { RoseBy (failures result.past.seen) result.past.origin.faults (D.faults result.disk) }
{
    let (disk, past) = exchange.close(seat);
    budgets_hold_at_each_place();
    Pool {
        doors,
        disk,
        past,
        end,
    }
}
