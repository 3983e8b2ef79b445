//! The jobs of workers are made.
ghost use Rattle.std.specs.Prelude.{◌≡◌, ◌<◌, ◌≤◌, ◌^◌, [], IfErr, IfOk, None, Some, length, map, reverse, vec_capacity};
ghost use Rattle.exchange_shared.specs.Seats.{lock_of};
ghost use Rattle.worker_pool.specs.Hiring.{AreHired, CountsOthers, IsFresh};

use crate::jobs::{Job, put_seat};
use door_worker::DoorEnd;
use exchange_shared::{Exchange, Seat};
use link_door::Door;
use rtb_disk::Disk;
use rtb_num::{List, SpareList};
use std::alloc::Global;

/// A job for each door, the first with worker 0's seat, and the room for the doors to come back. Where memory is refused,
/// the seat and the doors do.
pub(crate) fn hire<D: Disk, G: Door + Drop>(
    exchange: &Exchange<D>,
    alloc: Global,
    seat: Seat<D>,
    doors: List<G>,
) -> Result<(Vec<Job<D, G>>, SpareList<G>), (Seat<D>, List<G>)>
    requires seat { IsFresh (lock_of exchange.now) seat.origin 0 seat × CountsOthers 0 seat }
    requires some { 0 < length doors }
    requires few { length doors < 2 ^ 32 }
    ensures hired { IfOk result (λ r. AreHired (lock_of exchange.now) seat.origin r.0.items) }
    ensures doors { IfOk result (λ r. map (λ j. j.1) r.0.items ≡ doors) }
    ensures room { IfOk result (λ r. (r.1.items ≡ []) × (length doors ≤ r.1.spare)) }
    ensures refused { IfErr result (λ e. (e.0 ≡ seat) × (e.1 ≡ doors)) }
{
    let mut jobs = Vec::new(alloc);
    if jobs.reserve(doors.len()).is_err() {
        return Err((seat, doors));
    }
    let mut doors = doors.into_vec();
    doors.reverse();
    put_jobs(exchange, seat, &mut doors, &mut jobs);
    Ok((jobs, SpareList::from_vec(doors)))
}

// Puts a job for each door, from the last one on.
fn put_jobs<D: Disk, G: Door + Drop>(
    exchange: &Exchange<D>,
    seat: Seat<D>,
    doors: &mut Vec<G>,
    jobs: &mut Vec<Job<D, G>>,
)
    requires seat { IsFresh (lock_of exchange.now) seat.origin 0 seat × CountsOthers 0 seat }
    requires some { 0 < length doors.old.items }
    requires few { length doors.old.items < 2 ^ 32 }
    requires empty { jobs.old.items ≡ [] }
    requires room { length doors.old.items ≤ vec_capacity jobs.old }
    ensures hired { AreHired (lock_of exchange.now) seat.origin jobs.new.items }
    ensures doors { map (λ j. j.1) jobs.new.items ≡ reverse doors.old.items }
    ensures none { doors.new.items ≡ [] }
    ensures capacity { vec_capacity doors.new ≡ vec_capacity doors.old }
{
    let Some(first) = doors.pop() else {
        unreachable!()
    };
    jobs.push_reserved((None, first, DoorEnd::Served));
    let mut seat = seat;
    while let Some(door) = doors.pop() {
        let (first, other) = exchange.split(seat);
        seat = first;
        jobs.push_reserved((Some(other), door, DoorEnd::Served));
    }
    put_seat(&mut jobs[0].0, seat);
}
