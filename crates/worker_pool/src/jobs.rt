//! The jobs of workers: each serves its door, and they are gathered.
ghost use Rattle.std.specs.Prelude.{◌≡◌, ◌<◌, ◌≤◌, ◌^◌, [], IsTrue, None, Some, length, map};
ghost use Rattle.door_worker.specs.Languages.{rtb};
ghost use Rattle.exchange_shared.specs.Seats.{Seat as ASeat, lock_of};
ghost use Rattle.exchange_state.specs.declared.entries.Origin.{Origin};
ghost use Rattle.worker_pool.specs.Hiring.{AreBack, AreDone, AreGathered, AreHired, IsDone, IsHired, IsJoined, has_failed, is_failed};

use address_keys::Keys;
use door_worker::{DoorEnd, serve_door};
use exchange_shared::{Exchange, Seat};
use link_door::{Door, Pause};
use rtb_disk::Disk;
use rtb_num::{List, SpareList, Txt};
use std::alloc::Global;
use std::sync::Wait;
use std::thread::Threads;
use std::{mem, thread};

/// A worker's seat, which a call has for a time, its door, and how the serving of the door ended.
pub(crate) type Job<D, G> = (Option<Seat<D>>, G, DoorEnd);

// What all workers are given.
#[derive(Clone, Copy)]
struct Tools<'e, D: Disk, R, P> {
    exchange: &'e Exchange<D>,
    rt: &'e R,
    alloc: Global,
    pause: &'e P,
    public: &'e Txt,
    keys: &'e Keys,
}

/// Puts a seat where there is none.
pub(crate) fn put_seat<D: Disk>(place: &mut Option<Seat<D>>, seat: Seat<D>)
    requires { place.old ≡ None }
    ensures { place.new ≡ Some seat }
{
    match mem::replace(place, Some(seat)) {
        None => {}
        Some(_) => unreachable!(),
    }
}

/// Does all jobs, and joins their seats to worker 0's, which comes back, with whether a door failed.
pub(crate) fn serve_jobs<D: Disk + Send, R: Threads + Wait + Sync, G: Door + Send, P: Pause + Sync>(
    exchange: &Exchange<D>,
    rt: &R,
    alloc: Global,
    pause: &P,
    public: &Txt,
    keys: &Keys,
    jobs: &mut [Job<D, G>],
) -> (Seat<D>, bool)
    requires hired { (o : Origin) × AreHired (lock_of exchange.now) o jobs.old }
    requires few { length jobs.old < 2 ^ 32 }
    ensures { AreGathered G.Link.Link G.held G.faults (rtb public.now keys.now) (lock_of exchange.now) jobs.old jobs.new result.0 result.1 }
{
    work_all(exchange, rt, alloc, pause, public, keys, jobs);
    let failed = has_failed(jobs);
    (gather(exchange, jobs), failed)
}

// Each job in a thread of its own, where one can be started.
fn work_all<D: Disk + Send, R: Threads + Wait + Sync, G: Door + Send, P: Pause + Sync>(
    exchange: &Exchange<D>,
    rt: &R,
    alloc: Global,
    pause: &P,
    public: &Txt,
    keys: &Keys,
    jobs: &mut [Job<D, G>],
)
    requires hired { (o : Origin) × AreHired (lock_of exchange.now) o jobs.old }
    requires few { length jobs.old < 2 ^ 32 }
    ensures { AreDone G.Link.Link G.held G.faults (rtb public.now keys.now) (lock_of exchange.now) jobs.old jobs.new }
{
    let count = jobs.len();
    let tools = Tools {
        exchange,
        rt,
        alloc,
        pause,
        public,
        keys,
    };
    thread::for_each_mut(
        rt,
        jobs,
        count,
        &|worker: usize, job: &mut Job<D, G>|
            requires { (worker < 2 ^ 32) × ((o : Origin) × IsHired (lock_of tools.exchange.now) o worker job.now) }
            ensures { IsDone G.Link.Link G.held G.faults (rtb tools.entry.public.now tools.entry.keys.now) (lock_of tools.entry.exchange.now) job.entry.now job.exit.now }
        { work(&tools, worker as u32, job) },
    );
}

// Serves the job's door with its seat.
fn work<D: Disk, R: Wait, G: Door, P: Pause>(
    tools: &Tools<'_, D, R, P>,
    worker: u32,
    job: &mut Job<D, G>,
)
    requires { (o : Origin) × IsHired (lock_of tools.now.exchange.now) o worker job.old }
    ensures { IsDone G.Link.Link G.held G.faults (rtb tools.now.public.now tools.now.keys.now) (lock_of tools.now.exchange.now) job.old job.new }
{
    let Some(seat) = job.0.take() else {
        unreachable!()
    };
    let Tools {
        exchange,
        rt,
        alloc,
        pause,
        public,
        keys,
    } = *tools;
    let (seat, end) = serve_door(
        exchange, rt, alloc, worker, pause, public, keys, seat, &mut job.1,
    );
    put_seat(&mut job.0, seat);
    job.2 = end;
}

// Whether a door failed.
fn has_failed<D: Disk, G: Door>(jobs: &[Job<D, G>]) -> bool
    ensures { result ≡ has_failed jobs.now }
{
    jobs.iter().any(|job| is_failed(job.2))
}

fn is_failed(end: DoorEnd) -> bool
    ensures { result ≡ is_failed end }
{
    match end {
        DoorEnd::Failed => true,
        DoorEnd::Served => false,
    }
}

// Joins the seats of all jobs to worker 0's.
fn gather<D: Disk, G: Door>(exchange: &Exchange<D>, jobs: &mut [Job<D, G>]) -> Seat<D>
    requires back { AreBack (lock_of exchange.now) jobs.old }
    ensures joined { IsJoined (lock_of exchange.now) jobs.old (length jobs.old) result }
    ensures many { length jobs.new ≡ length jobs.old }
    ensures doors { map (λ j. j.1) jobs.new ≡ map (λ j. j.1) jobs.old }
{
    let Some(mut seat) = jobs[0].0.take() else {
        unreachable!()
    };
    for k in 1..jobs.len() {
        let Some(other) = jobs[k].0.take() else {
            unreachable!()
        };
        seat = exchange.join(seat, other);
    }
    seat
}

/// The doors of the jobs, in their order.
pub(crate) fn doors_of<D: Disk, G: Door + Drop>(jobs: Vec<Job<D, G>>, room: SpareList<G>) -> List<G>
    requires empty { room.items ≡ [] }
    requires room { length jobs.items ≤ room.spare }
    ensures { result ≡ map (λ j. j.1) jobs.items }
{
    let mut jobs = jobs;
    let mut room = room;
    jobs.reverse();
    while let Some((seat, door, _)) = jobs.pop() {
        drop(seat);
        room.put(door);
    }
    drop(jobs);
    List::from_vec(room.into_vec())
}
