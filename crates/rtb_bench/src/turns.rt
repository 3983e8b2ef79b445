//! Turns of several threads under one lock, over a counter as an exchange without its rules.
ghost use Rattle.std.specs.Prelude.{◌≡◌, ◌+◌, ◌<◌, ◌^◌, All, IfOk};
ghost use Rattle.rtb_bench.specs.Turns.{IsFirst, IsHired, MayEnter};

use crate::put_number;
use hist_lock::{HistLock, Seat, Stands, Starts};
use rtb_num::Txt;
use std::alloc::{AllocError, Global};
use std::sync::Wait;
use std::thread;
use std::thread::Threads;

// The most threads.
const MOST: u32 = 64;

// How many turns there were, and what their work comes to.
#[derive(Drop)]
struct Counter {
    count: u64,
    sum: u64,
}

// Contracts say nothing of it: what is measured is the lock.
impl Stands for Counter {
    ghost use Rattle.std.specs.Prelude.{⊤};

    type Origin = u64;

    type Entry = u64;

    ghost stands = { λ o c l. ⊤ };

    ghost worker = { λ e. e };
}

// The counter begins at 0.
struct Zero;

impl Starts<Counter> for Zero {
    ghost use Rattle.std.specs.Prelude.{◌≡◌};

    ghost starts = { λ o. o ≡ 0 };
}

// A worker's seat, which a call has for a time.
type Job = Option<Seat<Counter>>;

/// So many threads take so many turns each, with that much work in each. Appends how many turns there were, and what
/// their work comes to.
pub fn count<R: Threads + Wait + Sync>(
    rt: &R,
    alloc: Global,
    work: u32,
    each: u32,
    workers: u32,
    line: &mut Txt,
) -> Result<(), AllocError> {
    let Ok((lock, seat)) = HistLock::make::<Zero>(alloc, Counter { count: 0, sum: 0 }) else {
        return Err(AllocError);
    };
    let (seat, mut jobs) = hire(&lock, alloc, seat, workers.min(MOST))?;
    work_all(rt, &lock, jobs.as_mut_slice(), each, work);
    let (count, sum) = look(rt, &lock, seat);
    put_number(b"turns=", count, line)?;
    put_number(b" sum=", sum, line)?;
    line.extend(b"\n")
}

// A seat for each worker.
fn hire(
    lock: &HistLock<Counter>,
    alloc: Global,
    seat: Seat<Counter>,
    workers: u32,
) -> Result<(Seat<Counter>, Vec<Job>), AllocError>
    requires first { IsFirst lock.now 0 seat }
    requires few { workers + 2 < 2 ^ 32 }
    ensures first { IfOk result (λ r. MayEnter lock.now r.0) }
    ensures jobs { IfOk result (λ r. All (IsHired lock.now) r.1.items) }
{
    let mut seat = seat;
    let mut jobs = Vec::new(alloc);
    jobs.reserve(workers as usize)?;
    for _ in 0..workers {
        let (first, next) = lock.split(seat);
        seat = first;
        jobs.push_reserved(Some(next));
    }
    Ok((seat, jobs))
}

// Each job in a thread of its own.
fn work_all<R: Threads + Wait + Sync>(
    rt: &R,
    lock: &HistLock<Counter>,
    jobs: &mut [Job],
    each: u32,
    work: u32,
)
    requires { All (IsHired lock.now) jobs.old }
{
    let count = jobs.len();
    if count == 0 {
        return;
    }
    thread::for_each_mut(
        rt,
        jobs,
        count,
        &|_, job| take_turns(rt, lock, job, each, work),
    );
}

fn take_turns<R: Wait>(rt: &R, lock: &HistLock<Counter>, job: &mut Job, each: u32, work: u32)
    requires { IsHired lock.now job.old }
{
    let Some(seat) = job.take() else {
        return;
    };
    let mut seat = seat;
    for _ in 0..each {
        seat = take_turn(rt, lock, seat, work);
    }
    drop(seat);
}

// Works, and adds one.
fn take_turn<R: Wait>(
    rt: &R,
    lock: &HistLock<Counter>,
    seat: Seat<Counter>,
    work: u32,
) -> Seat<Counter>
    requires { MayEnter lock.now seat }
    ensures { MayEnter lock.now result }
{
    let (seat, mut turn) = lock.enter(rt, seat);
    turn.value.sum = busy(work, turn.value.sum);
    turn.value.count = turn.value.count.saturating_add(1);
    lock.leave(seat, turn)
}

// So many steps of a generator of numbers, which stand for what a turn does.
fn busy(work: u32, from: u64) -> u64 {
    let mut n = from;
    for _ in 0..work {
        n = n
            .wrapping_mul(6364136223846793005)
            .wrapping_add(1442695040888963407);
    }
    n
}

// The counter, in a turn that changes nothing.
fn look<R: Wait>(rt: &R, lock: &HistLock<Counter>, seat: Seat<Counter>) -> (u64, u64)
    requires { MayEnter lock.now seat }
{
    let (seat, turn) = lock.enter(rt, seat);
    let (count, sum) = (turn.value.count, turn.value.sum);
    drop(lock.leave(seat, turn));
    (count, sum)
}
