//! Two seats of one thread: worker 0 is A, and worker 1 is B.
ghost use Rattle.std.specs.Prelude.{◌≡◌};
ghost use Rattle.exchange_shared.specs.Seats.{MayCall, lock_of};
ghost use Rattle.hist_lock.specs.Views.{first_seat};
ghost use Rattle.seat_cases.specs.Hands.{AreTwo};

use crate::answers::{number_at, put_mark, word_at};
use crate::seats::{Hand, Sought, flush};
use crate::steps::step;
use case_lines::{number_in, numbers_in, paired};
use exchange_shared::{Exchange, Seat};
use rtb_base::Steps;
use rtb_disk::{Disk, MemDisk};
use rtb_num::{List, Txt};
use std::alloc::{AllocError, Global};
use std::mem::replace;
use std::sync::Wait;
use std::sync::ledger::Ledger;

/// How long a sale is held, in milliseconds.
pub const TTL: u64 = 300_000;

/// How many sales the list is to have at most.
pub const SALES: u64 = 4_194_304;

// The answers of a case have room for so many bytes from the start: so what was carried out is told, and what is tried once
// more found no memory before it was.
const MOST_BYTES: usize = 4_096;

/// What the two workers have, and what B found last.
#[derive(Drop)]
pub struct Two<D: Disk> {
    pub first: Hand<D>,
    pub second: Hand<D>,
    pub sought: Option<Sought>,
}

/// Answers the commands over the disk, with `; ` between two answers. Each begins with the worker, and has the
/// moment 1000.
///
/// - `A post TARGET NAME`: the reply to the command that the message asks for; `case_messages` has the campaigns by name.
/// - `A change TARGET NAME`: the same by a change that is written first; says the reply and `durable` or `store failed`, or
///   `not alone`.
/// - `A turn TIMES N`: campaign N is paused and resumed in turn so many times; says how often it was done.
/// - `A publish N`: builds a version where N edits stand, 1 at least, and publishes it; says its edit, and whether it is
///   new.
/// - `A worn`: whether a newer version pays, which is told once; says `worn out`, `worn` or `not worn`.
/// - `A flush`: writes what is not durable; says `flushed` or `store failed`.
/// - `B find`: looks at the version and finds in it for the bid request of `case_messages`; says the edit of the version.
/// - `B settle`: sells over what was found last, or over what is found now; says the number of the sale, its campaign and
///   the price in micro-dollars, `no bid`, or `held`.
/// - `A keep` and `B keep`: make the worker's last command durable; say `durable` or `store failed`.
/// - `reopen`: B's seat is joined, A flushes, the exchange is closed, and is opened again from its disk.
/// - `crash PICK`: the same, from what a crash leaves of the disk by the pick.
pub fn run<R: Wait, L: Ledger>(
    rt: &R,
    alloc: Global,
    disk: MemDisk,
    commands: &[Txt],
    steps: &mut Steps<L>,
    out: &mut Txt,
) -> Result<(), AllocError> {
    let mut disk = disk;
    let told = match out.reserve(MOST_BYTES) {
        Ok(()) => run_lives(rt, alloc, &mut disk, commands, steps, out),
        Err(refused) => Err(refused),
    };
    drop(disk);
    told
}

/// A disk in memory with this content.
pub fn disk_of(
    alloc: Global,
    content: &Txt,
    fails: &[u8],
    stop: &[u8],
) -> Result<MemDisk, AllocError> {
    let (content, fails) = paired(content.copy(), numbers_in(alloc, fails))?;
    let mut disk = MemDisk::new(alloc, content, fails);
    stop_at(&mut disk, stop);
    Ok(disk)
}

fn stop_at(disk: &mut MemDisk, stop: &[u8]) {
    if let Some(call) = number_in(stop) {
        disk.stop_at(call);
    }
}

// One exchange after the other, each up to a command that ends it.
fn run_lives<R: Wait, L: Ledger>(
    rt: &R,
    alloc: Global,
    disk: &mut MemDisk,
    commands: &[Txt],
    steps: &mut Steps<L>,
    out: &mut Txt,
) -> Result<(), AllocError> {
    let mut rest = commands;
    for _ in 0..commands.len() {
        let done = live_on(rt, alloc, disk, rest, steps, out)?;
        let Some((end, others)) = rest_behind(rest, done).split_first() else {
            return Ok(());
        };
        put_mark(out)?;
        out.extend(end.as_bytes())?;
        crash_on(disk, end.as_bytes())?;
        rest = others;
    }
    Ok(())
}

// What stands behind so many commands.
fn rest_behind(commands: &[Txt], count: usize) -> &[Txt] {
    let mut rest = commands;
    for _ in 0..count {
        match rest.split_first() {
            Some((_, others)) => rest = others,
            None => return &[],
        }
    }
    rest
}

// An exchange over the disk, which is closed again. How many commands were answered, up to one that ends it.
fn live_on<R: Wait, L: Ledger>(
    rt: &R,
    alloc: Global,
    disk: &mut MemDisk,
    commands: &[Txt],
    steps: &mut Steps<L>,
    out: &mut Txt,
) -> Result<usize, AllocError> {
    let none = MemDisk::new(alloc, Txt::new(alloc), List::new(alloc));
    let (closed, done) = live(rt, alloc, replace(disk, none), commands, steps, out);
    drop(replace(disk, closed));
    done
}

// A crash leaves of the disk what its pick says.
fn crash_on(disk: &mut MemDisk, end: &[u8]) -> Result<(), AllocError> {
    if word_at(end, 0) == b"crash".as_slice() {
        let after = disk.after_crash(number_at(end, 1))?;
        drop(replace(disk, after));
    }
    Ok(())
}

fn is_end(command: &[u8]) -> bool {
    let word = word_at(command, 0);
    word == b"reopen".as_slice() || word == b"crash".as_slice()
}

// An exchange over the disk answers the commands up to one that ends it. The disk then, and how many were answered.
fn live<D: Disk + Drop, R: Wait, L: Ledger>(
    rt: &R,
    alloc: Global,
    disk: D,
    commands: &[Txt],
    steps: &mut Steps<L>,
    out: &mut Txt,
) -> (D, Result<usize, AllocError>) {
    match Exchange::start(alloc, disk, TTL, SALES, steps) {
        Ok((exchange, seat)) => {
            let (two, done) = run_until_end(rt, alloc, &exchange, seat, commands, steps, out);
            (close(rt, exchange, two), done)
        }
        Err((disk, _)) => (disk, put_not_opened(commands.len(), out)),
    }
}

// No command is answered behind that.
fn put_not_opened(left: usize, out: &mut Txt) -> Result<usize, AllocError> {
    put_mark(out)?;
    out.extend(b"not opened")?;
    Ok(left)
}

// What the two workers had at the end, and how many commands were answered, up to one that ends it.
fn run_until_end<D: Disk + Drop, R: Wait, L: Ledger>(
    rt: &R,
    alloc: Global,
    exchange: &Exchange<D>,
    seat: Seat<D>,
    commands: &[Txt],
    steps: &mut Steps<L>,
    out: &mut Txt,
) -> (Two<D>, Result<usize, AllocError>)
    requires first { seat ≡ first_seat (lock_of exchange.now) seat.origin }
    requires calls { MayCall (lock_of exchange.now) seat }
    ensures { AreTwo (lock_of exchange.now) result.0 }
{
    let mut two = split(exchange, seat);
    let mut done: usize = 0;
    for command in commands {
        if is_end(command.as_bytes()) {
            return (two, Ok(done));
        }
        let (next, told) = step(rt, alloc, exchange, two, command.as_bytes(), steps, out);
        two = next;
        if told.is_err() {
            return (two, Err(AllocError));
        }
        done = done.saturating_add(1);
    }
    (two, Ok(done))
}

fn split<D: Disk>(exchange: &Exchange<D>, seat: Seat<D>) -> Two<D>
    requires first { seat ≡ first_seat (lock_of exchange.now) seat.origin }
    requires calls { MayCall (lock_of exchange.now) seat }
    ensures { AreTwo (lock_of exchange.now) result }
{
    let (first, second) = exchange.split(seat);
    Two {
        first: Hand {
            seat: first,
            upto: 0,
        },
        second: Hand {
            seat: second,
            upto: 0,
        },
        sought: None,
    }
}

// B's seat is joined, A flushes, and the exchange is closed.
fn close<D: Disk + Drop, R: Wait>(rt: &R, exchange: Exchange<D>, two: Two<D>) -> D
    requires { AreTwo (lock_of exchange) two }
{
    let Two {
        first,
        second,
        sought,
    } = two;
    drop(sought);
    let Hand { seat, upto: _ } = first;
    let Hand {
        seat: other,
        upto: _,
    } = second;
    let seat = exchange.join(seat, other);
    let (hand, _) = flush(rt, &exchange, Hand { seat, upto: 0 });
    let Hand { seat, upto: _ } = hand;
    let (disk, past) = exchange.close(seat);
    drop(past);
    disk
}
