//! An exchange that is served over links in memory, by workers in threads of their own, as `rtbx serve` serves one over
//! sockets.
ghost use Rattle.std.specs.Prelude.{◌≡◌, ◌<◌};
ghost use Rattle.exchange_shared.specs.Seats.{MayCall, lock_of};
ghost use Rattle.hist_lock.specs.Views.{first_seat};

use crate::{next_bytes, number_at, put_number, word_at};
use address_keys::{Key, Keys};
use case_lines::{kept, paired};
use exchange_shared::{Exchange, Seat};
use link_door::{MemDoor, MemLink, NoPause};
use rtb_base::Steps;
use rtb_disk::FileDisk;
use rtb_num::{List, Txt};
use std::alloc::{AllocError, Global};
use std::marker::Brand;
use std::sync::Wait;
use std::sync::ledger::{Blank, Ledger};
use std::thread::Threads;
use worker_pool::serve_doors;

// By which addresses are signed where a job wants it.
const KEY: &[u8] = b"0123456789abcdefghijklmnopqrstuv";

// How long a sale is held, in milliseconds.
const TTL: u64 = 1_000;

const SALES: u64 = 4_194_304;

// The most workers.
const MOST: usize = 64;

// So many messages of a door have each a moment of their own; those behind them have the last one.
const MOMENTS: u64 = 100_000;

// How many answers there are, and how many of them are 200.
#[derive(Clone, Copy)]
struct Counts {
    all: u64,
    right: u64,
}

/// Does the job `serve`. Each of its workers has so many links, one after the other, to each of which comes what the next
/// `EACH` bytes of standard input are. Appends how many messages were answered, and how many of these by 200.
pub fn serve<R: Threads + Wait + Sync>(
    rt: &HostRuntime,
    threads: &R,
    job: &[Txt],
    line: &mut Txt,
) -> Result<(), AllocError> {
    let keys = keys_named(word_at(job, 5));
    let done = serve_signed(rt, threads, &keys, job, line);
    drop(keys);
    done
}

// No key, where the word is not `key`.
fn keys_named(word: &[u8]) -> Keys {
    if word != b"key".as_slice() {
        return Keys::none();
    }
    Keys {
        key: Key::new(KEY),
        former: None,
    }
}

// Serves the exchange of the journal in the file, which may be new.
fn serve_signed<R: Threads + Wait + Sync>(
    rt: &HostRuntime,
    threads: &R,
    keys: &Keys,
    job: &[Txt],
    line: &mut Txt,
) -> Result<(), AllocError> {
    let public = Txt::from_slice(rt.alloc(), b"http://ads.example")?;
    let disk = disk_of(rt, word_at(job, 1))?;
    let mut doors = List::new(rt.alloc());
    let filled = put_doors(rt, job, &mut doors);
    let doors = kept(doors, filled)?;
    serve_disk::<R, Brand>(
        threads,
        rt.alloc(),
        &public,
        keys,
        disk,
        doors,
        Blank::new(1),
        line,
    )
}

fn disk_of<'a>(rt: &'a HostRuntime, path: &[u8]) -> Result<FileDisk<'a>, AllocError> {
    let Ok(path) = str::from_utf8(path) else {
        return Err(AllocError);
    };
    match FileDisk::open_alone(rt, path) {
        Ok(disk) => Ok(disk),
        Err(_) => Err(AllocError),
    }
}

// A door for each worker.
fn put_doors(rt: &HostRuntime, job: &[Txt], doors: &mut List<MemDoor>) -> Result<(), AllocError> {
    for _ in 0..number_at(job, 4) {
        let bytes = next_bytes(rt, number_at(job, 2))?;
        let door = door_of(rt.alloc(), bytes.as_bytes(), number_at(job, 3));
        drop(bytes);
        doors.push(door?)?;
    }
    Ok(())
}

// A door with so many links, to each of which these bytes come.
fn door_of(alloc: Global, bytes: &[u8], times: u32) -> Result<MemDoor, AllocError> {
    let mut links = List::new(alloc);
    let filled = put_links(alloc, bytes, times, &mut links);
    let (links, moments) = paired(kept(links, filled), moments(alloc))?;
    open_door(alloc, links, moments)
}

fn put_links(
    alloc: Global,
    bytes: &[u8],
    times: u32,
    links: &mut List<MemLink>,
) -> Result<(), AllocError> {
    for _ in 0..times {
        let text = Txt::from_slice(alloc, bytes)?;
        links.push(MemLink::new(alloc, text, List::new(alloc)))?;
    }
    Ok(())
}

fn moments(alloc: Global) -> Result<List<u64>, AllocError> {
    let mut moments = List::new(alloc);
    for moment in 0..MOMENTS {
        moments.push(moment)?;
    }
    Ok(moments)
}

fn open_door(
    alloc: Global,
    links: List<MemLink>,
    moments: List<u64>,
) -> Result<MemDoor, AllocError> {
    if moments.is_empty() {
        drop(links);
        return Err(AllocError);
    }
    MemDoor::new(alloc, links, moments, List::new(alloc))
}

// Serves the doors over the journal on the disk. Steps are not counted.
fn serve_disk<'a, R: Threads + Wait + Sync, L: Ledger>(
    threads: &R,
    alloc: Global,
    public: &Txt,
    keys: &Keys,
    disk: FileDisk<'a>,
    doors: List<MemDoor>,
    blank: Blank,
    line: &mut Txt,
) -> Result<(), AllocError>
    requires name { blank.name ≡ L.name }
    requires parts { blank.parts ≡ L.parts }
    requires some { 0 < blank.parts }
{
    let mut steps = Steps::<L>::new(blank);
    match Exchange::start(alloc, disk, TTL, SALES, &mut steps) {
        Ok((exchange, seat)) => serve_all(
            threads, alloc, public, keys, exchange, seat, doors, line,
        ),
        Err(refused) => {
            drop(refused);
            drop(doors);
            Err(AllocError)
        }
    }
}

fn serve_all<'a, R: Threads + Wait + Sync>(
    threads: &R,
    alloc: Global,
    public: &Txt,
    keys: &Keys,
    exchange: Exchange<FileDisk<'a>>,
    seat: Seat<FileDisk<'a>>,
    doors: List<MemDoor>,
    line: &mut Txt,
) -> Result<(), AllocError>
    requires seat { MayCall (lock_of exchange) seat }
    requires first { seat ≡ first_seat (lock_of exchange) seat.origin }
{
    let count = doors.len();
    if count < 1 || count > MOST {
        drop(exchange);
        drop(doors);
        return Err(AllocError);
    }
    let pool = serve_doors(
        exchange, threads, alloc, &NoPause, public, keys, seat, doors,
    );
    let told = put_answers(pool.doors.as_slice(), line);
    drop(pool);
    told
}

// How many answers there are, and how many of them are 200.
fn put_answers(doors: &[MemDoor], line: &mut Txt) -> Result<(), AllocError> {
    let mut counts = Counts { all: 0, right: 0 };
    for door in doors {
        counts = with_door(counts, door);
    }
    put_number(b"answers=", counts.all, line)?;
    put_number(b" right=", counts.right, line)?;
    line.extend(b"\n")
}

fn with_door(counts: Counts, door: &MemDoor) -> Counts {
    let mut counts = counts;
    for link in door.served().as_slice() {
        counts = with_text(counts, link.sent().as_bytes());
    }
    counts
}

// A head ends with a blank line, which no body has.
fn with_text(counts: Counts, text: &[u8]) -> Counts {
    let Counts { mut all, mut right } = counts;
    for line in text.split(|byte| *byte == b'\n') {
        if line == b"\r".as_slice() {
            all = all.saturating_add(1);
        }
        if line.ends_with(b"HTTP/1.1 200 OK\r") {
            right = right.saturating_add(1);
        }
    }
    Counts { all, right }
}
