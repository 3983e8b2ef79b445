//! The command `serve`: the journal opened, a door for each worker, and the links of all doors served.
ghost use Rattle.std.specs.Prelude.{◌≡◌, ◌<◌, ◌^◌, ℕ, [], List, Option, None, IfErr, IfOk, MatchResult, length, true};
ghost use Rattle.std.specs.Io.KnownBytes.{Appends};
ghost use Rattle.exchange_shared.specs.Opening.{IsOriginOver};
ghost use Rattle.exchange_shared.specs.Seats.{IsOrdered, MayCall, lock_of};
ghost use Rattle.exchange_state.specs.Standing.{SaysFront, SaysSomeSince};
ghost use Rattle.exchange_state.specs.Tickets.{IsLegalFrom};
ghost use Rattle.exchange_state.specs.Views.{calls, failures, faults_told};
ghost use Rattle.hist_lock.specs.Views.{first_seat};
ghost use Rattle.rtb_base.specs.Faults.{RisesOnlyWhere, RoseBy};
ghost use Rattle.rtb_disk.specs.Stores.{EachImage};
ghost use Rattle.rtb_io.specs.Statuses.{code_of};
ghost use Rattle.rtb_io.specs.declared.status.Status.TheVariants.{NotWritten};
ghost use Rattle.run_commands.specs.Given.{GivesJournal, GivesNoJournal};
ghost use Rattle.worker_pool.specs.Pools.{KeepsBudgets};
ghost use Rattle.run_commands.specs.Serve.{Announces, EndsBehind, EndsWithoutDoors, IsRefused, IsRun, Serves, ServesWith, first_line, workers_of};
ghost use Rattle.run_commands.specs.Served.{settings_of};

use crate::journals::end_at;
use crate::named_keys::read_keys;
use crate::outcome::Outcome;
use crate::status_lines::end_with;
use address_keys::Keys;
use exchange_shared::{Exchange, Seat};
use exchange_state::ExchangeState;
use hist_lock::Past;
use journal_file::JournalFault;
use link_door::{Door, Link, Pause, World, WorldFault};
use rtb_base::Steps;
use rtb_disk::Disk;
use rtb_io::{Status, write_all};
use rtb_num::{Failed, List, Sink, Txt, write_decimal};
use run_words::ServeOptions;
use std::alloc::{AllocError, Global};
use std::marker::Brand;
use std::sync::Wait;
use std::sync::ledger::{Blank, Ledger};
use std::thread::Threads;
use worker_pool::{Pool, PoolEnd, budgets_hold_at_each_place, serve_doors};

/// Runs the command `serve`: reads the keys that are named, opens the journal, opens a door for each worker, says that it serves, and serves the links
/// that come through the doors, each worker one link after the other, until no more will come. Then it writes once more
/// what is not durable.
///
/// It ends with status 0, or 3 where the world gave no doors, 4 where it gave no disk, as where the journal has to be there
/// and is not, or has nothing in it, 5 where the disk failed while the
/// journal was opened, 6 where the journal is damaged, 8 where a door failed, 9 for want of memory, 11 where the last
/// write failed, or 16 where a key that is named was not read or is none, each with a line of its own; and in place of each of them 7, where the sink failed. Where the sink fails
/// at the first line, nothing is served.
pub fn serve<W: World, P: Pause + Sync, K: Sink, R: Threads + Wait + Sync>(
    alloc: Global,
    options: &ServeOptions,
    world: &mut W,
    pause: &P,
    sink: &mut K,
    rt: &R,
) -> Outcome<W>
    ensures serves { Serves ⟦<W as World>⟧ ⟦<W::Disk as Disk>⟧ ⟦<W::Door as Door>⟧ ⟦<<W::Door as Door>::Link as Link>⟧ options.now world.old world.new (K.written sink.old) (K.written sink.new) result.status result.doors result.disk result.past }
    ensures other { result.other ≡ None }
    ensures last { result.last ≡ None }
    ensures cause { RisesOnlyWhere (result.status ≡ code_of NotWritten) (K.faults sink.old) (K.faults sink.new) }
{
    match first_line(alloc, options) {
        Ok(line) => {
            let outcome = serve_keys(alloc, options, &line, world, pause, sink, rt);
            drop(line);
            outcome
        }
        Err(AllocError) => Outcome::without_world(alloc, end_with(Status::Memory, sink).code()),
    }
}

// The same, with the line.
fn serve_keys<W: World, P: Pause + Sync, K: Sink, R: Threads + Wait + Sync>(
    alloc: Global,
    options: &ServeOptions,
    line: &Txt,
    world: &mut W,
    pause: &P,
    sink: &mut K,
    rt: &R,
) -> Outcome<W>
    requires line { line.now ≡ first_line options.now }
    ensures serves { Serves ⟦<W as World>⟧ ⟦<W::Disk as Disk>⟧ ⟦<W::Door as Door>⟧ ⟦<<W::Door as Door>::Link as Link>⟧ options.now world.old world.new (K.written sink.old) (K.written sink.new) result.status result.doors result.disk result.past }
    ensures other { result.other ≡ None }
    ensures last { result.last ≡ None }
    ensures cause { RisesOnlyWhere (result.status ≡ code_of NotWritten) (K.faults sink.old) (K.faults sink.new) }
{
    match read_keys(world, &options.key, &options.former_key) {
        Ok(keys) => {
            let tools = Tools {
                alloc,
                options,
                keys: &keys,
                line,
                pause,
                rt,
            };
            let outcome = serve_journal(&tools, world, sink);
            drop(keys);
            outcome
        }
        Err(Failed) => {
            let status = end_with(Status::NoKey, sink);
            Outcome::without_world(alloc, status.code())
        }
    }
}

// What the command is given, its first line, which is made before anything is asked of the world, and the keys.
#[derive(Clone, Copy)]
struct Tools<'a, P, R> {
    alloc: Global,
    options: &'a ServeOptions,
    keys: &'a Keys,
    line: &'a Txt,
    pause: &'a P,
    rt: &'a R,
}

fn first_line(alloc: Global, options: &ServeOptions) -> Result<Txt, AllocError>
    ensures { IfOk result (λ line. line ≡ first_line options.now) }
{
    let workers = workers_of(options);
    let mut line = Txt::new(alloc);
    line.extend(b"serving with ")?;
    write_decimal(u64::from(workers), &mut line)?;
    line.extend(b" workers\n")?;
    Ok(line)
}

// As many workers as the words tell: from 1 to this.
const MOST_WORKERS: u64 = 64;

fn workers_of(options: &ServeOptions) -> u32
    ensures workers { result ≡ workers_of options.now }
    ensures some { 0 < result }
{
    options.workers.max(1).min(MOST_WORKERS) as u32
}

// The same, with the keys.
fn serve_journal<'a, W: World, P: Pause + Sync, K: Sink, R: Threads + Wait + Sync>(
    tools: &Tools<'a, P, R>,
    world: &mut W,
    sink: &mut K,
) -> Outcome<W>
    requires line { tools.now.line.now ≡ first_line tools.now.options.now }
    ensures serves { ServesWith ⟦<W as World>⟧ ⟦<W::Disk as Disk>⟧ ⟦<W::Door as Door>⟧ ⟦<<W::Door as Door>::Link as Link>⟧ tools.now.options.now tools.now.keys.now world.old world.new (K.written sink.old) (K.written sink.new) result.status result.doors result.disk result.past }
    ensures other { result.other ≡ None }
    ensures last { result.last ≡ None }
    ensures cause { RisesOnlyWhere (result.status ≡ code_of NotWritten) (K.faults sink.old) (K.faults sink.new) }
{
    match journal_disk(tools.options, world) {
        Ok(disk) => serve_disk(tools, world, sink, disk),
        Err(Failed) => {
            let status = end_with(Status::NoDisk, sink);
            Outcome::without_world(tools.alloc, status.code())
        }
    }
}

// The disk of the journal: one that is there, where it has to be.
fn journal_disk<W: World>(options: &ServeOptions, world: &mut W) -> Result<W::Disk, Failed>
    ensures { MatchResult result (GivesJournal ⟦<W as World>⟧ ⟦<W::Disk as Disk>⟧ options.now.existing options.now.journal world.old world.new) (λ _. GivesNoJournal ⟦<W as World>⟧ options.now.existing options.now.journal world.old world.new) }
{
    if options.existing {
        return world.disk_there(&options.journal);
    }
    world.disk(&options.journal)
}

// The same, with the disk that the world gave.
fn serve_disk<'a, W: World, P: Pause + Sync, K: Sink, R: Threads + Wait + Sync>(
    tools: &Tools<'a, P, R>,
    world: &mut W,
    sink: &mut K,
    disk: W::Disk,
) -> Outcome<W>
    requires line { tools.now.line.now ≡ first_line tools.now.options.now }
    ensures serves { (before : W) → GivesJournal ⟦<W as World>⟧ ⟦<W::Disk as Disk>⟧ tools.now.options.now.existing tools.now.options.now.journal before world.old disk
        → ServesWith ⟦<W as World>⟧ ⟦<W::Disk as Disk>⟧ ⟦<W::Door as Door>⟧ ⟦<<W::Door as Door>::Link as Link>⟧ tools.now.options.now tools.now.keys.now before world.new (K.written sink.old) (K.written sink.new) result.status result.doors result.disk result.past }
    ensures other { result.other ≡ None }
    ensures last { result.last ≡ None }
    ensures cause { RisesOnlyWhere (result.status ≡ code_of NotWritten) (K.faults sink.old) (K.faults sink.new) }
{
    match open::<W::Disk, Brand>(tools.alloc, disk, tools.options, Blank::new(1)) {
        Ok((exchange, seat)) => serve_exchange(tools, world, sink, exchange, seat),
        Err((disk, fault)) => {
            let status = end_at(tools.alloc, fault, sink);
            Outcome::with_disk(tools.alloc, status, disk)
        }
    }
}

// Opens the journal on the disk. The steps are not counted.
fn open<D: Disk, L: Ledger>(
    alloc: Global,
    disk: D,
    options: &ServeOptions,
    blank: Blank,
) -> Result<(Exchange<D>, Seat<D>), (D, JournalFault)>
    requires name { blank.name ≡ L.name }
    requires parts { blank.parts ≡ L.parts }
    requires some { 0 < blank.parts }
    ensures first { IfOk result (λ r. r.1 ≡ first_seat (lock_of r.0) r.1.origin) }
    ensures seat { IfOk result (λ r. MayCall (lock_of r.0) r.1) }
    ensures origin { IfOk result (λ r. IsOriginOver (D.store disk) (D.faults disk) (settings_of options.now) r.1.origin) }
    ensures refused { IfErr result (λ e. IsRefused ⟦<D as Disk>⟧ disk e.0 e.1) }
{
    let mut steps = Steps::<L>::new(blank);
    Exchange::start(alloc, disk, options.ttl, options.sales, &mut steps)
}

// The same, with the exchange that was opened from the disk.
fn serve_exchange<'a, W: World, P: Pause + Sync, K: Sink, R: Threads + Wait + Sync>(
    tools: &Tools<'a, P, R>,
    world: &mut W,
    sink: &mut K,
    exchange: Exchange<W::Disk>,
    seat: Seat<W::Disk>,
) -> Outcome<W>
    requires line { tools.now.line.now ≡ first_line tools.now.options.now }
    requires seat { MayCall (lock_of exchange) seat }
    requires first { seat ≡ first_seat (lock_of exchange) seat.origin }
    ensures serves { (before : W) (disk : W.Disk) → GivesJournal ⟦<W as World>⟧ ⟦<W::Disk as Disk>⟧ tools.now.options.now.existing tools.now.options.now.journal before world.old disk
        → IsOriginOver (W.Disk.store disk) (W.Disk.faults disk) (settings_of tools.now.options.now) seat.origin
        → ServesWith ⟦<W as World>⟧ ⟦<W::Disk as Disk>⟧ ⟦<W::Door as Door>⟧ ⟦<<W::Door as Door>::Link as Link>⟧ tools.now.options.now tools.now.keys.now before world.new (K.written sink.old) (K.written sink.new) result.status result.doors result.disk result.past }
    ensures other { result.other ≡ None }
    ensures last { result.last ≡ None }
    ensures cause { RisesOnlyWhere (result.status ≡ code_of NotWritten) (K.faults sink.old) (K.faults sink.new) }
{
    let workers = workers_of(tools.options);
    match world.doors(
        tools.alloc,
        &tools.options.listen,
        workers,
        tools.options.patience,
    ) {
        Ok(doors) => {
            let ended = announce(tools, sink, exchange, seat, doors);
            let Ended {
                doors,
                disk,
                past,
                status,
            } = ended;
            Outcome::with_past(status, doors, disk, past)
        }
        Err(fault) => {
            let status = end_without_doors(fault, sink);
            let (disk, past) = close_idle(exchange, seat);
            Outcome::with_past(status, List::new(tools.alloc), disk, past)
        }
    }
}

pub(crate) fn end_without_doors<K: Sink>(fault: WorldFault, sink: &mut K) -> Status
    ensures ends { EndsWithoutDoors fault (K.written sink.old) (K.written sink.new) (code_of result) }
    ensures cause { RisesOnlyWhere (result ≡ NotWritten) (K.faults sink.old) (K.faults sink.new) }
{
    match fault {
        WorldFault::Failed => end_with(Status::NoDoor, sink),
        WorldFault::Memory => end_with(Status::Memory, sink),
    }
}

// Closes an exchange in which nothing came.
fn close_idle<D: Disk>(exchange: Exchange<D>, seat: Seat<D>) -> (D, Past<ExchangeState<D>>)
    requires seat { MayCall (lock_of exchange) seat }
    requires first { seat ≡ first_seat (lock_of exchange) seat.origin }
    ensures origin { result.1.origin ≡ seat.origin }
    ensures untouched { result.1.seen ≡ [] }
    ensures order { IsOrdered result.1.origin result.1.seen }
    ensures legal { IsLegalFrom result.1.origin (calls result.1.seen) }
    ensures budgets { KeepsBudgets result.1 }
    ensures crash { result.1.origin.told ≡ true → EachImage (SaysFront result.1.origin result.1.seen) (D.store result.0).now }
    ensures since { result.1.origin.told ≡ true → SaysSomeSince result.1.origin result.1.seen (D.store result.0) }
    ensures faults { D.faults result.0 ≡ faults_told result.1.origin result.1.seen }
    ensures failed { RoseBy (failures result.1.seen) result.1.origin.faults (D.faults result.0) }
{
    budgets_hold_at_each_place();
    exchange.close(seat)
}

// How the serving ended, and what it was done with.
struct Ended<D: Disk, G> {
    doors: List<G>,
    disk: D,
    past: Past<ExchangeState<D>>,
    status: Status,
}

// Says that it serves, and serves the doors.
fn announce<
    'a,
    D: Disk + Send,
    G: Door + Drop + Send,
    P: Pause + Sync,
    K: Sink,
    R: Threads + Wait + Sync,
>(
    tools: &Tools<'a, P, R>,
    sink: &mut K,
    exchange: Exchange<D>,
    seat: Seat<D>,
    doors: List<G>,
) -> Ended<D, G>
    requires line { tools.now.line.now ≡ first_line tools.now.options.now }
    requires seat { MayCall (lock_of exchange) seat }
    requires first { seat ≡ first_seat (lock_of exchange) seat.origin }
    requires some { 0 < length doors }
    requires few { length doors < 2 ^ 32 }
    ensures announces { (disk : D) → IsOriginOver (D.store disk) (D.faults disk) (settings_of tools.now.options.now) seat.origin
        → Announces ⟦<D as Disk>⟧ ⟦<G as Door>⟧ ⟦<<G as Door>::Link as Link>⟧ tools.now.options.now tools.now.keys.now disk result.disk doors result.doors result.past (K.written sink.old) (K.written sink.new) (code_of result.status) }
    ensures cause { RisesOnlyWhere (result.status ≡ NotWritten) (K.faults sink.old) (K.faults sink.new) }
{
    match write_all(sink, tools.line.as_bytes()) {
        Ok(()) => serve_all(tools, sink, exchange, seat, doors),
        Err(Failed) => {
            let (disk, past) = close_idle(exchange, seat);
            Ended {
                doors,
                disk,
                past,
                status: Status::NotWritten,
            }
        }
    }
}

// Serves the doors behind the first line.
fn serve_all<
    'a,
    D: Disk + Send,
    G: Door + Drop + Send,
    P: Pause + Sync,
    K: Sink,
    R: Threads + Wait + Sync,
>(
    tools: &Tools<'a, P, R>,
    sink: &mut K,
    exchange: Exchange<D>,
    seat: Seat<D>,
    doors: List<G>,
) -> Ended<D, G>
    requires seat { MayCall (lock_of exchange) seat }
    requires first { seat ≡ first_seat (lock_of exchange) seat.origin }
    requires some { 0 < length doors }
    requires few { length doors < 2 ^ 32 }
    ensures run { (disk : D) (before : Option (List ℕ)) → IsOriginOver (D.store disk) (D.faults disk) (settings_of tools.now.options.now) seat.origin → Appends before (K.written sink.old) (first_line tools.now.options.now)
        → IsRun ⟦<D as Disk>⟧ ⟦<G as Door>⟧ ⟦<<G as Door>::Link as Link>⟧ tools.now.options.now tools.now.keys.now disk result.disk doors result.doors result.past before (K.written sink.new) (code_of result.status) }
    ensures cause { RisesOnlyWhere (result.status ≡ NotWritten) (K.faults sink.old) (K.faults sink.new) }
{
    let public = &tools.options.public;
    let pool = serve_doors(
        exchange,
        tools.rt,
        tools.alloc,
        tools.pause,
        public,
        tools.keys,
        seat,
        doors,
    );
    let Pool {
        doors,
        disk,
        past,
        end,
    } = pool;
    Ended {
        doors,
        disk,
        past,
        status: end_behind(end, sink),
    }
}

// What is left to be written once the doors were served.
fn end_behind<K: Sink>(end: PoolEnd, sink: &mut K) -> Status
    ensures ends { EndsBehind end (K.written sink.old) (K.written sink.new) (code_of result) }
    ensures cause { RisesOnlyWhere (result ≡ NotWritten) (K.faults sink.old) (K.faults sink.new) }
{
    match end {
        PoolEnd::Served => Status::Done,
        PoolEnd::DoorFailed => end_with(Status::DoorFailed, sink),
        PoolEnd::LastWriteFailed => end_with(Status::LastWriteFailed, sink),
        PoolEnd::Memory => end_with(Status::Memory, sink),
    }
}
