//! The run of a start, with its trace and its counts.
ghost use Rattle.std.specs.Prelude.{◌≡◌, ◌<◌, ◌++◌, IfOk, OnOk, false, true};
ghost use Rattle.exchange_shared.specs.Seats.{MayCall, lock_of};
ghost use Rattle.hist_lock.specs.Views.{first_seat};
ghost use Rattle.made_run.specs.Runs.{IsCounted, IsMade, counts_line, numbered, reserved_text};

use crate::answers::Tells;
use crate::disk::RunDisk;
use crate::gathering::{count, gather};
use crate::serving::Server;
use address_keys::Keys;
use exchange_shared::{Exchange, Seat};
use rtb_base::Steps;
use rtb_disk::Disk;
use rtb_num::{Nanos, Txt, write_decimal, write_nanos};
use std::alloc::{AllocError, Global};
use std::marker::Brand;
use std::sync::Wait;
use std::sync::ledger::{Blank, Ledger};

/// For how many milliseconds a sale is held.
pub(crate) const TTL: u64 = 300_000;

/// How many sales the list is to have at most.
pub(crate) const SALES: u64 = 4_194_304;

/// What the addresses of notices begin with.
pub(crate) const PUBLIC: &[u8] = b"http://make.example";

/// What a run comes to.
#[derive(Drop)]
pub struct Made {
    /// Its trace (`docs/FORMATS.md`), empty where it was counted alone.
    pub trace: Txt,
    /// How many requests were sold.
    pub sold: u64,
    /// How many were not.
    pub no_bid: u64,
    /// What is reserved behind it.
    pub reserved: Nanos,
}

/// Makes the run of the start, with so many requests.
///
/// An answer that is not the one of an exchange of one thread was given for want of memory, and so there is no run then.
pub fn make_run<R: Wait>(
    alloc: Global,
    rt: &R,
    start: u64,
    requests: u32,
) -> Result<Made, AllocError>
    ensures made { IfOk result (λ made. IsMade start requests made) }
{
    make(alloc, rt, start, requests, true)
}

/// The same without its trace, which is not kept in memory then.
pub fn count_run<R: Wait>(
    alloc: Global,
    rt: &R,
    start: u64,
    requests: u32,
) -> Result<Made, AllocError>
    ensures counted { IfOk result (λ made. IsCounted start requests made) }
{
    make(alloc, rt, start, requests, false)
}

// Makes the run, and keeps its trace or not.
fn make<R: Wait>(
    alloc: Global,
    rt: &R,
    start: u64,
    requests: u32,
    keeps: bool,
) -> Result<Made, AllocError>
    ensures made { keeps ≡ true → IfOk result (λ made. IsMade start requests made) }
    ensures counted { keeps ≡ false → IfOk result (λ made. IsCounted start requests made) }
{
    let public = Txt::from_slice(alloc, PUBLIC)?;
    let keys = Keys::none();
    let disk = RunDisk::new(alloc);
    make_on::<RunDisk, Brand, R>(
        alloc,
        rt,
        start,
        requests,
        keeps,
        &public,
        &keys,
        disk,
        Blank::new(1),
    )
}

// Opens an exchange on the disk, and makes the run over it. The steps are not counted.
fn make_on<D: Disk + Drop, L: Ledger, R: Wait>(
    alloc: Global,
    rt: &R,
    start: u64,
    requests: u32,
    keeps: bool,
    public: &Txt,
    keys: &Keys,
    disk: D,
    blank: Blank,
) -> Result<Made, AllocError>
    requires name { blank.name ≡ L.name }
    requires parts { blank.parts ≡ L.parts }
    requires some { 0 < blank.parts }
    ensures made { keeps ≡ true → IfOk result (λ made. IsMade start requests made) }
    ensures counted { keeps ≡ false → IfOk result (λ made. IsCounted start requests made) }
{
    let mut steps = Steps::<L>::new(blank);
    match Exchange::start(alloc, disk, TTL, SALES, &mut steps) {
        Ok((exchange, seat)) => {
            let made = make_with(
                alloc, rt, start, requests, keeps, public, keys, &exchange, seat,
            );
            drop(exchange);
            made
        }
        Err((disk, _)) => {
            drop(disk);
            Err(AllocError)
        }
    }
}

// The same, over an exchange that was opened. It and its disk are of no use then.
fn make_with<D: Disk + Drop, R: Wait>(
    alloc: Global,
    rt: &R,
    start: u64,
    requests: u32,
    keeps: bool,
    public: &Txt,
    keys: &Keys,
    exchange: &Exchange<D>,
    seat: Seat<D>,
) -> Result<Made, AllocError>
    requires seat { MayCall (lock_of exchange.now) seat }
    requires first { seat ≡ first_seat (lock_of exchange.now) seat.origin }
    ensures made { keeps ≡ true → IfOk result (λ made. IsMade start requests made) }
    ensures counted { keeps ≡ false → IfOk result (λ made. IsCounted start requests made) }
{
    let mut server = Server::new(alloc, rt, exchange, seat, public, keys, start, requests);
    let made = made_by(alloc, start, requests, keeps, &mut server);
    drop(server);
    made
}

// The run that these answers make.
fn made_by<A: Tells>(
    alloc: Global,
    start: u64,
    requests: u32,
    keeps: bool,
    answers: &mut A,
) -> Result<Made, AllocError>
    ensures made { keeps ≡ true → IfOk result (λ made. IsMade start requests made) }
    ensures counted { keeps ≡ false → IfOk result (λ made. IsCounted start requests made) }
{
    if keeps {
        gather(alloc, start, requests, answers)
    } else {
        count(alloc, start, requests, answers)
    }
}

/// Appends the line that tells the counts.
pub fn put_counts(requests: u64, made: &Made, out: &mut Txt) -> Result<(), AllocError>
    ensures ok { OnOk result (out.new ≡ out.old ++ counts_line requests made.now) }
{
    put_number(b"campaigns=100 requests=", requests, out)?;
    put_number(b" sold=", made.sold, out)?;
    put_number(b" nobid=", made.no_bid, out)?;
    put_reserved(made.reserved, out)
}

#[tactic(auto, unfolding(crate::specs::Runs::numbered))]
fn put_number(before: &[u8], number: u64, out: &mut Txt) -> Result<(), AllocError>
    ensures { OnOk result (out.new ≡ out.old ++ numbered before.now number) }
{
    out.extend(before)?;
    write_decimal(number, out)?;
    Ok(())
}

#[tactic(auto, unfolding(crate::specs::Runs::reserved_text))]
fn put_reserved(reserved: Nanos, out: &mut Txt) -> Result<(), AllocError>
    ensures { OnOk result (out.new ≡ out.old ++ reserved_text reserved) }
{
    out.extend(b" reserved=")?;
    write_nanos(reserved, out)?;
    out.extend(b"\n")?;
    Ok(())
}
