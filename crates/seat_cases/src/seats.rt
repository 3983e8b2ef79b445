//! What one worker does with its seat.
ghost use Rattle.std.specs.Prelude.{◌≡◌, ◌≤◌, None, IfOk, IfSome, IsTrue};
ghost use Rattle.exchange_shared.specs.Seats.{MayBeSettled, Seat as ASeat, lock_of};
ghost use Rattle.exchange_state.specs.Tickets.{version_in};
ghost use Rattle.exchange_state.specs.Views.{out};
ghost use Rattle.rtb_types.specs.Valid.{is_valid};
ghost use Rattle.seat_cases.specs.Hands.{GoesOn, IsHand, WasSought};

use crate::answers::{put_numbered, put_reply};
use exchange_shared::{Changed, Exchange, Found, Published, Seat, Settled, Ticket, Unsettled};
use plain_exchange::{Act, Reply};
use rtb_base::Steps;
use rtb_disk::Disk;
use rtb_num::Txt;
use rtb_types::BidRequest;
use std::alloc::{AllocError, Global};
use std::sync::Wait;
use std::sync::ledger::Ledger;

/// The moment of each command.
pub const MOMENT: u64 = 1000;

/// What a worker has: its seat, and how many effects stood with its last command.
#[derive(Drop)]
pub struct Hand<D: Disk> {
    pub seat: Seat<D>,
    pub upto: u64,
}

/// A version, and the request for which is looked in it.
#[derive(Drop)]
pub struct Sought {
    pub ticket: Ticket,
    pub request: BidRequest,
}

/// What came of a change that was written first.
#[derive(Drop)]
pub struct Landed {
    pub reply: Reply,
    pub durable: bool,
}

/// Carries out an act, in the first turn that finds no change ahead of it; the reply, where
/// memory is there, which is asked for twice.
#[tactic(auto, using(crate::proofs::Hands::stays, crate::proofs::Hands::goes_then))]
pub fn carry_out<D: Disk, R: Wait>(
    rt: &R,
    exchange: &Exchange<D>,
    hand: Hand<D>,
    act: &Act,
) -> (Hand<D>, Result<Reply, AllocError>)
    requires hand { IsHand (lock_of exchange.now) hand }
    ensures { GoesOn (lock_of exchange.now) hand result.0 }
{
    let mut hand = hand;
    let mut refused = false;
    for _ in rt.forever() {
        let (next, carried) = carry_out_once(rt, exchange, hand, act);
        match carried {
            Ok(reply) => return (next, Ok(reply)),
            Err(Unsettled::Memory) if refused => return (next, Err(AllocError)),
            Err(why) => {
                refused = matches!(why, Unsettled::Memory);
                hand = next;
            }
        }
    }
    unreachable!()
}

fn carry_out_once<D: Disk, R: Wait>(
    rt: &R,
    exchange: &Exchange<D>,
    hand: Hand<D>,
    act: &Act,
) -> (Hand<D>, Result<Reply, Unsettled>)
    requires hand { IsHand (lock_of exchange.now) hand }
    ensures { GoesOn (lock_of exchange.now) hand result.0 }
{
    let Hand { seat, upto } = hand;
    let (seat, settled) = exchange.simple(rt, seat, act, MOMENT);
    match settled {
        Ok(settled) => {
            let Settled {
                reply,
                upto,
                durable: _,
            } = settled;
            (Hand { seat, upto }, Ok(reply))
        }
        Err(why) => (Hand { seat, upto }, Err(why)),
    }
}

/// Carries out an act once its effect is written; none where it cannot go ahead.
pub fn change<D: Disk, R: Wait>(
    rt: &R,
    exchange: &Exchange<D>,
    hand: Hand<D>,
    act: &Act,
) -> (Hand<D>, Result<Option<Landed>, AllocError>)
    requires hand { IsHand (lock_of exchange.now) hand }
    ensures { GoesOn (lock_of exchange.now) hand result.0 }
{
    let Hand { seat, upto } = hand;
    let (seat, changed) = exchange.change(rt, seat, act, MOMENT);
    match changed {
        Ok(Changed::Durable(settled)) => {
            let Settled {
                reply,
                upto,
                durable: _,
            } = settled;
            (Hand { seat, upto }, some_landed(reply, true))
        }
        Ok(Changed::StoreFailed(settled)) => {
            let Settled {
                reply,
                upto,
                durable: _,
            } = settled;
            (Hand { seat, upto }, some_landed(reply, false))
        }
        Ok(Changed::NotAlone) => (Hand { seat, upto }, Ok(None)),
        Err(refused) => (Hand { seat, upto }, Err(refused)),
    }
}

fn some_landed(reply: Reply, durable: bool) -> Result<Option<Landed>, AllocError> {
    Ok(Some(Landed { reply, durable }))
}

/// Makes the worker's last command durable; whether it is.
pub fn keep<D: Disk, R: Wait>(rt: &R, exchange: &Exchange<D>, hand: Hand<D>) -> (Hand<D>, bool)
    requires hand { IsHand (lock_of exchange.now) hand }
    ensures { GoesOn (lock_of exchange.now) hand result.0 }
{
    let Hand { seat, upto } = hand;
    match exchange.make_durable(rt, seat, upto) {
        Ok(kept) => (Hand { seat: kept, upto }, true),
        Err(failed) => (
            Hand {
                seat: failed.seat,
                upto,
            },
            false,
        ),
    }
}

/// Writes what is not durable; whether all is.
pub fn flush<D: Disk, R: Wait>(rt: &R, exchange: &Exchange<D>, hand: Hand<D>) -> (Hand<D>, bool)
    requires hand { IsHand (lock_of exchange.now) hand }
    ensures on { GoesOn (lock_of exchange.now) hand result.0 }
    ensures home { out result.0.seat.seen ≡ None }
{
    let Hand { seat, upto } = hand;
    match exchange.flush(rt, seat) {
        Ok(kept) => (Hand { seat: kept, upto }, true),
        Err(failed) => (
            Hand {
                seat: failed.seat,
                upto,
            },
            false,
        ),
    }
}

/// Publishes a version where so many edits make one due, and says its edit.
pub fn publish<D: Disk, R: Wait, L: Ledger>(
    rt: &R,
    alloc: Global,
    exchange: &Exchange<D>,
    hand: Hand<D>,
    after: u64,
    steps: &mut Steps<L>,
    out: &mut Txt,
) -> (Hand<D>, Result<(), AllocError>)
    requires hand { IsHand (lock_of exchange.now) hand }
    requires some { 1 ≤ after }
    ensures { GoesOn (lock_of exchange.now) hand result.0 }
{
    let Hand { seat, upto } = hand;
    let (seat, published) = exchange.republish(rt, alloc, seat, after, steps);
    (Hand { seat, upto }, put_published(published, out))
}

/// Says whether a newer version pays, even in front of an auction.
pub fn put_worn<D: Disk>(exchange: &Exchange<D>, out: &mut Txt) -> Result<(), AllocError> {
    if exchange.is_worn_out() {
        out.extend(b"worn out")
    } else if exchange.is_worn() {
        out.extend(b"worn")
    } else {
        out.extend(b"not worn")
    }
}

fn put_published(
    published: Result<Published, AllocError>,
    out: &mut Txt,
) -> Result<(), AllocError> {
    match published {
        Ok(Published::New { edit }) => put_numbered(b"version", edit, out),
        Ok(Published::Kept { edit }) => put_numbered(b"kept", edit, out),
        Err(refused) => Err(refused),
    }
}

/// Looks at the version for the request.
pub fn seek<D: Disk, R: Wait>(
    rt: &R,
    exchange: &Exchange<D>,
    hand: Hand<D>,
    request: BidRequest,
) -> (Hand<D>, Result<Sought, AllocError>)
    requires hand { IsHand (lock_of exchange.now) hand }
    requires valid { IsTrue (is_valid request) }
    ensures on { GoesOn (lock_of exchange.now) hand result.0 }
    ensures sought { IfOk result.1 (WasSought result.0.seat) }
{
    let Hand { seat, upto } = hand;
    let (seat, ticket) = exchange.begin(rt, seat);
    match ticket {
        Ok(ticket) => (Hand { seat, upto }, Ok(Sought { ticket, request })),
        Err(refused) => {
            drop(request);
            (Hand { seat, upto }, Err(refused))
        }
    }
}

/// Finds in the version that was looked at, sells over that, and says the reply.
pub fn settle<D: Disk, R: Wait, L: Ledger>(
    rt: &R,
    alloc: Global,
    exchange: &Exchange<D>,
    hand: Hand<D>,
    sought: Sought,
    steps: &mut Steps<L>,
    out: &mut Txt,
) -> (Hand<D>, Result<(), AllocError>)
    requires hand { IsHand (lock_of exchange.now) hand }
    requires sought { WasSought hand.seat sought }
    ensures { GoesOn (lock_of exchange.now) hand result.0 }
{
    let Sought { ticket, request } = sought;
    let settled = settle_for(rt, alloc, exchange, hand, ticket, &request, steps, out);
    drop(request);
    settled
}

fn settle_for<D: Disk, R: Wait, L: Ledger>(
    rt: &R,
    alloc: Global,
    exchange: &Exchange<D>,
    hand: Hand<D>,
    ticket: Ticket,
    request: &BidRequest,
    steps: &mut Steps<L>,
    out: &mut Txt,
) -> (Hand<D>, Result<(), AllocError>)
    requires hand { IsHand (lock_of exchange.now) hand }
    requires sought { WasSought hand.seat (record { ticket = ticket; request = request.now }) }
    ensures { GoesOn (lock_of exchange.now) hand result.0 }
{
    match ticket.find(alloc, request, steps) {
        Ok(found) => settle_found(rt, exchange, hand, ticket, found, steps, out),
        Err(refused) => {
            drop(ticket);
            (hand, Err(refused))
        }
    }
}

fn settle_found<D: Disk, R: Wait, L: Ledger>(
    rt: &R,
    exchange: &Exchange<D>,
    hand: Hand<D>,
    ticket: Ticket,
    found: Found<'_>,
    steps: &mut Steps<L>,
    out: &mut Txt,
) -> (Hand<D>, Result<(), AllocError>)
    requires hand { IsHand (lock_of exchange.now) hand }
    requires valid { IsTrue (is_valid found.asked) }
    requires found { MayBeSettled hand.seat (version_in ticket) found.asked found.candidates }
    ensures { GoesOn (lock_of exchange.now) hand result.0 }
{
    let Hand { seat, upto } = hand;
    let (seat, settled) = exchange.settle(rt, seat, ticket, found, MOMENT, steps);
    match settled {
        Ok(settled) => {
            let Settled {
                reply,
                upto,
                durable: _,
            } = settled;
            let told = put_reply(&reply, out);
            drop(reply);
            (Hand { seat, upto }, told)
        }
        Err(why) => (Hand { seat, upto }, put_unsettled(why, out)),
    }
}

fn put_unsettled(why: Unsettled, out: &mut Txt) -> Result<(), AllocError> {
    match why {
        Unsettled::Memory => Err(AllocError),
        Unsettled::Held => out.extend(b"held"),
    }
}
