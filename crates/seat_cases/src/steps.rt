//! One command of two workers.
ghost use Rattle.std.specs.Prelude.{◌≡◌, IfOk, IfSome};
ghost use Rattle.exchange_shared.specs.Seats.{lock_of};
ghost use Rattle.seat_cases.specs.Hands.{AreTwo, GoesOn, IsHand, WasSought};

use crate::answers::{number_at, put_done, put_mark, put_numbered, put_reply, word_at};
use crate::seats::{
    Hand, Landed, Sought, carry_out, change, flush, keep, publish, put_worn, seek, settle,
};
use crate::session::Two;
use case_messages::{REQUEST, campaign_named, command_of};
use exchange_shared::Exchange;
use plain_exchange::{Act, Command, Reply};
use rtb_base::Steps;
use rtb_disk::Disk;
use rtb_num::{Txt, write_decimal};
use std::alloc::{AllocError, Global};
use std::sync::Wait;
use std::sync::ledger::Ledger;

/// Answers the command; `session.rt` says what it does. Where that finds no memory it is tried once more.
pub fn step<D: Disk + Drop, R: Wait, L: Ledger>(
    rt: &R,
    alloc: Global,
    exchange: &Exchange<D>,
    two: Two<D>,
    command: &[u8],
    steps: &mut Steps<L>,
    out: &mut Txt,
) -> (Two<D>, Result<(), AllocError>)
    requires { AreTwo (lock_of exchange.now) two }
    ensures { AreTwo (lock_of exchange.now) result.0 }
{
    let before = out.len();
    let (two, told) = step_once(rt, alloc, exchange, two, command, steps, out);
    if told.is_ok() {
        return (two, told);
    }
    out.truncate(before);
    step_once(rt, alloc, exchange, two, command, steps, out)
}

fn step_once<D: Disk + Drop, R: Wait, L: Ledger>(
    rt: &R,
    alloc: Global,
    exchange: &Exchange<D>,
    two: Two<D>,
    command: &[u8],
    steps: &mut Steps<L>,
    out: &mut Txt,
) -> (Two<D>, Result<(), AllocError>)
    requires { AreTwo (lock_of exchange.now) two }
    ensures { AreTwo (lock_of exchange.now) result.0 }
{
    let marked = put_mark(out);
    if marked.is_err() {
        return (two, marked);
    }
    if word_at(command, 0) == b"A".as_slice() {
        return step_a(rt, alloc, exchange, two, command, steps, out);
    }
    step_b(rt, alloc, exchange, two, word_at(command, 1), steps, out)
}

fn step_a<D: Disk + Drop, R: Wait, L: Ledger>(
    rt: &R,
    alloc: Global,
    exchange: &Exchange<D>,
    two: Two<D>,
    command: &[u8],
    steps: &mut Steps<L>,
    out: &mut Txt,
) -> (Two<D>, Result<(), AllocError>)
    requires { AreTwo (lock_of exchange.now) two }
    ensures { AreTwo (lock_of exchange.now) result.0 }
{
    let Two {
        first,
        second,
        sought,
    } = two;
    let (first, told) = step_first(rt, alloc, exchange, first, command, steps, out);
    let two = Two {
        first,
        second,
        sought,
    };
    (two, told)
}

fn step_b<D: Disk + Drop, R: Wait, L: Ledger>(
    rt: &R,
    alloc: Global,
    exchange: &Exchange<D>,
    two: Two<D>,
    word: &[u8],
    steps: &mut Steps<L>,
    out: &mut Txt,
) -> (Two<D>, Result<(), AllocError>)
    requires { AreTwo (lock_of exchange.now) two }
    ensures { AreTwo (lock_of exchange.now) result.0 }
{
    let Two {
        first,
        second,
        sought,
    } = two;
    let (second, sought, told) = step_second(rt, alloc, exchange, second, sought, word, steps, out);
    let two = Two {
        first,
        second,
        sought,
    };
    (two, told)
}

// ---- A

fn step_first<D: Disk + Drop, R: Wait, L: Ledger>(
    rt: &R,
    alloc: Global,
    exchange: &Exchange<D>,
    hand: Hand<D>,
    command: &[u8],
    steps: &mut Steps<L>,
    out: &mut Txt,
) -> (Hand<D>, Result<(), AllocError>)
    requires { IsHand (lock_of exchange.now) hand }
    ensures { GoesOn (lock_of exchange.now) hand result.0 }
{
    let word = word_at(command, 1);
    if word == b"post".as_slice() || word == b"change".as_slice() {
        return post(rt, alloc, exchange, hand, command, out);
    }
    if word == b"turn".as_slice() {
        let (hand, done) = turn(
            rt,
            exchange,
            hand,
            number_at(command, 2),
            number_at(command, 3),
        );
        return (hand, write_decimal(done, out));
    }
    if word == b"publish".as_slice() {
        let after = number_at(command, 2).max(1);
        return publish(rt, alloc, exchange, hand, after, steps, out);
    }
    if word == b"worn".as_slice() {
        return (hand, put_worn(exchange, out));
    }
    if word == b"flush".as_slice() {
        let (hand, done) = flush(rt, exchange, hand);
        return (hand, put_done(b"flushed", done, out));
    }
    keep_told(rt, exchange, hand, out)
}

fn keep_told<D: Disk, R: Wait>(
    rt: &R,
    exchange: &Exchange<D>,
    hand: Hand<D>,
    out: &mut Txt,
) -> (Hand<D>, Result<(), AllocError>)
    requires { IsHand (lock_of exchange.now) hand }
    ensures { GoesOn (lock_of exchange.now) hand result.0 }
{
    let (hand, kept) = keep(rt, exchange, hand);
    (hand, put_done(b"durable", kept, out))
}

fn post<D: Disk, R: Wait>(
    rt: &R,
    alloc: Global,
    exchange: &Exchange<D>,
    hand: Hand<D>,
    command: &[u8],
    out: &mut Txt,
) -> (Hand<D>, Result<(), AllocError>)
    requires { IsHand (lock_of exchange.now) hand }
    ensures { GoesOn (lock_of exchange.now) hand result.0 }
{
    let body = campaign_named(word_at(command, 3));
    match command_of(alloc, word_at(command, 2), body) {
        Ok(Some(asked)) => {
            let ahead = word_at(command, 1) == b"change".as_slice();
            let (hand, told) = post_one(rt, exchange, hand, &asked, ahead, out);
            drop(asked);
            (hand, told)
        }
        Ok(None) => (hand, out.extend(b"refused")),
        Err(refused) => (hand, Err(refused)),
    }
}

fn post_one<D: Disk, R: Wait>(
    rt: &R,
    exchange: &Exchange<D>,
    hand: Hand<D>,
    asked: &Command,
    ahead: bool,
    out: &mut Txt,
) -> (Hand<D>, Result<(), AllocError>)
    requires { IsHand (lock_of exchange.now) hand }
    ensures { GoesOn (lock_of exchange.now) hand result.0 }
{
    match asked {
        Command::Auction(_) => (hand, out.extend(b"an auction")),
        Command::Act(act) => post_act(rt, exchange, hand, act, ahead, out),
    }
}

fn post_act<D: Disk, R: Wait>(
    rt: &R,
    exchange: &Exchange<D>,
    hand: Hand<D>,
    act: &Act,
    ahead: bool,
    out: &mut Txt,
) -> (Hand<D>, Result<(), AllocError>)
    requires { IsHand (lock_of exchange.now) hand }
    ensures { GoesOn (lock_of exchange.now) hand result.0 }
{
    if ahead {
        let (hand, landed) = change(rt, exchange, hand, act);
        return (hand, put_changed(landed, out));
    }
    let (hand, reply) = carry_out(rt, exchange, hand, act);
    (hand, put_carried(reply, out))
}

fn put_changed(
    landed: Result<Option<Landed>, AllocError>,
    out: &mut Txt,
) -> Result<(), AllocError> {
    match landed? {
        Some(landed) => {
            let told = put_landed(&landed, out);
            drop(landed);
            told
        }
        None => out.extend(b"not alone"),
    }
}

fn put_landed(landed: &Landed, out: &mut Txt) -> Result<(), AllocError> {
    put_reply(&landed.reply, out)?;
    out.extend(b", ")?;
    put_done(b"durable", landed.durable, out)
}

fn put_carried(reply: Result<Reply, AllocError>, out: &mut Txt) -> Result<(), AllocError> {
    let reply = reply?;
    let told = put_reply(&reply, out);
    drop(reply);
    told
}

// Pauses campaign n and resumes it in turn, so many times at most. How often it was done.
#[tactic(auto, using(crate::proofs::Hands::stays, crate::proofs::Hands::goes_then))]
fn turn<D: Disk, R: Wait>(
    rt: &R,
    exchange: &Exchange<D>,
    hand: Hand<D>,
    times: u64,
    n: u64,
) -> (Hand<D>, u64)
    requires { IsHand (lock_of exchange.now) hand }
    ensures { GoesOn (lock_of exchange.now) hand result.0 }
{
    let mut hand = hand;
    for i in 0..times {
        let (next, done) = turn_at(rt, exchange, hand, i, n);
        hand = next;
        if !done {
            return (hand, i);
        }
    }
    (hand, times)
}

fn turn_at<D: Disk, R: Wait>(
    rt: &R,
    exchange: &Exchange<D>,
    hand: Hand<D>,
    i: u64,
    n: u64,
) -> (Hand<D>, bool)
    requires { IsHand (lock_of exchange.now) hand }
    ensures { GoesOn (lock_of exchange.now) hand result.0 }
{
    let act = turned(i, n);
    let (hand, reply) = carry_out(rt, exchange, hand, &act);
    drop(act);
    (hand, is_turned(reply))
}

fn turned(i: u64, n: u64) -> Act {
    if i % 2 == 0 {
        return Act::Pause(n);
    }
    Act::Resume(n)
}

fn is_turned(reply: Result<Reply, AllocError>) -> bool {
    match reply {
        Ok(reply) => {
            let done = matches!(&reply, Reply::Paused { .. } | Reply::Resumed { .. });
            drop(reply);
            done
        }
        Err(_) => false,
    }
}

// ---- B

fn step_second<D: Disk + Drop, R: Wait, L: Ledger>(
    rt: &R,
    alloc: Global,
    exchange: &Exchange<D>,
    hand: Hand<D>,
    sought: Option<Sought>,
    word: &[u8],
    steps: &mut Steps<L>,
    out: &mut Txt,
) -> (Hand<D>, Option<Sought>, Result<(), AllocError>)
    requires hand { IsHand (lock_of exchange.now) hand }
    requires sought { IfSome sought (WasSought hand.seat) }
    ensures on { GoesOn (lock_of exchange.now) hand result.0 }
    ensures sought { IfSome result.1 (WasSought result.0.seat) }
{
    if word == b"settle".as_slice() {
        return settle_sought(rt, alloc, exchange, hand, sought, steps, out);
    }
    drop(sought);
    if word == b"find".as_slice() {
        return find(rt, alloc, exchange, hand, out);
    }
    let (hand, told) = keep_told(rt, exchange, hand, out);
    (hand, None, told)
}

#[tactic(auto, using(crate::proofs::Hands::goes_then))]
fn settle_sought<D: Disk, R: Wait, L: Ledger>(
    rt: &R,
    alloc: Global,
    exchange: &Exchange<D>,
    hand: Hand<D>,
    sought: Option<Sought>,
    steps: &mut Steps<L>,
    out: &mut Txt,
) -> (Hand<D>, Option<Sought>, Result<(), AllocError>)
    requires hand { IsHand (lock_of exchange.now) hand }
    requires sought { IfSome sought (WasSought hand.seat) }
    ensures on { GoesOn (lock_of exchange.now) hand result.0 }
    ensures sought { IfSome result.1 (WasSought result.0.seat) }
{
    if let Some(sought) = sought {
        let (hand, told) = settle(rt, alloc, exchange, hand, sought, steps, out);
        return (hand, None, told);
    }
    let (hand, found) = sought_now(rt, alloc, exchange, hand);
    match found {
        Ok(sought) => {
            let (hand, told) = settle(rt, alloc, exchange, hand, sought, steps, out);
            (hand, None, told)
        }
        Err(refused) => (hand, None, Err(refused)),
    }
}

fn find<D: Disk, R: Wait>(
    rt: &R,
    alloc: Global,
    exchange: &Exchange<D>,
    hand: Hand<D>,
    out: &mut Txt,
) -> (Hand<D>, Option<Sought>, Result<(), AllocError>)
    requires hand { IsHand (lock_of exchange.now) hand }
    ensures on { GoesOn (lock_of exchange.now) hand result.0 }
    ensures sought { IfSome result.1 (WasSought result.0.seat) }
{
    let (hand, found) = sought_now(rt, alloc, exchange, hand);
    match found {
        Ok(sought) => {
            let edit = sought.ticket.version.edit;
            (hand, Some(sought), put_numbered(b"version", edit, out))
        }
        Err(refused) => (hand, None, Err(refused)),
    }
}

// The present version, and the request for which is looked in it.
fn sought_now<D: Disk, R: Wait>(
    rt: &R,
    alloc: Global,
    exchange: &Exchange<D>,
    hand: Hand<D>,
) -> (Hand<D>, Result<Sought, AllocError>)
    requires hand { IsHand (lock_of exchange.now) hand }
    ensures on { GoesOn (lock_of exchange.now) hand result.0 }
    ensures sought { IfOk result.1 (WasSought result.0.seat) }
{
    match command_of(alloc, b"/openrtb2/auction", REQUEST) {
        Ok(Some(Command::Auction(request))) => seek(rt, exchange, hand, request),
        Ok(other) => {
            drop(other);
            (hand, Err(AllocError))
        }
        Err(refused) => (hand, Err(refused)),
    }
}
