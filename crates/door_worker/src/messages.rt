//! One message answered.
ghost use Rattle.std.specs.Prelude.{◌≡◌, ◌<◌, ◌≤◌, [], true, Ok, IfOk, IsTrue, OnErr, OnOk};
ghost use Rattle.auction_core.specs.Draft.{is_valid_command};
ghost use Rattle.command_read.specs.Commands.{IsCommandOf};
ghost use Rattle.auction_core.specs.Found.{AreFound};
ghost use Rattle.conj_index.specs.Campaigns.{DoRise};
ghost use Rattle.conj_index.specs.Content.{IsIndexOf};
ghost use Rattle.door_worker.specs.Answers.{Goes, IsPublished, is_edit};
ghost use Rattle.door_worker.specs.Languages.{rtb};
ghost use Rattle.door_worker.specs.Working.{AnswersOne, Concludes, Entered, Tells};
ghost use Rattle.exchange_shared.specs.Seats.{IsOrdered, MayBeSettled, MayCall, effects_in, lock_of};
ghost use Rattle.exchange_state.specs.Tickets.{version_in};
ghost use Rattle.exchange_state.specs.Views.{stable};
ghost use Rattle.index_versions.specs.Versions.{campaigns_of};
ghost use Rattle.http_wire.specs.declared.message.Message.{Message as AMessage};
ghost use Rattle.plain_exchange.specs.declared.commands.Command.TheVariants.{Act as AnAct, Auction as AnAuction};
ghost use Rattle.rtb_types.specs.Valid.{is_valid};
ghost use Rattle.session.specs.Talk.{IsGivable};

use crate::commands::{edits, given_for, given_unread, is_edit, note_limit, request_in};
use crate::worker::Tools;
use auction_core::{Act, Command, Reply};
use command_read::{Rooms, read_command_in};
use conj_index::Scratch;
use exchange_shared::{Changed, Exchange, Found, Seat, Settled, StoreFailed, Ticket, Unsettled};
use http_wire::Message;
use link_door::Pause;
use rtb_base::Steps;
use rtb_disk::Disk;
use rtb_types::BidRequest;
use session::Given;
use std::alloc::AllocError;
use std::marker::Brand;
use std::sync::Wait;
use std::sync::ledger::{Blank, Ledger};

// How many edits may stand behind the present version when an edit is answered.
const EDITS_DUE: u64 = 2048;

/// Answers the message, which is taken up at the moment. Campaigns are found in the one room, and a body is read in
/// the other.
#[tactic(auto, using(crate::proofs::Answering::valid_as_read))]
pub(crate) fn answer<'e, D: Disk, R: Wait, P: Pause>(
    exchange: &Exchange<D>,
    tools: &Tools<'e, R, P>,
    scratch: &mut Scratch,
    rooms: &mut Rooms,
    seat: Seat<D>,
    message: &Message,
    moment: u64,
) -> (Seat<D>, Given)
    requires seat { MayCall (lock_of exchange.now) seat }
    ensures seat { MayCall (lock_of exchange.now) result.0 }
    ensures answers { AnswersOne (rtb tools.now.public.now tools.now.keys.now) moment seat message.now result.1 result.0 }
    ensures writable { IsGivable result.1 }
{
    match read_command_in(tools.alloc, rooms, tools.keys, message) {
        Ok(command) => {
            let answered = answer_command(exchange, tools, scratch, seat, &command, moment);
            drop(command);
            answered
        }
        Err(fault) => (seat, given_unread(fault)),
    }
}

fn answer_command<'e, D: Disk, R: Wait, P: Pause>(
    exchange: &Exchange<D>,
    tools: &Tools<'e, R, P>,
    scratch: &mut Scratch,
    seat: Seat<D>,
    command: &Command,
    moment: u64,
) -> (Seat<D>, Given)
    requires seat { MayCall (lock_of exchange.now) seat }
    requires valid { IsTrue (is_valid_command command.now) }
    ensures seat { MayCall (lock_of exchange.now) result.0 }
    ensures answers { (message : AMessage) → IsCommandOf tools.now.keys.now message (Ok command.now) → AnswersOne (rtb tools.now.public.now tools.now.keys.now) moment seat message result.1 result.0 }
    ensures writable { IsGivable result.1 }
{
    match command {
        Command::Act(act) if edits(act) && !exchange.is_shared() => {
            answer_edit(exchange, tools, scratch, seat, command, act, moment)
        }
        _ => answer_in_turn(exchange, tools, scratch, seat, command, moment),
    }
}

// Answers an edit that comes alone: it is written before it is carried out, so that auctions do not wait for the disk.
fn answer_edit<'e, D: Disk, R: Wait, P: Pause>(
    exchange: &Exchange<D>,
    tools: &Tools<'e, R, P>,
    scratch: &mut Scratch,
    seat: Seat<D>,
    command: &Command,
    act: &Act,
    moment: u64,
) -> (Seat<D>, Given)
    requires seat { MayCall (lock_of exchange.now) seat }
    requires acts { command.now ≡ AnAct act.now }
    ensures seat { MayCall (lock_of exchange.now) result.0 }
    ensures answers { (message : AMessage) → IsCommandOf tools.now.keys.now message (Ok command.now) → AnswersOne (rtb tools.now.public.now tools.now.keys.now) moment seat message result.1 result.0 }
    ensures writable { IsGivable result.1 }
{
    let (seat, changed) = exchange.change(tools.rt, seat, act, moment);
    match changed {
        Ok(Changed::Durable(settled)) => tell_edit(exchange, tools, seat, command, settled),
        Ok(Changed::StoreFailed(settled)) => {
            drop(settled);
            (seat, Given::StoreFailed)
        }
        Ok(Changed::NotAlone) => { answer_in_turn(exchange, tools, scratch, seat, command, moment) }
        Err(AllocError) => (seat, Given::Memory),
    }
}

// What is given for an edit that is durable.
fn tell_edit<'e, D: Disk, R: Wait, P: Pause>(
    exchange: &Exchange<D>,
    tools: &Tools<'e, R, P>,
    seat: Seat<D>,
    command: &Command,
    settled: Settled,
) -> (Seat<D>, Given)
    requires seat { MayCall (lock_of exchange.now) seat }
    requires order { IsOrdered seat.origin seat.seen }
    ensures seat { MayCall (lock_of exchange.now) result.0 }
    ensures told { Tells (rtb tools.now.public.now tools.now.keys.now) command.now settled.reply seat result.1 result.0 }
    ensures order { IsOrdered result.0.origin result.0.seen }
    ensures writable { IsGivable result.1 }
{
    let told = tell(exchange, tools, seat, command, &settled.reply);
    drop(settled);
    told
}

// Answers a command that is carried out and then written.
fn answer_in_turn<'e, D: Disk, R: Wait, P: Pause>(
    exchange: &Exchange<D>,
    tools: &Tools<'e, R, P>,
    scratch: &mut Scratch,
    seat: Seat<D>,
    command: &Command,
    moment: u64,
) -> (Seat<D>, Given)
    requires seat { MayCall (lock_of exchange.now) seat }
    requires valid { IsTrue (is_valid_command command.now) }
    ensures seat { MayCall (lock_of exchange.now) result.0 }
    ensures answers { (message : AMessage) → IsCommandOf tools.now.keys.now message (Ok command.now) → AnswersOne (rtb tools.now.public.now tools.now.keys.now) moment seat message result.1 result.0 }
    ensures writable { IsGivable result.1 }
{
    let (seat, settled) = enter(exchange, tools, scratch, seat, command, moment);
    match settled {
        Ok(settled) => conclude(exchange, tools, seat, command, settled),
        Err(AllocError) => (seat, Given::Memory),
    }
}

// Carries the command out in a turn of the exchange, the first that finds no change ahead of it.
fn enter<'e, D: Disk, R: Wait, P: Pause>(
    exchange: &Exchange<D>,
    tools: &Tools<'e, R, P>,
    scratch: &mut Scratch,
    seat: Seat<D>,
    command: &Command,
    moment: u64,
) -> (Seat<D>, Result<Settled, AllocError>)
    requires seat { MayCall (lock_of exchange.now) seat }
    requires valid { IsTrue (is_valid_command command.now) }
    ensures seat { MayCall (lock_of exchange.now) result.0 }
    ensures entered { IfOk result.1 (Entered command.now moment seat result.0) }
    ensures none { OnErr result.1 (Goes [] 0 seat result.0) }
    ensures order { IsOrdered result.0.origin result.0.seen }
{
    let mut seat = seat;
    for _ in tools.rt.forever() {
        let (now, settled) = enter_once(exchange, tools, scratch, seat, command, moment);
        match settled {
            Ok(settled) => return (now, Ok(settled)),
            Err(Unsettled::Memory) => return (now, Err(AllocError)),
            Err(Unsettled::Held) => seat = now,
        }
    }
    unreachable!()
}

// Carries the command out, where no change is ahead of it.
fn enter_once<'e, D: Disk, R: Wait, P: Pause>(
    exchange: &Exchange<D>,
    tools: &Tools<'e, R, P>,
    scratch: &mut Scratch,
    seat: Seat<D>,
    command: &Command,
    moment: u64,
) -> (Seat<D>, Result<Settled, Unsettled>)
    requires seat { MayCall (lock_of exchange.now) seat }
    requires valid { IsTrue (is_valid_command command.now) }
    ensures seat { MayCall (lock_of exchange.now) result.0 }
    ensures entered { IfOk result.1 (Entered command.now moment seat result.0) }
    ensures none { OnErr result.1 (Goes [] 0 seat result.0) }
    ensures order { IsOrdered result.0.origin result.0.seen }
{
    match command {
        Command::Auction(request) => sell(exchange, tools, scratch, seat, request, moment),
        Command::Act(act) => edit_or_report(exchange, tools, seat, act, moment),
    }
}

// Sells over the campaigns that are found in the present version, which is a new one where the last is worn out.
fn sell<'e, D: Disk, R: Wait, P: Pause>(
    exchange: &Exchange<D>,
    tools: &Tools<'e, R, P>,
    scratch: &mut Scratch,
    seat: Seat<D>,
    request: &BidRequest,
    moment: u64,
) -> (Seat<D>, Result<Settled, Unsettled>)
    requires seat { MayCall (lock_of exchange.now) seat }
    requires valid { IsTrue (is_valid request.now) }
    ensures seat { MayCall (lock_of exchange.now) result.0 }
    ensures entered { IfOk result.1 (Entered (AnAuction request.now) moment seat result.0) }
    ensures none { OnErr result.1 (Goes [] 0 seat result.0) }
    ensures order { IsOrdered result.0.origin result.0.seen }
{
    let worn = exchange.is_worn_out();
    let seat = renew::<D, R, P, Brand>(exchange, tools, seat, worn, Blank::new(1));
    sell_found(exchange, tools, scratch, seat, request, moment)
}

// Publishes a version where the present one is worn. Where memory is short, the present one serves on.
fn renew<'e, D: Disk, R: Wait, P: Pause, L: Ledger>(
    exchange: &Exchange<D>,
    tools: &Tools<'e, R, P>,
    seat: Seat<D>,
    worn: bool,
    blank: Blank,
) -> Seat<D>
    requires name { blank.name ≡ L.name }
    requires parts { blank.parts ≡ L.parts }
    requires some { 0 < blank.parts }
    requires seat { MayCall (lock_of exchange.now) seat }
    ensures seat { MayCall (lock_of exchange.now) result }
    ensures goes { Goes [] 0 seat result }
{
    if !worn {
        return seat;
    }
    let mut steps = Steps::<L>::new(blank);
    let (seat, _) = exchange.republish(tools.rt, tools.alloc, seat, 1, &mut steps);
    seat
}

// Sells over the campaigns that are found in the present version.
fn sell_found<'e, D: Disk, R: Wait, P: Pause>(
    exchange: &Exchange<D>,
    tools: &Tools<'e, R, P>,
    scratch: &mut Scratch,
    seat: Seat<D>,
    request: &BidRequest,
    moment: u64,
) -> (Seat<D>, Result<Settled, Unsettled>)
    requires seat { MayCall (lock_of exchange.now) seat }
    requires valid { IsTrue (is_valid request.now) }
    ensures seat { MayCall (lock_of exchange.now) result.0 }
    ensures entered { IfOk result.1 (Entered (AnAuction request.now) moment seat result.0) }
    ensures none { OnErr result.1 (Goes [] 0 seat result.0) }
    ensures order { IsOrdered result.0.origin result.0.seen }
{
    let (seat, ticket) = exchange.begin(tools.rt, seat);
    match ticket {
        Ok(ticket) => match find::<R, P, Brand>(tools, scratch, &ticket, request, Blank::new(1)) {
            Ok(found) => {
                tools.pause.between(tools.number);
                settle::<D, R, P, Brand>(
                    exchange,
                    tools,
                    seat,
                    ticket,
                    found,
                    moment,
                    Blank::new(1),
                )
            }
            Err(AllocError) => {
                drop(ticket);
                (seat, Err(Unsettled::Memory))
            }
        },
        Err(AllocError) => (seat, Err(Unsettled::Memory)),
    }
}

// What is found in the ticket's version. The steps are not counted.
fn find<'e, 'r, R: Wait, P: Pause, L: Ledger>(
    tools: &Tools<'e, R, P>,
    scratch: &mut Scratch,
    ticket: &Ticket,
    request: &'r BidRequest,
    blank: Blank,
) -> Result<Found<'r>, AllocError>
    requires name { blank.name ≡ L.name }
    requires parts { blank.parts ≡ L.parts }
    requires some { 0 < blank.parts }
    ensures asked { IfOk result (λ f. f.asked ≡ request.now) }
    ensures found { IfOk result (λ f. DoRise (campaigns_of (version_in ticket.now).live) → IsIndexOf (campaigns_of (version_in ticket.now).live) (version_in ticket.now).index → AreFound (version_in ticket.now).live request.now f.candidates) }
{
    let mut steps = Steps::<L>::new(blank);
    ticket.find_with(tools.alloc, scratch, request, &mut steps)
}

fn settle<'e, D: Disk, R: Wait, P: Pause, L: Ledger>(
    exchange: &Exchange<D>,
    tools: &Tools<'e, R, P>,
    seat: Seat<D>,
    ticket: Ticket,
    found: Found<'_>,
    moment: u64,
    blank: Blank,
) -> (Seat<D>, Result<Settled, Unsettled>)
    requires name { blank.name ≡ L.name }
    requires parts { blank.parts ≡ L.parts }
    requires some { 0 < blank.parts }
    requires seat { MayCall (lock_of exchange.now) seat }
    requires valid { IsTrue (is_valid found.asked) }
    requires found { MayBeSettled seat (version_in ticket) found.asked found.candidates }
    ensures seat { MayCall (lock_of exchange.now) result.0 }
    ensures entered { IfOk result.1 (Entered (AnAuction found.entry.asked) moment seat result.0) }
    ensures none { OnErr result.1 (Goes [] 0 seat result.0) }
    ensures order { IsOrdered result.0.origin result.0.seen }
{
    let mut steps = Steps::<L>::new(blank);
    exchange.settle(tools.rt, seat, ticket, found, moment, &mut steps)
}

// Carries out an act, which needs nothing found.
fn edit_or_report<'e, D: Disk, R: Wait, P: Pause>(
    exchange: &Exchange<D>,
    tools: &Tools<'e, R, P>,
    seat: Seat<D>,
    act: &Act,
    moment: u64,
) -> (Seat<D>, Result<Settled, Unsettled>)
    requires seat { MayCall (lock_of exchange.now) seat }
    ensures seat { MayCall (lock_of exchange.now) result.0 }
    ensures entered { IfOk result.1 (Entered (AnAct act.now) moment seat result.0) }
    ensures none { OnErr result.1 (Goes [] 0 seat result.0) }
    ensures order { IsOrdered result.0.origin result.0.seen }
{
    exchange.simple(tools.rt, seat, act, moment)
}

// Waits until the effects are durable, and tells what is given for the reply.
fn conclude<'e, D: Disk, R: Wait, P: Pause>(
    exchange: &Exchange<D>,
    tools: &Tools<'e, R, P>,
    seat: Seat<D>,
    command: &Command,
    settled: Settled,
) -> (Seat<D>, Given)
    requires seat { MayCall (lock_of exchange.now) seat }
    requires order { IsOrdered seat.origin seat.seen }
    requires upto { settled.upto ≡ effects_in seat.origin seat.seen }
    requires durable { settled.durable ≡ stable seat.seen }
    ensures seat { MayCall (lock_of exchange.now) result.0 }
    ensures concluded { Concludes (rtb tools.now.public.now tools.now.keys.now) command.now settled.reply seat result.1 result.0 }
    ensures order { IsOrdered result.0.origin result.0.seen }
    ensures writable { IsGivable result.1 }
{
    let Settled {
        reply,
        upto,
        durable,
    } = settled;
    let concluded = make_durable(exchange, tools, seat, command, &reply, upto, durable);
    drop(reply);
    concluded
}

// Where as many effects were durable when the command was carried out, nothing is waited for.
fn make_durable<'e, D: Disk, R: Wait, P: Pause>(
    exchange: &Exchange<D>,
    tools: &Tools<'e, R, P>,
    seat: Seat<D>,
    command: &Command,
    reply: &Reply,
    upto: u64,
    durable: u64,
) -> (Seat<D>, Given)
    requires seat { MayCall (lock_of exchange.now) seat }
    requires order { IsOrdered seat.origin seat.seen }
    requires upto { upto ≡ effects_in seat.origin seat.seen }
    requires durable { durable ≡ stable seat.seen }
    ensures seat { MayCall (lock_of exchange.now) result.0 }
    ensures concluded { Concludes (rtb tools.now.public.now tools.now.keys.now) command.now reply.now seat result.1 result.0 }
    ensures order { IsOrdered result.0.origin result.0.seen }
    ensures writable { IsGivable result.1 }
{
    if upto <= durable {
        return tell(exchange, tools, seat, command, reply);
    }
    match exchange.make_durable(tools.rt, seat, upto) {
        Ok(seat) => tell(exchange, tools, seat, command, reply),
        Err(StoreFailed { seat }) => (seat, Given::StoreFailed),
    }
}

// What is given for the reply, whose effects are durable, once a version is published where one is due.
fn tell<'e, D: Disk, R: Wait, P: Pause>(
    exchange: &Exchange<D>,
    tools: &Tools<'e, R, P>,
    seat: Seat<D>,
    command: &Command,
    reply: &Reply,
) -> (Seat<D>, Given)
    requires seat { MayCall (lock_of exchange.now) seat }
    requires order { IsOrdered seat.origin seat.seen }
    ensures seat { MayCall (lock_of exchange.now) result.0 }
    ensures told { Tells (rtb tools.now.public.now tools.now.keys.now) command.now reply.now seat result.1 result.0 }
    ensures order { IsOrdered result.0.origin result.0.seen }
    ensures writable { IsGivable result.1 }
{
    note_limit(tools.pause, reply);
    let (seat, published) = publish_edit::<D, R, P, Brand>(
        exchange,
        tools,
        seat,
        command,
        Blank::new(1),
    );
    match published {
        Ok(()) => (
            seat,
            given_for(
                tools.alloc,
                request_in(command),
                reply,
                tools.public,
                tools.keys,
            ),
        ),
        Err(AllocError) => (seat, Given::MemoryLate),
    }
}

// Behind an edit: publishes a version where the present one is worn, and where one is due. Only where one is due a want
// of memory counts.
fn publish_edit<'e, D: Disk, R: Wait, P: Pause, L: Ledger>(
    exchange: &Exchange<D>,
    tools: &Tools<'e, R, P>,
    seat: Seat<D>,
    command: &Command,
    blank: Blank,
) -> (Seat<D>, Result<(), AllocError>)
    requires name { blank.name ≡ L.name }
    requires parts { blank.parts ≡ L.parts }
    requires some { 0 < blank.parts }
    requires seat { MayCall (lock_of exchange.now) seat }
    requires order { IsOrdered seat.origin seat.seen }
    ensures seat { MayCall (lock_of exchange.now) result.0 }
    ensures goes { Goes [] 0 seat result.0 }
    ensures published { OnOk result.1 (is_edit command.now ≡ true → IsPublished 0 result.0.worker result.0.origin result.0.seen) }
    ensures order { IsOrdered result.0.origin result.0.seen }
{
    if !is_edit(command) {
        return (seat, Ok(()));
    }
    let worn = exchange.is_worn();
    let seat = renew::<D, R, P, Brand>(exchange, tools, seat, worn, Blank::new(1));
    let mut steps = Steps::<L>::new(blank);
    let (seat, published) = exchange.republish(tools.rt, tools.alloc, seat, EDITS_DUE, &mut steps);
    match published {
        Ok(_) => (seat, Ok(())),
        Err(AllocError) => (seat, Err(AllocError)),
    }
}
