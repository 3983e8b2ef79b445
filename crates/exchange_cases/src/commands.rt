//! Calls of `command_read` and `rtb_response`: what a message asks for, and the answer to a reply.
use crate::answers::{put_answer, put_reply};
use crate::sent::message_of;
use address_keys::Keys;
use budget_book::Totals;
use campaign::Facts;
use campaign_store::Limit;
use case_lines::{done, number_in};
use command_read::{CommandFault, read_command};
use http_wire::Message;
use plain_exchange::{Act, Command, Look, Reply};
use rtb_num::{Micros, Nanos, Txt, write_decimal};
use std::alloc::{AllocError, Global};

/// Answers a call of this area, or tells that it is none.
///
/// - `command | METHOD | TARGET | BODY`: the command that the message asks for: `auction REQUEST`, `add SEAT BID`,
///   `change CAMPAIGN SEAT BID`, `pause N`, `resume N`, `report N`, `bill N`, `lose N` or `forget N`, the bid in micro-dollars;
///   or the refusal: its status, its methods if it has any, and its body.
/// - `reply | NAME | NUMBER`: the answer to the reply of that name, with status and body. The number is that of a
///   campaign or of a sale, how many sales are left where 1 is forgotten for `trimmed`, and the committed sum in nano-dollars for `below-committed`; other replies have none.
/// - `report | STATE | AMOUNT`: the answer to the report on campaign 1, `live` or `paused`. Its bid is of so many
///   micro-dollars and its budget of 1000 times as many nano-dollars. Half of it was spent and a tenth is reserved,
///   in 3 held sales, 2 billed, 1 lost and 4 expired.
/// - `full | LIMIT`: the answer where that limit would be passed.
pub fn answer(alloc: Global, call: &[u8], args: &[Txt], out: &mut Txt) -> Result<bool, AllocError> {
    match args {
        [method, target, body] if call == b"command".as_slice() => {
            done(put_asked(alloc, method, target, body, out))
        }
        [name, number] if call == b"reply".as_slice() => {
            done(put_reply_of(alloc, name.as_bytes(), number.as_bytes(), out))
        }
        [state, amount] if call == b"report".as_slice() => {
            let micros = number_in(amount.as_bytes()).unwrap_or(0);
            done(put_report(alloc, state.as_bytes(), micros, out))
        }
        [limit] if call == b"full".as_slice() => done(put_full(alloc, limit.as_bytes(), out)),
        _ => Ok(false),
    }
}

fn put_asked(
    alloc: Global,
    method: &Txt,
    target: &Txt,
    body: &Txt,
    out: &mut Txt,
) -> Result<(), AllocError> {
    let message = message_of(alloc, method.as_bytes(), target.as_bytes(), body.as_bytes())?;
    let written = put_reading(alloc, &message, out);
    drop(message);
    written
}

fn put_reading(alloc: Global, message: &Message, out: &mut Txt) -> Result<(), AllocError> {
    let keys = Keys::none();
    let read = read_command(alloc, &keys, message);
    drop(keys);
    let written = put_read(&read, out);
    drop(read);
    written
}

fn put_read(read: &Result<Command, CommandFault>, out: &mut Txt) -> Result<(), AllocError> {
    match read {
        Ok(command) => put_command(command, out),
        Err(CommandFault::Refused { refusal }) => put_answer(refusal, out),
        Err(CommandFault::Memory) => Err(AllocError),
    }
}

fn put_command(command: &Command, out: &mut Txt) -> Result<(), AllocError> {
    match command {
        Command::Auction(request) => out.extend_all(&[b"auction ", request.id.as_bytes()]),
        Command::Act(act) => put_act(act, out),
    }
}

fn put_act(act: &Act, out: &mut Txt) -> Result<(), AllocError> {
    match act {
        Act::Add(facts, _) => put_facts(b"add", facts, out),
        Act::Change(n, facts, _) => {
            put_number(b"change ", *n, out)?;
            put_facts(b"", facts, out)
        }
        Act::Pause(n) => put_number(b"pause ", *n, out),
        Act::Resume(n) => put_number(b"resume ", *n, out),
        Act::Bill(n) => put_number(b"bill ", *n, out),
        Act::Lose(n) => put_number(b"lose ", *n, out),
        Act::Forget(keep) => put_number(b"forget ", *keep, out),
        Act::Look(Look::Report(n)) => put_number(b"report ", *n, out),
    }
}

fn put_facts(word: &[u8], facts: &Facts, out: &mut Txt) -> Result<(), AllocError> {
    out.extend_all(&[word, b" ", facts.seat().as_bytes()])?;
    put_number(b" ", facts.bid().get(), out)
}

fn put_number(word: &[u8], n: u64, out: &mut Txt) -> Result<(), AllocError> {
    out.extend(word)?;
    write_decimal(n, out)
}

fn put_reply_of(
    alloc: Global,
    name: &[u8],
    number: &[u8],
    out: &mut Txt,
) -> Result<(), AllocError> {
    match reply_of(name, number_in(number).unwrap_or(0)) {
        Some(reply) => put_answer_to(alloc, reply, out),
        None => out.extend(b"no such reply"),
    }
}

fn put_answer_to(alloc: Global, reply: Reply, out: &mut Txt) -> Result<(), AllocError> {
    let written = put_reply(alloc, None, &reply, None, out);
    drop(reply);
    written
}

fn reply_of(name: &[u8], number: u64) -> Option<Reply> {
    match reply_of_campaign(name, u32::try_from(number).unwrap_or(0)) {
        Some(reply) => Some(reply),
        None => reply_of_sale_or_sum(name, number),
    }
}

fn reply_of_sale_or_sum(name: &[u8], number: u64) -> Option<Reply> {
    match reply_of_sale(name, number) {
        Some(reply) => Some(reply),
        None => reply_of_sum(name, number),
    }
}

fn reply_of_sum(name: &[u8], sum: u64) -> Option<Reply> {
    if name == b"no-bid".as_slice() {
        return Some(Reply::NoBid);
    }
    if name == b"below-committed".as_slice() {
        return Some(Reply::BelowCommitted {
            committed: Nanos::new(sum)?,
        });
    }
    None
}

fn reply_of_campaign(name: &[u8], n: u32) -> Option<Reply> {
    if name == b"added".as_slice() {
        return Some(Reply::Added { n });
    }
    if name == b"changed".as_slice() {
        return Some(Reply::Changed { n });
    }
    if name == b"paused".as_slice() {
        return Some(Reply::Paused { n });
    }
    if name == b"resumed".as_slice() {
        return Some(Reply::Resumed { n });
    }
    if name == b"no-such-campaign".as_slice() {
        return Some(Reply::NoSuchCampaign);
    }
    None
}

fn reply_of_sale(name: &[u8], sale: u64) -> Option<Reply> {
    if name == b"billed".as_slice() {
        return Some(Reply::Billed { sale });
    }
    if name == b"lost".as_slice() {
        return Some(Reply::Lost { sale });
    }
    if name == b"trimmed".as_slice() {
        return Some(Reply::Trimmed {
            sales: sale,
            forgotten: 1,
        });
    }
    if name == b"no-such-sale".as_slice() {
        return Some(Reply::NoSuchSale);
    }
    if name == b"was-lost".as_slice() {
        return Some(Reply::WasLost);
    }
    if name == b"was-billed".as_slice() {
        return Some(Reply::WasBilled);
    }
    if name == b"was-expired".as_slice() {
        return Some(Reply::WasExpired);
    }
    if name == b"forgotten".as_slice() {
        return Some(Reply::Forgotten);
    }
    None
}

fn put_report(alloc: Global, state: &[u8], micros: u64, out: &mut Txt) -> Result<(), AllocError> {
    match report_of(state == b"live".as_slice(), micros) {
        Some(reply) => put_answer_to(alloc, reply, out),
        None => out.extend(b"no such amount"),
    }
}

fn report_of(live: bool, micros: u64) -> Option<Reply> {
    let bid = Micros::new(micros)?;
    let budget = times(micros, 1000)?;
    let totals = Totals {
        reserved: times(micros, 100)?,
        spent: times(micros, 500)?,
        held: 3,
        billed: 2,
        lost: 1,
        expired: 4,
    };
    Some(Reply::Reported {
        n: 1,
        live,
        bid,
        budget,
        totals,
    })
}

// So many times so many nano-dollars.
fn times(nanos: u64, count: u64) -> Option<Nanos> {
    Nanos::new(nanos.checked_mul(count)?)
}

fn put_full(alloc: Global, limit: &[u8], out: &mut Txt) -> Result<(), AllocError> {
    match limit_of(limit) {
        Some(limit) => put_answer_to(alloc, Reply::Full { limit }, out),
        None => out.extend(b"no such limit"),
    }
}

fn limit_of(name: &[u8]) -> Option<Limit> {
    if name == b"sales".as_slice() {
        return Some(Limit::Sales);
    }
    if name == b"campaigns".as_slice() {
        return Some(Limit::Campaigns);
    }
    if name == b"conjunctions".as_slice() {
        return Some(Limit::Conjunctions);
    }
    if name == b"values".as_slice() {
        return Some(Limit::Values);
    }
    if name == b"text-bytes".as_slice() {
        return Some(Limit::TextBytes);
    }
    None
}
