//! Calls of `rtb_response` for impressions that were sold.
use crate::answers::put_reply;
use crate::sent::message_of;
use address_keys::Keys;
use bumpalo::Bump;
use campaign_read::read_campaign;
use campaign_store::{SharedRecord, make_record};
use case_lines::{done, kept};
use command_read::read_command;
use exact_json::{Doc, read};
use http_wire::Message;
use plain_exchange::{Command, Reply, Sold};
use rtb_num::{List, Micros, Txt};
use std::alloc::{AllocError, Global};

/// Answers a call of this area, or tells that it is none.
///
/// - `sold | PUBLIC | REQUEST | SALE | ..`: the answer to a request of which impression after impression was sold,
///   where the addresses of notices begin with PUBLIC; without it there are none. A SALE is
///   `PRICE NUMBER DEAL CAMPAIGN`: the price in micro-dollars, the number of the campaign, `-` or the id of a deal,
///   and the campaign's body.
pub fn answer(alloc: Global, call: &[u8], args: &[Txt], out: &mut Txt) -> Result<bool, AllocError> {
    match args {
        [public, request, sales @ ..] if call == b"sold".as_slice() => {
            done(put_sold(alloc, public, request, sales, out))
        }
        _ => Ok(false),
    }
}

fn put_sold(
    alloc: Global,
    public: &Txt,
    request: &Txt,
    sales: &[Txt],
    out: &mut Txt,
) -> Result<(), AllocError> {
    let reply = Reply::Sold(sales_of(alloc, sales)?);
    let public = if public.is_empty() {
        None
    } else {
        Some(public)
    };
    let written = put_answer_to(alloc, request, &reply, public, out);
    drop(reply);
    written
}

fn sales_of(alloc: Global, sales: &[Txt]) -> Result<List<Sold>, AllocError> {
    let mut sold = List::new(alloc);
    let filled = push_sales(alloc, sales, &mut sold);
    kept(sold, filled)
}

fn push_sales(alloc: Global, sales: &[Txt], sold: &mut List<Sold>) -> Result<(), AllocError> {
    for sale in sales {
        push_sale(alloc, sale.as_bytes(), sold)?;
    }
    Ok(())
}

fn put_answer_to(
    alloc: Global,
    request: &Txt,
    reply: &Reply,
    public: Option<&Txt>,
    out: &mut Txt,
) -> Result<(), AllocError> {
    let message = message_of(alloc, b"POST", b"/openrtb2/auction", request.as_bytes())?;
    let written = put_response(alloc, &message, reply, public, out);
    drop(message);
    written
}

// The answer to the request that the message holds.
fn put_response(
    alloc: Global,
    message: &Message,
    reply: &Reply,
    public: Option<&Txt>,
    out: &mut Txt,
) -> Result<(), AllocError> {
    let keys = Keys::none();
    let read = read_command(alloc, &keys, message);
    drop(keys);
    match read.ok() {
        Some(command) => {
            let written = put_response_to(alloc, &command, reply, public, out);
            drop(command);
            written
        }
        None => out.extend(b"no request"),
    }
}

fn put_response_to(
    alloc: Global,
    command: &Command,
    reply: &Reply,
    public: Option<&Txt>,
    out: &mut Txt,
) -> Result<(), AllocError> {
    match command {
        Command::Auction(request) => put_reply(alloc, Some(request), reply, public, out),
        Command::Act(_) => out.extend(b"no request"),
    }
}

// Appends the sale; none where the text is no sale.
fn push_sale(alloc: Global, sale: &[u8], sold: &mut List<Sold>) -> Result<(), AllocError> {
    let Ok(text) = str::from_utf8(sale) else {
        return Ok(());
    };
    let Some((price, rest)) = text.split_once(" ") else {
        return Ok(());
    };
    let Some((campaign, rest)) = rest.split_once(" ") else {
        return Ok(());
    };
    let Some((deal, body)) = rest.split_once(" ") else {
        return Ok(());
    };
    let Some(price) = price_of(price) else {
        return Ok(());
    };
    let deal = deal_of(alloc, deal)?;
    push_sold(
        alloc,
        body.as_bytes(),
        price,
        campaign.parse::<u32>().unwrap_or(0),
        deal,
        sold,
    )
}

fn price_of(digits: &str) -> Option<Micros> {
    Micros::new(digits.parse::<u64>().ok()?)
}

fn deal_of(alloc: Global, id: &str) -> Result<Option<Txt>, AllocError> {
    if id.as_bytes() == b"-".as_slice() {
        return Ok(None);
    }
    let id = Txt::from_slice(alloc, id.as_bytes())?;
    Ok(Some(id))
}

// Appends the sale of the next impression to the campaign of this body.
fn push_sold(
    alloc: Global,
    body: &[u8],
    price: Micros,
    campaign: u32,
    deal: Option<Txt>,
    sold: &mut List<Sold>,
) -> Result<(), AllocError> {
    match record_in(alloc, body) {
        Ok(record) => push_record(record, price, campaign, deal, sold),
        Err(AllocError) => {
            drop(deal);
            Err(AllocError)
        }
    }
}

// The record of the campaign's body; a body that is none is told as want of memory.
fn record_in(alloc: Global, body: &[u8]) -> Result<SharedRecord, AllocError> {
    let arena = Bump::new(alloc);
    match read(alloc, &arena, body) {
        Ok(doc) => record_of(alloc, &doc),
        Err(_) => Err(AllocError),
    }
}

fn record_of(alloc: Global, doc: &Doc<'_>) -> Result<SharedRecord, AllocError> {
    match read_campaign(alloc, doc).ok() {
        Some((facts, expr)) => make_record(alloc, facts, expr),
        None => Err(AllocError),
    }
}

fn push_record(
    record: SharedRecord,
    price: Micros,
    campaign: u32,
    deal: Option<Txt>,
    sold: &mut List<Sold>,
) -> Result<(), AllocError> {
    let imp = u32::try_from(sold.len()).unwrap_or(u32::MAX);
    let sale = u64::from(imp).wrapping_add(1);
    sold.push(Sold {
        imp,
        sale,
        price,
        deal,
        campaign,
        record,
    })
}
