//! The bid response to a request (OpenRTB 2.5, section 4.2.1).
ghost use Rattle.std.specs.Prelude.{◌≡◌, cond, map, IsTrue, IfOk, OnOk};
ghost use Rattle.std.specs.List.{list_any};
ghost use Rattle.std.specs.Option.{option_copied};
ghost use Rattle.json_out.specs.Texts.{array_text};
ghost use Rattle.json_out.specs.Writer.{blank, is_whole, put_value, takes_value};
ghost use Rattle.rtb_response.specs.Response.{bid_text, is_of_seat, response_text, seat_bids, seat_of as seat_of_sale, seat_text, seats_of};

use crate::bid::put_bid;
use address_keys::Keys;
use json_out::Writer;
use plain_exchange::Sold;
use rtb_num::{List, Txt};
use rtb_types::BidRequest;
use std::alloc::{AllocError, Global};

/// The bid response to the request: one object for each seat that bought, in the order of what each bought
/// first, and in it the seat's bids in the order of the impressions.
///
/// `public` is what the addresses of notices begin with, as `http://ads.example`; without it bids have no
/// `burl` and `lurl`. By `keys` these are signed. Each seat takes one pass over the sales.
pub fn write_response(
    alloc: Global,
    request: &BidRequest,
    sold: &List<Sold>,
    public: Option<&Txt>,
    keys: &Keys,
) -> Result<Txt, AllocError>
    ensures { IfOk result (λ t. t ≡ response_text (option_copied public.entry) keys.now request.now sold.now) }
{
    let mut writer = Writer::with_room(alloc, room_for(sold.len()));
    let done = put_response(alloc, &mut writer, request, sold.as_slice(), public, keys);
    finished(writer, done)
}

// Mostly enough bytes for what stands around the bids.
const AROUND: usize = 256;

// Mostly enough bytes for a bid and its seat.
const BID: usize = 512;

// Mostly enough bytes for a response of so many bids.
fn room_for(bids: usize) -> usize {
    bids.saturating_mul(BID).saturating_add(AROUND)
}

// Writes the object of the response, before which nothing is written.
fn put_response(
    alloc: Global,
    writer: &mut Writer,
    request: &BidRequest,
    sold: &[Sold],
    public: Option<&Txt>,
    keys: &Keys,
) -> Result<(), AllocError>
    requires { writer.old ≡ blank }
    ensures whole { OnOk result (IsTrue (is_whole writer.new)) }
    ensures text { OnOk result (writer.new.text ≡ response_text (option_copied public.entry) keys.now request.now sold.now) }
{
    writer.obj()?;
    writer.put_text(b"id", request.id.as_bytes())?;
    writer.name(b"seatbid")?;
    put_seats(alloc, writer, request, sold, public, keys)?;
    writer.put_text(b"cur", b"USD")?;
    writer.end()?;
    Ok(())
}

// What was written, where all of it could be.
fn finished(writer: Writer, done: Result<(), AllocError>) -> Result<Txt, AllocError>
    requires { OnOk done (IsTrue (is_whole writer)) }
    ensures { (t : _) → OnOk done (writer.text ≡ t) → IfOk result (λ r. r ≡ t) }
{
    done?;
    Ok(writer.finish())
}

// Writes the objects of the seats, as an array.
fn put_seats(
    alloc: Global,
    writer: &mut Writer,
    request: &BidRequest,
    sold: &[Sold],
    public: Option<&Txt>,
    keys: &Keys,
) -> Result<(), AllocError>
    requires { IsTrue (takes_value writer.old) }
    ensures { OnOk result (writer.new ≡ put_value writer.old (array_text (map (seat_text (option_copied public.entry) keys.now request.now sold.now) (seats_of sold.now)))) }
{
    writer.arr()?;
    for (place, sale) in sold.iter().enumerate() {
        put_new_seat(
            alloc,
            writer,
            request,
            sold,
            public,
            keys,
            &sold[..place],
            sale,
        )?;
    }
    writer.end()?;
    Ok(())
}

// Writes the object of the seat that the sale is to, where no sale before it is.
fn put_new_seat(
    alloc: Global,
    writer: &mut Writer,
    request: &BidRequest,
    sold: &[Sold],
    public: Option<&Txt>,
    keys: &Keys,
    before: &[Sold],
    sale: &Sold,
) -> Result<(), AllocError>
    requires { IsTrue (takes_value writer.old) }
    ensures { OnOk result (writer.new ≡ cond (list_any (is_of_seat (seat_of_sale sale.now)) before.now) writer.old (put_value writer.old (seat_text (option_copied public.entry) keys.now request.now sold.now (seat_of_sale sale.now)))) }
{
    let seat = seat_of(sale);
    if has_seat(before, seat) {
        return Ok(());
    }
    put_seat(alloc, writer, request, sold, public, keys, seat)?;
    Ok(())
}

// Who pays.
fn seat_of(sale: &Sold) -> &[u8]
    ensures { result.now ≡ seat_of_sale sale.now }
{
    sale.record.record().facts.seat().as_bytes()
}

fn has_seat(sold: &[Sold], seat: &[u8]) -> bool
    ensures { result ≡ list_any (is_of_seat seat.now) sold.now }
{
    sold.iter().any(|sale| is_of_seat(sale, seat))
}

fn is_of_seat(sale: &Sold, seat: &[u8]) -> bool
    ensures { result ≡ is_of_seat seat.now sale.now }
{
    seat_of(sale) == seat
}

// Writes the object of one seat.
fn put_seat(
    alloc: Global,
    writer: &mut Writer,
    request: &BidRequest,
    sold: &[Sold],
    public: Option<&Txt>,
    keys: &Keys,
    seat: &[u8],
) -> Result<(), AllocError>
    requires { IsTrue (takes_value writer.old) }
    ensures { OnOk result (writer.new ≡ put_value writer.old (seat_text (option_copied public.entry) keys.now request.now sold.now seat.now)) }
{
    writer.obj()?;
    writer.name(b"bid")?;
    put_bids(alloc, writer, request, sold, public, keys, seat)?;
    writer.put_text(b"seat", seat)?;
    writer.end()?;
    Ok(())
}

// Writes the bids of one seat, as an array.
fn put_bids(
    alloc: Global,
    writer: &mut Writer,
    request: &BidRequest,
    sold: &[Sold],
    public: Option<&Txt>,
    keys: &Keys,
    seat: &[u8],
) -> Result<(), AllocError>
    requires { IsTrue (takes_value writer.old) }
    ensures { OnOk result (writer.new ≡ put_value writer.old (array_text (seat_bids (option_copied public.entry) keys.now request.now sold.now seat.now))) }
{
    writer.arr()?;
    for sale in sold {
        put_bid_of(alloc, writer, request, sale, public, keys, seat)?;
    }
    writer.end()?;
    Ok(())
}

// Writes the bid object, where the sale is to the seat.
fn put_bid_of(
    alloc: Global,
    writer: &mut Writer,
    request: &BidRequest,
    sale: &Sold,
    public: Option<&Txt>,
    keys: &Keys,
    seat: &[u8],
) -> Result<(), AllocError>
    requires { IsTrue (takes_value writer.old) }
    ensures { OnOk result (writer.new ≡ cond (is_of_seat seat.now sale.now) (put_value writer.old (bid_text (option_copied public.entry) keys.now request.now sale.now)) writer.old) }
{
    if !is_of_seat(sale, seat) {
        return Ok(());
    }
    put_bid(alloc, writer, request, sale, public, keys)?;
    Ok(())
}
