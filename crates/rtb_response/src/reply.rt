//! The answer to a reply: its status and its body.
ghost use Rattle.std.specs.Prelude.{◌≡◌, ◌∷◌, [], codes, IsTrue, IfOk, OnOk};
ghost use Rattle.std.specs.Option.{option_copied, option_map_or};
ghost use Rattle.http_wire.specs.Answers.{IsWritable};
ghost use Rattle.json_out.specs.Inside.{in_object, put_members};
ghost use Rattle.json_out.specs.Writer.{blank, can_end, end, is_whole, takes_name};
ghost use Rattle.rtb_num.specs.Amounts.{nanos_text};
ghost use Rattle.rtb_response.specs.Replies.{added_answer, answer as answer_with, answer_of, campaign_answer, error_answer, limit_word, number_member, object_answer, report_members, sale_answer, state_of, totals_members, trimmed_answer};
ghost use Rattle.rtb_response.specs.Response.{response_text, text_member};

use crate::response::write_response;
use address_keys::Keys;
use budget_book::Totals;
use campaign_store::Limit;
use http_wire::{Allow, Answer};
use json_out::Writer;
use plain_exchange::{Reply, Sold};
use rtb_num::{List, Micros, Nanos, Txt};
use rtb_types::BidRequest;
use std::alloc::{AllocError, Global};

/// The answer to the reply. A reply that sold is one to the request; to any other reply the request plays no
/// part. `public` and `keys` are as for `write_response`.
#[tactic(auto, using(crate::proofs::Writable::answers_are_writable))]
pub fn write_reply(
    alloc: Global,
    request: Option<&BidRequest>,
    reply: &Reply,
    public: Option<&Txt>,
    keys: &Keys,
) -> Result<Answer, AllocError>
    ensures value { IfOk result (λ a. a ≡ answer_of (option_copied request.entry) (option_copied public.entry) keys.now reply.now) }
    ensures writable { IfOk result (λ a. IsWritable a) }
{
    match reply {
        Reply::NoBid => Ok(answer(204, Txt::new(alloc))),
        Reply::Sold(sold) => sold_reply(alloc, request, sold, public, keys),
        Reply::Added { n } => added_reply(alloc, *n, keys),
        Reply::Changed { n } => campaign_reply(alloc, 200, *n),
        Reply::Paused { n } => campaign_reply(alloc, 200, *n),
        Reply::Resumed { n } => campaign_reply(alloc, 200, *n),
        Reply::Reported {
            n,
            live,
            bid,
            budget,
            totals,
        } => report_reply(alloc, *n, *live, *bid, *budget, totals),
        Reply::Billed { sale } => sale_reply(alloc, *sale, b"billed"),
        Reply::Lost { sale } => sale_reply(alloc, *sale, b"lost"),
        Reply::Trimmed { sales, forgotten } => trimmed_reply(alloc, *sales, *forgotten),
        Reply::NoSuchCampaign => error_reply(alloc, 404, b"no-such-campaign"),
        Reply::NoSuchSale => error_reply(alloc, 404, b"no-such-sale"),
        Reply::WasLost => error_reply(alloc, 409, b"was-lost"),
        Reply::WasBilled => error_reply(alloc, 409, b"was-billed"),
        Reply::WasExpired => error_reply(alloc, 410, b"was-expired"),
        Reply::Forgotten => error_reply(alloc, 410, b"forgotten"),
        Reply::BelowCommitted { committed } => below_reply(alloc, *committed),
        Reply::Full { limit } => full_reply(alloc, *limit),
    }
}

fn answer(status: u16, body: Txt) -> Answer
    ensures { result ≡ answer_with status body }
{
    Answer {
        status,
        allow: Allow::None,
        body,
    }
}

fn sold_reply(
    alloc: Global,
    request: Option<&BidRequest>,
    sold: &List<Sold>,
    public: Option<&Txt>,
    keys: &Keys,
) -> Result<Answer, AllocError>
    ensures { IfOk result (λ a. a ≡ answer_with 200 (option_map_or (λ r. response_text (option_copied public.entry) keys.now r sold.now) (option_copied request.entry) [])) }
{
    match request {
        Some(request) => {
            let body = write_response(alloc, request, sold, public, keys)?;
            Ok(answer(200, body))
        }
        None => Ok(answer(200, Txt::new(alloc))),
    }
}

// An object that was begun. What has one short member takes no memory for its text.
fn object(alloc: Global) -> Result<Writer, AllocError>
    ensures value { IfOk result (λ w. w ≡ in_object blank []) }
    ensures next { IfOk result (λ w. IsTrue (takes_name w)) }
{
    let mut writer = Writer::new(alloc);
    writer.obj()?;
    Ok(writer)
}

// The answer whose body is the object, once it is ended.
fn close(status: u16, mut writer: Writer) -> Result<Answer, AllocError>
    requires ends { IsTrue (can_end writer) }
    requires whole { IsTrue (is_whole (end writer)) }
    ensures { IfOk result (λ a. a ≡ answer_with status (end writer).text) }
{
    writer.end()?;
    Ok(answer(status, writer.finish()))
}

fn campaign_reply(alloc: Global, status: u16, n: u32) -> Result<Answer, AllocError>
    ensures { IfOk result (λ a. a ≡ campaign_answer status n) }
{
    let mut writer = object(alloc)?;
    writer.put_number(b"campaign", u64::from(n))?;
    let answer = close(status, writer)?;
    Ok(answer)
}

// A campaign that was added, by its number, and the token that opens its paths where addresses are signed.
fn added_reply(alloc: Global, n: u32, keys: &Keys) -> Result<Answer, AllocError>
    ensures { IfOk result (λ a. a ≡ added_answer keys.now n) }
{
    match keys.token(b"/campaign/", u64::from(n)) {
        Some(token) => opened_reply(alloc, n, &token),
        None => campaign_reply(alloc, 201, n),
    }
}

// Mostly enough bytes for an answer of two or three members.
const FEW: usize = 128;

fn opened_reply(alloc: Global, n: u32, token: &[u8]) -> Result<Answer, AllocError>
    ensures { IfOk result (λ a. a ≡ object_answer 201 (number_member (codes "campaign") n ∷ text_member (codes "token") token.now ∷ [])) }
{
    let mut writer = Writer::with_room(alloc, FEW);
    let done = put_opened(&mut writer, n, token);
    closed(201, writer, done)
}

fn put_opened(writer: &mut Writer, n: u32, token: &[u8]) -> Result<(), AllocError>
    requires { writer.old ≡ blank }
    ensures ends { OnOk result (IsTrue (can_end writer.new)) }
    ensures whole { OnOk result (IsTrue (is_whole (end writer.new))) }
    ensures value { OnOk result (answer_with 201 (end writer.new).text ≡ object_answer 201 (number_member (codes "campaign") n ∷ text_member (codes "token") token.now ∷ [])) }
{
    writer.obj()?;
    writer.put_number(b"campaign", u64::from(n))?;
    writer.put_text(b"token", token)?;
    Ok(())
}

fn sale_reply(alloc: Global, sale: u64, state: &[u8]) -> Result<Answer, AllocError>
    ensures { IfOk result (λ a. a ≡ sale_answer sale state.now) }
{
    let mut writer = Writer::with_room(alloc, FEW);
    let done = put_sale(&mut writer, sale, state);
    closed(200, writer, done)
}

// Begins the object of a sale, before which nothing is written.
fn put_sale(writer: &mut Writer, sale: u64, state: &[u8]) -> Result<(), AllocError>
    requires { writer.old ≡ blank }
    ensures ends { OnOk result (IsTrue (can_end writer.new)) }
    ensures whole { OnOk result (IsTrue (is_whole (end writer.new))) }
    ensures value { OnOk result (answer_with 200 (end writer.new).text ≡ sale_answer sale state.now) }
{
    writer.obj()?;
    writer.put_number(b"sale", sale)?;
    writer.put_text(b"state", state)?;
    Ok(())
}

fn trimmed_reply(alloc: Global, sales: u64, forgotten: u64) -> Result<Answer, AllocError>
    ensures { IfOk result (λ a. a ≡ trimmed_answer sales forgotten) }
{
    let mut writer = Writer::with_room(alloc, FEW);
    let done = put_trimmed(&mut writer, sales, forgotten);
    closed(200, writer, done)
}

fn put_trimmed(writer: &mut Writer, sales: u64, forgotten: u64) -> Result<(), AllocError>
    requires { writer.old ≡ blank }
    ensures ends { OnOk result (IsTrue (can_end writer.new)) }
    ensures whole { OnOk result (IsTrue (is_whole (end writer.new))) }
    ensures value { OnOk result (answer_with 200 (end writer.new).text ≡ trimmed_answer sales forgotten) }
{
    writer.obj()?;
    writer.put_number(b"sales", sales)?;
    writer.put_number(b"forgotten", forgotten)?;
    Ok(())
}

// Mostly enough bytes for a report.
const REPORT: usize = 256;

fn report_reply(
    alloc: Global,
    n: u32,
    live: bool,
    bid: Micros,
    budget: Nanos,
    totals: &Totals,
) -> Result<Answer, AllocError>
    ensures { IfOk result (λ a. a ≡ object_answer 200 (report_members n live bid budget totals.now)) }
{
    let mut writer = Writer::with_room(alloc, REPORT);
    let done = put_report(&mut writer, n, live, bid, budget, totals);
    closed(200, writer, done)
}

/// Begins the object of a report of campaign `n`, before which nothing is written.
pub fn put_report(
    writer: &mut Writer,
    n: u32,
    live: bool,
    bid: Micros,
    budget: Nanos,
    totals: &Totals,
) -> Result<(), AllocError>
    requires { writer.old ≡ blank }
    ensures { OnOk result (writer.new ≡ in_object blank (report_members n live bid budget totals.now)) }
{
    writer.obj()?;
    writer.put_number(b"campaign", u64::from(n))?;
    writer.put_text(b"state", state_word(live))?;
    writer.put_micros(b"bid", bid)?;
    writer.put_nanos(b"budget", budget)?;
    put_totals(writer, totals)?;
    Ok(())
}

/// The answer whose body is the object that was begun, where all of it could be written so far.
pub fn closed(
    status: u16,
    writer: Writer,
    done: Result<(), AllocError>,
) -> Result<Answer, AllocError>
    requires ends { OnOk done (IsTrue (can_end writer)) }
    requires whole { OnOk done (IsTrue (is_whole (end writer))) }
    ensures { (a : _) → OnOk done (answer_with status (end writer).text ≡ a) → IfOk result (λ r. r ≡ a) }
{
    done?;
    close(status, writer)
}

/// The answer of an error, by its word alone.
pub fn error_reply(alloc: Global, status: u16, word: &[u8]) -> Result<Answer, AllocError>
    ensures { IfOk result (λ a. a ≡ error_answer status word.now []) }
{
    let mut writer = object(alloc)?;
    writer.put_text(b"error", word)?;
    let answer = close(status, writer)?;
    Ok(answer)
}

fn below_reply(alloc: Global, committed: Nanos) -> Result<Answer, AllocError>
    ensures { IfOk result (λ a. a ≡ error_answer 409 (codes "below-committed") ((codes "committed", nanos_text committed) ∷ [])) }
{
    let mut writer = Writer::with_room(alloc, FEW);
    let done = put_below(&mut writer, committed);
    closed(409, writer, done)
}

fn put_below(writer: &mut Writer, committed: Nanos) -> Result<(), AllocError>
    requires { writer.old ≡ blank }
    ensures ends { OnOk result (IsTrue (can_end writer.new)) }
    ensures whole { OnOk result (IsTrue (is_whole (end writer.new))) }
    ensures value { OnOk result (answer_with 409 (end writer.new).text ≡ error_answer 409 (codes "below-committed") ((codes "committed", nanos_text committed) ∷ [])) }
{
    writer.obj()?;
    writer.put_text(b"error", b"below-committed")?;
    writer.put_nanos(b"committed", committed)?;
    Ok(())
}

fn full_reply(alloc: Global, limit: Limit) -> Result<Answer, AllocError>
    ensures { IfOk result (λ a. a ≡ error_answer 503 (codes "full") (text_member (codes "limit") (limit_word limit) ∷ [])) }
{
    let mut writer = Writer::with_room(alloc, FEW);
    let done = put_full(&mut writer, limit);
    closed(503, writer, done)
}

fn put_full(writer: &mut Writer, limit: Limit) -> Result<(), AllocError>
    requires { writer.old ≡ blank }
    ensures ends { OnOk result (IsTrue (can_end writer.new)) }
    ensures whole { OnOk result (IsTrue (is_whole (end writer.new))) }
    ensures value { OnOk result (answer_with 503 (end writer.new).text ≡ error_answer 503 (codes "full") (text_member (codes "limit") (limit_word limit) ∷ [])) }
{
    writer.obj()?;
    writer.put_text(b"error", b"full")?;
    writer.put_text(b"limit", limit_word(limit))?;
    Ok(())
}

/// The word by which an answer names a limit.
pub fn limit_word(limit: Limit) -> &'static [u8]
    ensures { result.now ≡ limit_word limit }
{
    match limit {
        Limit::Sales => b"sales",
        Limit::Campaigns => b"campaigns",
        Limit::Conjunctions => b"conjunctions",
        Limit::Values => b"values",
        Limit::TextBytes => b"text-bytes",
    }
}

fn state_word(live: bool) -> &'static [u8]
    ensures { result.now ≡ state_of live }
{
    if live { b"live" } else { b"paused" }
}

fn put_totals(writer: &mut Writer, totals: &Totals) -> Result<(), AllocError>
    requires { IsTrue (takes_name writer.old) }
    ensures ok { OnOk result (writer.new ≡ put_members writer.old (totals_members totals.now)) }
    ensures next { OnOk result (IsTrue (takes_name writer.new)) }
{
    writer.put_nanos(b"reserved", totals.reserved)?;
    writer.put_nanos(b"spent", totals.spent)?;
    writer.put_number(b"held", totals.held)?;
    writer.put_number(b"billed", totals.billed)?;
    writer.put_number(b"lost", totals.lost)?;
    writer.put_number(b"expired", totals.expired)?;
    Ok(())
}
