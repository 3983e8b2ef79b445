//! What the exchange answers to a bid request.
ghost use Rattle.std.specs.Prelude.{◌≡◌, ◌≤◌, ◌<◌, ◌^◌, length, IfOk, IsSome, IsTrue, None};
ghost use Rattle.address_keys.specs.Tokens.{no_keys};
ghost use Rattle.auction_core.specs.Draft.{found_of, is_valid_command};
ghost use Rattle.exchange_run.specs.Exchange.{line_for, reply_at_opening, settings};
ghost use Rattle.exchange_run.specs.Making.{campaigns_named, first_reply};
ghost use Rattle.exchange_run.specs.Words.{campaigns_of};
ghost use Rattle.plain_exchange.specs.declared.commands.Command.TheVariants.{Auction};
ghost use Rattle.plain_exchange.specs.State.{empty};
ghost use Rattle.plain_exchange.specs.Step.{step};
ghost use Rattle.rtb_response.specs.Response.{response_text};
ghost use Rattle.rtb_types.specs.declared.request.BidRequest.{BidRequest as Request};
ghost use Rattle.rtb_types.specs.Valid.{is_valid};

use crate::opening::add_campaigns;
use address_keys::Keys;
use auction_core::{Command, Core, Reply};
use live_index::{find_by_index, index_of_live};
use plain_exchange::Sold;
use rtb_base::Steps;
use rtb_num::{List, Txt};
use rtb_response::write_response;
use rtb_types::BidRequest;
use std::alloc::{AllocError, Global};
use std::marker::Brand;
use std::sync::ledger::{Blank, Ledger};

// For how many milliseconds a sale is held, and how many the list is to have at most.
const TTL: u64 = 300_000;

const SALES: u64 = 4_194_304;

/// The bid response of the exchange with the words' campaigns to the request, or `no-bid`.
pub(crate) fn auction_line(
    alloc: Global,
    words: &[Txt],
    request: BidRequest,
) -> Result<Txt, AllocError>
    requires campaigns { IsSome (campaigns_of words.now) }
    requires few { length words.now ≤ 64 }
    requires valid { IsTrue (is_valid request) }
    ensures { IfOk result (λ t. t ≡ line_for request (reply_at_opening (campaigns_named words.now) request)) }
{
    let command = Command::Auction(request);
    let line = command_line(alloc, words, &command);
    drop(command);
    line
}

// The same, to the request as a command.
fn command_line(alloc: Global, words: &[Txt], command: &Command) -> Result<Txt, AllocError>
    requires campaigns { IsSome (campaigns_of words.now) }
    requires few { length words.now ≤ 64 }
    requires valid { IsTrue (is_valid_command command.now) }
    ensures { (r : Request) → command.now ≡ Auction r → IfOk result (λ t. t ≡ line_for r (reply_at_opening (campaigns_named words.now) r)) }
{
    let reply = first_reply(alloc, words, command)?;
    let line = line_to(alloc, command, &reply);
    drop(reply);
    line
}

// An act sells nothing.
fn line_to(alloc: Global, command: &Command, reply: &Reply) -> Result<Txt, AllocError>
    ensures { (r : Request) → command.now ≡ Auction r → IfOk result (λ t. t ≡ line_for r reply.now) }
{
    match command {
        Command::Auction(request) => line_for(alloc, request, reply),
        Command::Act(_) => Txt::from_slice(alloc, b"no-bid"),
    }
}

fn line_for(alloc: Global, request: &BidRequest, reply: &Reply) -> Result<Txt, AllocError>
    ensures { IfOk result (λ t. t ≡ line_for request.now reply.now) }
{
    match reply {
        Reply::Sold(sold) => unsigned_response(alloc, request, sold),
        _ => Txt::from_slice(alloc, b"no-bid"),
    }
}

// The bid response, whose notices have no address.
fn unsigned_response(
    alloc: Global,
    request: &BidRequest,
    sold: &List<Sold>,
) -> Result<Txt, AllocError>
    ensures { IfOk result (λ t. t ≡ response_text None no_keys request.now sold.now) }
{
    let keys = Keys::none();
    let text = write_response(alloc, request, sold, None, &keys);
    drop(keys);
    text
}

// The reply to the first command.
fn first_reply(alloc: Global, words: &[Txt], command: &Command) -> Result<Reply, AllocError>
    requires campaigns { IsSome (campaigns_of words.now) }
    requires few { length words.now ≤ 64 }
    requires valid { IsTrue (is_valid_command command.now) }
    ensures { IfOk result (λ r. r ≡ first_reply (campaigns_named words.now) command.now) }
{
    let mut core = Core::new(alloc, TTL, SALES);
    let reply = reply_with(alloc, &mut core, words, command);
    drop(core);
    reply
}

// The same, of an exchange that is new.
fn reply_with(
    alloc: Global,
    core: &mut Core,
    words: &[Txt],
    command: &Command,
) -> Result<Reply, AllocError>
    requires campaigns { IsSome (campaigns_of words.now) }
    requires few { length words.now ≤ 64 }
    requires valid { IsTrue (is_valid_command command.now) }
    requires empty { core.old.state ≡ empty }
    requires unedited { core.old.edits ≡ 0 }
    requires held { core.old.settings ≡ settings }
    ensures { IfOk result (λ r. r ≡ first_reply (campaigns_named words.now) command.now) }
{
    add_campaigns(alloc, core, words)?;
    reply_of(alloc, core, command)
}

// The exchange's reply to the command, which comes at moment 0.
fn reply_of(alloc: Global, core: &mut Core, command: &Command) -> Result<Reply, AllocError>
    requires valid { IsTrue (is_valid_command command.now) }
    requires few { core.old.edits < 2 ^ 63 }
    ensures { IfOk result (λ r. r ≡ (step core.old.settings 0 core.old.state command.now).reply) }
{
    let found = find_campaigns::<Brand>(alloc, core, command, Blank::new(1))?;
    let draft = core.prepare(alloc, command, found.as_slice(), 0)?;
    Ok(core.commit(draft))
}

// The campaigns that the command's impressions reach. The steps of the index are not counted.
fn find_campaigns<L: Ledger>(
    alloc: Global,
    core: &Core,
    command: &Command,
    blank: Blank,
) -> Result<Vec<List<u32>>, AllocError>
    requires name { blank.name ≡ L.name }
    requires parts { blank.parts ≡ L.parts }
    requires some { 0 < blank.parts }
    ensures { IfOk result (λ found. found.items ≡ found_of core.now.state command.now) }
{
    let mut steps = Steps::<L>::new(blank);
    let index = index_of_live(alloc, core.table(), &mut steps)?;
    let found = find_by_index(alloc, &index, command, &mut steps);
    drop(index);
    found
}
