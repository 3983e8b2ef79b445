//! Whether an entry accounts for its answer.
ghost use Rattle.std.specs.Prelude.{◌≡◌, ◌==◌, ◌&&◌, ◌||◌, ◌<◌, ◌^◌, false, IfOk, IsTrue, None, Ok, OnOk, Some, if◌then◌else◌};
ghost use Rattle.std.specs.Option.{option_copied};
ghost use Rattle.std.specs.Str.{bytes_eq};
ghost use Rattle.auction_core.specs.Draft.{found_of, is_valid_command};
ghost use Rattle.audit.specs.Accounts.{LeadsTo, account as accounted, passes, request_of, settings_of, tells, tells_failure};
ghost use Rattle.http_wire.specs.Answers.{memory_answer};
ghost use Rattle.plain_exchange.specs.Step.{step};
ghost use Rattle.rtb_response.specs.Replies.{answer_of};

use address_keys::Keys;
use auction_core::{Command, Core, Reply};
use command_read::{CommandFault, read_command};
use http_wire::Answer;
use rtb_num::List;
use rtb_response::write_reply;
use rtb_types::BidRequest;
use std::alloc::{AllocError, Global};
use trace::{Entry, Header};

// The edits of a table are fewer than this, since no exchange comes to so many.
const MOST_EDITS: u64 = 1 << 63;

/// Whether the entry accounts for its answer. Where it does, the exchange has taken its message.
#[tactic(auto, using(crate::proofs::Leading::valid_as_read))]
pub fn account(
    alloc: Global,
    core: &mut Core,
    header: &Header,
    keys: &Keys,
    entry: &Entry,
) -> Result<bool, AllocError>
    requires settings { core.old.settings ≡ settings_of header.now }
    ensures leads { IfOk result (λ accounts. LeadsTo keys.now header.now core.old.state entry.now (if accounts then Some core.new.state else None)) }
    ensures settings { core.new.settings ≡ core.old.settings }
{
    if tells_memory(entry) {
        return Ok(true);
    }
    match read_command(alloc, keys, &entry.message) {
        Ok(command) => {
            let accounts = account_command(alloc, core, header, keys, entry, &command);
            drop(command);
            accounts
        }
        Err(CommandFault::Refused { refusal }) => Ok(tells_answer(entry, &refusal)),
        Err(CommandFault::Memory) => Err(AllocError),
    }
}

/// Whether the answer says nothing of the exchange.
pub fn passes(entry: &Entry) -> bool
    ensures { result ≡ passes entry.now }
{
    tells_memory(entry) || tells_failure(entry)
}

fn account_command(
    alloc: Global,
    core: &mut Core,
    header: &Header,
    keys: &Keys,
    entry: &Entry,
    command: &Command,
) -> Result<bool, AllocError>
    requires valid { IsTrue (is_valid_command command.now) }
    requires settings { core.old.settings ≡ settings_of header.now }
    ensures leads { IfOk result (λ accounts. accounted keys.now header.now core.old.state entry.now (Ok command.now) ≡ (if accounts then Some core.new.state else None)) }
    ensures settings { core.new.settings ≡ core.old.settings }
{
    let found = find_for(alloc, core, command)?;
    let accounts = account_found(alloc, core, header, keys, entry, command, found.as_slice());
    drop(found);
    accounts
}

/// Whether the entry, whose message is this command, accounts for its answer, where these campaigns were found for it.
/// Where it does, the exchange has taken the command.
#[tactic(auto, using(crate::proofs::Leading::accounts_so))]
pub fn account_found(
    alloc: Global,
    core: &mut Core,
    header: &Header,
    keys: &Keys,
    entry: &Entry,
    command: &Command,
    found: &[List<u32>],
) -> Result<bool, AllocError>
    requires valid { IsTrue (is_valid_command command.now) }
    requires found { found.now ≡ found_of core.old.state command.now }
    requires settings { core.old.settings ≡ settings_of header.now }
    ensures leads { IfOk result (λ accounts. accounted keys.now header.now core.old.state entry.now (Ok command.now) ≡ (if accounts then Some core.new.state else None)) }
    ensures settings { core.new.settings ≡ core.old.settings }
{
    let reply = carry_out(alloc, core, command, found, entry.moment)?;
    let accounts = tells_so(alloc, header, keys, entry, command, &reply);
    drop(reply);
    accounts
}

// Carries the command out, for which these campaigns were found.
fn carry_out(
    alloc: Global,
    core: &mut Core,
    command: &Command,
    found: &[List<u32>],
    moment: u64,
) -> Result<Reply, AllocError>
    requires valid { IsTrue (is_valid_command command.now) }
    requires found { found.now ≡ found_of core.old.state command.now }
    ensures reply { IfOk result (λ r. r ≡ (step core.old.settings moment core.old.state command.now).reply) }
    ensures state { OnOk result (core.new.state ≡ (step core.old.settings moment core.old.state command.now).after) }
    ensures settings { core.new.settings ≡ core.old.settings }
{
    if core.table().edits() >= MOST_EDITS {
        return Err(AllocError);
    }
    let draft = core.prepare(alloc, command, found, moment)?;
    Ok(core.commit(draft))
}

// The live campaigns whose expressions are true of an auction's impressions, by a look at each of them.
fn find_for(alloc: Global, core: &Core, command: &Command) -> Result<Vec<List<u32>>, AllocError>
    ensures { IfOk result (λ found. found.items ≡ found_of core.now.state command.now) }
{
    match command {
        Command::Auction(request) => core.scan(alloc, request),
        Command::Act(_) => Ok(Vec::new(alloc)),
    }
}

// Whether the entry tells the answer to the reply, or that the exchange failed behind it.
fn tells_so(
    alloc: Global,
    header: &Header,
    keys: &Keys,
    entry: &Entry,
    command: &Command,
    reply: &Reply,
) -> Result<bool, AllocError>
    ensures { IfOk result (λ r. r ≡ (tells_failure entry.now || tells entry.now (answer_of (request_of command.now) (Some header.now.public) keys.now reply.now))) }
{
    if tells_failure(entry) {
        return Ok(true);
    }
    tells_reply(alloc, header, keys, entry, command, reply)
}

// Whether the entry tells the answer to the reply.
fn tells_reply(
    alloc: Global,
    header: &Header,
    keys: &Keys,
    entry: &Entry,
    command: &Command,
    reply: &Reply,
) -> Result<bool, AllocError>
    ensures { IfOk result (λ r. r ≡ tells entry.now (answer_of (request_of command.now) (Some header.now.public) keys.now reply.now)) }
{
    let answer = write_reply(
        alloc,
        request_in(command),
        reply,
        Some(&header.public),
        keys,
    )?;
    let tells = tells_answer(entry, &answer);
    drop(answer);
    Ok(tells)
}

fn request_in(command: &Command) -> Option<&BidRequest>
    ensures { option_copied result ≡ request_of command.now }
{
    match command {
        Command::Auction(request) => Some(request),
        Command::Act(_) => None,
    }
}

fn tells_answer(entry: &Entry, answer: &Answer) -> bool
    ensures { result ≡ tells entry.now answer.now }
{
    tells(entry, answer.status, answer.body.as_bytes())
}

fn tells_memory(entry: &Entry) -> bool
    ensures { result ≡ tells entry.now (memory_answer false) }
{
    tells(entry, 503, b"{\"error\":\"memory\"}")
}

fn tells_failure(entry: &Entry) -> bool
    ensures { result ≡ tells_failure entry.now }
{
    tells(entry, 500, b"{\"error\":\"store-failed\"}")
        || tells(entry, 503, b"{\"error\":\"memory-late\"}")
}

// Whether the entry tells this status and this body.
fn tells(entry: &Entry, status: u16, body: &[u8]) -> bool
    ensures { result ≡ ((entry.now.status == status) && bytes_eq entry.now.answer body.now) }
{
    entry.status == u32::from(status) && entry.answer.as_bytes() == body
}
