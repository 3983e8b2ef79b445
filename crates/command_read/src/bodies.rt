//! The commands that come in bodies: a bid request, and a campaign.
ghost use Rattle.std.specs.Prelude.{◌≡◌};
ghost use Rattle.command_read.specs.Commands.{IsOfBody, campaign_command, request_command};
ghost use Rattle.command_read.specs.Memory.{UnlessMemory};
ghost use Rattle.command_read.specs.Posted.{add_or_change};
ghost use Rattle.exact_json.specs.Docs.{doc_tree};

use crate::fault::CommandFault;
use crate::refusals::{campaign_refusal, json_refusal, refuse, request_refusal};
use crate::rooms::Rooms;
use bumpalo::Bump;
use campaign::Facts;
use campaign_read::read_campaign;
use exact_json::{Doc, read, room_for};
use plain_exchange::{Act, Command};
use rtb_read::read_request;
use std::alloc::Global;
use target_expr::Expr;

/// The auction that the body asks for, or the first fault of the body.
pub(crate) fn request_command(
    alloc: Global,
    rooms: &mut Rooms,
    body: &[u8],
) -> Result<Command, CommandFault>
    ensures { UnlessMemory (IsOfBody request_command body.now) result }
{
    if !rooms.serves(body) {
        return lone_request(alloc, body);
    }
    let command = request_text(alloc, rooms.arena(), body);
    rooms.clear(alloc);
    command
}

// The same in a room of its own.
fn lone_request(alloc: Global, body: &[u8]) -> Result<Command, CommandFault>
    ensures { UnlessMemory (IsOfBody request_command body.now) result }
{
    let arena = Bump::try_with_capacity(alloc, room_for(body.len()))?;
    let command = request_text(alloc, &arena, body);
    drop(arena);
    command
}

fn request_text(alloc: Global, arena: &Bump, body: &[u8]) -> Result<Command, CommandFault>
    ensures { UnlessMemory (IsOfBody request_command body.now) result }
{
    match read(alloc, arena, body) {
        Ok(doc) => request_in(alloc, &doc),
        Err(fault) => refuse(json_refusal(alloc, fault)),
    }
}

fn request_in(alloc: Global, doc: &Doc<'_>) -> Result<Command, CommandFault>
    ensures { UnlessMemory (λ found. found ≡ request_command (doc_tree doc.now)) result }
{
    match read_request(alloc, doc) {
        Ok(request) => Ok(Command::Auction(request)),
        Err(fault) => refuse(request_refusal(alloc, &fault)),
    }
}

/// The campaign that the body states, to be added or to stand in place of that of a number, or the first fault of
/// the body.
pub(crate) fn campaign_command(
    alloc: Global,
    rooms: &mut Rooms,
    changed: Option<u64>,
    body: &[u8],
) -> Result<Command, CommandFault>
    ensures { UnlessMemory (IsOfBody (campaign_command (add_or_change changed)) body.now) result }
{
    if !rooms.serves(body) {
        return lone_campaign(alloc, changed, body);
    }
    let command = campaign_text(alloc, rooms.arena(), changed, body);
    rooms.clear(alloc);
    command
}

// The same in a room of its own.
fn lone_campaign(alloc: Global, changed: Option<u64>, body: &[u8]) -> Result<Command, CommandFault>
    ensures { UnlessMemory (IsOfBody (campaign_command (add_or_change changed)) body.now) result }
{
    let arena = Bump::try_with_capacity(alloc, room_for(body.len()))?;
    let command = campaign_text(alloc, &arena, changed, body);
    drop(arena);
    command
}

fn campaign_text(
    alloc: Global,
    arena: &Bump,
    changed: Option<u64>,
    body: &[u8],
) -> Result<Command, CommandFault>
    ensures { UnlessMemory (IsOfBody (campaign_command (add_or_change changed)) body.now) result }
{
    match read(alloc, arena, body) {
        Ok(doc) => campaign_in(alloc, changed, &doc),
        Err(fault) => refuse(json_refusal(alloc, fault)),
    }
}

fn campaign_in(alloc: Global, changed: Option<u64>, doc: &Doc<'_>) -> Result<Command, CommandFault>
    ensures { UnlessMemory (λ found. found ≡ campaign_command (add_or_change changed) (doc_tree doc.now)) result }
{
    match read_campaign(alloc, doc) {
        Ok((facts, expr)) => Ok(Command::Act(add_or_change(changed, facts, expr))),
        Err(fault) => refuse(campaign_refusal(alloc, &fault)),
    }
}

fn add_or_change(changed: Option<u64>, facts: Facts, expr: Expr) -> Act
    ensures { result ≡ add_or_change changed facts expr }
{
    match changed {
        None => Act::Add(facts, expr),
        Some(n) => Act::Change(n, facts, expr),
    }
}
