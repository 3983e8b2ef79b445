//! A message read: its command, or the answer that refuses it.
ghost use Rattle.command_read.specs.Commands.{IsCommandOf, IsOfPath, IsOfRoute};
ghost use Rattle.command_read.specs.Memory.{IfRefused, UnlessMemory};
ghost use Rattle.command_read.specs.Paths.{path_of};
ghost use Rattle.command_read.specs.Signed.{AreNoticesSigned, has_wrong_token};
ghost use Rattle.http_wire.specs.Answers.{IsWritable};
ghost use Rattle.http_wire.specs.declared.answer.Answer.{Answer};
ghost use Rattle.plain_exchange.specs.declared.commands.Command.{Command};
ghost use Rattle.plain_exchange.specs.declared.commands.Command.TheVariants as command;
ghost use Rattle.rtb_types.specs.Valid.{is_valid};
ghost use Rattle.rtb_types.specs.declared.request.BidRequest.{BidRequest};
ghost use Rattle.std.specs.Prelude.{◌≡◌, IfErr, IsSome, IsTrue, Ok, Result};

use crate::bodies::{campaign_command, request_command};
use crate::fault::CommandFault;
use crate::methods::{Method, method_of, takes};
use crate::paths::{Route, path_of};
use crate::places::place_of;
use crate::refusals::{forbidden, not_allowed, not_found, refuse};
use crate::rooms::Rooms;
use address_keys::Keys;
use exact_json::{bytes_have_one_fault, text_has_one_tree};
use http_wire::{Allow, Message};
use plain_exchange::{Act, Command, Look};
use std::alloc::Global;

/// The command that the message asks for, or the answer that refuses it: 405 for a method that is neither `GET`
/// nor `POST`, 404 for a path that is not listed, 405 for a method that the path does not take, 403 for a token that does
/// not open the path, and 400 for the first fault of the body.
///
/// Where addresses are signed, a bill or a loss is taken behind its token alone. A campaign is read and edited behind its
/// token, and without one by the operator. Where they are not, no path with a token is listed.
///
/// A number in a path is from 1 to 2^64 - 1 and has no zero in front; how many sales stay, where others are forgotten, is
/// from 0 to 67,108,864. What stands behind the first `?` plays no part, and neither does the body of a message whose
/// command has none.
///
/// `read_command_in` is for who reads one message after the other.
pub fn read_command(alloc: Global, keys: &Keys, message: &Message) -> Result<Command, CommandFault>
    ensures read { UnlessMemory (IsCommandOf keys.now message.now) result }
    ensures valid { (request : BidRequest) → result ≡ Ok (command.Auction request) → IsTrue (is_valid request) }
    ensures writable { IfErr result (IfRefused IsWritable) }
{
    let mut rooms = Rooms::of_none(alloc);
    let command = read_command_in(alloc, &mut rooms, keys, message);
    drop(rooms);
    command
}

/// The same, where the body is read in a room that is kept from message to message.
#[tactic(auto, using(crate::proofs::Refused::refusals_are_writable, crate::proofs::Valid::requests_are_valid))]
pub fn read_command_in(
    alloc: Global,
    rooms: &mut Rooms,
    keys: &Keys,
    message: &Message,
) -> Result<Command, CommandFault>
    ensures read { UnlessMemory (IsCommandOf keys.now message.now) result }
    ensures valid { (request : BidRequest) → result ≡ Ok (command.Auction request) → IsTrue (is_valid request) }
    ensures writable { IfErr result (IfRefused IsWritable) }
{
    command_in(alloc, rooms, keys, message)
}

fn command_in(
    alloc: Global,
    rooms: &mut Rooms,
    keys: &Keys,
    message: &Message,
) -> Result<Command, CommandFault>
    ensures { UnlessMemory (IsCommandOf keys.now message.now) result }
{
    match method_of(message.method.as_bytes()) {
        None => refuse(Ok(not_allowed(alloc, Allow::GetPost))),
        Some(method) => path_command(
            alloc,
            rooms,
            place_of(keys, path_of(message.target.as_bytes())),
            method,
            message.body.as_bytes(),
        ),
    }
}

// What is asked for at a path, where it is listed.
fn path_command(
    alloc: Global,
    rooms: &mut Rooms,
    place: Option<(Route, bool)>,
    method: Method,
    body: &[u8],
) -> Result<Command, CommandFault>
    ensures { UnlessMemory (IsOfPath place method body.now) result }
{
    let Some((route, may)) = place else {
        return refuse(not_found(alloc));
    };
    if !takes(route.methods(), method) {
        return refuse(Ok(not_allowed(alloc, route.methods())));
    }
    if !may {
        return refuse(forbidden(alloc));
    }
    route_command(alloc, rooms, route, method, body)
}

fn route_command(
    alloc: Global,
    rooms: &mut Rooms,
    route: Route,
    method: Method,
    body: &[u8],
) -> Result<Command, CommandFault>
    ensures { UnlessMemory (IsOfRoute route method body.now) result }
{
    match route {
        Route::Auction => request_command(alloc, rooms, body),
        Route::Campaigns => campaign_command(alloc, rooms, None, body),
        Route::Campaign(n) => match method {
            Method::Get => Ok(Command::Act(Act::Look(Look::Report(n)))),
            Method::Post => campaign_command(alloc, rooms, Some(n), body),
        },
        Route::Pause(n) => Ok(Command::Act(Act::Pause(n))),
        Route::Resume(n) => Ok(Command::Act(Act::Resume(n))),
        Route::Bill(n) => Ok(Command::Act(Act::Bill(n))),
        Route::Lose(n) => Ok(Command::Act(Act::Lose(n))),
        Route::Forget(keep) => Ok(Command::Act(Act::Forget(keep))),
    }
}

/// A message is read in one way: there are no two commands, no two refusals, and no refusal beside a command, that
/// it asks for.
pub fn message_has_one_reading(keys: &Keys, message: &Message)
    ensures { (a b : Result Command Answer) → IsCommandOf keys.now message.now a → IsCommandOf keys.now message.now b → a ≡ b }
{
    let body = message.body.as_bytes();
    text_has_one_tree(body);
    bytes_have_one_fault(body);
}

/// Where addresses are signed, who bills or loses a sale has its token, and behind another token nothing is asked for.
pub fn notices_are_signed(keys: &Keys, message: &Message)
    ensures notices { IsSome keys.now.key → AreNoticesSigned keys.now message.now }
    ensures wrong { IsTrue (has_wrong_token keys.now (path_of message.now.target)) → (c : Command) → IsCommandOf keys.now message.now (Ok c) → ⊥ }
{
    let _keys = keys;
    let _message = message;
}
