//! What is given for a reply, and for what is no command.
ghost use Rattle.std.specs.Prelude.{◌≡◌};
ghost use Rattle.std.specs.Option.{option_copied};
ghost use Rattle.command_read.specs.Memory.{IfRefused};
ghost use Rattle.door_worker.specs.Answers.{edits, is_edit, request_of};
ghost use Rattle.door_worker.specs.Languages.{rtb};
ghost use Rattle.door_worker.specs.Working.{IsGivenUnread, IsTold};
ghost use Rattle.http_wire.specs.Answers.{IsWritable};
ghost use Rattle.session.specs.Talk.{IsGivable};

use address_keys::Keys;
use auction_core::{Act, Command, Reply};
use command_read::CommandFault;
use link_door::Pause;
use rtb_num::Txt;
use rtb_response::{limit_word, write_reply};
use rtb_types::BidRequest;
use session::Given;
use std::alloc::{AllocError, Global};

/// What is given for a message that is read as no command.
pub(crate) fn given_unread(fault: CommandFault) -> Given
    requires writable { IfRefused IsWritable fault }
    ensures given { IsGivenUnread fault result }
    ensures writable { IsGivable result }
{
    match fault {
        CommandFault::Refused { refusal } => Given::Text {
            answer: refusal,
            entered: false,
        },
        CommandFault::Memory => Given::Memory,
    }
}

/// What is given for the reply to a command that was carried out.
pub(crate) fn given_for(
    alloc: Global,
    request: Option<&BidRequest>,
    reply: &Reply,
    public: &Txt,
    keys: &Keys,
) -> Given
    ensures told { IsTold (option_copied request.entry) (rtb public.now keys.now) reply.now result }
    ensures writable { IsGivable result }
{
    match write_reply(alloc, request, reply, Some(public), keys) {
        Ok(answer) => Given::Text {
            answer,
            entered: true,
        },
        Err(AllocError) => Given::MemoryLate,
    }
}

/// The request of an auction.
pub(crate) fn request_in(command: &Command) -> Option<&BidRequest>
    ensures { option_copied result ≡ request_of command.now }
{
    match command {
        Command::Auction(request) => Some(request),
        Command::Act(_) => None,
    }
}

/// Whether it edits the campaigns.
pub(crate) fn is_edit(command: &Command) -> bool
    ensures { result ≡ is_edit command.now }
{
    match command {
        Command::Auction(_) => false,
        Command::Act(act) => edits(act),
    }
}

/// Whether the act edits the campaigns.
pub(crate) fn edits(act: &Act) -> bool
    ensures { result ≡ edits act.now }
{
    match act {
        Act::Add(..) | Act::Change(..) | Act::Pause(_) | Act::Resume(_) => true,
        _ => false,
    }
}

/// Tells which limit the reply says was met, where it says one.
pub(crate) fn note_limit<P: Pause>(pause: &P, reply: &Reply) {
    match reply {
        Reply::Full { limit } => pause.met(limit_word(*limit)),
        _ => {}
    }
}
