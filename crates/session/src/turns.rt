//! One message answered.
ghost use Rattle.std.specs.Prelude.{◌≡◌, ◌++◌, ℕ, List, OnOk, OnErr, Some};
ghost use Rattle.std.specs.Io.KnownBytes.{Appends};
ghost use Rattle.rtb_base.specs.Faults.{CountsErrors, RisesOnlyWhere, RoseAtMost};
ghost use Rattle.rtb_io.specs.Fronts.{AppendsFront};
ghost use Rattle.session.specs.Receives.{IsTurn};
ghost use Rattle.session.specs.Streams.{is_last};
ghost use Rattle.session.specs.Talk.{IsGivable, IsText};

use crate::link_end::LinkEnd;
use crate::send::send_all;
use crate::service::{Given, Service};
use http_wire::{Message, memory_text, store_failed_text, write_answer};
use link_door::Link;
use rtb_num::{Failed, Txt};

// The most messages of a link.
const MOST_MESSAGES: u32 = 10_000;

/// Answers message number `number`; none where the link goes on.
pub(crate) fn take_turn<S: Service, L: Link>(
    service: &mut S,
    message: &Message,
    number: u32,
    out: &mut Txt,
    link: &mut L,
) -> Option<LinkEnd>
    ensures turn { IsTurn S.answers service.old message.now number service.new (L.sent link.old) (L.sent link.new) result }
    ensures left { L.left link.new ≡ L.left link.old }
    ensures cause { RisesOnlyWhere (result ≡ Some LinkEnd.LinkFailed) (L.faults link.old) (L.faults link.new) }
    ensures once { RoseAtMost 1 (L.faults link.old) (L.faults link.new) }
{
    let given = service.answer(message);
    let sent = reply(&given, is_last(message, number), out, link);
    drop(given);
    if sent.is_err() {
        return Some(LinkEnd::LinkFailed);
    }
    if message.closes {
        return Some(LinkEnd::Asked);
    }
    if number == MOST_MESSAGES {
        return Some(LinkEnd::Spent);
    }
    None
}

// Whether the link ends after message number `number`.
fn is_last(message: &Message, number: u32) -> bool
    ensures { result ≡ is_last number message.now }
{
    message.closes || number == MOST_MESSAGES
}

// Sends the text of what was given.
fn reply<L: Link>(given: &Given, closes: bool, out: &mut Txt, link: &mut L) -> Result<(), Failed>
    requires { IsGivable given.now }
    ensures ok { OnOk result ((text : List ℕ) × IsText given.now closes text × Appends (L.sent link.old) (L.sent link.new) text) }
    ensures err { OnErr result ((text : List ℕ) × IsText given.now closes text × AppendsFront (L.sent link.old) (L.sent link.new) text) }
    ensures left { L.left link.new ≡ L.left link.old }
    ensures cause { CountsErrors (L.faults link.old) (L.faults link.new) result }
{
    send_all(link, text_of(given, closes, out))
}

// The text of what was given; `out` holds it where it is an answer's.
fn text_of<'t>(given: &Given, closes: bool, out: &'t mut Txt) -> &'t [u8]
    requires { IsGivable given.now }
    ensures { IsText given.now closes result.now }
{
    out.truncate(0);
    match given {
        Given::Text { answer, entered } => {
            if write_answer(answer, closes, out).is_err() {
                return memory_text(*entered, closes);
            }
            out.as_bytes()
        }
        Given::StoreFailed => store_failed_text(closes),
        Given::Memory => memory_text(false, closes),
        Given::MemoryLate => memory_text(true, closes),
    }
}
