//! One message from a link.
ghost use Rattle.std.specs.Prelude.{◌≡◌, ◌-◌, ◌≤◌, ◌<◌, ◌+◌, ◌++◌, ℕ, List, length};
ghost use Rattle.http_wire.specs.Wire.{Decides};
ghost use Rattle.http_wire.specs.declared.message.Step.{Step as StepValue};
ghost use Rattle.rtb_base.specs.Faults.{RisesOnlyWhere, RoseAtMost};
ghost use Rattle.session.specs.Receives.{Grows, IsMore, IsReceived};

use crate::input::Input;
use http_wire::{Message, Step, at_least, next_message};
use link_door::Link;
use rtb_base::Steps;
use rtb_num::Txt;
use std::alloc::Global;
use std::sync::ledger::Ledger;

/// What came of reading until something is decided.
#[derive(Drop)]
pub(crate) enum Received {
    Message(Message),
    Refused { status: u16, word: Txt },
    Ended,
    Failed,
    Memory,
}

// What came of reading more.
#[derive(Clone, Copy)]
pub(crate) enum More {
    Enough,
    Ended,
    Failed,
}

/// Reads until a message or a refusal is decided, or the end comes. What is already held is looked at
/// before anything is read, and is not looked at again before it can decide more.
pub(crate) fn receive<L: Link, G: Ledger>(
    alloc: Global,
    input: &mut Input,
    link: &mut L,
    steps: &mut Steps<G>,
) -> Received
    ensures received { IsReceived (L.left link.old) (L.left link.new) input.old input.new (steps.new - steps.old) result }
    ensures ticks { steps.old ≤ steps.new }
    ensures sent { L.sent link.new ≡ L.sent link.old }
    ensures cause { RisesOnlyWhere (result ≡ Received.Failed) (L.faults link.old) (L.faults link.new) }
    ensures once { RoseAtMost 1 (L.faults link.old) (L.faults link.new) }
{
    'reads: loop {
        match next_message(alloc, input.bytes(), steps) {
            Ok(Step::Got { message, used }) => {
                input.pass(used);
                return Received::Message(message);
            }
            Ok(Step::Refused { status, word }) => return Received::Refused { status, word },
            Ok(Step::Need) => {}
            Err(_) => return Received::Memory,
        }
        let least = at_least(input.bytes());
        match read_more(input, link, least) {
            More::Enough => {}
            More::Ended => return Received::Ended,
            More::Failed => return Received::Failed,
        }
    }
}

// Reads until so many bytes are held. Fewer decide nothing.
fn read_more<L: Link>(input: &mut Input, link: &mut L, least: usize) -> More
    requires bound { least ≤ 270336 }
    requires needed { (rest : List ℕ) (step : StepValue) → length input.old + length rest < least → Decides (input.old ++ rest) step → ⊥ }
    ensures grows { Grows (L.left link.old) (L.left link.new) input.old input.new }
    ensures more { IsMore (L.left link.new) input.new least result }
    ensures sent { L.sent link.new ≡ L.sent link.old }
    ensures cause { RisesOnlyWhere (result ≡ More.Failed) (L.faults link.old) (L.faults link.new) }
    ensures once { RoseAtMost 1 (L.faults link.old) (L.faults link.new) }
{
    while input.bytes().len() < least {
        match input.fill(link, least) {
            Ok(0) => return More::Ended,
            Ok(_) => {}
            Err(_) => return More::Failed,
        }
    }
    More::Enough
}
