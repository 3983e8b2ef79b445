//! One link served to its end.
ghost use Rattle.std.specs.Prelude.{◌≡◌, ◌-◌, ◌≤◌, [], IfOk};
ghost use Rattle.rtb_base.specs.Faults.{RisesOnlyWhere, RoseAtMost};
ghost use Rattle.session.specs.Receives.{IsEnd};
ghost use Rattle.session.specs.Talk.{IsServed};

use crate::input::Input;
use crate::link_end::LinkEnd;
use crate::receive::{Received, receive};
use crate::refusals::{out_of_memory, refuse};
use crate::service::Service;
use crate::turns::take_turn;
use http_wire::is_blank;
use link_door::Link;
use rtb_base::Steps;
use rtb_num::Txt;
use std::alloc::{AllocError, Global};
use std::mem::replace;
use std::sync::ledger::Ledger;

/// Room for what comes over a link, which is kept from link to link: 270,336 bytes, taken with the first one.
#[derive(Drop)]
pub struct LinkRoom {
    input: Option<Input>,
}

impl LinkRoom {
    /// It takes no memory yet.
    pub fn new() -> LinkRoom {
        LinkRoom { input: None }
    }

    // The room, empty.
    fn take(&mut self, alloc: Global) -> Result<Input, AllocError>
        ensures { IfOk result (λ i. i ≡ []) }
    {
        match self.input.take() {
            Some(mut input) => {
                input.clear();
                Ok(input)
            }
            None => Input::new(alloc),
        }
    }
}

/// Serves one link to its end: reads messages, gives each to the service, and sends the texts of
/// what it gives.
///
/// The room for the greatest message, 270,336 bytes, is taken first, and is all that input takes. It
/// ticks once for each call of `next_message`.
pub fn serve_link<S: Service, L: Link, G: Ledger>(
    alloc: Global,
    service: &mut S,
    link: &mut L,
    steps: &mut Steps<G>,
) -> LinkEnd
    ensures served { IsServed S.answers service.old service.new (L.left link.old) (L.left link.new) (L.sent link.old) (L.sent link.new) (steps.new - steps.old) result }
    ensures ticks { steps.old ≤ steps.new }
    ensures cause { RisesOnlyWhere (result ≡ LinkEnd.LinkFailed) (L.faults link.old) (L.faults link.new) }
    ensures once { RoseAtMost 1 (L.faults link.old) (L.faults link.new) }
{
    let mut room = LinkRoom::new();
    let end = serve_link_in(alloc, &mut room, service, link, steps);
    drop(room);
    end
}

/// The same, in room that is kept from link to link.
pub fn serve_link_in<S: Service, L: Link, G: Ledger>(
    alloc: Global,
    room: &mut LinkRoom,
    service: &mut S,
    link: &mut L,
    steps: &mut Steps<G>,
) -> LinkEnd
    ensures served { IsServed S.answers service.old service.new (L.left link.old) (L.left link.new) (L.sent link.old) (L.sent link.new) (steps.new - steps.old) result }
    ensures ticks { steps.old ≤ steps.new }
    ensures cause { RisesOnlyWhere (result ≡ LinkEnd.LinkFailed) (L.faults link.old) (L.faults link.new) }
    ensures once { RoseAtMost 1 (L.faults link.old) (L.faults link.new) }
{
    match room.take(alloc) {
        Ok(mut input) => {
            let mut out = Txt::new(alloc);
            let end = converse(alloc, service, link, &mut input, &mut out, steps);
            drop(out);
            drop(replace(&mut room.input, Some(input)));
            end
        }
        Err(_) => LinkEnd::NoMemory,
    }
}

// The messages of a link, from the first. `out` holds the text of one answer after the other.
fn converse<S: Service, L: Link, G: Ledger>(
    alloc: Global,
    service: &mut S,
    link: &mut L,
    input: &mut Input,
    out: &mut Txt,
    steps: &mut Steps<G>,
) -> LinkEnd
    requires { input.old ≡ [] }
    ensures served { IsServed S.answers service.old service.new (L.left link.old) (L.left link.new) (L.sent link.old) (L.sent link.new) (steps.new - steps.old) result }
    ensures ticks { steps.old ≤ steps.new }
    ensures cause { RisesOnlyWhere (result ≡ LinkEnd.LinkFailed) (L.faults link.old) (L.faults link.new) }
    ensures once { RoseAtMost 1 (L.faults link.old) (L.faults link.new) }
{
    let mut number: u32 = 0;
    'messages: loop {
        let message = match receive(alloc, input, link, steps) {
            Received::Message(message) => message,
            Received::Refused { status, word } => {
                let end = refuse(alloc, status, &word, out, link);
                drop(word);
                return end;
            }
            Received::Ended => return end_of_input(alloc, input),
            Received::Failed => return LinkEnd::LinkFailed,
            Received::Memory => return out_of_memory(link),
        };
        number += 1;
        let end = take_turn(service, &message, number, out, link);
        drop(message);
        match end {
            Some(end) => return end,
            None => {}
        }
    }
}

// How a link ends whose input has ended.
fn end_of_input(alloc: Global, input: &Input) -> LinkEnd
    ensures { IsEnd input.now result }
{
    let rest = input.bytes();
    if is_blank(rest) {
        return LinkEnd::Done;
    }
    match Txt::from_slice(alloc, rest) {
        Ok(left) => LinkEnd::Cut { left },
        Err(_) => LinkEnd::NoMemory,
    }
}
