//! A door in memory, whose calls fail as they are told to.
ghost use Rattle.std.specs.Prelude.{◌≡◌, ◌≢◌, ◌+◌, Some, [], length, reverse, IfOk, slice_get};
ghost use Rattle.std.specs.Option.{option_to_list};
ghost use Rattle.std.specs.Result.{is_err};
ghost use Rattle.rtb_base.specs.Calls.{next_fails, no_calls, one_call_later};
ghost use Rattle.rtb_base.specs.Faults.{CountsErrors};
ghost use Rattle.link_door.specs.Doors.{GivesLink, TakesFirst, with_later, with_served};

use crate::door::Door;
use crate::memory_link::MemLink;
use rtb_num::{Calls, Failed, List, SpareList};
use std::alloc::{AllocError, Global};
use std::marker::Model;

/// A door in memory, where the calls of `next` whose numbers are listed fail.
///
/// The last of its moments repeats. It keeps the links that come back, for which it has room from the
/// start; a link beyond those that it gave is dropped.
#[derive(Drop)]
pub struct MemDoor {
    // The first link that is left stands last.
    links: Vec<MemLink>,
    moments: List<u64>,
    place: usize,
    served: SpareList<MemLink>,
    calls: Calls,
}

impl Model for MemDoor {
    ghost use Rattle.std.specs.Prelude.{◌-◌, ◌<◌, ◌≤◌, length, drop, reverse};
    ghost use Rattle.link_door.specs.Memory.{DoorState};

    ghost Value = { DoorState };

    ghost view = { λ d. record {
      held = record {
        left = reverse d.links.items;
        moments = drop d.place d.moments;
        served = d.served.items;
        out = d.served.spare - length d.links.items;
      };
      calls = d.calls;
    } };

    ghost invariant = { λ d. (d.place < length d.moments) × (length d.links.items ≤ d.served.spare) };
}

impl MemDoor {
    /// A door that has these links and moments left, and was not called yet.
    pub fn new(
        alloc: Global,
        links: List<MemLink>,
        moments: List<u64>,
        fails: List<u64>,
    ) -> Result<MemDoor, AllocError>
        requires { moments ≢ [] }
        ensures left { IfOk result (λ d. d.held.left ≡ links) }
        ensures moments { IfOk result (λ d. d.held.moments ≡ moments) }
        ensures served { IfOk result (λ d. d.held.served ≡ []) }
        ensures calls { IfOk result (λ d. d.calls ≡ no_calls fails) }
    {
        let served = SpareList::with_capacity(alloc, links.len())?;
        let mut links = links.into_vec();
        links.reverse();
        Ok(MemDoor {
            links,
            moments,
            place: 0,
            served,
            calls: Calls::new(fails),
        })
    }

    /// The links that came back, in their order.
    pub fn served(&self) -> &SpareList<MemLink>
        ensures { result.now.items ≡ self.now.held.served }
    {
        &self.served
    }

    /// Its calls of `next` so far.
    pub fn calls(&self) -> &Calls
        ensures { result.now ≡ self.now.calls }
    {
        &self.calls
    }
}

impl Door for MemDoor {
    type Link = MemLink;

    ghost held = { λ d. Some d.held };

    ghost faults = { λ d. d.calls.faults };

    fn next(&mut self) -> Result<Option<MemLink>, Failed>
        ensures gives { GivesLink (Some self.old.held) (Some self.new.held) result }
        ensures cause { CountsErrors self.old.calls.faults self.new.calls.faults result }

        // A call fails exactly where it is told to.
        ensures told { is_err result ≡ next_fails self.old.calls }
        ensures calls { self.new.calls ≡ one_call_later self.old.calls (is_err result) }
    {
        if self.calls.begin() {
            self.calls.count_fault();
            return Err(Failed);
        }
        Ok(first_of(&mut self.links))
    }

    fn moment(&mut self) -> u64
        ensures value { slice_get self.old.held.moments 0 ≡ Some result }
        ensures gives { self.new ≡ record self.old { held = with_later self.old.held } }
    {
        let moment = self.moments.as_slice()[self.place];
        if self.place + 1 < self.moments.len() {
            self.place += 1;
        }
        moment
    }

    fn done(&mut self, link: MemLink)
        ensures takes { self.new ≡ record self.old { held = with_served link self.old.held } }
    {
        if self.links.len() < self.served.spare() {
            self.served.put(link);
        }
    }
}

// Takes the first link, which stands last.
fn first_of(links: &mut Vec<MemLink>) -> Option<MemLink>
    ensures first { TakesFirst (reverse links.old.items) (reverse links.new.items) result }
    ensures len { length links.new.items + length (option_to_list result) ≡ length links.old.items }
{
    links.pop()
}
