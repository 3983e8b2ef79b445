//! The steps of a turn: words 0, 1 and 2 are the length of the list, the next ticket and the ticket
//! that is served, and slot 0 has the value in its box while no seat has the turn.
ghost use Rattle.std.specs.Prelude.{◌≡◌, ◌+◌, ◌^◌, ◌<◌, ◌⊎◌, [], ◌∷◌, ◌++◌, length, None, Some};
ghost use Rattle.hist_lock.specs.Rule.{StandsFrom, boxed, turn_weight};
ghost use Rattle.hist_lock.specs.Steps.{Served, waiting, seeing, staged};
ghost use Rattle.hist_lock.specs.declared.view.Stage.TheVariants.{Idle, Waiting, Holding, Committed};
ghost use Rattle.hist_lock.specs.Places.{lock_of, origin, seen, worker_of, IsFree, HasTurn, IsSame, IsPosted, Grew};

use crate::lock::HistLock;
use crate::plays::{Commit, Draw, Look, PassOn};
use crate::view::{Names, Stands, View};
use atomic_table::Seat as Place;
use std::hint::spin_loop;
use std::sync::Wait;

// No ticket is drawn from here on, so that no word can wrap.
const TICKETS: u64 = 1 << 62;

impl<S: Stands> HistLock<S> {
    // Draw: the seat gets a ticket that no other has.
    pub(crate) fn draw<R: Wait>(
        &self,
        rt: &R,
        place: &mut Place<Option<Box<S>>, View<S::Origin, S::Entry>>,
    ) -> u64
        requires lock { lock_of place.old ≡ self.now }
        requires free { IsFree place.old }
        ensures same { IsPosted place.old place.new }
        ensures drawn { place.new.me ≡ (waiting result place.old.me.0, []) }
    {
        let words = &self.table.shared;
        for _ in rt.forever() {
            let ticket = words.peek(1);
            if ticket < TICKETS
                && words.compare_exchange::<Draw>(place, 1, ticket, ticket + 1) == ticket
            {
                return ticket;
            }
        }
        unreachable!()
    }

    // Look until the ticket is served, and take the value out. That look itself takes the slot. A seat
    // that drew its ticket with the latch finds it served at once.
    pub(crate) fn take_out<R: Wait>(
        &self,
        rt: &R,
        place: &mut Place<Option<Box<S>>, View<S::Origin, S::Entry>>,
        ticket: u64,
    ) -> Box<S>
        requires lock { lock_of place.old ≡ self.now }
        requires waits { (place.old.me.1 ≡ []) × (place.old.me.0.stage ≡ Waiting) × (place.old.me.0.ticket ≡ ticket) }
        ensures same { IsSame place.old place.new }
        ensures turn { HasTurn place.new }
        ensures grew { Grew S.worker place.old place.new }
        ensures value { StandsFrom (boxed S.stands) (origin place.new) result (seen place.new) }
        ensures room { length (seen place.new) < 2 ^ 62 }
    {
        let words = &self.table.shared;
        for _ in rt.forever() {
            let served = words.load::<Look>(place, 2);
            if served == ticket {
                return words.exchange(place, 0, None).unwrap();
            }
            spin_loop();
        }
        unreachable!()
    }

    // Commit: at this step the list gains the entry.
    pub(crate) fn commit<E: Names<S>>(
        &self,
        place: &mut Place<Option<Box<S>>, View<S::Origin, S::Entry>>,
    )
        requires lock { lock_of place.old ≡ self.now }
        requires turn { HasTurn place.old }
        requires names { S.worker E.entry ≡ worker_of place.old }
        ensures same { IsPosted place.old place.new }
        ensures grown { place.new.me ≡ (seeing Committed (seen place.old ++ E.entry ∷ []) place.old.me.0, place.old.me.1) }
    {
        self.table.shared.fetch_add::<Commit<E>>(place, 0, 1);
    }

    // Put back: the value is in its slot. Pass on: the next ticket is served, and the latch is free.
    pub(crate) fn put_back(
        &self,
        place: &mut Place<Option<Box<S>>, View<S::Origin, S::Entry>>,
        value: Box<S>,
    )
        requires lock { lock_of place.old ≡ self.now }
        requires turn { (place.old.me.1 ≡ (0, None) ∷ []) × (turn_weight place.old.me.0.stage ≡ 1) }
        requires value { StandsFrom (boxed S.stands) (origin place.old) value (seen place.old) }
        ensures same { IsPosted place.old place.new }
        ensures free { place.new.me ≡ (staged Idle place.old.me.0, []) }
    {
        let words = &self.table.shared;
        match words.exchange(place, 0, Some(value)) {
            None => {}
            Some(_) => unreachable!(),
        }
        words.fetch_add::<PassOn>(place, 2, 1);
        self.latch.free();
    }
}
