//! The lock, its seats and its turns.
ghost use Rattle.std.specs.Prelude.{◌≡◌, ◌+◌, ◌^◌, ◌<◌, true, false, [], ◌∷◌, ◌++◌, length, IfOk, IfErr};
ghost use Rattle.hist_lock.specs.Views.{is_begun, first_seat, seat_with, Enters, SplitsOff, TakesIn, Complete};

use crate::latch::Latch;
use crate::plays::{Begin, Compare, Count, Fill, KeepPast, SplitOff, TakeIn};
use crate::view::{Names, Stands, Starts, View};
use atomic_table::{Seat as Place, Table, TableRule};
use std::alloc::{AllocError, Global};
use std::marker::Model;
use std::sync::Wait;

/// The rule of a lock, which holds between any two steps.
pub struct Turns;

impl<S: Stands> TableRule<Option<Box<S>>, View<S::Origin, S::Entry>, ()> for Turns {
    ghost use Rattle.hist_lock.specs.Rule.{LockRule, boxed, fresh};

    ghost holds = { λ _. LockRule (boxed S.stands) S.worker };

    ghost first = { λ _. fresh };
}

/// A lock with a value of type S. Contracts see it as its name.
///
/// One that is dropped drops the value, where the value can be dropped.
#[derive(Drop)]
pub struct HistLock<S: Stands> {
    pub(crate) table: Table<Option<Box<S>>, View<S::Origin, S::Entry>, (), Turns, Global>,
    pub(crate) latch: Latch,
}

impl<S: Stands> Model for HistLock<S> {
    ghost use Rattle.std.specs.Prelude.{◌≡◌};
    ghost use Rattle.atomic_table.specs.Seated.{TableId, table_id_coded};

    ghost Value = { TableId };

    ghost coded = { table_id_coded };

    ghost view = { λ l. l.table.shared.table_id };

    ghost invariant = { λ l. (l.table.shared.table_id.words ≡ 3) × (l.table.shared.table_id.slots ≡ 1) };
}

/// A worker's part of a lock.
///
/// Contracts see its lock, the lock's origin, its worker's number, the list as far as it has
/// seen it, and whether it has the turn; of worker 0's seat also how many seats were made, how
/// many are out, and each joined worker with its entries. A seat that is dropped is never joined,
/// so its lock can't be closed.
#[derive(Drop)]
pub struct Seat<S: Stands> {
    place: Place<Option<Box<S>>, View<S::Origin, S::Entry>>,
    ghost begun: { is_begun place.me.0.origin ≡ true },
}

impl<S: Stands> Model for Seat<S> {
    ghost use Rattle.std.specs.Prelude.{◌≡◌, true};
    ghost use Rattle.hist_lock.specs.Views.{SeatView, view_of, is_begun, IsWhole};

    ghost Value = { SeatView S.Origin S.Entry };

    ghost view = { λ s. view_of s.place s.begun };

    ghost invariant = { λ s. IsWhole s.place };
}

/// The value, out of the lock until its seat leaves. It lies in a box, so that a great one is not copied.
pub struct Turn<S> {
    pub value: Box<S>,
}

/// The history of a closed lock: its origin and its whole list. Only `HistLock::close` makes one.
#[derive(Drop)]
pub struct Past<S: Stands> {
    place: Place<Option<Box<S>>, View<S::Origin, S::Entry>>,
    ghost begun: { is_begun place.me.0.origin ≡ true },
}

impl<S: Stands> Model for Past<S> {
    ghost use Rattle.std.specs.Prelude.{◌≡◌, true};
    ghost use Rattle.hist_lock.specs.Views.{PastView, is_begun, begun_at};

    ghost Value = { PastView S.Origin S.Entry };

    ghost view = { λ s. record { origin = begun_at s.place.me.0.origin s.begun; seen = s.place.me.0.seen } };
}

impl<S: Stands> HistLock<S> {
    /// Puts the value under a new lock, of which the first seat is worker 0's. The lock's origin is one from
    /// which the value stands, and of which the caller's words hold.
    ///
    /// The value comes back where memory is short.
    pub fn make<O: Starts<S>>(
        alloc: Global,
        value: S,
    ) -> Result<(HistLock<S>, Seat<S>), (S, AllocError)>
        requires { (o : S.Origin) × O.starts o × S.stands o value [] }
        ensures ok { IfOk result (λ r. r.1 ≡ first_seat r.0 r.1.origin) }
        ensures origin { IfOk result (λ r. O.starts r.1.origin) }
        ensures err { IfErr result (λ e. e.0 ≡ value) }
    {
        match Box::new(alloc, value) {
            Ok(value) => HistLock::make_over::<O>(alloc, value),
            Err(failed) => Err((failed.value, AllocError)),
        }
    }

    // The same of a value that is in its box.
    fn make_over<O: Starts<S>>(
        alloc: Global,
        value: Box<S>,
    ) -> Result<(HistLock<S>, Seat<S>), (S, AllocError)>
        requires { (o : S.Origin) × O.starts o × S.stands o value.value [] }
        ensures ok { IfOk result (λ r. r.1 ≡ first_seat r.0 r.1.origin) }
        ensures origin { IfOk result (λ r. O.starts r.1.origin) }
        ensures err { IfErr result (λ e. e.0 ≡ value.value) }
    {
        let made = Table::vacant(alloc, &[0, 0, 0], 1, &());
        let Ok((table, mut place)) = made else {
            return Err((Box::into_inner(value), AllocError));
        };
        table.shared.load::<Fill>(&mut place, 2);
        match table.shared.exchange(&mut place, 0, Some(value)) {
            None => {}
            Some(_) => unreachable!(),
        }
        table.shared.load::<Begin<O>>(&mut place, 2);
        let latch = Latch::new();
        Ok((HistLock { table, latch }, Seat { place }))
    }

    /// Waits for the seat's turn, and takes the value out.
    ///
    /// It may wait for ever: while another seat keeps the turn, and once 2^62 tickets were drawn.
    pub fn enter<R: Wait>(&self, rt: &R, seat: Seat<S>) -> (Seat<S>, Turn<S>)
        requires lock { seat.lock ≡ self.now }
        requires free { seat.turn ≡ false }
        ensures seat { Enters S.worker seat result.0 }
        ensures value { S.stands result.0.origin result.1.value.value result.0.seen }
        ensures room { length result.0.seen < 2 ^ 62 }
    {
        let Seat { mut place } = seat;
        self.latch.take(rt);
        let ticket = self.draw(rt, &mut place);
        let value = self.take_out(rt, &mut place, ticket);
        (Seat { place }, Turn { value })
    }

    /// Puts the value back, which stands for the same list, and ends the turn.
    pub fn leave(&self, seat: Seat<S>, turn: Turn<S>) -> Seat<S>
        requires lock { seat.lock ≡ self.now }
        requires turn { seat.turn ≡ true }
        requires value { S.stands seat.origin turn.value.value seat.seen }
        ensures { result ≡ seat_with seat seat.seen false }
    {
        let Seat { mut place } = seat;
        let Turn { value } = turn;
        self.put_back(&mut place, value);
        Seat { place }
    }

    /// Puts the value back and ends the turn, with one entry more in the list.
    pub fn leave_with<E: Names<S>>(&self, seat: Seat<S>, turn: Turn<S>) -> Seat<S>
        requires lock { seat.lock ≡ self.now }
        requires turn { seat.turn ≡ true }
        requires value { S.stands seat.origin turn.value.value (seat.seen ++ E.entry ∷ []) }
        requires names { S.worker E.entry ≡ seat.worker }
        ensures { result ≡ seat_with seat (seat.seen ++ E.entry ∷ []) false }
    {
        let Seat { mut place } = seat;
        let Turn { value } = turn;
        self.commit::<E>(&mut place);
        self.put_back(&mut place, value);
        Seat { place }
    }

    /// A seat for the next worker. Worker 0's seat alone is split.
    pub fn split(&self, seat: Seat<S>) -> (Seat<S>, Seat<S>)
        requires lock { seat.lock ≡ self.now }
        requires free { seat.turn ≡ false }
        requires first { seat.worker ≡ 0 }
        requires room { seat.made + 1 < 2 ^ 32 }
        ensures { SplitsOff S.worker seat result.0 result.1 }
    {
        let Seat { mut place } = seat;
        self.table.shared.load::<Count>(&mut place, 0);
        let other = self.table.shared.split_seat::<SplitOff>(&mut place);
        (Seat { place }, Seat { place: other })
    }

    /// Takes worker b's seat in to worker 0's. The longer of the two lists stays, and what b's worker
    /// has committed is recorded.
    pub fn join(&self, a: Seat<S>, b: Seat<S>) -> Seat<S>
        requires lock { (a.lock ≡ self.now) × (b.lock ≡ self.now) }
        requires free { (a.turn ≡ false) × (b.turn ≡ false) }
        requires first { a.worker ≡ 0 }
        ensures { TakesIn S.worker a b result }
    {
        let Seat { mut place } = a;
        let Seat { place: other } = b;
        self.table.shared.join_seat::<TakeIn<S>>(&mut place, other);
        self.table.shared.load::<Compare>(&mut place, 0);
        Seat { place }
    }

    /// Gives the value and the whole list, once every other seat is joined.
    pub fn close(self, seat: Seat<S>) -> (S, Past<S>)
        requires lock { seat.lock ≡ self }
        requires free { seat.turn ≡ false }
        requires first { (seat.worker ≡ 0) × (seat.out ≡ 0) }
        ensures value { S.stands result.1.origin result.0 result.1.seen }
        ensures past { (result.1.origin ≡ seat.origin) × (result.1.seen ≡ seat.seen) }
        ensures complete { Complete S.worker seat result.1.seen }
    {
        let HistLock { table, latch } = self;
        drop(latch);
        let Seat { mut place } = seat;
        let past = table.shared.split_seat::<KeepPast>(&mut place);
        let mut closed = table.close_with(place);
        let slot = closed.take(0);
        closed.free();
        (Box::into_inner(slot.unwrap()), Past { place: past })
    }
}
