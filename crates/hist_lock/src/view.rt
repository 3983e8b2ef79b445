//! What a user says of a value under the lock, and what a seat knows.
ghost use Rattle.std.specs.Prelude.{ℕ, List};

use std::collections::LinkedList;

/// A value that stands for a list of entries.
///
/// Both meanings are for contracts alone: nothing of an origin or an entry is stored when the
/// program runs.
pub trait Stands {
    /// What the value stood for when the list was empty.
    type Origin;

    /// What a worker did in one turn.
    type Entry;

    /// From the origin, the value stands for the entries, the first of them first.
    ghost stands: { Self.Origin → Self → List Self.Entry → Type 0 };

    /// The number of the worker whose turn it was.
    ghost worker: { Self.Entry → ℕ };
}

/// What a call of `HistLock::make` says of the origin, from which its caller shows that the value stands.
pub trait Starts<S: Stands> {
    ghost starts: { S.Origin → Type 0 };
}

/// The entry that a call of `HistLock::leave_with` picks.
pub trait Names<S: Stands> {
    ghost entry: { S.Entry };
}

/// Where a seat stands on a turn's way.
pub enum Stage {
    /// The first seat of a lock that has no value yet.
    Fresh,
    /// The same seat, with the empty slot out.
    Filling,
    /// It waits for nothing.
    Idle,
    /// It has drawn a ticket.
    Waiting,
    /// It has taken the value out.
    Holding,
    /// It has the slot, and the list has its entry.
    Committed,
    /// It has taken in another seat, and the two lists were not compared yet.
    Joining,
    /// It was joined, or is kept for its list alone.
    Spent,
}

/// What a seat knows. No value of it is made when the program runs.
pub struct View<O, E> {
    pub stage: Stage,
    /// The ticket that it drew last.
    pub ticket: u64,
    /// The lock's origin. There is none until the lock has its value.
    pub origin: Option<O>,
    pub worker: u64,
    /// The lock's list, as far as the seat has seen it.
    pub seen: LinkedList<E>,
    /// While it is joining: the shorter of the two lists.
    pub shorter_seen: LinkedList<E>,
    /// While it is joining: what it had seen before.
    pub seen_before: LinkedList<E>,
    /// While it is joining: the origin and the worker of the seat that it takes in.
    pub joined_origin: Option<O>,
    pub joined: u64,
    /// Of worker 0's seat: how many seats were made.
    pub made: u64,
    /// Of worker 0's seat: how many seats were split and not joined.
    pub out: u64,
    /// Of worker 0's seat: each joined worker, with its entries.
    pub ended: LinkedList<(u64, LinkedList<E>)>,
}
