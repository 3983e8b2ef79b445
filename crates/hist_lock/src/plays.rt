//! What each step on the table tells the seat that takes it. These types are for the proofs alone.
//!
//! The steps of a turn are draw, look, take out, commit, put back and pass on, and those of the
//! seats are split and join. `take_out` and `put_back` in `steps` say which calls they are.
ghost use Rattle.hist_lock.specs.Rule.{boxed};
ghost use Rattle.hist_lock.specs.Steps.{filling, begun, drawing, looking, committing, passing, comparing, counting, parent, child, staged, both, spent_view};
ghost use Rattle.hist_lock.specs.declared.view.Stage.TheVariants.{Spent};

use crate::view::{Names, Stands, Starts, View};
use atomic_table::{Join, Play, Split};
use std::marker::PhantomData;

/// The slot of a new lock is taken out, to be filled.
pub struct Fill;

impl<S, O, E> Play<Option<Box<S>>, View<O, E>> for Fill {
    ghost then = { filling };
}

/// The first value is in its slot, and the lock has its origin, of which this holds.
pub struct Begin<N> {
    origin: PhantomData<N>,
}

impl<S: Stands, N: Starts<S>> Play<Option<Box<S>>, View<S::Origin, S::Entry>> for Begin<N> {
    ghost then = { begun N.starts };
}

/// Draw.
pub struct Draw;

impl<S, O, E> Play<Option<Box<S>>, View<O, E>> for Draw {
    ghost then = { drawing };
}

/// Look, and take out where the seat's ticket is served.
pub struct Look;

impl<S: Stands> Play<Option<Box<S>>, View<S::Origin, S::Entry>> for Look {
    ghost then = { looking (boxed S.stands) S.worker };
}

/// Commit.
pub struct Commit<N> {
    entry: PhantomData<N>,
}

impl<S: Stands, N: Names<S>> Play<Option<Box<S>>, View<S::Origin, S::Entry>> for Commit<N> {
    ghost then = { committing N.entry };
}

/// Put back and pass on.
pub struct PassOn;

impl<S, O, E> Play<Option<Box<S>>, View<O, E>> for PassOn {
    ghost then = { passing };
}

/// Before a split: the next worker has no entry yet.
pub struct Count;

impl<S: Stands> Play<Option<Box<S>>, View<S::Origin, S::Entry>> for Count {
    ghost then = { counting S.worker };
}

/// Split.
pub struct SplitOff;

impl<O, E> Split<View<O, E>> for SplitOff {
    ghost left = { parent };

    ghost right = { child };
}

/// Join.
pub struct TakeIn<S> {
    of: PhantomData<S>,
}

impl<S: Stands> Join<View<S::Origin, S::Entry>> for TakeIn<S> {
    ghost both = { both S.worker };

    ghost spent = { spent_view };
}

/// After a join: the shorter of the two lists begins the longer.
pub struct Compare;

impl<S: Stands> Play<Option<Box<S>>, View<S::Origin, S::Entry>> for Compare {
    ghost then = { comparing S.worker };
}

/// A seat that is spent at once and kept for its list: nobody else can make one.
pub struct KeepPast;

impl<O, E> Split<View<O, E>> for KeepPast {
    ghost left = { λ v. v };

    ghost right = { staged Spent };
}
