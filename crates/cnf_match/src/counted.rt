//! Lists each item of which is counted as it is read.
ghost use Rattle.std.specs.Prelude.{◌≡◌, ◌<◌, ◌+◌, get_or, length};

use rtb_base::Steps;
use std::marker::Model;
use std::sync::ledger::Ledger;

/// A list whose items are read one at a time, each for a step. Contracts see it as the list of its items.
///
/// Nothing else reads an item, so a bound on steps is one on what is read.
#[derive(Drop)]
pub struct Counted<T> {
    items: Vec<T>,
}

impl<T> Model for Counted<T> {
    ghost use Rattle.std.specs.Prelude.{List};

    ghost Value = { List T };

    ghost view = { λ c. c.items.items };
}

impl<T> Counted<T> {
    /// The list of these items, in the memory that they are in.
    pub fn from_vec(items: Vec<T>) -> Counted<T>
        ensures { result ≡ items.items }
    {
        Counted { items }
    }

    /// How many items it has.
    pub fn len(&self) -> usize
        ensures { result ≡ length self.now }
    {
        self.items.len()
    }
}

impl<T: Copy> Counted<T> {
    /// The item at the place, counted from 0.
    ///
    /// One step is one item read.
    #[inline(always)]
    pub fn at<L: Ledger>(&self, place: usize, steps: &mut Steps<L>) -> T
        requires { place < length self.now }
        ensures value { (d : T) → result ≡ get_or self.now place d }
        ensures read { steps.new ≡ steps.old + 1 }
    {
        steps.tick();
        self.items[place]
    }
}
