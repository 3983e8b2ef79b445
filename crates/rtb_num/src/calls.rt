//! The calls of an object in memory, counted, and which of them fail.
ghost use Rattle.std.specs.Prelude.{◌≡◌, ◌≤◌, false};
ghost use Rattle.rtb_base.specs.Calls.{next_fails, no_calls, one_call_later};
ghost use Rattle.rtb_base.specs.Faults.{one_more};

use crate::lists::List;
use std::marker::Model;

/// The calls of an object in memory so far, the numbers of those that fail, and the faults counted.
///
/// Calls are numbered from 1. Both counts stand at their greatest number for ever.
#[derive(Debug, Drop)]
pub struct Calls {
    calls: u64,
    fails: List<u64>,
    faults: u64,
}

impl Model for Calls {
    ghost use Rattle.rtb_base.specs.Calls as seen;

    ghost Value = { seen.Calls };

    ghost view = { λ c. record { calls = c.calls; fails = c.fails; faults = c.faults } };
}

impl Calls {
    /// No call so far, and no fault.
    pub fn new(fails: List<u64>) -> Calls
        ensures { result ≡ no_calls fails }
    {
        Calls {
            calls: 0,
            fails,
            faults: 0,
        }
    }

    /// Begins the next call, and tells whether it is told to fail.
    pub fn begin(&mut self) -> bool
        ensures told { result ≡ next_fails self.old }
        ensures begun { self.new ≡ one_call_later self.old false }
    {
        self.calls = self.calls.saturating_add(1);
        self.fails.as_slice().contains(&self.calls)
    }

    /// Counts a fault of the call that was begun.
    pub fn count_fault(&mut self)
        ensures counted { self.new ≡ record self.old { faults = one_more self.old.faults } }
        ensures kept { self.old.faults ≤ self.new.faults }
    {
        self.faults = self.faults.saturating_add(1);
    }

    /// How many calls there were.
    pub fn count(&self) -> u64
        ensures { result ≡ self.now.calls }
    {
        self.calls
    }

    /// How many faults were counted.
    pub fn faults(&self) -> u64
        ensures { result ≡ self.now.faults }
    {
        self.faults
    }
}
