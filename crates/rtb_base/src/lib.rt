//! What every crate may stand on: a counter of steps, and the words on counts of faults.
//!
//! `specs/Faults.antt` has the words. They are cited by the contracts of everything that reads
//! from or writes to the outside.
#![tactic(auto)]

mod steps;

pub use steps::Steps;
