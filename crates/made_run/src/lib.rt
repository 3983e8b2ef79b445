//! A run that anybody can repeat: campaigns and bid requests that are drawn from a number are posted over links in memory
//! to a worker of an exchange whose journal is in memory, and what they are answered is a trace.
//!
//! Each answer that was sent is compared with that of an exchange of one thread, which finds campaigns by an index of its
//! own, so that a run is told only where all are the same. `specs/Runs.antt` says what is posted, which answers a run has and
//! what is told of it.
#![tactic(auto)]

mod answers;
mod disk;
mod finding;
mod gathering;
mod posting;
mod reserving;
mod run;
mod serving;

pub use run::{Made, count_run, make_run, put_counts};
