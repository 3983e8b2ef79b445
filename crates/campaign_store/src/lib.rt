//! The campaigns of an exchange, numbered from 1, with the limits that they keep together.
//!
//! `specs/Limits.antt` has the limits, and `specs/Table.antt` the campaigns by number and what an edit
//! makes of them.
#![tactic(auto)]

mod counts;
mod limit;
mod listed;
mod record;
mod table;

pub use limit::{Full, Limit};
pub use listed::{Listed, LiveRecord, Snapshot};
pub use record::{Record, SharedRecord, make_record};
pub use table::Table;
