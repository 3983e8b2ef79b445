//! Traces: the messages that an exchange took, each with its moment and its answer, in one order.
//!
//! A trace is a header and behind it entries, of which none is a front of another. `specs/Traces.antt` has the bytes.
//! Nothing follows the last entry.
#![tactic(auto)]

mod entry;
mod header;
mod laws;

pub use entry::{Entries, Entry, get_entry, put_entry};
pub use header::{Header, Headers, get_header, put_header};
pub use laws::{entries_tell_their_ends, what_was_put_is_read_again};
