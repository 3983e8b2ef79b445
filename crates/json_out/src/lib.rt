//! A writer of JSON texts (RFC 8259) without spaces, every byte accounted for.
//!
//! `specs/Strings.antt` says how bytes are written as a string, `specs/Writer.antt` what a call
//! appends and what may stand next.
#![tactic(auto)]

mod lanes;
mod members;
mod places;
mod strings;
mod writer;

pub use places::Place;
pub use strings::{push_string, strings_read_back};
pub use writer::Writer;
