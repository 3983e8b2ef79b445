//! The messages of HTTP/1.1 (RFC 9112) that stand at the front of some bytes, and how answers are
//! written.
//!
//! `next_message` says what is decided of the bytes that have come, however they were cut, and
//! `at_least` how many there are before more is decided. `specs/Wire.antt` has what is decided,
//! stage by stage, and `docs/WIRE.md` the profile for integrators.
#![tactic(auto)]

mod answer;
mod fields;
mod head;
mod message;
mod opened;
mod refusal;

pub use answer::{Allow, Answer, memory_text, store_failed_text, write_answer};
pub use head::is_blank;
pub use message::{Message, Step, at_least, decided_stays, next_message};
pub use refusal::Refusal;
