//! What an advertiser states of a campaign: facts within limits, and their bytes.
//!
//! `specs/Faults.antt` has the faults in the order of the fields, `specs/Kept.antt` what is known of all
//! facts, `specs/Caps.antt` how often one user is shown a campaign, `specs/Encoding.antt` the bytes of
//! facts, `specs/Marks.antt` the marks by which most texts are told apart, and `specs/Paths.antt` how the
//! path of a field is written.
#![tactic(auto)]

mod cap;
mod check;
mod copy;
mod decode;
mod encode;
mod facts;
mod field;
mod ints;
mod laws;
mod marks;
mod parts;
mod path;

pub use cap::{Cap, MOST_SECONDS, MOST_TIMES};
pub use decode::FactBytes;
pub use facts::Facts;
pub use field::CampField;
pub use laws::{encoded_facts_are_read_again, facts_tell_their_ends};
pub use marks::{MARKS, Marks, mark_of};
pub use parts::{FactFault, FactParts};

/// The most entries of `cat`, `attr` and `deals`.
pub const MOST_ITEMS: usize = 64;
/// The most bytes of a text other than the markup.
pub const LONGEST_TEXT: usize = 255;
/// The most bytes of the markup.
pub const LONGEST_MARKUP: usize = 65_536;
/// The longest side of a creative, in pixels.
pub const LONGEST_SIDE: i32 = 32_767;
