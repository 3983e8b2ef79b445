//! Matching of conjunctions over posting lists (Whang et al. 2009, section 4).
#![tactic(auto)]

mod bits;
mod cursor;
mod leaping;
mod lengths;
mod marking;
mod matching;
mod merging;
mod skipping;
mod taking;
mod tally;

pub use cursor::Cursor;
pub use matching::match_lists;
pub use tally::Tally;
