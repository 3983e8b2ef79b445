//! The index of an exchange's live campaigns, and which of them the impressions of an auction reach.
//!
//! `specs/Reached.antt` says which expressions stand in the index.
#![tactic(auto)]

mod index;
mod reached;

pub use index::index_of_live;
pub use reached::{find_by_index, find_by_index_with};
