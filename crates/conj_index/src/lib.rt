//! The index of Boolean expressions (Whang et al., "Indexing Boolean Expressions", VLDB 2009).
//!
//! `specs/Content.antt` says which posting lists stand for a list of campaigns, and
//! `specs/Find.antt` what is found for an assignment and what it costs.
#![tactic(auto)]

mod build;
mod builder;
mod fault;
mod find;
mod growing;
mod index;
mod key;
mod laws;
mod part;
mod scanning;
mod scratch;

pub use builder::Builder;
pub use fault::IndexFault;
pub use index::Index;
pub use key::Key;
pub use laws::{
    a_conjunction_stands_once_under_each_pair, a_find_costs_what_its_campaigns_say,
    posting_lists_rise,
};
pub use part::Part;
pub use scanning::scan;
pub use scratch::Scratch;
