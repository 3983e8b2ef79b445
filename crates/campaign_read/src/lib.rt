//! The reader of campaigns: what an advertiser posts as a JSON text, as facts and a targeting
//! expression, or its first fault with the field's path.
//!
//! `specs/Campaign.antt` says which faults a text has, in the order in which fields are read, and
//! which campaign it makes. A null is as an absent field, and members that are not listed never matter.
#![tactic(auto)]

mod body;
mod cap;
mod fault;
mod lists;
mod parts;
mod target;

pub use body::read_campaign;
pub use fault::CampFault;
