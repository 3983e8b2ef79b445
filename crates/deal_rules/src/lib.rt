//! Where a campaign offers for an impression, why it does not, and by what terms each pool sells (OpenRTB
//! 2.5, sections 3.2.1 to 3.2.12).
//!
//! `specs/Rules.antt` has the fourteen rules as one list, `specs/Offers.antt` the offers and the first rule
//! that excludes, and `specs/Terms.antt` the terms of the pools and the user of a request.
#![tactic(auto)]

mod alike;
mod asked;
mod lists;
mod names;
mod numbers;
mod offering;
mod opportunity;
mod pools;
mod rule;
mod texts;

pub use asked::Asked;
pub use offering::{may_pay, offers, offers_stand, push_candidates, why_not};
pub use pools::user_of;
pub use rule::Rule;
