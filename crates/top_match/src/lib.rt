//! The best expressions in conjunctive form for an assignment, with a certificate that is checked without a search.
//!
//! `specs/Top.antt` says which are the best, `specs/Certificate.antt` how the certificate marks each expression.
#![tactic(auto)]

mod best;
mod checking;
mod marking;
mod rank;
mod scored;

pub use best::{top, top_from};
pub use checking::check;
pub use marking::{certify, marks_from, reason};
pub use scored::{Mark, Scored};
