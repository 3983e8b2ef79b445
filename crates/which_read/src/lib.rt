//! A request for the best expressions, in a JSON text: how many, the assignment, and the expressions in conjunctive
//! form with their weights, each of which is judged for the assignment as soon as it is read.
//!
//! `specs/Request.antt` says what is wrong with a text, first fault first, and what it holds, `specs/Paths.antt` how
//! the path of a field is written. A null is as an absent field, and members that are not listed never matter.
#![tactic(auto)]

mod assigned;
mod clauses;
mod expressions;
mod fault;
mod field;
mod lists;
mod parts;
mod path;
mod request;
mod weighed;

pub use assigned::assignment_field;
pub use expressions::read_expression;
pub use fault::WhichFault;
pub use field::WhichField;
pub use request::{Judged, read_judged};
