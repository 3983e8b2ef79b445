//! Boolean targeting expressions (Whang et al., "Indexing Boolean Expressions", VLDB 2009).
//!
//! An expression is a disjunction of conjunctions, each of predicates "attribute in values" and
//! "attribute not in values". It speaks of an assignment of values to attributes. `specs/Truth.antt`
//! says when it is true, `specs/Kept.antt` what is refused and in what order it is kept,
//! `specs/Pairs.antt` what an index is built from, `specs/Bytes.antt` what its bytes are, and
//! `specs/Written.antt` when it is true as it is written.
#![tactic(auto)]

mod assignment;
mod attr;
mod check;
mod copy;
mod decode;
mod encode;
mod expr;
mod fault;
mod laws;
mod make;
mod order;
mod pairs;
mod pred;
mod sums;
mod truth;

pub use assignment::Assignment;
pub use attr::{Attr, attr_named};
pub use decode::ExprBytes;
pub use expr::Expr;
pub use fault::ExprFault;
pub use laws::{
    encoded_expressions_are_read_again, expressions_tell_their_ends, keeping_changes_no_truth,
};
pub use pred::{Pair, Pred, RawPred};
pub use truth::pred_holds;

/// The most conjunctions of an expression.
pub const MOST_CONJUNCTIONS: usize = 64;

/// The most predicates of a conjunction.
pub const MOST_PREDICATES: usize = 16;

/// The most values of a predicate, as they are written.
pub const MOST_VALUES: usize = 256;

/// The most bytes of a value.
pub const LONGEST_VALUE: usize = 255;
