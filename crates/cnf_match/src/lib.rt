//! Boolean expressions in conjunctive form (Whang et al., "Indexing Boolean Expressions", VLDB 2009, section 5).
//!
//! An expression is a conjunction of clauses, each a disjunction of predicates "attribute in values" and "attribute
//! not in values", with weights for values of attributes. `specs/Conjunctive.antt` says when it is true and what it
//! scores, `specs/Making.antt` what is refused, `specs/Content.antt` which lists stand for a list of expressions, and
//! `specs/Find.antt` what is found among them and what it costs.
#![tactic(auto)]

mod build;
mod check;
mod counted;
mod expr;
mod fault;
mod find;
mod growing;
mod index;
mod make;
mod name_view;
mod names;
mod pred;
mod rising;
mod text_view;
mod truth;
mod values;
mod weight;

pub use counted::Counted;
pub use expr::CnfExpr;
pub use fault::CnfFault;
pub use index::{CnfIndex, Entry, Key};
pub use name_view::NameView;
pub use pred::{Pred, RawPred};
pub use text_view::TextView;
pub use values::Listed;
pub use weight::{RawWeight, Weight};

/// The most clauses of an expression.
pub const MOST_CLAUSES: usize = 16;

/// The most weights of an expression.
pub const MOST_WEIGHTS: usize = 64;

/// The greatest weight.
pub const GREATEST_WEIGHT: u32 = 1_000_000;

/// The most expressions of an index.
pub const MOST_EXPRESSIONS: usize = 4_096;
