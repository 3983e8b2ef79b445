//! Why what is written is no expression in conjunctive form.
ghost use Rattle.std.specs.Prelude.{◌≡◌};
ghost use Rattle.cnf_match.specs.declared.fault.CnfFault.TheVariants.{Memory as memory};

use std::alloc::AllocError;
use std::fmt;
use thiserror::Error;

/// Why what is written is no expression in conjunctive form. Places are counted from 0.
#[derive(Clone, Copy, Error)]
pub enum CnfFault {
    /// The predicate has more than 256 values or one of more than 255 bytes; or at predicate 0 the clause has more
    /// than 16 predicates; or at 0 and 0 there are more than 16 clauses.
    #[error("too much is listed")]
    TooMany { clause: usize, predicate: usize },
    /// The clause has no predicate.
    #[error("a clause is empty")]
    EmptyClause { clause: usize },
    /// No attribute has that name.
    #[error("a predicate names no attribute")]
    UnknownAttr { clause: usize, predicate: usize },
    /// The predicate lists no value.
    #[error("a predicate lists no value")]
    EmptyList { clause: usize, predicate: usize },
    /// The weight is the 65th, or is above 1,000,000; or its attribute has no such name, its value is of more than 255
    /// bytes, or an earlier weight is of the same value of the same attribute.
    #[error("a weight is wrong")]
    Weight { at: usize },
    #[error("memory ran out")]
    Memory,
}

impl fmt::Debug for CnfFault {
    // As it is told.
    fn fmt<W: fmt::Write>(&self, f: &mut fmt::Formatter<W>) -> fmt::Result {
        fmt::Display::fmt(self, f)
    }
}

impl From<AllocError> for CnfFault {
    ghost from_gives = { λ _ f. f ≡ memory };

    fn from(_: AllocError) -> CnfFault {
        CnfFault::Memory
    }
}
