//! Why what is written is no expression.
ghost use Rattle.std.specs.Prelude.{◌≡◌};
ghost use Rattle.target_expr.specs.declared.fault.ExprFault.TheVariants.{Memory as memory};

use std::alloc::AllocError;
use std::fmt;
use thiserror::Error;

/// Why what is written is no expression. Places are counted from 0.
#[derive(Clone, Copy, Error)]
pub enum ExprFault {
    #[error("there is no conjunction")]
    NoConjunction,
    /// The predicate lists no value.
    #[error("a predicate lists no value")]
    EmptyList {
        conjunction: usize,
        predicate: usize,
    },
    /// An earlier predicate of the conjunction has the same attribute.
    #[error("a predicate has the attribute of an earlier one")]
    AttrTwice {
        conjunction: usize,
        predicate: usize,
    },
    /// The predicate has more than 256 values or one of more than 255 bytes; or at predicate 0 the
    /// conjunction has more than 16 predicates; or at 0 and 0 there are more than 64 conjunctions.
    #[error("too much is listed")]
    TooMany {
        conjunction: usize,
        predicate: usize,
    },
    /// No attribute has that name.
    #[error("a predicate names no attribute")]
    UnknownAttr {
        conjunction: usize,
        predicate: usize,
    },
    #[error("memory ran out")]
    Memory,
}

impl fmt::Debug for ExprFault {
    // As it is told.
    fn fmt<W: fmt::Write>(&self, f: &mut fmt::Formatter<W>) -> fmt::Result {
        fmt::Display::fmt(self, f)
    }
}

impl From<AllocError> for ExprFault {
    ghost from_gives = { λ _ f. f ≡ memory };

    fn from(_: AllocError) -> ExprFault {
        ExprFault::Memory
    }
}
