//! Why a JSON text is no request for the best expressions.
ghost use Rattle.std.specs.Prelude.{◌≡◌};
ghost use Rattle.which_read.specs.declared.fault.WhichFault.TheVariants.{Memory as memory};

use crate::field::WhichField;
use cnf_match::CnfFault;
use std::alloc::AllocError;
use std::fmt;
use thiserror::Error;

/// Why a JSON text is no request for the best expressions.
#[derive(Clone, Copy, Error)]
pub enum WhichFault {
    #[error("the request is no object")]
    NotObject,
    /// The field is required and is absent or null.
    #[error("a field is missing")]
    Missing { field: WhichField },
    /// The field has a value of another type, or stands beside one that excludes it.
    #[error("a field is of another type")]
    WrongType { field: WhichField },
    /// The field's number is not whole or out of its range, or the array is too long.
    #[error("a field is out of its range")]
    Range { field: WhichField },
    /// What is written as the expression of this number, counted from 1, is none.
    #[error("an expression is wrong")]
    Expression { number: usize, fault: CnfFault },
    #[error("memory ran out")]
    Memory,
}

impl fmt::Debug for WhichFault {
    // As it is told.
    fn fmt<W: fmt::Write>(&self, f: &mut fmt::Formatter<W>) -> fmt::Result {
        fmt::Display::fmt(self, f)
    }
}

impl From<AllocError> for WhichFault {
    ghost from_gives = { λ _ f. f ≡ memory };

    fn from(_: AllocError) -> WhichFault {
        WhichFault::Memory
    }
}
