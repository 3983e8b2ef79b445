//! Why a JSON text is no campaign.
ghost use Rattle.campaign_read.specs.declared.fault.CampFault.TheVariants.{Memory};
ghost use Rattle.std.specs.Prelude.{◌≡◌};

use campaign::{CampField, FactFault};
use rtb_num::PriceFault;
use std::alloc::{AllocError, AllocFailed};
use std::fmt;
use target_expr::ExprFault;
use thiserror::Error;

/// Why a JSON text is no campaign.
#[derive(Clone, Copy, Error)]
pub enum CampFault {
    NotObject,
    /// The field is required and is absent or null.
    Missing { field: CampField },
    /// The field has a value of another type, or stands beside one that excludes it.
    WrongType { field: CampField },
    /// The field's number is not whole or out of its range.
    Range { field: CampField },
    /// The field's number is no amount of money in whole micro-dollars.
    Price { field: CampField, fault: PriceFault },
    /// What it states is past a limit.
    Fact { fault: FactFault },
    /// Its target is no expression.
    Target { fault: ExprFault },
    Memory,
}

impl CampFault {
    // What it is, without its field.
    fn text(&self) -> &'static str {
        match self {
            CampFault::NotObject => "the campaign is no object",
            CampFault::Missing { .. } => "a field is missing",
            CampFault::WrongType { .. } => "a field is of another type",
            CampFault::Range { .. } => "a field is out of its range",
            CampFault::Price { .. } => "a field is no price",
            CampFault::Fact { .. } => "a field is past a limit",
            CampFault::Target { .. } => "the target is no expression",
            CampFault::Memory => "memory ran out",
        }
    }
}

impl fmt::Display for CampFault {
    fn fmt<W: fmt::Write>(&self, f: &mut fmt::Formatter<W>) -> fmt::Result {
        f.write_str(self.text())
    }
}

impl fmt::Debug for CampFault {
    // As it is told.
    fn fmt<W: fmt::Write>(&self, f: &mut fmt::Formatter<W>) -> fmt::Result {
        f.write_str(self.text())
    }
}

impl From<AllocError> for CampFault {
    ghost from_gives = { λ _ e. e ≡ Memory };

    fn from(_: AllocError) -> CampFault {
        CampFault::Memory
    }
}

impl<T: Drop> From<AllocFailed<T>> for CampFault {
    ghost from_gives = { λ _ e. e ≡ Memory };

    fn from(_: AllocFailed<T>) -> CampFault {
        CampFault::Memory
    }
}
