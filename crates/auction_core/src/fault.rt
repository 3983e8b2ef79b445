//! Why an effect was not carried out.
ghost use Rattle.std.specs.Prelude.{◌≡◌};
ghost use Rattle.auction_core.specs.declared.fault.ApplyFault.TheVariants.{Memory};

use std::alloc::AllocError;
use thiserror::Error;

/// Why an effect was not carried out.
#[derive(Clone, Copy, Debug, Error)]
pub enum ApplyFault {
    /// It does not fit the state.
    #[error("the effect does not fit the state")]
    Unfit,
    #[error("memory ran out")]
    Memory,
}

impl From<AllocError> for ApplyFault {
    ghost from_gives = { λ _ f. f ≡ Memory };

    fn from(_: AllocError) -> ApplyFault {
        ApplyFault::Memory
    }
}
