//! Why a list of entries is no posting list.
ghost use Rattle.std.specs.Prelude.{◌≡◌};
ghost use Rattle.postings.specs.declared.fault.BuildFault.TheVariants.{Memory as memory};

use std::alloc::AllocError;
use thiserror::Error;

/// Why a list of entries is no posting list.
///
/// The place is that of the first entry that is not above the one before it, counted from 0.
#[derive(Clone, Copy, Debug, PartialEq, Eq, Error)]
pub enum BuildFault {
    /// The entry is below the one before it.
    #[error("entry {at} is below the one before it")]
    NotSorted { at: usize },
    /// The entry equals the one before it.
    #[error("entry {at} equals the one before it")]
    Repeated { at: usize },
    #[error("memory ran out")]
    Memory,
}

impl From<AllocError> for BuildFault {
    ghost from_gives = { λ _ f. f ≡ memory };

    fn from(_: AllocError) -> BuildFault {
        BuildFault::Memory
    }
}
