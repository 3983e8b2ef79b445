//! Why an index is not built.
ghost use Rattle.std.specs.Prelude.{◌≡◌};
ghost use Rattle.conj_index.specs.declared.fault.IndexFault.TheVariants.{Memory as memory};

use std::alloc::AllocError;
use thiserror::Error;

/// Why an index is not built.
#[derive(Clone, Copy, Debug, PartialEq, Eq, Error)]
pub enum IndexFault {
    #[error("memory ran out")]
    Memory,
}

impl From<AllocError> for IndexFault {
    ghost from_gives = { λ _ f. f ≡ memory };

    fn from(_: AllocError) -> IndexFault {
        IndexFault::Memory
    }
}
