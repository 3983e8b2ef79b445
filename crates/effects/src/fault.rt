//! Why bytes are no effects.
ghost use Rattle.std.specs.Prelude.{◌≡◌};
ghost use Rattle.effects.specs.declared.fault.EffectFault.TheVariants.{Memory as memory};

use std::alloc::AllocError;
use thiserror::Error;

/// Why bytes are no effects.
#[derive(Clone, Copy, Debug, Error)]
pub enum EffectFault {
    /// What begins at this place is no effect.
    #[error("the bytes are of no effect")]
    Torn { at: usize },
    #[error("memory ran out")]
    Memory,
}

impl From<AllocError> for EffectFault {
    ghost from_gives = { λ _ f. f ≡ memory };

    fn from(_: AllocError) -> EffectFault {
        EffectFault::Memory
    }
}
