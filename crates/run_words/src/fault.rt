//! Why words are of no command.
use std::alloc::AllocError;
use thiserror::Error;

/// Why words are of no command.
#[derive(Clone, Copy, Debug, Error)]
pub enum WordsFault {
    /// The command has no such words.
    #[error("the command has no such words")]
    Usage,
    /// Memory was refused.
    #[error("memory ran out")]
    Memory,
}

impl From<AllocError> for WordsFault {
    ghost use Rattle.std.specs.Prelude.{◌≡◌};
    ghost use Rattle.run_words.specs.declared.fault.WordsFault.TheVariants.{Memory};

    ghost from_gives = { λ _ e. e ≡ Memory };

    fn from(_: AllocError) -> WordsFault {
        WordsFault::Memory
    }
}
