//! Why a message is read as no command.
ghost use Rattle.std.specs.Prelude.{◌≡◌};
ghost use Rattle.command_read.specs.declared.fault.CommandFault.TheVariants.{Memory as memory};

use http_wire::Answer;
use std::alloc::AllocError;
use thiserror::Error;

/// Why a message is read as no command.
#[derive(Debug, Drop, Error)]
pub enum CommandFault {
    /// The answer that refuses it, with status 400, 403, 404 or 405.
    #[error("the message is refused")]
    Refused { refusal: Answer },
    #[error("memory ran out")]
    Memory,
}

impl From<AllocError> for CommandFault {
    ghost from_gives = { λ _ e. e ≡ memory };

    fn from(_: AllocError) -> CommandFault {
        CommandFault::Memory
    }
}
