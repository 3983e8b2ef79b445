//! A message as a command to the exchange, or the answer that refuses it.
//!
//! `specs/Paths.antt` has the paths with their methods and tokens, `specs/Commands.antt` what a message asks for, and
//! `specs/Signed.antt` what its token is for.
#![tactic(auto)]

mod bodies;
mod fault;
mod methods;
mod numbers;
mod paths;
mod places;
mod read;
mod refusals;
mod rooms;

pub use fault::CommandFault;
pub use read::{message_has_one_reading, notices_are_signed, read_command, read_command_in};
pub use rooms::Rooms;
