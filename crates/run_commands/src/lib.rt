//! The commands with options: what each does to the world, and how it ends.
#![tactic(auto)]

mod audit_command;
mod beside_command;
mod compact_command;
mod follow_command;
mod journals;
mod make_command;
mod named_keys;
mod outcome;
mod recover_command;
mod rooms;
mod serve_command;
mod status_lines;

pub use audit_command::audit;
pub use compact_command::compact;
pub use follow_command::follow;
pub use make_command::make;
pub use outcome::Outcome;
pub use recover_command::recover;
pub use serve_command::serve;
pub use status_lines::{end_with, tell};
