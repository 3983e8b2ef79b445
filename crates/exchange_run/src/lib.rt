//! The commands of the exchange, from the words and the bytes that come in to the bytes that go out.
#![tactic(auto)]

mod auction;
mod commands;
mod opening;
mod try_command;
mod which_command;
mod words;
mod wrong_words;

pub use commands::run;
pub use run_commands::{Outcome, end_with};
pub use try_command::try_run;
pub use which_command::run_which;
pub use wrong_words::explain;
