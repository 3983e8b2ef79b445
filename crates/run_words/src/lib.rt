//! Which command the words of `rtbx` are of, where it is one with options, and what a person is told of it.
#![tactic(auto)]

mod address;
mod audit;
mod commands;
mod compact;
mod fault;
mod follow;
mod help;
mod make;
mod matched;
mod options;
mod recover;
mod serve;
mod texts;
mod which;

pub use audit::{AuditOptions, audit_options};
pub use commands::{CommandLine, Topic, command_line, is_question};
pub use compact::{CompactOptions, compact_options};
pub use fault::WordsFault;
pub use follow::{FollowOptions, follow_options};
pub use help::{help_text, refusal_line, version_text};
pub use make::{MakeOptions, make_options};
pub use recover::{RecoverOptions, recover_options};
pub use serve::{ServeOptions, serve_options};
