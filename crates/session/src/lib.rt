//! The conversation over one link: messages are read, given to a service and answered.
//!
//! `serve_link` says all of it in one contract: `specs/Streams.antt` has the messages of a stream and how
//! it ends, and `specs/Talk.antt` what was sent for them.
#![tactic(auto)]

mod input;
mod link_end;
mod receive;
mod refusals;
mod send;
mod serve;
mod service;
mod turns;

pub use link_end::{LinkEnd, stream_ends_once};
pub use serve::{LinkRoom, serve_link, serve_link_in};
pub use service::{Given, Service};
