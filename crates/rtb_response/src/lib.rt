//! The answer to each reply of the exchange: bid responses (OpenRTB 2.5, section 4.2), reports, and errors.
//!
//! `specs/Response.antt` has the text of a bid response, and `specs/Replies.antt` the status and the body of
//! each reply.
#![tactic(auto)]

mod bid;
mod reply;
mod response;

pub use reply::{closed, error_reply, limit_word, put_report, write_reply};
pub use response::write_response;
