//! The bodies of refusals: one JSON object each, whose member `error` names what is wrong.
//!
//! `specs/Refusals.antt` has the text of each fault. Of want of memory there is none: the text is empty.
#![tactic(auto)]

mod errors;
mod faults;

pub use errors::error_text;
pub use faults::{campaign_fault_text, json_fault_text, request_fault_text};
