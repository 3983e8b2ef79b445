//! The answer to a request for the best expressions: from the bytes of a JSON text to those of the answer.
//!
//! `specs/Answers.antt` says what is answered to which bytes, `specs/Texts.antt` how an answer and a refusal are
//! written.
#![tactic(auto)]

mod answer;
mod refusals;
mod reply;

pub use reply::{LONGEST_INPUT, Reply, which_text};
