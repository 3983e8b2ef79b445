//! A generator of campaigns and bid requests: the same start gives the same bodies everywhere, so that anybody can
//! repeat a run.
//!
//! `specs/Draws.antt` says which numbers are drawn, `specs/Texts.antt` what bodies are made of them.
#![tactic(auto)]

mod campaign;
mod generator;
mod parts;
mod request;

pub use generator::Gen;
