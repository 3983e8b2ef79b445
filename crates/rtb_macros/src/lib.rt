//! Macros in a creative's markup (OpenRTB 2.5, section 4.4), and what is put in their place.
//!
//! `specs/Macros.antt` says what the pieces of markup are, and what each becomes.
#![tactic(auto)]

mod filling;
mod macros;

pub use filling::{MacroValues, may_have_macros, substitute};
pub use macros::Macro;
