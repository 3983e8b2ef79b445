//! What a journal says of an exchange: its effects are carried out again, one block after the other.
//!
//! `specs/Texts.antt` says which state the image of a journal gives, `specs/Damage.antt` where an image is
//! damaged, and `specs/Counts.antt` what `recover` tells of a state.
#![tactic(auto)]

mod blocks;
mod counts;
mod journals;
mod laws;
mod opening;
mod report;

pub use journals::{open, open_from};
pub use laws::images_give_one_state_or_are_damaged;
pub use opening::replay;
pub use report::recover;
