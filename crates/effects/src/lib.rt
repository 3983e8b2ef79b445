//! The bytes of effects: what commands changed, as a journal has it.
//!
//! `specs/Tags.antt` has the tags of changes, and `specs/Bytes.antt` the bytes, and what bytes are no
//! effects.
#![tactic(auto)]

mod changes;
mod decoder;
mod encoder;
mod fault;
mod fields;
mod items;
mod kept;
mod laws;
mod parts;
mod tag;

pub use decoder::decode;
pub use encoder::encode;
pub use fault::EffectFault;
pub use laws::{
    effects_tell_their_ends, encoded_effects_are_read_again, examples_have_their_bytes,
};
pub use plain_exchange::{Change, Effect, KeptCampaign, SoldItem};
