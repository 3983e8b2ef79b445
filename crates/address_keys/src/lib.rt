//! Keys, and the tokens by which an address shows that it was given out.
//!
//! `specs/Tokens.antt` has what a token is: HMAC-SHA-256 (RFC 2104 over FIPS 180-4), cut to 16 bytes, in hexadecimal digits.
//! That nobody who lacks the key guesses a token is assumed of it.
#![tactic(auto)]

mod key;
mod keys;
mod mac;

pub use key::{Key, hmac};
pub use keys::Keys;
