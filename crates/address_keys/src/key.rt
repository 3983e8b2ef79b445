//! One key.
ghost use Rattle.std.specs.Prelude.{◌≡◌, ◌≤◌, ◌++◌, length, decimal};
ghost use Rattle.address_keys.specs.Hmac.{hmac};
ghost use Rattle.address_keys.specs.Tokens.{key_of, token};

use crate::mac::{continued, digits_of, hasher_of, mac_of, whole_block};
use itoa::Buffer;
use sha2::Sha256;
use std::marker::Model;

const LEAST: usize = 32;

const MOST: usize = 64;

const INNER_MASK: u8 = 0x36;

const OUTER_MASK: u8 = 0x5c;

/// A key of 32 to 64 bytes.
///
/// Beside its bytes stand hashers that have taken in all of a digest that is the same for each text, so that a token costs two
/// blocks of SHA-256.
#[derive(Drop)]
pub struct Key {
    bytes: [u8; 64],
    len: usize,
    inner: Sha256,
    outer: Sha256,
}

impl Model for Key {
    ghost use Rattle.std.specs.Prelude.{ℕ, List, ◌≤◌, take};
    ghost use Rattle.sha2.specs.Hashers.{Holds256};
    ghost use Rattle.address_keys.specs.Hmac.{masked, whole_block};

    ghost Value = { List ℕ };

    ghost view = { λ k. take k.len k.bytes };

    ghost invariant = { λ k. Holds256 k.inner (masked 54 (whole_block (take k.len k.bytes)))
        × Holds256 k.outer (masked 92 (whole_block (take k.len k.bytes))) };
}

impl Key {
    /// The key of these bytes, of which it has 32 to 64.
    pub fn new(bytes: &[u8]) -> Option<Key>
        ensures { result ≡ key_of bytes.now }
    {
        if bytes.len() < LEAST || bytes.len() > MOST {
            return None;
        }
        let block = whole_block(bytes);
        Some(Key {
            inner: hasher_of(&block, INNER_MASK),
            outer: hasher_of(&block, OUTER_MASK),
            len: bytes.len(),
            bytes: block,
        })
    }

    /// The token of the path that is `front` and the number: 32 hexadecimal digits.
    pub fn token(&self, front: &[u8], n: u64) -> [u8; 32]
        ensures { result ≡ token self.now (front.now ++ decimal n) }
    {
        let mut buffer = Buffer::new();
        let number = buffer.format(n).as_bytes();
        digits_of(&mac_of(
            continued(&self.inner),
            continued(&self.outer),
            front,
            number,
        ))
    }
}

/// HMAC-SHA-256 (RFC 2104) of the text under a key of at most 64 bytes.
pub fn hmac(key: &[u8], text: &[u8]) -> [u8; 32]
    requires { length key.now ≤ 64 }
    ensures { result ≡ hmac key.now text.now }
{
    let block = whole_block(key);
    mac_of(
        hasher_of(&block, INNER_MASK),
        hasher_of(&block, OUTER_MASK),
        text,
        b"",
    )
}
