//! The steps of HMAC (RFC 2104) over SHA-256, and the digits of a token.
ghost use Rattle.std.specs.Prelude.{◌≡◌, ◌≤◌, ◌++◌, List, ℕ, length, take};
ghost use Rattle.std.specs.Str.{bytes_eq};
ghost use Rattle.hex.specs.Hex.{encode_lower};
ghost use Rattle.sha2.specs.Hashers.{Holds256};
ghost use Rattle.sha2.specs.Sha256.{sha256};
ghost use Rattle.address_keys.specs.Hmac.{masked, whole_block};

use sha2::{Digest, Sha256};

/// The bytes of a key with zeros behind them, up to a block.
pub fn whole_block(key: &[u8]) -> [u8; 64]
    requires { length key.now ≤ 64 }
    ensures { result ≡ whole_block key.now }
{
    let mut block = [0u8; 64];
    block[..key.len()].copy_from_slice(key);
    block
}

/// A hasher that has taken in the block, each byte of it under the mask.
pub fn hasher_of(block: &[u8; 64], mask: u8) -> Sha256
    ensures { Holds256 result (masked mask block.now) }
{
    let mut bytes = [0u8; 64];
    'bytes: for i in 0..64 {
        bytes[i] = block[i] ^ mask;
    }
    Sha256::new_with_prefix(bytes)
}

/// A hasher that goes on where this one stands.
pub fn continued(hasher: &Sha256) -> Sha256
    ensures { result ≡ hasher.now }
{
    match hasher.clone() {
        Ok(copy) => copy,
        Err(_) => unreachable!(),
    }
}

/// The digest of what `outer` has taken in and of the digest of what `inner` has taken in and the text, which is `front` and `rest`.
pub fn mac_of(mut inner: Sha256, mut outer: Sha256, front: &[u8], rest: &[u8]) -> [u8; 32]
    ensures { (a b : List ℕ) → Holds256 inner a → Holds256 outer b
        → result ≡ sha256 (b ++ sha256 (a ++ (front.now ++ rest.now))) }
{
    inner.update(front);
    inner.update(rest);
    outer.update(inner.finalize());
    outer.finalize()
}

/// The first 16 bytes as 32 digits.
pub fn digits_of(mac: &[u8; 32]) -> [u8; 32]
    ensures { result ≡ encode_lower (take 16 mac.now) }
{
    let mut digits = [0u8; 32];
    match hex::encode_to_slice(&mac[..16], &mut digits) {
        Ok(()) => digits,
        Err(_) => unreachable!(),
    }
}

/// Whether these digits are those of the token. All bytes are looked at whatever they are, so that the time that it takes tells
/// nobody how many of them are right.
pub fn are_digits_of(token: &[u8; 32], digits: &[u8]) -> bool
    ensures { result ≡ bytes_eq digits.now token.now }
{
    if digits.len() != 32 {
        return false;
    }
    let mut differing = 0u8;
    'bytes: for i in 0..32 {
        differing |= digits[i] ^ token[i];
    }
    differing == 0
}
