//! The keys by which addresses are signed.
ghost use Rattle.std.specs.Prelude.{◌≡◌, ◌++◌, decimal};
ghost use Rattle.std.specs.Option.{option_map};
ghost use Rattle.address_keys.specs.Tokens.{is_by, is_signed, no_keys, token};

use crate::key::Key;
use crate::mac::are_digits_of;

/// The keys by which addresses are signed: none, or one, beside which that before it may be taken still.
#[derive(Drop)]
pub struct Keys {
    /// By which tokens are given. Without it no address is signed.
    pub key: Option<Key>,
    /// By which tokens were given, which are taken still.
    pub former: Option<Key>,
}

impl Keys {
    /// No address is signed.
    pub fn none() -> Keys
        ensures { result ≡ no_keys }
    {
        Keys {
            key: None,
            former: None,
        }
    }

    /// The token of the path that is `front` and the number, where addresses are signed.
    pub fn token(&self, front: &[u8], n: u64) -> Option<[u8; 32]>
        ensures { result ≡ option_map (λ key. token key (front.now ++ decimal n)) self.now.key }
    {
        match &self.key {
            Some(key) => Some(key.token(front, n)),
            None => None,
        }
    }

    /// Whether the digits are the token of that path, by the key or by the former one. All bytes are looked at, whatever they are.
    pub fn are_signed(&self, front: &[u8], n: u64, digits: &[u8]) -> bool
        ensures { result ≡ is_signed self.now (front.now ++ decimal n) digits.now }
    {
        let by_key = are_by(&self.key, front, n, digits);
        let by_former = are_by(&self.former, front, n, digits);
        by_key || by_former
    }
}

/// Whether the digits are the token of the path that is `front` and the number, by this key.
fn are_by(key: &Option<Key>, front: &[u8], n: u64, digits: &[u8]) -> bool
    ensures { result ≡ is_by key.now (front.now ++ decimal n) digits.now }
{
    match key {
        Some(key) => are_digits_of(&key.token(front, n), digits),
        None => false,
    }
}
