//! The user of a sale.
ghost use Rattle.std.specs.Prelude.{◌≡◌, IfOk, option_map};
ghost use Rattle.budget_book.specs.LastSales.{user_hash as hash_of};

use crate::hash::hash_user;
use rtb_num::Txt;
use std::alloc::{AllocError, Global};
use std::marker::Model;

/// The user of a sale, with all the memory that a sale to the user takes. Contracts see it as the user's
/// bytes.
#[derive(Drop)]
pub struct UserKey {
    text: Txt,
    // It is taken before the sale, so that a sale goes over no text.
    user_hash: u64,
}

impl Model for UserKey {
    ghost use Rattle.std.specs.Prelude.{◌≡◌, List, ℕ};
    ghost use Rattle.budget_book.specs.LastSales.{user_hash as hash_of};

    ghost Value = { List ℕ };

    ghost view = { λ k. k.text };

    ghost invariant = { λ k. k.user_hash ≡ hash_of k.text };
}

impl UserKey {
    /// The key of the user.
    pub fn make(alloc: Global, user: &[u8]) -> Result<UserKey, AllocError>
        ensures { IfOk result (λ k. k ≡ user.now) }
    {
        let text = Txt::from_slice(alloc, user)?;
        let user_hash = hash_user(user);
        Ok(UserKey { text, user_hash })
    }

    // The user for the row, and its hash.
    fn split(self) -> (Txt, u64)
        ensures { (result.0 ≡ self) × (result.1 ≡ hash_of self) }
    {
        (self.text, self.user_hash)
    }
}

// The user for the row and its hash, where there is a user.
pub(crate) fn split_key(key: Option<UserKey>) -> (Option<Txt>, Option<u64>)
    ensures { (result.0 ≡ key) × (result.1 ≡ option_map hash_of key) }
{
    match key {
        None => (None, None),
        Some(key) => {
            let (text, user_hash) = key.split();
            (Some(text), Some(user_hash))
        }
    }
}
