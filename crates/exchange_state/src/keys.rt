//! Candidates are brought near their order by keys, which move in fewer steps than they do.
ghost use Rattle.std.specs.Prelude.{◌≡◌, ◌≤◌, ◌<◌, ◌*◌, ◌%◌, ◌^◌, All, IfOk, length, map};
ghost use Rattle.std.specs.List.Sorted.{IsPermutation};
ghost use Rattle.std.proofs.Common.{get_or};
ghost use Rattle.clearing.specs.declared.Offer.{Offer as AnOffer};
ghost use Rattle.exchange_state.specs.Keys.{place_in, places};

use clearing::Offer;
use std::alloc::{AllocError, Global};

// A key is that many times what comes before, and the place of the offer.
const SPAN: u64 = 8_388_608;

// No bid is above this, in micro-dollars per thousand impressions.
const MOST: u64 = 1_000_000_000_000;

// As few are put in order without keys.
const FEW: usize = 32;

/// The same offers. Where they come campaign by campaign they stand in the order of `put_in_order` then, which finds that
/// out without moving them.
pub(crate) fn by_bid(alloc: Global, offers: Vec<Offer>) -> Result<Vec<Offer>, AllocError>
    ensures { IfOk result (λ sorted. IsPermutation offers.items sorted.items) }
{
    if offers.len() <= FEW {
        return Ok(offers);
    }
    if SPAN < offers.len() as u64 {
        return Ok(offers);
    }
    let mut keys = keys_of(alloc, offers.as_slice())?;
    keys.sort_unstable();
    placed(alloc, offers.as_slice(), keys.as_slice())
}

// The key of each offer, in their order.
fn keys_of(alloc: Global, offers: &[Offer]) -> Result<Vec<u64>, AllocError>
    requires { length offers.now ≤ 8388608 }
    ensures { IfOk result (λ keys. map place_in keys.items ≡ places (length offers.now)) }
{
    let mut keys = Vec::with_capacity(alloc, offers.len())?;
    for offer in offers {
        let place = keys.as_slice().len() as u64;
        keys.push(key_of(offer, place))?;
    }
    Ok(keys)
}

fn key_of(offer: &Offer, place: u64) -> u64
    requires { place < 8388608 }
    ensures { place_in result ≡ place }
{
    behind(offer) * SPAN + place
}

// How far it comes behind: deals before the public pool, and the greater bid first.
fn behind(offer: &Offer) -> u64
    ensures { result ≤ 2 * 10 ^ 12 }
{
    let below = MOST - offer.bid.get();
    if offer.pool > 0 { below } else { MOST + below }
}

// The offers at the places of these keys.
fn placed(alloc: Global, offers: &[Offer], keys: &[u64]) -> Result<Vec<Offer>, AllocError>
    requires { All (λ key. place_in key < length offers.now) keys.now }
    ensures { (d : AnOffer) → IfOk result (λ v. v.items ≡ map (λ key. get_or offers.now (place_in key) d) keys.now) }
{
    let mut all = Vec::with_capacity(alloc, keys.len())?;
    for key in keys {
        all.push(offers[(*key % SPAN) as usize])?;
    }
    Ok(all)
}
