//! Who wins an impression, and at what price.
//!
//! `specs/Clearing.antt` has the rules: the winner is the offer that no other beats, and pays by
//! the terms of its pool.
#![tactic(auto)]

ghost use Rattle.std.specs.Prelude.{◌≡◌, ◌≤◌, ◌↔◌, ◌^◌, ◌+◌, ◌==◌, ◌&&◌, [], max, min, not, List, Some, IsNone, IsTrue, ◌++◌, filter, true, false, Bool, ℕ, Contains, drop, slice_get};
ghost use Rattle.std.specs.List.{flat_map, list_all};
ghost use Rattle.clearing.specs.Candidates.{IsRefused, asked, is_in_order, offers_where, walked};
ghost use Rattle.clearing.specs.Clearing.{IsUnbeaten, beats, greatest_bid, increment, is_deal, is_fit, outcome, price_of, rivals, win_by, winner};

mod walk;

use rtb_num::Micros;
pub use walk::{Cleared, Payers, clear_in_order, put_in_order};

// How far the second price is above the next bid, in micro-dollars per thousand impressions.
const INCREMENT: u64 = 10_000;

/// What a campaign bids for an impression in one pool.
///
/// Pool 0 is the public pool, and pool k + 1 that of the impression's deal k.
#[derive(Clone, Copy)]
pub struct Offer {
    /// The campaign's number.
    pub campaign: u32,
    /// Micro-dollars per thousand impressions.
    pub bid: Micros,
    pub pool: usize,
}

impl Offer {
    // Whether it is for the pool of a deal.
    fn is_deal(&self) -> bool
        ensures { result ≡ is_deal self.now }
    {
        self.pool > 0
    }

    // Whether it goes before the other.
    fn beats(&self, other: &Offer) -> bool
        ensures { result ≡ beats self.now other.now }
    {
        if self.is_deal() != other.is_deal() {
            return self.is_deal();
        }
        if self.bid != other.bid {
            return self.bid > other.bid;
        }
        if self.campaign != other.campaign {
            return self.campaign < other.campaign;
        }
        self.pool < other.pool
    }

    // Whether it is of another campaign in the same pool.
    fn is_rival_of(&self, other: &Offer) -> bool
        ensures { result ≡ ((self.now.pool == other.now.pool) && not (self.now.campaign == other.now.campaign)) }
    {
        self.pool == other.pool && self.campaign != other.campaign
    }
}

/// How the price of a sale is made (OpenRTB 2.5, section 3.2.1, `at`; section 3.2.12 for deals).
#[derive(Clone, Copy)]
pub enum PriceKind {
    /// The winner pays its bid.
    First,
    /// The winner pays 0.01 US dollars above the greatest bid of another campaign in its pool, at
    /// least the floor and at most its own bid.
    Second,
    /// The winner pays the floor, which the deal agreed on.
    Agreed,
}

/// The terms of a pool.
#[derive(Clone, Copy)]
pub struct Terms {
    /// The least bid, in micro-dollars per thousand impressions.
    pub floor: Micros,
    pub kind: PriceKind,
}

/// A sale.
#[derive(Clone, Copy)]
pub struct Win {
    /// The winner's campaign number.
    pub campaign: u32,
    /// The pool that it won in.
    pub pool: usize,
    /// What it pays, in micro-dollars per thousand impressions.
    pub price: Micros,
}

/// Sells one impression: the winner of the offers, and its price by the terms of its pool.
///
/// `terms` has one entry a pool. It takes two passes over the offers.
pub fn clear(offers: &[Offer], terms: &[Terms]) -> Option<Win>
    requires { IsTrue (list_all (is_fit terms.now) offers.now) }
    ensures sale { result ≡ outcome offers.now terms.now }
    ensures unsold { IsNone result ↔ (offers.now ≡ []) }
{
    let winner = best(offers)?;
    Some(sale(&winner, offers, terms))
}

// The offer that no other beats.
fn best(offers: &[Offer]) -> Option<Offer>
    ensures value { result ≡ winner offers.now }
    ensures variant { IsNone result ↔ (offers.now ≡ []) }
{
    let (first, rest) = offers.split_first()?;
    let mut best = *first;
    for offer in rest {
        if offer.beats(&best) {
            best = *offer;
        }
    }
    Some(best)
}

// What the winner is sold.
fn sale(winner: &Offer, offers: &[Offer], terms: &[Terms]) -> Win
    requires { IsTrue (is_fit terms.now winner.now) }
    ensures { (t : Terms) → slice_get terms.now winner.now.pool ≡ Some t → result ≡ win_by offers.now winner.now t }
{
    Win {
        campaign: winner.campaign,
        pool: winner.pool,
        price: price(winner, &terms[winner.pool], offers),
    }
}

// What the winner pays.
fn price(winner: &Offer, terms: &Terms, offers: &[Offer]) -> Micros
    ensures { result ≡ price_of terms.now.kind terms.now.floor winner.now offers.now }
{
    match terms.kind {
        PriceKind::First => winner.bid,
        PriceKind::Second => {
            let next_bid = greatest_rival_bid(winner, offers);
            second_price(winner.bid, terms.floor, next_bid)
        }
        PriceKind::Agreed => terms.floor,
    }
}

// The increment above the next bid, at least the floor and at most the winner's bid.
fn second_price(bid: Micros, floor: Micros, next_bid: u64) -> Micros
    requires { next_bid ≤ 10 ^ 12 }
    ensures { result ≡ min bid (max floor (next_bid + increment)) }
{
    match Micros::new(next_bid + INCREMENT) {
        Some(above) => above.max(floor).min(bid),
        None => bid,
    }
}

// The greatest bid of the winner's rivals, in micro-dollars per thousand impressions, or 0 where
// there is none.
fn greatest_rival_bid(winner: &Offer, offers: &[Offer]) -> u64
    ensures value { result ≡ greatest_bid (rivals winner.now offers.now) }
    ensures bound { result ≤ 10 ^ 12 }
{
    let mut greatest = 0;
    for other in offers {
        if other.is_rival_of(winner) {
            greatest = greatest.max(other.bid.get());
        }
    }
    greatest
}

/// No offer beats the winner, and it is one of the offers.
pub fn winner_is_unbeaten()
    ensures { (offers : List Offer) (o : Offer) → winner offers ≡ Some o → IsUnbeaten offers o }
{}

/// A price is at least the floor and at most the bid.
pub fn price_is_fair()
    ensures { (offers : List Offer) (o : Offer) (terms : List Terms) (t : Terms) → slice_get terms o.pool ≡ Some t → IsTrue (is_fit terms o)
        → (t.floor ≤ price_of t.kind t.floor o offers) × (price_of t.kind t.floor o offers ≤ o.bid) }
{}

/// Of candidates in order, those that may pay beside others that all may are cleared by a walk: the first that may pay
/// wins, where none of the others beats it, and pays above the first of its rivals behind it that may pay.
pub fn walk_clears()
    ensures { (may : Offer → Bool) (others : List Offer) (terms : List Terms) (os : List Offer) → is_in_order os ≡ true → outcome (filter may os ++ others) terms ≡ walked may others os terms }
{}

/// Candidates at the front that may not pay play no part in a sale without others, and need not be asked.
pub fn fronts_are_passed()
    ensures { (may : Offer → Bool) (os : List Offer) (k : ℕ) → IsRefused may os k → (filter may os ≡ filter may (drop k os)) × (asked may [] (drop k os) ≤ asked may [] os) }
{}

/// What clearing gives depends on which offers there are, and not on their order.
pub fn order_is_free()
    ensures { (terms : List Terms) (xs ys : List Offer) → ((o : Offer) → Contains xs o ↔ Contains ys o) → outcome xs terms ≡ outcome ys terms }
{}

/// Of campaigns of which some were touched since candidates were found: the candidates of the others that may pay,
/// beside the offers of the touched, sell what the offers of all sell.
pub fn touched_are_merged()
    ensures { (terms : List Terms) (touched pay : ℕ → Bool) (cands : ℕ → List Offer) (may : Offer → Bool) (now before : List ℕ) (cs : List Offer)
        → ((p : ℕ) → touched p ≡ false → Contains now p ↔ Contains before p)
        → ((o : Offer) → Contains cs o ↔ Contains (flat_map cands before) o)
        → ((p : ℕ) (o : Offer) → Contains before p → Contains (cands p) o → may o ≡ (not (touched p) && pay p))
        → outcome (flat_map (offers_where pay cands) now) terms ≡ outcome (filter may cs ++ flat_map (offers_where pay cands) (filter touched now)) terms }
{}
