//! Candidates in order, asked one by one until it is known who wins and what it pays.
ghost use Rattle.std.specs.Prelude.{◌≡◌, ◌≤◌, ◌+◌, ◌++◌, ◌^◌, ℕ, List, Bool, IsTrue, Some, filter, option_map, slice_get, true};
ghost use Rattle.std.specs.List.{list_all};
ghost use Rattle.std.specs.List.Sorted.{IsPermutation};
ghost use Rattle.std.specs.Ordering.{is_lt};
ghost use Rattle.clearing.specs.Candidates.{asked, asked_for_first, asked_for_next, first_that_pays, is_beaten_by, is_in_order, next_that_pays, price_above, refused_first, win_above};
ghost use Rattle.clearing.specs.Clearing.{beats, greatest_bid, is_fit, outcome, rivals, winner};
ghost use Rattle.clearing.specs.declared.Terms.{Terms as ItsTerms};

use crate::{Offer, PriceKind, Terms, Win, best, greatest_rival_bid, second_price};
use rtb_base::Steps;
use rtb_num::Micros;
use std::cmp::Ordering;
use std::sync::ledger::Ledger;

/// Who may pay what it bids.
pub trait Payers {
    ghost use Rattle.std.specs.Prelude.{Bool};
    ghost use Rattle.clearing.specs.declared.Offer.{Offer as AnOffer};

    // Which may pay, and which may be asked.
    ghost pays: { Self → AnOffer → Bool };

    ghost knows: { Self → AnOffer → Bool };

    /// Whether the candidate may pay what it bids.
    fn may_pay(&self, candidate: &Offer) -> bool
        requires known { IsTrue (knows self.now candidate.now) }
        ensures { result ≡ pays self.now candidate.now };
}

/// What clearing candidates in order gives.
#[derive(Clone, Copy)]
pub struct Cleared {
    pub win: Option<Win>,
    /// How many candidates, from the first on, were asked and may not pay.
    pub refused: usize,
}

/// Sells one impression: as `clear`, of the candidates that may pay and of the others, which all may.
///
/// The candidates stand in the order in which one beats the other. One step is one of them that is asked; none is asked
/// behind the one that sets the price.
pub fn clear_in_order<P: Payers, L: Ledger>(
    candidates: &[Offer],
    others: &[Offer],
    terms: &[Terms],
    payers: &P,
    steps: &mut Steps<L>,
) -> Cleared
    requires order { IsTrue (is_in_order candidates.now) }
    requires known { IsTrue (list_all (P.knows payers.now) candidates.now) }
    requires fit { IsTrue (list_all (is_fit terms.now) candidates.now) }
    requires others { IsTrue (list_all (is_fit terms.now) others.now) }
    ensures sale { result.win ≡ outcome (filter (P.pays payers.now) candidates.now ++ others.now) terms.now }
    ensures refused { result.refused ≡ refused_first (P.pays payers.now) (winner others.now) candidates.now }
    ensures cost { steps.new ≤ steps.old + asked (P.pays payers.now) others.now candidates.now }
{
    let best = best(others);
    let mut refused = 0;
    match first_that_pays(candidates, best, payers, &mut refused, steps) {
        Some((winner, behind)) => Cleared {
            win: Some(sale_above(&winner, behind, others, terms, payers, steps)),
            refused,
        },
        None => Cleared { win: None, refused },
    }
}

// The first candidate that may pay, or the best of the others where it comes before, and the candidates behind; and how
// many may not.
fn first_that_pays<'a, P: Payers, L: Ledger>(
    candidates: &'a [Offer],
    best: Option<Offer>,
    payers: &P,
    refused: &mut usize,
    steps: &mut Steps<L>,
) -> Option<(Offer, &'a [Offer])>
    requires known { IsTrue (list_all (P.knows payers.now) candidates.now) }
    requires none { refused.old ≡ 0 }
    ensures value { option_map (λ p. (p.0, p.1.now)) result ≡ first_that_pays (P.pays payers.now) best candidates.now }
    ensures refused { refused.new ≡ refused_first (P.pays payers.now) best candidates.now }
    ensures cost { steps.new ≡ steps.old + asked_for_first (P.pays payers.now) best candidates.now }
{
    let mut rest = candidates;
    while let [candidate, more @ ..] = rest {
        if is_beaten_by(&best, candidate) {
            break;
        }
        steps.tick();
        if payers.may_pay(candidate) {
            return Some((*candidate, more));
        }
        *refused += 1;
        rest = more;
    }
    match best {
        Some(best) => Some((best, rest)),
        None => None,
    }
}

fn is_beaten_by(best: &Option<Offer>, candidate: &Offer) -> bool
    ensures { result ≡ is_beaten_by best.now candidate.now }
{
    match best {
        Some(best) => best.beats(candidate),
        None => false,
    }
}

// What the winner buys, with these candidates behind it.
fn sale_above<P: Payers, L: Ledger>(
    winner: &Offer,
    behind: &[Offer],
    others: &[Offer],
    terms: &[Terms],
    payers: &P,
    steps: &mut Steps<L>,
) -> Win
    requires known { IsTrue (list_all (P.knows payers.now) behind.now) }
    requires fit { IsTrue (is_fit terms.now winner.now) }
    ensures value { (t : ItsTerms) → slice_get terms.now winner.now.pool ≡ Some t → result ≡ win_above winner.now t (next_that_pays (P.pays payers.now) winner.now (greatest_bid (rivals winner.now others.now)) behind.now) }
    ensures cost { steps.new ≤ steps.old + asked_for_next (P.pays payers.now) winner.now (greatest_bid (rivals winner.now others.now)) behind.now }
{
    Win {
        campaign: winner.campaign,
        pool: winner.pool,
        price: price_above(winner, &terms[winner.pool], behind, others, payers, steps),
    }
}

// What the winner pays.
fn price_above<P: Payers, L: Ledger>(
    winner: &Offer,
    terms: &Terms,
    behind: &[Offer],
    others: &[Offer],
    payers: &P,
    steps: &mut Steps<L>,
) -> Micros
    requires known { IsTrue (list_all (P.knows payers.now) behind.now) }
    ensures value { result ≡ price_above terms.now.kind terms.now.floor winner.now.bid (next_that_pays (P.pays payers.now) winner.now (greatest_bid (rivals winner.now others.now)) behind.now) }
    ensures cost { steps.new ≤ steps.old + asked_for_next (P.pays payers.now) winner.now (greatest_bid (rivals winner.now others.now)) behind.now }
{
    match terms.kind {
        PriceKind::First => winner.bid,
        PriceKind::Second => {
            let known = greatest_rival_bid(winner, others);
            let next_bid = next_that_pays(winner, known, behind, payers, steps);
            second_price(winner.bid, terms.floor, next_bid)
        }
        PriceKind::Agreed => terms.floor,
    }
}

// The next bid, where this one is known.
fn next_that_pays<P: Payers, L: Ledger>(
    winner: &Offer,
    known: u64,
    behind: &[Offer],
    payers: &P,
    steps: &mut Steps<L>,
) -> u64
    requires known { IsTrue (list_all (P.knows payers.now) behind.now) }
    requires bound { known ≤ 10 ^ 12 }
    ensures value { result ≡ next_that_pays (P.pays payers.now) winner.now known behind.now }
    ensures cost { steps.new ≡ steps.old + asked_for_next (P.pays payers.now) winner.now known behind.now }
    ensures bound { result ≤ 10 ^ 12 }
{
    let mut rest = behind;
    while let [candidate, more @ ..] = rest {
        if candidate.is_rival_of(winner) {
            if candidate.bid.get() <= known {
                return known;
            }
            steps.tick();
            if payers.may_pay(candidate) {
                return candidate.bid.get();
            }
        }
        rest = more;
    }
    known
}

/// Puts candidates in the order in which `clear_in_order` takes them.
pub fn put_in_order(candidates: &mut [Offer])
    ensures same { IsPermutation candidates.old candidates.new }
    ensures order { IsTrue (is_in_order candidates.new) }
{
    candidates.sort_unstable_by(|a, b| order_of(a, b));
}

// Less, where the first beats the other.
fn order_of(a: &Offer, b: &Offer) -> Ordering
    ensures { is_lt result ≡ beats a.now b.now }
{
    if a.is_deal() != b.is_deal() {
        return b.is_deal().cmp(&a.is_deal());
    }
    if a.bid != b.bid {
        return b.bid.cmp(&a.bid);
    }
    if a.campaign != b.campaign {
        return a.campaign.cmp(&b.campaign);
    }
    a.pool.cmp(&b.pool)
}
