//! Which candidates may pay beside the awards of the same request.
ghost use Rattle.std.specs.Prelude.{◌≡◌, ◌≤◌, ◌^◌, length, Some};
ghost use Rattle.std.specs.List.Sorted.{IsStrictlyIncreasing};
ghost use Rattle.auction_core.specs.Auctions.{beside};
ghost use Rattle.auction_core.specs.Payers.{pays_as};
ghost use Rattle.plain_exchange.specs.State.{Campaign, campaign_at};

use crate::exchange::Core;
use clearing::{Offer, Payers, Win};
use deal_rules::may_pay;
use rtb_num::{Micros, Nanos};
use rtb_types::BidRequest;
use std::marker::Model;

impl Core {
    // Whether campaign `n` may pay this bid, which is its own, beside the awards. What is free of its budget is asked
    // first: of a campaign that has spent it nothing else is looked at.
    pub(crate) fn may_pay_bid(
        &self,
        request: &BidRequest,
        moment: u64,
        n: u32,
        bid: Micros,
        awards: &[(u32, Win)],
    ) -> bool
        requires few { length awards.now ≤ 64 }
        requires there { (1 ≤ n) × (n ≤ length self.now.state.campaigns) }
        requires bid { (c : Campaign) → campaign_at self.now.state n ≡ Some c → bid ≡ c.facts.bid }
        ensures { (c : Campaign) → campaign_at self.now.state n ≡ Some c → result ≡ pays_as (beside self.now.settings moment request.now self.now.state awards.now) request.now moment n c }
    {
        let free = self.free_beside(n, moment, awards);
        if free < Nanos::from(bid) {
            return false;
        }
        let facts = &self.entry(n).record().facts;
        let shown = self.count_shown_beside(n, facts.cap(), request, moment, awards);
        may_pay(facts, free, shown)
    }
}

/// The numbers of campaigns that were touched, rising. Contracts see them as their list.
#[derive(Drop)]
pub(crate) struct Touched<'a> {
    numbers: &'a [u32],
}

impl<'a> Model for Touched<'a> {
    ghost use Rattle.std.specs.Prelude.{ℕ, List};
    ghost use Rattle.std.specs.List.Sorted.{IsStrictlyIncreasing};

    ghost Value = { List ℕ };

    ghost view = { λ t. t.numbers.now };

    ghost invariant = { λ t. IsStrictlyIncreasing t.numbers.now };
}

impl<'a> Touched<'a> {
    ghost use Rattle.std.specs.Prelude.{◌≡◌};
    ghost use Rattle.std.specs.List.Sorted.{IsStrictlyIncreasing};
    ghost use Rattle.auction_core.specs.Found.{is_touched};

    /// These numbers.
    pub fn new(numbers: &'a [u32]) -> Touched<'a>
        requires { IsStrictlyIncreasing numbers.now }
        ensures { result ≡ numbers.now }
    {
        Touched { numbers }
    }

    /// Whether the number is one of them.
    pub fn has(&self, number: &u32) -> bool
        ensures { result ≡ is_touched self.now number.now }
    {
        self.numbers.binary_search(number).is_ok()
    }
}

/// The exchange, beside the awards of the request so far, where these campaigns were touched since candidates were found.
#[derive(Clone, Copy)]
pub(crate) struct Beside<'a> {
    pub core: &'a Core,
    pub request: &'a BidRequest,
    pub moment: u64,
    pub awards: &'a [(u32, Win)],
    pub touched: &'a Touched<'a>,
}

impl<'a> Payers for Beside<'a> {
    ghost use Rattle.auction_core.specs.Found.{may_be_asked, may_be_sold};

    ghost pays = { λ b o. may_be_sold b.core.now b.touched.now b.request.now b.moment b.awards.now o };

    ghost knows = { λ b o. may_be_asked b.core.now b.touched.now b.awards.now o };

    fn may_pay(&self, candidate: &Offer) -> bool {
        if self.touched.has(&candidate.campaign) {
            return false;
        }
        self.core.may_pay_bid(
            self.request,
            self.moment,
            candidate.campaign,
            candidate.bid,
            self.awards,
        )
    }
}
