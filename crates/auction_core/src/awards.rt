//! Who wins the impressions of a request, each beside the sales of those before it.
ghost use Rattle.std.specs.Prelude.{◌≡◌, ◌≤◌, ◌<◌, ◌-◌, ◌+◌, ◌^◌, ◌==◌, ◌++◌, ◌&&◌, if◌then◌else◌, IfOk, IfSome, IsTrue, OnOk, Option, Some, fold, length, map, nat_lt, option_map, slice_get, take};
ghost use Rattle.std.specs.List.{flat_map, list_all};
ghost use Rattle.std.specs.Option.{option_map_or, option_to_list};
ghost use Rattle.auction_core.specs.Auctions.{beside, awards_cost, is_number_in, offers_at, times};
ghost use Rattle.auction_core.specs.Draft.{found_for};
ghost use Rattle.budget_book.specs.Sales.{shown_of};
ghost use Rattle.campaign.specs.Caps.{CapTerms};
ghost use Rattle.deal_rules.specs.Terms.{user_of};
ghost use Rattle.plain_exchange.specs.Auction.{awards_of, shown_to, win};
ghost use Rattle.plain_exchange.specs.State.{Campaign, campaign_at, free, swept};
ghost use Rattle.rtb_types.specs.declared.request.Imp.{Imp as Impression};

use crate::exchange::Core;
use crate::prepare_records::nanos;
use campaign::{Cap, Facts};
use clearing::{Offer, Win, clear};
use deal_rules::{Asked, push_candidates, user_of};
use rtb_num::{List, Nanos};
use rtb_types::{BidRequest, Imp};
use std::alloc::{AllocError, Global};

impl Core {
    // Who wins each impression, where somebody does, of the campaigns of these numbers.
    pub(crate) fn awards(
        &self,
        alloc: Global,
        request: &BidRequest,
        moment: u64,
        found: &[List<u32>],
    ) -> Result<Vec<(u32, Win)>, AllocError>
        requires few { length request.now.imps ≤ 64 }
        requires found { found.now ≡ map (found_for self.now.state request.now) request.now.imps }
        ensures value { IfOk result (λ awards. awards.items ≡ awards_of self.now.settings moment request.now (swept moment self.now.state)) }
        ensures few { IfOk result (λ awards. length awards.items ≤ 64) }
    {
        let asked = Asked::new(alloc, request)?;
        let awards = self.awards_asked(alloc, &asked, moment, found);
        drop(asked);
        awards
    }

    // The same of a request whose lists are in order.
    fn awards_asked(
        &self,
        alloc: Global,
        asked: &Asked<'_>,
        moment: u64,
        found: &[List<u32>],
    ) -> Result<Vec<(u32, Win)>, AllocError>
        requires few { length asked.now.imps ≤ 64 }
        requires found { found.now ≡ map (found_for self.now.state asked.now) asked.now.imps }
        ensures value { IfOk result (λ awards. awards.items ≡ awards_of self.now.settings moment asked.now (swept moment self.now.state)) }
        ensures few { IfOk result (λ awards. length awards.items ≤ 64) }
    {
        let mut awards = Vec::new(alloc);
        for imp in 0..asked.imps().len() {
            let win = self.win(alloc, asked, imp, moment, &found[imp], awards.as_slice())?;
            push_award(&mut awards, imp as u32, win)?;
        }
        Ok(awards)
    }

    // Who wins the impression at the place beside these awards.
    fn win(
        &self,
        alloc: Global,
        asked: &Asked<'_>,
        imp: usize,
        moment: u64,
        found: &List<u32>,
        awards: &[(u32, Win)],
    ) -> Result<Option<Win>, AllocError>
        requires imp { imp < length asked.now.imps }
        requires few { length awards.now ≤ 64 }
        requires found { (i : Impression) → slice_get asked.now.imps imp ≡ Some i → found.now ≡ found_for self.now.state asked.now i }
        ensures { (i : Impression) → slice_get asked.now.imps imp ≡ Some i → IfOk result (λ w. w ≡ win (beside self.now.settings moment asked.now self.now.state awards.now) asked.now i moment) }
    {
        let offers = self.offers(alloc, asked, imp, moment, found.as_slice(), awards)?;
        Ok(clear(offers.as_slice(), asked.terms_at(imp)))
    }

    // The offers of the campaigns of these numbers beside the awards, in their order.
    pub(crate) fn offers(
        &self,
        alloc: Global,
        asked: &Asked<'_>,
        imp: usize,
        moment: u64,
        numbers: &[u32],
        awards: &[(u32, Win)],
    ) -> Result<Vec<Offer>, AllocError>
        requires imp { imp < length asked.now.imps }
        requires few { length awards.now ≤ 64 }
        requires there { IsTrue (list_all (is_number_in self.now.state) numbers.now) }
        ensures { (i : Impression) → slice_get asked.now.imps imp ≡ Some i → IfOk result (λ os. os.items ≡ flat_map (offers_at (beside self.now.settings moment asked.now self.now.state awards.now) asked.now i moment) numbers.now) }
    {
        let mut all = Vec::new(alloc);
        for number in numbers {
            self.push_offers(&mut all, asked, imp, moment, *number, awards)?;
        }
        Ok(all)
    }

    // Appends the offers of campaign `n`.
    fn push_offers(
        &self,
        all: &mut Vec<Offer>,
        asked: &Asked<'_>,
        imp: usize,
        moment: u64,
        n: u32,
        awards: &[(u32, Win)],
    ) -> Result<(), AllocError>
        requires imp { imp < length asked.now.imps }
        requires few { length awards.now ≤ 64 }
        requires there { (1 ≤ n) × (n ≤ length self.now.state.campaigns) }
        ensures { (i : Impression) → slice_get asked.now.imps imp ≡ Some i → OnOk result (all.new.items ≡ all.old.items ++ offers_at (beside self.now.settings moment asked.now self.now.state awards.now) asked.now i moment n) }
    {
        let facts = &self.entry(n).record().facts;
        if bids_below(&asked.imps()[imp], facts) {
            return Ok(());
        }
        if !self.may_pay_bid(asked.request(), moment, n, facts.bid(), awards) {
            return Ok(());
        }
        push_candidates(all, asked, imp, n, facts)
    }

    // What is left of the budget of campaign `n` beside the awards.
    pub(crate) fn free_beside(&self, n: u32, moment: u64, awards: &[(u32, Win)]) -> Nanos
        requires few { length awards.now ≤ 64 }
        requires there { (1 ≤ n) × (n ≤ length self.now.state.campaigns) }
        ensures { (c : Campaign) → campaign_at self.now.state n ≡ Some c → result ≡ free (swept moment self.now.state) n c - awards_cost n awards.now }
    {
        let free = self.free_at(n, moment).get();
        nanos(free.saturating_sub(awards_cost(n, awards)))
    }

    // How many sales of campaign `n` to the request's user its cap counts beside the awards, where there is a
    // user.
    pub(crate) fn count_shown_beside(
        &self,
        n: u32,
        cap: Option<Cap>,
        request: &BidRequest,
        moment: u64,
        awards: &[(u32, Win)],
    ) -> Option<u64>
        requires few { length awards.now ≤ 64 }
        ensures { (c : Campaign) → c.facts.cap ≡ cap → result ≡ option_map (shown_to (beside self.now.settings moment request.now self.now.state awards.now) moment n c) (user_of request.now) }
    {
        let user = user_of(request)?;
        Some(self.times_shown(n, cap, user.as_bytes(), moment, awards))
    }

    // How many sales of campaign `n` to the user, who is that of the awards, the cap counts.
    fn times_shown(
        &self,
        n: u32,
        cap: Option<Cap>,
        user: &[u8],
        moment: u64,
        awards: &[(u32, Win)],
    ) -> u64
        requires few { length awards.now ≤ 64 }
        ensures value { result ≡ option_map_or (λ (t : CapTerms). shown_of n user.now t.seconds moment (swept moment self.now.state).sales + times n awards.now) cap 0 }
        ensures some { IfSome cap (λ t. 1 ≤ t.seconds) }
    {
        match cap {
            None => 0,
            Some(cap) => self.count_shown(n, user, cap.seconds(), moment) + times(n, awards),
        }
    }

    fn count_shown(&self, n: u32, user: &[u8], seconds: u32, moment: u64) -> u64
        ensures value { result ≡ shown_of n user.now seconds moment (swept moment self.now.state).sales }
        ensures few { result ≤ 67108864 }
    {
        self.book.shown(n, user, seconds, moment)
    }
}

// Whether the campaign that states this bids less than the floor of the impression, which has no deals. Then it has no
// offer, whatever is free of its budget: of many campaigns that are found this is the one thing that is asked.
fn bids_below(imp: &Imp, facts: &Facts) -> bool
    ensures { result ≡ (nat_lt facts.now.bid imp.now.floor && (length imp.now.pmp.deals == 0)) }
{
    facts.bid() < imp.floor && imp.pmp.deals.as_slice().is_empty()
}

// What the awards take of the budget of campaign `n`.
fn awards_cost(n: u32, awards: &[(u32, Win)]) -> u64
    requires few { length awards.now ≤ 64 }
    ensures value { result ≡ awards_cost n awards.now }
{
    let mut sum = 0;
    for award in awards {
        sum += price_for(n, &award.1);
    }
    sum
}

// What the winner pays, where it is campaign `n`.
fn price_for(n: u32, win: &Win) -> u64
    ensures value { result ≡ if win.now.campaign == n then win.now.price else 0 }
    ensures bound { result ≤ 10 ^ 12 }
{
    if win.campaign == n {
        win.price.get()
    } else {
        0
    }
}

// How many of the awards campaign `n` has.
fn times(n: u32, awards: &[(u32, Win)]) -> u64
    ensures { result ≡ times n awards.now }
{
    awards.iter().filter(|award| award.1.campaign == n).count() as u64
}

// Appends the award of the impression, where there is one.
pub(crate) fn push_award(
    awards: &mut Vec<(u32, Win)>,
    imp: u32,
    win: Option<Win>,
) -> Result<(), AllocError>
    ensures { OnOk result (awards.new.items ≡ awards.old.items ++ option_to_list (option_map (λ w. (imp, w)) win)) }
{
    if let Some(win) = win {
        awards.push((imp, win))?;
    }
    Ok(())
}
