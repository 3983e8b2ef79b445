//! The offers of a campaign for an impression, in the public pool and for deals, or why there is none.
ghost use Rattle.std.specs.Prelude.{◌≡◌, ◌↔◌, [], false, Option as AnOption, if◌then◌else◌, ◌<◌, ◌++◌, ℕ, length, option_to_list, slice_get, IfOk, IsNone, IsTrue, OnOk, Some};
ghost use Rattle.std.specs.List.{list_all, list_any};
ghost use Rattle.clearing.specs.Clearing.{is_fit};
ghost use Rattle.deal_rules.specs.Offers.{candidates_of, deal_offer, deal_offers, has_deals, in_public, is_open_to, may_pay, offer_in, offers_of, public_offers, why_not_of};
ghost use Rattle.deal_rules.specs.Rules.{opportunity_of};
ghost use Rattle.deal_rules.specs.Seen.{opportunity_seen};
ghost use Rattle.deal_rules.specs.Terms.{terms_of};
ghost use Rattle.campaign.specs.declared.parts.FactParts.{FactParts as Stated};
ghost use Rattle.rtb_types.specs.declared.request.BidRequest.{BidRequest as Request};
ghost use Rattle.rtb_types.specs.declared.request.Imp.{Imp as Impression};

use crate::asked::{Asked, AskedDeal};
use crate::lists::{has_text, is_usd};
use crate::opportunity::{Opportunity, is_capped};
use crate::rule::Rule;
use campaign::Facts;
use clearing::Offer;
use rtb_num::{List, Nanos};
use std::alloc::{AllocError, Global};

/// The offers of the campaign of that number for the impression at the place, counted from 0: the one in the
/// public pool, and then those for deals, in the order of the request. Pool 0 is the public pool, and pool
/// k + 1 that of deal k.
///
/// `free` is what is free of its budget. `shown` is none where the request has no user (`user_of`), and else
/// how many of the campaign's sales to that user its cap counts; it plays no part where there is no cap.
/// Nothing is allocated where there is no offer.
pub fn offers(
    alloc: Global,
    asked: &Asked<'_>,
    imp: usize,
    number: u32,
    facts: &Facts,
    free: Nanos,
    shown: Option<u64>,
) -> Result<List<Offer>, AllocError>
    requires { imp < length asked.now.imps }
    ensures value { (i : Impression) → slice_get asked.now.imps imp ≡ Some i → IfOk result (λ os. os ≡ offers_of number (opportunity_of asked.now i facts.now free shown)) }
    ensures fit { (i : Impression) → slice_get asked.now.imps imp ≡ Some i → IfOk result (λ os. IsTrue (list_all (is_fit (terms_of asked.now i)) os)) }
{
    let mut offers = Vec::new(alloc);
    if !may_pay(facts, free, shown) {
        return Ok(List::from_vec(offers));
    }
    push_candidates(&mut offers, asked, imp, number, facts)?;
    Ok(List::from_vec(offers))
}

/// Appends its candidates: the offers that it has where it may pay (`may_pay`), in the same order.
pub fn push_candidates(
    offers: &mut Vec<Offer>,
    asked: &Asked<'_>,
    imp: usize,
    number: u32,
    facts: &Facts,
) -> Result<(), AllocError>
    requires { imp < length asked.now.imps }
    ensures { (i : Impression) → slice_get asked.now.imps imp ≡ Some i → OnOk result (offers.new.items ≡ offers.old.items ++ candidates_of number asked.now i facts.now) }
{
    let opportunity = Opportunity {
        asked,
        imp: asked.imp_at(imp),
        facts,
        free: Nanos::from(facts.bid()),
        shown: None,
    };
    push_for(offers, &opportunity, number)
}

/// Whether so much of its budget is free that the campaign may pay what it bids, and its cap leaves a sale to the user.
/// `free` and `shown` are as in `offers`.
#[tactic(auto, unfolding(crate::specs::Offers::may_pay))]
pub fn may_pay(facts: &Facts, free: Nanos, shown: Option<u64>) -> bool
    ensures { result ≡ may_pay facts.now free shown }
{
    Nanos::from(facts.bid()) <= free && !is_capped(facts.cap(), shown)
}

/// The first rule that keeps the campaign from offering for the impression at the place, or none exactly where
/// it offers. `free` and `shown` are as in `offers`.
pub fn why_not(
    asked: &Asked<'_>,
    imp: usize,
    facts: &Facts,
    free: Nanos,
    shown: Option<u64>,
) -> Option<Rule>
    requires { imp < length asked.now.imps }
    ensures value { (i : Impression) → slice_get asked.now.imps imp ≡ Some i → result ≡ why_not_of (opportunity_of asked.now i facts.now free shown) }
    ensures offered { (i : Impression) (number : ℕ) → slice_get asked.now.imps imp ≡ Some i → IsNone result ↔ (0 < length (offers_of number (opportunity_of asked.now i facts.now free shown))) }
{
    let opportunity = Opportunity {
        asked,
        imp: asked.imp_at(imp),
        facts,
        free,
        shown,
    };
    why_not_for(&opportunity)
}

// Appends the candidates. What excludes most campaigns, a floor above the bid, is asked first, and the lists of the
// request last.
fn push_for(
    offers: &mut Vec<Offer>,
    opportunity: &Opportunity<'_, '_>,
    number: u32,
) -> Result<(), AllocError>
    ensures { OnOk result (offers.new.items ≡ offers.old.items ++ candidates_of number opportunity.now.asked.now opportunity.now.imp.now opportunity.now.facts.now) }
{
    let public = !opportunity.is_excluded_in_public();
    let dealing = is_dealing(opportunity);
    if !public && !dealing {
        return Ok(());
    }
    if opportunity.is_excluded_at_sight() {
        return Ok(());
    }
    if !opportunity.asked.takes(opportunity.facts) {
        return Ok(());
    }
    push_all(offers, opportunity, number, public, dealing)
}

// Appends the offers of a campaign that no rule for each pool excludes.
fn push_all(
    offers: &mut Vec<Offer>,
    opportunity: &Opportunity<'_, '_>,
    number: u32,
    public: bool,
    dealing: bool,
) -> Result<(), AllocError>
    requires dealing { dealing ≡ false → deal_offers number opportunity.now.facts.now opportunity.now.imp.now.pmp.deals ≡ [] }
    ensures { OnOk result (offers.new.items ≡ offers.old.items ++ (in_public number opportunity.now.facts.now public ++ deal_offers number opportunity.now.facts.now opportunity.now.imp.now.pmp.deals)) }
{
    push_public(offers, public, opportunity.facts, number)?;
    if !dealing {
        return Ok(());
    }
    push_deals(offers, opportunity.imp.deals(), opportunity.facts, number)
}

// Whether a deal may be open to the campaign, which its bid tells first. Else it has no offer for one.
fn is_dealing(opportunity: &Opportunity<'_, '_>) -> bool
    ensures { (number : ℕ) → result ≡ false → deal_offers number opportunity.now.facts.now opportunity.now.imp.now.pmp.deals ≡ [] }
{
    if opportunity.imp.is_below_deals(opportunity.facts.bid()) {
        return false;
    }
    if !opportunity.imp.may_have_deal_of(opportunity.facts) {
        return false;
    }
    has_deals(opportunity)
}

// Whether the campaign has the id of a deal of the impression.
fn has_deals(opportunity: &Opportunity<'_, '_>) -> bool
    ensures { result ≡ has_deals opportunity.now.facts.now opportunity.now.imp.now }
{
    opportunity
        .imp
        .has_deal_of(opportunity.facts.deals().as_slice())
}

// Appends the offer in the public pool, where there is one.
fn push_public(
    offers: &mut Vec<Offer>,
    public: bool,
    facts: &Facts,
    number: u32,
) -> Result<(), AllocError>
    ensures { OnOk result (offers.new.items ≡ offers.old.items ++ in_public number facts.now public) }
{
    if public {
        offers.push(offer_in(facts, number, 0))?;
    }
    Ok(())
}

// Appends the offers for these deals, the pools of which are numbered from 1.
fn push_deals(
    offers: &mut Vec<Offer>,
    deals: &[AskedDeal<'_>],
    facts: &Facts,
    number: u32,
) -> Result<(), AllocError>
    ensures { OnOk result (offers.new.items ≡ offers.old.items ++ deal_offers number facts.now deals.now) }
{
    for (k, deal) in deals.iter().enumerate() {
        push_deal(offers, deal, facts, number, k + 1)?;
    }
    Ok(())
}

// Appends the offer for the deal of that pool, where there is one.
fn push_deal(
    offers: &mut Vec<Offer>,
    deal: &AskedDeal<'_>,
    facts: &Facts,
    number: u32,
    pool: usize,
) -> Result<(), AllocError>
    ensures { OnOk result (offers.new.items ≡ offers.old.items ++ option_to_list (deal_offer number facts.now (pool, deal.now))) }
{
    if is_open_to(facts, deal) {
        offers.push(offer_in(facts, number, pool))?;
    }
    Ok(())
}

fn offer_in(facts: &Facts, number: u32, pool: usize) -> Offer
    ensures { result ≡ offer_in number facts.now pool }
{
    Offer {
        campaign: number,
        bid: facts.bid(),
        pool,
    }
}

// Whether the campaign can buy in the deal.
fn is_open_to(facts: &Facts, asked: &AskedDeal<'_>) -> bool
    ensures { result ≡ is_open_to facts.now asked.now }
{
    let deal = asked.deal();
    has_text(facts.deals().as_slice(), &deal.id)
        && is_usd(&deal.currency)
        && asked.allows_seat(facts.seat())
        && asked.allows_advertiser(facts.adomain())
        && deal.floor <= facts.bid()
}

#[tactic(auto, unfolding(crate::specs::Offers::why_not_of))]
fn why_not_for(opportunity: &Opportunity<'_, '_>) -> Option<Rule>
    ensures { result ≡ why_not_of (opportunity_seen opportunity.now) }
{
    if has_open(opportunity.imp.deals(), opportunity.facts) {
        return opportunity.common_reason();
    }
    opportunity.reason_of_all()
}

// Whether the campaign can buy in one of the deals.
fn has_open(deals: &[AskedDeal<'_>], facts: &Facts) -> bool
    ensures { result ≡ list_any (is_open_to facts.now) deals.now }
{
    deals.iter().any(|deal| is_open_to(facts, deal))
}

/// The offers of a campaign are its candidates where it may pay, and none else.
pub fn offers_stand()
    ensures { (number : ℕ) (r : Request) (i : Impression) (f : Stated) (free : ℕ) (shown : AnOption ℕ) → offers_of number (opportunity_of r i f free shown) ≡ (if may_pay f free shown then candidates_of number r i f else []) }
{}
