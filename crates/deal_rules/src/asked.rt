//! A request, of which the lists that each campaign is looked up in are put in order once.
ghost use Rattle.std.specs.Prelude.{◌≡◌, ◌∷◌, ◌++◌, [], IfOk, OnOk};
ghost use Rattle.deal_rules.specs.Named.{least_floor, lesser};

use crate::alike::{are_ruled_alike, is_alike};
use crate::lists::{is_closed, sells_nothing};
use crate::names::{Ids, Names};
use crate::numbers::Numbers;
use crate::opportunity::blocked_attributes_of;
use crate::pools::all_terms;
use campaign::Facts;
use clearing::Terms;
use rtb_num::{List, Micros, Txt};
use rtb_types::{BidRequest, Deal, Imp};
use std::alloc::{AllocError, Global};
use std::marker::Model;

/// A request, of which the lists are put in order: its own, and those of its impressions and their deals. Contracts see
/// it as the request.
#[derive(Drop)]
pub struct Asked<'a> {
    request: &'a BidRequest,
    // Whether it sells nothing, or not for US dollars.
    closed: bool,
    wseat: Names<'a>,
    bseat: Names<'a>,
    bcat: Names<'a>,
    badv: Names<'a>,
    imps: Vec<AskedImp<'a>>,
    // Those of the pools of each impression.
    terms: Vec<List<Terms>>,
}

impl<'a> Model for Asked<'a> {
    ghost use Rattle.rtb_types.specs.declared.request.BidRequest.{BidRequest as ARequest};
    ghost use Rattle.deal_rules.specs.Named.{AreListsOf};

    ghost Value = { ARequest };

    ghost view = { λ a. a.request.now };

    ghost invariant = { λ a. AreListsOf a.request.now a.closed a.wseat a.bseat a.bcat a.badv a.imps.items a.terms.items };
}

impl<'a> Asked<'a> {
    ghost use Rattle.std.specs.Prelude.{◌≡◌, ◌≤◌, ◌<◌, ◌-◌, ℕ, [], false, IfOk, IsTrue, Some, length, slice_get};
    ghost use Rattle.std.specs.List.{list_any};
    ghost use Rattle.campaign.specs.declared.parts.FactParts.{FactParts as Stated};
    ghost use Rattle.deal_rules.specs.Offers.{candidates_of};
    ghost use Rattle.deal_rules.specs.Rules.{allows, has_text, is_closed, is_closed_for, takes};
    ghost use Rattle.deal_rules.specs.Terms.{terms_of};
    ghost use Rattle.rtb_types.specs.declared.request.Imp.{Imp as Impression};

    /// Puts the lists of the request in order. Lists without an entry take no memory.
    pub fn new(alloc: Global, request: &'a BidRequest) -> Result<Asked<'a>, AllocError>
        ensures { IfOk result (λ a. a ≡ request.now) }
    {
        let wseat = Names::new(alloc, request.wseat.as_slice())?;
        let bseat = Names::new(alloc, request.bseat.as_slice())?;
        let bcat = Names::new(alloc, request.bcat.as_slice())?;
        let badv = Names::new(alloc, request.badv.as_slice())?;
        let imps = asked_imps(alloc, request.imps.as_slice())?;
        let terms = all_terms(alloc, request)?;
        Ok(Asked {
            request,
            closed: is_closed(request),
            wseat,
            bseat,
            bcat,
            badv,
            imps,
            terms,
        })
    }

    /// The request.
    pub fn request(&self) -> &BidRequest
        ensures { result.now ≡ self.now }
    {
        self.request
    }

    /// Its impressions.
    pub fn imps(&self) -> &[Imp]
        ensures { result.now ≡ self.now.imps }
    {
        self.request.imps.as_slice()
    }

    /// The terms by which the pools of the impression at the place, counted from 0, sell: those of the public pool, and
    /// then of each deal, as `clearing::clear` takes them.
    pub fn terms_at(&self, imp: usize) -> &[Terms]
        requires { imp < length self.now.imps }
        ensures { (i : Impression) → slice_get self.now.imps imp ≡ Some i → result.now ≡ terms_of self.now i }
    {
        self.terms[imp].as_slice()
    }

    /// Whether no campaign has a candidate for the impression at the place, whatever it states: the request is a test or
    /// takes no bid in US dollars, no banner is asked for, or there is no deal and nobody may buy in the public pool.
    pub fn is_closed_at(&self, imp: usize) -> bool
        requires { imp < length self.now.imps }
        ensures value { (i : Impression) → slice_get self.now.imps imp ≡ Some i → result ≡ is_closed_for self.now i }
        ensures none { (i : Impression) (number : ℕ) (f : Stated) → slice_get self.now.imps imp ≡ Some i → IsTrue result → candidates_of number self.now i f ≡ [] }
    {
        self.closed || sells_nothing(&self.imps()[imp])
    }

    /// Whether the impression at the place is the one before it but for its id.
    pub fn is_like_last(&self, imp: usize) -> bool
        requires { imp < length self.now.imps }
        ensures first { IsTrue result → 1 ≤ imp }
        ensures like { (i j : Impression) → slice_get self.now.imps (imp - 1) ≡ Some i → slice_get self.now.imps imp ≡ Some j → IsTrue result → j ≡ record i { id = j.id } }
    {
        if imp == 0 {
            return false;
        }
        let imps = self.imps();
        let last = imp - 1;
        is_alike(&imps[imp], &imps[last])
    }

    /// Whether all that the rules look at is the same of the impression at the place and of the one before it: each campaign
    /// has the same candidates for both.
    pub fn is_ruled_like_last(&self, imp: usize) -> bool
        requires { imp < length self.now.imps }
        ensures first { IsTrue result → 1 ≤ imp }
        ensures same { (i j : Impression) (number : ℕ) (f : Stated) → slice_get self.now.imps (imp - 1) ≡ Some i → slice_get self.now.imps imp ≡ Some j → IsTrue result → candidates_of number self.now j f ≡ candidates_of number self.now i f }
        ensures closed { (i j : Impression) → slice_get self.now.imps (imp - 1) ≡ Some i → slice_get self.now.imps imp ≡ Some j → IsTrue result → is_closed_for self.now j ≡ is_closed_for self.now i }
    {
        if imp == 0 {
            return false;
        }
        let imps = self.imps();
        let last = imp - 1;
        are_ruled_alike(&imps[imp], &imps[last])
    }

    /// Whether no list of the request is against the campaign, whatever the impression.
    pub(crate) fn takes(&self, facts: &Facts) -> bool
        ensures { result ≡ takes self.now facts.now }
    {
        self.allows_seat(facts.seat())
            && !self.blocks_seat(facts.seat())
            && !self.blocks_category_of(facts)
            && !self.blocks_advertiser_of(facts)
    }

    // Whether one of the campaign's categories is blocked.
    #[inline(always)]
    fn blocks_category_of(&self, facts: &Facts) -> bool
        ensures { result ≡ list_any (has_text self.now.bcat) facts.now.cat }
    {
        self.may_block_category_of(facts) && self.blocks_one_of(facts.cat().as_slice())
    }

    // Whether a mark does not rule that out.
    #[inline(always)]
    fn may_block_category_of(&self, facts: &Facts) -> bool
        ensures { result ≡ false → list_any (has_text self.now.bcat) facts.now.cat ≡ false }
    {
        if 3 < facts.cat().len() {
            return true;
        }
        let marks = facts.marks();
        if self.bcat.may_have_mark(marks.first) {
            return true;
        }
        if self.bcat.may_have_mark(marks.second) {
            return true;
        }
        self.bcat.may_have_mark(marks.third)
    }

    // Whether the campaign's advertiser is blocked.
    #[inline(always)]
    fn blocks_advertiser_of(&self, facts: &Facts) -> bool
        ensures { result ≡ has_text self.now.badv facts.now.adomain }
    {
        let marks = facts.marks();
        self.badv.has_marked(marks.advertiser, facts.adomain())
    }

    /// Whether it sells nothing, or not for US dollars.
    pub(crate) fn is_closed(&self) -> bool
        ensures { result ≡ is_closed self.now }
    {
        self.closed
    }

    /// The impression at the place.
    pub(crate) fn imp_at(&self, imp: usize) -> &AskedImp<'a>
        requires { imp < length self.now.imps }
        ensures { (i : Impression) → slice_get self.now.imps imp ≡ Some i → result.now ≡ i }
    {
        &self.imps[imp]
    }

    /// Whether the seat is among those that may buy.
    pub(crate) fn allows_seat(&self, seat: &Txt) -> bool
        ensures { result ≡ allows self.now.wseat seat.now }
    {
        self.wseat.allows(seat)
    }

    /// Whether the seat is blocked.
    pub(crate) fn blocks_seat(&self, seat: &Txt) -> bool
        ensures { result ≡ has_text self.now.bseat seat.now }
    {
        self.bseat.has(seat)
    }

    /// Whether one of these categories is blocked.
    pub(crate) fn blocks_one_of(&self, categories: &[Txt]) -> bool
        ensures { result ≡ list_any (has_text self.now.bcat) categories.now }
    {
        self.bcat.has_one_of(categories)
    }

    /// Whether the advertiser is blocked.
    pub(crate) fn blocks_advertiser(&self, domain: &Txt) -> bool
        ensures { result ≡ has_text self.now.badv domain.now }
    {
        self.badv.has(domain)
    }
}

/// An impression, of which the lists are put in order. Contracts see it as the impression.
#[derive(Drop)]
pub(crate) struct AskedImp<'a> {
    imp: &'a Imp,
    battr: Numbers<'a>,
    ids: Ids<'a>,
    deals: Vec<AskedDeal<'a>>,
    // The least floor of a deal; where there is none no bid is above it.
    least: u64,
}

impl<'a> Model for AskedImp<'a> {
    ghost use Rattle.rtb_types.specs.declared.request.Imp.{Imp as AnImp};
    ghost use Rattle.deal_rules.specs.Named.{AreListsIn};

    ghost Value = { AnImp };

    ghost view = { λ a. a.imp.now };

    ghost invariant = { λ a. AreListsIn a.imp.now a.battr a.ids a.deals.items a.least };
}

impl<'a> AskedImp<'a> {
    ghost use Rattle.std.specs.Prelude.{◌≡◌, false, nat_lt};
    ghost use Rattle.std.specs.List.{list_any};
    ghost use Rattle.std.specs.Ordering.{int_eq};
    ghost use Rattle.deal_rules.specs.Named.{ids_of, least_floor};
    ghost use Rattle.deal_rules.specs.Rules.{blocked_attributes_of, has_text};

    /// The impression.
    pub fn imp(&self) -> &Imp
        ensures { result.now ≡ self.now }
    {
        self.imp
    }

    /// Its deals.
    pub fn deals(&self) -> &[AskedDeal<'a>]
        ensures { result.now ≡ self.now.pmp.deals }
    {
        self.deals.as_slice()
    }

    /// Whether each deal has a floor above the bid.
    pub fn is_below_deals(&self, bid: Micros) -> bool
        ensures { result ≡ nat_lt bid (least_floor self.now.pmp.deals) }
    {
        bid.get() < self.least
    }

    /// Whether a deal may be one of the campaign's, by the mark of its first.
    #[inline(always)]
    pub fn may_have_deal_of(&self, facts: &Facts) -> bool
        ensures { result ≡ false → list_any (has_text (ids_of self.now.pmp.deals)) facts.now.deals ≡ false }
    {
        if 1 < facts.deals().len() {
            return true;
        }
        self.ids.may_have_mark(facts.marks().deal)
    }

    /// Whether one of these is the id of a deal.
    pub fn has_deal_of(&self, ids: &[Txt]) -> bool
        ensures { result ≡ list_any (has_text (ids_of self.now.pmp.deals)) ids.now }
    {
        self.ids.has_one_of(ids)
    }

    /// Whether one of these attributes is blocked.
    pub fn blocks_one_of(&self, attributes: &[i32]) -> bool
        ensures { result ≡ list_any (λ a. list_any (λ b. int_eq b a) (blocked_attributes_of self.now)) attributes.now }
    {
        self.battr.has_one_of(attributes)
    }
}

/// A deal, of which the lists are put in order. Contracts see it as the deal.
#[derive(Drop)]
pub(crate) struct AskedDeal<'a> {
    deal: &'a Deal,
    wseat: Names<'a>,
    wadomain: Names<'a>,
}

impl<'a> Model for AskedDeal<'a> {
    ghost use Rattle.rtb_types.specs.declared.request.Deal.{Deal as ADeal};
    ghost use Rattle.deal_rules.specs.Named.{AreListsFor};

    ghost Value = { ADeal };

    ghost view = { λ a. a.deal.now };

    ghost invariant = { λ a. AreListsFor a.deal.now a.wseat a.wadomain };
}

impl<'a> AskedDeal<'a> {
    ghost use Rattle.std.specs.Prelude.{◌≡◌};
    ghost use Rattle.deal_rules.specs.Rules.{allows};

    /// The deal.
    pub fn deal(&self) -> &Deal
        ensures { result.now ≡ self.now }
    {
        self.deal
    }

    /// Whether the seat is among those that may buy.
    pub fn allows_seat(&self, seat: &Txt) -> bool
        ensures { result ≡ allows self.now.wseat seat.now }
    {
        self.wseat.allows(seat)
    }

    /// Whether the advertiser is among those that may buy.
    pub fn allows_advertiser(&self, domain: &Txt) -> bool
        ensures { result ≡ allows self.now.wadomain domain.now }
    {
        self.wadomain.allows(domain)
    }
}

fn asked_imps<'a>(alloc: Global, imps: &'a [Imp]) -> Result<Vec<AskedImp<'a>>, AllocError>
    ensures { IfOk result (λ v. v.items ≡ imps.now) }
{
    let mut all = Vec::with_capacity(alloc, imps.len())?;
    for imp in imps {
        push_imp(alloc, &mut all, imp)?;
    }
    Ok(all)
}

fn push_imp<'a>(alloc: Global, all: &mut Vec<AskedImp<'a>>, imp: &'a Imp) -> Result<(), AllocError>
    ensures { OnOk result (all.new.items ≡ all.old.items ++ imp.now ∷ []) }
{
    let battr = Numbers::new(alloc, blocked_attributes_of(imp))?;
    let ids = Ids::new(alloc, imp.pmp.deals.as_slice())?;
    let deals = asked_deals(alloc, imp.pmp.deals.as_slice())?;
    let least = least_floor(imp.pmp.deals.as_slice());
    all.push(AskedImp {
        imp,
        battr,
        ids,
        deals,
        least,
    })?;
    Ok(())
}

// The least floor of these deals, or the greatest number where there is none.
fn least_floor(deals: &[Deal]) -> u64
    ensures { result ≡ least_floor deals.now }
{
    deals
        .iter()
        .fold(u64::MAX, |least, deal| lesser(least, deal))
}

fn lesser(least: u64, deal: &Deal) -> u64
    ensures { result ≡ lesser least deal.now }
{
    least.min(deal.floor.get())
}

fn asked_deals<'a>(alloc: Global, deals: &'a [Deal]) -> Result<Vec<AskedDeal<'a>>, AllocError>
    ensures { IfOk result (λ v. v.items ≡ deals.now) }
{
    let mut all = Vec::with_capacity(alloc, deals.len())?;
    for deal in deals {
        push_deal(alloc, &mut all, deal)?;
    }
    Ok(all)
}

fn push_deal<'a>(
    alloc: Global,
    all: &mut Vec<AskedDeal<'a>>,
    deal: &'a Deal,
) -> Result<(), AllocError>
    ensures { OnOk result (all.new.items ≡ all.old.items ++ deal.now ∷ []) }
{
    let wseat = Names::new(alloc, deal.wseat.as_slice())?;
    let wadomain = Names::new(alloc, deal.wadomain.as_slice())?;
    all.push(AskedDeal {
        deal,
        wseat,
        wadomain,
    })?;
    Ok(())
}
