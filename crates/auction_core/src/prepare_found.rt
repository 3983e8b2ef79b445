//! Auctions, prepared over candidates that were found before.
ghost use Rattle.std.specs.Prelude.{◌≡◌, ◌≤◌, ◌<◌, ◌+◌, ◌-◌, ◌^◌, ◌==◌, ◌⊎◌, if◌then◌else◌, IfOk, IsTrue, List as AList, Some, drop, length, slice_get};
ghost use Rattle.std.specs.List.Sorted.{IsStrictlyIncreasing};
ghost use Rattle.auction_core.specs.Auctions.{beside};
ghost use Rattle.auction_core.specs.Draft.{IsDraftOf, IsReady};
ghost use Rattle.auction_core.specs.Found.{AreTouched, MaySell, may_be_sold, offers_touched, sold_cost};
ghost use Rattle.clearing.specs.Candidates.{IsRefused, asked};
ghost use Rattle.clearing.specs.declared.Offer.{Offer as AnOffer};
ghost use Rattle.auction_core.specs.Outcomes.{IsOutcome};
ghost use Rattle.auction_core.specs.Placed.{list_at};
ghost use Rattle.plain_exchange.specs.Auction.{awards_of, win};
ghost use Rattle.plain_exchange.specs.State.{swept};
ghost use Rattle.plain_exchange.specs.Step.{step};
ghost use Rattle.plain_exchange.specs.declared.commands.Command.TheVariants as command;
ghost use Rattle.rtb_types.specs.Valid.{is_valid};
ghost use Rattle.rtb_types.specs.declared.request.Imp.{Imp as Impression};

use crate::awards::push_award;
use crate::candidates::Candidates;
use crate::draft::Draft;
use crate::exchange::Core;
use crate::outcome::Outcome;
use crate::payers::{Beside, Touched};
use clearing::{Offer, Win, clear_in_order};
use deal_rules::Asked;
use rtb_base::Steps;
use rtb_num::List;
use std::alloc::{AllocError, Global};
use std::sync::ledger::Ledger;

// What was found for a request, and what was touched since.
#[derive(Clone, Copy)]
struct Findings<'o, 'a> {
    asked: &'o Asked<'a>,
    candidates: &'o Candidates,
    touched: &'o Touched<'o>,
    numbers: &'o [List<u32>],
}

impl Core {
    /// Prepares an auction over candidates that were found among campaigns that were live. `touched` are the campaigns
    /// that may differ since, rising, and `now` has for each impression the numbers of those of them that are live and
    /// true of it. Where nothing was touched, `now` may be empty. What is sold is what `prepare` sells. Only rooms
    /// change, also where memory is wanting.
    ///
    /// One step is one candidate whose budget and cap are asked.
    pub fn prepare_found<L: Ledger>(
        &mut self,
        alloc: Global,
        asked: &Asked<'_>,
        found: &Candidates,
        touched: &[u32],
        now: &[List<u32>],
        moment: u64,
        steps: &mut Steps<L>,
    ) -> Result<Draft, AllocError>
        requires valid { IsTrue (is_valid asked.now) }
        requires rising { IsStrictlyIncreasing touched.now }
        requires may_sell { MaySell self.old.state touched.now asked.now found.now }
        requires now { AreTouched self.old.state touched.now asked.now now.now }
        ensures draft { IfOk result (λ d. IsDraftOf self.old.settings self.old.state (command.Auction asked.now) moment d) }
        ensures ready { IfOk result (λ d. IsReady d self.new) }
        ensures state { self.new.state ≡ self.old.state }
        ensures settings { self.new.settings ≡ self.old.settings }
        ensures edits { self.new.edits ≡ self.old.edits }
        ensures sale_room { self.old.sale_room ≤ self.new.sale_room }
        ensures campaign_room { self.old.campaign_room ≤ self.new.campaign_room }
        ensures cost { steps.new ≤ steps.old + sold_cost self.old touched.now asked.now moment found.now }
    {
        let touched = Touched::new(touched);
        let findings = Findings {
            asked,
            candidates: found,
            touched: &touched,
            numbers: now,
        };
        let outcome = self.found_outcome(alloc, &findings, moment, steps)?;
        self.draft(alloc, outcome, moment)
    }

    // Sells the impressions of the request.
    fn found_outcome<L: Ledger>(
        &self,
        alloc: Global,
        findings: &Findings<'_, '_>,
        moment: u64,
        steps: &mut Steps<L>,
    ) -> Result<Outcome, AllocError>
        requires valid { IsTrue (is_valid findings.now.asked.now) }
        requires may_sell { MaySell self.now.state findings.now.touched.now findings.now.asked.now findings.now.candidates.now }
        requires now { AreTouched self.now.state findings.now.touched.now findings.now.asked.now findings.now.numbers.now }
        ensures value { IfOk result (λ o. IsOutcome (step self.now.settings moment self.now.state (command.Auction findings.now.asked.now)) o) }
        ensures cost { steps.new ≤ steps.old + sold_cost self.now findings.now.touched.now findings.now.asked.now moment findings.now.candidates.now }
    {
        let awards = self.awards_found(alloc, findings, moment, steps)?;
        self.award_outcome(alloc, findings.asked.request(), moment, awards.as_slice())
    }

    // Who wins each impression, where somebody does.
    fn awards_found<L: Ledger>(
        &self,
        alloc: Global,
        findings: &Findings<'_, '_>,
        moment: u64,
        steps: &mut Steps<L>,
    ) -> Result<Vec<(u32, Win)>, AllocError>
        requires few { length findings.now.asked.now.imps ≤ 64 }
        requires may_sell { MaySell self.now.state findings.now.touched.now findings.now.asked.now findings.now.candidates.now }
        requires now { AreTouched self.now.state findings.now.touched.now findings.now.asked.now findings.now.numbers.now }
        ensures value { IfOk result (λ awards. awards.items ≡ awards_of self.now.settings moment findings.now.asked.now (swept moment self.now.state)) }
        ensures few { IfOk result (λ awards. length awards.items ≤ 64) }
        ensures cost { steps.new ≤ steps.old + sold_cost self.now findings.now.touched.now findings.now.asked.now moment findings.now.candidates.now }
    {
        let mut awards = Vec::new(alloc);
        let mut refused = 0;
        for imp in 0..findings.asked.imps().len() {
            refused = kept(findings.candidates, imp, refused);
            let win = self.win_found(
                alloc,
                findings,
                imp,
                moment,
                awards.as_slice(),
                &mut refused,
                steps,
            )?;
            push_award(&mut awards, imp as u32, win)?;
        }
        Ok(awards)
    }

    // Who wins the impression at the place beside these awards: of its candidates in order that were not touched, and of
    // the offers of the touched campaigns. So many candidates at the front are known to be refused: they are not asked,
    // where there are no other offers.
    fn win_found<L: Ledger>(
        &self,
        alloc: Global,
        findings: &Findings<'_, '_>,
        imp: usize,
        moment: u64,
        awards: &[(u32, Win)],
        refused: &mut usize,
        steps: &mut Steps<L>,
    ) -> Result<Option<Win>, AllocError>
        requires imp { imp < length findings.now.asked.now.imps }
        requires few { length awards.now ≤ 64 }
        requires may_sell { MaySell self.now.state findings.now.touched.now findings.now.asked.now findings.now.candidates.now }
        requires now { AreTouched self.now.state findings.now.touched.now findings.now.asked.now findings.now.numbers.now }
        requires refused { (cs : AList AnOffer) → slice_get findings.now.candidates.now imp ≡ Some cs → IsRefused (may_be_sold self.now findings.now.touched.now findings.now.asked.now moment awards.now) cs refused.old }
        ensures sale { (i : Impression) → slice_get findings.now.asked.now.imps imp ≡ Some i → IfOk result (λ w. w ≡ win (beside self.now.settings moment findings.now.asked.now self.now.state awards.now) findings.now.asked.now i moment) }
        ensures refused { (cs : AList AnOffer) → slice_get findings.now.candidates.now imp ≡ Some cs → IsRefused (may_be_sold self.now findings.now.touched.now findings.now.asked.now moment awards.now) cs refused.new }
        ensures cost { (i : Impression) (cs : AList AnOffer) → slice_get findings.now.asked.now.imps imp ≡ Some i → slice_get findings.now.candidates.now imp ≡ Some cs → steps.new ≤ steps.old + asked (may_be_sold self.now findings.now.touched.now findings.now.asked.now moment awards.now) (offers_touched self.now findings.now.touched.now findings.now.asked.now i moment awards.now) cs }
    {
        let asked = findings.asked;
        let now = list_at(findings.numbers, imp);
        let offered = self.offers(alloc, asked, imp, moment, now, awards)?;
        let others = offered.as_slice();
        let front = front_of(others, *refused);
        let candidates = behind(findings.candidates.at(imp), front);
        let payers = Beside {
            core: self,
            request: asked.request(),
            moment,
            awards,
            touched: findings.touched,
        };
        let terms = asked.terms_at(imp);
        let cleared = clear_in_order(candidates, others, terms, &payers, steps);
        keep(refused, front, cleared.refused, others);
        Ok(cleared.win)
    }
}

// How many candidates at the front need not be asked: those that are known to be refused, where nobody else offers.
fn front_of(others: &[Offer], refused: usize) -> usize
    ensures { result ≡ if length others.now == 0 then refused else 0 }
{
    if others.is_empty() { refused } else { 0 }
}

// Those behind so many at the front.
fn behind(candidates: &[Offer], front: usize) -> &[Offer]
    requires { front ≤ length candidates.now }
    ensures { result.now ≡ drop front candidates.now }
{
    &candidates[front..]
}

// So many more are known to be refused, where nobody else offered.
fn keep(refused: &mut usize, front: usize, more: usize, others: &[Offer])
    requires front { front ≡ if length others.now == 0 then refused.old else 0 }
    requires few { front + more < 2 ^ 64 }
    ensures { refused.new ≡ if length others.now == 0 then refused.old + more else refused.old }
{
    if others.is_empty() {
        *refused = front + more;
    }
}

// How many are known to be refused of the candidates of the next impression: as many, where it shares them with the one
// before it.
fn kept(candidates: &Candidates, imp: usize, refused: usize) -> usize
    requires { imp < length candidates.now }
    ensures { (result ≡ 0) ⊎ ((result ≡ refused) × (1 ≤ imp) × (slice_get candidates.now imp ≡ slice_get candidates.now (imp - 1))) }
{
    if candidates.is_shared(imp) {
        refused
    } else {
        0
    }
}

// The list at the place, or none past the end.
fn list_at(lists: &[List<u32>], place: usize) -> &[u32]
    ensures { result.now ≡ list_at lists.now place }
{
    match lists.get(place) {
        Some(list) => list.as_slice(),
        None => &[],
    }
}
