//! Commands are carried out.
ghost use Rattle.std.specs.Prelude.{◌≡◌, ◌≤◌, ◌<◌, ◌^◌, ℕ, false};
ghost use Rattle.auction_core.specs.Draft.{IsDraftOf, IsReady};
ghost use Rattle.effects.specs.Bytes.{is_kept};
ghost use Rattle.exchange_state.specs.Placing.{IsCommitted, is_placing};
ghost use Rattle.plain_exchange.specs.declared.commands.Command.{Command as ACommand};

use crate::finding::{find_all, true_all};
use crate::state::{ExchangeState, Placing, Settled, Unsettled};
use crate::ticket::{Found, Ticket};
use crate::versions::{edit_of, version_of};
use auction_core::{Act, Candidates, Core, Draft, Reply};
use campaign_store::Table;
use deal_rules::Asked;
use effects::encode;
use index_versions::touched_since;
use plain_exchange::Change;
use rtb_base::Steps;
use rtb_disk::Disk;
use rtb_num::List;
use std::alloc::AllocError;
use std::sync::ledger::Ledger;

impl<D: Disk> ExchangeState<D> {
    ghost use Rattle.std.specs.Prelude.{◌≡◌, ◌<◌, ◌≤◌, ◌+◌, ◌++◌, ◌^◌, ℕ, List as AList, All, length, option_to_list, IfErr, IfOk, OnErr, OnOk, IsTrue, is_some, ◌&&◌, true};
    ghost use Rattle.std.specs.List.Sorted.{IsStrictlyIncreasing};
    ghost use Rattle.auction_core.specs.Core.{listed};
    ghost use Rattle.auction_core.specs.Draft.{IsDraftOf, IsReady};
    ghost use Rattle.auction_core.specs.Found.{AreTouched, MaySell, sold_cost};
    ghost use Rattle.effects.specs.Bytes.{IsEncodable, effects_bytes};
    ghost use Rattle.exchange_state.specs.Costs.{anew_cost, settled_cost};
    ghost use Rattle.exchange_state.specs.Finding.{looks, selling_cost};
    ghost use Rattle.exchange_state.specs.Placing.{CarriesOut, HasPlain, IsCommitted, IsHeldIn, IsSame, noted, placed_as};
    ghost use Rattle.exchange_state.specs.Settling.{Enters, IsHeld, IsStanding, MaySettle};
    ghost use Rattle.exchange_state.specs.Standing.{StandsFor, is_ahead};
    ghost use Rattle.exchange_state.specs.Tickets.{version_in};
    ghost use Rattle.exchange_state.specs.declared.entries.Entry.{Entry as AnEntry};
    ghost use Rattle.exchange_state.specs.declared.entries.Origin.{Origin as AnOrigin};
    ghost use Rattle.index_versions.specs.Recent.{touched_after};
    ghost use Rattle.plain_exchange.specs.declared.commands.Command.{Command as ACommand};
    ghost use Rattle.plain_exchange.specs.declared.commands.Command.TheVariants.{Act as AnAct, Auction as AnAuction};
    ghost use Rattle.rtb_types.specs.Valid.{is_valid};

    /// Carries out an auction at the moment, in milliseconds, over what was found in the ticket's version for its request,
    /// whatever was edited since. Where memory is short, nothing is carried out. `worn` grows by what the version costs
    /// for want of a newer one: the conjunctions of the campaigns that were touched since, once for each impression.
    ///
    /// One step is one candidate that is asked whether it may pay, and one conjunction that is looked at, of a campaign
    /// that was touched since; and, where the ticket is older than the edits that are remembered, one entry of the index
    /// that is read.
    pub fn settle<L: Ledger>(
        &mut self,
        ticket: &Ticket,
        found: &Found<'_>,
        moment: u64,
        worn: &mut u64,
        steps: &mut Steps<L>,
    ) -> Result<Settled, Unsettled>
        requires valid { IsTrue (is_valid found.now.asked) }
        requires ticket { MaySettle self.old (version_in ticket.now) found.now.asked found.now.candidates }
        ensures settled { (o : AnOrigin) (l : AList AnEntry) (w : ℕ) → StandsFor o self.old l → IfOk result (Enters o l w (AnAuction found.now.asked) moment self.new) }
        ensures unsettled { (o : AnOrigin) (l : AList AnEntry) → StandsFor o self.old l → OnErr result (StandsFor o self.new l) }
        ensures held { (o : AnOrigin) (l : AList AnEntry) → StandsFor o self.old l → IfErr result (λ e. e ≡ Unsettled.Held → IsHeld o l (AnAuction found.now.asked) moment) }
        ensures worn { worn.old ≤ worn.new }
        ensures cost { (o : AnOrigin) (l : AList AnEntry) → StandsFor o self.old l → steps.new ≤ steps.old + settled_cost o l (version_in ticket.now).edit moment found.now.asked found.now.candidates }
    {
        let edit = edit_of(&ticket.version);
        if self.recent.oldest() <= edit {
            return self.sell(&found.asked, &found.candidates, edit, moment, worn, steps);
        }
        self.sell_anew(&found.asked, moment, worn, steps)
    }

    // Sells over candidates of the present version: the edits since an older one are forgotten.
    fn sell_anew<L: Ledger>(
        &mut self,
        asked: &Asked<'_>,
        moment: u64,
        worn: &mut u64,
        steps: &mut Steps<L>,
    ) -> Result<Settled, Unsettled>
        requires valid { IsTrue (is_valid asked.now) }
        requires stands { IsStanding self.old }
        ensures done { IfOk result (CarriesOut (AnAuction asked.now) moment self.old self.new) }
        ensures undone { OnErr result (IsSame self.old self.new) }
        ensures held { IfErr result (λ e. e ≡ Unsettled.Held → IsHeldIn self.old (AnAuction asked.now) moment) }
        ensures worn { worn.old ≤ worn.new }
        ensures cost { (o : AnOrigin) (l : AList AnEntry) → StandsFor o self.old l → steps.new ≤ steps.old + anew_cost o l asked.now }
    {
        match find_all(self.alloc, version_of(&self.version), asked, steps) {
            Ok(candidates) => {
                let edit = edit_of(&self.version);
                let settled = self.sell(asked, &candidates, edit, moment, worn, steps);
                drop(candidates);
                settled
            }
            Err(AllocError) => Err(Unsettled::Memory),
        }
    }

    // Sells over what was found at an edit, of which the edits since are remembered.
    //
    // A draft has half a kilobyte. What hands it on is compiled into its caller, so that it is moved once, and not at
    // each call.
    #[inline(always)]
    fn sell<L: Ledger>(
        &mut self,
        asked: &Asked<'_>,
        candidates: &Candidates,
        edit: u64,
        moment: u64,
        worn: &mut u64,
        steps: &mut Steps<L>,
    ) -> Result<Settled, Unsettled>
        requires valid { IsTrue (is_valid asked.now) }
        requires known { self.old.recent.oldest ≤ edit }
        requires found { MaySell self.old.core.state (touched_after edit self.old.recent) asked.now candidates.now }
        requires few { self.old.core.edits < 2 ^ 63 }
        requires placed { self.old.placed < 2 ^ 63 }
        ensures done { IfOk result (CarriesOut (AnAuction asked.now) moment self.old self.new) }
        ensures undone { OnErr result (IsSame self.old self.new) }
        ensures held { IfErr result (λ e. e ≡ Unsettled.Held → IsHeldIn self.old (AnAuction asked.now) moment) }
        ensures worn { worn.old ≤ worn.new }
        ensures cost { steps.new ≤ steps.old + selling_cost self.old.core (touched_after edit self.old.recent) asked.now moment candidates.now }
    {
        match self.draft_over(asked, candidates, edit, moment, worn, steps) {
            Ok(draft) => self.place(draft),
            Err(AllocError) => Err(Unsettled::Memory),
        }
    }

    // Prepares that auction. Only rooms change.
    #[inline(always)]
    fn draft_over<L: Ledger>(
        &mut self,
        asked: &Asked<'_>,
        candidates: &Candidates,
        edit: u64,
        moment: u64,
        worn: &mut u64,
        steps: &mut Steps<L>,
    ) -> Result<Draft, AllocError>
        requires valid { IsTrue (is_valid asked.now) }
        requires known { self.old.recent.oldest ≤ edit }
        requires found { MaySell self.old.core.state (touched_after edit self.old.recent) asked.now candidates.now }
        ensures draft { IfOk result (IsDraftOf self.old.core.settings self.old.core.state (AnAuction asked.now) moment) }
        ensures ready { IfOk result (λ d. IsReady d self.new.core) }
        ensures plain { IfOk result (λ d. HasPlain d.effect) }
        ensures room { OnOk result (1 ≤ self.new.recent.spare) }
        ensures same { IsSame self.old self.new }
        ensures worn { worn.old ≤ worn.new }
        ensures cost { steps.new ≤ steps.old + selling_cost self.old.core (touched_after edit self.old.recent) asked.now moment candidates.now }
    {
        match touched_since(self.alloc, &self.recent, edit) {
            Ok(Some(touched)) => {
                let numbers = touched.as_slice();
                wear(worn, numbers, self.core.table(), asked.imps().len());
                let draft = self.draft_beside(asked, candidates, numbers, moment, steps);
                drop(touched);
                draft
            }
            Ok(None) => unreachable!(),
            Err(AllocError) => Err(AllocError),
        }
    }

    // The same, where these campaigns were touched since.
    #[inline(always)]
    fn draft_beside<L: Ledger>(
        &mut self,
        asked: &Asked<'_>,
        candidates: &Candidates,
        touched: &[u32],
        moment: u64,
        steps: &mut Steps<L>,
    ) -> Result<Draft, AllocError>
        requires valid { IsTrue (is_valid asked.now) }
        requires rising { IsStrictlyIncreasing touched.now }
        requires found { MaySell self.old.core.state touched.now asked.now candidates.now }
        ensures draft { IfOk result (IsDraftOf self.old.core.settings self.old.core.state (AnAuction asked.now) moment) }
        ensures ready { IfOk result (λ d. IsReady d self.new.core) }
        ensures plain { IfOk result (λ d. HasPlain d.effect) }
        ensures room { OnOk result (1 ≤ self.new.recent.spare) }
        ensures same { IsSame self.old self.new }
        ensures cost { steps.new ≤ steps.old + (looks touched.now (listed self.old.core.state) asked.now + sold_cost self.old.core touched.now asked.now moment candidates.now) }
    {
        match true_all(
            self.alloc,
            touched,
            self.core.table(),
            asked.request(),
            steps,
        ) {
            Ok(now) => {
                let lists = now.as_slice();
                let draft = self.draft(asked, candidates, touched, lists, moment, steps);
                drop(now);
                draft
            }
            Err(AllocError) => Err(AllocError),
        }
    }

    // The same, where those of them that are live and true now are found.
    #[inline(always)]
    fn draft<L: Ledger>(
        &mut self,
        asked: &Asked<'_>,
        candidates: &Candidates,
        touched: &[u32],
        now: &[List<u32>],
        moment: u64,
        steps: &mut Steps<L>,
    ) -> Result<Draft, AllocError>
        requires valid { IsTrue (is_valid asked.now) }
        requires rising { IsStrictlyIncreasing touched.now }
        requires found { MaySell self.old.core.state touched.now asked.now candidates.now }
        requires now { AreTouched self.old.core.state touched.now asked.now now.now }
        ensures draft { IfOk result (IsDraftOf self.old.core.settings self.old.core.state (AnAuction asked.now) moment) }
        ensures ready { IfOk result (λ d. IsReady d self.new.core) }
        ensures plain { IfOk result (λ d. HasPlain d.effect) }
        ensures room { OnOk result (1 ≤ self.new.recent.spare) }
        ensures same { IsSame self.old self.new }
        ensures cost { steps.new ≤ steps.old + sold_cost self.old.core touched.now asked.now moment candidates.now }
    {
        self.recent.reserve()?;
        self.core
            .prepare_found(self.alloc, asked, candidates, touched, now, moment, steps)
    }

    /// Carries out an act at the moment, in milliseconds. Where memory is short, nothing is
    /// carried out.
    pub fn simple(&mut self, act: &Act, moment: u64) -> Result<Settled, Unsettled>
        requires stands { IsStanding self.old }
        ensures settled { (o : AnOrigin) (l : AList AnEntry) (w : ℕ) → StandsFor o self.old l → IfOk result (Enters o l w (AnAct act.now) moment self.new) }
        ensures unsettled { (o : AnOrigin) (l : AList AnEntry) → StandsFor o self.old l → OnErr result (StandsFor o self.new l) }
        ensures held { (o : AnOrigin) (l : AList AnEntry) → StandsFor o self.old l → IfErr result (λ e. e ≡ Unsettled.Held → IsHeld o l (AnAct act.now) moment) }
    {
        match self.draft_simple(act, moment) {
            Ok(draft) => self.place(draft),
            Err(AllocError) => Err(Unsettled::Memory),
        }
    }

    // The same for an act.
    pub(crate) fn draft_simple(&mut self, act: &Act, moment: u64) -> Result<Draft, AllocError>
        ensures draft { IfOk result (IsDraftOf self.old.core.settings self.old.core.state (AnAct act.now) moment) }
        ensures ready { IfOk result (λ d. IsReady d self.new.core) }
        ensures plain { IfOk result (λ d. HasPlain d.effect) }
        ensures room { OnOk result (1 ≤ self.new.recent.spare) }
        ensures same { IsSame self.old self.new }
    {
        self.recent.reserve()?;
        self.core.prepare_simple(self.alloc, act, moment)
    }

    // Carries out what was prepared. Its effect is at hand before that.
    #[inline(always)]
    fn place(&mut self, draft: Draft) -> Result<Settled, Unsettled>
        requires ready { IsReady draft self.old.core }
        requires plain { HasPlain draft.effect }
        requires room { 1 ≤ self.old.recent.spare }
        requires few { self.old.core.edits < 2 ^ 63 }
        requires placed { self.old.placed < 2 ^ 63 }
        ensures done { (command : ACommand) (moment : ℕ) → IsDraftOf self.old.core.settings self.old.core.state command moment draft → IfOk result (CarriesOut command moment self.old self.new) }
        ensures undone { OnErr result (self.new ≡ self.old) }
        ensures held { IfErr result (λ e. e ≡ Unsettled.Held → (is_some draft.effect && is_ahead self.old) ≡ true) }
    {
        if self.is_held(&draft) {
            drop(draft);
            return Err(Unsettled::Held);
        }
        match self.write_effect(&draft) {
            Ok(placing) => Ok(self.commit(draft, placing)),
            Err(AllocError) => {
                drop(draft);
                Err(Unsettled::Memory)
            }
        }
    }

    // Whether the draft has an effect, and a change is ahead of it.
    #[inline(always)]
    fn is_held(&self, draft: &Draft) -> bool
        ensures { result ≡ (is_some draft.now.effect && is_ahead self.now) }
    {
        draft.effect().is_some() && self.is_ahead()
    }

    // Appends the bytes of the draft's effect to those that are pending, where it has one.
    #[inline(always)]
    pub(crate) fn write_effect(&mut self, draft: &Draft) -> Result<Placing, AllocError>
        requires plain { HasPlain draft.now.effect }
        ensures placing { IfOk result (placed_as (length self.old.core.state.campaigns) draft.now.effect) }
        ensures encodable { OnOk result (All IsEncodable (option_to_list draft.now.effect)) }
        ensures pending { OnOk result (self.new ≡ record self.old { pending = self.old.pending ++ effects_bytes (option_to_list draft.now.effect) }) }
        ensures err { OnErr result (self.new ≡ self.old) }
    {
        match draft.effect() {
            Some(effect) => {
                let placing = placing_of(&effect.change, self.core.table().count());
                encode(effect, &mut self.pending)?;
                Ok(placing)
            }
            None => Ok(Placing::Nothing),
        }
    }

    // Carries the draft out, and remembers the edit.
    #[inline(always)]
    pub(crate) fn commit(&mut self, draft: Draft, placing: Placing) -> Settled
        requires ready { IsReady draft self.old.core }
        requires room { 1 ≤ self.old.recent.spare }
        requires few { self.old.core.edits < 2 ^ 63 }
        requires placed { self.old.placed < 2 ^ 63 }
        ensures done { (command : ACommand) (moment : ℕ) → IsDraftOf self.old.core.settings self.old.core.state command moment draft → IsCommitted command moment self.old.core self.new.core result.reply }
        ensures rest { self.new ≡ record (noted placing self.old) { core = self.new.core } }
        ensures upto { result.upto ≡ self.new.placed }
        ensures durable { result.durable ≡ self.new.durable }
    {
        let reply = commit_exactly(&mut self.core, draft);
        self.note(placing);
        Settled {
            reply,
            upto: self.placed,
            durable: self.durable,
        }
    }

    // Remembers what was placed.
    #[inline(always)]
    fn note(&mut self, placing: Placing)
        requires room { 1 ≤ self.old.recent.spare }
        requires placed { self.old.placed < 2 ^ 63 }
        ensures { self.new ≡ noted placing self.old }
    {
        match placing {
            Placing::Nothing => {}
            Placing::Effect => self.placed += 1,
            Placing::Edit(campaign) => {
                self.placed += 1;
                self.recent.note(campaign);
            }
        }
    }
}

// Carries out what was prepared: it makes just the edits of the draft's effect.
#[inline(always)]
fn commit_exactly(core: &mut Core, draft: Draft) -> Reply
    requires ready { IsReady draft core.old }
    requires few { core.old.edits < 2 ^ 63 }
    ensures { (command : ACommand) (moment : ℕ) → IsDraftOf core.old.settings core.old.state command moment draft → IsCommitted command moment core.old core.new result }
{
    core.commit(draft)
}

// What is to be remembered of a change, where there are so many campaigns.
fn placing_of(change: &Change, campaigns: u32) -> Placing
    requires plain { is_kept change.now ≡ false }
    requires few { campaigns ≤ 65536 }
    ensures { is_placing campaigns change.now result }
{
    match change {
        Change::Added(_, _) => Placing::Edit(campaigns + 1),
        Change::Changed(n, _, _) | Change::Paused(n) | Change::Resumed(n) => Placing::Edit(*n),
        _ => Placing::Effect,
    }
}

// Counts for the version what is asked of these campaigns, once for each impression.
fn wear(worn: &mut u64, touched: &[u32], table: &Table, imps: usize)
    ensures { worn.old ≤ worn.new }
{
    let asked = conjunctions_of(touched, table).saturating_mul(imps as u64);
    *worn = worn.saturating_add(asked);
}

// How many conjunctions these campaigns have.
fn conjunctions_of(touched: &[u32], table: &Table) -> u64 {
    let mut count: u64 = 0;
    for number in touched {
        if let Some(entry) = table.get(*number) {
            count = count.saturating_add(entry.record().expr.conjunctions() as u64);
        }
    }
    count
}
