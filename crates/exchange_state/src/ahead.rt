//! A change that is written before it is carried out, so that nobody else waits for the disk because of it.
ghost use Rattle.std.specs.Prelude.{◌≡◌, All, IfOk, OnOk, is_some, option_to_list};
ghost use Rattle.effects.specs.Bytes.{IsEncodable};
ghost use Rattle.exchange_state.specs.Ahead.{block_with};
ghost use Rattle.exchange_state.specs.Placing.{HasPlain};

use crate::errand::Errand;
use crate::state::{ExchangeState, Settled};
use auction_core::{Act, Draft};
use effects::encode;
use rtb_disk::Disk;
use rtb_num::Txt;
use std::alloc::{AllocError, Global};

impl<D: Disk> ExchangeState<D> {
    ghost use Rattle.std.specs.Prelude.{◌≡◌, ◌+◌, ◌≤◌, ◌<◌, ◌++◌, ◌^◌, [], ℕ, List as AList, All, true, false, length, None, Some, IfOk, IfSome, OnErr, OnOk, is_some, option_to_list};
    ghost use Rattle.auction_core.specs.Draft.{IsDraftOf, IsReady};
    ghost use Rattle.effects.specs.Bytes.{IsEncodable};
    ghost use Rattle.exchange_state.specs.Ahead.{CarriesAhead, block_with, is_idle};
    ghost use Rattle.exchange_state.specs.Errands.{IsStaged, staging_marks};
    ghost use Rattle.exchange_state.specs.Placing.{HasPlain, IsSame};
    ghost use Rattle.exchange_state.specs.Settling.{Enters, IsStanding};
    ghost use Rattle.exchange_state.specs.Standing.{StandsFor, is_ahead};
    ghost use Rattle.exchange_state.specs.Tickets.{effects_after, state_after};
    ghost use Rattle.exchange_state.specs.Views.{Taking, calls, is_behind, out, stable};
    ghost use Rattle.exchange_state.specs.declared.entries.Entry.{Entry as AnEntry};
    ghost use Rattle.exchange_state.specs.declared.entries.Origin.{Origin as AnOrigin};
    ghost use Rattle.plain_exchange.specs.declared.commands.Command.{Command as ACommand};
    ghost use Rattle.plain_exchange.specs.declared.commands.Command.TheVariants.{Act as AnAct};
    ghost use Rattle.plain_exchange.specs.Step.{effect_of};

    /// Whether a change is ahead: the journal is out with its block, and it is not carried out yet. Nothing that has an
    /// effect is carried out then but the change itself.
    pub fn is_ahead(&self) -> bool
        ensures { result ≡ is_ahead self.now }
    {
        self.journal.is_none() && self.durable == self.placed
    }

    /// Takes the journal with the block of an act, which is not carried out yet, at the moment in milliseconds. None is
    /// given where the journal is out or broken, where effects are not durable, and where the act has no effect.
    pub fn stage(&mut self, act: &Act, moment: u64) -> Result<Option<Errand<D>>, AllocError>
        requires stands { IsStanding self.old }
        ensures staged { (o : AnOrigin) (l : AList AnEntry) → StandsFor o self.old l → IfOk result (λ e. IfSome e (IsStaged o l (AnAct act.now) moment)) }
        ensures stands { (o : AnOrigin) (l : AList AnEntry) (w : ℕ) → StandsFor o self.old l → IfOk result (λ e. StandsFor o self.new (l ++ staging_marks w e)) }
        ensures none { (o : AnOrigin) (l : AList AnEntry) → StandsFor o self.old l → IfOk result (λ e. e ≡ None → out l ≡ None → is_behind l ≡ false → stable l ≡ length (effects_after o (calls l)) → effect_of o.settings moment (state_after o (calls l)) (AnAct act.now) ≡ None) }
        ensures unstaged { (o : AnOrigin) (l : AList AnEntry) → StandsFor o self.old l → OnErr result (StandsFor o self.new l) }
    {
        if !self.is_idle() {
            return Ok(None);
        }
        match self.block_ahead(act, moment) {
            Ok(Some(block)) => Ok(Some(self.errand_ahead(block))),
            Ok(None) => Ok(None),
            Err(AllocError) => Err(AllocError),
        }
    }

    // Whether the journal is home and whole, and all effects are durable.
    fn is_idle(&self) -> bool
        ensures { result ≡ is_idle self.now }
    {
        match &self.journal {
            Some(journal) => !journal.broken() && self.durable == self.placed,
            None => false,
        }
    }

    // The bytes of the effect that the act has. Only rooms change.
    fn block_ahead(&mut self, act: &Act, moment: u64) -> Result<Option<Txt>, AllocError>
        ensures block { IfOk result (λ b. b ≡ block_with (effect_of self.old.core.settings moment self.old.core.state (AnAct act.now))) }
        ensures encodable { OnOk result (All IsEncodable (option_to_list (effect_of self.old.core.settings moment self.old.core.state (AnAct act.now)))) }
        ensures same { IsSame self.old self.new }
    {
        match self.draft_simple(act, moment) {
            Ok(draft) => {
                let block = block_of(self.alloc, &draft);
                drop(draft);
                block
            }
            Err(AllocError) => Err(AllocError),
        }
    }

    // The journal with that block. It was home.
    fn errand_ahead(&mut self, block: Txt) -> Errand<D>
        requires home { is_some self.old.journal ≡ true }
        requires placed { self.old.placed < 2 ^ 63 }
        ensures home { self.old.journal ≡ Some result.journal }
        ensures errand { result ≡ record { journal = result.journal; block = block; upto = self.old.placed + 1; again = false } }
        ensures state { self.new ≡ record self.old { journal = None } }
    {
        match self.journal.take() {
            Some(journal) => Errand {
                journal,
                block,
                upto: self.placed + 1,
                again: false,
            },
            None => unreachable!(),
        }
    }

    /// Carries out the change that is ahead, at its moment. None is given where none is ahead, where the act has no effect,
    /// and where memory is short; then nothing is carried out.
    pub fn enter_ahead(&mut self, act: &Act, moment: u64) -> Option<Settled>
        requires stands { IsStanding self.old }
        ensures entered { (o : AnOrigin) (l : AList AnEntry) (w : ℕ) → StandsFor o self.old l → IfSome result (Enters o l w (AnAct act.now) moment self.new) }
        ensures ahead { (o : AnOrigin) (l : AList AnEntry) (t : Taking) → StandsFor o self.old l → out l ≡ Some t → IfSome result (λ s. t.upto ≡ length (effects_after o (calls l)) + 1) }
        ensures none { (o : AnOrigin) (l : AList AnEntry) → StandsFor o self.old l → result ≡ None → StandsFor o self.new l }
    {
        if !self.is_ahead() {
            return None;
        }
        match self.draft_simple(act, moment) {
            Ok(draft) => self.place_ahead(draft),
            Err(AllocError) => None,
        }
    }

    // Carries out what was prepared, where it has an effect.
    fn place_ahead(&mut self, draft: Draft) -> Option<Settled>
        requires ready { IsReady draft self.old.core }
        requires plain { HasPlain draft.effect }
        requires room { 1 ≤ self.old.recent.spare }
        requires few { self.old.core.edits < 2 ^ 63 }
        requires placed { self.old.placed < 2 ^ 63 }
        ensures done { (command : ACommand) (moment : ℕ) → IsDraftOf self.old.core.settings self.old.core.state command moment draft → IfSome result (CarriesAhead command moment self.old self.new) }
        ensures none { result ≡ None → self.new ≡ self.old }
    {
        if !has_effect(&draft) {
            drop(draft);
            return None;
        }
        match self.write_effect(&draft) {
            Ok(placing) => {
                let settled = self.commit(draft, placing);
                self.leave_pending();
                Some(settled)
            }
            Err(AllocError) => {
                drop(draft);
                None
            }
        }
    }

    // Nothing is pending: the bytes of all effects stand in the block that is out, or before it.
    fn leave_pending(&mut self)
        ensures { self.new ≡ record self.old { pending = []; upto = self.old.placed } }
    {
        self.pending.truncate(0);
        self.upto = self.placed;
    }
}

// Whether the draft has an effect.
fn has_effect(draft: &Draft) -> bool
    ensures { result ≡ is_some draft.now.effect }
{
    draft.effect().is_some()
}

// The bytes of the draft's effect, where it has one.
fn block_of(alloc: Global, draft: &Draft) -> Result<Option<Txt>, AllocError>
    requires plain { HasPlain draft.now.effect }
    ensures block { IfOk result (λ b. b ≡ block_with draft.now.effect) }
    ensures encodable { OnOk result (All IsEncodable (option_to_list draft.now.effect)) }
{
    match draft.effect() {
        Some(effect) => {
            let mut block = Txt::new(alloc);
            encode(effect, &mut block)?;
            Ok(Some(block))
        }
        None => Ok(None),
    }
}
