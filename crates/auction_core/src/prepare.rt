//! Commands are prepared.
ghost use Rattle.std.specs.Prelude.{◌≡◌, ◌≤◌, ℕ, IfOk, IfSome, IsTrue, None, Ok, Option, Some, if◌then◌else◌, option_map};
ghost use Rattle.std.specs.Option.{option_copied, option_or};
ghost use Rattle.auction_core.specs.Draft.{CanPut, IsDraftOf, IsReady, found_of, is_valid_command};
ghost use Rattle.auction_core.specs.Frames.{OnlyRooms};
ghost use Rattle.auction_core.specs.Outcomes.{IsOutcome};
ghost use Rattle.plain_exchange.specs.declared.settings.Settings.{Settings};
ghost use Rattle.plain_exchange.specs.declared.changes.Change.{Change as AChange};
ghost use Rattle.plain_exchange.specs.declared.changes.Change.TheVariants.{Swept};
ghost use Rattle.plain_exchange.specs.declared.commands.Command.{Command as ACommand};
ghost use Rattle.plain_exchange.specs.declared.commands.Command.TheVariants.{Act as AnAct};
ghost use Rattle.plain_exchange.specs.State.{is_any_due};
ghost use Rattle.plain_exchange.specs.Effects.{edits_in, fits};
ghost use Rattle.plain_exchange.specs.Step.{step};

use crate::draft::{Answer, Draft, Memory};
use crate::exchange::Core;
use crate::outcome::Outcome;
use crate::prepare_campaigns::look_outcome;
use plain_exchange::{Act, Change, Command, Effect};
use rtb_num::List;
use std::alloc::{AllocError, Global};

impl Core {
    /// Prepares a command. Of an auction it is told, for each impression, the numbers of the live campaigns
    /// whose expression is true of it, in their order; of an act nothing is told. Only rooms change,
    /// also where memory is wanting.
    pub fn prepare(
        &mut self,
        alloc: Global,
        command: &Command,
        found: &[List<u32>],
        moment: u64,
    ) -> Result<Draft, AllocError>
        requires valid { IsTrue (is_valid_command command.now) }
        requires found { found.now ≡ found_of self.old.state command.now }
        ensures draft { IfOk result (λ d. IsDraftOf self.old.settings self.old.state command.now moment d) }
        ensures ready { IfOk result (λ d. IsReady d self.new) }
        ensures state { self.new.state ≡ self.old.state }
        ensures settings { self.new.settings ≡ self.old.settings }
        ensures edits { self.new.edits ≡ self.old.edits }
        ensures sale_room { self.old.sale_room ≤ self.new.sale_room }
        ensures campaign_room { self.old.campaign_room ≤ self.new.campaign_room }
    {
        match command {
            Command::Auction(request) => self.prepare_auction(alloc, request, found, moment),
            Command::Act(act) => self.prepare_simple(alloc, act, moment),
        }
    }

    /// Prepares an act. Only rooms change, also where memory is wanting.
    pub fn prepare_simple(
        &mut self,
        alloc: Global,
        act: &Act,
        moment: u64,
    ) -> Result<Draft, AllocError>
        ensures draft { IfOk result (λ d. IsDraftOf self.old.settings self.old.state (AnAct act.now) moment d) }
        ensures ready { IfOk result (λ d. IsReady d self.new) }
        ensures state { self.new.state ≡ self.old.state }
        ensures settings { self.new.settings ≡ self.old.settings }
        ensures edits { self.new.edits ≡ self.old.edits }
        ensures sale_room { self.old.sale_room ≤ self.new.sale_room }
        ensures campaign_room { self.old.campaign_room ≤ self.new.campaign_room }
    {
        let outcome = self.outcome(act, moment)?;
        self.draft(alloc, outcome, moment)
    }

    // What the act does to the state in which nothing is due.
    fn outcome(&self, act: &Act, moment: u64) -> Result<Outcome, AllocError>
        ensures { IfOk result (λ o. IsOutcome (step self.now.settings moment self.now.state (AnAct act.now)) o) }
    {
        match act {
            Act::Add(facts, expr) => self.add_outcome(facts, expr),
            Act::Change(n, facts, expr) => self.change_outcome(*n, facts, expr, moment),
            Act::Pause(n) => Ok(self.pause_outcome(*n)),
            Act::Resume(n) => Ok(self.resume_outcome(*n)),
            Act::Bill(sale) => Ok(self.bill_outcome(*sale, moment)),
            Act::Lose(sale) => Ok(self.lose_outcome(*sale, moment)),
            Act::Forget(keep) => Ok(self.forget_outcome(*keep, moment)),
            Act::Look(look) => Ok(look_outcome(look)),
        }
    }

    // The draft of the outcome, with the memory that its effect takes. Only rooms change.
    pub(crate) fn draft(
        &mut self,
        alloc: Global,
        outcome: Outcome,
        moment: u64,
    ) -> Result<Draft, AllocError>
        requires outcome { (settings : Settings) × (command : ACommand) × IsOutcome (step settings moment self.old.state command) outcome }
        ensures draft { (settings : Settings) (command : ACommand) → IsOutcome (step settings moment self.old.state command) outcome → IfOk result (λ d. IsDraftOf settings self.old.state command moment d) }
        ensures ready { IfOk result (λ d. IsReady d self.new) }
        ensures rooms { OnlyRooms self.old self.new }
    {
        let effect = self.effect_of(outcome.change, moment);
        let memory = self.memory_of(alloc, effect.as_ref());
        drafted(outcome.answer, effect, memory)
    }

    // The memory that the effect takes, where there is one, and room for it.
    fn memory_of(&mut self, alloc: Global, effect: Option<&Effect>) -> Result<Memory, AllocError>
        requires fits { IfSome (option_copied effect) (λ e. IsTrue (fits e self.old.state)) }
        requires few { IfSome (option_copied effect) (λ e. edits_in e.change ≤ 1) }
        ensures ready { IfOk result (λ m. IfSome (option_copied effect.entry) (λ e. CanPut e m self.new)) }
        ensures rooms { OnlyRooms self.old self.new }
    {
        match effect {
            None => Ok(Memory::Nothing),
            Some(effect) => self.memory_with(alloc, effect),
        }
    }

    // The memory that it takes, and room for it.
    fn memory_with(&mut self, alloc: Global, effect: &Effect) -> Result<Memory, AllocError>
        requires fits { IsTrue (fits effect.now self.old.state) }
        requires few { edits_in effect.now.change ≤ 1 }
        ensures ready { IfOk result (λ m. CanPut effect.now m self.new) }
        ensures rooms { OnlyRooms self.old self.new }
    {
        self.make_ready(alloc, &effect.change)
    }

    // The command's own change, or else that sales expire, or none.
    fn effect_of(&self, change: Option<Change>, moment: u64) -> Option<Effect>
        ensures { result ≡ option_map (λ (c : AChange). record { moment = moment; change = c }) (option_or change (if is_any_due moment self.now.state then Some Swept else None)) }
    {
        match change {
            Some(change) => Some(Effect { moment, change }),
            None => self.expiry(moment),
        }
    }

    // That sales expire, where some do.
    fn expiry(&self, moment: u64) -> Option<Effect>
        ensures { result ≡ if is_any_due moment self.now.state then Some (record { moment = moment; change = Swept }) else None }
    {
        if self.is_any_due(moment) {
            Some(Effect {
                moment,
                change: Change::Swept,
            })
        } else {
            None
        }
    }
}

// The draft, where there was memory.
fn drafted(
    answer: Answer,
    effect: Option<Effect>,
    memory: Result<Memory, AllocError>,
) -> Result<Draft, AllocError>
    ensures { IfOk result (λ d. (d.answer ≡ answer) × (d.effect ≡ effect) × (memory ≡ Ok d.memory)) }
{
    match memory {
        Err(fault) => {
            drop(answer);
            drop(effect);
            Err(fault)
        }
        Ok(memory) => Ok(Draft {
            answer,
            effect,
            memory,
        }),
    }
}
