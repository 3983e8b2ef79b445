//! What was prepared is carried out.
ghost use Rattle.std.specs.Prelude.{◌≡◌, ◌<◌, ◌+◌, ◌^◌, ℕ, IfSome, IsTrue, is_some};
ghost use Rattle.std.specs.Option.{option_copied};
ghost use Rattle.auction_core.specs.Draft.{CanPut, IsDraftOf, IsReady, answered, edits_made, effect_edits};
ghost use Rattle.auction_core.specs.Putting.{Leads};
ghost use Rattle.plain_exchange.specs.declared.commands.Command.{Command};
ghost use Rattle.plain_exchange.specs.declared.commands.Look.TheVariants.{Report};
ghost use Rattle.plain_exchange.specs.State.{campaign_at};
ghost use Rattle.plain_exchange.specs.Step.{step, told};

use crate::draft::{Answer, Draft, Memory};
use crate::exchange::Core;
use plain_exchange::{Effect, Look, Reply};

impl Core {
    /// Carries out what was prepared, and answers it. It takes no memory.
    ///
    /// The exchange is as `prepare` left it: nothing was committed, applied or forgotten since.
    pub fn commit(&mut self, draft: Draft) -> Reply
        requires ready { IsReady draft self.old }
        requires few { self.old.edits < 2 ^ 63 }
        ensures reply { (command : Command) (moment : ℕ) → IsDraftOf self.old.settings self.old.state command moment draft → result ≡ (step self.old.settings moment self.old.state command).reply }
        ensures state { (command : Command) (moment : ℕ) → IsDraftOf self.old.settings self.old.state command moment draft → self.new.state ≡ (step self.old.settings moment self.old.state command).after }
        ensures settings { self.new.settings ≡ self.old.settings }
        ensures edits { self.new.edits ≡ self.old.edits + edits_made draft }
    {
        let memory = draft.memory;
        self.enter(draft.effect.as_ref(), memory);
        drop(draft.effect);
        self.answer(draft.answer)
    }

    // Carries the effect out, where there is one.
    fn enter(&mut self, effect: Option<&Effect>, memory: Memory)
        requires ready { IfSome (option_copied effect) (λ e. CanPut e memory self.old) }
        requires few { self.old.edits < 2 ^ 63 }
        ensures state { Leads (option_copied effect.entry) self.old.state self.new.state }
        ensures settings { self.new.settings ≡ self.old.settings }
        ensures edits { self.new.edits ≡ self.old.edits + effect_edits (option_copied effect.entry) }
    {
        match effect {
            None => drop(memory),
            Some(effect) => self.put(effect, memory),
        }
    }

    fn answer(&self, answer: Answer) -> Reply
        ensures { result ≡ answered answer self.now.state }
    {
        match answer {
            Answer::Told(reply) => reply,
            Answer::Look(look) => self.look(&look),
        }
    }

    // What a look is told.
    fn look(&self, look: &Look) -> Reply
        ensures { result ≡ told self.now.state look.now }
    {
        match look {
            Look::Report(n) => self.report(*n),
        }
    }

    // What the sales of campaign `n` add up to, where it is there.
    fn report(&self, n: u64) -> Reply
        ensures { result ≡ told self.now.state (Report n) }
    {
        match self.number(n) {
            None => Reply::NoSuchCampaign,
            Some(n) => self.report_there(n),
        }
    }

    #[tactic(auto, using(crate::proofs::Stating::is_there))]
    fn report_there(&self, n: u32) -> Reply
        requires there { IsTrue (is_some (campaign_at self.now.state n)) }
        ensures { result ≡ told self.now.state (Report n) }
    {
        let facts = &self.entry(n).record().facts;
        Reply::Reported {
            n,
            live: self.is_live(n),
            bid: facts.bid(),
            budget: facts.budget(),
            totals: self.totals(n),
        }
    }
}
