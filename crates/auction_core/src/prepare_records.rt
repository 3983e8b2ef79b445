//! Commands that give a campaign its record, prepared.
ghost use Rattle.std.specs.Prelude.{◌≡◌, ◌≤◌, ◌^◌, ℕ, [], ◌∷◌, IfOk, IsTrue, Some, is_some, option_map};
ghost use Rattle.std.specs.Result.{result_err};
ghost use Rattle.auction_core.specs.Outcomes.{IsOutcome, does};
ghost use Rattle.plain_exchange.specs.declared.changes.Change.TheVariants as change;
ghost use Rattle.plain_exchange.specs.declared.commands.Reply.TheVariants as reply;
ghost use Rattle.plain_exchange.specs.State.{Campaign, campaign_at, limit_passed, swept, with_campaign, with_campaigns};
ghost use Rattle.plain_exchange.specs.Step.{add_campaign, at_campaign, change_campaign, new_campaign, with_record};

use crate::exchange::Core;
use crate::outcome::{Outcome, reply_alone, reply_to};
use campaign::Facts;
use campaign_store::Full;
use plain_exchange::{Change, Limit, Reply};
use rtb_num::Nanos;
use std::alloc::AllocError;
use target_expr::Expr;

impl Core {
    // Adds a live campaign.
    pub(crate) fn add_outcome(&self, facts: &Facts, expr: &Expr) -> Result<Outcome, AllocError>
        ensures { (m : ℕ) → IfOk result (λ o. IsOutcome (add_campaign facts.now expr.now (swept m self.now.state)) o) }
    {
        match self.limit_with(facts, expr) {
            Some(limit) => Ok(reply_alone(Reply::Full { limit })),
            None => added(self.table.count() + 1, facts, expr),
        }
    }

    // Gives campaign `n` another record.
    pub(crate) fn change_outcome(
        &self,
        n: u64,
        facts: &Facts,
        expr: &Expr,
        moment: u64,
    ) -> Result<Outcome, AllocError>
        ensures { IfOk result (λ o. IsOutcome (at_campaign (swept moment self.now.state) n (change_campaign facts.now expr.now n (swept moment self.now.state))) o) }
    {
        match self.number(n) {
            None => Ok(reply_alone(Reply::NoSuchCampaign)),
            Some(n) => self.change_there(n, facts, expr, moment),
        }
    }

    fn change_there(
        &self,
        n: u32,
        facts: &Facts,
        expr: &Expr,
        moment: u64,
    ) -> Result<Outcome, AllocError>
        requires there { IsTrue (is_some (campaign_at self.now.state n)) }
        ensures { IfOk result (λ o. IsOutcome (at_campaign (swept moment self.now.state) n (change_campaign facts.now expr.now n (swept moment self.now.state))) o) }
    {
        let committed = self.commitments_at(n, moment);
        if facts.budget() < committed {
            return Ok(reply_alone(Reply::BelowCommitted { committed }));
        }
        match self.limit_changed(n, facts, expr) {
            Some(limit) => Ok(reply_alone(Reply::Full { limit })),
            None => change_within(n, facts, expr),
        }
    }

    // The first limit that the campaigns are above with one more.
    pub(crate) fn limit_with(&self, facts: &Facts, expr: &Expr) -> Option<Limit>
        ensures { result ≡ limit_passed (with_campaigns self.now.state (new_campaign facts.now expr.now ∷ [])) }
    {
        limit_of(self.table.room(None, facts, expr))
    }

    // The first limit that they are above where campaign `n` has another record.
    #[tactic(auto, using(crate::proofs::Stating::is_there))]
    pub(crate) fn limit_changed(&self, n: u32, facts: &Facts, expr: &Expr) -> Option<Limit>
        requires there { IsTrue (is_some (campaign_at self.now.state n)) }
        ensures { (c : Campaign) → campaign_at self.now.state n ≡ Some c → result ≡ limit_passed (with_campaign self.now.state n (with_record facts.now expr.now c)) }
    {
        limit_of(self.table.room(Some(n), facts, expr))
    }
}

// The limit that is in the way, where one is.
fn limit_of(room: Result<(), Full>) -> Option<Limit>
    ensures { result ≡ option_map (λ f. f.limit) (result_err room) }
{
    match room {
        Ok(()) => None,
        Err(full) => Some(full.limit),
    }
}

fn added(n: u32, facts: &Facts, expr: &Expr) -> Result<Outcome, AllocError>
    ensures { IfOk result (λ o. o ≡ does (reply.Added n) (change.Added facts.now expr.now)) }
{
    let expr = expr.copy()?;
    let facts = facts.copy()?;
    Ok(reply_to(Change::Added(facts, expr), Reply::Added { n }))
}

fn change_within(n: u32, facts: &Facts, expr: &Expr) -> Result<Outcome, AllocError>
    ensures { IfOk result (λ o. o ≡ does (reply.Changed n) (change.Changed n facts.now expr.now)) }
{
    let expr = expr.copy()?;
    let facts = facts.copy()?;
    Ok(reply_to(Change::Changed(n, facts, expr), Reply::Changed { n }))
}

// An amount that is known to fit.
pub(crate) fn nanos(n: u64) -> Nanos
    requires { n ≤ 10 ^ 15 }
    ensures { result ≡ n }
{
    match Nanos::new(n) {
        Some(amount) => amount,
        None => unreachable!(),
    }
}
