//! The state as the effects of a compacted journal.
ghost use Rattle.std.specs.Prelude.{◌≡◌, ◌≤◌, ◌+◌, ◌<◌, ◌^◌, IfOk, Some, length, option_map, slice_get};
ghost use Rattle.plain_exchange.specs.declared.changes.Change.TheVariants as change;
ghost use Rattle.plain_exchange.specs.Effects.{kept_campaign, kept_effects, kept_sale};
ghost use Rattle.plain_exchange.specs.State.{Campaign, campaign_at, forgotten};

use crate::exchange::Core;
use budget_book::{Gone, SaleRow};
use campaign::Facts;
use plain_exchange::{Change, Effect, KeptCampaign, Record};
use std::alloc::AllocError;
use target_expr::Expr;

impl Core {
    /// The effect at the place, counted from 0, of those that make the state again: one for each campaign, and
    /// then one for each sale in the list. None past their end.
    pub fn kept(&self, place: u64) -> Result<Option<Effect>, AllocError>
        ensures { IfOk result (λ e. e ≡ slice_get (kept_effects self.now.state) place) }
    {
        let campaigns = self.campaigns();
        if place < campaigns {
            let effect = self.kept_campaign(place as u32 + 1)?;
            return Ok(Some(effect));
        }
        self.kept_sale(place - campaigns)
    }

    // The effect that makes campaign `n` again.
    fn kept_campaign(&self, n: u32) -> Result<Effect, AllocError>
        requires there { (1 ≤ n) × (n ≤ length self.now.state.campaigns) }
        ensures { (c : Campaign) → campaign_at self.now.state n ≡ Some c → IfOk result (λ e. e ≡ kept_campaign c) }
    {
        let copies = copy_parts(self.entry(n).record())?;
        let (facts, expr) = copies;
        Ok(campaign_effect(self.is_live(n), facts, expr, self.book.gone(n)))
    }

    // The effect that makes the sale at the place of the list again, where there is one.
    fn kept_sale(&self, place: u64) -> Result<Option<Effect>, AllocError>
        ensures { IfOk result (λ e. e ≡ option_map kept_sale (slice_get self.now.state.sales place)) }
    {
        if place >= self.sales() {
            return Ok(None);
        }
        let row = self.book.row(self.forgotten_count() + place + 1)?;
        Ok(sale_effect(row))
    }

    // How many sales are forgotten: at most 2^62.
    pub(crate) fn forgotten_count(&self) -> u64
        ensures value { result ≡ forgotten self.now.state }
        ensures few { result ≤ 2 ^ 62 }
    {
        self.book.forgotten()
    }
}

fn copy_parts(entry: &Record) -> Result<(Facts, Expr), AllocError>
    ensures { IfOk result (λ p. p ≡ (entry.now.facts, entry.now.expr)) }
{
    let expr = entry.expr.copy()?;
    let facts = entry.facts.copy()?;
    Ok((facts, expr))
}

fn campaign_effect(live: bool, facts: Facts, expr: Expr, gone: Gone) -> Effect
    ensures { result ≡ record { moment = 0; change = change.Kept (record { live = live; facts = facts; expr = expr; gone = gone }) } }
{
    Effect {
        moment: 0,
        change: Change::Kept(KeptCampaign {
            live,
            facts,
            expr,
            gone,
        }),
    }
}

fn sale_effect(row: Option<SaleRow>) -> Option<Effect>
    ensures { result ≡ option_map kept_sale row }
{
    match row {
        None => None,
        Some(row) => Some(Effect {
            moment: 0,
            change: Change::KeptSale(row),
        }),
    }
}
