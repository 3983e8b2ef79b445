//! Whether effects of a journal fit the state.
ghost use Rattle.std.specs.Prelude.{◌≡◌, ◌≤◌, ◌-◌, ◌^◌, ◌==◌, ◌&&◌, if◌then◌else◌, IsTrue, false, is_some, length, min, not};
ghost use Rattle.std.specs.Option.{option_map_or};
ghost use Rattle.auction_core.specs.Applying.{User, items_cost, with_sold};
ghost use Rattle.auction_core.specs.Putting.{can_change, sales_in};
ghost use Rattle.budget_book.specs.declared.sales.SaleRow.{SaleRow};
ghost use Rattle.budget_book.specs.Sales.{is_held};
ghost use Rattle.plain_exchange.specs.Effects.{can_pay, change_applied, fits, has_room, with_forgotten, with_items};
ghost use Rattle.plain_exchange.specs.State.{Campaign, campaign_at, free, sale_numbered, swept};

use crate::exchange::Core;
use budget_book::{MOST_FORGOTTEN, MOST_SALES, SaleState};
use campaign::Facts;
use plain_exchange::{Change, Effect, SoldItem};
use target_expr::Expr;

impl Core {
    // Whether the effect fits the state.
    pub(crate) fn fits(&self, effect: &Effect) -> bool
        ensures value { result ≡ fits effect.now self.now.state }
        ensures few { IsTrue result → sales_in effect.now.change ≤ 67108864 }
    {
        self.fits_change(&effect.change, effect.moment)
    }

    // The same, by the change and its moment.
    fn fits_change(&self, change: &Change, moment: u64) -> bool
        ensures value { result ≡ is_some (change_applied change.now moment self.now.state) }
        ensures few { IsTrue result → sales_in change.now ≤ 67108864 }
    {
        match change {
            Change::Swept => self.is_any_due(moment),
            Change::Sold(items) => self.can_sell(items.as_slice(), moment),
            Change::Added(facts, expr) => self.limit_with(facts, expr).is_none(),
            Change::Changed(n, facts, expr) => self.can_change(*n, facts, expr, moment),
            Change::Paused(n) => self.can_pause(*n),
            Change::Resumed(n) => self.can_resume(*n),
            Change::Billed(sale) => self.can_settle(*sale, moment),
            Change::Lost(sale) => self.can_settle(*sale, moment),
            Change::SoldTo(_, items) => self.can_sell(items.as_slice(), moment),
            Change::Forgot(forgotten) => self.can_forget(*forgotten, moment),
            Change::Kept(kept) => moment == 0 && self.can_keep(kept),
            Change::KeptSale(row) => moment == 0 && self.can_keep_sale(row),
        }
    }

    // Whether campaign `n` is there and live.
    pub(crate) fn can_pause(&self, n: u32) -> bool
        ensures { result ≡ option_map_or (λ (c : Campaign). c.live) (campaign_at self.now.state n) false }
    {
        match self.table.live(n) {
            Some(live) => live,
            None => false,
        }
    }

    // Whether campaign `n` is there and paused.
    pub(crate) fn can_resume(&self, n: u32) -> bool
        ensures { result ≡ option_map_or (λ (c : Campaign). not c.live) (campaign_at self.now.state n) false }
    {
        match self.table.live(n) {
            Some(live) => !live,
            None => false,
        }
    }

    // Whether campaign `n` may have another record.
    pub(crate) fn can_change(&self, n: u32, facts: &Facts, expr: &Expr, moment: u64) -> bool
        ensures { result ≡ option_map_or (can_change (swept moment self.now.state) n (record { facts = facts.now; expr = expr.now })) (campaign_at self.now.state n) false }
    {
        match self.number(u64::from(n)) {
            None => false,
            Some(n) => self.can_change_there(n, facts, expr, moment),
        }
    }

    fn can_change_there(&self, n: u32, facts: &Facts, expr: &Expr, moment: u64) -> bool
        requires there { IsTrue (is_some (campaign_at self.now.state n)) }
        ensures { (c : Campaign) → campaign_at self.now.state n ≡ Some c → result ≡ can_change (swept moment self.now.state) n (record { facts = facts.now; expr = expr.now }) c }
    {
        let committed = self.commitments_at(n, moment);
        let limit = self.limit_changed(n, facts, expr);
        committed <= facts.budget() && limit.is_none()
    }

    // Whether the sale is held at the moment.
    pub(crate) fn can_settle(&self, sale: u64, moment: u64) -> bool
        ensures { result ≡ option_map_or (λ (x : SaleRow). is_held x.state) (sale_numbered (swept moment self.now.state) sale) false }
    {
        match self.state_at(sale, moment) {
            Some(SaleState::Held) => true,
            _ => false,
        }
    }

    // Whether so many sales can be forgotten in all at the moment.
    #[tactic(auto, using(crate::proofs::Fitting::some_if))]
    fn can_forget(&self, forgotten: u64, moment: u64) -> bool
        ensures { result ≡ is_some (with_forgotten forgotten (swept moment self.now.state)) }
    {
        let more = forgotten.saturating_sub(self.forgotten());
        let settled = self.book.are_settled_at(more, moment);
        forgotten <= MOST_FORGOTTEN && settled
    }

    // Whether the items can be sold at the moment, one after the other.
    pub(crate) fn can_sell(&self, items: &[SoldItem], moment: u64) -> bool
        ensures value { (user : User) → result ≡ is_some (with_items moment user items.now (swept moment self.now.state)) }
        ensures few { IsTrue result → length items.now ≤ 67108864 }
    {
        for place in 0..items.len() {
            if !self.can_sell_next(&items[..place], &items[place], moment) {
                return false;
            }
        }
        true
    }

    // Whether the item can be sold at the moment, once these are.
    fn can_sell_next(&self, before: &[SoldItem], item: &SoldItem, moment: u64) -> bool
        ensures { (user : User) → result ≡ (can_pay (with_sold moment user before.now (swept moment self.now.state)) item.now.campaign item.now.price && has_room (with_sold moment user before.now (swept moment self.now.state))) }
    {
        let pays = self.can_pay_beside(before, item, moment);
        pays && self.sales() + (before.len() as u64) < MOST_SALES
    }

    // Whether the campaign of the item can pay it beside these.
    fn can_pay_beside(&self, before: &[SoldItem], item: &SoldItem, moment: u64) -> bool
        ensures { (user : User) → result ≡ can_pay (with_sold moment user before.now (swept moment self.now.state)) item.now.campaign item.now.price }
    {
        if !self.can_pause(item.campaign) {
            return false;
        }
        item.price.get() <= self.free_beside_items(item.campaign, before, moment)
    }

    // What is left of the budget of campaign `n` beside the items, which are sold at the moment.
    fn free_beside_items(&self, n: u32, before: &[SoldItem], moment: u64) -> u64
        requires there { IsTrue (is_some (campaign_at self.now.state n)) }
        ensures { (user : User) (c : Campaign) → campaign_at self.now.state n ≡ Some c → result ≡ free (with_sold moment user before.now (swept moment self.now.state)) n c }
    {
        let free = self.free_at(n, moment).get();
        free.saturating_sub(items_cost(n, before))
    }
}

// What the items take of the budget of campaign `n`, or 2^64 - 1 where that is less.
fn items_cost(n: u32, items: &[SoldItem]) -> u64
    ensures { result ≡ min (items_cost n items.now) (2 ^ 64 - 1) }
{
    let mut sum: u64 = 0;
    for item in items {
        sum = sum.saturating_add(price_of(n, item));
    }
    sum
}

// What the item takes of it.
fn price_of(n: u32, item: &SoldItem) -> u64
    ensures { result ≡ if item.now.campaign == n then item.now.price else 0 }
{
    if item.campaign == n {
        item.price.get()
    } else {
        0
    }
}
