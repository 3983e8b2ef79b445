//! Effects of a compacted journal: whether they fit, and how they are put into the state.
ghost use Rattle.std.specs.Prelude.{◌≡◌, ◌≤◌, ◌<◌, ◌+◌, ◌-◌, ◌^◌, ◌==◌, ◌&&◌, if◌then◌else◌, false, true, [], ◌∷◌, IsTrue, None, Some, is_some, length, min, nat_le};
ghost use Rattle.std.specs.Option.{option_map_or};
ghost use Rattle.auction_core.specs.Putting.{Puts};
ghost use Rattle.auction_core.specs.Frames.{OnlyState};
ghost use Rattle.plain_exchange.specs.Effects.{campaign_of, can_keep, can_keep_sale, charge_of, edits_of_kept, with_kept, with_kept_sale};
ghost use Rattle.budget_book.specs.Sales.{gone_count, most_forgotten};
ghost use Rattle.plain_exchange.specs.State.{Campaign, campaign_at, forgotten, free, with_campaigns, with_sales};

use crate::exchange::Core;
use crate::prepare_records::nanos;
use budget_book::{Gone, MOST_SALES, SaleRow, SaleState, UserKey};
use plain_exchange::{KeptCampaign, SharedRecord};
use rtb_num::Nanos;

// The most sales that are ever forgotten.
const MOST_FORGOTTEN: u64 = 1 << 62;

impl Core {
    // A campaign as it was, before any sale.
    pub(crate) fn put_kept(&mut self, entry: SharedRecord, live: bool, gone: Gone, moment: u64)
        requires fits { IsTrue (is_some (if moment == 0 then with_kept (record { live = live; facts = entry.facts; expr = entry.expr; gone = gone }) self.old.state else None)) }
        requires room { 1 ≤ self.old.campaign_room }
        requires few { self.old.edits + edits_of_kept (record { live = live; facts = entry.facts; expr = entry.expr; gone = gone }) ≤ 2 ^ 63 }
        ensures { Puts (if moment == 0 then with_kept (record { live = live; facts = entry.facts; expr = entry.expr; gone = gone }) self.old.state else None) (edits_of_kept (record { live = live; facts = entry.facts; expr = entry.expr; gone = gone })) self.old self.new }
    {
        self.keep(entry, live, gone);
    }

    // Whether there is no sale yet, and the campaign can be added as it was.
    pub(crate) fn can_keep(&self, kept: &KeptCampaign) -> bool
        ensures { result ≡ can_keep self.now.state kept.now }
    {
        let sales = self.sales();
        let limit = self.limit_with(&kept.facts, &kept.expr);
        sales == 0 && (limit.is_none() && self.can_be_gone(kept))
    }

    // Whether its budget covers what it spent, and no more sales than can be are forgotten with its own.
    fn can_be_gone(&self, kept: &KeptCampaign) -> bool
        ensures { result ≡ (nat_le kept.now.gone.spent kept.now.facts.budget && nat_le (forgotten self.now.state + gone_count kept.now.gone) most_forgotten) }
    {
        let forgotten = self.forgotten_count().saturating_add(gone_count(kept.gone));
        kept.gone.spent <= kept.facts.budget() && forgotten <= MOST_FORGOTTEN
    }

    // Adds the campaign as it was.
    fn keep(&mut self, entry: SharedRecord, live: bool, gone: Gone)
        requires fits { IsTrue (can_keep self.old.state (record { live = live; facts = entry.facts; expr = entry.expr; gone = gone })) }
        requires room { 1 ≤ self.old.campaign_room }
        requires few { self.old.edits + edits_of_kept (record { live = live; facts = entry.facts; expr = entry.expr; gone = gone }) ≤ 2 ^ 63 }
        ensures state { self.new.state ≡ with_campaigns self.old.state (campaign_of (record { live = live; facts = entry.facts; expr = entry.expr; gone = gone }) ∷ []) }
        ensures rest { OnlyState (edits_of_kept (record { live = live; facts = entry.facts; expr = entry.expr; gone = gone })) 0 1 self.old self.new }
    {
        if live {
            let _number = self.keep_live(entry, gone);
        } else {
            self.keep_paused(entry, gone);
        }
    }

    // Adds it paused, which is another edit.
    fn keep_paused(&mut self, entry: SharedRecord, gone: Gone)
        requires fits { IsTrue (can_keep self.old.state (record { live = false; facts = entry.facts; expr = entry.expr; gone = gone })) }
        requires room { 1 ≤ self.old.campaign_room }
        requires few { self.old.edits + 2 ≤ 2 ^ 63 }
        ensures state { self.new.state ≡ with_campaigns self.old.state (campaign_of (record { live = false; facts = entry.facts; expr = entry.expr; gone = gone }) ∷ []) }
        ensures rest { OnlyState 2 0 1 self.old self.new }
    {
        let n = self.keep_live(entry, gone);
        self.pause(n);
    }

    // Adds it live. Its number.
    fn keep_live(&mut self, entry: SharedRecord, gone: Gone) -> u32
        requires fits { IsTrue (can_keep self.old.state (record { live = true; facts = entry.facts; expr = entry.expr; gone = gone })) }
        requires room { 1 ≤ self.old.campaign_room }
        requires few { self.old.edits < 2 ^ 63 }
        ensures number { result ≡ length self.old.state.campaigns + 1 }
        ensures state { self.new.state ≡ with_campaigns self.old.state (campaign_of (record { live = true; facts = entry.facts; expr = entry.expr; gone = gone }) ∷ []) }
        ensures rest { OnlyState 1 0 1 self.old self.new }
    {
        self.book.add_kept(entry.record().facts.budget(), gone);
        self.table.add(entry)
    }

    // A sale as it was, with its user's key.
    pub(crate) fn put_kept_sale(&mut self, sale: (SaleRow, Option<UserKey>), moment: u64)
        requires fits { IsTrue (is_some (if moment == 0 then with_kept_sale sale.0 self.old.state else None)) }
        requires user { sale.1 ≡ sale.0.user }
        requires room { 1 ≤ self.old.sale_room }
        ensures { Puts (if moment == 0 then with_kept_sale sale.0 self.old.state else None) 0 self.old self.new }
    {
        self.keep_sale(sale.0, sale.1);
    }

    // Whether the campaign of the sale can pay it, and one more sale can be kept.
    pub(crate) fn can_keep_sale(&self, row: &SaleRow) -> bool
        ensures { result ≡ can_keep_sale self.now.state row.now }
    {
        let covered = self.can_cover(row);
        covered && self.sales() < MOST_SALES
    }

    // Whether so much of its budget is free.
    fn can_cover(&self, row: &SaleRow) -> bool
        ensures { result ≡ option_map_or (λ c. nat_le (charge_of row.now) (free self.now.state row.now.campaign c)) (campaign_at self.now.state row.now.campaign) false }
    {
        match self.number(u64::from(row.campaign)) {
            None => false,
            Some(n) => self.can_cover_there(n, row),
        }
    }

    fn can_cover_there(&self, n: u32, row: &SaleRow) -> bool
        requires there { (1 ≤ n) × (n ≤ length self.now.state.campaigns) }
        ensures { (c : Campaign) → campaign_at self.now.state n ≡ Some c → result ≡ nat_le (charge_of row.now) (free self.now.state n c) }
    {
        charge_of(row) <= self.free_now(n)
    }

    // What is left of the budget of campaign `n`.
    fn free_now(&self, n: u32) -> Nanos
        requires there { (1 ≤ n) × (n ≤ length self.now.state.campaigns) }
        ensures { (c : Campaign) → campaign_at self.now.state n ≡ Some c → result ≡ free self.now.state n c }
    {
        self.book.free(n)
    }

    // Adds the sale as it was.
    fn keep_sale(&mut self, row: SaleRow, key: Option<UserKey>)
        requires fits { IsTrue (can_keep_sale self.old.state row) }
        requires user { key ≡ row.user }
        requires room { 1 ≤ self.old.sale_room }
        ensures state { self.new.state ≡ with_sales self.old.state (row ∷ []) }
        ensures rest { OnlyState 0 1 0 self.old self.new }
    {
        self.book.add_sale(row, key);
    }
}

// How many sales are gone, or 2^64 - 1 where that is less.
fn gone_count(gone: Gone) -> u64
    ensures { result ≡ min (gone_count gone) (2 ^ 64 - 1) }
{
    gone.billed
        .saturating_add(gone.lost)
        .saturating_add(gone.expired)
}

// What the sale takes of the budget.
fn charge_of(row: &SaleRow) -> Nanos
    ensures { result ≡ charge_of row.now }
{
    match row.state {
        SaleState::Held | SaleState::Billed => row.price,
        SaleState::Lost | SaleState::Expired => nanos(0),
    }
}
