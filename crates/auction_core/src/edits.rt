//! Single changes of the state. None takes memory.
ghost use Rattle.std.proofs.Common.{get_or, set};
ghost use Rattle.std.specs.Prelude.{◌≡◌, ◌-◌, length, ◌+◌, ◌<◌, ◌≤◌, ◌^◌, [], ◌∷◌, false, true, IsTrue, not, Some, is_some};
ghost use Rattle.auction_core.specs.Putting.{IsAt, can_change, changed_at, settled};
ghost use Rattle.auction_core.specs.Frames.{OnlyState};
ghost use Rattle.budget_book.specs.Book.{Funds};
ghost use Rattle.budget_book.specs.declared.sales.SaleState.{SaleState};
ghost use Rattle.budget_book.specs.Sales.{committed_of};
ghost use Rattle.plain_exchange.specs.Effects.{can_pay, has_room, is_within_limits, sale_by, with_forgotten};
ghost use Rattle.plain_exchange.specs.State.{forget, swept, with_campaigns, with_sales};
ghost use Rattle.plain_exchange.specs.Step.{new_campaign, with_live, with_record};

use crate::exchange::Core;
use budget_book::{Book, UserKey};
use plain_exchange::{SharedRecord, SoldItem};
use rtb_num::Nanos;

impl Core {
    // Held sales that are due by the moment expire.
    pub(crate) fn sweep(&mut self, moment: u64)
        ensures state { self.new.state ≡ swept moment self.old.state }
        ensures rest { OnlyState 0 0 0 self.old self.new }
    {
        self.book.sweep(moment);
    }

    // Makes one sale, to the user of the key, where there is one.
    pub(crate) fn hold(&mut self, item: &SoldItem, moment: u64, key: Option<UserKey>)
        requires pays { IsTrue (can_pay self.old.state item.now.campaign item.now.price) }
        requires few { IsTrue (has_room self.old.state) }
        requires room { 1 ≤ self.old.sale_room }
        ensures state { self.new.state ≡ with_sales self.old.state (sale_by moment key item.now ∷ []) }
        ensures rest { OnlyState 0 1 0 self.old self.new }
    {
        self.book
            .sell(item.campaign, item.price, moment, item.due, key);
    }

    // Adds a live campaign.
    pub(crate) fn add(&mut self, entry: SharedRecord)
        requires limits { IsTrue (is_within_limits (with_campaigns self.old.state (new_campaign entry.facts entry.expr ∷ []))) }
        requires room { 1 ≤ self.old.campaign_room }
        requires few { self.old.edits < 2 ^ 63 }
        ensures state { self.new.state ≡ with_campaigns self.old.state (new_campaign entry.facts entry.expr ∷ []) }
        ensures rest { OnlyState 1 0 1 self.old self.new }
    {
        self.book.add_campaign(entry.record().facts.budget());
        self.table.add(entry);
    }

    // Campaign `n` has another record.
    pub(crate) fn change(&mut self, n: u32, entry: SharedRecord)
        requires fits { IsAt self.old.state n (can_change self.old.state n entry) }
        requires few { self.old.edits < 2 ^ 63 }
        ensures state { self.new.state ≡ changed_at n (with_record entry.facts entry.expr) self.old.state }
        ensures rest { OnlyState 1 0 0 self.old self.new }
    {
        set_budget(&mut self.book, n, entry.record().facts.budget());
        self.table.change(n, entry);
    }

    // Takes live campaign `n` out of auctions.
    pub(crate) fn pause(&mut self, n: u32)
        requires live { IsAt self.old.state n (λ c. c.live) }
        requires few { self.old.edits < 2 ^ 63 }
        ensures state { self.new.state ≡ changed_at n (with_live false) self.old.state }
        ensures rest { OnlyState 1 0 0 self.old self.new }
    {
        self.table.pause(n);
    }

    // Lets paused campaign `n` take part in auctions again.
    pub(crate) fn resume(&mut self, n: u32)
        requires paused { IsAt self.old.state n (λ c. not c.live) }
        requires few { self.old.edits < 2 ^ 63 }
        ensures state { self.new.state ≡ changed_at n (with_live true) self.old.state }
        ensures rest { OnlyState 1 0 0 self.old self.new }
    {
        self.table.resume(n);
    }

    // The sale is billed, where it is held.
    pub(crate) fn bill(&mut self, sale: u64)
        ensures state { self.new.state ≡ settled SaleState.Billed sale self.old.state }
        ensures rest { OnlyState 0 0 0 self.old self.new }
    {
        let _answer = self.book.bill(sale);
    }

    // The sale is lost, where it is held.
    pub(crate) fn lose(&mut self, sale: u64)
        ensures state { self.new.state ≡ settled SaleState.Lost sale self.old.state }
        ensures rest { OnlyState 0 0 0 self.old self.new }
    {
        let _answer = self.book.lose(sale);
    }

    // The oldest sales are forgotten, until so many are. None of them is held.
    pub(crate) fn forget_to(&mut self, forgotten: u64)
        requires { IsTrue (is_some (with_forgotten forgotten self.old.state)) }
        ensures state { with_forgotten forgotten self.old.state ≡ Some self.new.state }
        ensures rest { OnlyState 0 0 0 self.old self.new }
    {
        let more = forgotten.saturating_sub(self.forgotten());
        self.book.forget_first(more);
    }

    /// The oldest sales are forgotten, up to the first that is held, and so that at least `keep` are left.
    /// It takes no memory.
    pub fn forget(&mut self, keep: u64)
        ensures state { self.new.state ≡ forget keep self.old.state }
        ensures settings { self.new.settings ≡ self.old.settings }
        ensures edits { self.new.edits ≡ self.old.edits }
        ensures sale_room { self.old.sale_room ≤ self.new.sale_room }
        ensures campaign_room { self.old.campaign_room ≤ self.new.campaign_room }
    {
        self.book.forget(keep);
    }
}

// The campaign has another budget, which covers what is committed.
fn set_budget(book: &mut Book, c: u32, budget: Nanos)
    requires there { (1 ≤ c) × (c ≤ length book.old.campaigns) }
    requires covers { (d : Funds) → committed_of c (get_or book.old.campaigns (c - 1) d).gone book.old.sales ≤ budget }
    ensures campaigns { (d : Funds) → book.new.campaigns ≡ set book.old.campaigns (c - 1) (record (get_or book.old.campaigns (c - 1) d) { budget = budget }) }
    ensures sales { book.new.sales ≡ book.old.sales }
    ensures sale_room { book.old.sale_room ≤ book.new.sale_room }
    ensures campaign_room { book.old.campaign_room ≤ book.new.campaign_room }
{
    if book.set_budget(c, budget).is_err() {
        unreachable!()
    }
}
