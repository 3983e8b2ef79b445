//! What the exchange tells of its state, as it is or as it would be once held sales that are due have expired.
ghost use Rattle.std.specs.Prelude.{◌≡◌, ◌-◌, ◌≤◌, Some, length, option_map};
ghost use Rattle.budget_book.specs.declared.sales.SaleRow.{SaleRow};
ghost use Rattle.budget_book.specs.Sales.{forgettable_at_once, state_at};
ghost use Rattle.plain_exchange.specs.State.{Campaign, campaign_at, committed, forgotten, free, is_any_due, record_of, sale_numbered, swept, totals};

use crate::exchange::Core;
use crate::prepare_records::nanos;
use budget_book::{SaleState, Totals};
use plain_exchange::SharedRecord;
use rtb_num::Nanos;

impl Core {
    // The number of the campaign, where it is there.
    pub(crate) fn number(&self, n: u64) -> Option<u32>
        ensures { result ≡ option_map (λ (c : Campaign). n) (campaign_at self.now.state n) }
    {
        if 1 <= n && n <= u64::from(self.table.count()) {
            Some(n as u32)
        } else {
            None
        }
    }

    // How many campaigns there are.
    pub(crate) fn campaigns(&self) -> u64
        ensures value { result ≡ length self.now.state.campaigns }
        ensures few { result ≤ 65536 }
    {
        u64::from(self.table.count())
    }

    // Whether campaign `n` is live.
    pub(crate) fn is_live(&self, n: u32) -> bool
        ensures { (c : Campaign) → campaign_at self.now.state n ≡ Some c → result ≡ c.live }
    {
        match self.table.live(n) {
            Some(live) => live,
            None => false,
        }
    }

    // What campaign `n` states.
    pub(crate) fn entry(&self, n: u32) -> &SharedRecord
        requires there { (1 ≤ n) × (n ≤ length self.now.state.campaigns) }
        ensures { (c : Campaign) → campaign_at self.now.state n ≡ Some c → result.now ≡ record_of c }
    {
        match self.table.get(n) {
            Some(entry) => entry,
            None => unreachable!(),
        }
    }

    // What is left of the budget of campaign `n` at the moment.
    pub(crate) fn free_at(&self, n: u32, moment: u64) -> Nanos
        requires there { (1 ≤ n) × (n ≤ length self.now.state.campaigns) }
        ensures { (c : Campaign) → campaign_at self.now.state n ≡ Some c → result ≡ free (swept moment self.now.state) n c }
    {
        self.book.free_at(n, moment)
    }

    // What campaign `n` has spent and reserved at the moment.
    pub(crate) fn commitments_at(&self, n: u32, moment: u64) -> Nanos
        requires there { (1 ≤ n) × (n ≤ length self.now.state.campaigns) }
        ensures { (c : Campaign) → campaign_at self.now.state n ≡ Some c → result ≡ committed (swept moment self.now.state) n c }
    {
        let budget = self.entry(n).record().facts.budget();
        less(budget, self.book.free_at(n, moment))
    }

    // What the sales of campaign `n` add up to.
    pub(crate) fn totals(&self, n: u32) -> Totals
        requires there { (1 ≤ n) × (n ≤ length self.now.state.campaigns) }
        ensures { (c : Campaign) → campaign_at self.now.state n ≡ Some c → result ≡ totals self.now.state n c }
    {
        self.book.report(n)
    }

    // How many sales are in the list.
    pub(crate) fn sales(&self) -> u64
        ensures value { result ≡ length self.now.state.sales }
        ensures few { result ≤ 67108864 }
    {
        self.book.sales()
    }

    // How many sales are forgotten.
    pub(crate) fn forgotten(&self) -> u64
        ensures { result ≡ forgotten self.now.state }
    {
        self.book.forgotten()
    }

    // How many sales are forgotten at once at the moment, so that so many are left.
    pub(crate) fn forgettable_at(&self, keep: u64, moment: u64) -> u64
        ensures value { result ≡ forgettable_at_once keep (forgotten self.now.state) (swept moment self.now.state).sales }
        ensures there { result ≤ length self.now.state.sales }
    {
        self.book.forgettable_at(keep, moment)
    }

    // Whether a held sale is due by the moment.
    pub(crate) fn is_any_due(&self, moment: u64) -> bool
        ensures { result ≡ is_any_due moment self.now.state }
    {
        self.book.due_count(moment) > 0
    }

    // The state of the sale of that number at the moment, where it is in the list.
    pub(crate) fn state_at(&self, sale: u64, moment: u64) -> Option<SaleState>
        ensures { result ≡ option_map (λ (s : SaleRow). state_at moment s) (sale_numbered self.now.state sale) }
    {
        self.book.state_at(sale, moment)
    }
}

// What is left of an amount, 0 where it is less.
fn less(amount: Nanos, taken: Nanos) -> Nanos
    ensures { result ≡ amount - taken }
{
    nanos(amount.get().saturating_sub(taken.get()))
}
