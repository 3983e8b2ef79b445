//! What a book tells of its campaigns and sales.
ghost use Rattle.std.specs.Prelude.{◌≡◌, None, Option, ◌+◌, ◌-◌, ◌<◌, ◌≤◌, length, IfOk, Some, option_map};
ghost use Rattle.std.proofs.Common.{get_or};
ghost use Rattle.budget_book.specs.declared.sales.SaleRow.{SaleRow};
ghost use Rattle.budget_book.specs.declared.sales.Gone.{Gone};
ghost use Rattle.budget_book.specs.declared.sales.SaleState.{SaleState};
ghost use Rattle.budget_book.specs.Book.{Funds, forgotten_of};
ghost use Rattle.budget_book.specs.Sales.{are_settled, committed_of, due_count, expired, forgettable_at_once, sale_at, shown_of, state_at, totals_of};

use crate::ahead::{count_due, release};
use crate::book::Book;
use crate::forgetting::{are_settled_at, forgettable_at};
use crate::sales::{Gone, SaleRow, SaleState, Totals, nanos};
use crate::users::{Ask, count_shown};
use rtb_num::Nanos;
use std::alloc::AllocError;

impl Book {
    /// What is left of the campaign's budget.
    pub fn free(&self, c: u32) -> Nanos
        requires { (1 ≤ c) × (c ≤ length self.now.campaigns) }
        ensures value { (d : Funds) → result ≡ (get_or self.now.campaigns (c - 1) d).budget - committed_of c (get_or self.now.campaigns (c - 1) d).gone self.now.sales }
    {
        let account = &self.accounts[c as usize - 1];
        nanos(account.budget - account.reserved - account.spent)
    }

    /// What the campaign's sales add up to.
    pub fn report(&self, c: u32) -> Totals
        requires { (1 ≤ c) × (c ≤ length self.now.campaigns) }
        ensures value { (d : Funds) → result ≡ totals_of c (get_or self.now.campaigns (c - 1) d).gone self.now.sales }
    {
        let account = &self.accounts[c as usize - 1];
        Totals {
            reserved: nanos(account.reserved),
            spent: nanos(account.spent),
            held: account.held,
            billed: account.billed,
            lost: account.lost,
            expired: account.expired,
        }
    }

    /// What is gone of the campaign's sales that were forgotten.
    pub fn gone(&self, c: u32) -> Gone
        requires { (1 ≤ c) × (c ≤ length self.now.campaigns) }
        ensures { (d : Funds) → result ≡ (get_or self.now.campaigns (c - 1) d).gone }
    {
        self.account(c).gone
    }

    /// What would be left of the campaign's budget after `sweep(moment)`.
    pub fn free_at(&self, c: u32, moment: u64) -> Nanos
        requires { (1 ≤ c) × (c ≤ length self.now.campaigns) }
        ensures { (d : Funds) → result ≡ (get_or self.now.campaigns (c - 1) d).budget - committed_of c (get_or self.now.campaigns (c - 1) d).gone (expired moment self.now.sales) }
    {
        let account = self.account(c);
        let released = release(&self.dues, &self.rows, self.forgotten, c, moment);
        nanos(account.budget - (account.reserved + account.spent - released))
    }

    /// How many sales `sweep(moment)` would answer.
    pub fn due_count(&self, moment: u64) -> u64
        ensures { result ≡ due_count moment self.now.sales }
    {
        count_due(&self.dues, &self.rows, self.forgotten, moment)
    }

    /// How many sales `forget_first` may take at once after `sweep(moment)`, so that at least `keep` are left.
    pub fn forgettable_at(&self, keep: u64, moment: u64) -> u64
        ensures { result ≡ forgettable_at_once keep (forgotten_of self.now.campaigns) (expired moment self.now.sales) }
    {
        forgettable_at(&self.rows, self.forgotten, keep, moment)
    }

    /// Whether so many of the oldest sales are there and none of them would be held after `sweep(moment)`.
    pub fn are_settled_at(&self, count: u64, moment: u64) -> bool
        ensures { result ≡ are_settled count (expired moment self.now.sales) }
    {
        are_settled_at(&self.rows, count, moment)
    }

    /// The state that the sale would have after `sweep(moment)`, or none where the number is not in the
    /// list.
    pub fn state_at(&self, sale: u64, moment: u64) -> Option<SaleState>
        ensures { result ≡ option_map (λ s. state_at moment s) (sale_at (forgotten_of self.now.campaigns) self.now.sales sale) }
    {
        match self.find(sale) {
            None => None,
            Some(row) => Some(row.state_at(moment)),
        }
    }

    /// How many sales of the campaign to the user count for so many seconds, as it would be after
    /// `sweep(moment)`.
    pub fn shown(&self, c: u32, user: &[u8], seconds: u32, moment: u64) -> u64
        ensures { result ≡ shown_of c user.now seconds moment (expired moment self.now.sales) }
    {
        let ask = Ask {
            campaign: c,
            user,
            seconds,
            moment,
        };
        count_shown(&self.rows, &self.links, &self.lasts, self.forgotten, &ask)
    }

    /// The sale, or none where the number is not in the list.
    pub fn row(&self, sale: u64) -> Result<Option<SaleRow>, AllocError>
        ensures { IfOk result (λ row. row ≡ sale_at (forgotten_of self.now.campaigns) self.now.sales sale) }
    {
        match self.find(sale) {
            None => Ok(None),
            Some(row) => Ok(Some(row.copy()?)),
        }
    }
}
