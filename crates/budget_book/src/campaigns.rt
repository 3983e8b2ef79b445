//! Campaigns and their budgets.
ghost use Rattle.std.specs.Prelude.{◌≡◌, ◌+◌, ◌-◌, ◌<◌, ◌≤◌, ◌^◌, [], ◌∷◌, ◌++◌, length, OnOk, OnErr, IfErr};
ghost use Rattle.std.proofs.Common.{get_or, set};
ghost use Rattle.budget_book.specs.declared.sales.Gone.{Gone};
ghost use Rattle.budget_book.specs.Book.{Funds, forgotten_of};
ghost use Rattle.budget_book.specs.Sales.{committed_of, gone_count, none_gone};

use crate::account::Account;
use crate::book::Book;
use crate::sales::{BelowCommitted, Gone, nanos};
use rtb_num::Nanos;

impl Book {
    /// A new campaign with that budget. It takes no memory.
    pub fn add_campaign(&mut self, budget: Nanos)
        requires room { 0 < self.old.campaign_room }
        ensures campaigns { self.new.campaigns ≡ self.old.campaigns ++ (record { budget = budget; gone = none_gone }) ∷ [] }
        ensures sales { self.new.sales ≡ self.old.sales }
        ensures campaign_room { self.old.campaign_room ≤ self.new.campaign_room + 1 }
        ensures sale_room { self.old.sale_room ≤ self.new.sale_room }
    {
        self.accounts
            .push_reserved(Account::new(budget, Gone::none()));
    }

    /// The campaign has another budget. Refused where that is below what is committed.
    pub fn set_budget(&mut self, c: u32, budget: Nanos) -> Result<(), BelowCommitted>
        requires { (1 ≤ c) × (c ≤ length self.old.campaigns) }
        ensures ok { OnOk result ((d : Funds) → committed_of c (get_or self.old.campaigns (c - 1) d).gone self.old.sales ≤ budget) }
        ensures err { IfErr result (λ e. (d : Funds) → (e.committed ≡ committed_of c (get_or self.old.campaigns (c - 1) d).gone self.old.sales) × (budget < e.committed)) }
        ensures campaigns { OnOk result ((d : Funds) → self.new.campaigns ≡ set self.old.campaigns (c - 1) (record (get_or self.old.campaigns (c - 1) d) { budget = budget })) }
        ensures unchanged { OnErr result (self.new.campaigns ≡ self.old.campaigns) }
        ensures sales { self.new.sales ≡ self.old.sales }
        ensures sale_room { self.old.sale_room ≤ self.new.sale_room }
        ensures campaign_room { self.old.campaign_room ≤ self.new.campaign_room }
    {
        let account = &self.accounts[c as usize - 1];
        let committed = account.reserved + account.spent;
        if budget.get() < committed {
            return Err(BelowCommitted {
                committed: nanos(committed),
            });
        }
        self.accounts[c as usize - 1].budget = budget.get();
        Ok(())
    }

    /// A campaign of whose sales so much is gone, before there is any sale. It takes no memory.
    pub fn add_kept(&mut self, budget: Nanos, gone: Gone)
        requires no_sales { self.old.sales ≡ [] }
        requires spent { gone.spent ≤ budget }
        requires fits { forgotten_of self.old.campaigns + gone_count gone ≤ 2 ^ 62 }
        requires room { 0 < self.old.campaign_room }
        ensures campaigns { self.new.campaigns ≡ self.old.campaigns ++ (record { budget = budget; gone = gone }) ∷ [] }
        ensures sales { self.new.sales ≡ [] }
        ensures campaign_room { self.old.campaign_room ≤ self.new.campaign_room + 1 }
        ensures sale_room { self.old.sale_room ≤ self.new.sale_room }
    {
        self.forgotten += gone.billed + gone.lost + gone.expired;
        self.accounts.push_reserved(Account::new(budget, gone));
    }
}
