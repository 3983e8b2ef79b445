//! A campaign's account: its budget, what is spent, what is reserved, and the trees of its sales.
ghost use Rattle.std.specs.Prelude.{◌≡◌, ◌+◌, ◌<◌, ◌≤◌, ◌^◌};
ghost use Rattle.std.specs.Prelude.{if◌then◌else◌};
ghost use Rattle.budget_book.specs.Accounts.{fresh, gone_more, settled, with_gone, with_sale};
ghost use Rattle.budget_book.specs.Sales.{is_billed};

use crate::sales::{Gone, SaleState, nanos};
use rtb_num::Nanos;

// What a campaign may spend, and what its sales add up to. All amounts are nano-dollars.
#[derive(Drop)]
pub(crate) struct Account {
    pub budget: u64,
    // What is gone of it. The sums below have it in them.
    pub gone: Gone,
    pub reserved: u64,
    pub spent: u64,
    pub held: u64,
    pub billed: u64,
    pub lost: u64,
    pub expired: u64,
}

impl Account {
    pub fn new(budget: Nanos, gone: Gone) -> Account
        ensures value { result ≡ fresh budget gone }
        ensures range { budget ≤ 10 ^ 15 }
    {
        let (spent, billed, lost, expired) = (
            gone.spent.get(),
            gone.billed,
            gone.lost,
            gone.expired,
        );
        Account {
            budget: budget.get(),
            gone,
            reserved: 0,
            spent,
            held: 0,
            billed,
            lost,
            expired,
        }
    }

    // One more sale of that price, in that state.
    pub fn add(&mut self, state: SaleState, price: u64)
        requires reserved { self.old.reserved + price < 2 ^ 64 }
        requires held { self.old.held + 1 < 2 ^ 64 }
        requires spent { self.old.spent + price < 2 ^ 64 }
        requires billed { self.old.billed + 1 < 2 ^ 64 }
        requires lost { self.old.lost + 1 < 2 ^ 64 }
        requires expired { self.old.expired + 1 < 2 ^ 64 }
        ensures { self.new ≡ with_sale state price self.old }
    {
        match state {
            SaleState::Held => {
                self.reserved += price;
                self.held += 1;
            }
            SaleState::Billed => {
                self.spent += price;
                self.billed += 1;
            }
            SaleState::Lost => self.lost += 1,
            SaleState::Expired => self.expired += 1,
        }
    }

    // A held sale of that price changes to that state.
    pub fn settle(&mut self, state: SaleState, price: u64)
        requires reserved { price ≤ self.old.reserved }
        requires held { 1 ≤ self.old.held }
        requires spent { self.old.spent + price < 2 ^ 64 }
        requires billed { self.old.billed + 1 < 2 ^ 64 }
        requires lost { self.old.lost + 1 < 2 ^ 64 }
        requires expired { self.old.expired + 1 < 2 ^ 64 }
        ensures { self.new ≡ settled state price self.old }
    {
        match state {
            SaleState::Held => return,
            SaleState::Billed => {
                self.spent += price;
                self.billed += 1;
            }
            SaleState::Lost => self.lost += 1,
            SaleState::Expired => self.expired += 1,
        }
        self.reserved -= price;
        self.held -= 1;
    }

    // One more sale of that price, in that state, is forgotten.
    pub fn forget(&mut self, state: SaleState, price: u64)
        requires spent { self.old.gone.spent + (if is_billed state then price else 0) ≤ 10 ^ 15 }
        requires billed { self.old.gone.billed + 1 < 2 ^ 64 }
        requires lost { self.old.gone.lost + 1 < 2 ^ 64 }
        requires expired { self.old.gone.expired + 1 < 2 ^ 64 }
        ensures { self.new ≡ with_gone (gone_more state price self.old.gone) self.old }
    {
        match state {
            SaleState::Held => {}
            SaleState::Billed => {
                self.gone.spent = nanos(self.gone.spent.get() + price);
                self.gone.billed += 1;
            }
            SaleState::Lost => self.gone.lost += 1,
            SaleState::Expired => self.gone.expired += 1,
        }
    }
}
