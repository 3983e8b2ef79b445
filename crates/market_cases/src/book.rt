//! Commands of a book. Amounts are nano-dollars, moments milliseconds.
//!
//! - `add BUDGET`: a campaign; says its number.
//! - `keep BUDGET SPENT BILLED LOST EXPIRED`: a campaign of whose sales that much is gone.
//! - `sell CAMPAIGN PRICE MOMENT DUE [USER]`: says the sale's number, or `no` where the campaign is not there or
//!   cannot pay.
//! - `had CAMPAIGN PRICE MOMENT DUE STATE [USER]`: a sale in that state; says the same.
//! - `bill SALE`, `lose SALE`: says `ok`, or why not.
//! - `sweep MOMENT`: says how many expired.
//! - `forget KEEP`: says how many are forgotten in all.
//! - `first COUNT MOMENT`: what is due expires, and so many of the oldest are forgotten; says the same, or `no` where one of
//!   them is held or not there.
//! - `set CAMPAIGN BUDGET`: says `ok`, or `below` and what is committed.
//!
//! `ask.rt` has the questions.
ghost use Rattle.std.specs.Prelude.{◌≡◌, ◌≤◌, ◌<◌, ◌+◌, ◌-◌, ◌^◌, IfOk, IfSome, IsTrue, get_or, length};
ghost use Rattle.budget_book.specs.Book.{Funds, forgotten_of};
ghost use Rattle.budget_book.specs.Sales.{are_settled, committed_of, expired, gone_count};

use crate::ask;
use crate::words::{campaign_at, number_at, put_mark, word_at};
use budget_book::{Book, Gone, MOST_FORGOTTEN, MOST_SALES, SaleFault, SaleRow, SaleState, UserKey};
use rtb_num::{Nanos, Txt, write_decimal};
use std::alloc::{AllocError, Global};
use std::marker::Model;

// The most that is forgotten of one campaign in each state, and of all where one more is added.
const MOST_GONE: u64 = 1 << 59;

const MOST_KEPT: u64 = 1 << 61;

// A book, and how many campaigns it has.
#[derive(Drop)]
pub struct Shop {
    pub book: Book,
    campaigns: u32,
}

impl Model for Shop {
    ghost use Rattle.budget_book.specs.Book.{BookState};
    ghost use Rattle.std.specs.Prelude.{◌≡◌, length};

    ghost Value = { BookState };

    ghost view = { λ s. s.book };

    ghost invariant = { λ s. s.campaigns ≡ length s.book.campaigns };
}

pub fn run(alloc: Global, commands: &[Txt], out: &mut Txt) -> Result<(), AllocError> {
    let mut shop = Shop {
        book: Book::new(alloc),
        campaigns: 0,
    };
    let ran = shop.run_all(alloc, commands, out);
    drop(shop);
    ran
}

impl Shop {
    fn run_all(
        &mut self,
        alloc: Global,
        commands: &[Txt],
        out: &mut Txt,
    ) -> Result<(), AllocError> {
        for (i, command) in commands.iter().enumerate() {
            put_mark(i, out)?;
            self.run_one(alloc, command.as_bytes(), out)?;
        }
        Ok(())
    }

    fn run_one(&mut self, alloc: Global, command: &[u8], out: &mut Txt) -> Result<(), AllocError> {
        if self.change_campaigns(command, out)? {
            return Ok(());
        }
        if self.change_sales(alloc, command, out)? {
            return Ok(());
        }
        ask::answer(self, command, out)
    }

    fn change_campaigns(&mut self, command: &[u8], out: &mut Txt) -> Result<bool, AllocError> {
        let name = word_at(command, 0);
        if name == b"add".as_slice() {
            return self.add(number_at(command, 1), out);
        }
        if name == b"keep".as_slice() {
            return self.keep(command, out);
        }
        if name == b"set".as_slice() {
            return self.set_budget(campaign_at(command, 1), number_at(command, 2), out);
        }
        Ok(false)
    }

    fn change_sales(
        &mut self,
        alloc: Global,
        command: &[u8],
        out: &mut Txt,
    ) -> Result<bool, AllocError> {
        let name = word_at(command, 0);
        if name == b"sell".as_slice() {
            return self.sell(alloc, command, out);
        }
        if name == b"had".as_slice() {
            return self.add_sale(alloc, command, out);
        }
        if name == b"bill".as_slice() {
            return put_settled(self.book.bill(number_at(command, 1)), out);
        }
        if name == b"lose".as_slice() {
            return put_settled(self.book.lose(number_at(command, 1)), out);
        }
        if name == b"sweep".as_slice() {
            return put_number(self.book.sweep(number_at(command, 1)), out);
        }
        if name == b"forget".as_slice() {
            return self.forget(number_at(command, 1), out);
        }
        if name == b"first".as_slice() {
            return self.forget_first(number_at(command, 1), number_at(command, 2), out);
        }
        Ok(false)
    }

    // Whether the campaign is there.
    pub fn has(&self, c: u32) -> bool
        ensures { IsTrue result → (1 ≤ c) × (c ≤ length self.now.campaigns) }
    {
        1 <= c && c <= self.campaigns
    }

    // ---- campaigns

    fn add(&mut self, budget: u64, out: &mut Txt) -> Result<bool, AllocError> {
        let Some(budget) = Nanos::new(budget) else {
            return put_no(out);
        };
        let Some(count) = self.campaigns.checked_add(1) else {
            return put_no(out);
        };
        self.book.reserve_room(0, 1)?;
        self.book.add_campaign(budget);
        self.campaigns = count;
        put_number(u64::from(count), out)
    }

    fn set_budget(&mut self, c: u32, budget: u64, out: &mut Txt) -> Result<bool, AllocError> {
        let Some(budget) = Nanos::new(budget) else {
            return put_no(out);
        };
        if !self.has(c) {
            return put_no(out);
        }
        match self.book.set_budget(c, budget) {
            Ok(()) => put_ok(out),
            Err(below) => {
                out.extend(b"below ")?;
                put_number(below.committed.get(), out)
            }
        }
    }

    // What is gone counts only before there is a sale.
    fn keep(&mut self, command: &[u8], out: &mut Txt) -> Result<bool, AllocError> {
        let Some(budget) = Nanos::new(number_at(command, 1)) else {
            return put_no(out);
        };
        let Some(gone) = gone_in(command) else {
            return put_no(out);
        };
        self.add_kept(budget, gone, out)
    }

    fn add_kept(&mut self, budget: Nanos, gone: Gone, out: &mut Txt) -> Result<bool, AllocError>
        requires { gone_count gone ≤ 2 ^ 61 }
    {
        let Some(count) = self.campaigns.checked_add(1) else {
            return put_no(out);
        };
        if self.book.sales() > 0
            || self.book.forgotten() > MOST_KEPT
            || gone.spent.get() > budget.get()
        {
            return put_no(out);
        }
        self.book.reserve_room(0, 1)?;
        self.book.add_kept(budget, gone);
        self.campaigns = count;
        put_number(u64::from(count), out)
    }

    // ---- sales

    fn sell(&mut self, alloc: Global, command: &[u8], out: &mut Txt) -> Result<bool, AllocError> {
        let c = campaign_at(command, 1);
        let Some(price) = Nanos::new(number_at(command, 2)) else {
            return put_no(out);
        };
        if !self.can_pay(c, price) {
            return put_no(out);
        }
        self.book.reserve_room(1, 0)?;
        let user = key_at(alloc, command, 5)?;
        let number = self.book.sell(c, price, number_at(command, 3), number_at(command, 4), user);
        put_number(number, out)
    }

    // A sale that is neither held nor billed costs nothing; here it is asked for its price all the same.
    fn add_sale(
        &mut self,
        alloc: Global,
        command: &[u8],
        out: &mut Txt,
    ) -> Result<bool, AllocError> {
        match row_in(alloc, command)? {
            Some(row) => self.add_row(alloc, row, out),
            None => put_no(out),
        }
    }

    fn add_row(&mut self, alloc: Global, row: SaleRow, out: &mut Txt) -> Result<bool, AllocError> {
        if !self.can_pay(row.campaign, row.price) {
            drop(row);
            return put_no(out);
        }
        if self.book.reserve_room(1, 0).is_err() {
            drop(row);
            return Err(AllocError);
        }
        match key_of(alloc, &row.user) {
            Ok(key) => put_number(self.book.add_sale(row, key), out),
            Err(refused) => {
                drop(row);
                Err(refused)
            }
        }
    }

    // Whether the campaign is there, has that much left, and there is room in the list. The price is not 0.
    fn can_pay(&self, c: u32, price: Nanos) -> bool
        ensures there { IsTrue result → (1 ≤ c) × (c ≤ length self.now.campaigns) }
        ensures few { IsTrue result → length self.now.sales < 67108864 }
        ensures free { IsTrue result → (d : Funds) → committed_of c (get_or self.now.campaigns (c - 1) d).gone self.now.sales + price ≤ (get_or self.now.campaigns (c - 1) d).budget }
    {
        if !self.has(c) || self.book.sales() >= MOST_SALES {
            return false;
        }
        let left = self.book.free(c);
        0 < price.get() && price.get() <= left.get()
    }

    fn forget(&mut self, keep: u64, out: &mut Txt) -> Result<bool, AllocError> {
        self.book.forget(keep);
        put_number(self.book.forgotten(), out)
    }

    fn forget_first(&mut self, count: u64, moment: u64, out: &mut Txt) -> Result<bool, AllocError> {
        if !self.may_forget(count, moment) {
            return put_no(out);
        }
        self.book.sweep(moment);
        self.book.forget_first(count);
        put_number(self.book.forgotten(), out)
    }

    // Whether so many of the oldest are there, and none of them is held by the moment.
    fn may_forget(&self, count: u64, moment: u64) -> bool
        ensures settled { IsTrue result → IsTrue (are_settled count (expired moment self.now.sales)) }
        ensures few { IsTrue result → forgotten_of self.now.campaigns + count ≤ 2 ^ 62 }
    {
        if count > MOST_FORGOTTEN || self.book.forgotten() > MOST_FORGOTTEN - count {
            return false;
        }
        self.book.are_settled_at(count, moment)
    }
}

fn gone_in(command: &[u8]) -> Option<Gone>
    ensures { IfSome result (λ g. gone_count g ≤ 2 ^ 61) }
{
    let spent = Nanos::new(number_at(command, 2))?;
    let billed = number_at(command, 3);
    let lost = number_at(command, 4);
    let expired = number_at(command, 5);
    if billed > MOST_GONE || lost > MOST_GONE || expired > MOST_GONE {
        return None;
    }
    Some(Gone {
        spent,
        billed,
        lost,
        expired,
    })
}

fn row_in(alloc: Global, command: &[u8]) -> Result<Option<SaleRow>, AllocError> {
    let Some(price) = Nanos::new(number_at(command, 2)) else {
        return Ok(None);
    };
    let Some(state) = state_in(word_at(command, 5)) else {
        return Ok(None);
    };
    let user = user_at(alloc, command, 6)?;
    Ok(Some(SaleRow {
        campaign: campaign_at(command, 1),
        price,
        moment: number_at(command, 3),
        due: number_at(command, 4),
        state,
        user,
    }))
}

fn state_in(word: &[u8]) -> Option<SaleState> {
    if word == b"held".as_slice() {
        return Some(SaleState::Held);
    }
    if word == b"billed".as_slice() {
        return Some(SaleState::Billed);
    }
    if word == b"lost".as_slice() {
        return Some(SaleState::Lost);
    }
    if word == b"expired".as_slice() {
        return Some(SaleState::Expired);
    }
    None
}

fn user_at(alloc: Global, command: &[u8], place: usize) -> Result<Option<Txt>, AllocError> {
    let user = word_at(command, place);
    if user.is_empty() {
        return Ok(None);
    }
    Ok(Some(Txt::from_slice(alloc, user)?))
}

fn key_at(alloc: Global, command: &[u8], place: usize) -> Result<Option<UserKey>, AllocError> {
    let user = user_at(alloc, command, place)?;
    let key = key_of(alloc, &user);
    drop(user);
    key
}

fn key_of(alloc: Global, user: &Option<Txt>) -> Result<Option<UserKey>, AllocError>
    ensures { IfOk result (λ k. k ≡ user.now) }
{
    match user {
        None => Ok(None),
        Some(user) => Ok(Some(UserKey::make(alloc, user.as_bytes())?)),
    }
}

fn put_ok(out: &mut Txt) -> Result<bool, AllocError> {
    out.extend(b"ok")?;
    Ok(true)
}

fn put_no(out: &mut Txt) -> Result<bool, AllocError> {
    out.extend(b"no")?;
    Ok(true)
}

fn put_number(n: u64, out: &mut Txt) -> Result<bool, AllocError> {
    write_decimal(n, out)?;
    Ok(true)
}

fn put_settled(settled: Result<(), SaleFault>, out: &mut Txt) -> Result<bool, AllocError> {
    let word: &[u8] = match settled {
        Ok(()) => b"ok",
        Err(SaleFault::NoSuchSale) => b"no-such-sale",
        Err(SaleFault::WasLost) => b"was-lost",
        Err(SaleFault::WasExpired) => b"was-expired",
        Err(SaleFault::WasBilled) => b"was-billed",
        Err(SaleFault::Forgotten) => b"forgotten",
    };
    out.extend(word)?;
    Ok(true)
}
