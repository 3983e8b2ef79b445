//! Budgets and sales: the book, with the room that it keeps for what comes.
ghost use Rattle.std.specs.Prelude.{◌≡◌, Option, ℕ, ◌+◌, ◌-◌, ◌<◌, ◌≤◌, ◌^◌, [], length, map, take, drop, min, IsTrue, OnOk, option_map};
ghost use Rattle.std.specs.List.{enumerate_from};
ghost use Rattle.std.proofs.Common.{get_or};
ghost use Rattle.budget_book.specs.declared.sales.SaleRow.{SaleRow};
ghost use Rattle.budget_book.specs.Accounts.{IsAccount};
ghost use Rattle.budget_book.specs.Book.{Funds, BookState, IsBook, forgotten_in, forgotten_of, funds_of};
ghost use Rattle.budget_book.specs.Sales.{are_settled, committed_of, due_count, expired, forgettable, gone_with, sale_at};

use crate::account::Account;
use crate::appending::reserve_all;
use crate::dues::{Due, sweep_dues};
use crate::forgetting::{add_gone, drop_front, forgettable};
use crate::last_sales::LastSales;
use crate::sales::{MOST_SALES, SaleRow, row_at};
use std::alloc::{AllocError, Global};
use std::collections::{BinaryHeap, VecDeque};
use std::marker::Model;

/// Budgets and sales. Contracts see the campaigns' budgets with what is gone of each, the list of sales,
/// and for how many more of both there is room.
///
/// Campaigns and sales are numbered from 1 on, and keep their numbers. Moments are in milliseconds.
///
/// Nobody goes over all sales: an account for each campaign has what its sales add up to, the sales that
/// are to expire stand in a heap with the one that is due first on top, and the sales to users are chained, from the last
/// one back, by hashes of the campaign and the user.
#[derive(Drop)]
pub struct Book {
    pub(crate) forgotten: u64,
    pub(crate) accounts: Vec<Account>,
    // Sales come behind, and go in front. No other one moves.
    pub(crate) rows: VecDeque<SaleRow>,
    // For each sale to a user, how far before it the last one stands at its place of `lasts`.
    pub(crate) links: VecDeque<u32>,
    pub(crate) dues: BinaryHeap<Due>,
    pub(crate) lasts: LastSales,
}

impl Model for Book {
    ghost use Rattle.std.specs.Prelude.{◌-◌, min};
    ghost use Rattle.std.specs.BinaryHeap.{heap_capacity, heap_items, heap_len};
    ghost use Rattle.budget_book.specs.Book.{BookState, IsBook, funds_of_all, user_room};

    ghost Value = { BookState };

    ghost view = { λ b. record { campaigns = funds_of_all b.accounts.items; sales = b.rows.items; sale_room = min (b.rows.cap - b.rows.len) (min (b.links.cap - b.links.len) (min (heap_capacity b.dues - heap_len b.dues) (user_room b.lasts))); campaign_room = b.accounts.cap - b.accounts.len } };

    ghost invariant = { λ b. IsBook b.forgotten b.accounts.items b.rows.items b.links.items (heap_items b.dues) b.lasts };
}

impl Book {
    /// The book without campaigns. It takes no memory.
    pub fn new(alloc: Global) -> Book
        ensures { result ≡ record { campaigns = []; sales = []; sale_room = 0; campaign_room = 0 } }
    {
        Book {
            forgotten: 0,
            accounts: Vec::new(alloc),
            rows: VecDeque::new(alloc),
            links: VecDeque::new(alloc),
            dues: BinaryHeap::new(alloc),
            lasts: LastSales::new(alloc),
        }
    }

    /// Makes room for so many sales and campaigns more.
    pub fn reserve_room(&mut self, sales: u32, campaigns: u32) -> Result<(), AllocError>
        ensures sales { self.new.sales ≡ self.old.sales }
        ensures campaigns { self.new.campaigns ≡ self.old.campaigns }
        ensures sale_room { OnOk result (sales ≤ self.new.sale_room) }
        ensures campaign_room { OnOk result (campaigns ≤ self.new.campaign_room) }
        ensures sale_room_stays { self.old.sale_room ≤ self.new.sale_room }
        ensures campaign_room_stays { self.old.campaign_room ≤ self.new.campaign_room }
    {
        reserve_all(
            &mut self.accounts,
            &mut self.rows,
            &mut self.links,
            &mut self.dues,
            &mut self.lasts,
            sales,
            campaigns,
        )
    }

    /// How many sales are in the list.
    pub fn sales(&self) -> u64
        ensures value { result ≡ length self.now.sales }
        ensures few { result ≤ 67108864 }
    {
        let few = self.rows.len() <= MOST_SALES as usize;
        prove!(few);
        self.rows.len() as u64
    }

    /// How many sales are forgotten.
    pub fn forgotten(&self) -> u64
        ensures { result ≡ forgotten_of self.now.campaigns }
    {
        self.forgotten
    }

    /// Each held sale that is due by the moment expires. How many did.
    pub fn sweep(&mut self, moment: u64) -> u64
        ensures count { result ≡ due_count moment self.old.sales }
        ensures sales { self.new.sales ≡ expired moment self.old.sales }
        ensures campaigns { self.new.campaigns ≡ self.old.campaigns }
        ensures sale_room { self.old.sale_room ≤ self.new.sale_room }
        ensures campaign_room { self.old.campaign_room ≤ self.new.campaign_room }
    {
        sweep_dues(
            &mut self.dues,
            &mut self.rows,
            &mut self.accounts,
            self.forgotten,
            moment,
        )
    }

    /// The oldest sales are forgotten, up to the first that is held and so that at least `keep` are left.
    /// It takes no memory.
    pub fn forget(&mut self, keep: u64)
        ensures sales { self.new.sales ≡ drop (forgettable keep (forgotten_of self.old.campaigns) self.old.sales) self.old.sales }
        ensures campaigns { self.new.campaigns ≡ map (λ (p : ℕ × Funds). record p.1 { gone = gone_with p.0 p.1.gone (take (forgettable keep (forgotten_of self.old.campaigns) self.old.sales) self.old.sales) }) (enumerate_from 1 self.old.campaigns) }
        ensures sale_room { self.old.sale_room ≤ self.new.sale_room }
        ensures campaign_room { self.old.campaign_room ≤ self.new.campaign_room }
    {
        let count = forgettable(&self.rows, self.forgotten, keep);
        self.forget_first(count as u64);
    }

    /// So many of the oldest sales are forgotten, of which none is held. It takes no memory, and no other sale moves.
    pub fn forget_first(&mut self, count: u64)
        requires settled { IsTrue (are_settled count self.old.sales) }
        requires few { forgotten_of self.old.campaigns + count ≤ 2 ^ 62 }
        ensures sales { self.new.sales ≡ drop count self.old.sales }
        ensures campaigns { self.new.campaigns ≡ forgotten_in (take count self.old.sales) self.old.campaigns }
        ensures sale_room { self.old.sale_room ≤ self.new.sale_room }
        ensures campaign_room { self.old.campaign_room ≤ self.new.campaign_room }
    {
        let first = count as usize;
        add_gone(&mut self.accounts, &self.rows, first);
        drop_front(&mut self.rows, first);
        drop_front(&mut self.links, first);
        self.forgotten += count;
    }

    /// Each campaign has committed at most its budget.
    pub fn budgets_hold(&self)
        ensures { (k : ℕ) (d : Funds) → k < length self.now.campaigns → committed_of (k + 1) (get_or self.now.campaigns k d).gone self.now.sales ≤ (get_or self.now.campaigns k d).budget }
    {
        let few = self.rows.len() <= MOST_SALES as usize;
        prove!(few);
    }

    // The account of the campaign.
    pub(crate) fn account(&self, c: u32) -> &Account
        requires { (1 ≤ c) × (c ≤ length self.now.campaigns) }
        ensures account { IsAccount c self.now.sales result.now }
        ensures funds { (d : Funds) → get_or self.now.campaigns (c - 1) d ≡ funds_of result.now }
    {
        &self.accounts[c as usize - 1]
    }

    // The sale of that number, where it is in the list.
    pub(crate) fn find(&self, sale: u64) -> Option<&SaleRow>
        ensures { option_map (λ s. s.now) result ≡ sale_at (forgotten_of self.now.campaigns) self.now.sales sale }
    {
        row_at(&self.rows, self.forgotten, sale)
    }
}
