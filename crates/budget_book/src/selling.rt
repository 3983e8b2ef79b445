//! New sales.
ghost use Rattle.std.specs.Prelude.{◌≡◌, ◌||◌, if◌then◌else◌, Option, ◌+◌, ◌-◌, ◌<◌, ◌≤◌, [], ◌∷◌, ◌++◌, length, option_map};
ghost use Rattle.std.proofs.Common.{get_or};
ghost use Rattle.budget_book.specs.declared.sales.SaleRow.{SaleRow};
ghost use Rattle.budget_book.specs.declared.sales.SaleState.{SaleState};
ghost use Rattle.budget_book.specs.Accounts.{charge};
ghost use Rattle.budget_book.specs.Book.{Funds, forgotten_of};
ghost use Rattle.budget_book.specs.LastSales.{user_hash as hash_of};
ghost use Rattle.budget_book.specs.Sales.{committed_of, is_billed, is_held};

use crate::appending::append;
use crate::book::Book;
use crate::sales::{SaleRow, SaleState};
use crate::user_key::{UserKey, split_key};
use rtb_num::Nanos;

impl Book {
    /// A new sale, which is held. It takes no memory. Its number.
    pub fn sell(
        &mut self,
        c: u32,
        price: Nanos,
        moment: u64,
        due: u64,
        user: Option<UserKey>,
    ) -> u64
        requires there { (1 ≤ c) × (c ≤ length self.old.campaigns) }
        requires free { (d : Funds) → committed_of c (get_or self.old.campaigns (c - 1) d).gone self.old.sales + price ≤ (get_or self.old.campaigns (c - 1) d).budget }
        requires room { 0 < self.old.sale_room }
        requires few { length self.old.sales < 67108864 }
        ensures number { result ≡ forgotten_of self.old.campaigns + length self.old.sales + 1 }
        ensures sales { self.new.sales ≡ self.old.sales ++ (record { campaign = c; price = price; moment = moment; due = due; state = SaleState.Held; user = user }) ∷ [] }
        ensures campaigns { self.new.campaigns ≡ self.old.campaigns }
        ensures sale_room { self.old.sale_room ≤ self.new.sale_room + 1 }
        ensures campaign_room { self.old.campaign_room ≤ self.new.campaign_room }
    {
        let (user, user_hash) = split_key(user);
        let row = SaleRow {
            campaign: c,
            price,
            moment,
            due,
            state: SaleState::Held,
            user,
        };
        self.append_row(row, user_hash)
    }

    /// A sale in any state, as it was. It takes no memory. Its number.
    pub fn add_sale(&mut self, row: SaleRow, key: Option<UserKey>) -> u64
        requires there { (1 ≤ row.campaign) × (row.campaign ≤ length self.old.campaigns) }
        requires user { key ≡ row.user }
        requires free { (d : Funds) → committed_of row.campaign (get_or self.old.campaigns (row.campaign - 1) d).gone self.old.sales + (if is_held row.state || is_billed row.state then row.price else 0) ≤ (get_or self.old.campaigns (row.campaign - 1) d).budget }
        requires room { 0 < self.old.sale_room }
        requires few { length self.old.sales < 67108864 }
        ensures number { result ≡ forgotten_of self.old.campaigns + length self.old.sales + 1 }
        ensures sales { self.new.sales ≡ self.old.sales ++ row ∷ [] }
        ensures campaigns { self.new.campaigns ≡ self.old.campaigns }
        ensures sale_room { self.old.sale_room ≤ self.new.sale_room + 1 }
        ensures campaign_room { self.old.campaign_room ≤ self.new.campaign_room }
    {
        let (_, user_hash) = split_key(key);
        self.append_row(row, user_hash)
    }

    // Adds the sale of the row, and answers its number.
    fn append_row(&mut self, row: SaleRow, user_hash: Option<u64>) -> u64
        requires there { (1 ≤ row.campaign) × (row.campaign ≤ length self.old.campaigns) }
        requires user { user_hash ≡ option_map hash_of row.user }
        requires free { (d : Funds) → committed_of row.campaign (get_or self.old.campaigns (row.campaign - 1) d).gone self.old.sales + charge row.state row.price ≤ (get_or self.old.campaigns (row.campaign - 1) d).budget }
        requires room { 0 < self.old.sale_room }
        requires few { length self.old.sales < 67108864 }
        ensures number { result ≡ forgotten_of self.old.campaigns + length self.old.sales + 1 }
        ensures sales { self.new.sales ≡ self.old.sales ++ row ∷ [] }
        ensures campaigns { self.new.campaigns ≡ self.old.campaigns }
        ensures sale_room { self.old.sale_room ≤ self.new.sale_room + 1 }
        ensures campaign_room { self.old.campaign_room ≤ self.new.campaign_room }
    {
        let number = self.forgotten + self.rows.len() as u64 + 1;
        append(
            &mut self.accounts,
            &mut self.rows,
            &mut self.links,
            &mut self.dues,
            &mut self.lasts,
            self.forgotten,
            row,
            user_hash,
        );
        number
    }
}
