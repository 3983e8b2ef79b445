//! A sale appended: the room of every list first, and then the row in each of them.
ghost use Rattle.std.specs.Prelude.{◌≡◌, ℕ, List, ◌+◌, ◌-◌, ◌<◌, ◌≤◌, ◌∷◌, [], ◌++◌, length, min, OnOk, option_map};
ghost use Rattle.std.specs.BinaryHeap.{heap_capacity, heap_items, heap_len};
ghost use Rattle.std.proofs.Common.{get_or};
ghost use Rattle.budget_book.specs.declared.account.Account.{Account};
ghost use Rattle.budget_book.specs.Accounts.{charge};
ghost use Rattle.budget_book.specs.Book.{IsBook, funds_of_all, user_room};
ghost use Rattle.budget_book.specs.LastSales.{distance, last_at, place_by, user_hash as hash_of};
ghost use Rattle.budget_book.specs.Users.{IsLinked};

use crate::account::Account;
use crate::dues::{Due, await_sale};
use crate::hash::{mix, place_in};
use crate::last_sales::LastSales;
use crate::sales::SaleRow;
use std::alloc::AllocError;
use std::collections::{BinaryHeap, VecDeque};

// Makes room for so many sales and campaigns more. What was a book before is one after.
pub(crate) fn reserve_all(
    accounts: &mut Vec<Account>,
    rows: &mut VecDeque<SaleRow>,
    links: &mut VecDeque<u32>,
    dues: &mut BinaryHeap<Due>,
    lasts: &mut LastSales,
    sales: u32,
    campaigns: u32,
) -> Result<(), AllocError>
    ensures accounts { accounts.new.items ≡ accounts.old.items }
    ensures rows { rows.new.items ≡ rows.old.items }
    ensures links { links.new.items ≡ links.old.items }
    ensures dues { heap_items dues.new ≡ heap_items dues.old }
    ensures numbers { (b : ℕ) → last_at b lasts.new ≡ last_at b lasts.old }
    ensures sale_room { OnOk result (sales ≤ min (rows.new.cap - rows.new.len) (min (links.new.cap - links.new.len) (min (heap_capacity dues.new - heap_len dues.new) (user_room lasts.new)))) }
    ensures account_room { OnOk result (campaigns ≤ accounts.new.cap - accounts.new.len) }
    ensures row_room_stays { rows.old.cap - rows.old.len ≤ rows.new.cap - rows.new.len }
    ensures link_room_stays { links.old.cap - links.old.len ≤ links.new.cap - links.new.len }
    ensures due_room_stays { heap_capacity dues.old - heap_len dues.old ≤ heap_capacity dues.new - heap_len dues.new }
    ensures user_room_stays { user_room lasts.old ≤ user_room lasts.new }
    ensures account_room_stays { accounts.old.cap - accounts.old.len ≤ accounts.new.cap - accounts.new.len }
{
    accounts.reserve(campaigns as usize)?;
    reserve_lists(rows, links, dues, sales as usize)?;
    lasts.reserve()
}

// Makes room for so many sales more in the lists.
fn reserve_lists(
    rows: &mut VecDeque<SaleRow>,
    links: &mut VecDeque<u32>,
    dues: &mut BinaryHeap<Due>,
    sales: usize,
) -> Result<(), AllocError>
    ensures rows { rows.new.items ≡ rows.old.items }
    ensures links { links.new.items ≡ links.old.items }
    ensures dues { heap_items dues.new ≡ heap_items dues.old }
    ensures row_room { OnOk result (sales ≤ rows.new.cap - rows.new.len) }
    ensures link_room { OnOk result (sales ≤ links.new.cap - links.new.len) }
    ensures due_room { OnOk result (sales ≤ heap_capacity dues.new - heap_len dues.new) }
    ensures row_room_stays { (rows.old.cap ≤ rows.new.cap) × (rows.new.len ≡ rows.old.len) }
    ensures link_room_stays { (links.old.cap ≤ links.new.cap) × (links.new.len ≡ links.old.len) }
    ensures due_room_stays { (heap_capacity dues.old ≤ heap_capacity dues.new) × (heap_len dues.new ≡ heap_len dues.old) }
{
    rows.reserve(sales)?;
    links.reserve(sales)?;
    dues.reserve(sales)?;
    Ok(())
}

// Adds a sale, which its campaign can pay. There is room in all lists.
pub(crate) fn append(
    accounts: &mut [Account],
    rows: &mut VecDeque<SaleRow>,
    links: &mut VecDeque<u32>,
    dues: &mut BinaryHeap<Due>,
    lasts: &mut LastSales,
    forgotten: u64,
    row: SaleRow,
    user_hash: Option<u64>,
)
    requires book { IsBook forgotten accounts.old rows.old.items links.old.items (heap_items dues.old) lasts.old }
    requires there { (1 ≤ row.campaign) × (row.campaign ≤ length accounts.old) }
    requires user { user_hash ≡ option_map hash_of row.user }
    requires free { (d : Account) → (get_or accounts.old (row.campaign - 1) d).reserved + (get_or accounts.old (row.campaign - 1) d).spent + charge row.state row.price ≤ (get_or accounts.old (row.campaign - 1) d).budget }
    requires few { length rows.old.items < 67108864 }
    requires row_room { rows.old.len < rows.old.cap }
    requires link_room { links.old.len < links.old.cap }
    requires due_room { heap_len dues.old < heap_capacity dues.old }
    requires many { 0 < length lasts.old }
    ensures book { IsBook forgotten accounts.new rows.new.items links.new.items (heap_items dues.new) lasts.new }
    ensures rows { rows.new.items ≡ rows.old.items ++ row ∷ [] }
    ensures campaigns { funds_of_all accounts.new ≡ funds_of_all accounts.old }
    ensures row_room { (rows.new.cap ≡ rows.old.cap) × (rows.new.len ≡ rows.old.len + 1) }
    ensures link_room { (links.new.cap ≡ links.old.cap) × (links.new.len ≡ links.old.len + 1) }
    ensures due_room { (heap_capacity dues.old ≤ heap_capacity dues.new) × (heap_len dues.new ≤ heap_len dues.old + 1) }
    ensures many { length lasts.new ≡ length lasts.old }
{
    let number = forgotten + rows.len() as u64 + 1;
    let back = link(lasts, row.campaign, user_hash, number);
    links.push_back_reserved(back);
    await_sale(dues, &row, number);
    let account = &mut accounts[row.campaign as usize - 1];
    account.add(row.state, row.price.get());
    rows.push_back_reserved(row);
}

// Makes the sale of that number the last at its place, where it has a user, and answers how far behind it the one
// stands that was.
fn link(lasts: &mut LastSales, campaign: u32, user_hash: Option<u64>, number: u64) -> u32
    requires { 0 < length lasts.old }
    ensures linked { IsLinked lasts.old lasts.new (option_map (place_by campaign) user_hash) number result }
    ensures many { length lasts.new ≡ length lasts.old }
{
    match user_hash {
        None => 0,
        Some(hash) => {
            let before = lasts.put(place_in(mix(campaign, hash)), number);
            distance(number, before)
        }
    }
}

// How far behind the number the one before stands. What is farther than any list is long is as good as none.
fn distance(number: u64, before: u64) -> u32
    ensures { result ≡ distance number before }
{
    number.saturating_sub(before).min(u64::from(u32::MAX)) as u32
}
