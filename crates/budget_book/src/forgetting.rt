//! The oldest sales are forgotten.
ghost use Rattle.std.specs.Prelude.{◌≡◌, ℕ, ◌+◌, ◌≤◌, ◌<◌, ◌^◌, not, false, length, drop, min, nat_lt, ◌&&◌, take};
ghost use Rattle.std.specs.List.{prefix_len};
ghost use Rattle.std.proofs.Common.{get_or};
ghost use Rattle.budget_book.specs.declared.account.Account.{Account};
ghost use Rattle.budget_book.specs.declared.sales.SaleRow.{SaleRow};
ghost use Rattle.budget_book.specs.Accounts.{AreAccounts};
ghost use Rattle.budget_book.specs.Book.{AreForgotten, AreKnown, NoneHeld, forgotten_of, funds_of, funds_of_all};
ghost use Rattle.budget_book.specs.Sales.{are_settled, expired, forgettable, forgettable_at_once, gone_with, is_held, state_at};

use crate::account::Account;
use crate::sales::{MOST_AT_ONCE, MOST_FORGOTTEN, SaleRow};
use std::collections::VecDeque;

// How many of the oldest sales can be forgotten, so that at least so many are left.
pub(crate) fn forgettable(rows: &VecDeque<SaleRow>, forgotten: u64, keep: u64) -> usize
    requires { forgotten ≤ 2 ^ 62 }
    ensures { result ≡ forgettable keep forgotten rows.now.items }
{
    let settled = settled_front(rows) as u64;
    let spare = (rows.len() as u64).saturating_sub(keep);
    settled.min(spare.min(MOST_FORGOTTEN - forgotten)) as usize
}

// How many sales stand before the first that is held.
fn settled_front(rows: &VecDeque<SaleRow>) -> usize
    ensures { result ≡ prefix_len (λ (s : SaleRow). not (is_held s.state)) rows.now.items }
{
    rows.iter().take_while(|row| is_settled(row)).count()
}

fn is_settled(row: &SaleRow) -> bool
    ensures { result ≡ not (is_held row.now.state) }
{
    !row.state.is_held()
}

// How many of the oldest sales can be forgotten at once by the moment, so that at least so many are left. It looks at no
// more of them.
pub(crate) fn forgettable_at(
    rows: &VecDeque<SaleRow>,
    forgotten: u64,
    keep: u64,
    moment: u64,
) -> u64
    requires { forgotten ≤ 2 ^ 62 }
    ensures { result ≡ forgettable_at_once keep forgotten (expired moment rows.now.items) }
{
    let spare = (rows.len() as u64).saturating_sub(keep);
    let most = spare.min(MOST_FORGOTTEN - forgotten).min(MOST_AT_ONCE);
    settled_among(rows, most as usize, moment) as u64
}

// Whether so many of the oldest sales are there and none of them is held by the moment.
pub(crate) fn are_settled_at(rows: &VecDeque<SaleRow>, count: u64, moment: u64) -> bool
    ensures { result ≡ are_settled count (expired moment rows.now.items) }
{
    count <= rows.len() as u64 && settled_among(rows, count as usize, moment) as u64 == count
}

// How many of the first so many sales stand before the first that is held by the moment.
fn settled_among(rows: &VecDeque<SaleRow>, most: usize, moment: u64) -> usize
    requires { most ≤ length rows.now.items }
    ensures { result ≡ min most (prefix_len (λ (s : SaleRow). not (is_held s.state)) (expired moment rows.now.items)) }
{
    let mut count = 0;
    while goes_on(rows, count, most, moment) {
        count += 1;
    }
    count
}

// Whether the place is one of the first so many, and its sale not held by the moment.
fn goes_on(rows: &VecDeque<SaleRow>, place: usize, most: usize, moment: u64) -> bool
    requires { most ≤ length rows.now.items }
    ensures { (d : SaleRow) → result ≡ (nat_lt place most && not (is_held (state_at moment (get_or rows.now.items place d)))) }
{
    place < most && !rows[place].state_at(moment).is_held()
}

// Adds the first sales to what is gone of their campaigns.
pub(crate) fn add_gone(accounts: &mut [Account], rows: &VecDeque<SaleRow>, count: usize)
    requires count { count ≤ length rows.now.items }
    requires few { length rows.now.items ≤ 67108864 }
    requires settled { NoneHeld count rows.now.items }
    requires known { AreKnown (length accounts.old) rows.now.items }
    requires summed { AreAccounts rows.now.items accounts.old }
    requires gone { forgotten_of (funds_of_all accounts.old) ≤ 2 ^ 62 }
    ensures summed { AreAccounts (drop count rows.now.items) accounts.new }
    ensures counted { forgotten_of (funds_of_all accounts.new) ≡ forgotten_of (funds_of_all accounts.old) + count }
    ensures campaigns { AreForgotten (take count rows.now.items) (funds_of_all accounts.old) (funds_of_all accounts.new) }
{
    for place in 0..count {
        let row = &rows[place];
        let account = &mut accounts[row.campaign as usize - 1];
        account.forget(row.state, row.price.get());
    }
}

// Takes out the first items. The room stays.
pub(crate) fn drop_front<T: Drop>(items: &mut VecDeque<T>, count: usize)
    requires { count ≤ length items.old.items }
    ensures items { items.new.items ≡ drop count items.old.items }
    ensures capacity { items.new.cap ≡ items.old.cap }
{
    items.drain(..count);
}
