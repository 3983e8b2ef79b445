//! When held sales are due, the earliest first, and their expiry.
ghost use Rattle.std.specs.Prelude.{◌≡◌, ℕ, ◌+◌, ◌-◌, ◌<◌, ◌≤◌, ◌∷◌, [], ◌++◌, All, List, length, MatchOption, IsPermutation};
ghost use Rattle.std.specs.BinaryHeap.{IsHeap, heap_capacity, heap_items, heap_len};
ghost use Rattle.budget_book.specs.declared.dues.Due.{Due};
ghost use Rattle.budget_book.specs.declared.sales.SaleRow.{SaleRow};
ghost use Rattle.budget_book.specs.Accounts.{AreAccounts};
ghost use Rattle.budget_book.specs.Book.{AreGoneFew, AreKnown, funds_of_all};
ghost use Rattle.budget_book.specs.Dues.{AreDues, IsDueOf, due_cmp};
ghost use Rattle.budget_book.specs.Expiry.{IsExpiry};
ghost use Rattle.budget_book.specs.Sales.{due_count, expired, gone_count, in_state, is_due, is_held};

use crate::account::Account;
use crate::sales::{SaleRow, SaleState};
use crate::settling::settle;
use std::cmp::Reverse;
use std::collections::{BinaryHeap, VecDeque};

// A sale that is to expire. The greater of two is the one that is due first, so a heap has it on top.
#[derive(Clone, Copy, PartialEq, Eq, PartialOrd, Ord)]
pub(crate) struct Due {
    pub due: Reverse<u64>,
    // The number of the sale.
    pub number: u64,
}

// All held sales that are due expire. How many did.
pub(crate) fn sweep_dues(
    dues: &mut BinaryHeap<Due>,
    rows: &mut VecDeque<SaleRow>,
    accounts: &mut [Account],
    forgotten: u64,
    moment: u64,
) -> u64
    requires few { length rows.old.items ≤ 67108864 }
    requires known { AreKnown (length accounts.old) rows.old.items }
    requires summed { AreAccounts rows.old.items accounts.old }
    requires gone { AreGoneFew (funds_of_all accounts.old) }
    requires dues { AreDues forgotten rows.old.items (heap_items dues.old) }
    ensures expiry { IsExpiry moment rows.old.items rows.new.items result }
    ensures rows { rows.new.items ≡ expired moment rows.old.items }
    ensures count { result ≡ due_count moment rows.old.items }
    ensures summed { AreAccounts rows.new.items accounts.new }
    ensures campaigns { funds_of_all accounts.new ≡ funds_of_all accounts.old }
    ensures dues { AreDues forgotten rows.new.items (heap_items dues.new) }
    ensures capacity { heap_capacity dues.new ≡ heap_capacity dues.old }
    ensures len { heap_len dues.new ≤ heap_len dues.old }
    ensures row_room { (rows.new.cap ≡ rows.old.cap) × (rows.new.len ≡ rows.old.len) }
{
    let mut count = 0;
    while let Some(entry) = take_due(dues, moment) {
        count += expire(rows, accounts, forgotten, entry, moment);
    }
    count
}

// Takes the entry that is due first, where it is due by the moment.
fn take_due(dues: &mut BinaryHeap<Due>, moment: u64) -> Option<Due>
    requires ordered { IsHeap due_cmp (heap_items dues.old) }
    ensures ordered { IsHeap due_cmp (heap_items dues.new) }
    ensures first { MatchOption result ((heap_items dues.new ≡ heap_items dues.old) × All (λ (d : Due). moment < d.due.0) (heap_items dues.old)) (λ e. IsPermutation (heap_items dues.old) (e ∷ heap_items dues.new) × (e.due.0 ≤ moment)) }
    ensures capacity { heap_capacity dues.new ≡ heap_capacity dues.old }
    ensures len { heap_len dues.new ≤ heap_len dues.old }
{
    let first = dues.peek()?.due.0;
    if moment < first {
        return None;
    }
    dues.pop()
}

// The sale of the entry, which is due and goes, expires, where it is in the list and held. How many
// expired.
fn expire(
    rows: &mut VecDeque<SaleRow>,
    accounts: &mut [Account],
    forgotten: u64,
    entry: Due,
    moment: u64,
) -> u64
    requires entry { IsDueOf forgotten rows.old.items entry }
    requires due { entry.due.0 ≤ moment }
    requires few { length rows.old.items ≤ 67108864 }
    requires known { AreKnown (length accounts.old) rows.old.items }
    requires summed { AreAccounts rows.old.items accounts.old }
    requires gone { AreGoneFew (funds_of_all accounts.old) }
    ensures expiry { IsExpiry moment rows.old.items rows.new.items result }
    ensures summed { AreAccounts rows.new.items accounts.new }
    ensures campaigns { funds_of_all accounts.new ≡ funds_of_all accounts.old }
    ensures dues { (old dues : List Due) → IsPermutation old (entry ∷ dues) → IsHeap due_cmp dues → AreDues forgotten rows.old.items old → AreDues forgotten rows.new.items dues }
    ensures one { result ≤ 1 }
    ensures row_room { (rows.new.cap ≡ rows.old.cap) × (rows.new.len ≡ rows.old.len) }
{
    if entry.number <= forgotten {
        return 0;
    }
    let place = (entry.number - forgotten - 1) as usize;
    if !rows[place].state.is_held() {
        return 0;
    }
    settle(rows, accounts, place, SaleState::Expired);
    1
}

// Puts in the entry of a new sale, where it is held. There is room. The entry stays until it is due, also where
// the sale is billed or lost before.
pub(crate) fn await_sale(dues: &mut BinaryHeap<Due>, row: &SaleRow, number: u64)
    requires room { heap_len dues.old < heap_capacity dues.old }
    ensures dues { (forgotten : ℕ) (rows : List SaleRow) → number ≡ forgotten + length rows + 1 → AreDues forgotten rows (heap_items dues.old) → AreDues forgotten (rows ++ row.now ∷ []) (heap_items dues.new) }
    ensures len { heap_len dues.new ≤ heap_len dues.old + 1 }
    ensures capacity { heap_capacity dues.old ≤ heap_capacity dues.new }
{
    if !row.state.is_held() {
        return;
    }
    let entry = Due {
        due: Reverse(row.due),
        number,
    };
    if dues.push(entry).is_err() {
        unreachable!();
    }
}
