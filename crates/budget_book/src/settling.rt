//! A held sale settled: its state, and its amount moved in the account.
ghost use Rattle.std.specs.Prelude.{◌≡◌, ◌≢◌, false, ℕ, List, ◌+◌, ◌-◌, ◌<◌, ◌≤◌, ◌^◌, length, map};
ghost use Rattle.std.proofs.Common.{get_or, set};
ghost use Rattle.budget_book.specs.declared.sales.SaleRow.{SaleRow};
ghost use Rattle.budget_book.specs.declared.account.Account.{Account};
ghost use Rattle.budget_book.specs.Accounts.{AreAccounts, settled};
ghost use Rattle.budget_book.specs.declared.dues.Due.{Due};
ghost use Rattle.budget_book.specs.Book.{AreGoneFew, AreKnown, IsBook, funds_of_all};
ghost use Rattle.budget_book.specs.Sales.{gone_count, in_state, is_held, settled_in, state_in};

use crate::account::Account;
use crate::sales::{SaleRow, SaleState};
use std::collections::VecDeque;

// The sale of that number changes to that state, where it is in the list and held. The state that it had, where it is
// in the list.
pub(crate) fn settle_in(
    rows: &mut VecDeque<SaleRow>,
    accounts: &mut [Account],
    forgotten: u64,
    sale: u64,
    state: SaleState,
) -> Option<SaleState>
    requires other { is_held state ≡ false }
    requires few { length rows.old.items ≤ 67108864 }
    requires known { AreKnown (length accounts.old) rows.old.items }
    requires summed { AreAccounts rows.old.items accounts.old }
    requires gone { AreGoneFew (funds_of_all accounts.old) }
    ensures was { result ≡ state_in forgotten rows.old.items sale }
    ensures rows { rows.new.items ≡ settled_in state forgotten rows.old.items sale }
    ensures campaigns { funds_of_all accounts.new ≡ funds_of_all accounts.old }
    ensures row_room { (rows.new.cap ≡ rows.old.cap) × (rows.new.len ≡ rows.old.len) }
    ensures book { (links : List ℕ) (dues : List Due) (lasts : List ℕ) → IsBook forgotten accounts.old rows.old.items links dues lasts → IsBook forgotten accounts.new rows.new.items links dues lasts }
{
    if sale <= forgotten {
        return None;
    }
    let place = (sale - forgotten - 1) as usize;
    if place >= rows.len() {
        return None;
    }
    let was = rows[place].state;
    if !was.is_held() {
        return Some(was);
    }
    settle(rows, accounts, place, state);
    Some(was)
}

// The held sale at the place changes to that state, in the list and in its campaign's account.
pub(crate) fn settle(
    rows: &mut VecDeque<SaleRow>,
    accounts: &mut [Account],
    place: usize,
    state: SaleState,
)
    requires place { place < length rows.old.items }
    requires held { (d : SaleRow) → (get_or rows.old.items place d).state ≡ SaleState.Held }
    requires few { length rows.old.items ≤ 67108864 }
    requires known { AreKnown (length accounts.old) rows.old.items }
    requires summed { AreAccounts rows.old.items accounts.old }
    requires gone { AreGoneFew (funds_of_all accounts.old) }
    ensures rows { (d : SaleRow) → rows.new.items ≡ set rows.old.items place (in_state state (get_or rows.old.items place d)) }
    ensures summed { AreAccounts rows.new.items accounts.new }
    ensures campaigns { funds_of_all accounts.new ≡ funds_of_all accounts.old }
    ensures row_room { (rows.new.cap ≡ rows.old.cap) × (rows.new.len ≡ rows.old.len) }
{
    let sale = &mut rows[place];
    sale.state = state;
    let price = sale.price.get();
    let account = &mut accounts[sale.campaign as usize - 1];
    account.settle(state, price);
}
