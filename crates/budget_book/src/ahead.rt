//! What would expire by a moment. A look ahead goes down the heap of entries only where they are due, so it costs
//! what is due, however many are held.
ghost use Rattle.std.specs.Prelude.{◌≡◌, ◌+◌, ◌<◌, ◌≤◌, ◌^◌, length, MatchOption, OnSome};
ghost use Rattle.std.specs.BinaryHeap.{heap_items};
ghost use Rattle.std.proofs.Common.{get_or};
ghost use Rattle.budget_book.specs.declared.dues.Due.{Due};
ghost use Rattle.budget_book.specs.declared.sales.Gone.{Gone};
ghost use Rattle.budget_book.specs.Dues.{AreDues, due_weight, entry_weight, release_weight, sum_below, weight_at};
ghost use Rattle.budget_book.specs.Sales.{committed_of, due_count, expired, is_held_of, prices};

use crate::dues::Due;
use crate::sales::{SaleRow, row_at};
use std::collections::{BinaryHeap, VecDeque};

// How many sales would expire.
pub(crate) fn count_due(
    dues: &BinaryHeap<Due>,
    rows: &VecDeque<SaleRow>,
    forgotten: u64,
    moment: u64,
) -> u64
    requires dues { AreDues forgotten rows.now.items (heap_items dues.now) }
    requires few { length rows.now.items ≤ 67108864 }
    ensures { result ≡ due_count moment rows.now.items }
{
    count_below(dues.as_slice(), 0, rows, forgotten, moment)
}

// How many sales would expire of the entry at the place and of those below it.
fn count_below(
    dues: &[Due],
    place: usize,
    rows: &VecDeque<SaleRow>,
    forgotten: u64,
    moment: u64,
) -> u64
    requires dues { AreDues forgotten rows.now.items dues.now }
    requires few { sum_below (entry_weight (due_weight moment) forgotten rows.now.items) dues.now place ≤ 67108864 }
    ensures { result ≡ sum_below (entry_weight (due_weight moment) forgotten rows.now.items) dues.now place }
{
    let Some(entry) = due_at(dues, place, moment) else {
        return 0;
    };
    count_one(rows, forgotten, entry.number, moment)
        + count_below(dues, 2 * place + 1, rows, forgotten, moment)
        + count_below(dues, 2 * place + 2, rows, forgotten, moment)
}

// What would no longer be reserved for the campaign.
pub(crate) fn release(
    dues: &BinaryHeap<Due>,
    rows: &VecDeque<SaleRow>,
    forgotten: u64,
    campaign: u32,
    moment: u64,
) -> u64
    requires dues { AreDues forgotten rows.now.items (heap_items dues.now) }
    requires range { prices (is_held_of campaign) rows.now.items ≤ 10 ^ 15 }
    ensures { (gone : Gone) → result + committed_of campaign gone (expired moment rows.now.items) ≡ committed_of campaign gone rows.now.items }
{
    release_below(dues.as_slice(), 0, rows, forgotten, campaign, moment)
}

// What of it is of the entry at the place and of those below it.
fn release_below(
    dues: &[Due],
    place: usize,
    rows: &VecDeque<SaleRow>,
    forgotten: u64,
    campaign: u32,
    moment: u64,
) -> u64
    requires dues { AreDues forgotten rows.now.items dues.now }
    requires range { sum_below (entry_weight (release_weight campaign moment) forgotten rows.now.items) dues.now place ≤ 10 ^ 15 }
    ensures { result ≡ sum_below (entry_weight (release_weight campaign moment) forgotten rows.now.items) dues.now place }
{
    let Some(entry) = due_at(dues, place, moment) else {
        return 0;
    };
    release_one(rows, forgotten, entry.number, campaign, moment)
        + release_below(dues, 2 * place + 1, rows, forgotten, campaign, moment)
        + release_below(dues, 2 * place + 2, rows, forgotten, campaign, moment)
}

// The entry at the place, where one is there and due by the moment. Where it is not due, none below it is.
fn due_at(dues: &[Due], place: usize, moment: u64) -> Option<Due>
    ensures due { MatchOption result ((d : Due) → place < length dues.now → moment < (get_or dues.now place d).due.0) (λ e. (place < length dues.now) × (e ≡ get_or dues.now place e)) }
    ensures few { OnSome result (length dues.now < 2 ^ 60) }
{
    if place >= dues.len() || moment < dues[place].due.0 {
        return None;
    }
    Some(dues[place])
}

// One, where the sale of that number is in the list, held, and due by the moment.
fn count_one(rows: &VecDeque<SaleRow>, forgotten: u64, number: u64, moment: u64) -> u64
    ensures { result ≡ weight_at (due_weight moment) forgotten rows.now.items number }
{
    match row_at(rows, forgotten, number) {
        None => 0,
        Some(row) => u64::from(row.is_due(moment)),
    }
}

// The price of the sale of that number, where it is in the list, of the campaign, held, and due by the
// moment.
fn release_one(
    rows: &VecDeque<SaleRow>,
    forgotten: u64,
    number: u64,
    campaign: u32,
    moment: u64,
) -> u64
    ensures { result ≡ weight_at (release_weight campaign moment) forgotten rows.now.items number }
{
    match row_at(rows, forgotten, number) {
        None => 0,
        Some(row) => {
            if row.campaign != campaign || !row.is_due(moment) {
                return 0;
            }
            row.price.get()
        }
    }
}
