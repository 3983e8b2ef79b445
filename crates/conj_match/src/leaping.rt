//! A skip in a posting list by leaps that double, and then by halves (Bentley and Yao 1976).
ghost use Rattle.std.specs.Prelude.{◌≡◌, ◌≤◌, ◌<◌, ◌+◌, ◌-◌, ◌*◌, ◌^◌, ℕ, Some, length};
ghost use Rattle.postings.specs.Order.{IsRising, entry_at};
ghost use Rattle.conj_match.specs.Skip.{Reaches, is_short};

use postings::{Entry, Postings};
use rtb_base::Steps;
use std::sync::ledger::Ledger;

/// Where a skip ends, counted from the place where it began: behind `low`, and at `high` at the latest.
/// The entry is that at `high`, or none past the end.
#[derive(Drop)]
pub(crate) struct Reach {
    pub(crate) low: usize,
    pub(crate) high: usize,
    pub(crate) entry: Option<Entry>,
}

/// Looks 2, 4, 8 and so on entries behind `origin`, until one has a number of at least `id` or the list
/// ends. The entry 1 behind it has none.
pub(crate) fn leap<L: Ledger>(
    list: &Postings,
    origin: usize,
    id: u32,
    steps: &mut Steps<L>,
) -> Reach
    requires there { origin + 1 < length list.now }
    requires below { (entry_at list.now (origin + 1)).id < id }
    ensures reach { Reaches list.now origin id result }
    ensures cost { (m : ℕ) × (result.low ≡ 2 ^ m) × (result.high ≤ 2 * result.low) × (steps.new ≤ steps.old + (m + 1)) }
{
    let left = list.len() - origin;
    let mut low = 1;
    let mut high = left.min(2);
    let mut entry = list.at(origin + high, steps);
    while is_short(entry, id) {
        low = high;
        high += high.min(left - high);
        entry = list.at(origin + high, steps);
    }
    Reach { low, high, entry }
}

/// Whether there is an entry, and its number is below `id`.
pub(crate) fn is_short(entry: Option<Entry>, id: u32) -> bool
    ensures { result ≡ is_short id entry }
{
    match entry {
        Some(entry) => entry.id < id,
        None => false,
    }
}

/// Halves the interval, until the entry at `high` is the next one behind that at `low`.
pub(crate) fn halve<L: Ledger>(
    list: &Postings,
    origin: usize,
    id: u32,
    reach: Reach,
    steps: &mut Steps<L>,
) -> Reach
    requires { Reaches list.now origin id reach }
    ensures reach { Reaches list.now origin id result }
    ensures next { result.high ≡ result.low + 1 }
    ensures from { reach.low ≤ result.low }
    ensures cost { (m : ℕ) → reach.high - reach.low ≤ 2 ^ m → steps.new ≤ steps.old + m }
{
    let mut reach = reach;
    while reach.high - reach.low > 1 {
        let middle = reach.low + (reach.high - reach.low) / 2;
        let next = entry_at(list, origin + middle, steps);
        reach = nearer(reach, middle, next, id);
    }
    reach
}

// The half of the interval that the entry in its middle leaves.
fn nearer(reach: Reach, middle: usize, next: Entry, id: u32) -> Reach
    ensures short { next.id < id → result ≡ record reach { low = middle } }
    ensures far { id ≤ next.id → result ≡ record reach { high = middle; entry = Some next } }
{
    if next.id < id {
        Reach {
            low: middle,
            high: reach.high,
            entry: reach.entry,
        }
    } else {
        Reach {
            low: reach.low,
            high: middle,
            entry: Some(next),
        }
    }
}

/// The entry at the place.
#[inline(always)]
pub(crate) fn entry_at<L: Ledger>(list: &Postings, place: usize, steps: &mut Steps<L>) -> Entry
    requires { place < length list.now }
    ensures value { result ≡ entry_at list.now place }
    ensures rising { IsRising list.now }
    ensures cost { steps.new ≡ steps.old + 1 }
{
    match list.at(place, steps) {
        Some(entry) => entry,
        None => unreachable!(),
    }
}
