//! The conjunctions that the chosen lists match, by counting or by merging, as is cheaper.
ghost use Rattle.std.specs.Prelude.{◌≡◌, ◌≤◌, ◌<◌, ◌+◌, ◌*◌, ◌^◌, ◌/◌, All, IfOk, length, max, nat_le, nat_lt, sum_by, ◌&&◌};
ghost use Rattle.conj_match.specs.Matching.{IsAnswer, cost_of, lists_at, reading_cost};
ghost use Rattle.conj_match.specs.Tally.{IsBelow};

use crate::lengths::entries_in;
use crate::merging::merge_lists;
use crate::skipping::{skip_from, skip_lists};
use crate::tally::{FEW, Tally};
use postings::Postings;
use rtb_base::Steps;
use std::alloc::{AllocError, Global};
use std::sync::ledger::Ledger;

/// The conjunctions that match, in rising order: those that no chosen list has a negated entry of,
/// and of which at least `k` chosen lists have another entry.
///
/// `chosen` has places in `lists`, and a list counts as often as it is chosen. One step is one entry
/// read.
pub fn match_lists<L: Ledger>(
    alloc: Global,
    lists: &[Postings],
    chosen: &[usize],
    k: u32,
    steps: &mut Steps<L>,
) -> Result<Vec<u32>, AllocError>
    requires some { 1 ≤ k }
    requires within { All (λ n. n < length lists.now) chosen.now }
    ensures answer { IfOk result (λ ids. IsAnswer (lists_at lists.now chosen.now) k ids.items) }
    ensures cost { steps.new ≤ steps.old + cost_of (lists_at lists.now chosen.now) k }
{
    if chosen.len() < k as usize {
        return Ok(Vec::new(alloc));
    }
    match skip_from(lists, chosen, k) {
        Some(first) => skip_lists(alloc, lists, chosen, k, first, steps),
        None => read_lists(alloc, lists, chosen, k, steps),
    }
}

// The conjunctions that match, from all entries of the lists.
fn read_lists<L: Ledger>(
    alloc: Global,
    lists: &[Postings],
    chosen: &[usize],
    k: u32,
    steps: &mut Steps<L>,
) -> Result<Vec<u32>, AllocError>
    requires some { 1 ≤ k }
    requires enough { k ≤ length chosen.now }
    requires within { All (λ n. n < length lists.now) chosen.now }
    ensures answer { IfOk result (λ ids. IsAnswer (lists_at lists.now chosen.now) k ids.items) }
    ensures cost { steps.new ≤ steps.old + reading_cost (lists_at lists.now chosen.now) }
{
    let width = width_in(lists, chosen, steps);
    if chosen.len() >= FEW || entries_in(lists, chosen) < (width / 32) as u128 {
        return merge_lists(alloc, lists, chosen, k, steps);
    }
    count_lists(alloc, lists, chosen, k as u8, width, steps)
}

// The conjunctions that match, by counting up to the greatest number.
fn count_lists<L: Ledger>(
    alloc: Global,
    lists: &[Postings],
    chosen: &[usize],
    k: u8,
    width: usize,
    steps: &mut Steps<L>,
) -> Result<Vec<u32>, AllocError>
    requires some { 1 ≤ k }
    requires few { length chosen.now < 128 }
    requires enough { k ≤ length chosen.now }
    requires within { All (λ n. n < length lists.now) chosen.now }
    requires below { All (IsBelow width) (lists_at lists.now chosen.now) }
    requires short { width ≤ 2 ^ 32 }
    ensures answer { IfOk result (λ ids. IsAnswer (lists_at lists.now chosen.now) k ids.items) }
    ensures cost { steps.new ≤ steps.old + 2 * sum_by length (lists_at lists.now chosen.now) }
{
    let mut tally = Tally::new(alloc);
    tally.begin(alloc, width)?;
    tally.count(lists, chosen, k, steps);
    let mut ids = Vec::new(alloc);
    tally.push_found(&mut ids)?;
    Ok(ids)
}

// How far the numbers of the chosen lists go: one more than the greatest.
fn width_in<L: Ledger>(lists: &[Postings], chosen: &[usize], steps: &mut Steps<L>) -> usize
    requires { All (λ n. n < length lists.now) chosen.now }
    ensures width { All (IsBelow result) (lists_at lists.now chosen.now) }
    ensures short { result ≤ 2 ^ 32 }
    ensures cost { steps.new ≤ steps.old + length chosen.now }
    ensures few { steps.new ≤ steps.old + sum_by length (lists_at lists.now chosen.now) }
{
    let mut width = 0;
    for place in chosen {
        width = width_of(&lists[*place], steps).max(width);
    }
    width
}

// One more than the greatest number of the list, which is that of its last entry.
fn width_of<L: Ledger>(list: &Postings, steps: &mut Steps<L>) -> usize
    ensures width { IsBelow result list.now }
    ensures short { result ≤ 2 ^ 32 }
    ensures cost { steps.new ≤ steps.old + 1 }
    ensures few { steps.new ≤ steps.old + length list.now }
{
    match list.at(list.len().saturating_sub(1), steps) {
        Some(last) => last.id as usize + 1,
        None => 0,
    }
}
