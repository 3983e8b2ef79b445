//! Lists of which one is so short that the others are skipped through.
ghost use Rattle.std.specs.Prelude.{◌≡◌, ◌≤◌, ◌<◌, ◌+◌, ◌*◌, ◌&&◌, All, IfOk, IfSome, None, length, not};
ghost use Rattle.std.specs.List.{list_all};
ghost use Rattle.conj_match.specs.Matching.{IsAnswer, cost_of, digits, lists_at, longest, reading_cost};
ghost use Rattle.conj_match.specs.Skip.{SkipsFrom, is_asked};

use crate::Cursor;
use crate::leaping::entry_at;
use crate::lengths::{digits_of, entries_in, longest_in, shortest_in};
use postings::{Entry, Postings};
use rtb_base::Steps;
use std::alloc::{AllocError, Global};
use std::sync::ledger::Ledger;

/// The place of a shortest list, where as many lists as `k` are chosen and to skip from it reads less.
/// It looks at lengths alone, and reads nothing.
pub(crate) fn skip_from(lists: &[Postings], chosen: &[usize], k: u32) -> Option<usize>
    requires some { 1 ≤ k }
    requires within { All (λ n. n < length lists.now) chosen.now }
    ensures some { IfSome result (SkipsFrom lists.now chosen.now k) }
    ensures none { result ≡ None → k ≤ length chosen.now → cost_of (lists_at lists.now chosen.now) k ≡ reading_cost (lists_at lists.now chosen.now) }
{
    if chosen.len() != k as usize {
        return None;
    }
    let first = shortest_in(lists, chosen);
    let looks = looks_from(lists[first].len(), longest_in(lists, chosen), k);
    if looks < entries_in(lists, chosen) {
        Some(first)
    } else {
        None
    }
}

// Half of the bound of skipping from a list of so many entries, without one for each list.
fn looks_from(shortest: usize, longest: usize, k: u32) -> u128
    ensures { result ≡ k * (shortest + 1) * (2 * digits longest + 2) }
{
    k as u128 * (shortest as u128 + 1) * (2 * digits_of(longest) as u128 + 2)
}

/// The conjunctions that match, where each chosen list has to ask for them: for each entry of the shortest
/// list, a skip in each list.
pub(crate) fn skip_lists<L: Ledger>(
    alloc: Global,
    lists: &[Postings],
    chosen: &[usize],
    k: u32,
    first: usize,
    steps: &mut Steps<L>,
) -> Result<Vec<u32>, AllocError>
    requires some { 1 ≤ k }
    requires within { All (λ n. n < length lists.now) chosen.now }
    requires skips { SkipsFrom lists.now chosen.now k first }
    ensures answer { IfOk result (λ ids. IsAnswer (lists_at lists.now chosen.now) k ids.items) }
    ensures cost { steps.new ≤ steps.old + cost_of (lists_at lists.now chosen.now) k }
{
    let list = &lists[first];
    let mut ids = Vec::new(alloc);
    for place in 0..list.len() {
        let entry = entry_at(list, place, steps);
        if is_common(lists, chosen, entry, steps) {
            ids.push(entry.id)?;
        }
    }
    Ok(ids)
}

// Whether the entry is plain, and each chosen list asks for its conjunction.
fn is_common<L: Ledger>(
    lists: &[Postings],
    chosen: &[usize],
    entry: Entry,
    steps: &mut Steps<L>,
) -> bool
    requires { All (λ n. n < length lists.now) chosen.now }
    ensures value { result ≡ (not entry.negated && list_all (is_asked entry.id) (lists_at lists.now chosen.now)) }
    ensures cost { steps.new ≤ steps.old + length chosen.now * (2 * digits (longest (lists_at lists.now chosen.now)) + 3) }
{
    if entry.negated {
        return false;
    }
    all_ask(lists, chosen, entry.id, steps)
}

// Whether each chosen list asks for the conjunction, and none excludes it.
fn all_ask<L: Ledger>(lists: &[Postings], chosen: &[usize], id: u32, steps: &mut Steps<L>) -> bool
    requires { All (λ n. n < length lists.now) chosen.now }
    ensures value { result ≡ list_all (is_asked id) (lists_at lists.now chosen.now) }
    ensures cost { steps.new ≤ steps.old + length chosen.now * (2 * digits (longest (lists_at lists.now chosen.now)) + 3) }
{
    for place in chosen {
        if !is_asked(&lists[*place], id, steps) {
            return false;
        }
    }
    true
}

// Whether the list asks for the conjunction, and does not exclude it.
fn is_asked<L: Ledger>(list: &Postings, id: u32, steps: &mut Steps<L>) -> bool
    ensures value { result ≡ is_asked id list.now }
    ensures cost { steps.new ≤ steps.old + (2 * digits (length list.now) + 3) }
{
    let mut cursor = Cursor::start(list);
    cursor.load(steps);
    cursor.skip_to(id, steps);
    cursor.shows_plain(id)
}
