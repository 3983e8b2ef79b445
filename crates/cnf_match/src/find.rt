//! The true expressions of an assignment, by the lists of the index.
ghost use Rattle.std.specs.Prelude.{◌≡◌, ◌≤◌, ◌+◌, [], ◌++◌, length, map, nat_lt, position, IfOk, OnOk};
ghost use Rattle.std.specs.List.{cons_option, filter_map, flat_map, list_all, sum_by};
ghost use Rattle.std.specs.Option.{option_copied};
ghost use Rattle.indexmap.specs.IndexMap.{keys};
ghost use Rattle.cnf_match.specs.Content.{IsIndexOf, same_key};
ghost use Rattle.cnf_match.specs.Find.{find_cost, found_lists, key_of, list_at, true_under};
ghost use Rattle.cnf_match.specs.Searching.{is_left, mark, mark_all, marked, number_left};

use crate::MOST_CLAUSES;
use crate::counted::Counted;
use crate::index::{CnfIndex, Entry, Key};
use rtb_base::Steps;
use rtb_num::{List, Txt};
use std::alloc::{AllocError, Global};
use std::sync::ledger::Ledger;
use target_expr::{Assignment, Attr};

impl CnfIndex {
    /// The numbers of the expressions that are true under the assignment, counted from 1, by number and each once,
    /// whatever list of expressions the index stands for.
    ///
    /// One step is one entry read: only those of the lists of the assignment's own pairs, twice, and of the zero list.
    pub fn find<L: Ledger>(
        &self,
        alloc: Global,
        assignment: &Assignment,
        steps: &mut Steps<L>,
    ) -> Result<List<u32>, AllocError>
        ensures answer { IfOk result (λ numbers. (es : _) → IsIndexOf es self.now → numbers ≡ true_under assignment.now es) }
        ensures cost { steps.new ≤ steps.old + find_cost self.now assignment.now }
    {
        let lists = found_lists(alloc, self, assignment.pairs())?;
        let left = mark_all(alloc, self.negated.as_slice(), lists.as_slice(), steps)?;
        let mut numbers = numbers_of(alloc, lists.as_slice(), &self.zeros, left.as_slice(), steps)?;
        numbers.sort_unstable();
        numbers.dedup();
        Ok(List::from_vec(numbers))
    }
}

// The lists of these pairs.
fn found_lists<'a>(
    alloc: Global,
    index: &'a CnfIndex,
    pairs: &[(Attr, Txt)],
) -> Result<Vec<&'a Counted<Entry>>, AllocError>
    ensures { IfOk result (λ lists. map (λ l. l.now) lists.items ≡ found_lists pairs.now index.now) }
{
    let mut lists = Vec::with_capacity(alloc, pairs.len())?;
    for (attr, value) in pairs {
        let key = Key {
            attr: *attr,
            value: value.copy()?,
        };
        if let Some(list) = list_at(index, &key) {
            lists.push(list)?;
        }
    }
    Ok(lists)
}

// The list of the key, where there is one.
fn list_at<'a>(index: &'a CnfIndex, key: &Key) -> Option<&'a Counted<Entry>>
    ensures { option_copied result ≡ list_at index.now key.now }
{
    let place = position_of(index, key)?;
    index.lists.get(place)
}

fn position_of(index: &CnfIndex, key: &Key) -> Option<usize>
    ensures { result ≡ position (same_key key.now) (keys index.now.keys) }
{
    index.keys.get_index_of(key)
}

// What is left of the counts behind these lists.
fn mark_all<L: Ledger>(
    alloc: Global,
    negated: &[u8],
    lists: &[&Counted<Entry>],
    steps: &mut Steps<L>,
) -> Result<Vec<u8>, AllocError>
    ensures left { IfOk result (λ left. left.items ≡ mark_all negated.now (flat_map (λ l. l.now) lists.now)) }
    ensures cost { steps.new ≤ steps.old + sum_by (λ l. length l.now) lists.now }
{
    let mut left = Vec::with_capacity(alloc, negated.len())?;
    left.extend_from_slice(negated)?;
    for list in lists {
        mark_list(&mut left, list, steps);
    }
    Ok(left)
}

fn mark_list<L: Ledger>(left: &mut [u8], list: &Counted<Entry>, steps: &mut Steps<L>)
    ensures left { left.new ≡ mark_all left.old list.now }
    ensures cost { steps.new ≤ steps.old + length list.now }
{
    for place in 0..list.len() {
        let entry = list.at(place, steps);
        mark(left, entry);
    }
}

fn mark(left: &mut [u8], entry: Entry)
    ensures { left.new ≡ mark left.old entry }
{
    let place = usize::from(entry.expression) * MOST_CLAUSES + usize::from(entry.clause);
    if place < left.len() {
        left[place] = marked(entry.negated, left[place]);
    }
}

// What is left of a clause's count behind one of its predicates.
fn marked(negated: bool, count: u8) -> u8
    ensures { result ≡ marked negated count }
{
    if !negated || count == u8::MAX {
        u8::MAX
    } else {
        count.saturating_sub(1)
    }
}

// The numbers of the expressions of these entries and places that are true, some more than once.
fn numbers_of<L: Ledger>(
    alloc: Global,
    lists: &[&Counted<Entry>],
    zeros: &Counted<u32>,
    left: &[u8],
    steps: &mut Steps<L>,
) -> Result<Vec<u32>, AllocError>
    ensures numbers { IfOk result (λ numbers. numbers.items ≡ filter_map (number_left left.now) (map (λ e. e.expression) (flat_map (λ l. l.now) lists.now) ++ zeros.now)) }
    ensures cost { steps.new ≤ steps.old + (sum_by (λ l. length l.now) lists.now + length zeros.now) }
{
    let mut numbers = Vec::new(alloc);
    for list in lists {
        push_listed(&mut numbers, list, left, steps)?;
    }
    push_zeros(&mut numbers, zeros, left, steps)?;
    Ok(numbers)
}

fn push_listed<L: Ledger>(
    numbers: &mut Vec<u32>,
    list: &Counted<Entry>,
    left: &[u8],
    steps: &mut Steps<L>,
) -> Result<(), AllocError>
    ensures numbers { OnOk result (numbers.new.items ≡ numbers.old.items ++ filter_map (number_left left.now) (map (λ e. e.expression) list.now)) }
    ensures cost { steps.new ≤ steps.old + length list.now }
{
    for place in 0..list.len() {
        let entry = list.at(place, steps);
        push_some(numbers, number_left(left, entry.expression as u32))?;
    }
    Ok(())
}

fn push_zeros<L: Ledger>(
    numbers: &mut Vec<u32>,
    zeros: &Counted<u32>,
    left: &[u8],
    steps: &mut Steps<L>,
) -> Result<(), AllocError>
    ensures numbers { OnOk result (numbers.new.items ≡ numbers.old.items ++ filter_map (number_left left.now) zeros.now) }
    ensures cost { steps.new ≤ steps.old + length zeros.now }
{
    for i in 0..zeros.len() {
        let place = zeros.at(i, steps);
        push_some(numbers, number_left(left, place))?;
    }
    Ok(())
}

// The number of the expression at the place, where something is left of each of its clauses' counts.
fn number_left(left: &[u8], place: u32) -> Option<u32>
    ensures { result ≡ number_left left.now place }
{
    if is_left(left, place) {
        place.checked_add(1)
    } else {
        None
    }
}

fn is_left(left: &[u8], place: u32) -> bool
    ensures { result ≡ is_left left.now place }
{
    let first = place as usize * MOST_CLAUSES;
    if first + MOST_CLAUSES > left.len() {
        return false;
    }
    are_above(&left[first..first + MOST_CLAUSES])
}

// Whether something is left of each count.
fn are_above(counts: &[u8]) -> bool
    ensures { result ≡ list_all (nat_lt 0) counts.now }
{
    counts.iter().all(|count| is_above(*count))
}

fn is_above(count: u8) -> bool
    ensures { result ≡ nat_lt 0 count }
{
    count > 0
}

// Appends the number, where there is one.
fn push_some(numbers: &mut Vec<u32>, number: Option<u32>) -> Result<(), AllocError>
    ensures { OnOk result (numbers.new.items ≡ numbers.old.items ++ cons_option number []) }
{
    if let Some(number) = number {
        numbers.push(number)?;
    }
    Ok(())
}
