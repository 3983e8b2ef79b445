//! The entries of lists marked by number, as a count of each.
ghost use Rattle.std.specs.Prelude.{◌≡◌, ◌≤◌, ◌<◌, ◌+◌, ◌*◌, ◌%◌, ◌++◌, ◌==◌, [], ℕ, All, List, if◌then◌else◌, length, slice_index, sum_by};
ghost use Rattle.postings.specs.Order.{IsRising};
ghost use Rattle.postings.specs.Packed.{unpack};
ghost use Rattle.postings.specs.declared.entry.Entry.{Entry};
ghost use Rattle.conj_match.specs.Matching.{lists_at};
ghost use Rattle.conj_match.specs.Strikes.{AreCounted, AreStruck};
ghost use Rattle.conj_match.specs.Tally.{AreTallied, all_in};

use postings::Postings;
use rtb_base::Steps;
use std::sync::ledger::Ledger;

/// Marks the entries of the chosen lists, as far as there is a mark for their number.
pub(crate) fn mark_lists<L: Ledger>(
    marks: &mut [u8],
    lists: &[Postings],
    chosen: &[usize],
    steps: &mut Steps<L>,
)
    requires { All (λ n. n < length lists.now) chosen.now }
    ensures len { length marks.new ≡ length marks.old }
    ensures rising { All IsRising (lists_at lists.now chosen.now) }
    ensures marks { AreTallied marks.old [] → AreTallied marks.new (all_in (lists_at lists.now chosen.now)) }
    ensures cost { steps.new ≤ steps.old + sum_by length (lists_at lists.now chosen.now) }
{
    for place in chosen {
        mark_list(marks, &lists[*place], steps);
    }
}

// Marks the entries of the list: each is counted as if it were plain, and then the negated ones are struck. So
// most entries take no look at their sign.
fn mark_list<L: Ledger>(marks: &mut [u8], list: &Postings, steps: &mut Steps<L>)
    ensures len { length marks.new ≡ length marks.old }
    ensures rising { IsRising list.now }
    ensures marks { (before : List Entry) → AreTallied marks.old before → AreTallied marks.new (before ++ list.now) }
    ensures cost { steps.new ≤ steps.old + length list.now }
{
    let entries = list.read(steps);
    count_all(marks, entries.ids);
    strike_all(marks, entries.ids, entries.negated);
}

// Counts each of the numbers.
fn count_all(marks: &mut [u8], ids: &[u32])
    ensures len { length marks.new ≡ length marks.old }
    ensures counts { AreCounted marks.old ids.now marks.new }
{
    for id in ids {
        count_one(marks, *id as usize);
    }
}

// Counts the number, where it has a mark.
#[inline(always)]
fn count_one(marks: &mut [u8], number: usize)
    ensures len { length marks.new ≡ length marks.old }
    ensures counts { (i : ℕ) → i < length marks.old → slice_index marks.new i ≡ (if i == number then (slice_index marks.old i + 1) % 256 else slice_index marks.old i) }
{
    if number < marks.len() {
        marks[number] = marks[number].wrapping_add(1);
    }
}

// Strikes the negated ones of these entries, all of which were counted.
fn strike_all(marks: &mut [u8], ids: &[u32], negated: &[u64])
    requires room { length ids.now ≤ 64 * length negated.now }
    ensures len { length marks.new ≡ length marks.old }
    ensures struck { AreStruck marks.old (unpack ids.now negated.now) (length ids.now) marks.new }
{
    for place in 0..ids.len().div_ceil(64) {
        strike_word(marks, ids, negated, place);
    }
}

// Strikes those whose bits stand in one word.
#[inline(always)]
fn strike_word(marks: &mut [u8], ids: &[u32], negated: &[u64], place: usize)
    requires there { place < length negated.now }
    requires within { 64 * place < length ids.now }
    ensures len { length marks.new ≡ length marks.old }
    ensures struck { (first : List ℕ) → length first ≡ length marks.old → AreStruck first (unpack ids.now negated.now) (64 * place) marks.old → AreStruck first (unpack ids.now negated.now) (64 * (place + 1)) marks.new }
{
    let mut rest = negated[place];
    while rest != 0 {
        let bit = rest.trailing_zeros();
        strike_at(marks, ids, 64 * place + bit as usize);
        rest &= !(1 << bit);
    }
}

// Strikes the entry at the place, where there is one.
#[inline(always)]
fn strike_at(marks: &mut [u8], ids: &[u32], place: usize)
    ensures len { length marks.new ≡ length marks.old }
    ensures there { place < length ids.now → (i : ℕ) → i < length marks.old → slice_index marks.new i ≡ (if i == slice_index ids.now place then (slice_index marks.old i + 127) % 128 else slice_index marks.old i) }
    ensures past { length ids.now ≤ place → marks.new ≡ marks.old }
{
    if place < ids.len() {
        strike(marks, ids[place] as usize);
    }
}

// Takes the 128 of the number's mark away, and what its negated entry was counted as.
#[inline(always)]
fn strike(marks: &mut [u8], number: usize)
    ensures len { length marks.new ≡ length marks.old }
    ensures struck { (i : ℕ) → i < length marks.old → slice_index marks.new i ≡ (if i == number then (slice_index marks.old i + 127) % 128 else slice_index marks.old i) }
{
    if number < marks.len() {
        marks[number] = marks[number].wrapping_add(127) % 128;
    }
}
