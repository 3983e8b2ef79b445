//! The conjunctions whose marks reach the size, taken in rising order.
ghost use Rattle.std.specs.Prelude.{◌≡◌, ◌≤◌, ◌<◌, ◌+◌, ◌*◌, ◌++◌, ◌∷◌, ◌==◌, ◌||◌, ◌&&◌, [], ℕ, All, List, if◌then◌else◌, length, slice_index, sum_by};
ghost use Rattle.std.specs.Int.{bit_at};
ghost use Rattle.postings.specs.declared.entry.Entry.{Entry};
ghost use Rattle.postings.specs.Packed.{is_marked};
ghost use Rattle.conj_match.specs.Bits.{AreSet};
ghost use Rattle.conj_match.specs.Matching.{lists_at};
ghost use Rattle.conj_match.specs.Tally.{AreTaken, all_in, is_hit};

use crate::bits::set_bit;
use postings::Postings;
use rtb_base::Steps;
use std::simd::prelude::*;
use std::sync::ledger::Ledger;

/// The mark of a number that no entry has.
pub(crate) const BLANK: u8 = 128;

/// Sets the bits of the numbers that are marked as matches, 64 at a time. It takes time for each mark.
pub(crate) fn sweep(marks: &[u8], k: u8, hits: &mut [u64])
    requires few { k < 128 }
    requires len { length marks.now ≡ 64 * length hits.old }
    ensures len { length hits.new ≡ length hits.old }
    ensures hits { AreSet (λ i. is_hit k (slice_index marks.now i)) hits.old hits.new }
{
    for place in 0..marks.len() / 64 {
        hits[place] |= hits_in(&marks[64 * place..], k);
    }
}

// A bit for each of the first 64 marks, which is set where it is that of a match.
fn hits_in(marks: &[u8], k: u8) -> u64
    requires few { k < 128 }
    requires len { 64 ≤ length marks.now }
    ensures { (i : ℕ) → i < 64 → bit_at result i ≡ (if is_hit k (slice_index marks.now i) then 1 else 0) }
{
    !u8x64::from_slice(marks)
        .simd_lt(u8x64::splat(BLANK + k))
        .to_bitmask()
}

/// Makes the marks of the chosen lists' entries blank again, and sets the bits of the matches among them.
/// It takes time for each entry.
pub(crate) fn take_lists<L: Ledger>(
    marks: &mut [u8],
    hits: &mut [u64],
    lists: &[Postings],
    chosen: &[usize],
    k: u8,
    steps: &mut Steps<L>,
)
    requires some { 1 ≤ k }
    requires few { k < 128 }
    requires within { All (λ n. n < length lists.now) chosen.now }
    requires len { length marks.old ≡ 64 * length hits.old }
    ensures marks_len { length marks.new ≡ length marks.old }
    ensures hits_len { length hits.new ≡ length hits.old }
    ensures taken { AreTaken k marks.old hits.old (all_in (lists_at lists.now chosen.now)) marks.new hits.new }
    ensures cost { steps.new ≤ steps.old + sum_by length (lists_at lists.now chosen.now) }
{
    for place in chosen {
        take_list(marks, hits, &lists[*place], k, steps);
    }
}

// Takes the entries of one list.
fn take_list<L: Ledger>(
    marks: &mut [u8],
    hits: &mut [u64],
    list: &Postings,
    k: u8,
    steps: &mut Steps<L>,
)
    requires some { 1 ≤ k }
    requires few { k < 128 }
    requires len { length marks.old ≡ 64 * length hits.old }
    ensures marks_len { length marks.new ≡ length marks.old }
    ensures hits_len { length hits.new ≡ length hits.old }
    ensures taken { (first : List ℕ) (found : List ℕ) (before : List Entry) → length first ≡ length marks.old → AreTaken k first found before marks.old hits.old → AreTaken k first found (before ++ list.now) marks.new hits.new }
    ensures cost { steps.new ≤ steps.old + length list.now }
{
    let entries = list.read(steps);
    for id in entries.ids {
        take_mark(marks, hits, *id as usize, k);
    }
}

// Makes the mark of the number blank again, where it has one, and sets its bit where it is that of a match.
#[inline(always)]
fn take_mark(marks: &mut [u8], hits: &mut [u64], number: usize, k: u8)
    requires some { 1 ≤ k }
    requires few { k < 128 }
    requires len { length marks.old ≡ 64 * length hits.old }
    ensures marks_len { length marks.new ≡ length marks.old }
    ensures hits_len { length hits.new ≡ length hits.old }
    ensures marks { (i : ℕ) → i < length marks.old → slice_index marks.new i ≡ (if i == number then 128 else slice_index marks.old i) }
    ensures hits { AreSet (λ i. (i == number) && is_hit k (slice_index marks.old number)) hits.old hits.new }
{
    if number < marks.len() {
        take_at(marks, hits, number, k);
    }
}

// The same, of a number that has a mark.
#[inline(always)]
fn take_at(marks: &mut [u8], hits: &mut [u64], number: usize, k: u8)
    requires there { number < length marks.old }
    requires few { k < 128 }
    requires len { length marks.old ≡ 64 * length hits.old }
    ensures marks_len { length marks.new ≡ length marks.old }
    ensures hits_len { length hits.new ≡ length hits.old }
    ensures marks { (i : ℕ) → i < length marks.old → slice_index marks.new i ≡ (if i == number then 128 else slice_index marks.old i) }
    ensures hits { AreSet (λ i. (i == number) && is_hit k (slice_index marks.old number)) hits.old hits.new }
{
    let mark = marks[number];
    marks[number] = BLANK;
    if is_hit(mark, k) {
        set_bit(hits, number);
    }
}

// Whether the mark is that of a match.
#[inline(always)]
fn is_hit(mark: u8, k: u8) -> bool
    requires { k < 128 }
    ensures { result ≡ is_hit k mark }
{
    BLANK + k <= mark
}
