//! The conjunctions that a run of matches found, and the marks that count them.
ghost use Rattle.std.specs.Prelude.{◌≡◌, ◌==◌, ◌≤◌, ◌<◌, ◌+◌, ◌*◌, [], ℕ, All, false, length, sum_by, OnOk};
ghost use Rattle.postings.specs.Packed.{is_marked};
ghost use Rattle.conj_match.specs.Bits.{AreSet, AreThose};
ghost use Rattle.conj_match.specs.Matching.{cost_of, is_match, lists_at, reading_cost};
ghost use Rattle.conj_match.specs.Skip.{SkipsFrom};
ghost use Rattle.conj_match.specs.Tally.{AreBlank};
ghost use Rattle.std.specs.List.{list_any};

use crate::bits::{push_numbers, set_bits};
use crate::lengths::entries_in;
use crate::marking::mark_lists;
use crate::merging::merge_lists;
use crate::skipping::{skip_from, skip_lists};
use crate::taking::{BLANK, sweep, take_lists};
use postings::Postings;
use rtb_base::Steps;
use std::alloc::{AllocError, Global};
use std::marker::Model;
use std::sync::ledger::Ledger;

// One more than the greatest number of a conjunction.
const NUMBERS: usize = 1 << 32;

// Counting serves fewer lists than this: a mark has seven bits for their number.
pub(crate) const FEW: usize = 128;

/// The conjunctions that were found by a run of matches, and the marks in which they are counted. It is
/// kept from run to run, so that its memory is taken once.
///
/// Contracts see the bits of what was found, 64 to a word, the lowest first.
#[derive(Drop)]
pub struct Tally {
    // A mark for each number: 128 and how many lists ask for it, without the 128 where one excludes it.
    marks: Vec<u8>,
    hits: Vec<u64>,
}

impl Model for Tally {
    ghost use Rattle.std.specs.Prelude.{ℕ, List, ◌≡◌, ◌≤◌, ◌*◌, ◌^◌, length};
    ghost use Rattle.conj_match.specs.Tally.{AreBlank};

    ghost Value = { List ℕ };

    ghost view = { λ t. t.hits.items };

    ghost invariant = { λ t. (length t.marks.items ≡ 64 * length t.hits.items) × (length t.hits.items ≤ 2 ^ 26) × AreBlank t.marks.items };
}

impl Tally {
    /// Room for no number. It takes no memory.
    pub fn new(alloc: Global) -> Tally
        ensures { result ≡ [] }
    {
        Tally {
            marks: Vec::new(alloc),
            hits: Vec::new(alloc),
        }
    }

    /// Begins a run: nothing is found, and there is room for the numbers below `numbers`.
    ///
    /// More numbers than conjunctions can have, which are those below 2^32, are refused.
    pub fn begin(&mut self, alloc: Global, numbers: usize) -> Result<(), AllocError>
        ensures room { OnOk result (numbers ≤ 64 * length self.new) }
        ensures none { OnOk result ((i : ℕ) → is_marked self.new i ≡ false) }
    {
        if numbers > NUMBERS {
            return Err(AllocError);
        }
        let words = numbers.div_ceil(64);
        if words <= self.hits.len() {
            self.hits.as_mut_slice().fill(0);
            return Ok(());
        }
        let marks = vec![in alloc; BLANK; 64 * words]?;
        let hits = vec![in alloc; 0u64; words]?;
        self.marks = marks;
        self.hits = hits;
        Ok(())
    }

    /// Adds the conjunctions that match: those that no chosen list has a negated entry of, and of which
    /// at least `k` chosen lists have another entry. Those for which there is no room are left out.
    ///
    /// `chosen` has places in `lists`, and a list counts as often as it is chosen. One step is one entry
    /// read.
    pub fn add_matches<L: Ledger>(
        &mut self,
        alloc: Global,
        lists: &[Postings],
        chosen: &[usize],
        k: u32,
        steps: &mut Steps<L>,
    ) -> Result<(), AllocError>
        requires some { 1 ≤ k }
        requires within { All (λ n. n < length lists.now) chosen.now }
        ensures len { length self.new ≡ length self.old }
        ensures found { OnOk result (AreSet (is_match (lists_at lists.now chosen.now) k) self.old self.new) }
        ensures cost { steps.new ≤ steps.old + cost_of (lists_at lists.now chosen.now) k }
    {
        if chosen.len() < k as usize {
            return Ok(());
        }
        match skip_from(lists, chosen, k) {
            Some(first) => self.skip(alloc, lists, chosen, k, first, steps),
            None => self.read(alloc, lists, chosen, k, steps),
        }
    }

    // Adds the conjunctions that match, by skips from the shortest list.
    fn skip<L: Ledger>(
        &mut self,
        alloc: Global,
        lists: &[Postings],
        chosen: &[usize],
        k: u32,
        first: usize,
        steps: &mut Steps<L>,
    ) -> Result<(), AllocError>
        requires some { 1 ≤ k }
        requires within { All (λ n. n < length lists.now) chosen.now }
        requires skips { SkipsFrom lists.now chosen.now k first }
        ensures len { length self.new ≡ length self.old }
        ensures found { OnOk result (AreSet (is_match (lists_at lists.now chosen.now) k) self.old self.new) }
        ensures cost { steps.new ≤ steps.old + cost_of (lists_at lists.now chosen.now) k }
    {
        let ids = skip_lists(alloc, lists, chosen, k, first, steps)?;
        self.set(ids.as_slice());
        Ok(())
    }

    // Adds the conjunctions that match, from all entries of the lists.
    fn read<L: Ledger>(
        &mut self,
        alloc: Global,
        lists: &[Postings],
        chosen: &[usize],
        k: u32,
        steps: &mut Steps<L>,
    ) -> Result<(), AllocError>
        requires some { 1 ≤ k }
        requires enough { k ≤ length chosen.now }
        requires within { All (λ n. n < length lists.now) chosen.now }
        ensures len { length self.new ≡ length self.old }
        ensures found { OnOk result (AreSet (is_match (lists_at lists.now chosen.now) k) self.old self.new) }
        ensures cost { steps.new ≤ steps.old + reading_cost (lists_at lists.now chosen.now) }
    {
        if chosen.len() < FEW {
            self.count(lists, chosen, k as u8, steps);
            return Ok(());
        }
        self.merge(alloc, lists, chosen, k, steps)
    }

    // Adds the conjunctions that match, by merging.
    fn merge<L: Ledger>(
        &mut self,
        alloc: Global,
        lists: &[Postings],
        chosen: &[usize],
        k: u32,
        steps: &mut Steps<L>,
    ) -> Result<(), AllocError>
        requires some { 1 ≤ k }
        requires within { All (λ n. n < length lists.now) chosen.now }
        ensures len { length self.new ≡ length self.old }
        ensures found { OnOk result (AreSet (is_match (lists_at lists.now chosen.now) k) self.old self.new) }
        ensures cost { steps.new ≤ steps.old + (sum_by length (lists_at lists.now chosen.now) + length chosen.now) }
    {
        let ids = merge_lists(alloc, lists, chosen, k, steps)?;
        self.set(ids.as_slice());
        Ok(())
    }

    // Adds these conjunctions.
    fn set(&mut self, ids: &[u32])
        ensures len { length self.new ≡ length self.old }
        ensures set { AreSet (λ i. list_any (λ n. i == n) ids.now) self.old self.new }
    {
        set_bits(self.hits.as_mut_slice(), ids);
    }

    // Adds the conjunctions that match, by counting.
    pub(crate) fn count<L: Ledger>(
        &mut self,
        lists: &[Postings],
        chosen: &[usize],
        k: u8,
        steps: &mut Steps<L>,
    )
        requires some { 1 ≤ k }
        requires few { length chosen.now < 128 }
        requires enough { k ≤ length chosen.now }
        requires within { All (λ n. n < length lists.now) chosen.now }
        ensures len { length self.new ≡ length self.old }
        ensures found { AreSet (is_match (lists_at lists.now chosen.now) k) self.old self.new }
        ensures cost { steps.new ≤ steps.old + 2 * sum_by length (lists_at lists.now chosen.now) }
    {
        count_lists(
            self.marks.as_mut_slice(),
            self.hits.as_mut_slice(),
            lists,
            chosen,
            k,
            steps,
        );
    }

    /// Appends the conjunctions that were found, in rising order.
    pub fn push_found(&self, ids: &mut Vec<u32>) -> Result<(), AllocError>
        requires { length ids.old.items ≡ 0 }
        ensures { OnOk result (AreThose (is_marked self.now) (64 * length self.now) ids.new.items) }
    {
        push_numbers(self.hits.as_slice(), ids)
    }
}

// Sets the bits of the conjunctions that match. The marks are blank before and after.
fn count_lists<L: Ledger>(
    marks: &mut [u8],
    hits: &mut [u64],
    lists: &[Postings],
    chosen: &[usize],
    k: u8,
    steps: &mut Steps<L>,
)
    requires some { 1 ≤ k }
    requires few { length chosen.now < 128 }
    requires enough { k ≤ length chosen.now }
    requires within { All (λ n. n < length lists.now) chosen.now }
    requires len { length marks.old ≡ 64 * length hits.old }
    requires blank { AreBlank marks.old }
    ensures len { length hits.new ≡ length hits.old }
    ensures marks_len { length marks.new ≡ length marks.old }
    ensures blank { AreBlank marks.new }
    ensures found { AreSet (is_match (lists_at lists.now chosen.now) k) hits.old hits.new }
    ensures cost { steps.new ≤ steps.old + 2 * sum_by length (lists_at lists.now chosen.now) }
{
    mark_lists(marks, lists, chosen, steps);
    if is_dense(marks.len(), lists, chosen) {
        sweep(marks, k, hits);
        marks.fill(BLANK);
    } else {
        take_lists(marks, hits, lists, chosen, k, steps);
    }
}

// Whether so many of the numbers have entries that going over all marks takes less than reading the
// entries again.
fn is_dense(marks: usize, lists: &[Postings], chosen: &[usize]) -> bool
    requires { All (λ n. n < length lists.now) chosen.now }
{
    (marks / 16) as u128 <= entries_in(lists, chosen)
}
