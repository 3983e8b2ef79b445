//! The conjunctions that match, by a cursor on each chosen list.
ghost use Rattle.std.specs.Prelude.{◌≡◌, ◌≤◌, ◌<◌, ◌+◌, ◌-◌, ℕ, All, IfOk, if◌then◌else◌, count_by, length, map, min, sum_by, nat_le, not, true, ◌&&◌, ◌||◌};
ghost use Rattle.std.specs.List.{list_any};
ghost use Rattle.conj_match.specs.Matching.{IsAnswer, lists_at};
ghost use Rattle.conj_match.specs.Place.{head_of, number_of};
ghost use Rattle.conj_match.specs.Merge.{ArePassed, Passed, Stands, IsLeast, entries_of, left_in, lesser, current_id, shows_negated, shows_plain};

use crate::Cursor;
use crate::cursor::PAST;
use postings::Postings;
use rtb_base::Steps;
use std::alloc::{AllocError, Global};
use std::sync::ledger::Ledger;

/// The conjunctions that match, by a cursor on each chosen list: each turn looks at the least number
/// that a cursor stands on. It takes time for each entry and each list, however far the numbers are
/// apart.
pub(crate) fn merge_lists<L: Ledger>(
    alloc: Global,
    lists: &[Postings],
    chosen: &[usize],
    k: u32,
    steps: &mut Steps<L>,
) -> Result<Vec<u32>, AllocError>
    requires some { 1 ≤ k }
    requires within { All (λ n. n < length lists.now) chosen.now }
    ensures answer { IfOk result (λ ids. IsAnswer (lists_at lists.now chosen.now) k ids.items) }
    ensures cost { steps.new ≤ steps.old + (sum_by length (lists_at lists.now chosen.now) + length chosen.now) }
{
    let mut ids = Vec::new(alloc);
    let mut cursors = load_all(alloc, lists, chosen, steps)?;
    let mut next = least(cursors.as_slice());
    while let Some(id) = next {
        let turn = pass_all(&mut cursors, id, steps);
        let least = number_of(turn.least);
        if turn.is_match(k) {
            ids.push(id)?;
        }
        next = least;
    }
    Ok(ids)
}

// A cursor for each chosen list, on its first entry.
fn load_all<'a, L: Ledger>(
    alloc: Global,
    lists: &'a [Postings],
    chosen: &[usize],
    steps: &mut Steps<L>,
) -> Result<Vec<Cursor<'a>>, AllocError>
    requires { All (λ n. n < length lists.now) chosen.now }
    ensures lists { IfOk result (λ cursors. map entries_of cursors.items ≡ lists_at lists.now chosen.now) }
    ensures stand { IfOk result (λ cursors. All (Stands 0) cursors.items) }
    ensures cost { steps.new ≤ steps.old + length chosen.now }
{
    let mut cursors = Vec::with_capacity(alloc, chosen.len())?;
    for place in chosen {
        let mut cursor = Cursor::start(&lists[*place]);
        cursor.load(steps);
        if cursors.push(cursor).is_err() {
            return Err(AllocError);
        }
    }
    Ok(cursors)
}

// The least number that a cursor stands on, or none where all are past the end.
fn least(cursors: &[Cursor]) -> Option<u32>
    ensures { IsLeast cursors.now result }
{
    let mut least = None;
    for cursor in cursors {
        least = lesser(least, cursor.current_id());
    }
    least
}

// The lesser of two numbers, where there are any.
fn lesser(a: Option<u32>, b: Option<u32>) -> Option<u32>
    ensures { result ≡ lesser a b }
{
    match (a, b) {
        (Some(a), Some(b)) => Some(a.min(b)),
        (None, b) => b,
        (a, None) => a,
    }
}

// The number that a head stands for.
#[inline(always)]
fn number_of(head: u64) -> Option<u32>
    ensures { result ≡ number_of head }
{
    if head < PAST { Some(head as u32) } else { None }
}

// What the cursors showed of a number, and the least head after it.
#[derive(Drop)]
struct Turn {
    is_excluded: bool,
    plain: usize,
    least: u64,
}

impl Turn {
    // Whether the number is a match.
    fn is_match(&self, k: u32) -> bool
        ensures { result ≡ (not self.now.is_excluded && nat_le k self.now.plain) }
    {
        !self.is_excluded && k as usize <= self.plain
    }

    // Counts what the cursor shows of the number, and moves the cursor past it.
    #[inline(always)]
    fn visit<L: Ledger>(&mut self, cursor: &mut Cursor, id: u32, steps: &mut Steps<L>)
        requires loaded { cursor.old.loaded ≡ true }
        requires room { self.old.plain < usize.MAX }
        ensures excluded { self.new.is_excluded ≡ (self.old.is_excluded || shows_negated id cursor.old) }
        ensures plain { self.new.plain ≡ self.old.plain + (if shows_plain id cursor.old then 1 else 0) }
        ensures least { self.new.least ≡ min self.old.least (head_of cursor.new) }
        ensures number { number_of (head_of cursor.new) ≡ current_id cursor.new }
        ensures passed { Passed id cursor.old cursor.new }
        ensures cost { steps.new ≤ steps.old + (cursor.new.place - cursor.old.place) }
    {
        if cursor.reaches(id) {
            self.count(cursor, id);
            cursor.pass(id, steps);
        }
        self.least = self.least.min(cursor.head());
    }

    // Counts what the cursor shows of the number.
    #[inline(always)]
    fn count(&mut self, cursor: &Cursor, id: u32)
        requires room { self.old.plain < usize.MAX }
        ensures { self.new ≡ record self.old { is_excluded = self.old.is_excluded || shows_negated id cursor.now; plain = self.old.plain + (if shows_plain id cursor.now then 1 else 0) } }
    {
        self.is_excluded |= cursor.shows_negated(id);
        self.plain += usize::from(cursor.shows_plain(id));
    }
}

// Counts what the cursors show of the number, and moves each past it.
fn pass_all<L: Ledger>(cursors: &mut Vec<Cursor>, id: u32, steps: &mut Steps<L>) -> Turn
    requires { (b : ℕ) × All (Stands b) cursors.old.items }
    ensures excluded { result.is_excluded ≡ list_any (shows_negated id) cursors.old.items }
    ensures plain { result.plain ≡ count_by (shows_plain id) cursors.old.items }
    ensures least { IsLeast cursors.new.items (number_of result.least) }
    ensures passed { ArePassed id cursors.old.items cursors.new.items }
    ensures cost { steps.new + left_in cursors.new.items ≤ steps.old + left_in cursors.old.items }
{
    let mut turn = Turn {
        is_excluded: false,
        plain: 0,
        least: PAST,
    };
    for i in 0..cursors.len() {
        turn.visit(&mut cursors[i], id, steps);
    }
    turn
}
