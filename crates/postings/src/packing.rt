//! The numbers and the marks of entries, packed.
ghost use Rattle.std.specs.Prelude.{◌≡◌, ◌≢◌, ◌≤◌, ◌<◌, ◌+◌, ◌*◌, ◌/◌, ℕ, false, map, length, IfOk};
ghost use Rattle.postings.specs.Packed.{AreMarked, id_of, is_marked};

use crate::entry::Entry;
use rtb_base::Steps;
use std::alloc::{AllocError, Global};
use std::sync::ledger::Ledger;

/// The entries of a posting list as it keeps them.
#[derive(Clone, Copy)]
pub struct Packed<'a> {
    /// The conjunctions' numbers.
    pub ids: &'a [u32],
    /// A bit for each entry, 64 to a word and the lowest first, which is set where it is negated.
    pub negated: &'a [u64],
}

/// Counts a step for each entry. It takes no time.
#[inline(always)]
pub(crate) fn count<L: Ledger>(entries: usize, steps: &mut Steps<L>)
    ensures { steps.new ≡ steps.old + entries }
{
    for _ in 0..entries {
        steps.tick();
    }
}

/// The numbers of the entries.
pub(crate) fn ids_of(alloc: Global, entries: &[Entry]) -> Result<Vec<u32>, AllocError>
    ensures { IfOk result (λ ids. ids.items ≡ map id_of entries.now) }
{
    let mut ids = Vec::with_capacity(alloc, entries.len())?;
    for entry in entries {
        ids.push(entry.id)?;
    }
    Ok(ids)
}

/// The marks of the entries that are negated.
pub(crate) fn marks_of(alloc: Global, entries: &[Entry]) -> Result<Vec<u64>, AllocError>
    ensures len { IfOk result (λ marks. length entries.now ≤ 64 * length marks.items) }
    ensures marked { IfOk result (λ marks. AreMarked marks.items entries.now) }
{
    let mut marks = vec![in alloc; 0u64; entries.len().div_ceil(64)]?;
    mark_all(marks.as_mut_slice(), entries);
    Ok(marks)
}

// Marks the places of the entries that are negated.
fn mark_all(marks: &mut [u64], entries: &[Entry])
    requires room { length entries.now ≤ 64 * length marks.old }
    requires blank { (i : ℕ) → is_marked marks.old i ≡ false }
    ensures len { length marks.new ≡ length marks.old }
    ensures marked { AreMarked marks.new entries.now }
{
    for (place, entry) in entries.iter().enumerate() {
        set_mark(marks, place, entry.negated);
    }
}

// Marks the place, where the entry there is negated.
fn set_mark(marks: &mut [u64], place: usize, negated: bool)
    requires { place < 64 * length marks.old }
    ensures len { length marks.new ≡ length marks.old }
    ensures here { is_marked marks.old place ≡ false → is_marked marks.new place ≡ negated }
    ensures others { (i : ℕ) → i ≢ place → is_marked marks.new i ≡ is_marked marks.old i }
{
    if negated {
        marks[place / 64] |= 1 << (place % 64);
    }
}

/// Whether the place is marked.
#[inline(always)]
pub(crate) fn is_marked(marks: &[u64], place: usize) -> bool
    requires { place < 64 * length marks.now }
    ensures { result ≡ is_marked marks.now place }
{
    (marks[place / 64] >> (place % 64)) & 1 == 1
}
