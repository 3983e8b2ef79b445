//! Posting lists: sorted lists of the conjunctions that name a value.
//!
//! `specs/Order.antt` has the order of the entries, and `specs/Packed.antt` how they are kept. A list
//! is read one entry at a time or all at once, and each entry that is read is counted, so that the cost
//! of a match can be part of its contract.
#![tactic(auto)]

ghost use Rattle.std.specs.Prelude.{◌≡◌, ◌≤◌, ◌<◌, ◌+◌, ◌*◌, ◌↔◌, ℕ, length, IfOk, IfErr, Err, MatchOption, slice_get};
ghost use Rattle.postings.specs.Order.{IsRising, IsFirstBelow, IsFirstEqual, explains, rank_of};
ghost use Rattle.postings.specs.Packed.{unpack};
ghost use Rattle.postings.specs.declared.fault.BuildFault.TheVariants.{NotSorted, Repeated, Memory as memory};

use rtb_base::Steps;
use std::alloc::Global;
use std::cmp::Ordering;
use std::marker::Model;
use std::sync::ledger::Ledger;

mod entry;
mod fault;
mod packing;

pub use entry::Entry;
pub use fault::BuildFault;
pub use packing::Packed;
use packing::{count, ids_of, is_marked, marks_of};

/// A posting list: entries that rise strictly. Contracts see it as the list of its entries.
///
/// The numbers stand in one list, and whether each is negated in one bit of a word for each 64.
#[derive(Drop)]
pub struct Postings {
    ids: Vec<u32>,
    marks: Vec<u64>,
}

impl Model for Postings {
    ghost use Rattle.std.specs.Prelude.{List, ◌≤◌, ◌*◌, length};
    ghost use Rattle.postings.specs.declared.entry.Entry.{Entry};
    ghost use Rattle.postings.specs.Order.{IsRising};
    ghost use Rattle.postings.specs.Packed.{unpack};

    ghost Value = { List Entry };

    ghost view = { λ p. unpack p.ids.items p.marks.items };

    ghost invariant = { λ p. IsRising (unpack p.ids.items p.marks.items) × (length p.ids.items ≤ 64 * length p.marks.items) };
}

impl Postings {
    /// The posting list of these entries.
    ///
    /// Memory is wanted only for a list that rises.
    pub fn build(alloc: Global, entries: Vec<Entry>) -> Result<Postings, BuildFault>
        ensures value { IfOk result (λ p. p ≡ entries.items) }
        ensures rising { IsRising entries.items ↔ IfErr result (λ e. e ≡ memory) }
        ensures not_sorted { (n : ℕ) → (result ≡ Err (NotSorted n)) ↔ IsFirstBelow entries.items n }
        ensures repeated { (n : ℕ) → (result ≡ Err (Repeated n)) ↔ IsFirstEqual entries.items n }
    {
        match first_fault(entries.as_slice()) {
            Some(fault) => Err(fault),
            None => pack(alloc, entries.as_slice()),
        }
    }

    /// How many entries it has.
    pub fn len(&self) -> usize
        ensures value { result ≡ length self.now }
        ensures rising { IsRising self.now }
    {
        self.ids.len()
    }

    /// The entry at the place, counted from 0, or none at and past the end.
    ///
    /// One step is one entry read.
    pub fn at<L: Ledger>(&self, place: usize, steps: &mut Steps<L>) -> Option<Entry>
        ensures value { result ≡ slice_get self.now place }
        ensures rising { IsRising self.now }
        ensures read { place < length self.now → steps.new ≡ steps.old + 1 }
        ensures past { length self.now ≤ place → steps.new ≡ steps.old }
    {
        let id = *self.ids.get(place)?;
        steps.tick();
        Some(Entry {
            id,
            negated: is_marked(self.marks.as_slice(), place),
        })
    }

    /// All entries at once, as they are kept.
    ///
    /// One step is one entry read.
    pub fn read<L: Ledger>(&self, steps: &mut Steps<L>) -> Packed<'_>
        ensures value { unpack result.ids.now result.negated.now ≡ self.now }
        ensures room { length result.ids.now ≤ 64 * length result.negated.now }
        ensures rising { IsRising self.now }
        ensures read { steps.new ≡ steps.old + length self.now }
    {
        count(self.ids.len(), steps);
        Packed {
            ids: self.ids.as_slice(),
            negated: self.marks.as_slice(),
        }
    }
}

// The posting list of entries that rise.
fn pack(alloc: Global, entries: &[Entry]) -> Result<Postings, BuildFault>
    requires { IsRising entries.now }
    ensures value { IfOk result (λ p. p ≡ entries.now) }
    ensures fault { IfErr result (λ e. e ≡ memory) }
{
    let ids = ids_of(alloc, entries)?;
    let marks = marks_of(alloc, entries)?;
    Ok(Postings { ids, marks })
}

// The first entry that is not above the one before it.
fn first_fault(entries: &[Entry]) -> Option<BuildFault>
    ensures { MatchOption result (IsRising entries.now) (explains entries.now) }
{
    for at in 1..entries.len() {
        match rank(&entries[at]).cmp(&rank(&entries[at - 1])) {
            Ordering::Less => return Some(BuildFault::NotSorted { at }),
            Ordering::Equal => return Some(BuildFault::Repeated { at }),
            Ordering::Greater => {}
        }
    }
    None
}

// The place of an entry in the order of entries.
fn rank(entry: &Entry) -> u64
    ensures { result ≡ rank_of entry.now }
{
    if entry.negated {
        2 * entry.id as u64
    } else {
        2 * entry.id as u64 + 1
    }
}
