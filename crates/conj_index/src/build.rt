//! The index built: the campaigns' conjunctions by size, and under each pair its posting list.
ghost use Rattle.std.specs.Prelude.{◌≡◌, ◌≤◌, ◌<◌, ◌+◌, ◌∷◌, [], ◌++◌, ◌^◌, ℕ, map, length, replicate, slice_get, Some, All, IfOk, OnOk};
ghost use Rattle.postings.specs.Order.{IsRising};
ghost use Rattle.target_expr.specs.Pairs.{pairs_of, sizes_of};
ghost use Rattle.conj_index.specs.declared.growing.Growing.{Growing};
ghost use Rattle.conj_index.specs.Campaigns.{AreKept, DoRise, conjunctions_in, expression_of};
ghost use Rattle.conj_index.specs.Content.{IsIndexOf, conjunctions_of};
ghost use Rattle.conj_index.specs.Growing.{AreGrown, HasZeroList, finish, greatest, lists_of, shift, zero_of};

use crate::builder::{Added, Builder};
use crate::fault::IndexFault;
use crate::growing::Growing;
use crate::index::Index;
use crate::key::Key;
use crate::part::Part;
use postings::Entry;
use rtb_base::Steps;
use rtb_num::List;
use std::alloc::{AllocError, Global};
use std::sync::ledger::Ledger;
use target_expr::Pair;

impl Index {
    /// The index of the campaigns that were added.
    ///
    /// One step is one pair of an attribute and a value that an expression names. Only want of memory
    /// is a fault.
    pub fn build<L: Ledger>(
        alloc: Global,
        builder: Builder<'_>,
        steps: &mut Steps<L>,
    ) -> Result<Index, IndexFault>
        ensures content { IfOk result (IsIndexOf builder.entry) }
        ensures cost { steps.new ≤ steps.old + length (pairs_of (expression_of builder.entry)) }
    {
        let added = builder.into_campaigns();
        let index = index_of(alloc, added.as_slice(), steps)?;
        Ok(index)
    }
}

// The index of these campaigns.
fn index_of<L: Ledger>(
    alloc: Global,
    added: &[Added],
    steps: &mut Steps<L>,
) -> Result<Index, AllocError>
    requires rising { DoRise added.now }
    requires few { conjunctions_in added.now ≤ 1000000 }
    ensures content { IfOk result (IsIndexOf added.now) }
    ensures cost { steps.new ≤ steps.old + length (pairs_of (expression_of added.now)) }
{
    let owners = all_owners(alloc, added)?;
    let sizes = all_sizes(alloc, added)?;
    let zeros = zero_list(alloc, sizes.as_slice())?;
    let mut growing = empty_parts(alloc, greatest(sizes.as_slice()) as usize + 1)?;
    enter_all(alloc, &mut growing, added, steps)?;
    push_zero_list(&mut growing, zeros)?;
    let parts = finish_all(alloc, growing)?;
    Ok(Index { owners, parts })
}

// The campaign of each conjunction.
fn all_owners(alloc: Global, added: &[Added]) -> Result<List<u32>, AllocError>
    ensures owners { IfOk result (λ owners. owners ≡ map (λ c. c.owner) (conjunctions_of added.now)) }
    ensures kept { IfOk result (λ _. AreKept added.now) }
{
    let mut owners = List::new(alloc);
    for campaign in added {
        push_times(
            &mut owners,
            campaign.number(),
            campaign.expr().conjunctions(),
        )?;
    }
    Ok(owners)
}

// Appends the number so many times.
fn push_times(owners: &mut List<u32>, number: u32, times: usize) -> Result<(), AllocError>
    ensures { OnOk result (owners.new ≡ owners.old ++ replicate times number) }
{
    for _ in 0..times {
        owners.push(number)?;
    }
    Ok(())
}

// The size of each conjunction.
fn all_sizes(alloc: Global, added: &[Added]) -> Result<Vec<u32>, AllocError>
    ensures { IfOk result (λ sizes. sizes.items ≡ sizes_of (expression_of added.now)) }
{
    let mut sizes = Vec::new(alloc);
    for campaign in added {
        sizes.extend_from_slice(campaign.expr().sizes()?.as_slice())?;
    }
    Ok(sizes)
}

// The greatest of the sizes.
fn greatest(sizes: &[u32]) -> u32
    ensures { result ≡ greatest sizes.now }
{
    let mut most = 0;
    for size in sizes {
        most = most.max(*size);
    }
    most
}

// A plain entry for each conjunction of size 0.
fn zero_list(alloc: Global, sizes: &[u32]) -> Result<Vec<Entry>, AllocError>
    requires { length sizes.now ≤ 1000000 }
    ensures { IfOk result (λ entries. entries.items ≡ zero_of sizes.now) }
{
    let mut entries = Vec::new(alloc);
    for (id, size) in sizes.iter().enumerate() {
        if *size == 0 {
            entries.push(Entry {
                id: id as u32,
                negated: false,
            })?;
        }
    }
    Ok(entries)
}

// So many empty parts.
fn empty_parts(alloc: Global, count: usize) -> Result<Vec<Growing>, AllocError>
    ensures count { IfOk result (λ parts. length parts.items ≡ count) }
    ensures empty { IfOk result (λ parts. AreGrown [] parts.items) }
{
    let mut parts = Vec::new(alloc);
    for _ in 0..count {
        parts.push(Growing::new(alloc))?;
    }
    Ok(parts)
}

// Enters the pairs of each expression.
fn enter_all<L: Ledger>(
    alloc: Global,
    parts: &mut Vec<Growing>,
    added: &[Added],
    steps: &mut Steps<L>,
) -> Result<(), AllocError>
    requires empty { AreGrown [] parts.old.items }
    requires few { conjunctions_in added.now ≤ 1000000 }
    requires within { greatest (sizes_of (expression_of added.now)) < length parts.old.items }
    ensures grown { OnOk result (AreGrown (pairs_of (expression_of added.now)) parts.new.items) }
    ensures count { length parts.new.items ≡ length parts.old.items }
    ensures cost { steps.new ≤ steps.old + length (pairs_of (expression_of added.now)) }
{
    let mut first = 0;
    for campaign in added {
        let expr = campaign.expr();
        let pairs = expr.pairs(steps)?;
        enter_pairs(alloc, parts, pairs.into_vec(), first)?;
        first += expr.conjunctions() as u32;
    }
    Ok(())
}

// Enters each pair, with the conjunctions counted from `first` on.
fn enter_pairs(
    alloc: Global,
    parts: &mut Vec<Growing>,
    pairs: Vec<Pair>,
    first: u32,
) -> Result<(), AllocError>
    requires { All (λ p. (p.size < length parts.old.items) × (first + p.conjunction < 2 ^ 32)) pairs.items }
    ensures grown { OnOk result ((before : _) → AreGrown before parts.old.items → AreGrown (before ++ map (shift first) pairs.items) parts.new.items) }
    ensures count { length parts.new.items ≡ length parts.old.items }
{
    for pair in pairs {
        enter_pair(alloc, parts, pair, first)?;
    }
    Ok(())
}

// Enters the pair in the part of its conjunction's size.
fn enter_pair(
    alloc: Global,
    parts: &mut Vec<Growing>,
    pair: Pair,
    first: u32,
) -> Result<(), AllocError>
    requires { (pair.size < length parts.old.items) × (first + pair.conjunction < 2 ^ 32) }
    ensures grown { OnOk result ((before : _) → AreGrown before parts.old.items → AreGrown (before ++ shift first pair ∷ []) parts.new.items) }
    ensures count { length parts.new.items ≡ length parts.old.items }
{
    let entry = Entry {
        id: first + pair.conjunction,
        negated: pair.negated,
    };
    let key = Key {
        attr: pair.attr,
        value: pair.value,
    };
    parts[pair.size as usize].enter(alloc, key, entry)?;
    Ok(())
}

// Appends the zero list to the lists of part 0.
fn push_zero_list(parts: &mut Vec<Growing>, zeros: Vec<Entry>) -> Result<(), AllocError>
    requires { 0 < length parts.old.items }
    ensures count { length parts.new.items ≡ length parts.old.items }
    ensures zero { OnOk result ((k : ℕ) (part : Growing) → slice_get parts.new.items k ≡ Some part → (old : Growing) × (slice_get parts.old.items k ≡ Some old) × HasZeroList k zeros.items old part) }
{
    parts[0].lists.push(zeros)?;
    Ok(())
}

// The parts, with posting lists of their entries.
fn finish_all(alloc: Global, growing: Vec<Growing>) -> Result<List<Part>, AllocError>
    requires { All (λ part. All IsRising (lists_of part)) growing.items }
    ensures { IfOk result (λ parts. parts ≡ map finish growing.items) }
{
    let mut parts = List::new(alloc);
    for part in growing {
        parts.push(part.finish(alloc)?)?;
    }
    Ok(parts)
}
