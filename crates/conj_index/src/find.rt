//! The campaigns that an assignment makes true, size by size.
ghost use Rattle.std.specs.Prelude.{◌≡◌, ◌≤◌, ◌<◌, ◌+◌, ◌*◌, [], ◌++◌, ℕ, map, max, length, take, position, slice_get, IfOk, IsTrue, OnOk};
ghost use Rattle.std.specs.List.{cons_option, enumerate_from, filter_map};
ghost use Rattle.conj_match.specs.Bits.{AreSet};
ghost use Rattle.conj_match.specs.Matching.{cost_of, is_match, lists_at};
ghost use Rattle.target_expr.specs.Truth.{are_single};
ghost use Rattle.conj_index.specs.Campaigns.{Campaigns};
ghost use Rattle.conj_index.specs.Content.{IsIndexOf, same_key};
ghost use Rattle.indexmap.specs.IndexMap.{keys};
ghost use Rattle.conj_index.specs.Find.{find_cost, key_lists, key_of, key_place, places_of, true_under, zero_place};
ghost use Rattle.conj_index.specs.Searching.{AreFound, AreHit, AreOwners};

use crate::index::Index;
use crate::key::Key;
use crate::part::Part;
use crate::scratch::Scratch;
use conj_match::Tally;
use rtb_base::Steps;
use rtb_num::{List, Txt};
use std::alloc::{AllocError, Global};
use std::sync::ledger::Ledger;
use target_expr::{Assignment, Attr};

impl Index {
    /// The campaigns whose expression is true under the assignment, by number and each once, whatever
    /// list of campaigns the index stands for.
    ///
    /// One step is one entry read. In each part up to the assignment's length, only the lists of its
    /// own pairs are read, and the zero list.
    pub fn find<L: Ledger>(
        &self,
        alloc: Global,
        assignment: &Assignment,
        steps: &mut Steps<L>,
    ) -> Result<List<u32>, AllocError>
        ensures answer { IfOk result (λ numbers. (added : Campaigns) → IsIndexOf added self.now → numbers ≡ true_under assignment.now added) }
        ensures cost { steps.new ≤ steps.old + find_cost self.now assignment.now }
    {
        let mut scratch = Scratch::new(alloc);
        self.find_with(alloc, &mut scratch, assignment, steps)
    }

    /// The same, in room that is kept from find to find, of this index or of others: memory is taken
    /// for the answer alone, and where the room has to grow.
    pub fn find_with<L: Ledger>(
        &self,
        alloc: Global,
        scratch: &mut Scratch,
        assignment: &Assignment,
        steps: &mut Steps<L>,
    ) -> Result<List<u32>, AllocError>
        ensures answer { IfOk result (λ numbers. (added : Campaigns) → IsIndexOf added self.now → numbers ≡ true_under assignment.now added) }
        ensures cost { steps.new ≤ steps.old + find_cost self.now assignment.now }
    {
        let mut numbers = find_all(alloc, self, assignment.pairs(), scratch, steps)?;
        numbers.sort_unstable();
        numbers.dedup();
        Ok(List::from_vec(numbers))
    }
}

// The campaigns of the conjunctions that are found, some more than once. Those of an index of campaigns
// come in rising order.
fn find_all<L: Ledger>(
    alloc: Global,
    index: &Index,
    pairs: &[(Attr, Txt)],
    scratch: &mut Scratch,
    steps: &mut Steps<L>,
) -> Result<Vec<u32>, AllocError>
    requires { IsTrue (are_single pairs.now) }
    ensures found { IfOk result (λ numbers. AreFound pairs.now index.now.owners (take (length pairs.now + 1) index.now.parts) (length (take (length pairs.now + 1) index.now.parts)) numbers.items) }
    ensures cost { steps.new ≤ steps.old + find_cost index.now pairs.now }
{
    look_up(pairs, &mut scratch.looked)?;
    match_all(
        alloc,
        index,
        pairs,
        scratch.looked.as_slice(),
        &mut scratch.places,
        &mut scratch.tally,
        steps,
    )?;
    let numbers = owners_in(
        alloc,
        &scratch.tally,
        index.owners.as_slice(),
        &mut scratch.ids,
    )?;
    Ok(numbers)
}

// The campaigns of the conjunctions that are found.
fn owners_in(
    alloc: Global,
    tally: &Tally,
    owners: &[u32],
    ids: &mut Vec<u32>,
) -> Result<Vec<u32>, AllocError>
    ensures { IfOk result (λ numbers. AreOwners owners.now tally.now numbers.items) }
{
    ids.clear();
    tally.push_found(ids)?;
    let mut numbers = Vec::with_capacity(alloc, ids.len())?;
    push_owners(&mut numbers, owners, ids.as_slice())?;
    Ok(numbers)
}

// Finds the conjunctions, part by part.
fn match_all<L: Ledger>(
    alloc: Global,
    index: &Index,
    pairs: &[(Attr, Txt)],
    looked: &[Key],
    places: &mut Vec<usize>,
    tally: &mut Tally,
    steps: &mut Steps<L>,
) -> Result<(), AllocError>
    requires single { IsTrue (are_single pairs.now) }
    requires looked { looked.now ≡ map key_of pairs.now }
    ensures room { OnOk result (length index.now.owners ≤ 64 * length tally.new) }
    ensures found { OnOk result (AreHit pairs.now (take (length pairs.now + 1) index.now.parts) (length (take (length pairs.now + 1) index.now.parts)) tally.new) }
    ensures cost { steps.new ≤ steps.old + find_cost index.now pairs.now }
{
    tally.begin(alloc, index.owners.len())?;
    for (size, part) in first_parts(index, pairs.len() + 1).iter().enumerate() {
        find_in(alloc, part, size as u32, looked, places, tally, steps)?;
    }
    Ok(())
}

// The first `n` parts, or all where there are fewer.
fn first_parts(index: &Index, n: usize) -> &[Part]
    ensures { result.now ≡ take n index.now.parts }
{
    let parts = index.parts.as_slice();
    &parts[..n.min(parts.len())]
}

// The keys of these pairs.
fn look_up(pairs: &[(Attr, Txt)], looked: &mut Vec<Key>) -> Result<(), AllocError>
    ensures { OnOk result (looked.new.items ≡ map key_of pairs.now) }
{
    looked.clear();
    for (attr, value) in pairs {
        looked.push(Key {
            attr: *attr,
            value: value.copy()?,
        })?;
    }
    Ok(())
}

// Finds the conjunctions of this size that are true where these keys are all that is so.
fn find_in<L: Ledger>(
    alloc: Global,
    part: &Part,
    size: u32,
    looked: &[Key],
    places: &mut Vec<usize>,
    tally: &mut Tally,
    steps: &mut Steps<L>,
) -> Result<(), AllocError>
    ensures len { length tally.new ≡ length tally.old }
    ensures found { OnOk result (AreSet (is_match (lists_at part.now.lists (places_of looked.now size part.now)) (max size 1)) tally.old tally.new) }
    ensures cost { steps.new ≤ steps.old + cost_of (lists_at part.now.lists (places_of looked.now size part.now)) (max size 1) }
{
    choose(part, size, looked, places)?;
    tally.add_matches(
        alloc,
        part.lists.as_slice(),
        places.as_slice(),
        size.max(1),
        steps,
    )
}

// The places of the lists of these keys, and of the zero list.
fn choose(part: &Part, size: u32, looked: &[Key], places: &mut Vec<usize>) -> Result<(), AllocError>
    ensures { OnOk result (places.new.items ≡ places_of looked.now size part.now) }
{
    places.clear();
    push_places(part, size, looked, places)?;
    push_some(places, zero_place(part, size))?;
    Ok(())
}

// Appends the places of the keys' lists.
fn push_places(
    part: &Part,
    size: u32,
    looked: &[Key],
    places: &mut Vec<usize>,
) -> Result<(), AllocError>
    ensures { OnOk result (places.new.items ≡ places.old.items ++ filter_map (key_place size part.now) looked.now) }
{
    for key in looked {
        push_some(places, key_place(part, size, key))?;
    }
    Ok(())
}

// The place of the key's list.
fn key_place(part: &Part, size: u32, key: &Key) -> Option<usize>
    ensures { result ≡ key_place size part.now key.now }
{
    match position_of(part, key) {
        Some(place) if place < key_lists(part, size) => Some(place),
        _ => None,
    }
}

// The place of the key among the part's keys.
fn position_of(part: &Part, key: &Key) -> Option<usize>
    ensures { result ≡ position (same_key key.now) (keys part.now.keys) }
{
    part.keys.get_index_of(key)
}

// How many of the lists are those of keys: all but the zero list.
fn key_lists(part: &Part, size: u32) -> usize
    ensures { result ≡ key_lists size part.now }
{
    if size == 0 {
        part.lists.len().saturating_sub(1)
    } else {
        part.lists.len()
    }
}

// The place of the zero list.
fn zero_place(part: &Part, size: u32) -> Option<usize>
    ensures { result ≡ zero_place size part.now }
{
    if size == 0 {
        part.lists.len().checked_sub(1)
    } else {
        None
    }
}

// Appends the campaigns of these conjunctions.
fn push_owners(numbers: &mut Vec<u32>, owners: &[u32], ids: &[u32]) -> Result<(), AllocError>
    ensures { OnOk result (numbers.new.items ≡ numbers.old.items ++ filter_map (slice_get owners.now) ids.now) }
{
    for id in ids {
        push_some(numbers, owner_of(owners, *id))?;
    }
    Ok(())
}

// The campaign of the conjunction.
fn owner_of(owners: &[u32], id: u32) -> Option<u32>
    ensures { result ≡ slice_get owners.now id }
{
    owners.get(id as usize).copied()
}

// Appends the item, where there is one.
fn push_some<T: Drop>(list: &mut Vec<T>, item: Option<T>) -> Result<(), AllocError>
    ensures { OnOk result (list.new.items ≡ list.old.items ++ cons_option item []) }
{
    if let Some(item) = item {
        list.push(item)?;
    }
    Ok(())
}
