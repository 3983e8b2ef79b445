//! Posting lists while an index grows.
ghost use Rattle.std.specs.Prelude.{◌≡◌, [], ℕ, map, All, IfOk, OnOk};
ghost use Rattle.std.specs.List.{IsDistinct, position_or_len};
ghost use Rattle.postings.specs.Order.{IsRising};
ghost use Rattle.conj_index.specs.Growing.{with_entry};

use crate::key::Key;
use crate::part::Part;
use indexmap::IndexMap;
use postings::{BuildFault, Entry, Postings};
use rtb_num::List;
use std::alloc::{AllocError, Global};

// A part of an index while pairs are entered.
#[derive(Drop)]
pub(crate) struct Growing {
    pub(crate) keys: IndexMap<Key, ()>,
    pub(crate) lists: Vec<Vec<Entry>>,
}

impl Growing {
    ghost use Rattle.indexmap.specs.IndexMap.{keys};
    ghost use Rattle.conj_index.specs.Content.{same_key};
    ghost use Rattle.conj_index.specs.Growing.{IsGrown, finish, lists_of, with_key};

    // A part with no key.
    pub(crate) fn new(alloc: Global) -> Growing
        ensures { (k : ℕ) → IsGrown k [] result }
    {
        Growing {
            keys: IndexMap::new(alloc),
            lists: Vec::new(alloc),
        }
    }

    // Appends the entry to the key's list.
    pub(crate) fn enter(&mut self, alloc: Global, key: Key, entry: Entry) -> Result<(), AllocError>
        ensures added { OnOk result (keys self.new.keys ≡ with_key (keys self.old.keys) key) }
        ensures unique { OnOk result (IsDistinct same_key (keys self.new.keys)) }
        ensures lists { OnOk result (lists_of self.new ≡ with_entry (lists_of self.old) (position_or_len (same_key key) (keys self.old.keys)) entry) }
    {
        let (place, _) = self.keys.insert_full(key, ())?;
        put(alloc, &mut self.lists, place, entry)?;
        Ok(())
    }

    // The part with posting lists of its entries.
    pub(crate) fn finish(self, alloc: Global) -> Result<Part, AllocError>
        requires { All IsRising (lists_of self) }
        ensures { IfOk result (λ part. part ≡ finish self) }
    {
        let Growing { keys, lists } = self;
        let lists = posting_lists(alloc, lists)?;
        Ok(Part { keys, lists })
    }
}

// The posting lists of these entries.
fn posting_lists(alloc: Global, lists: Vec<Vec<Entry>>) -> Result<List<Postings>, AllocError>
    requires { All (λ l. IsRising l.items) lists.items }
    ensures { IfOk result (λ made. made ≡ map (λ l. l.items) lists.items) }
{
    let mut made = List::new(alloc);
    made.reserve(lists.len())?;
    for list in lists {
        made.push(posting_list(alloc, list)?)?;
    }
    Ok(made)
}

// The posting list of these entries.
fn posting_list(alloc: Global, entries: Vec<Entry>) -> Result<Postings, AllocError>
    requires { IsRising entries.items }
    ensures { IfOk result (λ list. list ≡ entries.items) }
{
    match Postings::build(alloc, entries) {
        Ok(list) => Ok(list),
        Err(BuildFault::Memory) => Err(AllocError),
        Err(_) => unreachable!(),
    }
}

// Appends the entry to the list at the place, or begins a list with it past the end.
fn put(
    alloc: Global,
    lists: &mut Vec<Vec<Entry>>,
    place: usize,
    entry: Entry,
) -> Result<(), AllocError>
    ensures { OnOk result (map (λ l. l.items) lists.new.items ≡ with_entry (map (λ l. l.items) lists.old.items) place entry) }
{
    if place < lists.len() {
        lists[place].push(entry)?;
    } else {
        let mut list = Vec::new(alloc);
        list.push(entry)?;
        lists.push(list)?;
    }
    Ok(())
}
