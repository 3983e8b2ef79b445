//! The lists of an index while it grows.
ghost use Rattle.std.specs.Prelude.{◌≡◌, [], ◌∷◌, map, IsTrue, Some, slice_get, IfOk, OnOk};
ghost use Rattle.std.specs.List.{IsDistinct, position_or_len};
ghost use Rattle.indexmap.specs.IndexMap.{keys};
ghost use Rattle.cnf_match.specs.Content.{same_key};
ghost use Rattle.cnf_match.specs.Growing.{with_item, with_key};

use crate::index::{Entry, Key};
use crate::names::are_same;
use indexmap::IndexMap;
use rtb_num::Txt;
use std::alloc::{AllocError, Global};
use target_expr::Attr;

// The lists of an index while entries are added.
#[derive(Drop)]
pub(crate) struct Growing {
    pub(crate) keys: IndexMap<Key, ()>,
    pub(crate) lists: Vec<Vec<Entry>>,
    // For each seat the place of the last key that had it. A key is looked for there first: mostly it is there.
    pub(crate) seats: Vec<usize>,
}

// How many seats there are. Keys that share one are looked up.
const SEATS: usize = 4_096;

impl Growing {
    ghost use Rattle.cnf_match.specs.Growing.{Enters, IsGrown};

    // No key yet.
    pub(crate) fn new(alloc: Global) -> Result<Growing, AllocError>
        ensures { IfOk result (IsGrown []) }
    {
        let seats = Vec::from_elem(alloc, 0, SEATS)?;
        Ok(Growing {
            keys: IndexMap::new(alloc),
            lists: Vec::new(alloc),
            seats,
        })
    }

    // Appends the entry to the list of the attribute and the value.
    #[inline(always)]
    pub(crate) fn enter(
        &mut self,
        alloc: Global,
        attr: Attr,
        value: &[u8],
        entry: Entry,
    ) -> Result<(), AllocError>
        ensures { OnOk result (Enters ((record { attr = attr; value = value.now }, entry) ∷ []) self.old self.new) }
    {
        let seat = seat_of(attr, value);
        let likely = place_in(self.seats.as_slice(), seat);
        if is_at(&self.keys, likely, attr, value) {
            return put(alloc, &mut self.lists, likely, entry);
        }
        self.look_up(alloc, seat, attr, value, entry)
    }

    // The same where another key had the seat, or none.
    #[cold]
    fn look_up(
        &mut self,
        alloc: Global,
        seat: usize,
        attr: Attr,
        value: &[u8],
        entry: Entry,
    ) -> Result<(), AllocError>
        ensures { OnOk result (Enters ((record { attr = attr; value = value.now }, entry) ∷ []) self.old self.new) }
    {
        let key = Key {
            attr,
            value: Txt::from_slice(alloc, value)?,
        };
        let place = added(&mut self.keys, key)?;
        seat_at(&mut self.seats, seat, place);
        put(alloc, &mut self.lists, place, entry)
    }
}

// The seat of an attribute and a value. Any would do: one that few share serves best.
#[inline(always)]
fn seat_of(attr: Attr, value: &[u8]) -> usize {
    let sum = value
        .iter()
        .fold(usize::from(attr.number()), |sum, byte| mixed(sum, *byte));
    sum % SEATS
}

#[inline(always)]
fn mixed(sum: usize, byte: u8) -> usize {
    sum.wrapping_mul(31).wrapping_add(usize::from(byte))
}

#[inline(always)]
fn place_in(seats: &[usize], seat: usize) -> usize {
    seats.get(seat).copied().unwrap_or(0)
}

fn seat_at(seats: &mut [usize], seat: usize, place: usize) {
    if seat < seats.len() {
        seats[seat] = place;
    }
}

// Whether the key at the place is of this attribute and this value.
#[inline(always)]
fn is_at(map: &IndexMap<Key, ()>, place: usize, attr: Attr, value: &[u8]) -> bool
    ensures { IsTrue result → slice_get (keys map.now) place ≡ Some (record { attr = attr; value = value.now }) }
{
    match map.get_index(place) {
        Some((key, _)) => is_of(key, attr, value),
        None => false,
    }
}

#[inline(always)]
fn is_of(key: &Key, attr: Attr, value: &[u8]) -> bool
    ensures { result ≡ same_key key.now (record { attr = attr; value = value.now }) }
{
    key.attr.number() == attr.number() && are_same(key.value.as_bytes(), value)
}

// The place of the key, which is added where it is new.
fn added(map: &mut IndexMap<Key, ()>, key: Key) -> Result<usize, AllocError>
    ensures added { OnOk result (keys map.new ≡ with_key (keys map.old) key) }
    ensures unique { OnOk result (IsDistinct same_key (keys map.new)) }
    ensures place { IfOk result (λ place. place ≡ position_or_len (same_key key) (keys map.old)) }
{
    let (place, _) = map.insert_full(key, ())?;
    Ok(place)
}

// Appends the entry to the list at the place, or begins a list with it past the end.
#[inline(always)]
fn put(
    alloc: Global,
    lists: &mut Vec<Vec<Entry>>,
    place: usize,
    entry: Entry,
) -> Result<(), AllocError>
    ensures { OnOk result (map (λ l. l.items) lists.new.items ≡ with_item (map (λ l. l.items) lists.old.items) place entry) }
{
    if place < lists.len() {
        lists[place].push(entry)?;
    } else {
        let mut list = Vec::new(alloc);
        list.push(entry)?;
        lists.push(list)?;
    }
    Ok(())
}
