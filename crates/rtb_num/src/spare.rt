//! Lists and texts that keep room for what is to come.
ghost use Rattle.std.specs.Prelude.{◌≡◌, ◌+◌, ◌-◌, ◌<◌, ◌≤◌, [], ◌∷◌, ◌++◌, ◌^◌, length, take, IfOk, OnOk, IsOk, slice_get, vec_len, vec_capacity};
ghost use Rattle.std.specs.Option.{option_copied, option_copied_mut};
ghost use Rattle.std.specs.Borrow.{sem};
ghost use Rattle.std.specs.Slice.Iter.{iter_rest};
ghost use Rattle.std.specs.Iterator.Adapters.{IterYieldsInOrder, IterYieldsInReverse};
ghost use Rattle.rtb_num.specs.Lends.{lends_spare_item};

use std::alloc::{AllocError, Global};
use std::marker::Model;
use std::slice::Iter;

/// A list that keeps room for items to come. Contracts see its items, and how many more fit.
///
/// What is put into the room takes no memory, so it cannot be refused. Where a list is made, changed and
/// read without such a step, `List` says less and serves better.
#[derive(Debug, Drop)]
pub struct SpareList<T> {
    items: Vec<T>,
}

impl<T> Model for SpareList<T> {
    ghost use Rattle.std.specs.Prelude.{◌-◌, vec_len, vec_capacity};
    ghost use Rattle.rtb_num.specs.Spare.{SpareItems};

    ghost Value = { SpareItems T };

    ghost view = { λ l. record { items = l.items.items; spare = vec_capacity l.items - vec_len l.items } };
}

impl<T> SpareList<T> {
    /// The empty list without room. It takes no memory.
    pub fn new(alloc: Global) -> SpareList<T>
        ensures { result ≡ record { items = []; spare = 0 } }
    {
        SpareList {
            items: Vec::new(alloc),
        }
    }

    /// The empty list with room for at least so many items.
    pub fn with_capacity(alloc: Global, room: usize) -> Result<SpareList<T>, AllocError>
        ensures items { IfOk result (λ l. l.items ≡ []) }
        ensures room { IfOk result (λ l. room ≤ l.spare) }
    {
        Ok(SpareList {
            items: Vec::with_capacity(alloc, room)?,
        })
    }

    /// The list of these items, in the memory that they are in, with its room.
    pub fn from_vec(items: Vec<T>) -> SpareList<T>
        ensures { result ≡ record { items = items.items; spare = vec_capacity items - vec_len items } }
    {
        SpareList { items }
    }

    /// The items, in the memory that they are in.
    pub fn into_vec(self) -> Vec<T>
        ensures items { result.items ≡ self.items }
        ensures room { vec_capacity result - vec_len result ≡ self.spare }
    {
        self.items
    }

    /// Makes room for at least so many items more. Room is never lost, whatever the answer.
    pub fn reserve(&mut self, more: usize) -> Result<(), AllocError>
        ensures items { self.new.items ≡ self.old.items }
        ensures room { OnOk result (more ≤ self.new.spare) }
        ensures kept { self.old.spare ≤ self.new.spare }
        ensures enough { more ≤ self.old.spare → IsOk result }
    {
        self.items.reserve(more)
    }

    /// Puts one item into the room.
    pub fn put(&mut self, item: T)
        requires { 0 < self.old.spare }
        ensures { self.new ≡ record { items = self.old.items ++ item ∷ []; spare = self.old.spare - 1 } }
    {
        self.items.push_reserved(item);
    }

    /// How many items fit without taking memory.
    pub fn spare(&self) -> usize
        ensures { result ≡ self.now.spare }
    {
        self.items.capacity() - self.items.len()
    }

    /// How many items it has.
    pub fn len(&self) -> usize
        ensures { result ≡ length self.now.items }
    {
        self.items.len()
    }

    /// The items.
    pub fn as_slice(&self) -> &[T]
        ensures { result.now ≡ self.now.items }
    {
        self.items.as_slice()
    }

    /// The item at the place, counted from 0, or none at and past the end.
    pub fn get(&self, i: usize) -> Option<&T>
        ensures { option_copied result ≡ slice_get self.now.items i }
    {
        self.items.get(i)
    }

    /// The item at the place, to be changed, or none at and past the end. All else stays.
    pub fn get_mut(&mut self, i: usize) -> Option<&mut T>
        ensures* writes_back { sem 𝓛 (lends_spare_item T.row self.entry i result) }
        ensures value { option_copied_mut result ≡ slice_get self.old.items i }
    {
        self.items.get_mut(i)
    }

    /// The items, one after the other.
    pub fn iter(&self) -> Iter<'_, T>
        ensures rest { iter_rest result ≡ self.now.items }
        ensures len { length (iter_rest result) ≡ length self.now.items }
        ensures bound { length (iter_rest result) < 2 ^ 64 }
        ensures runs { IterYieldsInOrder T }
        ensures runs_back { IterYieldsInReverse T }
    {
        self.items.as_slice().iter()
    }
}

impl<T: Drop> SpareList<T> {
    /// Keeps the first `n` items, or all where there are fewer. What they took is room.
    pub fn truncate(&mut self, n: usize)
        ensures items { self.new.items ≡ take n self.old.items }
        ensures room { length self.new.items + self.new.spare ≡ length self.old.items + self.old.spare }
    {
        self.items.truncate(n);
    }
}

/// A text that keeps room for bytes to come. Contracts see its bytes, and how many more fit.
#[derive(Drop)]
pub struct SpareTxt {
    bytes: Vec<u8>,
}

impl Model for SpareTxt {
    ghost use Rattle.std.specs.Prelude.{◌-◌, vec_len, vec_capacity};
    ghost use Rattle.rtb_num.specs.Spare.{SpareBytes};

    ghost Value = { SpareBytes };

    ghost view = { λ t. record { bytes = t.bytes.items; spare = vec_capacity t.bytes - vec_len t.bytes } };
}

impl SpareTxt {
    /// The empty text without room. It takes no memory.
    pub fn new(alloc: Global) -> SpareTxt
        ensures { result ≡ record { bytes = []; spare = 0 } }
    {
        SpareTxt {
            bytes: Vec::new(alloc),
        }
    }

    /// The empty text with room for at least so many bytes.
    pub fn with_capacity(alloc: Global, room: usize) -> Result<SpareTxt, AllocError>
        ensures bytes { IfOk result (λ t. t.bytes ≡ []) }
        ensures room { IfOk result (λ t. room ≤ t.spare) }
    {
        Ok(SpareTxt {
            bytes: Vec::with_capacity(alloc, room)?,
        })
    }

    /// Makes room for at least so many bytes more. Room is never lost, whatever the answer.
    pub fn reserve(&mut self, more: usize) -> Result<(), AllocError>
        ensures bytes { self.new.bytes ≡ self.old.bytes }
        ensures room { OnOk result (more ≤ self.new.spare) }
        ensures kept { self.old.spare ≤ self.new.spare }
        ensures enough { more ≤ self.old.spare → IsOk result }
    {
        self.bytes.reserve(more)
    }

    /// Puts these bytes into the room.
    pub fn append(&mut self, bytes: &[u8])
        requires { length bytes.now ≤ self.old.spare }
        ensures bytes { self.new.bytes ≡ self.old.bytes ++ bytes.now }
        ensures room { self.old.spare ≤ self.new.spare + length bytes.now }
    {
        match self.bytes.extend_from_slice(bytes) {
            Ok(()) => {}
            Err(_) => unreachable!(),
        }
    }

    /// How many bytes fit without taking memory.
    pub fn spare(&self) -> usize
        ensures { result ≡ self.now.spare }
    {
        self.bytes.capacity() - self.bytes.len()
    }

    /// How many bytes it has.
    pub fn len(&self) -> usize
        ensures { result ≡ length self.now.bytes }
    {
        self.bytes.len()
    }

    /// The bytes.
    pub fn as_bytes(&self) -> &[u8]
        ensures { result.now ≡ self.now.bytes }
    {
        self.bytes.as_slice()
    }

    /// Keeps the first `n` bytes, or all where there are fewer. What they took is room.
    pub fn truncate(&mut self, n: usize)
        ensures bytes { self.new.bytes ≡ take n self.old.bytes }
        ensures room { length self.new.bytes + self.new.spare ≡ length self.old.bytes + self.old.spare }
    {
        self.bytes.truncate(n);
    }
}
