//! Texts of up to 24 bytes, which take no memory of their own.
ghost use Rattle.std.specs.Prelude.{◌≡◌, ◌≤◌, ◌+◌, ◌↔◌, [], ◌∷◌, ◌++◌, length, take, IsTrue, IfOk};

use std::alloc::{AllocError, Global};
use std::marker::Model;

// How many bytes lie in the value itself: as many as a `Vec` takes.
pub(crate) const ROOM: usize = 24;

// A text of at most 24 bytes, which takes no memory. With a length of four bytes they begin at a
// multiple of 8 in a `Txt`, where they are copied in whole words.
#[derive(Drop)]
pub(crate) struct Short {
    alloc: Global,
    len: u32,
    bytes: [u8; ROOM],
}

impl Model for Short {
    ghost use Rattle.std.specs.Prelude.{List, ℕ, ◌≤◌, take};

    ghost Value = { List ℕ };

    ghost view = { λ s. take s.len s.bytes };

    ghost invariant = { λ s. s.len ≤ 24 };
}

impl Short {
    #[inline]
    pub(crate) fn new(alloc: Global) -> Short
        ensures { result ≡ [] }
    {
        Short {
            alloc,
            len: 0,
            bytes: [0; ROOM],
        }
    }

    // The text of these bytes.
    #[inline]
    pub(crate) fn of(alloc: Global, bytes: &[u8]) -> Short
        requires { length bytes.now ≤ 24 }
        ensures { result ≡ bytes.now }
    {
        let mut kept = [0; ROOM];
        kept[..bytes.len()].copy_from_slice(bytes);
        Short {
            alloc,
            len: bytes.len() as u32,
            bytes: kept,
        }
    }

    #[inline]
    pub(crate) fn as_slice(&self) -> &[u8]
        ensures { result.now ≡ self.now }
    {
        &self.bytes[..self.len as usize]
    }

    // Whether so many bytes more fit.
    #[inline]
    pub(crate) fn has_room(&self, more: usize) -> bool
        ensures { IsTrue result ↔ (length self.now + more ≤ 24) }
    {
        more <= ROOM - self.len as usize
    }

    #[inline]
    pub(crate) fn push(&mut self, byte: u8)
        requires { length self.old + 1 ≤ 24 }
        ensures { self.new ≡ self.old ++ byte ∷ [] }
    {
        self.bytes[self.len as usize] = byte;
        self.len += 1;
    }

    #[inline]
    pub(crate) fn append(&mut self, bytes: &[u8])
        requires { length self.old + length bytes.now ≤ 24 }
        ensures { self.new ≡ self.old ++ bytes.now }
    {
        let begin = self.len as usize;
        let end = begin + bytes.len();
        self.bytes[begin..end].copy_from_slice(bytes);
        self.len = end as u32;
    }

    // Keeps the first `n` bytes, or all where there are fewer.
    pub(crate) fn truncate(&mut self, n: usize)
        ensures { self.new ≡ take n self.old }
    {
        if n < self.len as usize {
            self.len = n as u32;
        }
    }

    pub(crate) fn duplicate(&self) -> Short
        ensures { result ≡ self.now }
    {
        Short {
            alloc: self.alloc,
            len: self.len,
            bytes: self.bytes,
        }
    }

    // The bytes and these behind them, in memory of their own, with room to grow.
    #[cold]
    #[inline(never)]
    pub(crate) fn spill(&self, bytes: &[u8]) -> Result<Vec<u8>, AllocError>
        ensures { IfOk result (λ v. v.items ≡ self.now ++ bytes.now) }
    {
        let mut longer = Vec::new(self.alloc);
        longer.reserve(bytes.len().saturating_add(ROOM))?;
        longer.extend_from_slice(self.as_slice())?;
        longer.extend_from_slice(bytes)?;
        Ok(longer)
    }
}
