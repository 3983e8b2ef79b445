//! A text of bytes.
ghost use Rattle.rtb_num.specs.Bytes.{IsBytes};
ghost use Rattle.std.specs.Prelude.{◌≡◌, ℕ, nat_eq, List, Some, [], ◌∷◌, ◌++◌, ◌↔◌, length, map, take, IsTrue, IfOk, OnOk, OnErr, slice_get};
ghost use Rattle.std.specs.List.{concat};
ghost use Rattle.std.specs.Option.{option_copied};
ghost use Rattle.std.specs.Ordering.{nat_cmp};
ghost use Rattle.std.specs.Cmp;
ghost use Rattle.std.specs.Cmp.Lexicographic.{pointwise, slice_cmp, nat_list_eq_equiv, nat_list_cmp_total, texts_ties, texts_po};
ghost use Rattle.std.specs.Hash as fed;
ghost use Rattle.std.specs.Cmp.Rules.{hashing};
ghost use Rattle.std.proofs.Common.{rules, refl};

use crate::short::{ROOM, Short};
use std::alloc::{AllocError, Global};
use std::cmp::Ordering;
use std::fmt;
use std::hash::{Hash, Hasher};
use std::marker::Model;

// Where a text's bytes lie: in the value itself, or in memory of their own.
#[derive(Drop)]
enum Kept {
    Short(Short),
    Long(Vec<u8>),
}

/// A text of bytes, which need not be UTF-8. Contracts see it as the list of its bytes.
///
/// Two texts compare byte for byte. A growth that is refused memory leaves the text as it was. Up to
/// 24 bytes lie in the value itself and take no memory, unless the text is made from a `Vec`.
#[derive(Drop)]
pub struct Txt {
    kept: Kept,
}

impl Model for Txt {
    ghost use Rattle.std.specs.Prelude.{List, ℕ};

    ghost Value = { List ℕ };

    ghost use Rattle.rtb_num.specs.Kept.{bytes_of};

    ghost view = { λ t. bytes_of t.kept };
}

impl Txt {
    /// The empty text. It takes no memory.
    #[inline]
    pub fn new(alloc: Global) -> Txt
        ensures { result ≡ [] }
    {
        Txt {
            kept: Kept::Short(Short::new(alloc)),
        }
    }

    /// The text of these bytes, in the memory that they are in.
    #[inline]
    pub fn from_vec(bytes: Vec<u8>) -> Txt
        ensures { result ≡ bytes.items }
    {
        Txt {
            kept: Kept::Long(bytes),
        }
    }

    /// A text of these bytes.
    pub fn from_slice(alloc: Global, bytes: &[u8]) -> Result<Txt, AllocError>
        ensures { IfOk result (λ t. t ≡ bytes.now) }
    {
        if bytes.len() <= ROOM {
            return Ok(Txt {
                kept: Kept::Short(Short::of(alloc, bytes)),
            });
        }
        let copy = bytes.to_vec(alloc)?;
        Ok(Txt::from_vec(copy))
    }

    /// How many bytes it has.
    #[inline]
    pub fn len(&self) -> usize
        ensures { result ≡ length self.now }
    {
        self.as_bytes().len()
    }

    /// Whether it has no byte.
    #[inline]
    pub fn is_empty(&self) -> bool
        ensures { IsTrue result ↔ (self.now ≡ []) }
    {
        self.as_bytes().is_empty()
    }

    /// The bytes, each below 256.
    #[inline]
    pub fn as_bytes(&self) -> &[u8]
        ensures value { result.now ≡ self.now }
        ensures bytes { IsBytes self.now }
    {
        match &self.kept {
            Kept::Short(short) => as_known(short.as_slice()),
            Kept::Long(bytes) => as_known(bytes.as_slice()),
        }
    }

    /// The byte at the place, counted from 0, or none at and past the end.
    #[inline]
    pub fn get(&self, i: usize) -> Option<&u8>
        ensures { option_copied result ≡ slice_get self.now i }
    {
        self.as_bytes().get(i)
    }

    /// Appends one byte.
    #[inline(always)]
    pub fn push(&mut self, byte: u8) -> Result<(), AllocError>
        ensures ok { OnOk result (self.new ≡ self.old ++ byte ∷ []) }
        ensures err { OnErr result (self.new ≡ self.old) }
    {
        match &mut self.kept {
            Kept::Short(short) if short.has_room(1) => short.push(byte),
            Kept::Short(short) => {
                let longer = short.spill(&[byte])?;
                self.kept = Kept::Long(longer);
            }
            Kept::Long(bytes) => bytes.push(byte)?,
        }
        Ok(())
    }

    /// Appends these bytes, all or none.
    #[inline]
    pub fn extend(&mut self, bytes: &[u8]) -> Result<(), AllocError>
        ensures ok { OnOk result (self.new ≡ self.old ++ bytes.now) }
        ensures err { OnErr result (self.new ≡ self.old) }
    {
        match &mut self.kept {
            Kept::Short(short) if short.has_room(bytes.len()) => short.append(bytes),
            Kept::Short(short) => {
                let longer = short.spill(bytes)?;
                self.kept = Kept::Long(longer);
            }
            Kept::Long(kept) => kept.extend_from_slice(bytes)?,
        }
        Ok(())
    }

    /// Appends these pieces one after the other, all or none.
    pub fn extend_all(&mut self, pieces: &[&[u8]]) -> Result<(), AllocError>
        ensures ok { OnOk result (self.new ≡ self.old ++ concat (map (λ p. p.now) pieces.now)) }
        ensures err { OnErr result (self.new ≡ self.old) }
    {
        let before = self.len();
        let done = append_pieces(pieces, self);
        self.settle(before, done)
    }

    /// Where what was done to the text was refused, takes it back: the first `before` bytes stay. Gives
    /// the answer back as it was.
    pub fn settle(&mut self, before: usize, done: Result<(), AllocError>) -> Result<(), AllocError>
        ensures same { result ≡ done }
        ensures ok { OnOk result (self.new ≡ self.old) }
        ensures err { OnErr result (self.new ≡ take before self.old) }
    {
        if done.is_err() {
            self.truncate(before);
        }
        done
    }

    /// Keeps the first `n` bytes, or all where there are fewer.
    pub fn truncate(&mut self, n: usize)
        ensures { self.new ≡ take n self.old }
    {
        match &mut self.kept {
            Kept::Short(short) => short.truncate(n),
            Kept::Long(bytes) => bytes.truncate(n),
        }
    }

    /// Takes the memory for so many bytes more, for speed alone: no contract sees room. Where a later
    /// step must not be refused memory, use a `SpareTxt`.
    pub fn reserve(&mut self, more: usize) -> Result<(), AllocError>
        ensures { self.new ≡ self.old }
    {
        match &mut self.kept {
            Kept::Short(short) if short.has_room(more) => {}
            Kept::Short(short) => {
                let mut longer = short.spill(&[])?;
                longer.reserve(more)?;
                self.kept = Kept::Long(longer);
            }
            Kept::Long(bytes) => bytes.reserve(more)?,
        }
        Ok(())
    }

    /// A text of the same bytes.
    pub fn copy(&self) -> Result<Txt, AllocError>
        ensures { IfOk result (λ t. t ≡ self.now) }
    {
        match &self.kept {
            Kept::Short(short) => Ok(Txt {
                kept: Kept::Short(short.duplicate()),
            }),
            Kept::Long(bytes) => Txt::from_slice(*bytes.allocator(), bytes.as_slice()),
        }
    }
}

// Says of a slice of bytes what its type says.
#[inline]
fn as_known(bytes: &[u8]) -> &[u8]
    ensures same { result.now ≡ bytes.now }
    ensures bytes { IsBytes result.now }
{
    bytes
}

// Appends these pieces one after the other; where memory is refused, the first of them may stay.
fn append_pieces(pieces: &[&[u8]], out: &mut Txt) -> Result<(), AllocError>
    ensures ok { OnOk result (out.new ≡ out.old ++ concat (map (λ p. p.now) pieces.now)) }
    ensures front { (more : List ℕ) × (out.new ≡ out.old ++ more) }
{
    for piece in pieces {
        out.extend(piece)?;
    }
    Ok(())
}

impl fmt::Debug for Txt {
    fn fmt<W: fmt::Write>(&self, f: &mut fmt::Formatter<W>) -> fmt::Result {
        let bytes = self.as_bytes();
        write!(f, "{bytes:?}")
    }
}

impl PartialEq for Txt {
    ghost eq = { λ x y. pointwise nat_eq x y };

    ghost laws = { Cmp.partial_equiv_from_equiv nat_list_eq_equiv };

    fn eq(&self, other: &Txt) -> bool {
        self.as_bytes() == other.as_bytes()
    }
}

impl Eq for Txt {
    ghost laws = { nat_list_eq_equiv };
}

impl PartialOrd for Txt {
    ghost partial_cmp = { λ x y. Some (slice_cmp nat_cmp x y) };

    ghost laws = { texts_po };

    fn partial_cmp(&self, other: &Txt) -> Option<Ordering> {
        Some(self.cmp(other))
    }
}

impl Ord for Txt {
    ghost cmp = { λ x y. slice_cmp nat_cmp x y };

    ghost total = { nat_list_cmp_total };

    ghost matches_partial_cmp = { λ x y. refl };

    ghost matches_eq = { λ x y. texts_ties x y };

    fn cmp(&self, other: &Txt) -> Ordering {
        self.as_bytes().cmp(other.as_bytes())
    }
}

impl Hash for Txt {
    ghost hash_input = { λ s. fed.slice fed.u8 s };

    ghost respects_eq = { Prim.search (hashing, rules) };

    fn hash<H: Hasher>(&self, state: &mut H) {
        self.as_bytes().hash(state);
    }
}
