//! A trace as it comes, in pieces: no more of it is held than one item and what was read with it.
ghost use Rattle.std.specs.Prelude.{◌≡◌, ◌≢◌, ◌↔◌, ◌++◌, [], Err, IfOk, IsTrue, OnOk};
ghost use Rattle.audit.specs.Inputs.{Fills, IsNext, Looks, Takes};
ghost use Rattle.audit.specs.declared.input.Next.TheVariants.{End as end, Torn as torn};
ghost use Rattle.byte_fields.specs.Codes.{IsCode};
ghost use Rattle.rtb_base.specs.Faults.{RisesOnlyWhere};
ghost use Rattle.rtb_io.specs.declared.ReadFault.TheVariants.{Failed as failed};

use byte_fields::Element;
use rtb_io::{ReadFault, read_all};
use rtb_num::{Source, Txt};
use std::alloc::{AllocError, Global};
use std::marker::Model;

// At least so much is read at once, and at most so much.
const LEAST_PIECE: usize = 61_440;

const MOST_PIECE: usize = 1 << 61;

// What is held doubles with each read, so that so many make it longer than any memory.
const MOST_READS: u32 = 64;

/// What was read and not taken yet.
#[derive(Drop)]
pub(crate) struct Input {
    held: Txt,
    start: usize,
}

impl Model for Input {
    ghost use Rattle.std.specs.Prelude.{List, ℕ, ◌≤◌, drop, length};

    ghost Value = { List ℕ };

    ghost view = { λ i. drop i.start i.held };

    ghost invariant = { λ i. i.start ≤ length i.held };
}

/// What is next in a trace.
#[derive(Drop)]
pub(crate) enum Next<T> {
    /// An item, and how many bytes it has.
    Item(T, usize),
    /// Nothing is left.
    End,
    /// Something is left that is no item.
    Torn,
}

impl Input {
    pub(crate) fn new(alloc: Global) -> Input
        ensures { result ≡ [] }
    {
        Input {
            held: Txt::new(alloc),
            start: 0,
        }
    }

    /// Takes the next item.
    pub(crate) fn next<E: Element, S: Source>(
        &mut self,
        alloc: Global,
        source: &mut S,
    ) -> Result<Next<E::Item>, ReadFault>
        requires code { IsCode E.IsValid E.encode }
        ensures next { IfOk result (IsNext E.IsValid E.encode (S.left source.old) (S.left source.new) self.old self.new) }
        ensures cause { RisesOnlyWhere (result ≡ Err failed) (S.faults source.old) (S.faults source.new) }
    {
        for _ in 0..MOST_READS {
            if let Some((item, size)) = self.take::<E>(alloc)? {
                return Ok(Next::Item(item, size));
            }
            if !self.fill(alloc, source)? {
                return Ok(self.rest());
            }
        }
        Err(ReadFault::Memory)
    }

    /// Whether something is left.
    pub(crate) fn has_more<S: Source>(
        &mut self,
        alloc: Global,
        source: &mut S,
    ) -> Result<bool, ReadFault>
        ensures looks { IfOk result (Looks (S.left source.old) (S.left source.new) self.old) }
        ensures cause { RisesOnlyWhere (result ≡ Err failed) (S.faults source.old) (S.faults source.new) }
    {
        if !self.is_empty() {
            return Ok(true);
        }
        self.fill(alloc, source)
    }

    fn is_empty(&self) -> bool
        ensures { IsTrue result ↔ (self.now ≡ []) }
    {
        self.bytes().is_empty()
    }

    // What it is that is left at the end.
    fn rest<T>(&self) -> Next<T>
        ensures end { self.now ≡ [] → result ≡ end }
        ensures torn { self.now ≢ [] → result ≡ torn }
    {
        if self.bytes().is_empty() {
            Next::End
        } else {
            Next::Torn
        }
    }

    fn bytes(&self) -> &[u8]
        ensures { result.now ≡ self.now }
    {
        &self.held.as_bytes()[self.start..]
    }

    // Takes the item that what is held begins with.
    fn take<E: Element>(&mut self, alloc: Global) -> Result<Option<(E::Item, usize)>, AllocError>
        requires code { IsCode E.IsValid E.encode }
        ensures { IfOk result (Takes E.IsValid E.encode self.old self.new) }
    {
        let Some((item, next)) = E::get(alloc, self.held.as_bytes(), self.start)? else {
            return Ok(None);
        };
        let size = next - self.start;
        self.start = next;
        Ok(Some((item, size)))
    }

    // Reads as much again as is held. It is false at the end.
    fn fill<S: Source>(&mut self, alloc: Global, source: &mut S) -> Result<bool, ReadFault>
        ensures fills { IfOk result (Fills (S.left source.old) (S.left source.new) self.old self.new) }
        ensures cause { RisesOnlyWhere (result ≡ Err failed) (S.faults source.old) (S.faults source.new) }
    {
        let limit = self.bytes().len().max(LEAST_PIECE).min(MOST_PIECE);
        let more = read_all(alloc, source, limit)?;
        let some = !more.is_empty();
        self.append(alloc, more)?;
        Ok(some)
    }

    // Holds what came behind what is left.
    fn append(&mut self, alloc: Global, more: Txt) -> Result<(), AllocError>
        ensures { OnOk result (self.new ≡ self.old ++ more) }
    {
        if self.start == self.held.len() {
            self.held = more;
        } else {
            let mut held = Txt::from_slice(alloc, self.bytes())?;
            held.extend(more.as_bytes())?;
            self.held = held;
        }
        self.start = 0;
        Ok(())
    }
}
