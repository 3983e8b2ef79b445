//! Which arrays and objects are open, and what stands in each.
ghost use Rattle.std.specs.Prelude.{◌≡◌, ◌∷◌, [], cond, drop, IsTrue, OnOk, OnErr};
ghost use Rattle.std.specs.List.{slice_get};
ghost use Rattle.json_out.specs.Writer.{beginning, ending, fill as fill_in, is_open, name_in, separator, wants_name, wants_value};

use std::alloc::{AllocError, Global};
use std::marker::Model;

/// An array or an object that is open, and what stands in it.
#[derive(Clone, Copy)]
pub enum Place {
    /// `filled`: it has an element.
    Array { filled: bool },
    /// `filled`: it has a member. `named`: the next member has its name, and no value yet.
    Object { filled: bool, named: bool },
}

impl Place {
    // The byte that begins it.
    #[inline(always)]
    pub(crate) fn opening(self) -> u8
        ensures { result ∷ [] ≡ beginning self }
    {
        match self {
            Place::Array { .. } => b'[',
            Place::Object { .. } => b'{',
        }
    }
}

// How many are open at once in most texts, or fewer.
const ROOM: usize = 8;

// The arrays and objects that are open, the innermost last; contracts see it first.
#[derive(Drop)]
pub(crate) struct Places {
    items: Vec<Place>,
}

impl Model for Places {
    ghost use Rattle.std.specs.Prelude.{List, reverse};
    ghost use Rattle.json_out.specs.declared.places.Place.{Place};

    ghost Value = { List Place };

    ghost view = { λ a. reverse a.items.items };
}

impl Places {
    pub(crate) fn new(alloc: Global) -> Places
        ensures { result ≡ [] }
    {
        Places {
            items: Vec::new(alloc),
        }
    }

    // As `new`, with room where it is given.
    pub(crate) fn with_room(alloc: Global) -> Places
        ensures { result ≡ [] }
    {
        match Vec::with_capacity(alloc, ROOM) {
            Ok(items) => Places { items },
            Err(_) => Places::new(alloc),
        }
    }

    #[inline(always)]
    fn innermost(&self) -> Option<Place>
        ensures { result ≡ slice_get self.now 0 }
    {
        self.items.as_slice().last().copied()
    }

    pub(crate) fn push(&mut self, place: Place) -> Result<(), AllocError>
        ensures ok { OnOk result (self.new ≡ place ∷ self.old) }
        ensures err { OnErr result (self.new ≡ self.old) }
    {
        self.items.push(place)?;
        Ok(())
    }

    pub(crate) fn pop(&mut self)
        ensures { self.new ≡ drop 1 self.old }
    {
        self.items.pop();
    }

    #[inline(always)]
    fn replace(&mut self, place: Place)
        requires { IsTrue (is_open self.old) }
        ensures { self.new ≡ place ∷ drop 1 self.old }
    {
        let last = self.items.len() - 1;
        self.items[last] = place;
    }

    pub(crate) fn is_open(&self) -> bool
        ensures { result ≡ is_open self.now }
    {
        self.innermost().is_some()
    }

    pub(crate) fn wants_name(&self) -> bool
        ensures { result ≡ wants_name self.now }
    {
        match self.innermost() {
            Some(Place::Object { named, .. }) => !named,
            _ => false,
        }
    }

    pub(crate) fn wants_value(&self) -> bool
        ensures { result ≡ wants_value self.now }
    {
        match self.innermost() {
            Some(Place::Object { named, .. }) => named,
            _ => false,
        }
    }

    // Whether a comma stands before the next element or member.
    #[inline(always)]
    pub(crate) fn has_one(&self) -> bool
        ensures { cond result (44 ∷ []) [] ≡ separator self.now }
    {
        match self.innermost() {
            Some(Place::Array { filled: true }) => true,
            Some(
                Place::Object {
                    filled: true,
                    named: false,
                },
            ) => true,
            _ => false,
        }
    }

    // The byte that ends the innermost.
    #[inline(always)]
    pub(crate) fn closing(&self) -> u8
        requires { IsTrue (is_open self.now) }
        ensures { result ∷ [] ≡ ending self.now }
    {
        match self.innermost() {
            Some(Place::Array { .. }) => b']',
            Some(Place::Object { .. }) => b'}',
            None => unreachable!(),
        }
    }

    // A value stands in the innermost.
    #[inline(always)]
    pub(crate) fn fill(&mut self)
        ensures { self.new ≡ fill_in self.old }
    {
        match self.innermost() {
            Some(Place::Array { .. }) => self.replace(Place::Array { filled: true }),
            Some(Place::Object { .. }) => self.replace(Place::Object {
                filled: true,
                named: false,
            }),
            None => {}
        }
    }

    // The next member of the innermost has its name.
    #[inline(always)]
    pub(crate) fn name(&mut self)
        ensures { self.new ≡ name_in self.old }
    {
        if let Some(Place::Object { filled, .. }) = self.innermost() {
            self.replace(Place::Object {
                filled,
                named: true,
            });
        }
    }
}
