//! The room in which the bodies of messages are read.

use bumpalo::Bump;
use std::alloc::Global;

// The greatest body, in bytes, whose room is kept. A greater one has a room of its own, which it gives back.
const GREATEST_KEPT: usize = 8192;

/// The room in which the bodies of messages are read, one after the other.
///
/// It takes memory as bodies need it, and what it has taken it keeps for the next one: about six times the greatest
/// body that it served, of at most 8,192 bytes each. A greater body is read in a room of its own.
#[derive(Drop)]
pub struct Rooms {
    arena: Bump,
    // The greatest body that it serves.
    greatest: usize,
}

impl Rooms {
    /// A room that serves one body after the other.
    pub fn new(alloc: Global) -> Rooms {
        Rooms {
            arena: Bump::new(alloc),
            greatest: GREATEST_KEPT,
        }
    }

    // One that serves none, so that each body has its own.
    pub(crate) fn of_none(alloc: Global) -> Rooms {
        Rooms {
            arena: Bump::new(alloc),
            greatest: 0,
        }
    }

    pub(crate) fn serves(&self, body: &[u8]) -> bool {
        body.len() <= self.greatest
    }

    pub(crate) fn arena(&self) -> &Bump {
        &self.arena
    }

    // Lets go of what was read in it.
    pub(crate) fn clear(&mut self, alloc: Global) {
        match self.arena.reset() {
            Ok(()) => {}
            Err(_) => self.arena = Bump::new(alloc),
        }
    }
}
