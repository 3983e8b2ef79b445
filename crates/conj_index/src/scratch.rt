//! The room in which campaigns are found.
use crate::key::Key;
use conj_match::Tally;
use std::alloc::Global;

/// Room in which campaigns are found. A worker keeps it from find to find, so that its memory is taken
/// once: a byte and a bit for each conjunction of the largest index that it was used with.
#[derive(Drop)]
pub struct Scratch {
    // The keys of the assignment's pairs.
    pub(crate) looked: Vec<Key>,
    // The places of their lists in one part.
    pub(crate) places: Vec<usize>,
    pub(crate) tally: Tally,
    // The conjunctions that are found.
    pub(crate) ids: Vec<u32>,
}

impl Scratch {
    /// Room for nothing yet. It takes no memory.
    pub fn new(alloc: Global) -> Scratch {
        Scratch {
            looked: Vec::new(alloc),
            places: Vec::new(alloc),
            tally: Tally::new(alloc),
            ids: Vec::new(alloc),
        }
    }
}
