//! A true expression with its score, as ranks are compared.
use std::cmp::Reverse;

// An expression that is true. The least of two comes first: the one of the greater score, or else of the smaller
// number.
#[derive(Clone, Copy, PartialEq, Eq, PartialOrd, Ord)]
pub(crate) struct Rank {
    pub(crate) score: Reverse<u64>,
    pub(crate) number: u32,
}
