//! An index of the conjunctions of campaigns' expressions (Whang et al., VLDB 2009).
use crate::part::Part;
use rtb_num::List;

/// An index of the conjunctions of campaigns' expressions.
///
/// A conjunction's size is the number of its predicates that are not negated. Part K, at place K of
/// `parts`, has the conjunctions of size K; there are as many parts as the greatest size and one more.
#[derive(Drop)]
pub struct Index {
    /// The number of the campaign that has the conjunction, by the conjunction's number.
    pub owners: List<u32>,
    pub parts: List<Part>,
}
