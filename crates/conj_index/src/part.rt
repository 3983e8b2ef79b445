//! The part of an index that has the conjunctions of one size.
use crate::key::Key;
use indexmap::IndexMap;
use postings::Postings;
use rtb_num::List;

/// The part of an index that has the conjunctions of one size.
///
/// A key's position in `keys` is the place of its posting list in `lists`. Part 0 has one list more,
/// its last: the zero list, with a plain entry for each conjunction of size 0.
#[derive(Drop)]
pub struct Part {
    pub keys: IndexMap<Key, ()>,
    pub lists: List<Postings>,
}
