//! An entry of a posting list.

/// An entry of a posting list: a conjunction, and whether it excludes the value of the list.
///
/// Entries stand by number, and of one number the negated one stands first.
#[derive(Clone, Copy, Debug, PartialEq, Eq)]
pub struct Entry {
    /// The conjunction's number.
    pub id: u32,
    /// Whether the conjunction asks that the value is not there.
    pub negated: bool,
}
