//! The index of expressions in conjunctive form: keys, entries and the zero list.
use crate::counted::Counted;
use indexmap::IndexMap;
use rtb_num::{List, Txt};
use target_expr::Attr;

/// An attribute and a value that predicates name: each has a list of entries.
#[derive(Debug, Drop, PartialEq, Eq, Hash)]
pub struct Key {
    pub attr: Attr,
    pub value: Txt,
}

/// A predicate that names a key.
#[derive(Clone, Copy, Drop)]
pub struct Entry {
    /// The place of its expression, counted from 0.
    pub expression: u16,
    /// The place of its clause in the expression, counted from 0.
    pub clause: u8,
    /// Whether it asks that the value is none of the listed ones.
    pub negated: bool,
}

/// An index of expressions in conjunctive form. It holds no expression.
///
/// A key's position in `keys` is the place of its list in `lists`. What it knows of expressions is read an entry at a
/// time, each for a step.
#[derive(Drop)]
pub struct CnfIndex {
    pub keys: IndexMap<Key, ()>,
    pub lists: List<Counted<Entry>>,
    /// The places of the expressions each clause of which has a negated predicate: such a one may be true where no
    /// entry of it is found.
    pub zeros: Counted<u32>,
    /// How many predicates of each clause are negated: sixteen places an expression, with 1 where it has no clause.
    pub negated: List<u8>,
}
