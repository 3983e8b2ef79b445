//! Predicates, as they are stated and as they are kept.
use crate::attr::Attr;
use rtb_num::{List, Txt};

/// A predicate as a campaign states it.
#[derive(Drop)]
pub struct RawPred {
    /// The attribute's name.
    pub attr: Txt,
    /// Whether it asks that the value is none of the listed ones.
    pub negated: bool,
    /// The listed values.
    pub values: List<Txt>,
}

/// A predicate of an expression. Its values stand in byte order, each once.
#[derive(Drop)]
pub struct Pred {
    pub attr: Attr,
    /// Whether it asks that the value is none of the listed ones.
    pub negated: bool,
    /// The listed values.
    pub values: List<Txt>,
}

/// An attribute with a value that an expression names.
#[derive(Drop)]
pub struct Pair {
    /// The place of the conjunction in its expression, counted from 0.
    pub conjunction: u32,
    /// How many predicates of that conjunction are not negated.
    pub size: u32,
    pub attr: Attr,
    /// Whether the value is named by a negated predicate.
    pub negated: bool,
    pub value: Txt,
}
