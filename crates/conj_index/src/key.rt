//! An attribute and a value that conjunctions name.
use rtb_num::Txt;
use target_expr::Attr;

/// An attribute and a value that conjunctions name: each has a posting list.
#[derive(Debug, Drop, PartialEq, Eq, Hash)]
pub struct Key {
    pub attr: Attr,
    pub value: Txt,
}
