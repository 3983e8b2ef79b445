//! The values that an impression gives to attributes.
ghost use Rattle.std.specs.Prelude.{◌≡◌, [], ◌↔◌, IsTrue, length};
ghost use Rattle.std.specs.Option.{option_copied};
ghost use Rattle.target_expr.specs.Truth.{are_single, same_attr, value_at};

use crate::attr::Attr;
use rtb_num::{List, Txt};
use std::marker::Model;

/// The values that an impression gives to attributes. Contracts see it as the list of its pairs.
///
/// No attribute stands twice.
#[derive(Drop)]
pub struct Assignment {
    pairs: List<(Attr, Txt)>,
}

impl Model for Assignment {
    ghost use Rattle.std.specs.Prelude.{ℕ, List, IsTrue};
    ghost use Rattle.target_expr.specs.declared.attr.Attr.{Attr};
    ghost use Rattle.target_expr.specs.Truth.{are_single};

    ghost Value = { List (Attr × List ℕ) };

    ghost view = { λ a. a.pairs };

    ghost invariant = { λ a. IsTrue (are_single a.pairs) };
}

impl Assignment {
    /// The assignment of these pairs.
    pub fn make(pairs: List<(Attr, Txt)>) -> Assignment
        requires { IsTrue (are_single pairs) }
        ensures { result ≡ pairs }
    {
        Assignment { pairs }
    }

    /// How many attributes are present.
    pub fn len(&self) -> usize
        ensures { result ≡ length self.now }
    {
        self.pairs.len()
    }

    /// Whether no attribute is present.
    pub fn is_empty(&self) -> bool
        ensures { IsTrue result ↔ (self.now ≡ []) }
    {
        self.pairs.is_empty()
    }

    /// The value of the attribute, or none where it is absent.
    pub fn get(&self, a: Attr) -> Option<&Txt>
        ensures { option_copied result ≡ value_at self.now a }
    {
        for pair in self.pairs.as_slice() {
            if is_same(pair.0, a) {
                return Some(&pair.1);
            }
        }
        None
    }

    /// The pairs, no attribute twice.
    pub fn pairs(&self) -> &[(Attr, Txt)]
        ensures value { result.now ≡ self.now }
        ensures single { IsTrue (are_single self.now) }
    {
        self.pairs.as_slice()
    }
}

// Whether the attributes are one.
fn is_same(a: Attr, b: Attr) -> bool
    ensures { result ≡ same_attr a b }
{
    a.number() == b.number()
}
