//! A Boolean expression: a disjunction of conjunctions of predicates.
ghost use Rattle.std.specs.Prelude.{◌≡◌, IsTrue, length};
ghost use Rattle.target_expr.specs.Kept.{is_kept};

use crate::pred::Pred;
use rtb_num::List;
use std::alloc::Global;
use std::marker::Model;

/// A Boolean expression: some conjunction of it has all its predicates true.
///
/// Contracts see it as the list of its conjunctions, each the list of its predicates. There are 1 to
/// 64 conjunctions of at most 16 predicates, which rise by attribute. A predicate has 1 to 256 values
/// of at most 255 bytes, which rise in byte order.
#[derive(Drop)]
pub struct Expr {
    conjunctions: Vec<List<Pred>>,
}

impl Model for Expr {
    ghost use Rattle.std.specs.Prelude.{List, IsTrue};
    ghost use Rattle.target_expr.specs.declared.pred.Pred.{Pred};
    ghost use Rattle.target_expr.specs.Kept.{is_kept};

    ghost Value = { List (List Pred) };

    ghost view = { λ e. e.conjunctions.items };

    ghost invariant = { λ e. IsTrue (is_kept e.conjunctions.items) };
}

impl Expr {
    // The expression of these conjunctions.
    pub(crate) fn of(conjunctions: Vec<List<Pred>>) -> Expr
        requires { IsTrue (is_kept conjunctions.items) }
        ensures { result ≡ conjunctions.items }
    {
        Expr { conjunctions }
    }

    // The conjunctions, in order.
    pub(crate) fn as_slice(&self) -> &[List<Pred>]
        ensures value { result.now ≡ self.now }
        ensures is_kept { IsTrue (is_kept self.now) }
    {
        self.conjunctions.as_slice()
    }

    // What its memory comes from.
    pub(crate) fn allocator(&self) -> Global {
        *self.conjunctions.allocator()
    }

    /// How many conjunctions it has, 1 to 64.
    pub fn conjunctions(&self) -> usize
        ensures value { result ≡ length self.now }
        ensures kept { IsTrue (is_kept self.now) }
    {
        self.conjunctions.len()
    }
}
