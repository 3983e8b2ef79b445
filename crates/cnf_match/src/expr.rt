//! A Boolean expression in conjunctive form.
ghost use Rattle.std.specs.Prelude.{◌≡◌, IsTrue};
ghost use Rattle.cnf_match.specs.Conjunctive.{are_kept_clauses, are_kept_weights};

use crate::pred::Pred;
use crate::weight::Weight;
use rtb_num::List;
use std::marker::Model;

/// A Boolean expression in conjunctive form: each clause of it has a predicate that is true. One without a clause is
/// true.
///
/// Contracts see it as its clauses, each the list of its predicates, and its weights. There are at most 16 clauses of
/// 1 to 16 predicates, and at most 64 weights, no two of them of one value of one attribute. The values of a predicate
/// rise in byte order.
#[derive(Drop)]
pub struct CnfExpr<'a> {
    clauses: Vec<List<Pred<'a>>>,
    weights: List<Weight<'a>>,
}

impl<'a> Model for CnfExpr<'a> {
    ghost use Rattle.std.specs.Prelude.{IsTrue};
    ghost use Rattle.cnf_match.specs.Conjunctive.{Cnf, are_kept_clauses, are_kept_weights};

    ghost Value = { Cnf };

    ghost view = { λ e. record { clauses = e.clauses.items; weights = e.weights } };

    ghost invariant = { λ e. IsTrue (are_kept_clauses e.clauses.items) × IsTrue (are_kept_weights e.weights) };
}

impl<'a> CnfExpr<'a> {
    // The expression of these clauses and weights.
    pub(crate) fn of(clauses: Vec<List<Pred<'a>>>, weights: List<Weight<'a>>) -> CnfExpr<'a>
        requires clauses { IsTrue (are_kept_clauses clauses.items) }
        requires weights { IsTrue (are_kept_weights weights) }
        ensures { result ≡ record { clauses = clauses.entry.items; weights = weights.entry } }
    {
        CnfExpr { clauses, weights }
    }

    // The clauses, in order.
    pub(crate) fn clauses(&self) -> &[List<Pred<'a>>]
        ensures value { result.now ≡ self.now.clauses }
        ensures kept { IsTrue (are_kept_clauses self.now.clauses) }
    {
        self.clauses.as_slice()
    }

    // The weights, in order.
    pub(crate) fn weights(&self) -> &[Weight<'a>]
        ensures value { result.now ≡ self.now.weights }
        ensures kept { IsTrue (are_kept_weights self.now.weights) }
    {
        self.weights.as_slice()
    }
}
