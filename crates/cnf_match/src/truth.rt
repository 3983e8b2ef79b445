//! Whether an expression is true, what it scores, and its first false clause.
ghost use Rattle.std.specs.Prelude.{◌≡◌, ◌≤◌, if◌then◌else◌};
ghost use Rattle.std.specs.List.{list_any};
ghost use Rattle.std.specs.Str.{bytes_eq};
ghost use Rattle.target_expr.specs.Truth.{is_in, pred_holds};
ghost use Rattle.cnf_match.specs.Conjunctive.{clause_holds, clauses_hold, first_false, is_weighed, score_of};

use crate::expr::CnfExpr;
use crate::names::are_same;
use crate::pred::Pred;
use crate::values::Values;
use crate::weight::Weight;
use rtb_num::Txt;
use target_expr::Assignment;

impl<'a> CnfExpr<'a> {
    /// Whether it is true under the assignment: each clause has a predicate that is true.
    pub fn holds(&self, assignment: &Assignment) -> bool
        ensures { result ≡ clauses_hold assignment.now self.now.clauses }
    {
        self.first_false(assignment).is_none()
    }

    /// The place of the first clause that is false under the assignment, counted from 0; none where the expression is
    /// true.
    pub fn first_false(&self, assignment: &Assignment) -> Option<u32>
        ensures { result ≡ first_false assignment.now self.now.clauses }
    {
        for (place, clause) in self.clauses().iter().enumerate() {
            if !clause_holds(clause.as_slice(), assignment) {
                return Some(place as u32);
            }
        }
        None
    }

    /// The sum of the weights of the values that attributes have under the assignment, at most 64,000,000.
    pub fn score(&self, assignment: &Assignment) -> u64
        ensures value { result ≡ score_of assignment.now self.now.weights }
        ensures most { result ≤ 64000000 }
    {
        let mut score = 0;
        for weight in self.weights() {
            score += weighed(weight, assignment);
        }
        score
    }
}

// Whether some predicate is true.
#[tactic(auto, using(crate::proofs::Lists::none_passes_more))]
fn clause_holds(clause: &[Pred<'_>], assignment: &Assignment) -> bool
    ensures { result ≡ clause_holds assignment.now clause.now }
{
    for pred in clause {
        if pred_holds(pred, assignment) {
            return true;
        }
    }
    false
}

// Whether the predicate is true. "Not in" is true of an attribute that is absent.
fn pred_holds(pred: &Pred<'_>, assignment: &Assignment) -> bool
    ensures { result ≡ pred_holds assignment.now pred.now }
{
    if pred.is_negated() {
        !is_in(pred, assignment)
    } else {
        is_in(pred, assignment)
    }
}

// Whether the attribute is present, with a listed value.
fn is_in(pred: &Pred<'_>, assignment: &Assignment) -> bool
    ensures { result ≡ is_in assignment.now pred.now }
{
    let Some(value) = assignment.get(pred.attr()) else {
        return false;
    };
    is_listed(pred.values(), value)
}

// Whether the value is one of these.
#[tactic(auto, using(crate::proofs::Lists::none_passes_more))]
fn is_listed(values: &Values<'_>, value: &Txt) -> bool
    ensures { result ≡ list_any (λ v. bytes_eq v value.now) values.now }
{
    for place in 0..values.len() {
        if are_same(values.get(place), value.as_bytes()) {
            return true;
        }
    }
    false
}

// The weight, where the attribute has the value; else 0.
fn weighed(weight: &Weight<'_>, assignment: &Assignment) -> u64
    ensures { result ≡ (if is_weighed assignment.now weight.now then weight.now.weight else 0) }
{
    if is_weighed(weight, assignment) {
        u64::from(weight.weight)
    } else {
        0
    }
}

// Whether the attribute has the value.
fn is_weighed(weight: &Weight<'_>, assignment: &Assignment) -> bool
    ensures { result ≡ is_weighed assignment.now weight.now }
{
    match assignment.get(weight.attr) {
        Some(value) => are_same(weight.value.as_bytes(), value.as_bytes()),
        None => false,
    }
}
