//! Whether an expression is true under an assignment.
ghost use Rattle.std.specs.Prelude.{◌≡◌, ◌+◌, IsTrue};
ghost use Rattle.std.specs.List.{list_all, list_any};
ghost use Rattle.std.specs.Str.{bytes_eq};
ghost use Rattle.target_expr.specs.Kept.{is_kept_pred, rise, text_below};
ghost use Rattle.target_expr.specs.Truth.{conjunction_holds, holds, is_in, pred_holds, tests_in};

use crate::assignment::Assignment;
use crate::expr::Expr;
use crate::pred::Pred;
use rtb_base::Steps;
use rtb_num::Txt;
use std::sync::ledger::Ledger;

impl Expr {
    /// Whether it is true under the assignment: some conjunction has all its predicates true.
    ///
    /// One step is one conjunction that is looked at. They are looked at in order, up to the first
    /// that is true.
    pub fn holds<L: Ledger>(&self, assignment: &Assignment, steps: &mut Steps<L>) -> bool
        ensures value { result ≡ holds assignment.now self.now }
        ensures steps { steps.new ≡ steps.old + tests_in assignment.now self.now }
    {
        for conjunction in self.as_slice() {
            steps.tick();
            if conjunction_holds(conjunction.as_slice(), assignment) {
                return true;
            }
        }
        false
    }
}

// Whether all the predicates are true.
fn conjunction_holds(conjunction: &[Pred], assignment: &Assignment) -> bool
    requires { IsTrue (list_all is_kept_pred conjunction.now) }
    ensures { result ≡ conjunction_holds assignment.now conjunction.now }
{
    for pred in conjunction {
        if !pred_holds(pred, assignment) {
            return false;
        }
    }
    true
}

/// Whether the predicate is true under the assignment. "Not in" is true of an attribute that is absent.
pub fn pred_holds(pred: &Pred, assignment: &Assignment) -> bool
    requires { IsTrue (is_kept_pred pred.now) }
    ensures { result ≡ pred_holds assignment.now pred.now }
{
    if pred.negated {
        !is_in(pred, assignment)
    } else {
        is_in(pred, assignment)
    }
}

// Whether the attribute is present, with a listed value.
fn is_in(pred: &Pred, assignment: &Assignment) -> bool
    requires { IsTrue (is_kept_pred pred.now) }
    ensures { result ≡ is_in assignment.now pred.now }
{
    match assignment.get(pred.attr) {
        Some(value) => is_listed(pred.values.as_slice(), value),
        None => false,
    }
}

// Whether the value is one of these, which rise in byte order.
fn is_listed(values: &[Txt], value: &Txt) -> bool
    requires { IsTrue (rise text_below values.now) }
    ensures { result ≡ list_any (λ v. bytes_eq v value.now) values.now }
{
    values.binary_search(value).is_ok()
}
