//! The first fault of an expression, in the order in which it is written.
ghost use Rattle.std.specs.Prelude.{◌≡◌, ◌≤◌, ◌==◌, is_none, length, nat_lt};
ghost use Rattle.std.specs.List.{list_any};
ghost use Rattle.std.specs.Str.{bytes_eq};
ghost use Rattle.target_expr.specs.Attributes.{attr_named};
ghost use Rattle.target_expr.specs.Kept.{conjunction_faults, faults, first_of, is_too_much, pred_faults};

use crate::attr::attr_named;
use crate::fault::ExprFault;
use crate::pred::RawPred;
use crate::{LONGEST_VALUE, MOST_CONJUNCTIONS, MOST_PREDICATES, MOST_VALUES};
use rtb_num::{List, Txt};

// The first fault, in the order of reading.
pub(crate) fn first_fault(raw: &[List<RawPred>]) -> Option<ExprFault>
    ensures { result ≡ first_of (faults raw.now) }
{
    if raw.is_empty() {
        return Some(ExprFault::NoConjunction);
    }
    if raw.len() > MOST_CONJUNCTIONS {
        return Some(ExprFault::TooMany {
            conjunction: 0,
            predicate: 0,
        });
    }
    for (i, conjunction) in raw.iter().enumerate() {
        let fault = conjunction_fault(i, conjunction.as_slice());
        if fault.is_some() {
            return fault;
        }
    }
    None
}

// The first fault of the conjunction at place `i`.
fn conjunction_fault(i: usize, conjunction: &[RawPred]) -> Option<ExprFault>
    ensures { result ≡ first_of (conjunction_faults (i, conjunction.now)) }
{
    if conjunction.len() > MOST_PREDICATES {
        return Some(ExprFault::TooMany {
            conjunction: i,
            predicate: 0,
        });
    }
    for (j, pred) in conjunction.iter().enumerate() {
        let fault = pred_fault(i, j, conjunction, pred);
        if fault.is_some() {
            return fault;
        }
    }
    None
}

// The first fault of a predicate of the conjunction, at these places.
#[tactic(auto, using(crate::proofs::Faults::four_faults))]
fn pred_fault(i: usize, j: usize, conjunction: &[RawPred], pred: &RawPred) -> Option<ExprFault>
    requires { j ≤ length conjunction.now }
    ensures { result ≡ first_of (pred_faults i conjunction.now (j, pred.now)) }
{
    if is_unknown(pred) {
        return Some(ExprFault::UnknownAttr {
            conjunction: i,
            predicate: j,
        });
    }
    if stands_in(&conjunction[..j], pred) {
        return Some(ExprFault::AttrTwice {
            conjunction: i,
            predicate: j,
        });
    }
    if has_no_values(pred) {
        return Some(ExprFault::EmptyList {
            conjunction: i,
            predicate: j,
        });
    }
    if is_too_much(pred) {
        return Some(ExprFault::TooMany {
            conjunction: i,
            predicate: j,
        });
    }
    None
}

// Whether no attribute has its name.
fn is_unknown(pred: &RawPred) -> bool
    ensures { result ≡ is_none (attr_named pred.now.attr) }
{
    attr_named(pred.attr.as_bytes()).is_none()
}

// Whether one of the earlier predicates has the same attribute.
fn stands_in(earlier: &[RawPred], pred: &RawPred) -> bool
    ensures { result ≡ list_any (λ q. bytes_eq q.attr pred.now.attr) earlier.now }
{
    earlier.iter().any(|other| other.attr == pred.attr)
}

// Whether it lists no value.
fn has_no_values(pred: &RawPred) -> bool
    ensures { result ≡ (length pred.now.values == 0) }
{
    pred.values.len() == 0
}

// Whether it has too many values, or one that is too long.
fn is_too_much(pred: &RawPred) -> bool
    ensures { result ≡ is_too_much pred.now }
{
    pred.values.len() > MOST_VALUES || has_long(pred.values.as_slice())
}

// Whether a value is too long.
fn has_long(values: &[Txt]) -> bool
    ensures { result ≡ list_any (λ v. nat_lt 255 (length v)) values.now }
{
    values.iter().any(|value| is_long(value))
}

fn is_long(value: &Txt) -> bool
    ensures { result ≡ nat_lt 255 (length value.now) }
{
    value.len() > LONGEST_VALUE
}
