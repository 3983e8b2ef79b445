//! The first fault of an expression in conjunctive form, in the order in which it is written.
ghost use Rattle.std.specs.Prelude.{◌≡◌, ◌<◌, ◌==◌, false, is_none, length, nat_lt};
ghost use Rattle.std.specs.List.{list_any};
ghost use Rattle.target_expr.specs.Attributes.{attr_named};
ghost use Rattle.target_expr.specs.Kept.{is_too_much};
ghost use Rattle.cnf_match.specs.Making.{clause_faults, clauses_faults, end_of, faults, first_of, is_refused, is_wrong, mark_of, pred_faults, same_pair, weight_faults};

use crate::fault::CnfFault;
use crate::name_view::NameView;
use crate::names::are_same;
use crate::pred::RawPred;
use crate::values::Listed;
use crate::weight::RawWeight;
use crate::{GREATEST_WEIGHT, MOST_CLAUSES, MOST_WEIGHTS};
use rtb_num::List;
use target_expr::{LONGEST_VALUE, MOST_PREDICATES, MOST_VALUES};

// The first fault, in the order of reading.
pub(crate) fn first_fault(raw: &[List<RawPred<'_>>], weights: &[RawWeight<'_>]) -> Option<CnfFault>
    ensures { result ≡ first_of (faults raw.now weights.now) }
{
    let fault = clauses_fault(raw);
    if fault.is_some() {
        return fault;
    }
    weights_fault(weights)
}

// The first fault of the clauses.
fn clauses_fault(raw: &[List<RawPred<'_>>]) -> Option<CnfFault>
    ensures { result ≡ first_of (clauses_faults raw.now) }
{
    if raw.len() > MOST_CLAUSES {
        return Some(CnfFault::TooMany {
            clause: 0,
            predicate: 0,
        });
    }
    for (i, clause) in raw.iter().enumerate() {
        let fault = clause_fault(i, clause.as_slice());
        if fault.is_some() {
            return fault;
        }
    }
    None
}

// The first fault of the clause at place `i`.
fn clause_fault(i: usize, clause: &[RawPred<'_>]) -> Option<CnfFault>
    ensures { result ≡ first_of (clause_faults (i, clause.now)) }
{
    if clause.is_empty() {
        return Some(CnfFault::EmptyClause { clause: i });
    }
    if clause.len() > MOST_PREDICATES {
        return Some(CnfFault::TooMany {
            clause: i,
            predicate: 0,
        });
    }
    for (j, pred) in clause.iter().enumerate() {
        let fault = pred_fault(i, j, pred);
        if fault.is_some() {
            return fault;
        }
    }
    None
}

// The first fault of the predicate, at these places.
#[tactic(auto, using(crate::proofs::Faults::three_faults))]
fn pred_fault(i: usize, j: usize, pred: &RawPred<'_>) -> Option<CnfFault>
    ensures { result ≡ first_of (pred_faults i (j, pred.now)) }
{
    if is_unknown(pred.name()) {
        return Some(CnfFault::UnknownAttr {
            clause: i,
            predicate: j,
        });
    }
    if has_no_values(pred) {
        return Some(CnfFault::EmptyList {
            clause: i,
            predicate: j,
        });
    }
    if is_too_much(pred) {
        return Some(CnfFault::TooMany {
            clause: i,
            predicate: j,
        });
    }
    None
}

// The first fault of the weights. Two of one pair have the same mark, so mostly no earlier one has to be looked at.
fn weights_fault(weights: &[RawWeight<'_>]) -> Option<CnfFault>
    ensures { result ≡ first_of (weight_faults weights.now) }
{
    let mut seen = [false; MARKS];
    for (at, weight) in weights.iter().enumerate() {
        let mark = mark_of(weight);
        if is_wrong(&weights[..at], weight, seen[mark]) {
            return Some(CnfFault::Weight { at });
        }
        seen[mark] = true;
    }
    None
}

const MARKS: usize = 64;

// The weight's mark, below 64.
fn mark_of(weight: &RawWeight<'_>) -> usize
    ensures value { result ≡ mark_of weight.now }
    ensures small { result < 64 }
{
    let attr = usize::from(end_of(weight.attr.as_bytes()));
    let value = usize::from(end_of(weight.value.as_bytes()));
    (attr * 5 + value) % MARKS
}

// Whether behind these the weight is one too many, or refused, or of a pair that was weighed before.
fn is_wrong(earlier: &[RawWeight<'_>], weight: &RawWeight<'_>, seen: bool) -> bool
    requires { seen ≡ false → list_any (λ v. same_pair v weight.now) earlier.now ≡ false }
    ensures { result ≡ is_wrong earlier.now weight.now }
{
    earlier.len() == MOST_WEIGHTS || is_refused(weight) || is_twice(earlier, weight, seen)
}

// Whether one of the earlier weights is of the same pair, which only one whose mark was seen can be.
#[tactic(auto, using(crate::proofs::Seen::where_seen))]
fn is_twice(earlier: &[RawWeight<'_>], weight: &RawWeight<'_>, seen: bool) -> bool
    requires { seen ≡ false → list_any (λ v. same_pair v weight.now) earlier.now ≡ false }
    ensures { result ≡ list_any (λ v. same_pair v weight.now) earlier.now }
{
    seen && stands_in(earlier, weight)
}

// Whether it names no attribute, or its value is too long, or it is too great.
fn is_refused(weight: &RawWeight<'_>) -> bool
    ensures { result ≡ is_refused weight.now }
{
    is_unknown(&weight.attr) || is_long(weight.value.as_bytes()) || weight.weight > GREATEST_WEIGHT
}

// Whether one of the earlier weights is of the same pair.
fn stands_in(earlier: &[RawWeight<'_>], weight: &RawWeight<'_>) -> bool
    ensures { result ≡ list_any (λ v. same_pair v weight.now) earlier.now }
{
    earlier.iter().any(|other| is_of_pair(other, weight))
}

// The ends of the values are looked at first: mostly they tell.
#[tactic(auto, using(crate::proofs::Naming::ends_first))]
fn is_of_pair(other: &RawWeight<'_>, weight: &RawWeight<'_>) -> bool
    ensures { result ≡ same_pair other.now weight.now }
{
    end_of(other.value.as_bytes()) == end_of(weight.value.as_bytes())
        && are_same(other.attr.as_bytes(), weight.attr.as_bytes())
        && are_same(other.value.as_bytes(), weight.value.as_bytes())
}

// The last byte, or 0 where there is none.
fn end_of(text: &[u8]) -> u8
    ensures { result ≡ end_of text.now }
{
    if text.is_empty() {
        0
    } else {
        text[text.len() - 1]
    }
}

// Whether no attribute has the name.
fn is_unknown(name: &NameView<'_>) -> bool
    ensures { result ≡ is_none (attr_named name.now) }
{
    name.attr().is_none()
}

// Whether it lists no value.
fn has_no_values(pred: &RawPred<'_>) -> bool
    ensures { result ≡ (length pred.now.values == 0) }
{
    pred.values().len() == 0
}

// Whether it has too many values, or one that is too long.
fn is_too_much(pred: &RawPred<'_>) -> bool
    ensures { result ≡ is_too_much pred.now }
{
    pred.values().len() > MOST_VALUES || has_long(pred.values())
}

// Whether a value is too long.
#[tactic(auto, using(crate::proofs::Lists::none_passes_more))]
fn has_long(values: &Listed<'_>) -> bool
    ensures { result ≡ list_any (λ v. nat_lt 255 (length v)) values.now }
{
    for place in 0..values.len() {
        if is_long(values.get(place)) {
            return true;
        }
    }
    false
}

fn is_long(value: &[u8]) -> bool
    ensures { result ≡ nat_lt 255 (length value.now) }
{
    value.len() > LONGEST_VALUE
}
