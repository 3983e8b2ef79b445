//! The clauses of an expression: predicates of attributes and values.
ghost use Rattle.std.specs.Prelude.{◌≡◌, ◌&&◌, [], if◌then◌else◌, map, not};
ghost use Rattle.exact_json.specs.View.{tree_of};
ghost use Rattle.json_fields.specs.Answers.{Answers, map_ok};
ghost use Rattle.json_fields.specs.Readings.{each_in, with_faults};
ghost use Rattle.which_read.specs.Clauses.{clause_at, clauses_field, has_in, has_not, pred_at, pred_in};
ghost use Rattle.which_read.specs.Parts.{fault_where};
ghost use Rattle.which_read.specs.declared.fault.WhichFault.{WhichFault};
ghost use Rattle.which_read.specs.declared.field.WhichField.{WhichField};

use crate::fault::WhichFault;
use crate::field::WhichField;
use crate::parts::{fault, filled, name_field, push, texts_where};
use cnf_match::{Listed, RawPred};
use exact_json::Value;
use json_fields as fields;
use rtb_num::List;
use std::alloc::Global;

// The clauses of the expression at place `i`.
#[tactic(auto, unfolding(crate::specs::Clauses::clauses_field, crate::specs::Parts::array_in))]
pub(crate) fn clauses_field<'a>(
    alloc: Global,
    i: usize,
    expression: &Value<'a>,
) -> Result<List<List<RawPred<'a>>>, WhichFault>
    ensures { Answers WhichFault.Memory (clauses_field i (tree_of expression.now)) result }
{
    match fields::required_array(expression, WhichField::All(i).member()) {
        Ok(values) => all_clauses(alloc, i, values),
        Err(flaw) => Err(fault(WhichField::All(i), flaw)),
    }
}

fn all_clauses<'a>(
    alloc: Global,
    i: usize,
    values: &[Value<'a>],
) -> Result<List<List<RawPred<'a>>>, WhichFault>
    ensures { Answers WhichFault.Memory (each_in (clause_at i) (map tree_of values.now)) result }
{
    let mut clauses = Vec::with_capacity(alloc, values.len())?;
    let read = push_clauses(alloc, i, values, &mut clauses);
    filled(clauses, read)
}

// Appends them, where none was there.
fn push_clauses<'a>(
    alloc: Global,
    i: usize,
    values: &[Value<'a>],
    clauses: &mut Vec<List<RawPred<'a>>>,
) -> Result<(), WhichFault>
    requires none { clauses.old.items ≡ [] }
    ensures { Answers WhichFault.Memory (each_in (clause_at i) (map tree_of values.now)) (map_ok (λ _. clauses.new.items) result) }
{
    for (j, value) in values.iter().enumerate() {
        push(clauses, clause_entry(alloc, i, j, value)?)?;
    }
    Ok(())
}

#[tactic(auto, unfolding(crate::specs::Clauses::clause_at))]
fn clause_entry<'a>(
    alloc: Global,
    i: usize,
    j: usize,
    value: &Value<'a>,
) -> Result<List<RawPred<'a>>, WhichFault>
    ensures { Answers WhichFault.Memory (clause_at i j (tree_of value.now)) result }
{
    match fields::array_in(value) {
        Ok(values) => all_preds(alloc, i, j, values),
        Err(flaw) => Err(fault(WhichField::Clause(i, j), flaw)),
    }
}

// The predicates of the clause at place `j`.
fn all_preds<'a>(
    alloc: Global,
    i: usize,
    j: usize,
    values: &[Value<'a>],
) -> Result<List<RawPred<'a>>, WhichFault>
    ensures { Answers WhichFault.Memory (each_in (pred_at i j) (map tree_of values.now)) result }
{
    let mut preds = Vec::with_capacity(alloc, values.len())?;
    let read = push_preds(i, j, values, &mut preds);
    filled(preds, read)
}

// Appends them, where none was there.
fn push_preds<'a>(
    i: usize,
    j: usize,
    values: &[Value<'a>],
    preds: &mut Vec<RawPred<'a>>,
) -> Result<(), WhichFault>
    requires none { preds.old.items ≡ [] }
    ensures { Answers WhichFault.Memory (each_in (pred_at i j) (map tree_of values.now)) (map_ok (λ _. preds.new.items) result) }
{
    for (k, value) in values.iter().enumerate() {
        push(preds, pred_entry(i, j, k, value)?)?;
    }
    Ok(())
}

fn pred_entry<'a>(
    i: usize,
    j: usize,
    k: usize,
    value: &Value<'a>,
) -> Result<RawPred<'a>, WhichFault>
    ensures { Answers WhichFault.Memory (pred_at i j k (tree_of value.now)) result }
{
    match fields::object_in(value) {
        Ok(pred) => pred_in(i, j, k, pred),
        Err(flaw) => Err(fault(WhichField::Predicate(i, j, k), flaw)),
    }
}

#[tactic(auto, using(json_fields::proofs::First::firsts), unfolding(crate::specs::Clauses::pred_in))]
fn pred_in<'a>(i: usize, j: usize, k: usize, value: &Value<'a>) -> Result<RawPred<'a>, WhichFault>
    ensures { Answers WhichFault.Memory (pred_in i j k (tree_of value.now)) result }
{
    let admits = has_in(value);
    let excludes = has_not(value);
    let attr = name_field(value, WhichField::PredicateAttr(i, j, k))?;
    some_list(i, j, k, admits, excludes)?;
    let admitted = texts_where(admits, value, WhichField::In(i, j, k))?;
    one_list(i, j, k, admits, excludes)?;
    let excluded = texts_where(excludes, value, WhichField::Not(i, j, k))?;
    Ok(RawPred::new(attr, excludes, chosen(excludes, admitted, excluded)))
}

// The values that it lists are those that it excludes, where it lists any of these.
#[inline(always)]
fn chosen<'a>(negated: bool, admitted: Listed<'a>, excluded: Listed<'a>) -> Listed<'a>
    ensures { result ≡ (if negated then excluded.entry else admitted.entry) }
{
    if negated { excluded } else { admitted }
}

// A predicate lists what it admits or what it excludes.
fn some_list(i: usize, j: usize, k: usize, admits: bool, excludes: bool) -> Result<(), WhichFault>
    ensures { Answers WhichFault.Memory (with_faults (fault_where (not admits && not excludes) (WhichFault.Missing (WhichField.In i j k))) tt) result }
{
    if admits {
        return Ok(());
    }
    if excludes {
        return Ok(());
    }
    Err(WhichFault::Missing {
        field: WhichField::In(i, j, k),
    })
}

// It does not list both.
fn one_list(i: usize, j: usize, k: usize, admits: bool, excludes: bool) -> Result<(), WhichFault>
    ensures { Answers WhichFault.Memory (with_faults (fault_where (admits && excludes) (WhichFault.WrongType (WhichField.Not i j k))) tt) result }
{
    if !admits {
        return Ok(());
    }
    if !excludes {
        return Ok(());
    }
    Err(WhichFault::WrongType {
        field: WhichField::Not(i, j, k),
    })
}

fn has_in(pred: &Value<'_>) -> bool
    ensures { result ≡ has_in (tree_of pred.now) }
{
    fields::present(pred, WhichField::In(0, 0, 0).member()).is_some()
}

fn has_not(pred: &Value<'_>) -> bool
    ensures { result ≡ has_not (tree_of pred.now) }
{
    fields::present(pred, WhichField::Not(0, 0, 0).member()).is_some()
}
