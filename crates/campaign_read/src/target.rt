//! The target of a body: conjunctions of predicates.
ghost use Rattle.std.specs.Prelude.{◌≡◌, ◌&&◌, [], ◌∷◌, if◌then◌else◌, map, not, IfOk};
ghost use Rattle.exact_json.specs.View.{tree_of};
ghost use Rattle.json_fields.specs.Answers.{Answers, map_ok};
ghost use Rattle.json_fields.specs.Readings.{each_in, with_faults};
ghost use Rattle.campaign.specs.declared.field.CampField.{CampField};
ghost use Rattle.campaign_read.specs.declared.fault.CampFault.{CampFault};
ghost use Rattle.campaign_read.specs.Parts.{fault_where};
ghost use Rattle.campaign_read.specs.Target.{conjunction_at, has_in, has_not, pred_at, pred_in, target_field};

use crate::fault::CampFault;
use crate::lists::{ListField, texts_field};
use crate::parts::{fault, kept, text_field};
use campaign::CampField;
use exact_json::Value;
use json_fields as fields;
use rtb_num::{List, Txt};
use std::alloc::{AllocError, Global};
use target_expr::RawPred;

// The target, where it is absent everything.
#[tactic(auto, unfolding(crate::specs::Target::target_field))]
pub(crate) fn target_field(
    alloc: Global,
    body: &Value<'_>,
) -> Result<List<List<RawPred>>, CampFault>
    ensures { Answers CampFault.Memory (target_field (tree_of body.now)) result }
{
    match fields::array(body, CampField::Target.member()) {
        Ok(Some(values)) => Ok(List::from_vec(all_conjunctions(alloc, values)?)),
        Ok(None) => Ok(everything(alloc)?),
        Err(flaw) => Err(fault(CampField::Target, flaw)),
    }
}

fn all_conjunctions(alloc: Global, values: &[Value<'_>]) -> Result<Vec<List<RawPred>>, CampFault>
    ensures { Answers CampFault.Memory (each_in conjunction_at (map tree_of values.now)) (map_ok (λ v. v.items) result) }
{
    let mut conjunctions = Vec::with_capacity(alloc, values.len())?;
    for (i, value) in values.iter().enumerate() {
        conjunctions.push(conjunction_entry(alloc, i, value)?)?;
    }
    Ok(conjunctions)
}

#[tactic(auto, unfolding(crate::specs::Target::conjunction_at))]
fn conjunction_entry(alloc: Global, i: usize, value: &Value<'_>) -> Result<List<RawPred>, CampFault>
    ensures { Answers CampFault.Memory (conjunction_at i (tree_of value.now)) result }
{
    match fields::array_in(value) {
        Ok(values) => Ok(List::from_vec(all_preds(alloc, i, values)?)),
        Err(flaw) => Err(fault(CampField::Conjunction(i), flaw)),
    }
}

fn all_preds(alloc: Global, i: usize, values: &[Value<'_>]) -> Result<Vec<RawPred>, CampFault>
    ensures { Answers CampFault.Memory (each_in (pred_at i) (map tree_of values.now)) (map_ok (λ v. v.items) result) }
{
    let mut preds = Vec::with_capacity(alloc, values.len())?;
    for (j, value) in values.iter().enumerate() {
        preds.push(pred_entry(alloc, i, j, value)?)?;
    }
    Ok(preds)
}

fn pred_entry(alloc: Global, i: usize, j: usize, value: &Value<'_>) -> Result<RawPred, CampFault>
    ensures { Answers CampFault.Memory (pred_at i j (tree_of value.now)) result }
{
    match fields::object_in(value) {
        Ok(pred) => pred_in(alloc, i, j, pred),
        Err(flaw) => Err(fault(CampField::Predicate(i, j), flaw)),
    }
}

fn pred_in(alloc: Global, i: usize, j: usize, value: &Value<'_>) -> Result<RawPred, CampFault>
    ensures { Answers CampFault.Memory (pred_in i j (tree_of value.now)) result }
{
    let mut pred = blank_pred(alloc);
    let filled = fill_pred(alloc, i, j, value, &mut pred);
    kept(pred, filled)
}

// A predicate of which nothing is known.
fn blank_pred(alloc: Global) -> RawPred {
    RawPred {
        attr: Txt::new(alloc),
        negated: false,
        values: List::new(alloc),
    }
}

// Fills in each field.
#[tactic(auto, using(json_fields::proofs::First::firsts), unfolding(crate::specs::Target::pred_in))]
fn fill_pred(
    alloc: Global,
    i: usize,
    j: usize,
    value: &Value<'_>,
    pred: &mut RawPred,
) -> Result<(), CampFault>
    ensures { Answers CampFault.Memory (pred_in i j (tree_of value.now)) (map_ok (λ _. pred.new) result) }
{
    pred.attr = text_field(alloc, value, CampField::PredicateAttr(i, j))?;
    some_list(i, j, value)?;
    pred.values = texts_field(alloc, value, ListField::In(i, j))?;
    one_list(i, j, value)?;
    let excluded = texts_field(alloc, value, ListField::Not(i, j))?;
    choose(pred, has_not(value), excluded);
    Ok(())
}

// The values that it lists are those that it excludes, where it lists any of these.
fn choose(pred: &mut RawPred, negated: bool, excluded: List<Txt>)
    ensures { pred.new ≡ record pred.old { negated = negated; values = if negated then excluded else pred.old.values } }
{
    pred.negated = negated;
    if negated {
        pred.values = excluded;
    }
}

// A predicate lists what it admits or what it excludes.
fn some_list(i: usize, j: usize, pred: &Value<'_>) -> Result<(), CampFault>
    ensures { Answers CampFault.Memory (with_faults (fault_where (not (has_in (tree_of pred.now)) && not (has_not (tree_of pred.now))) (CampFault.Missing (CampField.In i j))) tt) result }
{
    if has_in(pred) {
        return Ok(());
    }
    if has_not(pred) {
        return Ok(());
    }
    Err(CampFault::Missing {
        field: CampField::In(i, j),
    })
}

fn has_in(pred: &Value<'_>) -> bool
    ensures { result ≡ has_in (tree_of pred.now) }
{
    fields::present(pred, CampField::In(0, 0).member()).is_some()
}

fn has_not(pred: &Value<'_>) -> bool
    ensures { result ≡ has_not (tree_of pred.now) }
{
    fields::present(pred, CampField::Not(0, 0).member()).is_some()
}

// It does not list both.
fn one_list(i: usize, j: usize, pred: &Value<'_>) -> Result<(), CampFault>
    ensures { Answers CampFault.Memory (with_faults (fault_where (has_in (tree_of pred.now) && has_not (tree_of pred.now)) (CampFault.WrongType (CampField.Not i j))) tt) result }
{
    if !has_in(pred) {
        return Ok(());
    }
    if !has_not(pred) {
        return Ok(());
    }
    Err(CampFault::WrongType {
        field: CampField::Not(i, j),
    })
}

// One conjunction of no predicate, which is true of everything.
fn everything(alloc: Global) -> Result<List<List<RawPred>>, AllocError>
    ensures { IfOk result (λ raw. raw ≡ [] ∷ []) }
{
    let mut raw = List::new(alloc);
    raw.push(List::new(alloc))?;
    Ok(raw)
}
