//! An expression in conjunctive form made of what is written, with everything in order and once.
ghost use Rattle.std.specs.Prelude.{◌≡◌, [], ◌∷◌, ◌++◌, map, IfOk, IfErr, OnOk};
ghost use Rattle.std.specs.List.{filter_map};
ghost use Rattle.cnf_match.specs.Making.{IsFirstUnlessMemory, both_of, faults, keep, keep_clause, kept_pred, kept_weight};

use crate::check::first_fault;
use crate::expr::CnfExpr;
use crate::fault::CnfFault;
use crate::pred::{Pred, RawPred};
use crate::weight::{RawWeight, Weight};
use rtb_num::List;
use std::alloc::{AllocError, Global};
use target_expr::Attr;

impl<'a> CnfExpr<'a> {
    /// The expression of these clauses and weights, in their order. The values of a predicate are kept in byte order,
    /// each once, in the memory that they are in.
    ///
    /// Else it answers the first fault: first of the whole, then of each clause in order, in it of each predicate in
    /// order, and then of each weight in order. For one predicate that order is `UnknownAttr`, `EmptyList`, `TooMany`.
    /// No clause at all is no fault: such an expression is true.
    pub fn make(
        alloc: Global,
        raw: List<List<RawPred<'a>>>,
        weights: List<RawWeight<'a>>,
    ) -> Result<CnfExpr<'a>, CnfFault>
        ensures right { IfOk result (λ _. faults raw.entry weights.entry ≡ []) }
        ensures value { IfOk result (λ e. e ≡ keep raw.entry weights.entry) }
        ensures fault { IfErr result (IsFirstUnlessMemory (faults raw.entry weights.entry)) }
    {
        match first_fault(raw.as_slice(), weights.as_slice()) {
            Some(fault) => {
                drop(raw);
                drop(weights);
                Err(fault)
            }
            None => {
                let (clauses, weights) = both(
                    keep_clauses(alloc, raw),
                    keep_weights(alloc, weights),
                )?;
                Ok(CnfExpr::of(clauses, weights))
            }
        }
    }
}

// The two, unless one was refused memory.
fn both<A: Drop, B: Drop>(
    first: Result<A, AllocError>,
    second: Result<B, AllocError>,
) -> Result<(A, B), AllocError>
    ensures { result ≡ both_of first second }
{
    match first {
        Ok(first) => match second {
            Ok(second) => Ok((first, second)),
            Err(refused) => Err(refused),
        },
        Err(refused) => Err(refused),
    }
}

// The clauses as they are kept.
fn keep_clauses<'a>(
    alloc: Global,
    raw: List<List<RawPred<'a>>>,
) -> Result<Vec<List<Pred<'a>>>, AllocError>
    ensures { IfOk result (λ all. all.items ≡ map keep_clause raw.entry) }
{
    let mut all = Vec::with_capacity(alloc, raw.len())?;
    for clause in raw.into_vec() {
        all.push(keep_clause(alloc, clause)?)?;
    }
    Ok(all)
}

// The predicates of a clause that have an attribute.
#[tactic(auto, using(crate::proofs::Lists::given_one_more))]
fn keep_clause<'a>(alloc: Global, clause: List<RawPred<'a>>) -> Result<List<Pred<'a>>, AllocError>
    ensures { IfOk result (λ preds. preds ≡ keep_clause clause.entry) }
{
    let mut preds = List::with_capacity(alloc, clause.len())?;
    for pred in clause.into_vec() {
        push_kept(alloc, pred, &mut preds)?;
    }
    Ok(preds)
}

// Appends the predicate, where it has an attribute.
fn push_kept<'a>(
    alloc: Global,
    pred: RawPred<'a>,
    preds: &mut List<Pred<'a>>,
) -> Result<(), AllocError>
    ensures { OnOk result (preds.new ≡ preds.old ++ filter_map kept_pred (pred.entry ∷ [])) }
{
    match pred.name().attr() {
        Some(attr) => preds.push(pred.kept(alloc, attr)?),
        None => {
            drop(pred);
            Ok(())
        }
    }
}

// The weights that have an attribute.
#[tactic(auto, using(crate::proofs::Lists::given_one_more))]
fn keep_weights<'a>(
    alloc: Global,
    weights: List<RawWeight<'a>>,
) -> Result<List<Weight<'a>>, AllocError>
    ensures { IfOk result (λ kept. kept ≡ filter_map kept_weight weights.entry) }
{
    let mut kept = List::with_capacity(alloc, weights.len())?;
    for weight in weights.into_vec() {
        push_weight(weight, &mut kept)?;
    }
    Ok(kept)
}

// Appends the weight, where it has an attribute.
fn push_weight<'a>(weight: RawWeight<'a>, kept: &mut List<Weight<'a>>) -> Result<(), AllocError>
    ensures { OnOk result (kept.new ≡ kept.old ++ filter_map kept_weight (weight.entry ∷ [])) }
{
    match weight.attr.attr() {
        Some(attr) => kept.push(keep_weight(attr, weight)),
        None => {
            drop(weight);
            Ok(())
        }
    }
}

// The weight of that attribute.
fn keep_weight<'a>(attr: Attr, weight: RawWeight<'a>) -> Weight<'a>
    ensures { result ≡ record { attr = attr; value = weight.entry.value; weight = weight.entry.weight } }
{
    let RawWeight {
        attr: name,
        value,
        weight,
    } = weight;
    drop(name);
    Weight {
        attr,
        weight,
        value,
    }
}
