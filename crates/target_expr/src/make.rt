//! An expression made of what is written, with everything in order and once.
ghost use Rattle.std.specs.Prelude.{◌≡◌, [], ◌∷◌, ◌++◌, IfOk, IfErr, OnOk, find};
ghost use Rattle.std.specs.Option.{option_copied};
ghost use Rattle.std.specs.Str.{bytes_eq};
ghost use Rattle.target_expr.specs.Attributes.{name_of};
ghost use Rattle.target_expr.specs.Kept.{IsFirstUnlessMemory, faults, in_order, keep, keep_conjunction, keep_in, keep_pred};

use crate::attr::{ATTRIBUTES, Attr};
use crate::check::first_fault;
use crate::expr::Expr;
use crate::fault::ExprFault;
use crate::order::values_rise;
use crate::pred::{Pred, RawPred};
use rtb_num::{List, Txt};
use std::alloc::{AllocError, Global};

impl Expr {
    /// The expression that these conjunctions state. Its predicates are kept in the order of their
    /// attributes, and their values in byte order, each once.
    ///
    /// Else it answers the first fault: first of the whole, then of each conjunction in order, and in
    /// it of each predicate in order. For one predicate that order is `UnknownAttr`, `AttrTwice`,
    /// `EmptyList`, `TooMany`.
    pub fn make(alloc: Global, raw: &List<List<RawPred>>) -> Result<Expr, ExprFault>
        ensures right { IfOk result (λ _. faults raw.now ≡ []) }
        ensures value { IfOk result (λ e. e ≡ keep raw.now) }
        ensures fault { IfErr result (IsFirstUnlessMemory (faults raw.now)) }
    {
        match first_fault(raw.as_slice()) {
            Some(fault) => Err(fault),
            None => {
                let conjunctions = keep_all(alloc, raw.as_slice())?;
                Ok(Expr::of(conjunctions))
            }
        }
    }
}

// The conjunctions as they are kept.
fn keep_all(alloc: Global, raw: &[List<RawPred>]) -> Result<Vec<List<Pred>>, AllocError>
    ensures { IfOk result (λ all. all.items ≡ keep raw.now) }
{
    let mut all = Vec::with_capacity(alloc, raw.len())?;
    for conjunction in raw {
        all.push(keep_conjunction(alloc, conjunction.as_slice())?)?;
    }
    Ok(all)
}

// The predicates of a conjunction in the order of their attributes.
fn keep_conjunction(alloc: Global, conjunction: &[RawPred]) -> Result<List<Pred>, AllocError>
    ensures { IfOk result (λ preds. preds ≡ keep_conjunction conjunction.now) }
{
    keep_in(alloc, conjunction, &ATTRIBUTES)
}

// Its predicates of these attributes.
#[tactic(auto, using(crate::proofs::Keeping::kept_more))]
fn keep_in(alloc: Global, conjunction: &[RawPred], attrs: &[Attr]) -> Result<List<Pred>, AllocError>
    ensures { IfOk result (λ preds. preds ≡ keep_in conjunction.now attrs.now) }
{
    let mut preds = List::from_vec(Vec::with_capacity(alloc, conjunction.len())?);
    for attr in attrs {
        push_kept(alloc, conjunction, *attr, &mut preds)?;
    }
    Ok(preds)
}

// Appends the predicate of that attribute, where the conjunction has one.
fn push_kept(
    alloc: Global,
    conjunction: &[RawPred],
    attr: Attr,
    preds: &mut List<Pred>,
) -> Result<(), AllocError>
    ensures { OnOk result (preds.new ≡ preds.old ++ keep_in conjunction.now (attr ∷ [])) }
{
    if let Some(pred) = find_named(conjunction, attr) {
        preds.push(kept_copy(alloc, attr, pred)?)?;
    }
    Ok(())
}

// The first predicate of that attribute.
fn find_named(conjunction: &[RawPred], attr: Attr) -> Option<&RawPred>
    ensures { option_copied result ≡ find (λ p. bytes_eq p.attr (name_of attr)) conjunction.now }
{
    conjunction
        .iter()
        .find(|pred| pred.attr.as_bytes() == attr.name())
}

// The predicate of that attribute, with copies of its values.
fn kept_copy(alloc: Global, attr: Attr, pred: &RawPred) -> Result<Pred, AllocError>
    ensures { IfOk result (λ p. p ≡ keep_pred attr pred.now) }
{
    let values = copies(alloc, pred.values.as_slice())?;
    Ok(Pred {
        attr,
        negated: pred.negated,
        values: in_order(List::from_vec(values)),
    })
}

// The texts in byte order, each once. Mostly they are written so.
#[tactic(auto, using(crate::proofs::ByteOrder::risen_in_order))]
fn in_order(texts: List<Txt>) -> List<Txt>
    ensures { result ≡ in_order texts }
{
    if values_rise(texts.as_slice()) {
        texts
    } else {
        sorted(texts)
    }
}

fn sorted(texts: List<Txt>) -> List<Txt>
    ensures { result ≡ in_order texts }
{
    let mut kept = texts.into_vec();
    kept.sort_unstable();
    kept.dedup();
    List::from_vec(kept)
}

// The same texts.
pub(crate) fn copies(alloc: Global, texts: &[Txt]) -> Result<Vec<Txt>, AllocError>
    ensures { IfOk result (λ all. all.items ≡ texts.now) }
{
    let mut all = Vec::with_capacity(alloc, texts.len())?;
    for text in texts {
        all.push(text.copy()?)?;
    }
    Ok(all)
}
