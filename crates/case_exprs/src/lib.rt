//! Expressions and assignments as cases write them, and the least record of a campaign with an expression.
//!
//! An expression is written `os=iOS,Android&gender!F|pos`: `&` stands between predicates and `|` between
//! conjunctions, `!` for `=` where a predicate is negated, and a name alone lists no value. `-` has no
//! conjunction. An assignment is written `os=iOS&yob=1990`. The code owes safety alone.
#![tactic(auto)]

ghost use Rattle.std.specs.Prelude.{◌≡◌, IfOk, IsTrue};
ghost use Rattle.std.specs.List.{list_any};
ghost use Rattle.target_expr.specs.Truth.{are_single, same_attr};

mod records;

pub use records::least_record;
use rtb_num::{List, Txt};
use std::alloc::{AllocError, Global};
use target_expr::{Assignment, Attr, Expr, ExprFault, RawPred, attr_named};

/// The expression, or why it is none.
pub fn make_expr(alloc: Global, written: &[u8]) -> Result<Result<Expr, ExprFault>, AllocError> {
    let mut raw = List::new(alloc);
    let filled = put_conjunctions(alloc, written, &mut raw);
    let raw = kept(raw, filled)?;
    let made = Expr::make(alloc, &raw);
    drop(raw);
    Ok(made)
}

// What was made, unless it could not be filled.
fn kept<T: Drop>(made: T, filled: Result<(), AllocError>) -> Result<T, AllocError>
    ensures { IfOk result (λ t. t ≡ made) }
{
    match filled {
        Ok(()) => Ok(made),
        Err(refused) => Err(refused),
    }
}

fn put_conjunctions(
    alloc: Global,
    written: &[u8],
    raw: &mut List<List<RawPred>>,
) -> Result<(), AllocError> {
    if written == b"-".as_slice() {
        return Ok(());
    }
    for conjunction in written.split(|byte| *byte == b'|') {
        raw.push(raw_conjunction(alloc, conjunction)?)?;
    }
    Ok(())
}

fn raw_conjunction(alloc: Global, written: &[u8]) -> Result<List<RawPred>, AllocError> {
    let mut preds = List::new(alloc);
    let filled = put_preds(alloc, written, &mut preds);
    kept(preds, filled)
}

fn put_preds(alloc: Global, written: &[u8], preds: &mut List<RawPred>) -> Result<(), AllocError> {
    if written.is_empty() {
        return Ok(());
    }
    for pred in written.split(|byte| *byte == b'&') {
        preds.push(raw_pred(alloc, pred)?)?;
    }
    Ok(())
}

fn raw_pred(alloc: Global, written: &[u8]) -> Result<RawPred, AllocError> {
    let mut pred = RawPred {
        attr: Txt::new(alloc),
        negated: false,
        values: List::new(alloc),
    };
    let filled = fill_pred(alloc, written, &mut pred);
    kept(pred, filled)
}

fn fill_pred(alloc: Global, written: &[u8], pred: &mut RawPred) -> Result<(), AllocError> {
    let mark = written
        .iter()
        .position(|byte| *byte == b'=' || *byte == b'!');
    match mark {
        Some(mark) => {
            pred.attr.extend(&written[..mark])?;
            pred.negated = written[mark] == b'!';
            put_values(alloc, &written[mark + 1..], &mut pred.values)
        }
        None => pred.attr.extend(written),
    }
}

fn put_values(alloc: Global, written: &[u8], values: &mut List<Txt>) -> Result<(), AllocError> {
    for value in written.split(|byte| *byte == b',') {
        values.push(Txt::from_slice(alloc, value)?)?;
    }
    Ok(())
}

/// What is assigned: of two values of one attribute the first.
pub fn assignment_in(alloc: Global, written: &[u8]) -> Result<Assignment, AllocError> {
    let mut pairs = List::new(alloc);
    let filled = put_pairs(alloc, written, &mut pairs);
    let pairs = kept(pairs, filled)?;
    Ok(Assignment::make(pairs))
}

fn put_pairs(alloc: Global, written: &[u8], pairs: &mut List<(Attr, Txt)>) -> Result<(), AllocError>
    requires { IsTrue (are_single pairs.old) }
    ensures { IsTrue (are_single pairs.new) }
{
    for pair in written.split(|byte| *byte == b'&') {
        put_pair(alloc, pair, pairs)?;
    }
    Ok(())
}

fn put_pair(alloc: Global, written: &[u8], pairs: &mut List<(Attr, Txt)>) -> Result<(), AllocError>
    requires { IsTrue (are_single pairs.old) }
    ensures { IsTrue (are_single pairs.new) }
{
    let pred = raw_pred(alloc, written)?;
    let added = add(pairs, &pred);
    drop(pred);
    added
}

// Adds a pair, where its attribute has no value yet.
fn add(pairs: &mut List<(Attr, Txt)>, pred: &RawPred) -> Result<(), AllocError>
    requires { IsTrue (are_single pairs.old) }
    ensures { IsTrue (are_single pairs.new) }
{
    let Some(attr) = attr_named(pred.attr.as_bytes()) else {
        return Ok(());
    };
    let Some(value) = pred.values.get(0) else {
        return Ok(());
    };
    if is_there(pairs.as_slice(), attr) {
        return Ok(());
    }
    let value = value.copy()?;
    pairs.push((attr, value))?;
    Ok(())
}

// Whether the attribute has a value already.
fn is_there(pairs: &[(Attr, Txt)], attr: Attr) -> bool
    ensures { result ≡ list_any (λ q. same_attr q.0 attr) pairs.now }
{
    pairs.iter().any(|pair| pair.0.number() == attr.number())
}
