//! Campaigns and impressions, drawn.
ghost use Rattle.std.specs.Prelude.{◌≡◌, ◌≤◌, ◌<◌, ◌*◌, IfOk, IsTrue, length};
ghost use Rattle.std.specs.List.{list_any};
ghost use Rattle.target_expr.specs.Truth.{are_single, same_attr};
ghost use Rattle.conj_index.specs.Campaigns.{DoRise, conjunctions_in};

use crate::draws::Draws;
use crate::profile::Field;
use rtb_num::{List, Txt, write_decimal};
use std::alloc::{AllocError, Global};
use target_expr::{Assignment, Attr, Expr, RawPred};

/// So many campaigns, numbered from 1 on. Only want of memory is a fault.
pub fn campaigns(alloc: Global, fields: &[Field; 8], n: u32) -> Result<Vec<(u32, Expr)>, AllocError>
    requires { n ≤ 65536 }
    ensures rising { IfOk result (λ all. DoRise all.items) }
    ensures few { IfOk result (λ all. conjunctions_in all.items ≤ 3 * n) }
{
    let mut draws = Draws::new(1);
    let mut all = Vec::new(alloc);
    for i in 0..n {
        all.push((i + 1, expr(alloc, fields, &mut draws)?))?;
    }
    Ok(all)
}

// An expression of 1 to 3 conjunctions.
fn expr(alloc: Global, fields: &[Field; 8], draws: &mut Draws) -> Result<Expr, AllocError>
    ensures { IfOk result (λ e. length e ≤ 3) }
{
    let n = 1 + draws.below(3);
    let mut raw = List::new(alloc);
    for _ in 0..n {
        raw.push(raw_conjunction(alloc, fields, draws)?)?;
    }
    match Expr::make(alloc, &raw) {
        Ok(expr) => Ok(expr),
        Err(_) => Err(AllocError),
    }
}

// A conjunction of 2 to 4 predicates of different attributes. The first is not negated, and of the
// others one in eight is.
fn raw_conjunction(
    alloc: Global,
    fields: &[Field; 8],
    draws: &mut Draws,
) -> Result<List<RawPred>, AllocError> {
    let mut preds = List::new(alloc);
    let mut place = draws.below(8);
    let stride = 2 * draws.below(4) + 1;
    for i in 0..2 + draws.below(3) {
        let negated = draws.below(8) == 0 && i > 0;
        preds.push(raw_pred(alloc, &fields[place as usize], negated, draws)?)?;
        place = (place + stride) % 8;
    }
    Ok(preds)
}

// A predicate that lists 1 to 4 values.
fn raw_pred(
    alloc: Global,
    field: &Field,
    negated: bool,
    draws: &mut Draws,
) -> Result<RawPred, AllocError> {
    let mut values = List::new(alloc);
    for _ in 0..1 + draws.below(4) {
        values.push(value(alloc, field, draws)?)?;
    }
    Ok(RawPred {
        attr: Txt::from_slice(alloc, field.attr.name())?,
        negated,
        values,
    })
}

// A value of the attribute, as decimal text.
fn value(alloc: Global, field: &Field, draws: &mut Draws) -> Result<Txt, AllocError> {
    let bits = u64::from(field.least) + draws.below(u64::from(field.widths.max(1)));
    let value = draws.below(1 << bits.min(32));
    let mut text = Txt::new(alloc);
    write_decimal(value, &mut text)?;
    Ok(text)
}

/// So many impressions. Only want of memory is a fault.
pub fn impressions(
    alloc: Global,
    fields: &[Field; 8],
    n: u32,
) -> Result<Vec<Assignment>, AllocError> {
    let mut draws = Draws::new(2);
    let mut all = Vec::new(alloc);
    for _ in 0..n {
        all.push(impression(alloc, fields, &mut draws)?)?;
    }
    Ok(all)
}

// An impression with a value for each attribute; half of them lack one.
fn impression(
    alloc: Global,
    fields: &[Field; 8],
    draws: &mut Draws,
) -> Result<Assignment, AllocError> {
    let absent = draws.below(16);
    let mut pairs = List::new(alloc);
    for (i, field) in fields.iter().enumerate() {
        let value = value(alloc, field, draws)?;
        if i as u64 != absent {
            add(&mut pairs, field.attr, value)?;
        }
    }
    Ok(Assignment::make(pairs))
}

// Adds a pair, where its attribute has no value yet.
fn add(pairs: &mut List<(Attr, Txt)>, attr: Attr, value: Txt) -> Result<(), AllocError>
    requires { IsTrue (are_single pairs.old) }
    ensures { IsTrue (are_single pairs.new) }
{
    if is_there(pairs.as_slice(), attr) {
        return Ok(());
    }
    pairs.push((attr, value))?;
    Ok(())
}

// Whether the attribute has a value already.
fn is_there(pairs: &[(Attr, Txt)], attr: Attr) -> bool
    ensures { result ≡ list_any (λ q. same_attr q.0 attr) pairs.now }
{
    pairs.iter().any(|pair| pair.0.number() == attr.number())
}
