//! Records of campaigns that cases name by what they hold.
use campaign_store::SharedRecord;
use case_exprs::least_record;
use case_lines::kept;
use rtb_num::{List, Txt, write_decimal};
use std::alloc::{AllocError, Global};
use target_expr::{Expr, RawPred};

// What a record holds: so many conjunctions, each with so many values of so many bytes.
#[derive(Clone, Copy)]
pub struct Shape {
    pub conjunctions: u64,
    pub values: u64,
    pub bytes: usize,
}

// The most that a case may ask for, so that a wrong number costs little.
const MOST: u64 = 256;

// The expression of that shape; none where it is refused.
pub fn expr_of(alloc: Global, shape: Shape) -> Result<Option<Expr>, AllocError> {
    if shape.conjunctions > MOST || shape.values > MOST || shape.bytes > 300 {
        return Ok(None);
    }
    let mut raw = List::new(alloc);
    let filled = put_conjunctions(alloc, shape, &mut raw);
    let raw = kept(raw, filled)?;
    let made = Expr::make(alloc, &raw).ok();
    drop(raw);
    Ok(made)
}

fn put_conjunctions(
    alloc: Global,
    shape: Shape,
    raw: &mut List<List<RawPred>>,
) -> Result<(), AllocError> {
    for _ in 0..shape.conjunctions {
        raw.push(conjunction_of(alloc, shape)?)?;
    }
    Ok(())
}

fn conjunction_of(alloc: Global, shape: Shape) -> Result<List<RawPred>, AllocError> {
    let pred = pred_of(alloc, shape)?;
    let mut preds = List::new(alloc);
    let pushed = preds.push(pred);
    kept(preds, pushed)
}

fn pred_of(alloc: Global, shape: Shape) -> Result<RawPred, AllocError> {
    let mut pred = RawPred {
        attr: Txt::new(alloc),
        negated: false,
        values: List::new(alloc),
    };
    let filled = fill_pred(alloc, shape, &mut pred);
    kept(pred, filled)
}

fn fill_pred(alloc: Global, shape: Shape, pred: &mut RawPred) -> Result<(), AllocError> {
    pred.attr.extend(b"os")?;
    for i in 0..shape.values {
        pred.values.push(value_of(alloc, i, shape.bytes)?)?;
    }
    Ok(())
}

fn value_of(alloc: Global, number: u64, bytes: usize) -> Result<Txt, AllocError> {
    let mut value = Txt::new(alloc);
    let written = write_value(number, bytes, &mut value);
    kept(value, written)
}

// The number's digits, behind as many letters as are wanting.
fn write_value(number: u64, bytes: usize, value: &mut Txt) -> Result<(), AllocError> {
    for _ in count_digits(number)..bytes {
        value.push(b'v')?;
    }
    write_decimal(number, value)
}

// How many digits a number below 1000 has.
fn count_digits(number: u64) -> usize {
    if number < 10 {
        return 1;
    }
    if number < 100 { 2 } else { 3 }
}

// The record of that shape; none where a part is refused.
pub fn record_of(alloc: Global, shape: Shape) -> Result<Option<SharedRecord>, AllocError> {
    match expr_of(alloc, shape)? {
        Some(expr) => least_record(alloc, expr),
        None => Ok(None),
    }
}
