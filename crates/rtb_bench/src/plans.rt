//! Work on a request for the best expressions.
ghost use Rattle.std.specs.Prelude.{◌≡◌, ◌+◌, ◌≤◌, ◌<◌, length};
ghost use Rattle.std.specs.List.{All};
ghost use Rattle.exact_json.specs.Forms.{HasForms};
ghost use Rattle.exact_json.specs.View.{tree_of};

use crate::put_number;
use bumpalo::Bump;
use cnf_match::{CnfExpr, CnfIndex, MOST_EXPRESSIONS};
use exact_json::{Doc, Value, read};
use json_fields::required_array;
use rtb_base::Steps;
use rtb_num::{List, Txt};
use std::alloc::{AllocError, Global};
use std::marker::Brand;
use std::sync::ledger::{Blank, Ledger};
use target_expr::Assignment;
use which_read::{WhichFault, assignment_field, read_expression};

/// Reads and indexes the expressions of the request once, and finds those that are true so many times. Appends the sum of
/// their numbers, 0 where the text is no such request.
pub fn put_found(
    alloc: Global,
    times: u32,
    bytes: &[u8],
    line: &mut Txt,
) -> Result<(), AllocError> {
    let arena = Bump::new(alloc);
    let sum = match read(alloc, &arena, bytes) {
        Ok(doc) => finds_of(alloc, times, &doc)?,
        Err(_) => 0,
    };
    put_number(b"sum=", sum, line)?;
    line.extend(b"\n")
}

fn finds_of(alloc: Global, times: u32, doc: &Doc<'_>) -> Result<u64, AllocError> {
    let body = doc.root();
    match required_array(body, b"expressions") {
        Ok(values) if values.len() <= MOST_EXPRESSIONS => finds_among(alloc, times, body, values),
        _ => Ok(0),
    }
}

// Where all of these are expressions, and the request has an assignment.
fn finds_among(
    alloc: Global,
    times: u32,
    body: &Value<'_>,
    values: &[Value<'_>],
) -> Result<u64, AllocError>
    requires few { length values.now ≤ 4096 }
    requires forms { All (λ v. HasForms (tree_of v)) values.now }
{
    let mut expressions = List::with_capacity(alloc, values.len())?;
    let read = read_all(alloc, values, &mut expressions);
    let sum = match read {
        Ok(()) => finds_in(alloc, times, body, &expressions),
        Err(_) => Ok(0),
    };
    drop(expressions);
    sum
}

// Appends the expressions that are written so.
fn read_all<'a>(
    alloc: Global,
    values: &[Value<'a>],
    expressions: &mut List<CnfExpr<'a>>,
) -> Result<(), WhichFault>
    requires few { length values.now ≤ 4096 }
    requires forms { All (λ v. HasForms (tree_of v)) values.now }
    ensures { length expressions.new ≤ length expressions.old + length values.now }
{
    for (place, value) in values.iter().enumerate() {
        let expression = read_expression(alloc, place, value)?;
        expressions.push(expression)?;
    }
    Ok(())
}

fn finds_in(
    alloc: Global,
    times: u32,
    body: &Value<'_>,
    expressions: &List<CnfExpr<'_>>,
) -> Result<u64, AllocError>
    requires few { length expressions.now ≤ 4096 }
{
    match assignment_field(alloc, body) {
        Ok(assignment) => {
            let sum = finds_for(alloc, times, &assignment, expressions);
            drop(assignment);
            sum
        }
        Err(_) => Ok(0),
    }
}

fn finds_for(
    alloc: Global,
    times: u32,
    assignment: &Assignment,
    expressions: &List<CnfExpr<'_>>,
) -> Result<u64, AllocError>
    requires few { length expressions.now ≤ 4096 }
{
    let index = CnfIndex::build(alloc, expressions)?;
    let sum = sum_of::<Brand>(alloc, times, &index, assignment, Blank::new(1));
    drop(index);
    sum
}

fn sum_of<L: Ledger>(
    alloc: Global,
    times: u32,
    index: &CnfIndex,
    assignment: &Assignment,
    blank: Blank,
) -> Result<u64, AllocError>
    requires name { blank.name ≡ L.name }
    requires parts { blank.parts ≡ L.parts }
    requires some { 0 < blank.parts }
{
    let mut steps = Steps::<L>::new(blank);
    let mut sum: u64 = 0;
    for _ in 0..times {
        let found = index.find(alloc, assignment, &mut steps)?;
        sum = added(sum, found.as_slice());
    }
    Ok(sum)
}

fn added(sum: u64, numbers: &[u32]) -> u64 {
    let mut sum = sum;
    for number in numbers {
        sum = sum.wrapping_add(u64::from(*number));
    }
    sum
}
