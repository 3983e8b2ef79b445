//! The expressions of a request, each made and judged, or refused.
ghost use Rattle.std.specs.Prelude.{◌≡◌, ◌≢◌, ◌+◌, ◌<◌, ◌≤◌, ◌++◌, ◌∷◌, ℕ, List, [], None, Err, length, map, IfErr, OnOk};
ghost use Rattle.std.specs.List.{All};
ghost use Rattle.exact_json.specs.Forms.{HasForms};
ghost use Rattle.exact_json.specs.View.{tree_of};
ghost use Rattle.json_fields.specs.Answers.{Answers, map_ok};
ghost use Rattle.json_fields.specs.Readings.{each_in, give, map_value, with_faults};
ghost use Rattle.top_match.specs.Certificate.{reason};
ghost use Rattle.top_match.specs.declared.scored.Mark.{Mark};
ghost use Rattle.which_read.specs.Made.{judged_from, judged_in, unless_first, with_next};
ghost use Rattle.which_read.specs.Request.{expression_at, expression_in, expressions_field, fault_of_making, made_at, made_of, making_faults, written_in};
ghost use Rattle.which_read.specs.declared.fault.WhichFault.{WhichFault};

use crate::clauses::clauses_field;
use crate::fault::WhichFault;
use crate::field::WhichField;
use crate::parts::{both, fault, push};
use crate::weighed::weights_field;
use cnf_match::{CnfExpr, CnfFault, MOST_EXPRESSIONS, RawPred, RawWeight};
use exact_json::Value;
use json_fields as fields;
use rtb_num::List;
use std::alloc::Global;
use target_expr::Assignment;
use top_match::{Mark, reason};

// An expression as it is written: its clauses and its weights.
type Written<'a> = (List<List<RawPred<'a>>>, List<RawWeight<'a>>);

// Why each expression would not be chosen, or why the first that cannot be made is none.
pub(crate) type Reasons = Result<List<Mark>, WhichFault>;

// Expressions while they are read, made and judged.
#[derive(Drop)]
pub(crate) struct Judging {
    pub(crate) reasons: Vec<Mark>,
    // Why the first that could not be made is none. Those behind it are read and not made.
    pub(crate) fault: Option<WhichFault>,
}

// The expressions, judged for the assignment. Each is made as soon as it is read, judged while its values are near, and
// let go. A fault of making one is kept until all are read, since a fault of a later one's fields comes before it.
#[tactic(auto, unfolding(crate::specs::Request::expressions_field, crate::specs::Parts::array_in))]
pub(crate) fn expressions_field(
    alloc: Global,
    body: &Value<'_>,
    assignment: &Assignment,
) -> Result<Reasons, WhichFault>
    requires forms { HasForms (tree_of body.now) }
    ensures { Answers WhichFault.Memory (map_value (judged_from assignment.now) (expressions_field (tree_of body.now))) result }
{
    match fields::required_array(body, WhichField::Expressions.member()) {
        Ok(values) => some_expressions(alloc, values, assignment),
        Err(flaw) => Err(fault(WhichField::Expressions, flaw)),
    }
}

// At most 4,096 of them.
#[tactic(auto, using(json_fields::proofs::First::firsts))]
fn some_expressions(
    alloc: Global,
    values: &[Value<'_>],
    assignment: &Assignment,
) -> Result<Reasons, WhichFault>
    requires forms { All (λ v. HasForms (tree_of v)) values.now }
    ensures { Answers WhichFault.Memory (map_value (judged_from assignment.now) (written_in (map tree_of values.now))) result }
{
    if values.len() > MOST_EXPRESSIONS {
        return Err(WhichFault::Range {
            field: WhichField::Expressions,
        });
    }
    all_expressions(alloc, values, assignment)
}

fn all_expressions(
    alloc: Global,
    values: &[Value<'_>],
    assignment: &Assignment,
) -> Result<Reasons, WhichFault>
    requires few { length values.now ≤ 4096 }
    requires forms { All (λ v. HasForms (tree_of v)) values.now }
    ensures { Answers WhichFault.Memory (map_value (judged_from assignment.now) (each_in expression_at (map tree_of values.now))) result }
{
    let mut judging = Judging {
        reasons: Vec::with_capacity(alloc, values.len())?,
        fault: None,
    };
    let read = enter_all(alloc, values, assignment, &mut judging);
    when_read(judging, read)
}

// What was judged, unless an expression could not be read.
fn when_read(judging: Judging, read: Result<(), WhichFault>) -> Result<Reasons, WhichFault>
    ensures { result ≡ map_ok (λ _. judged_in judging) read }
{
    match read {
        Ok(()) => Ok(judged_in(judging)),
        Err(fault) => Err(fault),
    }
}

fn judged_in(judging: Judging) -> Reasons
    ensures { result ≡ judged_in judging }
{
    let Judging { reasons, fault } = judging;
    match fault {
        Some(fault) => Err(fault),
        None => Ok(List::from_vec(reasons)),
    }
}

// Reads, makes and judges them, where none was.
fn enter_all(
    alloc: Global,
    values: &[Value<'_>],
    assignment: &Assignment,
    judging: &mut Judging,
) -> Result<(), WhichFault>
    requires none { judging.old.reasons.items ≡ [] }
    requires right { judging.old.fault ≡ None }
    requires few { length values.now ≤ 4096 }
    requires forms { All (λ v. HasForms (tree_of v)) values.now }
    ensures { Answers WhichFault.Memory (map_value (judged_from assignment.now) (each_in expression_at (map tree_of values.now))) (map_ok (λ _. judged_in judging.new) result) }
{
    for (i, value) in values.iter().enumerate() {
        enter(alloc, i, value, assignment, judging)?;
    }
    Ok(())
}

// Reads the expression at place `i`, and makes and judges it where all before it could be made.
fn enter(
    alloc: Global,
    i: usize,
    value: &Value<'_>,
    assignment: &Assignment,
    judging: &mut Judging,
) -> Result<(), WhichFault>
    requires forms { HasForms (tree_of value.now) }
    requires place { i < 4096 }
    ensures { Answers WhichFault.Memory (map_value (λ written. with_next assignment.now i written (judged_in judging.old)) (expression_at i (tree_of value.now))) (map_ok (λ _. judged_in judging.new) result) }
{
    let written = expression_entry(alloc, i, value)?;
    add(alloc, i, written, assignment, judging)
}

// Makes and judges the expression that is written so at place `i`, where all before it could be made.
fn add<'a>(
    alloc: Global,
    i: usize,
    written: Written<'a>,
    assignment: &Assignment,
    judging: &mut Judging,
) -> Result<(), WhichFault>
    requires place { i < 4096 }
    ensures { Answers WhichFault.Memory (give (with_next assignment.now i written.entry (judged_in judging.old))) (map_ok (λ _. judged_in judging.new) result) }
{
    if judging.fault.is_some() {
        drop(written);
        return Ok(());
    }
    keep(judging, reason_of(alloc, i + 1, written, assignment))
}

// Keeps the reason, or why the expression is none. Want of memory alone is answered.
fn keep(judging: &mut Judging, reason: Result<Mark, WhichFault>) -> Result<(), WhichFault>
    requires right { judging.old.fault ≡ None }
    ensures { (faults : List WhichFault) (m : Mark) → Answers WhichFault.Memory (with_faults faults m) reason → Answers WhichFault.Memory (give (unless_first faults (judging.old.reasons.items ++ m ∷ []))) (map_ok (λ _. judged_in judging.new) result) }
{
    match reason {
        Ok(reason) => Ok(push(&mut judging.reasons, reason)?),
        Err(fault) => keep_fault(judging, fault),
    }
}

fn keep_fault(judging: &mut Judging, fault: WhichFault) -> Result<(), WhichFault>
    ensures ok { OnOk result (judged_in judging.new ≡ Err fault) }
    ensures other { OnOk result (fault ≢ WhichFault.Memory) }
    ensures memory { IfErr result (λ f. f ≡ WhichFault.Memory) }
{
    if matches!(fault, WhichFault::Memory) {
        return Err(WhichFault::Memory);
    }
    judging.fault = Some(fault);
    Ok(())
}

// Why the expression of the number, which is written so, would not be chosen.
fn reason_of<'a>(
    alloc: Global,
    number: usize,
    written: Written<'a>,
    assignment: &Assignment,
) -> Result<Mark, WhichFault>
    ensures { (place : ℕ) → number ≡ place + 1 → Answers WhichFault.Memory (with_faults (making_faults place written.entry) (reason assignment.now (made_of written.entry))) result }
{
    match make(alloc, number, written) {
        Ok(expression) => Ok(judge(expression, assignment)),
        Err(fault) => Err(fault),
    }
}

// Judges the expression and lets it go.
fn judge<'a>(expression: CnfExpr<'a>, assignment: &Assignment) -> Mark
    ensures { result ≡ reason assignment.now expression.entry }
{
    let reason = reason(&expression, assignment);
    drop(expression);
    reason
}

/// The expression that is written so at the place of a list, counted from 0, or the first of its faults.
#[tactic(auto, using(json_fields::proofs::First::firsts), unfolding(crate::specs::Request::made_at))]
pub fn read_expression<'a>(
    alloc: Global,
    place: usize,
    value: &Value<'a>,
) -> Result<CnfExpr<'a>, WhichFault>
    requires forms { HasForms (tree_of value.now) }
    requires place { place < 4096 }
    ensures { Answers WhichFault.Memory (made_at place (tree_of value.now)) result }
{
    let written = expression_entry(alloc, place, value)?;
    make(alloc, place + 1, written)
}

fn expression_entry<'a>(
    alloc: Global,
    i: usize,
    value: &Value<'a>,
) -> Result<Written<'a>, WhichFault>
    requires forms { HasForms (tree_of value.now) }
    ensures { Answers WhichFault.Memory (expression_at i (tree_of value.now)) result }
{
    match fields::object_in(value) {
        Ok(expression) => expression_in(alloc, i, expression),
        Err(flaw) => Err(fault(WhichField::Expression(i), flaw)),
    }
}

#[tactic(auto, unfolding(crate::specs::Request::expression_in))]
fn expression_in<'a>(
    alloc: Global,
    i: usize,
    expression: &Value<'a>,
) -> Result<Written<'a>, WhichFault>
    requires forms { HasForms (tree_of expression.now) }
    ensures { Answers WhichFault.Memory (expression_in i (tree_of expression.now)) result }
{
    both(
        clauses_field(alloc, i, expression),
        weights_field(alloc, i, expression),
    )
}

#[tactic(auto, unfolding(crate::specs::Request::making_faults, crate::specs::Request::made_of))]
fn make<'a>(alloc: Global, number: usize, written: Written<'a>) -> Result<CnfExpr<'a>, WhichFault>
    ensures { (place : ℕ) → number ≡ place + 1 → Answers WhichFault.Memory (with_faults (making_faults place written.entry) (made_of written.entry)) result }
{
    let (raw, weights) = written;
    match CnfExpr::make(alloc, raw, weights) {
        Ok(expression) => Ok(expression),
        Err(fault) => Err(making_fault(number, fault)),
    }
}

fn making_fault(number: usize, fault: CnfFault) -> WhichFault
    ensures { result ≡ fault_of_making number fault }
{
    match fault {
        CnfFault::Memory => WhichFault::Memory,
        fault => WhichFault::Expression { number, fault },
    }
}
