//! The mark of each expression, which tells why it is chosen or is not.
ghost use Rattle.std.specs.Prelude.{◌≡◌, map, IfOk};
ghost use Rattle.std.specs.List.{fold};
ghost use Rattle.top_match.specs.Certificate.{marks_of, reason};
ghost use Rattle.top_match.specs.Choosing.{choose};

use crate::scored::{Mark, Scored};
use cnf_match::CnfExpr;
use rtb_num::List;
use std::alloc::{AllocError, Global};
use target_expr::Assignment;

/// The mark of each expression, in order: the chosen ones are marked so, and another with its first clause that is
/// false, or with its score.
pub fn certify(
    alloc: Global,
    exprs: &List<CnfExpr<'_>>,
    assignment: &Assignment,
    chosen: &List<Scored>,
) -> Result<List<Mark>, AllocError>
    ensures { IfOk result (λ marks. marks ≡ marks_of exprs.now assignment.now chosen.now) }
{
    let reasons = reasons(alloc, exprs.as_slice(), assignment)?;
    Ok(marks_from(reasons, chosen))
}

// The mark of each expression, were none chosen.
fn reasons(
    alloc: Global,
    exprs: &[CnfExpr<'_>],
    assignment: &Assignment,
) -> Result<List<Mark>, AllocError>
    ensures { IfOk result (λ marks. marks ≡ map (reason assignment.now) exprs.now) }
{
    let mut marks = List::with_capacity(alloc, exprs.len())?;
    for expr in exprs {
        marks.push(reason(expr, assignment))?;
    }
    Ok(marks)
}

/// The mark of the expression, were none chosen: its first clause that is false, or else its score.
pub fn reason(expr: &CnfExpr<'_>, assignment: &Assignment) -> Mark
    ensures { result ≡ reason assignment.now expr.now }
{
    match expr.first_false(assignment) {
        Some(clause) => Mark::False { clause },
        None => Mark::Later {
            score: expr.score(assignment),
        },
    }
}

/// The mark of each expression, as `certify` gives it, where the reason of each is known, in order. It looks at no
/// expression and takes no memory.
pub fn marks_from(reasons: List<Mark>, chosen: &List<Scored>) -> List<Mark>
    ensures { (es : _) (a : _) → reasons ≡ map (reason a) es → result ≡ marks_of es a chosen.now }
{
    chosen_in(reasons, chosen.as_slice())
}

fn chosen_in(reasons: List<Mark>, chosen: &[Scored]) -> List<Mark>
    ensures { result ≡ fold choose reasons chosen.now }
{
    let mut marks = reasons.into_vec();
    choose_all(&mut marks, chosen);
    List::from_vec(marks)
}

// Marks the chosen ones.
fn choose_all(marks: &mut [Mark], chosen: &[Scored])
    ensures { marks.new ≡ fold choose marks.old chosen.now }
{
    for scored in chosen {
        choose(marks, *scored);
    }
}

fn choose(marks: &mut [Mark], scored: Scored)
    ensures { marks.new ≡ choose marks.old scored }
{
    let number = scored.number as usize;
    if number != 0 && number <= marks.len() {
        marks[number - 1] = Mark::Chosen;
    }
}
