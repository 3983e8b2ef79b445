//! A list and its marks checked, without a search.
ghost use Rattle.std.specs.Prelude.{◌≡◌, ◌↔◌, ◌==◌, ◌+◌, IsTrue, count_by, false};
ghost use Rattle.std.specs.List.{list_all};
ghost use Rattle.std.specs.Option.{option_map_or};
ghost use Rattle.target_expr.specs.Kept.{rise};
ghost use Rattle.cnf_match.specs.Conjunctive.{first_false, score_of};
ghost use Rattle.top_match.specs.Certificate.{marks_of};
ghost use Rattle.top_match.specs.Checking.{are_right, has_score, is_behind, is_certified, is_right, is_right_at, is_shown, last_of, says_chosen};
ghost use Rattle.top_match.specs.Choosing.{item_at};
ghost use Rattle.top_match.specs.Top.{is_before, top_list};

use crate::best::expr_at;
use crate::scored::{Mark, Scored};
use cnf_match::CnfExpr;
use rtb_num::List;
use target_expr::Assignment;

/// Whether these are the best `n` of the expressions that are true under the assignment, in order, and the marks those
/// of all expressions. It looks at each expression, each mark and each chosen one once, and searches for nothing.
pub fn check(
    exprs: &List<CnfExpr<'_>>,
    assignment: &Assignment,
    n: u32,
    chosen: &List<Scored>,
    marks: &List<Mark>,
) -> bool
    ensures { IsTrue result ↔ ((chosen.now ≡ top_list exprs.now assignment.now n) × (marks.now ≡ marks_of exprs.now assignment.now chosen.now)) }
{
    is_certified(
        exprs.as_slice(),
        assignment,
        n as usize,
        chosen.as_slice(),
        marks.as_slice(),
    )
}

fn is_certified(
    exprs: &[CnfExpr<'_>],
    assignment: &Assignment,
    n: usize,
    chosen: &[Scored],
    marks: &[Mark],
) -> bool
    ensures { result ≡ is_certified exprs.now assignment.now n chosen.now marks.now }
{
    marks.len() == exprs.len()
        && chosen.len() <= n
        && do_rise(chosen)
        && are_shown(exprs, assignment, chosen, marks)
        && are_right(exprs, assignment, chosen.len() == n, last_of(chosen), marks)
        && count_chosen(marks) == chosen.len()
}

// Whether each comes before the next.
fn do_rise(chosen: &[Scored]) -> bool
    ensures { result ≡ rise is_before chosen.now }
{
    for i in 1..chosen.len() {
        if !is_before(chosen[i - 1], chosen[i]) {
            return false;
        }
    }
    true
}

// Whether the one comes before the other: it has the greater score, or an equal one and the smaller number.
fn is_before(one: Scored, other: Scored) -> bool
    ensures { result ≡ is_before one other }
{
    one.score > other.score || one.score == other.score && one.number < other.number
}

// Whether each chosen one is marked so, and has the score of its expression.
fn are_shown(
    exprs: &[CnfExpr<'_>],
    assignment: &Assignment,
    chosen: &[Scored],
    marks: &[Mark],
) -> bool
    ensures { result ≡ list_all (is_shown exprs.now assignment.now marks.now) chosen.now }
{
    chosen
        .iter()
        .all(|scored| is_shown(exprs, assignment, marks, scored))
}

fn is_shown(exprs: &[CnfExpr<'_>], assignment: &Assignment, marks: &[Mark], scored: &Scored) -> bool
    ensures { result ≡ is_shown exprs.now assignment.now marks.now scored.now }
{
    is_marked(marks, scored.number) && is_scored(exprs, assignment, scored)
}

// Whether the expression with the number is marked as chosen.
fn is_marked(marks: &[Mark], number: u32) -> bool
    ensures { result ≡ option_map_or says_chosen (item_at marks.now number) false }
{
    if number == 0 {
        return false;
    }
    match marks.get(number as usize - 1) {
        Some(mark) => says_chosen(*mark),
        None => false,
    }
}

fn says_chosen(mark: Mark) -> bool
    ensures { result ≡ says_chosen mark }
{
    match mark {
        Mark::Chosen => true,
        Mark::False { .. } | Mark::Later { .. } => false,
    }
}

// Whether there is such an expression, and its score is this.
fn is_scored(exprs: &[CnfExpr<'_>], assignment: &Assignment, scored: &Scored) -> bool
    ensures { result ≡ option_map_or (λ e. scored.now.score == score_of assignment.now e.weights) (item_at exprs.now scored.now.number) false }
{
    match expr_at(exprs, scored.number) {
        Some(expr) => scored.score == expr.score(assignment),
        None => false,
    }
}

// The last of these, where there is one.
fn last_of(chosen: &[Scored]) -> Option<Scored>
    ensures { result ≡ last_of chosen.now }
{
    chosen.get(chosen.len().saturating_sub(1)).copied()
}

// Whether each mark is right; more may be chosen where it is not full.
fn are_right(
    exprs: &[CnfExpr<'_>],
    assignment: &Assignment,
    full: bool,
    last: Option<Scored>,
    marks: &[Mark],
) -> bool
    ensures { result ≡ are_right exprs.now assignment.now full last marks.now }
{
    for (place, mark) in marks.iter().enumerate() {
        if !is_right_at(exprs, assignment, full, last, place, *mark) {
            return false;
        }
    }
    true
}

fn is_right_at(
    exprs: &[CnfExpr<'_>],
    assignment: &Assignment,
    full: bool,
    last: Option<Scored>,
    place: usize,
    mark: Mark,
) -> bool
    ensures { result ≡ is_right_at exprs.now assignment.now full last (place, mark) }
{
    match exprs.get(place) {
        Some(expr) => is_right(expr, assignment, full, last, place, mark),
        None => false,
    }
}

fn is_right(
    expr: &CnfExpr<'_>,
    assignment: &Assignment,
    full: bool,
    last: Option<Scored>,
    place: usize,
    mark: Mark,
) -> bool
    ensures { result ≡ is_right assignment.now full last mark (place + 1, expr.now) }
{
    match mark {
        Mark::Chosen => expr.first_false(assignment).is_none(),
        Mark::False { clause } => is_first_false(expr, assignment, clause),
        Mark::Later { score } => {
            has_score(expr, assignment, score) && full && is_behind(last, place, score)
        }
    }
}

// Whether the clause at this place is the first that is false.
fn is_first_false(expr: &CnfExpr<'_>, assignment: &Assignment, clause: u32) -> bool
    ensures { result ≡ option_map_or (λ c. c == clause) (first_false assignment.now expr.now.clauses) false }
{
    match expr.first_false(assignment) {
        Some(first) => first == clause,
        None => false,
    }
}

// Whether the expression is true and has this score.
fn has_score(expr: &CnfExpr<'_>, assignment: &Assignment, score: u64) -> bool
    ensures { result ≡ has_score assignment.now expr.now score }
{
    expr.first_false(assignment).is_none() && score == expr.score(assignment)
}

// Whether the expression at the place comes behind the last one that is chosen.
fn is_behind(last: Option<Scored>, place: usize, score: u64) -> bool
    ensures { result ≡ is_behind last (record { number = place + 1; score = score }) }
{
    match last {
        Some(last) => is_passed(last, place, score),
        None => true,
    }
}

fn is_passed(last: Scored, place: usize, score: u64) -> bool
    ensures { result ≡ is_before last (record { number = place + 1; score = score }) }
{
    last.score > score || last.score == score && last.number as usize <= place
}

// How many marks say that an expression is chosen.
fn count_chosen(marks: &[Mark]) -> usize
    ensures { result ≡ count_by says_chosen marks.now }
{
    let mut count = 0;
    for mark in marks {
        if says_chosen(*mark) {
            count += 1;
        }
    }
    count
}
