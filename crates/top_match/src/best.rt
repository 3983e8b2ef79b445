//! The best of the true expressions.
ghost use Rattle.std.specs.Prelude.{◌≡◌, ◌≤◌, ◌<◌, ◌+◌, [], ◌++◌, length, map, IfOk, OnOk, option_map};
ghost use Rattle.std.specs.List.{cons_option, enumerate_from, filter_map};
ghost use Rattle.std.specs.Option.{option_copied};
ghost use Rattle.cnf_match.specs.Find.{true_under};
ghost use Rattle.top_match.specs.Certificate.{reason};
ghost use Rattle.top_match.specs.Choosing.{item_at, scored_at, scored_by, scored_of};
ghost use Rattle.top_match.specs.Top.{all_scored, top_list};

use crate::rank::Rank;
use crate::scored::{Mark, Scored};
use cnf_match::CnfExpr;
use rtb_num::List;
use std::alloc::{AllocError, Global};
use std::cmp::Reverse;
use target_expr::Assignment;

/// The best `n` of the expressions that are true under the assignment, by greater score and then smaller number, or
/// all where there are fewer. `found` has the numbers of those that are true, as `CnfIndex::find` gives them.
pub fn top(
    alloc: Global,
    exprs: &List<CnfExpr<'_>>,
    found: &List<u32>,
    assignment: &Assignment,
    n: u32,
) -> Result<List<Scored>, AllocError>
    requires { found.now ≡ true_under assignment.now exprs.now }
    ensures { IfOk result (λ best. best ≡ top_list exprs.now assignment.now n) }
{
    let ranks = ranks_of(alloc, exprs.as_slice(), found.as_slice(), assignment)?;
    best_of(alloc, ranks, n)
}

/// The same list, where the reason of each expression is known, in order: why it is not chosen, were none. It looks at
/// no expression.
pub fn top_from(alloc: Global, reasons: &List<Mark>, n: u32) -> Result<List<Scored>, AllocError>
    requires few { length reasons.now ≤ 4096 }
    ensures { IfOk result (λ best. (es : _) (a : _) → reasons.now ≡ map (reason a) es → best ≡ top_list es a n) }
{
    let ranks = ranks_from(alloc, reasons.as_slice())?;
    best_of(alloc, ranks, n)
}

// The expressions with the first `n` of these ranks.
fn best_of(alloc: Global, ranks: Vec<Rank>, n: u32) -> Result<List<Scored>, AllocError>
    ensures { IfOk result (λ best. (es : _) (a : _) → map scored_of ranks.items ≡ all_scored es a → best ≡ top_list es a n) }
{
    let mut ranks = ranks;
    ranks.sort_unstable();
    ranks.truncate(n as usize);
    scored_in(alloc, ranks.as_slice())
}

// The ranks of the expressions that are found.
fn ranks_of(
    alloc: Global,
    exprs: &[CnfExpr<'_>],
    found: &[u32],
    assignment: &Assignment,
) -> Result<Vec<Rank>, AllocError>
    ensures { IfOk result (λ ranks. map scored_of ranks.items ≡ filter_map (scored_at exprs.now assignment.now) found.now) }
{
    let mut ranks = Vec::with_capacity(alloc, found.len())?;
    for number in found {
        push_some(&mut ranks, rank_at(exprs, *number, assignment))?;
    }
    Ok(ranks)
}

// The rank of the expression with the number.
fn rank_at(exprs: &[CnfExpr<'_>], number: u32, assignment: &Assignment) -> Option<Rank>
    ensures { option_map scored_of result ≡ scored_at exprs.now assignment.now number }
{
    let expr = expr_at(exprs, number)?;
    Some(Rank {
        score: Reverse(expr.score(assignment)),
        number,
    })
}

// The expression with the number, counted from 1.
pub(crate) fn expr_at<'a, 'b>(exprs: &'b [CnfExpr<'a>], number: u32) -> Option<&'b CnfExpr<'a>>
    ensures { option_copied result ≡ item_at exprs.now number }
{
    if number == 0 {
        None
    } else {
        exprs.get(number as usize - 1)
    }
}

// The ranks of the expressions whose reasons say that they are true.
fn ranks_from(alloc: Global, reasons: &[Mark]) -> Result<Vec<Rank>, AllocError>
    requires few { length reasons.now ≤ 4096 }
    ensures { IfOk result (λ ranks. map scored_of ranks.items ≡ filter_map scored_by (enumerate_from 1 reasons.now)) }
{
    let mut ranks = Vec::with_capacity(alloc, reasons.len())?;
    for (place, reason) in reasons.iter().enumerate() {
        push_some(&mut ranks, rank_by(place, *reason))?;
    }
    Ok(ranks)
}

// The rank of the expression at the place, where this reason says that it is true.
fn rank_by(place: usize, reason: Mark) -> Option<Rank>
    requires place { place < 4096 }
    ensures { option_map scored_of result ≡ scored_by (place + 1, reason) }
{
    match reason {
        Mark::Later { score } => Some(Rank {
            score: Reverse(score),
            number: place as u32 + 1,
        }),
        Mark::Chosen | Mark::False { .. } => None,
    }
}

// Appends the rank, where there is one.
fn push_some(ranks: &mut Vec<Rank>, rank: Option<Rank>) -> Result<(), AllocError>
    ensures { OnOk result (ranks.new.items ≡ ranks.old.items ++ cons_option rank []) }
{
    if let Some(rank) = rank {
        ranks.push(rank)?;
    }
    Ok(())
}

// The expressions with these ranks.
fn scored_in(alloc: Global, ranks: &[Rank]) -> Result<List<Scored>, AllocError>
    ensures { IfOk result (λ all. all ≡ map scored_of ranks.now) }
{
    let mut all = List::with_capacity(alloc, ranks.len())?;
    for rank in ranks {
        all.push(scored_of(*rank))?;
    }
    Ok(all)
}

fn scored_of(rank: Rank) -> Scored
    ensures { result ≡ scored_of rank }
{
    Scored {
        number: rank.number,
        score: rank.score.0,
    }
}
