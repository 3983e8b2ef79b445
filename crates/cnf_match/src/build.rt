//! The index of expressions in conjunctive form, built.
ghost use Rattle.std.specs.Prelude.{◌≡◌, ◌≤◌, ◌++◌, map, length, replicate, take, IfOk, IsTrue, OnOk};
ghost use Rattle.std.specs.List.{list_all, list_any};
ghost use Rattle.cnf_match.specs.Conjunctive.{are_kept_clauses, is_kept_clause};
ghost use Rattle.cnf_match.specs.Content.{AreKept, IsIndexOf, all_negated, negated_in, zero_list};
ghost use Rattle.cnf_match.specs.Growing.{Enters, IsGrown, clause_pairs, clauses_pairs, pairs_of, pred_pairs};

use crate::MOST_CLAUSES;
use crate::counted::Counted;
use crate::expr::CnfExpr;
use crate::growing::Growing;
use crate::index::{CnfIndex, Entry, Key};
use crate::pred::Pred;
use indexmap::IndexMap;
use rtb_num::List;
use std::alloc::{AllocError, Global};

impl CnfIndex {
    /// The index of these expressions, at most 4,096. It keeps none of them.
    pub fn build(alloc: Global, exprs: &List<CnfExpr<'_>>) -> Result<CnfIndex, AllocError>
        requires { length exprs.now ≤ 4096 }
        ensures { IfOk result (IsIndexOf exprs.now) }
    {
        let exprs = exprs.as_slice();
        let zeros = zero_list(alloc, exprs)?;
        let negated = all_negated(alloc, exprs)?;
        let Growing { keys, lists, seats } = grow(alloc, exprs)?;
        drop(seats);
        let lists = lists_in(alloc, lists)?;
        Ok(made(keys, lists, zeros, negated))
    }
}

// The index of these parts.
fn made(
    keys: IndexMap<Key, ()>,
    lists: List<Counted<Entry>>,
    zeros: Vec<u32>,
    negated: List<u8>,
) -> CnfIndex
    ensures { result ≡ record { keys = keys; lists = lists; zeros = zeros.items; negated = negated } }
{
    CnfIndex {
        keys,
        lists,
        zeros: Counted::from_vec(zeros),
        negated,
    }
}

// The places of the expressions each clause of which has a negated predicate.
fn zero_list(alloc: Global, exprs: &[CnfExpr<'_>]) -> Result<Vec<u32>, AllocError>
    requires { length exprs.now ≤ 4096 }
    ensures { IfOk result (λ zeros. zeros.items ≡ zero_list exprs.now) }
{
    let mut zeros = Vec::new(alloc);
    for (n, expr) in exprs.iter().enumerate() {
        if needs_none(expr.clauses()) {
            zeros.push(n as u32)?;
        }
    }
    Ok(zeros)
}

// Whether each clause has a negated predicate.
fn needs_none(clauses: &[List<Pred<'_>>]) -> bool
    ensures { result ≡ list_all (list_any (λ p. p.negated)) clauses.now }
{
    clauses.iter().all(|clause| has_negated(clause.as_slice()))
}

fn has_negated(clause: &[Pred<'_>]) -> bool
    ensures { result ≡ list_any (λ p. p.negated) clause.now }
{
    clause.iter().any(|pred| pred.is_negated())
}

// How many predicates of each clause are negated, sixteen places an expression.
fn all_negated(alloc: Global, exprs: &[CnfExpr<'_>]) -> Result<List<u8>, AllocError>
    ensures negated { IfOk result (λ negated. negated ≡ all_negated exprs.now) }
    ensures kept { IfOk result (λ _. AreKept exprs.now) }
{
    let mut all = List::new(alloc);
    for expr in exprs {
        push_negated(&mut all, expr.clauses())?;
    }
    Ok(all)
}

// Appends how many predicates of each clause are negated, and then 1 up to the sixteenth place.
fn push_negated(all: &mut List<u8>, clauses: &[List<Pred<'_>>]) -> Result<(), AllocError>
    requires { IsTrue (are_kept_clauses clauses.now) }
    ensures { OnOk result (all.new ≡ all.old ++ take 16 (map negated_in clauses.now ++ replicate 16 1)) }
{
    push_counts(all, clauses)?;
    push_ones(all, MOST_CLAUSES - clauses.len())?;
    Ok(())
}

fn push_counts(all: &mut List<u8>, clauses: &[List<Pred<'_>>]) -> Result<(), AllocError>
    requires { IsTrue (are_kept_clauses clauses.now) }
    ensures { OnOk result (all.new ≡ all.old ++ map negated_in clauses.now) }
{
    for clause in clauses {
        all.push(negated_in(clause.as_slice()))?;
    }
    Ok(())
}

// How many predicates of the clause are negated.
fn negated_in(clause: &[Pred<'_>]) -> u8
    requires { IsTrue (is_kept_clause clause.now) }
    ensures { result ≡ negated_in clause.now }
{
    let mut count = 0;
    for pred in clause {
        if pred.is_negated() {
            count += 1;
        }
    }
    count
}

fn push_ones(all: &mut List<u8>, times: usize) -> Result<(), AllocError>
    ensures { OnOk result (all.new ≡ all.old ++ replicate times 1) }
{
    for _ in 0..times {
        all.push(1)?;
    }
    Ok(())
}

// The lists of the keys that the expressions name.
fn grow(alloc: Global, exprs: &[CnfExpr<'_>]) -> Result<Growing, AllocError>
    requires { length exprs.now ≤ 4096 }
    ensures { IfOk result (IsGrown (pairs_of exprs.now)) }
{
    let mut growing = Growing::new(alloc)?;
    enter_all(alloc, &mut growing, exprs)?;
    Ok(growing)
}

// Enters the predicates of each expression.
fn enter_all(alloc: Global, growing: &mut Growing, exprs: &[CnfExpr<'_>]) -> Result<(), AllocError>
    requires few { length exprs.now ≤ 4096 }
    ensures { OnOk result (Enters (pairs_of exprs.now) growing.old growing.new) }
{
    for (n, expr) in exprs.iter().enumerate() {
        enter_expression(alloc, growing, n as u16, expr.clauses())?;
    }
    Ok(())
}

// Enters the predicates of the clauses of the expression at place `n`.
fn enter_expression(
    alloc: Global,
    growing: &mut Growing,
    n: u16,
    clauses: &[List<Pred<'_>>],
) -> Result<(), AllocError>
    requires { length clauses.now ≤ 16 }
    ensures { OnOk result (Enters (clauses_pairs n clauses.now) growing.old growing.new) }
{
    for (i, clause) in clauses.iter().enumerate() {
        enter_clause(alloc, growing, n, i as u8, clause.as_slice())?;
    }
    Ok(())
}

// Enters the predicates of the clause at place `i`.
fn enter_clause(
    alloc: Global,
    growing: &mut Growing,
    n: u16,
    i: u8,
    clause: &[Pred<'_>],
) -> Result<(), AllocError>
    ensures { OnOk result (Enters (clause_pairs n (i, clause.now)) growing.old growing.new) }
{
    for pred in clause {
        enter_pred(alloc, growing, n, i, pred)?;
    }
    Ok(())
}

// Enters the predicate under each of its values.
fn enter_pred(
    alloc: Global,
    growing: &mut Growing,
    n: u16,
    i: u8,
    pred: &Pred<'_>,
) -> Result<(), AllocError>
    ensures { OnOk result (Enters (pred_pairs n i pred.now) growing.old growing.new) }
{
    let values = pred.values();
    for place in 0..values.len() {
        let entry = Entry {
            expression: n,
            clause: i,
            negated: pred.is_negated(),
        };
        growing.enter(alloc, pred.attr(), values.get(place), entry)?;
    }
    Ok(())
}

// The same lists, as an index has them.
fn lists_in(alloc: Global, lists: Vec<Vec<Entry>>) -> Result<List<Counted<Entry>>, AllocError>
    ensures { IfOk result (λ made. made ≡ map (λ l. l.items) lists.items) }
{
    let mut made = List::with_capacity(alloc, lists.len())?;
    for list in lists {
        made.push(Counted::from_vec(list))?;
    }
    Ok(made)
}
