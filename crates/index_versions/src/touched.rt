//! The campaigns that were touched since a version, and which of them are true now.
ghost use Rattle.std.specs.Prelude.{◌≡◌, ◌<◌, ◌≤◌, ◌+◌, ◌∷◌, [], ◌++◌, ◌↔◌, ℕ, None, if◌then◌else◌, filter, sum_by, IfOk, IfSome, OnOk};
ghost use Rattle.std.specs.List.Sorted.{IsStrictlyIncreasing};
ghost use Rattle.index_versions.specs.Fixed.{is_among};
ghost use Rattle.index_versions.specs.Recent.{touched_after};
ghost use Rattle.index_versions.specs.Touched.{conjunctions_of, is_true_at};

use crate::recent::Recent;
use campaign_store::Table;
use rtb_base::Steps;
use rtb_num::List;
use std::alloc::{AllocError, Global};
use std::sync::ledger::Ledger;
use target_expr::Assignment;

/// The campaigns that were touched by the edits after number `edit`, each once and rising. None where an edit after
/// that is forgotten.
pub fn touched_since(
    alloc: Global,
    recent: &Recent,
    edit: u64,
) -> Result<Option<List<u32>>, AllocError>
    ensures none { IfOk result (λ r. (r ≡ None) ↔ (edit < recent.now.oldest)) }
    ensures rising { IfOk result (λ r. IfSome r IsStrictlyIncreasing) }
    ensures same { IfOk result (λ r. IfSome r (λ touched. (n : ℕ) → is_among touched n ≡ is_among (touched_after edit recent.now) n)) }
{
    let Some(edits) = recent.after(edit) else {
        return Ok(None);
    };
    let touched = distinct(alloc, edits)?;
    Ok(Some(List::from_vec(touched)))
}

// The campaigns of these edits, each once and rising.
fn distinct(alloc: Global, edits: &[u32]) -> Result<Vec<u32>, AllocError>
    ensures rising { IfOk result (λ touched. IsStrictlyIncreasing touched.items) }
    ensures same { IfOk result (λ touched. (n : ℕ) → is_among touched.items n ≡ is_among edits.now n) }
{
    let mut touched = Vec::from_slice(alloc, edits)?;
    touched.sort_unstable();
    touched.dedup();
    Ok(touched)
}

/// Those of these campaigns that are live now and whose expression is true now, in their order.
///
/// One step is one conjunction that is looked at.
pub fn true_among<L: Ledger>(
    alloc: Global,
    touched: &[u32],
    table: &Table,
    assignment: &Assignment,
    steps: &mut Steps<L>,
) -> Result<List<u32>, AllocError>
    ensures numbers { IfOk result (λ numbers. numbers ≡ filter (is_true_at assignment.now table.now.campaigns) touched.now) }
    ensures cost { steps.new ≤ steps.old + sum_by (conjunctions_of table.now.campaigns) touched.now }
{
    let mut numbers = Vec::new(alloc);
    for number in touched {
        push_true(&mut numbers, *number, table, assignment, steps)?;
    }
    Ok(List::from_vec(numbers))
}

// Appends campaign `n`, where it is live and true now.
fn push_true<L: Ledger>(
    numbers: &mut Vec<u32>,
    n: u32,
    table: &Table,
    assignment: &Assignment,
    steps: &mut Steps<L>,
) -> Result<(), AllocError>
    ensures numbers { OnOk result (numbers.new.items ≡ numbers.old.items ++ (if is_true_at assignment.now table.now.campaigns n then n ∷ [] else [])) }
    ensures cost { steps.new ≤ steps.old + conjunctions_of table.now.campaigns n }
{
    if is_true_now(table, n, assignment, steps) {
        numbers.push(n)?;
    }
    Ok(())
}

// Whether campaign `n` is live, and its expression true.
fn is_true_now<L: Ledger>(
    table: &Table,
    n: u32,
    assignment: &Assignment,
    steps: &mut Steps<L>,
) -> bool
    ensures value { result ≡ is_true_at assignment.now table.now.campaigns n }
    ensures cost { steps.new ≤ steps.old + conjunctions_of table.now.campaigns n }
{
    if table.live(n) != Some(true) {
        return false;
    }
    match table.get(n) {
        Some(entry) => entry.record().expr.holds(assignment, steps),
        None => false,
    }
}
