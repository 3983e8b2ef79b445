//! The same answer by asking each campaign in turn.
ghost use Rattle.std.specs.Prelude.{◌≡◌, ◌≤◌, ◌+◌, [], ◌∷◌, ◌++◌, if◌then◌else◌, IfOk, OnOk};
ghost use Rattle.conj_index.specs.Campaigns.{conjunctions_in};
ghost use Rattle.conj_index.specs.Find.{true_under};

use rtb_base::Steps;
use rtb_num::List;
use std::alloc::{AllocError, Global};
use std::sync::ledger::Ledger;
use target_expr::{Assignment, Expr};

/// The numbers of the campaigns whose expression is true under the assignment, in the order of the
/// list: each expression is asked in turn.
///
/// One step is one conjunction that is looked at.
pub fn scan<L: Ledger>(
    alloc: Global,
    added: &[(u32, Expr)],
    assignment: &Assignment,
    steps: &mut Steps<L>,
) -> Result<List<u32>, AllocError>
    ensures answer { IfOk result (λ numbers. numbers ≡ true_under assignment.now added.now) }
    ensures cost { steps.new ≤ steps.old + conjunctions_in added.now }
{
    let mut numbers = List::new(alloc);
    for (number, expr) in added {
        push_if(&mut numbers, *number, expr.holds(assignment, steps))?;
    }
    Ok(numbers)
}

// Appends the number, where that is so.
fn push_if(numbers: &mut List<u32>, number: u32, is_so: bool) -> Result<(), AllocError>
    ensures { OnOk result (numbers.new ≡ numbers.old ++ (if is_so then number ∷ [] else [])) }
{
    if is_so {
        numbers.push(number)?;
    }
    Ok(())
}
