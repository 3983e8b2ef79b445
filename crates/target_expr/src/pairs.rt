//! The sizes of an expression's conjunctions, and the pairs that they name.
ghost use Rattle.std.specs.Prelude.{◌≡◌, ◌+◌, ◌≤◌, ◌++◌, length, IfOk, OnOk};
ghost use Rattle.target_expr.specs.Pairs.{conjunction_pairs, pairs_of, pred_pairs, size_of, sizes_of};

use crate::expr::Expr;
use crate::pred::{Pair, Pred};
use rtb_base::Steps;
use rtb_num::List;
use std::alloc::AllocError;
use std::sync::ledger::Ledger;

impl Expr {
    /// The size of each conjunction: how many of its predicates are not negated.
    pub fn sizes(&self) -> Result<List<u32>, AllocError>
        ensures { IfOk result (λ sizes. sizes ≡ sizes_of self.now) }
    {
        let mut sizes = List::from_vec(Vec::with_capacity(self.allocator(), self.conjunctions())?);
        for conjunction in self.as_slice() {
            sizes.push(size(conjunction.as_slice()))?;
        }
        Ok(sizes)
    }

    /// Every pair of an attribute and a value that it names: conjunction after conjunction, in the
    /// order of its predicates and of their values.
    ///
    /// One step is one pair.
    pub fn pairs<L: Ledger>(&self, steps: &mut Steps<L>) -> Result<List<Pair>, AllocError>
        ensures value { IfOk result (λ pairs. pairs ≡ pairs_of self.now) }
        ensures steps { OnOk result (steps.new ≡ steps.old + length (pairs_of self.now)) }
        ensures cost { steps.new ≤ steps.old + length (pairs_of self.now) }
    {
        let mut pairs = List::from_vec(Vec::with_capacity(self.allocator(), self.values())?);
        for (n, conjunction) in self.as_slice().iter().enumerate() {
            push_conjunction(n as u32, conjunction.as_slice(), &mut pairs, steps)?;
        }
        Ok(pairs)
    }
}

// How many of the predicates are not negated.
fn size(conjunction: &[Pred]) -> u32
    requires { length conjunction.now ≤ 16 }
    ensures { result ≡ size_of conjunction.now }
{
    conjunction.iter().filter(|pred| !pred.negated).count() as u32
}

// Appends the pairs of the conjunction at place `n`.
fn push_conjunction<L: Ledger>(
    n: u32,
    conjunction: &[Pred],
    pairs: &mut List<Pair>,
    steps: &mut Steps<L>,
) -> Result<(), AllocError>
    requires { length conjunction.now ≤ 16 }
    ensures value { OnOk result (pairs.new ≡ pairs.old ++ conjunction_pairs (n, conjunction.now)) }
    ensures steps { OnOk result (steps.new ≡ steps.old + length (conjunction_pairs (n, conjunction.now))) }
    ensures cost { steps.new ≤ steps.old + length (conjunction_pairs (n, conjunction.now)) }
{
    let size = size(conjunction);
    for pred in conjunction {
        push_pred(n, size, pred, pairs, steps)?;
    }
    Ok(())
}

// Appends the pairs of a predicate of the conjunction at place `n`, whose size is given.
fn push_pred<L: Ledger>(
    n: u32,
    size: u32,
    pred: &Pred,
    pairs: &mut List<Pair>,
    steps: &mut Steps<L>,
) -> Result<(), AllocError>
    ensures value { OnOk result (pairs.new ≡ pairs.old ++ pred_pairs n size pred.now) }
    ensures steps { OnOk result (steps.new ≡ steps.old + length (pred_pairs n size pred.now)) }
    ensures cost { steps.new ≤ steps.old + length (pred_pairs n size pred.now) }
{
    for value in pred.values.as_slice() {
        let value = value.copy()?;
        pairs.push(Pair {
            conjunction: n,
            size,
            attr: pred.attr,
            negated: pred.negated,
            value,
        })?;
        steps.tick();
    }
    Ok(())
}
