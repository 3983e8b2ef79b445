//! An expression copied, with all its texts.
ghost use Rattle.std.specs.Prelude.{◌≡◌, IfOk};

use crate::expr::Expr;
use crate::make::copies;
use crate::pred::Pred;
use rtb_num::List;
use std::alloc::{AllocError, Global};

impl Expr {
    /// An equal expression.
    pub fn copy(&self) -> Result<Expr, AllocError>
        ensures { IfOk result (λ e. e ≡ self.now) }
    {
        let alloc = self.allocator();
        let mut all = Vec::with_capacity(alloc, self.conjunctions())?;
        for conjunction in self.as_slice() {
            all.push(copy_conjunction(alloc, conjunction.as_slice())?)?;
        }
        Ok(Expr::of(all))
    }
}

// Equal predicates.
fn copy_conjunction(alloc: Global, conjunction: &[Pred]) -> Result<List<Pred>, AllocError>
    ensures { IfOk result (λ preds. preds ≡ conjunction.now) }
{
    let mut preds = Vec::with_capacity(alloc, conjunction.len())?;
    for pred in conjunction {
        preds.push(copy_pred(alloc, pred)?)?;
    }
    Ok(List::from_vec(preds))
}

// An equal predicate.
fn copy_pred(alloc: Global, pred: &Pred) -> Result<Pred, AllocError>
    ensures { IfOk result (λ p. p ≡ pred.now) }
{
    let values = copies(alloc, pred.values.as_slice())?;
    Ok(Pred {
        attr: pred.attr,
        negated: pred.negated,
        values: List::from_vec(values),
    })
}
