//! Whether an expression is in order, as it is kept.
ghost use Rattle.std.specs.Prelude.{◌≡◌, length, nat_le};
ghost use Rattle.std.specs.List.{list_all};
ghost use Rattle.target_expr.specs.Kept.{attr_below, is_kept, is_kept_conjunction, is_kept_pred, rise, text_below};

use crate::pred::Pred;
use crate::{LONGEST_VALUE, MOST_CONJUNCTIONS, MOST_PREDICATES, MOST_VALUES};
use rtb_num::{List, Txt};

// Whether conjunctions are in order and within the limits.
pub(crate) fn is_kept(all: &[List<Pred>]) -> bool
    ensures { result ≡ is_kept all.now }
{
    0 < all.len() && all.len() <= MOST_CONJUNCTIONS && are_kept(all)
}

// Whether each conjunction is.
fn are_kept(all: &[List<Pred>]) -> bool
    ensures { result ≡ list_all is_kept_conjunction all.now }
{
    all.iter()
        .all(|conjunction| is_kept_conjunction(conjunction.as_slice()))
}

fn is_kept_conjunction(conjunction: &[Pred]) -> bool
    ensures { result ≡ is_kept_conjunction conjunction.now }
{
    conjunction.len() <= MOST_PREDICATES && are_kept_preds(conjunction) && preds_rise(conjunction)
}

fn are_kept_preds(conjunction: &[Pred]) -> bool
    ensures { result ≡ list_all is_kept_pred conjunction.now }
{
    conjunction.iter().all(|pred| is_kept_pred(pred))
}

fn is_kept_pred(pred: &Pred) -> bool
    ensures { result ≡ is_kept_pred pred.now }
{
    let values = pred.values.as_slice();
    0 < values.len() && values.len() <= MOST_VALUES && are_short(values) && values_rise(values)
}

// Whether no value is too long.
fn are_short(values: &[Txt]) -> bool
    ensures { result ≡ list_all (λ v. nat_le (length v) 255) values.now }
{
    values.iter().all(|value| value.len() <= LONGEST_VALUE)
}

// Whether each value is below the next in byte order.
pub(crate) fn values_rise(values: &[Txt]) -> bool
    ensures { result ≡ rise text_below values.now }
{
    for i in 1..values.len() {
        if !text_below(&values[i - 1], &values[i]) {
            return false;
        }
    }
    true
}

fn text_below(a: &Txt, b: &Txt) -> bool
    ensures { result ≡ text_below a.now b.now }
{
    a.cmp(b).is_lt()
}

// Whether each attribute is below the next.
fn preds_rise(preds: &[Pred]) -> bool
    ensures { result ≡ rise attr_below preds.now }
{
    for i in 1..preds.len() {
        if !attr_below(&preds[i - 1], &preds[i]) {
            return false;
        }
    }
    true
}

fn attr_below(p: &Pred, q: &Pred) -> bool
    ensures { result ≡ attr_below p.now q.now }
{
    p.attr.number() < q.attr.number()
}
