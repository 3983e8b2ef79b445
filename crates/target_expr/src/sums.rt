//! How many values an expression has, and how many bytes of text.
ghost use Rattle.std.specs.Prelude.{◌≡◌, ◌≤◌, ◌*◌, IsTrue, length, sum_by};
ghost use Rattle.target_expr.specs.Kept.{is_kept_conjunction, is_kept_pred};
ghost use Rattle.target_expr.specs.Pairs.{bytes_in, text_bytes_of, values_in, values_of};

use crate::expr::Expr;
use crate::pred::Pred;

impl Expr {
    /// How many values its predicates list, at most 262,144.
    pub fn values(&self) -> usize
        ensures value { result ≡ values_of self.now }
        ensures bound { result ≤ 64 * 16 * 256 }
    {
        let mut all = 0;
        for conjunction in self.as_slice() {
            all += values_in(conjunction.as_slice());
        }
        all
    }

    /// How many bytes these values have, at most 66,846,720.
    pub fn text_bytes(&self) -> u64
        ensures value { result ≡ text_bytes_of self.now }
        ensures bound { result ≤ 64 * 16 * 256 * 255 }
    {
        let mut all = 0;
        for conjunction in self.as_slice() {
            all += bytes_in(conjunction.as_slice());
        }
        all
    }
}

// How many values the predicates of a conjunction list.
fn values_in(conjunction: &[Pred]) -> usize
    requires { IsTrue (is_kept_conjunction conjunction.now) }
    ensures { result ≡ values_in conjunction.now }
{
    let mut all = 0;
    for pred in conjunction {
        all += pred.values.len();
    }
    all
}

// How many bytes these values have.
fn bytes_in(conjunction: &[Pred]) -> u64
    requires { IsTrue (is_kept_conjunction conjunction.now) }
    ensures { result ≡ bytes_in conjunction.now }
{
    let mut all = 0;
    for pred in conjunction {
        all += bytes_of(pred);
    }
    all
}

// How many bytes the values of a predicate have.
fn bytes_of(pred: &Pred) -> u64
    requires { IsTrue (is_kept_pred pred.now) }
    ensures { result ≡ sum_by length pred.now.values }
{
    let mut all = 0;
    for value in pred.values.as_slice() {
        all += value.len() as u64;
    }
    all
}
