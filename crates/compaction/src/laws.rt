//! The laws of an exchange that goes on without its oldest sales.
ghost use Rattle.std.specs.Prelude.{◌≡◌, ℕ, ◌≤◌, ◌++◌, List, Some, length, min};
ghost use Rattle.budget_book.specs.Sales.{forgettable};
ghost use Rattle.compaction.specs.Trimming.{CanBeGone, GoesOnWithout};
ghost use Rattle.plain_exchange.specs.Consistent.{IsConsistent};
ghost use Rattle.plain_exchange.specs.declared.changes.Effect.{Effect};
ghost use Rattle.plain_exchange.specs.Effects.{all_applied, kept_effects, state_of};
ghost use Rattle.plain_exchange.specs.State.{State, forget, forget_first, forgotten};

/// The law of sales that are gone, with nothing to run: effects that fit an exchange fit it without its oldest sales, none
/// of which is held, and lead to the same exchange without them.
pub fn an_exchange_goes_on_without_its_oldest_sales()
    ensures { (es : List Effect) (s after : State) (n : ℕ) → IsConsistent s → CanBeGone n s → all_applied es s ≡ Some after → GoesOnWithout n s es after }
{}

/// The law of what is kept, with nothing to run: the sales that are forgotten can be gone, and at least so many are left.
/// Behind the effects that make again what is left, those that come after the reading lead to the whole exchange without
/// sales that can be gone.
pub fn what_is_kept_goes_on()
    ensures can { (keep : ℕ) (s : State) → IsConsistent s → CanBeGone (forgettable keep (forgotten s) s.sales) s }
    ensures left { (keep : ℕ) (s : State) → min keep (length s.sales) ≤ length (forget keep s).sales }
    ensures goes_on { (keep : ℕ) (read behind : List Effect) (s after : State) → state_of read ≡ Some s → all_applied behind s ≡ Some after
        → (n : ℕ) × CanBeGone n after × (state_of (kept_effects (forget keep s) ++ behind) ≡ Some (forget_first n after)) }
{}
