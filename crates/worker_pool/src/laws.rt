//! What holds of each history.
ghost use Rattle.std.specs.Prelude.{ℕ, List, take};
ghost use Rattle.exchange_state.specs.Tickets.{state_after};
ghost use Rattle.exchange_state.specs.declared.entries.Origin.{Origin};
ghost use Rattle.plain_exchange.specs.Consistent.{IsSolvent};
ghost use Rattle.plain_exchange.specs.History.{Call};

use plain_exchange::budgets_hold;

/// Whatever an exchange was opened with, at no place of a history has a campaign more than its budget committed.
pub fn budgets_hold_at_each_place()
    ensures { (o : Origin) (history : List Call) (n : ℕ) → IsSolvent (state_after o (take n history)) }
{
    budgets_hold();
}
