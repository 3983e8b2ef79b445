//! The index of a table's live campaigns.
ghost use Rattle.std.specs.Prelude.{◌≡◌, ◌≤◌, ◌<◌, ◌+◌, ◌++◌, [], ◌∷◌, All, IfOk, OnOk, Some, length};
ghost use Rattle.campaign_store.specs.Table.{campaign_at};
ghost use Rattle.campaign_store.specs.declared.listed.Listed.{Listed as AListed};
ghost use Rattle.conj_index.specs.Campaigns.{conjunctions_in};
ghost use Rattle.conj_index.specs.Content.{IsIndexOf};
ghost use Rattle.live_index.specs.Reached.{index_cost, live_expression, live_expressions};

use campaign_store::Table;
use conj_index::{Builder, Index, IndexFault};
use rtb_base::Steps;
use std::alloc::{AllocError, Global};
use std::sync::ledger::Ledger;

/// The index of the table's live campaigns, by their numbers in the table.
///
/// One step is one campaign of the table, or one pair of a live campaign's expression.
pub fn index_of_live<L: Ledger>(
    alloc: Global,
    table: &Table,
    steps: &mut Steps<L>,
) -> Result<Index, AllocError>
    ensures content { IfOk result (IsIndexOf (live_expressions table.now.campaigns)) }
    ensures cost { steps.new ≤ steps.old + index_cost table.now.campaigns }
{
    let builder = builder_of(alloc, table, steps)?;
    match Index::build(alloc, builder, steps) {
        Ok(index) => Ok(index),
        Err(IndexFault::Memory) => Err(AllocError),
    }
}

// The live campaigns, each with its expression.
fn builder_of<'a, L: Ledger>(
    alloc: Global,
    table: &'a Table,
    steps: &mut Steps<L>,
) -> Result<Builder<'a>, AllocError>
    ensures content { IfOk result (λ b. b ≡ live_expressions table.now.campaigns) }
    ensures cost { steps.new ≤ steps.old + length table.now.campaigns }
{
    let mut builder = Builder::new(alloc);
    for place in 0..table.count() {
        add_where_live(&mut builder, table, place + 1, steps)?;
    }
    Ok(builder)
}

// Adds campaign `n`, where it is live.
fn add_where_live<'a, L: Ledger>(
    builder: &mut Builder<'a>,
    table: &'a Table,
    n: u32,
    steps: &mut Steps<L>,
) -> Result<(), AllocError>
    requires above { All (λ p. p.0 < n) builder.old }
    requires room { (c : AListed) → campaign_at table.now.campaigns n ≡ Some c → conjunctions_in (builder.old ++ (n, c.entry.expr) ∷ []) ≤ 1000000 }
    ensures ok { (c : AListed) → campaign_at table.now.campaigns n ≡ Some c → OnOk result (builder.new ≡ builder.old ++ live_expression (n, c)) }
    ensures cost { steps.new ≤ steps.old + 1 }
{
    if !is_live(table, n) {
        return Ok(());
    }
    add_there(builder, table, n, steps)
}

fn is_live(table: &Table, n: u32) -> bool
    ensures { (c : AListed) → campaign_at table.now.campaigns n ≡ Some c → result ≡ c.live }
{
    matches!(table.live(n), Some(true))
}

// Adds campaign `n`.
fn add_there<'a, L: Ledger>(
    builder: &mut Builder<'a>,
    table: &'a Table,
    n: u32,
    steps: &mut Steps<L>,
) -> Result<(), AllocError>
    requires above { All (λ p. p.0 < n) builder.old }
    requires room { (c : AListed) → campaign_at table.now.campaigns n ≡ Some c → conjunctions_in (builder.old ++ (n, c.entry.expr) ∷ []) ≤ 1000000 }
    ensures ok { (c : AListed) → campaign_at table.now.campaigns n ≡ Some c → OnOk result (builder.new ≡ builder.old ++ (n, c.entry.expr) ∷ []) }
    ensures cost { steps.new ≤ steps.old + 1 }
{
    match table.get(n) {
        Some(entry) => builder.add(n, &entry.record().expr, steps),
        None => Ok(()),
    }
}
