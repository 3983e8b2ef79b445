//! What an advertiser states and whom it wants to reach, and a record of it that is shared.
ghost use Rattle.std.specs.Prelude.{◌≡◌, IfOk};
ghost use Rattle.campaign_store.specs.Counts.{AreOfOne, counts_of};

use crate::counts::Counts;
use campaign::Facts;
use std::alloc::{AllocError, Global};
use std::marker::Model;
use std::sync::Arc;
use target_expr::Expr;

/// What an advertiser states of a campaign, and whom it wants to reach.
#[derive(Drop)]
pub struct Record {
    pub facts: Facts,
    pub expr: Expr,
}

/// A record that is shared and never changes: a copy of it copies no text. Contracts see the record.
#[derive(Drop)]
pub struct SharedRecord {
    shared: Arc<Record>,
    // What it holds.
    counts: Counts,
}

impl Model for SharedRecord {
    ghost use Rattle.campaign_store.specs.declared.record.Record.{Record};
    ghost use Rattle.campaign_store.specs.Counts.{AreOfOne, counts_of};
    ghost use Rattle.std.specs.Prelude.{◌≡◌};
    ghost use Rattle.std.specs.Arc.{arc_value};

    ghost Value = { Record };

    ghost view = { λ r. arc_value r.shared };

    ghost invariant = { λ r. (r.counts ≡ counts_of (arc_value r.shared)) × AreOfOne r.counts };
}

/// The record of these facts and this expression, which its owners share.
///
/// It takes memory for the record alone: no text is copied.
pub fn make_record(alloc: Global, facts: Facts, expr: Expr) -> Result<SharedRecord, AllocError>
    ensures { IfOk result (λ r. r ≡ record { facts = facts; expr = expr }) }
{
    let counts = Counts::of(&facts, &expr);
    let shared = Arc::new(alloc, Record { facts, expr })?;
    Ok(SharedRecord { shared, counts })
}

impl SharedRecord {
    /// The record.
    pub fn record(&self) -> &Record
        ensures { result.now ≡ self.now }
    {
        &self.shared
    }

    /// A further owner of the same record. An error says that it has as many owners as can be counted,
    /// which are 2^63.
    pub fn share(&self) -> Result<SharedRecord, AllocError>
        ensures { IfOk result (λ r. r ≡ self.now) }
    {
        let shared = self.shared.clone()?;
        Ok(SharedRecord {
            shared,
            counts: self.counts,
        })
    }

    // What it holds of all that is limited.
    pub(crate) fn counts(&self) -> Counts
        ensures value { result ≡ counts_of self.now }
        ensures bound { AreOfOne result }
    {
        self.counts
    }
}
