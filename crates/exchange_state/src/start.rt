//! A journal is opened.
ghost use Rattle.std.specs.Prelude.{◌≡◌, ◌≤◌, ◌+◌, IfErr, IfOk};
ghost use Rattle.std.specs.Arc.{arc_value};
ghost use Rattle.auction_core.specs.Core.{listed};
ghost use Rattle.campaign_store.specs.Table.{live_records};
ghost use Rattle.conj_index.specs.Content.{IsIndexOf};
ghost use Rattle.exchange_state.specs.Costs.{most_version_cost};
ghost use Rattle.exchange_state.specs.Placing.{IsBegun};
ghost use Rattle.index_versions.specs.Versions.{live_in, version_cost};
ghost use Rattle.journal_file.specs.Standing.{disk_of};

use crate::state::ExchangeState;
use crate::versions::snapshot_of;
use auction_core::Core;
use index_versions::{Recent, Version, build_next};
use journal_file::{Journal, JournalFault, Reading};
use recovery::open_from;
use rtb_base::Steps;
use rtb_disk::Disk;
use rtb_num::Txt;
use std::alloc::{AllocError, Global};
use std::sync::Arc;
use std::sync::ledger::Ledger;

impl<D: Disk> ExchangeState<D> {
    ghost use Rattle.std.specs.Prelude.{◌≡◌, ◌≢◌, ◌≤◌, ◌+◌, [], List as AList, Err, true, IfOk, IfErr, MatchResult};
    ghost use Rattle.auction_core.specs.Core.{listed};
    ghost use Rattle.campaign_store.specs.Table.{live_records};
    ghost use Rattle.exchange_state.specs.Costs.{most_version_cost};
    ghost use Rattle.exchange_state.specs.Settling.{IsFresh, IsOpened};
    ghost use Rattle.exchange_state.specs.Standing.{StandsFor, store_in};
    ghost use Rattle.exchange_state.specs.Tickets.{opening};
    ghost use Rattle.exchange_state.specs.declared.entries.Origin.{Origin as AnOrigin};
    ghost use Rattle.index_versions.specs.Versions.{version_cost};
    ghost use Rattle.journal_file.specs.Readings.{faults_read, reads_of, store_read};
    ghost use Rattle.plain_exchange.specs.declared.changes.Effect.{Effect as AnEffect};
    ghost use Rattle.recovery.specs.Openings.{Opens};
    ghost use Rattle.recovery.specs.Texts.{HasText};
    ghost use Rattle.rtb_base.specs.Faults.{Rose};
    ghost use Rattle.rtb_disk.specs.Stores.{Always};

    /// Opens the journal: the state of the effects that it says, with a version of their live campaigns. A sale is held
    /// for so many milliseconds. The reading is as `Reading::start` gave it.
    ///
    /// The disk comes back where a call of it failed, where the journal is damaged at the place, which is also the gate of
    /// a block that is no list of effects or has one that does not fit, and where memory is short.
    ///
    /// One step is one live campaign, or one pair of attribute and value in its expression. The effects that are read are
    /// not counted.
    pub fn start<L: Ledger>(
        alloc: Global,
        reading: Reading<D>,
        ttl: u64,
        limit: u64,
        steps: &mut Steps<L>,
    ) -> Result<ExchangeState<D>, (D, JournalFault)>
        requires fresh { IsFresh reading }
        ensures opened { IfOk result (IsOpened (record { ttl = ttl; limit = limit }) reading) }
        ensures damaged { (store_read reading).told ≡ true → IfErr result (λ e. Opens (reads_of reading) (Err e.1)) }
        // A crash at any moment of it leaves a file that says the same.
        ensures any_moment { (store_read reading).told ≡ true → (effects : AList AnEffect) → HasText (reads_of reading) effects → MatchResult result
            (λ x. Always (λ image. HasText image effects) (store_read reading) (store_in x))
            (λ e. Always (λ image. HasText image effects) (store_read reading) (D.store e.0)) }
        ensures unwritten { IfErr result (λ e. e.1 ≢ JournalFault.DiskFailed → e.1 ≢ JournalFault.Memory → D.store e.0 ≡ store_read reading) }
        ensures cause { IfErr result (λ e. e.1 ≡ JournalFault.DiskFailed → Rose (faults_read reading) (D.faults e.0)) }
        ensures quiet { IfErr result (λ e. e.1 ≢ JournalFault.DiskFailed → D.faults e.0 ≡ faults_read reading) }
        ensures cost { IfOk result (λ x. (o : AnOrigin) → StandsFor o x [] → steps.new ≤ steps.old + version_cost (live_records (listed (opening o)))) }
        ensures most { steps.new ≤ steps.old + most_version_cost }
    {
        match open_from(alloc, reading, ttl, limit) {
            Ok((journal, core)) => begin_with(alloc, journal, core, steps),
            Err(refused) => Err(refused),
        }
    }
}

// The state of a journal and the exchange that it gave.
fn begin_with<D: Disk, L: Ledger>(
    alloc: Global,
    journal: Journal<D>,
    core: Core,
    steps: &mut Steps<L>,
) -> Result<ExchangeState<D>, (D, JournalFault)>
    ensures core { IfOk result (λ x. x.core ≡ core) }
    ensures begun { IfOk result (IsBegun journal) }
    ensures err { IfErr result (λ e. (e.0 ≡ disk_of journal) × (e.1 ≡ JournalFault.Memory)) }
    ensures cost { steps.new ≤ steps.old + version_cost (live_records (listed core.state)) }
    ensures most { steps.new ≤ steps.old + most_version_cost }
{
    match first_version(alloc, &core, steps) {
        Ok(version) => Ok(ExchangeState {
            alloc,
            recent: Recent::new(alloc, core.table().edits()),
            core,
            version,
            journal: Some(journal),
            block: Txt::new(alloc),
            pending: Txt::new(alloc),
            upto: 0,
            placed: 0,
            durable: 0,
        }),
        Err(AllocError) => {
            drop(core);
            Err((journal.into_disk(), JournalFault::Memory))
        }
    }
}

// The version of the campaigns that are live.
fn first_version<L: Ledger>(
    alloc: Global,
    core: &Core,
    steps: &mut Steps<L>,
) -> Result<Arc<Version>, AllocError>
    ensures edit { IfOk result (λ v. (arc_value v).edit ≡ core.now.edits) }
    ensures content { IfOk result (λ v. IsIndexOf (live_in (listed core.now.state)) (arc_value v).index) }
    ensures live { IfOk result (λ v. (arc_value v).live ≡ live_records (listed core.now.state)) }
    ensures cost { steps.new ≤ steps.old + version_cost (live_records (listed core.now.state)) }
    ensures most { steps.new ≤ steps.old + most_version_cost }
{
    let snapshot = snapshot_of(core.table())?;
    build_next(alloc, snapshot, steps)
}
