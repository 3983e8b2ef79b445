//! Versions of the index are made of snapshots and published.
ghost use Rattle.std.specs.Prelude.{◌≡◌, ◌≤◌, IfOk};
ghost use Rattle.std.specs.Arc.{arc_value};
ghost use Rattle.campaign_store.specs.Table.{live_records};
ghost use Rattle.conj_index.specs.Campaigns.{DoRise, conjunctions_in};
ghost use Rattle.exchange_state.specs.Costs.{most_version_cost};
ghost use Rattle.index_versions.specs.Versions.{campaigns_of, version_cost};

use crate::state::{ExchangeState, Published};
use campaign_store::{Snapshot, Table};
use index_versions::Version;
use rtb_disk::Disk;
use std::alloc::AllocError;
use std::sync::Arc;

impl<D: Disk> ExchangeState<D> {
    ghost use Rattle.std.specs.Prelude.{◌≡◌, ◌<◌, ◌≤◌, ◌+◌, ◌++◌, ◌↔◌, ℕ, List as AList, None, IfOk, IfSome};
    ghost use Rattle.std.specs.Arc.{arc_value};
    ghost use Rattle.conj_index.specs.Campaigns.{DoRise, conjunctions_in};
    ghost use Rattle.exchange_state.specs.Costs.{most_version_cost};
    ghost use Rattle.exchange_state.specs.Settling.{IsSnapshotOf, MayPublish, published_as, publishing_marks};
    ghost use Rattle.exchange_state.specs.Standing.{StandsFor};
    ghost use Rattle.exchange_state.specs.Tickets.{IsVersionOf, edits_after};
    ghost use Rattle.exchange_state.specs.Views.{calls, published};
    ghost use Rattle.exchange_state.specs.declared.entries.Entry.{Entry as AnEntry};
    ghost use Rattle.exchange_state.specs.declared.entries.Origin.{Origin as AnOrigin};
    ghost use Rattle.index_versions.specs.Versions.{campaigns_of, version_cost};

    /// The live campaigns, of which a version is due: none where fewer than so many edits stand since the present one.
    pub fn snapshot(&self, after: u64) -> Result<Option<Snapshot>, AllocError>
        ensures none { (o : AnOrigin) (l : AList AnEntry) → StandsFor o self.now l → IfOk result (λ r. (r ≡ None) ↔ (edits_after o (calls l) < published o l + after)) }
        ensures some { (o : AnOrigin) (l : AList AnEntry) → StandsFor o self.now l → IfOk result (λ r. IfSome r (IsSnapshotOf o (calls l))) }
        ensures rising { IfOk result (λ r. IfSome r (λ s. DoRise (campaigns_of s.live))) }
        ensures few { IfOk result (λ r. IfSome r (λ s. conjunctions_in (campaigns_of s.live) ≤ 1000000)) }
        ensures cost { IfOk result (λ r. IfSome r (λ s. version_cost s.live ≤ most_version_cost)) }
    {
        let table = self.core.table();
        let since = table.edits().saturating_sub(edit_of(&self.version));
        if since < after {
            return Ok(None);
        }
        let snapshot = snapshot_of(table)?;
        Ok(Some(snapshot))
    }

    /// Makes the version the present one, where its edit number is above that of the present one. The edits since the
    /// version that was present are remembered.
    pub fn publish(&mut self, next: Arc<Version>) -> Published
        requires version { MayPublish self.old (arc_value next) }
        ensures answer { (o : AnOrigin) (l : AList AnEntry) → StandsFor o self.old l → result ≡ published_as (published o l) (arc_value next).edit }
        ensures stands { (o : AnOrigin) (l : AList AnEntry) (w : ℕ) → StandsFor o self.old l → IsVersionOf o (calls l) (arc_value next) → StandsFor o self.new (l ++ publishing_marks w result) }
    {
        let present = edit_of(&self.version);
        let edit = edit_of(&next);
        if edit <= present {
            drop(next);
            return Published::Kept { edit: present };
        }
        self.recent.forget_to(present);
        self.version = next;
        Published::New { edit }
    }
}

pub(crate) fn edit_of(version: &Arc<Version>) -> u64
    ensures { result ≡ (arc_value version.now).edit }
{
    version.edit
}

pub(crate) fn version_of(version: &Arc<Version>) -> &Version
    ensures { result.now ≡ arc_value version.now }
{
    version
}

// The live campaigns of a table, which can be indexed.
pub(crate) fn snapshot_of(table: &Table) -> Result<Snapshot, AllocError>
    ensures edit { IfOk result (λ s. s.edit ≡ table.now.edits) }
    ensures live { IfOk result (λ s. s.live ≡ live_records table.now.campaigns) }
    ensures rising { IfOk result (λ s. DoRise (campaigns_of s.live)) }
    ensures few { IfOk result (λ s. conjunctions_in (campaigns_of s.live) ≤ 1000000) }
    ensures cost { version_cost (live_records table.now.campaigns) ≤ most_version_cost }
{
    table.count();
    let snapshot = table.snapshot()?;
    Ok(snapshot)
}
