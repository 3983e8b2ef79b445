//! The index of the campaigns that were live after so many edits.
ghost use Rattle.std.specs.Prelude.{◌≡◌, ◌≤◌, ◌+◌, IfOk, length};
ghost use Rattle.std.specs.Arc.{arc_value};
ghost use Rattle.conj_index.specs.Campaigns.{DoRise, conjunctions_in};
ghost use Rattle.conj_index.specs.Content.{IsIndexOf};
ghost use Rattle.index_versions.specs.Versions.{campaigns_of, version_cost};

use campaign_store::{LiveRecord, Snapshot};
use conj_index::{Builder, Index, IndexFault};
use rtb_base::Steps;
use rtb_num::List;
use std::alloc::{AllocError, Global};
use std::sync::Arc;
use std::sync::ledger::Ledger;

/// The index of the campaigns that were live after so many edits.
#[derive(Drop)]
pub struct Version {
    pub edit: u64,
    pub index: Index,
    /// Those campaigns, in the order of their numbers.
    pub live: List<LiveRecord>,
}

/// The version of a snapshot: it stands for the live campaigns that the snapshot has.
///
/// One step is one campaign, or one pair of attribute and value in an expression.
pub fn build_next<L: Ledger>(
    alloc: Global,
    s: Snapshot,
    steps: &mut Steps<L>,
) -> Result<Arc<Version>, AllocError>
    requires rising { DoRise (campaigns_of s.live) }
    requires few { conjunctions_in (campaigns_of s.live) ≤ 1000000 }
    ensures edit { IfOk result (λ v. (arc_value v).edit ≡ s.edit) }
    ensures live { IfOk result (λ v. (arc_value v).live ≡ s.live) }
    ensures content { IfOk result (λ v. IsIndexOf (campaigns_of s.live) (arc_value v).index) }
    ensures cost { steps.new ≤ steps.old + version_cost s.live }
{
    match index_of(alloc, s.live.as_slice(), steps) {
        Ok(index) => share(
            alloc,
            Version {
                edit: s.edit,
                index,
                live: s.live,
            },
        ),
        Err(AllocError) => {
            drop(s);
            Err(AllocError)
        }
    }
}

// One value that many share.
fn share(alloc: Global, version: Version) -> Result<Arc<Version>, AllocError>
    ensures { IfOk result (λ v. arc_value v ≡ version) }
{
    Ok(Arc::new(alloc, version)?)
}

fn index_of<L: Ledger>(
    alloc: Global,
    live: &[LiveRecord],
    steps: &mut Steps<L>,
) -> Result<Index, AllocError>
    requires rising { DoRise (campaigns_of live.now) }
    requires few { conjunctions_in (campaigns_of live.now) ≤ 1000000 }
    ensures content { IfOk result (IsIndexOf (campaigns_of live.now)) }
    ensures cost { steps.new ≤ steps.old + version_cost live.now }
{
    let builder = builder_of(alloc, live, steps)?;
    match Index::build(alloc, builder, steps) {
        Ok(index) => Ok(index),
        Err(IndexFault::Memory) => Err(AllocError),
    }
}

// The campaigns, each with its expression.
fn builder_of<'a, L: Ledger>(
    alloc: Global,
    live: &'a [LiveRecord],
    steps: &mut Steps<L>,
) -> Result<Builder<'a>, AllocError>
    requires rising { DoRise (campaigns_of live.now) }
    requires few { conjunctions_in (campaigns_of live.now) ≤ 1000000 }
    ensures content { IfOk result (λ b. b ≡ campaigns_of live.now) }
    ensures cost { steps.new ≤ steps.old + length live.now }
{
    let mut builder = Builder::new(alloc);
    for campaign in live {
        builder.add(campaign.number, &campaign.entry.record().expr, steps)?;
    }
    Ok(builder)
}
