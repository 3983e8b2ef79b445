//! Versions of the index are built without the turn.
use crate::exchange::{Exchange, Seat};
use crate::naming::leave_published;
use campaign_store::Snapshot;
use exchange_state::Published;
use index_versions::{Version, build_next};
use rtb_base::Steps;
use rtb_disk::Disk;
use std::alloc::{AllocError, Global};
use std::marker::Brand;
use std::sync::ledger::Ledger;
use std::sync::{Arc, Wait};

/// A version that is due, or the present one's edit where none is.
pub enum Due {
    Version(Snapshot),
    Kept(u64),
}

impl<D: Disk> Exchange<D> {
    ghost use Rattle.std.specs.Prelude.{◌≡◌, ◌≤◌, ◌+◌, IfOk, OnErr};
    ghost use Rattle.std.specs.Arc.{arc_value};
    ghost use Rattle.exchange_shared.specs.Seats.{IsOrdered, MayCall, Publishes, Waits, lock_of};
    ghost use Rattle.exchange_shared.specs.Versions.{Dues, Published as HasPublished};
    ghost use Rattle.exchange_state.specs.Costs.{most_version_cost};
    ghost use Rattle.exchange_state.specs.Tickets.{IsVersionOf, edits_after};
    ghost use Rattle.exchange_state.specs.Views.{calls};

    /// Publishes a version of the campaigns, where so many edits stand since the present one, at least one. The version
    /// is built without the turn.
    ///
    /// One step is one campaign, or one pair of attribute and value in an expression.
    pub fn republish<R: Wait, L: Ledger>(
        &self,
        rt: &R,
        alloc: Global,
        seat: Seat<D>,
        after: u64,
        steps: &mut Steps<L>,
    ) -> (Seat<D>, Result<Published, AllocError>)
        requires seat { MayCall (lock_of self.now) seat }
        requires some { 1 ≤ after }
        ensures seat { MayCall (lock_of self.now) result.0 }
        ensures order { IsOrdered result.0.origin result.0.seen }
        ensures published { IfOk result.1 (Publishes after seat result.0) }
        ensures none { OnErr result.1 (Waits seat result.0) }
        ensures cost { steps.new ≤ steps.old + most_version_cost }
    {
        let (seat, due) = self.due(rt, seat, after);
        match due {
            Err(AllocError) => (seat, Err(AllocError)),
            Ok(Due::Kept(edit)) => (seat, Ok(Published::Kept { edit })),
            Ok(Due::Version(snapshot)) => {
                self.worn.renew(snapshot.live.as_slice());
                let version = build_next(alloc, snapshot, steps);
                match version {
                    Ok(version) => {
                        let (seat, published) = self.publish(rt, seat, version);
                        (seat, Ok(published))
                    }
                    Err(AllocError) => (seat, Err(AllocError)),
                }
            }
        }
    }

    // Whether a version is due.
    fn due<R: Wait>(&self, rt: &R, seat: Seat<D>, after: u64) -> (Seat<D>, Result<Due, AllocError>)
        requires seat { MayCall (lock_of self.now) seat }
        ensures seat { MayCall (lock_of self.now) result.0 × Waits seat result.0 }
        ensures order { IsOrdered result.0.origin result.0.seen }
        ensures due { IfOk result.1 (Dues after result.0) }
    {
        let (seat, turn) = self.lock.enter(rt, seat);
        let edit = turn.value.edition();
        let snapshot = turn.value.snapshot(after);
        let seat = self.lock.leave(seat, turn);
        match snapshot {
            Ok(Some(snapshot)) => (seat, Ok(Due::Version(snapshot))),
            Ok(None) => (seat, Ok(Due::Kept(edit))),
            Err(AllocError) => (seat, Err(AllocError)),
        }
    }

    // Publishes it, where it is newer. The last version is let go behind the turn, by its ticket.
    fn publish<R: Wait>(&self, rt: &R, seat: Seat<D>, version: Arc<Version>) -> (Seat<D>, Published)
        requires seat { MayCall (lock_of self.now) seat }
        requires version { IsVersionOf seat.origin (calls seat.seen) (arc_value version) }
        ensures seat { MayCall (lock_of self.now) result.0 }
        ensures order { IsOrdered result.0.origin result.0.seen }
        ensures published { HasPublished (arc_value version).edit seat result.0 result.1 }
    {
        let (seat, mut turn) = self.lock.enter(rt, seat);
        let last = turn.value.begin();
        let published = turn.value.publish(version);
        match published {
            Published::New { edit } => {
                let seat = leave_published::<D, Brand>(&self.lock, seat, turn, edit);
                drop(last);
                (seat, published)
            }
            Published::Kept { edit: _ } => {
                let seat = self.lock.leave(seat, turn);
                drop(last);
                (seat, published)
            }
        }
    }
}
