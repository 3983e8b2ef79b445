//! An exchange is opened.
ghost use Rattle.std.specs.Prelude.{◌≡◌, ◌≢◌, ◌⊎◌, ◌≤◌, ◌+◌, [], true, Err, IfErr, IfOk, List};
ghost use Rattle.exchange_shared.specs.Opening.{IsOriginOver};
ghost use Rattle.exchange_shared.specs.Seats.{lock_of};
ghost use Rattle.exchange_state.specs.Costs.{most_version_cost};
ghost use Rattle.exchange_state.specs.Standing.{StandsFor, store_in};
ghost use Rattle.exchange_state.specs.declared.entries.Origin.{Origin};
ghost use Rattle.hist_lock.specs.Views.{first_seat};
ghost use Rattle.plain_exchange.specs.declared.changes.Effect.{Effect};
ghost use Rattle.recovery.specs.Openings.{IsUnwritten, Opens as IsOpenedAs};
ghost use Rattle.recovery.specs.Texts.{HasText};
ghost use Rattle.rtb_disk.specs.Stores.{Always, settled};
ghost use Rattle.rtb_base.specs.Faults.{Rose};

use crate::exchange::{Exchange, Seat};
use crate::landing::Landings;
use crate::worn::Worn;
use exchange_state::ExchangeState;
use hist_lock::{HistLock, Starts};
use journal_file::{JournalFault, Reading};
use rtb_base::Steps;
use rtb_disk::Disk;
use std::alloc::{AllocError, Global};
use std::marker::{Brand, PhantomData};
use std::sync::ledger::Ledger;

/// What is to be known of the origin of an exchange.
pub trait Opens {
    ghost use Rattle.exchange_state.specs.declared.entries.Origin.{Origin};

    ghost opened: { Origin → Type 0 };
}

impl Opens for Brand {
    ghost use Rattle.std.specs.Prelude.{◌≡◌, false};

    ghost opened = { λ o. o.told ≡ false };
}

/// The same for the lock.
pub struct Opened<N> {
    of: PhantomData<N>,
}

impl<D: Disk, N: Opens> Starts<ExchangeState<D>> for Opened<N> {
    ghost starts = { N.opened };
}

impl<D: Disk> Exchange<D> {
    ghost use Rattle.std.specs.Prelude.{◌≡◌, ◌≢◌, ◌⊎◌, ◌≤◌, ◌+◌, true, Err, IfErr, IfOk, List};
    ghost use Rattle.exchange_shared.specs.Opening.{IsOriginOver};
    ghost use Rattle.exchange_shared.specs.Seats.{MayCall, lock_of};
    ghost use Rattle.exchange_state.specs.Costs.{most_version_cost};
    ghost use Rattle.hist_lock.specs.Views.{first_seat};
    ghost use Rattle.plain_exchange.specs.declared.changes.Effect.{Effect};
    ghost use Rattle.recovery.specs.Openings.{IsUnwritten, Opens as IsOpenedAs};
    ghost use Rattle.recovery.specs.Texts.{HasText};
    ghost use Rattle.rtb_disk.specs.Stores.{Always, settled};
    ghost use Rattle.rtb_base.specs.Faults.{Rose};

    /// Opens the journal that the disk has, and puts the exchange that it says under a lock. The seat is worker 0's. A
    /// sale is held for `ttl` milliseconds, and auctions bring the list of sales to `limit` at most.
    ///
    /// The disk comes back where a call of it failed, where the journal is damaged at the place, and where memory is
    /// short.
    ///
    /// One step is one live campaign, or one pair of attribute and value in its expression.
    pub fn start<L: Ledger>(
        alloc: Global,
        disk: D,
        ttl: u64,
        limit: u64,
        steps: &mut Steps<L>,
    ) -> Result<(Exchange<D>, Seat<D>), (D, JournalFault)>
        ensures first { IfOk result (λ r. r.1 ≡ first_seat (lock_of r.0) r.1.origin) }
        ensures seat { IfOk result (λ r. MayCall (lock_of r.0) r.1) }
        ensures origin { IfOk result (λ r. IsOriginOver (D.store disk) (D.faults disk) (record { ttl = ttl; limit = limit }) r.1.origin) }
        ensures damaged { (D.store disk).told ≡ true → IfErr result (λ e. IsOpenedAs (D.store disk).reads (Err e.1)) }
        // A crash at any moment of it leaves a file that says the same.
        ensures any_moment { (D.store disk).told ≡ true → (effects : List Effect) → HasText (D.store disk).reads effects → IfErr result (λ e. (D.store e.0 ≡ D.store disk) ⊎ Always (λ image. HasText image effects) (settled (D.store disk)) (D.store e.0)) }
        ensures unwritten { IfErr result (λ e. e.1 ≢ JournalFault.DiskFailed → e.1 ≢ JournalFault.Memory → IsUnwritten (D.store disk) (D.store e.0)) }
        ensures cause { IfErr result (λ e. e.1 ≡ JournalFault.DiskFailed → Rose (D.faults disk) (D.faults e.0)) }
        ensures quiet { IfErr result (λ e. e.1 ≢ JournalFault.DiskFailed → D.faults e.0 ≡ D.faults disk) }
        ensures cost { steps.new ≤ steps.old + most_version_cost }
    {
        open::<D, L, Brand>(alloc, disk, ttl, limit, steps)
    }
}

// The same, with what is to be known of the origin.
fn open<D: Disk, L: Ledger, N: Opens>(
    alloc: Global,
    disk: D,
    ttl: u64,
    limit: u64,
    steps: &mut Steps<L>,
) -> Result<(Exchange<D>, Seat<D>), (D, JournalFault)>
    requires names { (o : Origin) → IsOriginOver (D.store disk) (D.faults disk) (record { ttl = ttl; limit = limit }) o → N.opened o }
    ensures first { IfOk result (λ r. r.1 ≡ first_seat (lock_of r.0) r.1.origin) }
    ensures origin { IfOk result (λ r. N.opened r.1.origin) }
    ensures damaged { (D.store disk).told ≡ true → IfErr result (λ e. IsOpenedAs (D.store disk).reads (Err e.1)) }
    ensures any_moment { (D.store disk).told ≡ true → (effects : List Effect) → HasText (D.store disk).reads effects → IfErr result (λ e. (D.store e.0 ≡ D.store disk) ⊎ Always (λ image. HasText image effects) (settled (D.store disk)) (D.store e.0)) }
    ensures unwritten { IfErr result (λ e. e.1 ≢ JournalFault.DiskFailed → e.1 ≢ JournalFault.Memory → IsUnwritten (D.store disk) (D.store e.0)) }
    ensures cause { IfErr result (λ e. e.1 ≡ JournalFault.DiskFailed → Rose (D.faults disk) (D.faults e.0)) }
    ensures quiet { IfErr result (λ e. e.1 ≢ JournalFault.DiskFailed → D.faults e.0 ≡ D.faults disk) }
    ensures cost { steps.new ≤ steps.old + most_version_cost }
{
    match Reading::start(disk) {
        Ok(reading) => match ExchangeState::start(alloc, reading, ttl, limit, steps) {
            Ok(state) => put_under_lock::<D, N>(alloc, state),
            Err(refused) => Err(refused),
        },
        Err(refused) => Err(refused),
    }
}

// A new lock over the state.
fn put_under_lock<D: Disk, N: Opens>(
    alloc: Global,
    state: ExchangeState<D>,
) -> Result<(Exchange<D>, Seat<D>), (D, JournalFault)>
    requires { (o : Origin) × N.opened o × StandsFor o state [] }
    ensures first { IfOk result (λ r. r.1 ≡ first_seat (lock_of r.0) r.1.origin) }
    ensures origin { IfOk result (λ r. N.opened r.1.origin) }
    ensures memory { IfErr result (λ e. e.1 ≡ JournalFault.Memory) }
    ensures quiet { IfErr result (λ e. (o : Origin) → StandsFor o state [] → D.faults e.0 ≡ o.faults) }
    ensures same { IfErr result (λ e. D.store e.0 ≡ store_in state) }
{
    let worn = worn_of(&state);
    match HistLock::make::<Opened<N>>(alloc, state) {
        Ok((lock, seat)) => {
            let exchange = Exchange {
                lock,
                landings: Landings::new(),
                worn,
            };
            Ok((exchange, seat))
        }
        Err((state, AllocError)) => {
            drop(worn);
            Err((state.into_disk(), JournalFault::Memory))
        }
    }
}

// How worn the version is that it opens with.
fn worn_of<D: Disk>(state: &ExchangeState<D>) -> Worn {
    match state.begin() {
        Ok(ticket) => {
            let worn = Worn::new(ticket.version.live.as_slice());
            drop(ticket);
            worn
        }
        Err(AllocError) => Worn::new(&[]),
    }
}
