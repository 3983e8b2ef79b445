//! A journal opened to go on with.
ghost use Rattle.std.specs.Prelude.{◌≡◌, ◌≢◌, ◌⊎◌, Err, IfErr, IfOk, List, MatchResult, false, true};
ghost use Rattle.journal_file.specs.Readings.{HasNotFailed, faults_read, reads_of, store_read};
ghost use Rattle.journal_file.specs.Standing.{faults_of, is_broken, store_of};
ghost use Rattle.plain_exchange.specs.declared.changes.Effect.{Effect};
ghost use Rattle.recovery.specs.Openings.{AreKept, IsAtStart, IsLed, IsMadeBy, IsUnwritten, Opens};
ghost use Rattle.recovery.specs.Texts.{GivesState, HasText};
ghost use Rattle.rtb_base.specs.Faults.{Rose};
ghost use Rattle.rtb_disk.specs.Stores.{Always, settled};

use crate::opening::replay;
use auction_core::Core;
use journal_file::{Journal, JournalFault, Reading};
use rtb_disk::Disk;
use std::alloc::Global;

/// Opens the journal on the disk: gives the journal behind its last block, and the exchange that it says, where
/// a sale is held for `ttl` milliseconds and auctions bring the list of sales to `limit` at most. A creation that was not
/// finished is completed; else nothing is written.
/// A file that is refused, as one of another kind, is not changed: it is synced at most.
pub fn open<D: Disk>(
    alloc: Global,
    disk: D,
    ttl: u64,
    limit: u64,
) -> Result<(Journal<D>, Core), (D, JournalFault)>
    // The exchange is what the effects of the file's payloads lead to, and every image of the journal has these
    // payloads.
    ensures opened { (D.store disk).told ≡ true → MatchResult result (λ r. IsMadeBy (AreKept (D.store disk).reads r.0) r.1) (λ e. Opens (D.store disk).reads (Err e.1)) }
    ensures state { (D.store disk).told ≡ true → IfOk result (λ r. GivesState (D.store disk).reads r.1.state) }
    ensures settings { IfOk result (λ r. r.1.settings ≡ record { ttl = ttl; limit = limit }) }
    ensures whole { IfOk result (λ r. is_broken r.0 ≡ false) }
    // A crash at any moment behind the first sync leaves a file that says the same.
    ensures any_moment { (D.store disk).told ≡ true → (effects : List Effect) → HasText (D.store disk).reads effects → MatchResult result
        (λ r. Always (λ image. HasText image effects) (settled (D.store disk)) (store_of r.0))
        (λ e. (D.store e.0 ≡ D.store disk) ⊎ Always (λ image. HasText image effects) (settled (D.store disk)) (D.store e.0)) }
    // Whatever the file is: where no call of the disk failed, a refusal wrote nothing.
    ensures unwritten { IfErr result (λ e. e.1 ≢ JournalFault.DiskFailed → IsUnwritten (D.store disk) (D.store e.0)) }
    ensures cause { IfErr result (λ e. e.1 ≡ JournalFault.DiskFailed → Rose (D.faults disk) (D.faults e.0)) }
    ensures quiet { MatchResult result (λ r. faults_of r.0 ≡ D.faults disk) (λ e. e.1 ≢ JournalFault.DiskFailed → D.faults e.0 ≡ D.faults disk) }
{
    match Reading::start(disk) {
        Ok(reading) => open_from(alloc, reading, ttl, limit),
        Err(refused) => Err(refused),
    }
}

/// The same, by a reading from which nothing was read yet.
pub fn open_from<D: Disk>(
    alloc: Global,
    reading: Reading<D>,
    ttl: u64,
    limit: u64,
) -> Result<(Journal<D>, Core), (D, JournalFault)>
    ensures opened { IsAtStart reading → MatchResult result (λ r. IsMadeBy (AreKept (reads_of reading) r.0) r.1) (λ e. Opens (reads_of reading) (Err e.1)) }
    ensures state { IsAtStart reading → IfOk result (λ r. GivesState (reads_of reading) r.1.state) }
    // Also where the disk is not told: some effects lead to the exchange, and they are not too many.
    ensures led { IfOk result (λ r. IsLed r.1) }
    ensures settings { IfOk result (λ r. r.1.settings ≡ record { ttl = ttl; limit = limit }) }
    ensures whole { IfOk result (λ r. is_broken r.0 ≡ false) }
    ensures any_moment { IsAtStart reading → (effects : List Effect) → HasText (reads_of reading) effects → MatchResult result
        (λ r. Always (λ image. HasText image effects) (store_read reading) (store_of r.0))
        (λ e. Always (λ image. HasText image effects) (store_read reading) (D.store e.0)) }
    ensures unwritten { IfErr result (λ e. e.1 ≢ JournalFault.DiskFailed → D.store e.0 ≡ store_read reading) }
    ensures cause { HasNotFailed reading → IfErr result (λ e. e.1 ≡ JournalFault.DiskFailed → Rose (faults_read reading) (D.faults e.0)) }
    ensures quiet { HasNotFailed reading → MatchResult result (λ r. faults_of r.0 ≡ faults_read reading) (λ e. e.1 ≢ JournalFault.DiskFailed → D.faults e.0 ≡ faults_read reading) }
{
    let mut reading = reading;
    match replay(alloc, &mut reading, ttl, limit) {
        Ok(core) => match reading.finish() {
            Ok(journal) => Ok((journal, core)),
            Err(failed) => {
                drop(core);
                Err(failed)
            }
        },
        Err(fault) => Err((reading.into_disk(), fault)),
    }
}
