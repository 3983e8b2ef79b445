//! A torn creation finished.
ghost use Rattle.std.specs.Prelude.{◌≡◌, [], ◌∷◌, length, true, false, IfOk, MatchResult};
ghost use Rattle.rtb_base.specs.Faults.{Rose};
ghost use Rattle.rtb_disk.specs.Stores.{Always, EachImage};
ghost use Rattle.journal_file.specs.Blocks.{IsTornCreation, StandsFor, created_name};
ghost use Rattle.journal_file.specs.Standing.{Keeps, faults_of, is_broken, store_of};

use crate::creation::create;
use crate::faults::JournalFault;
use crate::journal::{Journal, Stage};
use rtb_disk::Disk;

// The journal without blocks of a creation that was not finished, which has this size.
pub(crate) fn create_journal<D: Disk>(disk: D, size: u64) -> Result<Journal<D>, (D, JournalFault)>
    requires size { (D.store disk).told ≡ true → size ≡ length (D.store disk).reads }
    ensures whole { IfOk result (λ j. is_broken j ≡ false) }
    ensures created { (D.store disk).told ≡ true → EachImage (λ image. image ≡ (D.store disk).reads) (D.store disk).now → IsTornCreation (D.store disk).reads → IfOk result (λ j. Keeps (created_name ∷ []) j []) }
    ensures cause { MatchResult result (λ j. faults_of j ≡ D.faults disk) (λ e. (e.1 ≡ JournalFault.DiskFailed) × Rose (D.faults disk) (D.faults e.0)) }
    ensures any_moment { (D.store disk).told ≡ true → EachImage (λ image. image ≡ (D.store disk).reads) (D.store disk).now → IsTornCreation (D.store disk).reads → MatchResult result (λ j. Always (StandsFor (created_name ∷ []) []) (D.store disk) (store_of j)) (λ e. Always (StandsFor (created_name ∷ []) []) (D.store disk) (D.store e.0)) }
{
    let mut disk = disk;
    match create(&mut disk, size) {
        Err(_) => Err((disk, JournalFault::DiskFailed)),
        Ok(()) => Ok(Journal {
            disk,
            gate: 8,
            next: 8,
            stage: Stage::Whole,
        }),
    }
}
