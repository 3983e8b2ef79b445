//! A journal that is handed out for one block, and taken back.
//!
//! Whoever hands it out keeps no word on its disk. What comes back is described by the block and by the
//! payloads from before: the journal has both, or is broken at the block; and a crash at any moment in
//! between left the payloads from before, with the block or without.
ghost use Rattle.std.specs.Prelude.{◌≡◌, ◌≤◌, [], ◌∷◌, ◌++◌, ℕ, List, true, false, MatchBool};
ghost use Rattle.rtb_base.specs.Faults.{Rose};
ghost use Rattle.rtb_disk.specs.Stores.{Always};
ghost use Rattle.journal_file.specs.Standing.{Broken, IsBeforeOrAfter, Keeps, faults_of, is_broken, store_of};

use journal_file::Journal;
use rtb_disk::Disk;

/// Writes the block to a journal that was handed out, and tells whether it was written.
pub fn write_out<D: Disk>(journal: &mut Journal<D>, block: &[u8]) -> bool
    requires whole { is_broken journal.old ≡ false }
    ensures back { (names payloads : List (List ℕ)) → Keeps names journal.old payloads → MatchBool result (Keeps names journal.new (payloads ++ block.now ∷ [])) (Broken names journal.new payloads block.now) }
    ensures any_moment { (names payloads : List (List ℕ)) → Keeps names journal.old payloads → Always (IsBeforeOrAfter names payloads block.now) (store_of journal.old) (store_of journal.new) }
    ensures broken { MatchBool result (is_broken journal.new ≡ false) (is_broken journal.new ≡ true) }
    ensures faults { MatchBool result (faults_of journal.new ≡ faults_of journal.old) (Rose (faults_of journal.old) (faults_of journal.new)) }
{
    match journal.append(block) {
        Ok(()) => true,
        Err(_) => false,
    }
}

/// Writes the block again, to a journal that came back broken at it.
pub fn repair_out<D: Disk>(journal: &mut Journal<D>, block: &[u8]) -> bool
    requires broken { is_broken journal.old ≡ true }
    ensures back { (names payloads : List (List ℕ)) → Broken names journal.old payloads block.now → MatchBool result (Keeps names journal.new (payloads ++ block.now ∷ [])) (Broken names journal.new payloads block.now) }
    ensures any_moment { (names payloads : List (List ℕ)) → Broken names journal.old payloads block.now → Always (IsBeforeOrAfter names payloads block.now) (store_of journal.old) (store_of journal.new) }
    ensures faults { MatchBool result (faults_of journal.new ≡ faults_of journal.old) (Rose (faults_of journal.old) (faults_of journal.new)) }
{
    match journal.repair(block) {
        Ok(()) => true,
        Err(_) => false,
    }
}

/// Hands the journal out for the block, and where it comes back broken once more for a repair. Tells whether
/// the block was written.
pub fn hand_out<D: Disk>(journal: &mut Journal<D>, block: &[u8]) -> bool
    requires whole { is_broken journal.old ≡ false }
    ensures back { (names payloads : List (List ℕ)) → Keeps names journal.old payloads → MatchBool result (Keeps names journal.new (payloads ++ block.now ∷ [])) (Broken names journal.new payloads block.now) }
    ensures any_moment { (names payloads : List (List ℕ)) → Keeps names journal.old payloads → Always (IsBeforeOrAfter names payloads block.now) (store_of journal.old) (store_of journal.new) }
{
    if write_out(journal, block) {
        return true;
    }
    repair_out(journal, block)
}
