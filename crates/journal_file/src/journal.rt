//! A journal to which blocks are added, and its repair behind a write that failed.
ghost use Rattle.std.specs.Prelude.{◌≡◌, ◌≤◌, ◌<◌, ◌^◌, length, true};

use crate::blocks::{open_gate, write_block};
use crate::faults::DiskFailed;
use rtb_disk::Disk;

// How far an append came: it is done, it stopped in its first two calls, or in its last two.
#[derive(Clone, Copy)]
pub(crate) enum Stage {
    Whole,
    Block,
    Gate,
}

/// A file of blocks, to which blocks are added.
///
/// A block is there whole or not at all in whatever a crash leaves.
#[derive(Drop)]
pub struct Journal<D: Disk> {
    pub(crate) disk: D,
    // The place of the closed gate, and of the one behind the block that is being written.
    pub(crate) gate: u64,
    pub(crate) next: u64,
    pub(crate) stage: Stage,
    ghost inside: { (D.store disk).told ≡ true → next < length (D.store disk).reads },
    ghost order: { gate ≤ next },
    ghost small: { next < 2 ^ 63 },
}

impl<D: Disk> Journal<D> {
    ghost use Rattle.std.specs.Prelude.{◌≡◌, [], ◌∷◌, ◌++◌, List, ℕ, true, false, MatchResult, OnOk, OnErr};
    ghost use Rattle.rtb_base.specs.Faults.{CountsErrors};
    ghost use Rattle.rtb_disk.specs.Stores.{Always};
    ghost use Rattle.journal_file.specs.Standing.{Keeps, Broken, IsBeforeOrAfter, disk_of, faults_of, is_broken, store_of};
    ghost use Rattle.journal_file.specs.declared.journal.Stage.TheVariants.{Block, Gate};

    /// Adds a block. Where it fails, the block has to be written again by `repair`, before any other.
    pub fn append(&mut self, block: &[u8]) -> Result<(), DiskFailed>
        requires whole { is_broken self.old ≡ false }
        ensures added { (names payloads : List (List ℕ)) → Keeps names self.old payloads → OnOk result (Keeps names self.new (payloads ++ block.now ∷ [])) }
        ensures stopped { (names payloads : List (List ℕ)) → Keeps names self.old payloads → OnErr result (Broken names self.new payloads block.now) }
        // A crash at any moment of the call leaves the payloads from before it, with the new one or without.
        ensures any_moment { (names payloads : List (List ℕ)) → Keeps names self.old payloads → Always (IsBeforeOrAfter names payloads block.now) (store_of self.old) (store_of self.new) }
        ensures broken { MatchResult result (λ _. is_broken self.new ≡ false) (λ _. is_broken self.new ≡ true) }
        ensures cause { CountsErrors (faults_of self.old) (faults_of self.new) result }
    {
        self.stage = Stage::Block;
        self.repair(block)
    }

    /// Writes again the block of the call that failed.
    pub fn repair(&mut self, block: &[u8]) -> Result<(), DiskFailed>
        requires broken { is_broken self.old ≡ true }
        ensures added { (names payloads : List (List ℕ)) → Broken names self.old payloads block.now → OnOk result (Keeps names self.new (payloads ++ block.now ∷ [])) }
        ensures stopped { (names payloads : List (List ℕ)) → Broken names self.old payloads block.now → OnErr result (Broken names self.new payloads block.now) }
        ensures any_moment { (names payloads : List (List ℕ)) → Broken names self.old payloads block.now → Always (IsBeforeOrAfter names payloads block.now) (store_of self.old) (store_of self.new) }
        ensures broken { MatchResult result (λ _. is_broken self.new ≡ false) (λ _. is_broken self.new ≡ true) }
        ensures cause { CountsErrors (faults_of self.old) (faults_of self.new) result }
    {
        match self.stage {
            Stage::Block => {
                self.place(block)?;
                self.open()
            }
            Stage::Gate => self.open(),
            Stage::Whole => Ok(()),
        }
    }

    /// Whether the last `append` or `repair` failed.
    pub fn broken(&self) -> bool
        ensures { result ≡ is_broken self.now }
    {
        match self.stage {
            Stage::Whole => false,
            Stage::Block | Stage::Gate => true,
        }
    }

    /// The disk as it stands.
    pub fn into_disk(self) -> D
        ensures { result ≡ disk_of self }
    {
        self.disk
    }

    // The first two calls.
    fn place(&mut self, block: &[u8]) -> Result<(), DiskFailed>
        requires stage { self.old.stage ≡ Block }
        ensures stage { MatchResult result (λ _. self.new.stage ≡ Gate) (λ _. self.new.stage ≡ Block) }
        ensures broken { (names payloads : List (List ℕ)) → Broken names self.old payloads block.now → Broken names self.new payloads block.now }
        ensures any_moment { (names payloads : List (List ℕ)) → Broken names self.old payloads block.now → Always (IsBeforeOrAfter names payloads block.now) (D.store self.old.disk) (D.store self.new.disk) }
        ensures cause { CountsErrors (D.faults self.old.disk) (D.faults self.new.disk) result }
    {
        write_block(&mut self.disk, self.gate, block)?;
        self.next = self.gate + 9 + block.len() as u64;
        self.stage = Stage::Gate;
        Ok(())
    }

    // The last two calls.
    fn open(&mut self) -> Result<(), DiskFailed>
        requires stage { self.old.stage ≡ Gate }
        ensures added { (names payloads : List (List ℕ)) → (block : List ℕ) → Broken names self.old payloads block → OnOk result (Keeps names self.new (payloads ++ block ∷ [])) }
        ensures stopped { (names payloads : List (List ℕ)) → (block : List ℕ) → Broken names self.old payloads block → OnErr result (Broken names self.new payloads block) }
        ensures any_moment { (names payloads : List (List ℕ)) → (block : List ℕ) → Broken names self.old payloads block → Always (IsBeforeOrAfter names payloads block) (D.store self.old.disk) (D.store self.new.disk) }
        ensures broken { MatchResult result (λ _. is_broken self.new ≡ false) (λ _. is_broken self.new ≡ true) }
        ensures cause { CountsErrors (D.faults self.old.disk) (D.faults self.new.disk) result }
    {
        open_gate(&mut self.disk, self.gate)?;
        self.gate = self.next;
        self.stage = Stage::Whole;
        Ok(())
    }
}
