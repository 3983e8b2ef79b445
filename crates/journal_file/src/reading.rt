//! A journal read block by block, in pieces of the disk.
ghost use Rattle.std.specs.Prelude.{◌≡◌, ◌<◌, ◌^◌, length, take, true};
ghost use Rattle.journal_file.specs.Gates.{has_gate};
ghost use Rattle.journal_file.specs.Pieces.{BeginsFrom};

use crate::ahead::block_ahead;
use crate::faults::JournalFault;
use crate::finishing::create_journal;
use crate::journal::{Journal, Stage};
use crate::opening::{Opening, begin};
use crate::piece::Piece;
use rtb_disk::Disk;
use rtb_num::Txt;

// What the next answer rests on: more blocks, or what was found.
#[derive(Clone, Copy)]
pub(crate) enum Found {
    Blocks,
    Ended,
    Creation,
    Failed,
    Damaged,
}

/// A journal that is read block by block, from the disk in pieces of 65536 bytes.
#[derive(Drop)]
pub struct Reading<D: Disk> {
    pub(crate) disk: D,
    pub(crate) size: u64,
    pub(crate) gate: u64,
    pub(crate) found: Found,
    pub(crate) piece: Piece,
    ghost known: { (D.store disk).told ≡ true → size ≡ length (D.store disk).reads },
    ghost small: { size < 2 ^ 63 },
    ghost low: { gate < 2 ^ 63 },
    ghost held: { (D.store disk).told ≡ true → BeginsFrom piece.place (take piece.count piece.bytes) (D.store disk).reads },
    ghost inside: { has_gate found ≡ true → (D.store disk).told ≡ true → gate < length (D.store disk).reads },
}

impl<D: Disk> Reading<D> {
    ghost use Rattle.std.specs.Prelude.{◌≡◌, ◌⊎◌, [], ◌∷◌, ◌++◌, List, ℕ, true, false, None, Ok, Err, IfOk, IfErr, MatchOption, MatchResult, OnErr};
    ghost use Rattle.rtb_disk.specs.Stores.{Always, settled};
    ghost use Rattle.journal_file.specs.Blocks.{StandsFor, created_name};
    ghost use Rattle.journal_file.specs.Standing.{Keeps, faults_of, is_broken, store_of};
    ghost use Rattle.rtb_base.specs.Faults.{Rose, RisesOnlyWhere};
    ghost use Rattle.journal_file.specs.Readings.{HasNotFailed, IsCreation, IsNext, IsRead, IsReading, IsStart, disk_read, faults_read, answer_of, has_ended, is_open, reads_of, store_read};
    ghost use Rattle.journal_file.specs.declared.reading.Found.TheVariants.{Blocks};

    /// Syncs the disk, and begins to read what it has. A file that is no journal is damaged at 0.
    pub fn start(disk: D) -> Result<Reading<D>, (D, JournalFault)>
        ensures start { (D.store disk).told ≡ true → IsStart (D.store disk).reads result }
        ensures intact { IfOk result HasNotFailed }
        ensures synced { (D.store disk).told ≡ true → MatchResult result (λ r. store_read r ≡ settled (D.store disk)) (λ e. (D.store e.0 ≡ D.store disk) ⊎ (D.store e.0 ≡ settled (D.store disk))) }
        ensures told { IfOk result (λ r. (store_read r).told ≡ (D.store disk).told) }
        ensures cause { MatchResult result (λ r. faults_read r ≡ D.faults disk) (λ e. RisesOnlyWhere (e.1 ≡ JournalFault.DiskFailed) (D.faults disk) (D.faults e.0)) }
    {
        let mut disk = disk;
        match begin(&mut disk) {
            Err(_) => Err((disk, JournalFault::DiskFailed)),
            Ok((size, Opening::Journal)) => Ok(Reading {
                disk,
                size,
                gate: 8,
                found: Found::Blocks,
                piece: Piece::empty(),
            }),
            Ok((size, Opening::Creation)) => Ok(Reading {
                disk,
                size,
                gate: 0,
                found: Found::Creation,
                piece: Piece::empty(),
            }),
            Ok((_, Opening::Foreign)) => Err((disk, JournalFault::Damaged { at: 0 })),
        }
    }

    /// The journal behind the last block. A creation that was not finished is completed.
    pub fn finish(self) -> Result<Journal<D>, (D, JournalFault)>
        requires ended { has_ended self ≡ true }
        ensures whole { IfOk result (λ j. is_broken j ≡ false) }
        ensures kept { (names payloads : List (List ℕ)) → IsRead names self payloads → MatchResult result (λ j. Keeps names j payloads × (store_of j ≡ store_read self)) (λ _. ⊥) }
        ensures created { IsCreation self → IfOk result (λ j. Keeps (created_name ∷ []) j []) }
        ensures cause { MatchResult result (λ j. faults_of j ≡ faults_read self) (λ e. (e.1 ≡ JournalFault.DiskFailed) × Rose (faults_read self) (D.faults e.0)) }
        ensures any_moment { IsCreation self → MatchResult result (λ j. Always (StandsFor (created_name ∷ []) []) (store_read self) (store_of j)) (λ e. Always (StandsFor (created_name ∷ []) []) (store_read self) (D.store e.0)) }
    {
        match self.found {
            Found::Creation => create_journal(self.disk, self.size),
            Found::Ended => Ok(Journal {
                disk: self.disk,
                gate: self.gate,
                next: self.gate,
                stage: Stage::Whole,
            }),
            Found::Blocks | Found::Failed | Found::Damaged => Err((
                self.disk,
                JournalFault::DiskFailed,
            )),
        }
    }

    /// The next block: appends its payload to `out` and gives the place of its gate. None at a closed gate,
    /// and where the file's creation was not finished.
    pub fn next_block(&mut self, out: &mut Txt) -> Result<Option<u64>, JournalFault>
        ensures next { (names payloads : List (List ℕ)) → IsReading names self.old payloads → IsNext names payloads self.new out.old out.new (reads_of self.old) result }
        // And where the disk is not told: what was appended, and `out` as before else.
        ensures appended { IfOk result (λ found. MatchOption found (out.new ≡ out.old) (λ _. (more : List ℕ) × (out.new ≡ out.old ++ more))) }
        ensures kept { OnErr result (out.new ≡ out.old) }
        ensures same { store_read self.new ≡ store_read self.old }
        ensures cause { is_open self.old ≡ true → RisesOnlyWhere (result ≡ Err JournalFault.DiskFailed) (faults_read self.old) (faults_read self.new) }
        // After DiskFailed, Damaged or None it answers the same again.
        ensures last { is_open self.new ≡ false → result ≡ answer_of self.new }
        ensures none { result ≡ Ok None → has_ended self.new ≡ true }
        ensures again { is_open self.old ≡ false → (result ≡ answer_of self.old) × (self.new ≡ self.old) × (out.new ≡ out.old) }
    {
        match self.found {
            Found::Blocks => self.next_of_blocks(out),
            Found::Ended | Found::Creation => Ok(None),
            Found::Failed => Err(JournalFault::DiskFailed),
            Found::Damaged => Err(JournalFault::Damaged { at: self.gate }),
        }
    }

    /// The disk as it stands.
    pub fn into_disk(self) -> D
        ensures { result ≡ disk_read self }
    {
        self.disk
    }

    fn next_of_blocks(&mut self, out: &mut Txt) -> Result<Option<u64>, JournalFault>
        requires found { self.old.found ≡ Blocks }
        ensures next { (names payloads : List (List ℕ)) → IsReading names self.old payloads → IsNext names payloads self.new out.old out.new (reads_of self.old) result }
        ensures appended { IfOk result (λ found. MatchOption found (out.new ≡ out.old) (λ _. (more : List ℕ) × (out.new ≡ out.old ++ more))) }
        ensures kept { OnErr result (out.new ≡ out.old) }
        ensures same { store_read self.new ≡ store_read self.old }
        ensures cause { RisesOnlyWhere (result ≡ Err JournalFault.DiskFailed) (faults_read self.old) (faults_read self.new) }
        ensures last { is_open self.new ≡ false → result ≡ answer_of self.new }
        ensures none { result ≡ Ok None → has_ended self.new ≡ true }
    {
        let gate = self.gate;
        match block_ahead(&mut self.disk, &mut self.piece, gate, out) {
            Ok(Some(next)) => {
                self.gate = next;
                Ok(Some(gate))
            }
            Ok(None) => {
                self.found = Found::Ended;
                Ok(None)
            }
            Err(JournalFault::DiskFailed) => {
                self.found = Found::Failed;
                Err(JournalFault::DiskFailed)
            }
            Err(JournalFault::Damaged { .. }) => {
                self.found = Found::Damaged;
                Err(JournalFault::Damaged { at: gate })
            }
            Err(JournalFault::Memory) => Err(JournalFault::Memory),
        }
    }
}
