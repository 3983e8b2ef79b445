//! A journal file that is written whole, and is no journal until it is finished.
ghost use Rattle.std.specs.Prelude.{◌≡◌, ◌⊎◌, ◌+◌, ◌<◌, ◌≤◌, ◌^◌, ◌∷◌, ◌++◌, [], ℕ, List, length, take, true, false, IfOk, MatchBool, MatchResult, OnErr, OnOk};
ghost use Rattle.rtb_base.specs.Faults.{CountsErrors};
ghost use Rattle.rtb_disk.specs.Stores.{Always, EachImage, Fails, changed, cut, settled};
ghost use Rattle.journal_file.specs.Blocks.{HasBlocks, block_bytes, compacted_name, end_of, open_blocks};
ghost use Rattle.journal_file.specs.Unfinished.{BeginsZero, IsUnfinished, IsUnfinishedOr, LeavesOthers};

use crate::blocks::size_bytes;
use crate::faults::{CompactFault, DiskFailed};
use crate::steps::write_synced;
use rtb_disk::Disk;
use rtb_num::Failed;

/// A journal file that is written whole, block by block.
///
/// The file is no journal until `finish` has opened its file gate. Where a call fails, the file is begun
/// anew by `start`.
#[derive(Drop)]
pub struct Compact<D: Disk> {
    pub(crate) disk: D,
    // The place behind the last block.
    pub(crate) end: u64,
    pub(crate) failed: bool,
    ghost inside: { (D.store disk).told ≡ true → end ≤ length (D.store disk).reads },
    ghost first: { 1 ≤ end },
    ghost small: { end < 2 ^ 63 },
}

impl<D: Disk> Compact<D> {
    ghost use Rattle.std.specs.Prelude.{◌≡◌, ◌⊎◌, [], ◌∷◌, ◌++◌, List, ℕ, true, false, IfErr, IfOk, MatchResult, OnOk};
    ghost use Rattle.rtb_base.specs.Faults.{CountsErrors, RisesOnlyWhere};
    ghost use Rattle.rtb_disk.specs.Stores.{Always, EachImage, settled};
    ghost use Rattle.journal_file.specs.Blocks.{HasBlocks, compacted_name};
    ghost use Rattle.journal_file.specs.Unfinished.{IsUnfinished, IsUnfinishedOr, LeavesOthers};
    ghost use Rattle.journal_file.specs.Compaction.{Adds, disk_written, faults_written, has_failed, store_written};

    /// Syncs the disk, and begins to write it anew. It has to be a file that is short or that was not
    /// finished; any other is left as it is, also where a call of the disk fails.
    pub fn start(disk: D) -> Result<Compact<D>, (D, CompactFault)>
        ensures accepted { (D.store disk).told ≡ true → MatchResult result (λ _. IsUnfinished (D.store disk).reads) (λ e. e.1 ≡ CompactFault.NotEmpty → IsUnfinished (D.store disk).reads → ⊥) }
        ensures refused { (D.store disk).told ≡ true → IfErr result (λ e. e.1 ≡ CompactFault.NotEmpty → D.store e.0 ≡ settled (D.store disk)) }
        ensures others { (D.store disk).told ≡ true → IfErr result (λ e. LeavesOthers (D.store disk) (D.store e.0)) }
        ensures begun { (D.store disk).told ≡ true → IfOk result (λ c. Adds c []) }
        ensures whole { IfOk result (λ c. has_failed c ≡ false) }
        // A crash at any moment behind the first sync leaves a file that `start` takes.
        ensures any_moment { (D.store disk).told ≡ true → IsUnfinished (D.store disk).reads → MatchResult result (λ c. Always IsUnfinished (settled (D.store disk)) (store_written c)) (λ e. (D.store e.0 ≡ D.store disk) ⊎ Always IsUnfinished (settled (D.store disk)) (D.store e.0)) }
        ensures cause { MatchResult result (λ c. faults_written c ≡ D.faults disk) (λ e. RisesOnlyWhere (e.1 ≡ CompactFault.DiskFailed) (D.faults disk) (D.faults e.0)) }
    {
        let mut disk = disk;
        match prepare(&mut disk) {
            Err(_) => Err((disk, CompactFault::DiskFailed)),
            Ok(false) => Err((disk, CompactFault::NotEmpty)),
            Ok(true) => Ok(Compact {
                disk,
                end: 8,
                failed: false,
            }),
        }
    }

    /// Adds a block. Where it fails, the file has to be begun anew.
    pub fn add(&mut self, block: &[u8]) -> Result<(), DiskFailed>
        requires whole { has_failed self.old ≡ false }
        ensures added { (payloads : List (List ℕ)) → Adds self.old payloads → OnOk result (Adds self.new (payloads ++ block.now ∷ [])) }
        ensures any_moment { (payloads : List (List ℕ)) → Adds self.old payloads → Always IsUnfinished (store_written self.old) (store_written self.new) }
        ensures failed { MatchResult result (λ _. has_failed self.new ≡ false) (λ _. has_failed self.new ≡ true) }
        ensures cause { CountsErrors (faults_written self.old) (faults_written self.new) result }
    {
        self.failed = true;
        add_block(&mut self.disk, self.end, block)?;
        self.end = self.end + 9 + block.len() as u64;
        self.failed = false;
        Ok(())
    }

    /// Closes the last gate and opens the file gate: the file is a journal of the blocks that were added.
    pub fn finish(self) -> Result<D, (D, DiskFailed)>
        requires whole { has_failed self ≡ false }
        ensures finished { (payloads : List (List ℕ)) → Adds self payloads → IfOk result (λ d. EachImage (HasBlocks (compacted_name ∷ []) payloads) (D.store d).now) }
        // A crash at any moment leaves a file that `start` takes, or the journal of all blocks.
        ensures any_moment { (payloads : List (List ℕ)) → Adds self payloads → MatchResult result (λ d. Always (IsUnfinishedOr payloads) (store_written self) (D.store d)) (λ e. Always (IsUnfinishedOr payloads) (store_written self) (D.store e.0)) }
        ensures cause { MatchResult result (λ d. CountsErrors (faults_written self) (D.faults d) result) (λ e. CountsErrors (faults_written self) (D.faults e.0) result) }
    {
        let mut disk = self.disk;
        match open_file(&mut disk, self.end) {
            Err(_) => Err((disk, DiskFailed)),
            Ok(()) => Ok(disk),
        }
    }

    /// The disk as it stands.
    pub fn into_disk(self) -> D
        ensures { result ≡ disk_written self }
    {
        self.disk
    }
}

// Syncs, looks at what is there, and clears it where it may be written anew.
fn prepare<D: Disk>(disk: &mut D) -> Result<bool, Failed>
    ensures accepted { (D.store disk.old).told ≡ true → IfOk result (λ taken. MatchBool taken (IsUnfinished (D.store disk.old).reads) (IsUnfinished (D.store disk.old).reads → ⊥)) }
    ensures refused { (D.store disk.old).told ≡ true → IfOk result (λ taken. taken ≡ false → D.store disk.new ≡ settled (D.store disk.old)) }
    ensures others { (D.store disk.old).told ≡ true → LeavesOthers (D.store disk.old) (D.store disk.new) }
    ensures begun { (D.store disk.old).told ≡ true → IfOk result (λ taken. taken ≡ true → ((D.store disk.new).reads ≡ 0 ∷ compacted_name) × EachImage BeginsZero (D.store disk.new).now) }
    ensures long { (D.store disk.new).told ≡ true → IfOk result (λ taken. taken ≡ true → 8 ≤ length (D.store disk.new).reads) }
    ensures any_moment { (D.store disk.old).told ≡ true → IsUnfinished (D.store disk.old).reads → MatchResult result (λ _. Always IsUnfinished (settled (D.store disk.old)) (D.store disk.new)) (λ _. (D.store disk.new ≡ D.store disk.old) ⊎ Always IsUnfinished (settled (D.store disk.old)) (D.store disk.new)) }
    ensures told { (D.store disk.new).told ≡ (D.store disk.old).told }
    ensures cause { CountsErrors (D.faults disk.old) (D.faults disk.new) result }
{
    disk.sync()?;
    let size = disk.length()?;
    let mut head = [0u8; 9];
    let n = disk.read(0, &mut head)?;
    if is_unfinished(&head[..n], size) {
        clear(disk, size)?;
        return Ok(true);
    }
    Ok(false)
}

// Whether a file of this size that begins with these bytes, at most nine, may be written anew.
fn is_unfinished(head: &[u8], size: u64) -> bool
    ensures { (image : List ℕ) → head.now ≡ take 9 image → size ≡ length image → MatchBool result (IsUnfinished image) (IsUnfinished image → ⊥) }
{
    if head.len() < 9 {
        return true;
    }
    if size < 9 {
        return true;
    }
    if head[0] == 0 {
        return true;
    }
    if head[0] == 1 {
        return false;
    }
    let name = &head[1..8];
    name == b"RTBXJ02".as_slice()
}

// Makes a file of this size one of a file gate 0 and the name.
fn clear<D: Disk>(disk: &mut D, size: u64) -> Result<(), Failed>
    requires size { (D.store disk.old).told ≡ true → size ≡ length (D.store disk.old).reads }
    ensures begun { (D.store disk.old).told ≡ true → OnOk result (((D.store disk.new).reads ≡ 0 ∷ compacted_name) × EachImage BeginsZero (D.store disk.new).now) }
    ensures any_moment { (D.store disk.old).told ≡ true → EachImage (λ image. image ≡ (D.store disk.old).reads) (D.store disk.old).now → IsUnfinished (D.store disk.old).reads → Always IsUnfinished (D.store disk.old) (D.store disk.new) }
    ensures told { (D.store disk.new).told ≡ (D.store disk.old).told }
    ensures cause { CountsErrors (D.faults disk.old) (D.faults disk.new) result }
{
    if size >= 9 {
        return cut_and_name(disk);
    }
    name_short(disk)
}

// Cuts a file of at least eight bytes to those before its first block, and begins it anew. It is cut
// first, so that its gate is never written while what is behind it could be read as a journal.
fn cut_and_name<D: Disk>(disk: &mut D) -> Result<(), Failed>
    requires long { (D.store disk.old).told ≡ true → 8 ≤ length (D.store disk.old).reads }
    ensures begun { (D.store disk.old).told ≡ true → OnOk result (((D.store disk.new).reads ≡ 0 ∷ compacted_name) × EachImage BeginsZero (D.store disk.new).now) }
    ensures any_moment { (D.store disk.old).told ≡ true → EachImage (λ image. image ≡ (D.store disk.old).reads) (D.store disk.old).now → IsUnfinished (D.store disk.old).reads → Always IsUnfinished (D.store disk.old) (D.store disk.new) }
    ensures told { (D.store disk.new).told ≡ (D.store disk.old).told }
    ensures cause { CountsErrors (D.faults disk.old) (D.faults disk.new) result }
{
    cut_synced(disk, 8)?;
    name_short(disk)
}

// Cuts the disk to its first bytes, and syncs.
fn cut_synced<D: Disk>(disk: &mut D, count: u64) -> Result<(), Failed>
    requires inside { (D.store disk.old).told ≡ true → count ≤ length (D.store disk.old).reads }
    ensures done { (D.store disk.old).told ≡ true → OnOk result (D.store disk.new ≡ settled (changed (cut count) (take count (D.store disk.old).reads) (D.store disk.old))) }
    ensures failed { (D.store disk.old).told ≡ true → OnErr result (Fails (cut count) (D.store disk.old) (D.store disk.new)) }
    ensures told { (D.store disk.new).told ≡ (D.store disk.old).told }
    ensures cause { CountsErrors (D.faults disk.old) (D.faults disk.new) result }
{
    disk.cut(count)?;
    disk.sync()?;
    Ok(())
}

// Writes a file gate 0 and the name over a file of at most eight bytes.
fn name_short<D: Disk>(disk: &mut D) -> Result<(), Failed>
    requires short { (D.store disk.old).told ≡ true → length (D.store disk.old).reads ≤ 8 }
    ensures begun { (D.store disk.old).told ≡ true → OnOk result (((D.store disk.new).reads ≡ 0 ∷ compacted_name) × EachImage BeginsZero (D.store disk.new).now) }
    ensures any_moment { (D.store disk.old).told ≡ true → EachImage (λ image. length image < 9) (D.store disk.old).now → Always IsUnfinished (D.store disk.old) (D.store disk.new) }
    ensures told { (D.store disk.new).told ≡ (D.store disk.old).told }
    ensures cause { CountsErrors (D.faults disk.old) (D.faults disk.new) result }
{
    write_synced(disk, 0, &[0])?;
    disk.write_at(1, b"RTBXJ02".as_slice())?;
    Ok(())
}

// Writes an open gate, the block's length and the block at the end.
fn add_block<D: Disk>(disk: &mut D, end: u64, block: &[u8]) -> Result<(), Failed>
    requires inside { (D.store disk.old).told ≡ true → end ≤ length (D.store disk.old).reads }
    requires first { 1 ≤ end }
    requires small { end < 2 ^ 63 }
    ensures longer { (D.store disk.new).told ≡ true → length (D.store disk.old).reads ≤ length (D.store disk.new).reads }
    ensures long { (D.store disk.new).told ≡ true → OnOk result (end + 9 + length block.now ≤ length (D.store disk.new).reads) }
    ensures bound { OnOk result (end + 9 + length block.now < 2 ^ 63) }
    ensures added { (D.store disk.old).told ≡ true → end ≡ length (D.store disk.old).reads → OnOk result ((D.store disk.new).reads ≡ (D.store disk.old).reads ++ 1 ∷ block_bytes block.now) }
    ensures any_moment { (D.store disk.old).told ≡ true → EachImage BeginsZero (D.store disk.old).now → Always BeginsZero (D.store disk.old) (D.store disk.new) }
    ensures told { (D.store disk.new).told ≡ (D.store disk.old).told }
    ensures cause { CountsErrors (D.faults disk.old) (D.faults disk.new) result }
{
    let size = block.len() as u64;
    disk.write_at(end, &[1])?;
    disk.write_at(end + 1, &size_bytes(size))?;
    disk.write_at(end + 9, block)?;
    Ok(())
}

// Writes a closed gate at the end, and then opens the file gate.
fn open_file<D: Disk>(disk: &mut D, end: u64) -> Result<(), Failed>
    requires inside { (D.store disk.old).told ≡ true → end ≤ length (D.store disk.old).reads }
    requires first { 1 ≤ end }
    ensures finished { (D.store disk.old).told ≡ true → (payloads : List (List ℕ)) → end ≡ end_of payloads → (D.store disk.old).reads ≡ 0 ∷ compacted_name ++ open_blocks payloads → OnOk result (EachImage (HasBlocks (compacted_name ∷ []) payloads) (D.store disk.new).now) }
    ensures any_moment { (D.store disk.old).told ≡ true → (payloads : List (List ℕ)) → end ≡ end_of payloads → (D.store disk.old).reads ≡ 0 ∷ compacted_name ++ open_blocks payloads → EachImage BeginsZero (D.store disk.old).now → Always (IsUnfinishedOr payloads) (D.store disk.old) (D.store disk.new) }
    ensures told { (D.store disk.new).told ≡ (D.store disk.old).told }
    ensures cause { CountsErrors (D.faults disk.old) (D.faults disk.new) result }
{
    write_synced(disk, end, &[0])?;
    write_synced(disk, 0, &[1])?;
    Ok(())
}
