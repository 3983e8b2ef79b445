//! Journals, opened and read to their end, and added to.
ghost use Rattle.std.specs.Prelude.{◌≡◌, true};
ghost use Rattle.journal_file.specs.Readings.{has_ended};

use journal_file::{Journal, JournalFault, Reading};
use rtb_disk::{Disk, MemDisk};
use rtb_num::{Failed, List, Txt};
use std::alloc::{AllocError, Global};

/// The most blocks that a case reads.
const MOST_BLOCKS: u32 = 100;

/// How a reading of a journal ended.
#[derive(Drop)]
pub enum Opened<D: Disk> {
    Journal(Journal<D>),
    /// It was not opened. The disk is as it was left.
    Not(D, JournalFault),
}

/// Reads all blocks of the journal on this disk: appends each payload to `payloads`, and its gate's place
/// to `gates`. Then finishes the reading.
pub fn open<D: Disk + Drop>(
    disk: D,
    payloads: &mut Txt,
    gates: &mut List<u64>,
) -> Result<Opened<D>, AllocError> {
    let mut reading = match Reading::start(disk) {
        Ok(reading) => reading,
        Err((disk, fault)) => return Ok(Opened::Not(disk, fault)),
    };
    for _ in 0..MOST_BLOCKS {
        match reading.next_block(payloads) {
            Ok(Some(gate)) => gates.push(gate)?,
            Ok(None) => return Ok(finish(reading)),
            Err(fault) => return Ok(Opened::Not(reading.into_disk(), fault)),
        }
    }
    Ok(Opened::Not(reading.into_disk(), JournalFault::Memory))
}

/// Opens the journal on this disk, and keeps nothing of what it reads.
pub fn open_only<D: Disk + Drop>(alloc: Global, disk: D) -> Result<Opened<D>, AllocError> {
    let mut payloads = Txt::new(alloc);
    let mut gates = List::new(alloc);
    let opened = open(disk, &mut payloads, &mut gates);
    drop(payloads);
    drop(gates);
    opened
}

fn finish<D: Disk + Drop>(reading: Reading<D>) -> Opened<D>
    requires { has_ended reading ≡ true }
{
    match reading.finish() {
        Ok(journal) => Opened::Journal(journal),
        Err((disk, fault)) => Opened::Not(disk, fault),
    }
}

/// The disk that a reading ended with.
pub fn disk_behind<D: Disk + Drop>(opened: Opened<D>) -> D {
    match opened {
        Opened::Journal(journal) => journal.into_disk(),
        Opened::Not(disk, _) => disk,
    }
}

/// All bytes of a disk, at most 4096.
pub fn put_content<D: Disk>(disk: &mut D, out: &mut Txt) -> Result<(), AllocError> {
    let mut bytes = [0u8; 4096];
    match disk.read(0, &mut bytes) {
        Ok(n) => out.extend(&bytes[..n.min(4096)]),
        Err(Failed) => out.extend(b"failed"),
    }
}

/// A disk with this content, of which no call fails.
pub fn disk_of(alloc: Global, content: &Txt) -> Result<MemDisk, AllocError> {
    Ok(MemDisk::new(alloc, content.copy()?, List::new(alloc)))
}

/// Adds a block, where the journal is whole, and tells whether it was done.
pub fn append_to<D: Disk + Drop>(journal: &mut Journal<D>, block: &[u8]) -> bool {
    if journal.broken() {
        return false;
    }
    journal.append(block).is_ok()
}

/// Repairs the journal with the block, where it is broken, and tells whether it was done.
pub fn repair_with<D: Disk + Drop>(journal: &mut Journal<D>, block: &[u8]) -> bool {
    if journal.broken() {
        return journal.repair(block).is_ok();
    }
    true
}
