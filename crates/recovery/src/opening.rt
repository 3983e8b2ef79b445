//! The exchange that a journal gives, block by block.
ghost use Rattle.std.specs.Prelude.{◌≡◌, Err, IfOk, MatchResult, Ok, OnOk, false, true};
ghost use Rattle.journal_file.specs.Readings.{HasNotFailed, faults_read, has_ended, reads_of, store_read};
ghost use Rattle.recovery.specs.Openings.{IsAtEnd, IsAtStart, IsLed, IsMadeBy, Opens};
ghost use Rattle.recovery.specs.Turns.{IsWithin, Turns};
ghost use Rattle.rtb_base.specs.Faults.{RisesOnlyWhere};

use crate::blocks::apply_block;
use auction_core::Core;
use journal_file::{JournalFault, Reading};
use rtb_disk::Disk;
use rtb_num::Txt;
use std::alloc::Global;

/// The exchange that the journal gives, where a sale is held for `ttl` milliseconds and auctions bring the list of sales to
/// `limit` at most: reads a journal from its
/// start to its end, and carries out the effects of each block. Writes nothing.
///
/// A block whose payload is no list of effects, or has one that does not fit, is damaged at its gate.
pub fn replay<D: Disk>(
    alloc: Global,
    reading: &mut Reading<D>,
    ttl: u64,
    limit: u64,
) -> Result<Core, JournalFault>
    ensures opened { IsAtStart reading.old → Opens (reads_of reading.old) result }
    // And which effects these are, with the payloads that `finish` hands to the journal.
    ensures made { IsAtStart reading.old → IfOk result (IsMadeBy (IsAtEnd reading.new)) }
    ensures led { IfOk result IsLed }
    ensures ended { OnOk result (has_ended reading.new ≡ true) }
    ensures settings { IfOk result (λ core. core.settings ≡ record { ttl = ttl; limit = limit }) }
    ensures same { store_read reading.new ≡ store_read reading.old }
    ensures cause { HasNotFailed reading.old → RisesOnlyWhere (result ≡ Err JournalFault.DiskFailed) (faults_read reading.old) (faults_read reading.new) }
{
    let mut core = Core::new(alloc, ttl, limit);
    let done = apply_blocks(alloc, reading, &mut core);
    unless_faulty(core, done)
}

// Reads the blocks that are left, and carries out the effects of each.
fn apply_blocks<D: Disk>(
    alloc: Global,
    reading: &mut Reading<D>,
    core: &mut Core,
) -> Result<(), JournalFault>
    ensures opened { IsMadeBy (IsWithin reading.old) core.old → MatchResult result (λ _. Opens (reads_of reading.old) (Ok core.new)) (λ e. Opens (reads_of reading.old) (Err e)) }
    ensures made { IsMadeBy (IsWithin reading.old) core.old → OnOk result (IsMadeBy (IsAtEnd reading.new) core.new) }
    ensures led { IsLed core.old → OnOk result (IsLed core.new) }
    ensures ended { OnOk result (has_ended reading.new ≡ true) }
    ensures settings { core.new.settings ≡ core.old.settings }
    ensures same { store_read reading.new ≡ store_read reading.old }
    ensures cause { HasNotFailed reading.old → RisesOnlyWhere (result ≡ Err JournalFault.DiskFailed) (faults_read reading.old) (faults_read reading.new) }
{
    let mut payload = Txt::new(alloc);
    for _ in 0..u64::MAX {
        let more = apply_next(alloc, reading, &mut payload, core)?;
        if !more {
            return Ok(());
        }
    }
    // No disk has so many blocks.
    Err(JournalFault::Memory)
}

// The value, unless something failed.
fn unless_faulty<T: Drop>(value: T, done: Result<(), JournalFault>) -> Result<T, JournalFault>
    ensures { MatchResult done (λ _. result ≡ Ok value) (λ e. result ≡ Err e) }
{
    match done {
        Ok(()) => Ok(value),
        Err(error) => Err(error),
    }
}

// Reads the next block into the text, in place of what it has, and carries out its effects. False where there
// is none.
fn apply_next<D: Disk>(
    alloc: Global,
    reading: &mut Reading<D>,
    payload: &mut Txt,
    core: &mut Core,
) -> Result<bool, JournalFault>
    ensures turns { IsMadeBy (IsWithin reading.old) core.old → Turns reading.old reading.new core.new result }
    ensures led { IsLed core.old → OnOk result (IsLed core.new) }
    ensures ended { result ≡ Ok false → has_ended reading.new ≡ true }
    ensures settings { core.new.settings ≡ core.old.settings }
    ensures same { store_read reading.new ≡ store_read reading.old }
    ensures cause { HasNotFailed reading.old → RisesOnlyWhere (result ≡ Err JournalFault.DiskFailed) (faults_read reading.old) (faults_read reading.new) }
    ensures intact { HasNotFailed reading.old → OnOk result (HasNotFailed reading.new) }
{
    payload.truncate(0);
    match reading.next_block(payload) {
        Ok(Some(gate)) => match apply_block(alloc, gate, payload.as_bytes(), core) {
            Ok(()) => Ok(true),
            Err(refused) => Err(refused),
        },
        Ok(None) => Ok(false),
        Err(fault) => Err(fault),
    }
}
