//! The effects of an exchange, gathered into blocks.
ghost use Rattle.std.specs.Prelude.{◌≡◌, ◌++◌, ◌∷◌, [], Err, List, None, Ok, OnOk, Some, false, slice_get, true};
ghost use Rattle.compaction.specs.Gathering.{Gathers, HaveUsers, Holds};
ghost use Rattle.compaction.specs.declared.fault.WriteFault.TheVariants as write;
ghost use Rattle.effects.specs.Bytes.{HasLengths, is_kept};
ghost use Rattle.journal_file.specs.Compaction.{Adds, faults_written, has_failed, store_written};
ghost use Rattle.journal_file.specs.Unfinished.{IsUnfinished};
ghost use Rattle.plain_exchange.specs.declared.changes.Effect.{Effect};
ghost use Rattle.plain_exchange.specs.Effects.{kept_effects};
ghost use Rattle.rtb_base.specs.Faults.{RisesOnlyWhere};
ghost use Rattle.rtb_disk.specs.Stores.{Always};

use crate::fault::WriteFault;
use auction_core::Core;
use effects::{Effect, encode};
use journal_file::Compact;
use rtb_disk::Disk;
use rtb_num::Txt;
use std::alloc::Global;

// A block that has so many bytes is written. So most blocks have about so many, and one that ends with a campaign of
// many bytes has more.
const FULL: usize = 65_536;

// The room of a block, which the bytes of a sale behind its last free one fit.
const ROOM: usize = FULL + 4_096;

/// Adds the effects that make the exchange again to a file that has no block yet.
pub(crate) fn put_effects<D: Disk>(
    alloc: Global,
    core: &Core,
    file: &mut Compact<D>,
) -> Result<(), WriteFault>
    requires whole { has_failed file.old ≡ false }
    requires users { HaveUsers core.now.state.sales }
    ensures holds { Adds file.old [] → OnOk result (Holds (kept_effects core.now.state) file.new) }
    ensures any_moment { Adds file.old [] → Always IsUnfinished (store_written file.old) (store_written file.new) }
    ensures whole { OnOk result (has_failed file.new ≡ false) }
    ensures cause { RisesOnlyWhere (result ≡ Err write.DiskFailed) (faults_written file.old) (faults_written file.new) }
{
    let mut block = Txt::new(alloc);
    block.reserve(ROOM)?;
    put_all(core, file, &mut block)
}

// The same, where the block is empty.
fn put_all<D: Disk>(core: &Core, file: &mut Compact<D>, block: &mut Txt) -> Result<(), WriteFault>
    requires whole { has_failed file.old ≡ false }
    requires users { HaveUsers core.now.state.sales }
    ensures holds { Gathers [] file.old block.old → OnOk result (Holds (kept_effects core.now.state) file.new) }
    ensures any_moment { Gathers [] file.old block.old → Always IsUnfinished (store_written file.old) (store_written file.new) }
    ensures whole { OnOk result (has_failed file.new ≡ false) }
    ensures cause { RisesOnlyWhere (result ≡ Err write.DiskFailed) (faults_written file.old) (faults_written file.new) }
{
    for place in 0..u64::MAX {
        let more = put_next(core, place, file, block)?;
        if !more {
            return put_rest(file, block);
        }
    }
    // No exchange has so many effects.
    Err(WriteFault::Memory)
}

// Puts the effect at the place behind those before it. False where there is none.
fn put_next<D: Disk>(
    core: &Core,
    place: u64,
    file: &mut Compact<D>,
    block: &mut Txt,
) -> Result<bool, WriteFault>
    requires whole { has_failed file.old ≡ false }
    requires users { HaveUsers core.now.state.sales }
    ensures put { result ≡ Ok true → (effect : Effect) × (slice_get (kept_effects core.now.state) place ≡ Some effect) × ((before : List Effect) → Gathers before file.old block.old → Gathers (before ++ effect ∷ []) file.new block.new) }
    ensures ended { result ≡ Ok false → (slice_get (kept_effects core.now.state) place ≡ None) × (file.new ≡ file.old) × (block.new ≡ block.old) }
    ensures any_moment { (before : List Effect) → Gathers before file.old block.old → Always IsUnfinished (store_written file.old) (store_written file.new) }
    ensures whole { OnOk result (has_failed file.new ≡ false) }
    ensures cause { RisesOnlyWhere (result ≡ Err write.DiskFailed) (faults_written file.old) (faults_written file.new) }
{
    match core.kept(place)? {
        Some(effect) => {
            let done = put_effect(&effect, file, block);
            drop(effect);
            match done {
                Ok(()) => Ok(true),
                Err(fault) => Err(fault),
            }
        }
        None => Ok(false),
    }
}

// Puts the effect behind those before it.
fn put_effect<D: Disk>(
    effect: &Effect,
    file: &mut Compact<D>,
    block: &mut Txt,
) -> Result<(), WriteFault>
    requires whole { has_failed file.old ≡ false }
    requires lengths { HasLengths effect.now.change }
    requires kept { is_kept effect.now.change ≡ true → effect.now.moment ≡ 0 }
    ensures put { (before : List Effect) → Gathers before file.old block.old → OnOk result (Gathers (before ++ effect.now ∷ []) file.new block.new) }
    ensures any_moment { (before : List Effect) → Gathers before file.old block.old → Always IsUnfinished (store_written file.old) (store_written file.new) }
    ensures whole { OnOk result (has_failed file.new ≡ false) }
    ensures cause { RisesOnlyWhere (result ≡ Err write.DiskFailed) (faults_written file.old) (faults_written file.new) }
{
    encode(effect, block)?;
    if block.len() < FULL {
        return Ok(());
    }
    put_block(file, block)
}

// Adds what is gathered, where there is something.
fn put_rest<D: Disk>(file: &mut Compact<D>, block: &mut Txt) -> Result<(), WriteFault>
    requires whole { has_failed file.old ≡ false }
    ensures put { (effects : List Effect) → Gathers effects file.old block.old → OnOk result (Holds effects file.new) }
    ensures any_moment { (effects : List Effect) → Gathers effects file.old block.old → Always IsUnfinished (store_written file.old) (store_written file.new) }
    ensures whole { OnOk result (has_failed file.new ≡ false) }
    ensures cause { RisesOnlyWhere (result ≡ Err write.DiskFailed) (faults_written file.old) (faults_written file.new) }
{
    if block.is_empty() {
        return Ok(());
    }
    put_block(file, block)
}

// Adds the block, and empties it.
fn put_block<D: Disk>(file: &mut Compact<D>, block: &mut Txt) -> Result<(), WriteFault>
    requires whole { has_failed file.old ≡ false }
    ensures put { (effects : List Effect) → Gathers effects file.old block.old → OnOk result (Holds effects file.new) }
    ensures emptied { OnOk result (block.new ≡ []) }
    ensures any_moment { (effects : List Effect) → Gathers effects file.old block.old → Always IsUnfinished (store_written file.old) (store_written file.new) }
    ensures whole { OnOk result (has_failed file.new ≡ false) }
    ensures cause { RisesOnlyWhere (result ≡ Err write.DiskFailed) (faults_written file.old) (faults_written file.new) }
{
    file.add(block.as_bytes())?;
    block.truncate(0);
    Ok(())
}
