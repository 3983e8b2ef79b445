//! The effects of a block, carried out.
ghost use Rattle.std.specs.Prelude.{◌≡◌, ◌≤◌, ◌+◌, ◌^◌, Err, None, OnOk, Some};
ghost use Rattle.plain_exchange.specs.Effects.{all_applied, applied, edits, edits_in};
ghost use Rattle.recovery.specs.Openings.{IsLed};
ghost use Rattle.recovery.specs.Turns.{Follows};

use auction_core::{ApplyFault, Core};
use effects::{Effect, EffectFault, decode};
use journal_file::JournalFault;
use std::alloc::Global;

// The most edits of a table. No journal comes to them: a disk has fewer than 2^63 bytes, and an effect, which is
// at most two edits, has nine at least.
const MOST_EDITS: u64 = 1 << 61;

/// Carries out the effects of the block at the gate. After an error those before the one that it met are carried out.
pub(crate) fn carry_out(
    alloc: Global,
    gate: u64,
    payload: &[u8],
    core: &mut Core,
) -> Result<(), JournalFault>
    ensures follows { Follows gate payload.now core.old core.new result }
    ensures led { IsLed core.old → OnOk result (IsLed core.new) }
{
    match decode(alloc, payload) {
        Ok(effects) => {
            let done = apply_all(alloc, effects.as_slice(), core);
            drop(effects);
            match done {
                Ok(()) => Ok(()),
                Err(ApplyFault::Unfit) => Err(JournalFault::Damaged { at: gate }),
                Err(ApplyFault::Memory) => Err(JournalFault::Memory),
            }
        }
        Err(EffectFault::Torn { .. }) => Err(JournalFault::Damaged { at: gate }),
        Err(EffectFault::Memory) => Err(JournalFault::Memory),
    }
}

// Carries out the effects in their order.
fn apply_all(alloc: Global, effects: &[Effect], core: &mut Core) -> Result<(), ApplyFault>
    ensures after { OnOk result (all_applied effects.now core.old.state ≡ Some core.new.state) }
    ensures edits { OnOk result (core.new.edits ≡ core.old.edits + edits effects.now) }
    ensures few { core.old.edits ≤ 2 ^ 61 → core.new.edits ≤ 2 ^ 61 }
    ensures unfit { result ≡ Err ApplyFault.Unfit → all_applied effects.now core.old.state ≡ None }
{
    for effect in effects {
        apply_one(alloc, effect, core)?;
    }
    Ok(())
}

// Carries out an effect.
fn apply_one(alloc: Global, effect: &Effect, core: &mut Core) -> Result<(), ApplyFault>
    ensures after { OnOk result (applied effect.now core.old.state ≡ Some core.new.state) }
    ensures edits { OnOk result (core.new.edits ≡ core.old.edits + edits_in effect.now.change) }
    ensures few { core.old.edits ≤ 2 ^ 61 → core.new.edits ≤ 2 ^ 61 }
    ensures unfit { result ≡ Err ApplyFault.Unfit → applied effect.now core.old.state ≡ None }
{
    let edits = u64::from(effect.change.edits());
    if core.table().edits() > MOST_EDITS - edits {
        return Err(ApplyFault::Memory);
    }
    core.apply(alloc, effect)
}
