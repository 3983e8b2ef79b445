//! The effects of a block.
ghost use Rattle.std.specs.Prelude.{◌≡◌, ◌+◌, Err, None, OnErr, OnOk, Some, drop, length};
ghost use Rattle.follower.specs.Passing.{Applies, IsCarried};
ghost use Rattle.plain_exchange.specs.Effects.{applied};

use auction_core::{ApplyFault, Core};
use effects::{Effect, EffectFault, decode};
use std::alloc::Global;

// The most edits of a table. No journal comes to them: a disk has fewer than 2^63 bytes, and an effect, which is
// at most two edits, has nine at least.
const MOST_EDITS: u64 = 1 << 61;

/// Carries out the effects of the payload but for the first so many, which grow by those that were carried out, and
/// so does the count. After an error those before the one that it met are carried out.
pub(crate) fn carry_out(
    alloc: Global,
    payload: &[u8],
    core: &mut Core,
    done: &mut usize,
    count: &mut u64,
) -> Result<(), ApplyFault>
    ensures { IsCarried payload.now done.old done.new core.old.state core.new.state count.old count.new result }
{
    match decode(alloc, payload) {
        Ok(effects) => {
            let carried = apply_rest(alloc, effects.as_slice(), core, done, count);
            drop(effects);
            carried
        }
        Err(EffectFault::Torn { .. }) => Err(ApplyFault::Unfit),
        Err(EffectFault::Memory) => Err(ApplyFault::Memory),
    }
}

// The same, by the effects of the payload.
fn apply_rest(
    alloc: Global,
    effects: &[Effect],
    core: &mut Core,
    done: &mut usize,
    count: &mut u64,
) -> Result<(), ApplyFault>
    ensures { (a : Applies (drop done.old effects.now) core.old.state core.new.state count.old count.new result) × (done.new ≡ done.old + length a.more) }
{
    let before = *count;
    let applied = apply_all(alloc, rest_of(effects, *done), core, count);
    *done += (*count - before) as usize;
    applied
}

// The effects behind the first so many.
fn rest_of(effects: &[Effect], done: usize) -> &[Effect]
    ensures { result.now ≡ drop done effects.now }
{
    if done < effects.len() {
        &effects[done..]
    } else {
        &effects[effects.len()..]
    }
}

// Carries out the effects in their order.
fn apply_all(
    alloc: Global,
    effects: &[Effect],
    core: &mut Core,
    count: &mut u64,
) -> Result<(), ApplyFault>
    ensures { Applies effects.now core.old.state core.new.state count.old count.new result }
{
    for effect in effects {
        apply_one(alloc, effect, core, count)?;
    }
    Ok(())
}

// Carries out an effect.
fn apply_one(
    alloc: Global,
    effect: &Effect,
    core: &mut Core,
    count: &mut u64,
) -> Result<(), ApplyFault>
    ensures after { OnOk result (applied effect.now core.old.state ≡ Some core.new.state) }
    ensures counted { OnOk result (count.new ≡ count.old + 1) }
    ensures unfit { result ≡ Err ApplyFault.Unfit → applied effect.now core.old.state ≡ None }
    ensures unchanged { OnErr result (core.new.state ≡ core.old.state) }
    ensures uncounted { OnErr result (count.new ≡ count.old) }
{
    let edits = u64::from(effect.change.edits());
    if core.table().edits() > MOST_EDITS - edits || *count == u64::MAX {
        return Err(ApplyFault::Memory);
    }
    core.apply(alloc, effect)?;
    *count += 1;
    Ok(())
}
