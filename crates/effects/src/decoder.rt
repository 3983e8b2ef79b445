//! Effects read from bytes, one after another.
ghost use Rattle.std.specs.Prelude.{◌≡◌, ◌≤◌, ◌==◌, ◌&&◌, not, length, All, IfOk, MatchResult};
ghost use Rattle.std.specs.Option.{option_map};
ghost use Rattle.byte_fields.specs.Codes.{IsReadAt};
ghost use Rattle.effects.specs.Bodies.{IsTagged, effect_with};
ghost use Rattle.effects.specs.declared.fault.EffectFault.TheVariants.{Memory as memory};
ghost use Rattle.effects.specs.Bytes.{IsChange, IsDecoded, IsEncodable, body_bytes, change_bytes, effect_bytes, effects_bytes, is_kept};

use crate::changes::{
    get_added, get_billed, get_capped_added, get_capped_changed, get_changed, get_forgot, get_lost,
    get_paused, get_resumed, get_sold, get_sold_to,
};
use crate::fault::EffectFault;
use crate::kept::{get_kept, get_kept_sale};
use crate::tag::{Tag, get_tag};
use byte_fields::{Found, get_eight};
use plain_exchange::{Change, Effect};
use rtb_num::List;
use std::alloc::Global;

/// The effects whose bytes stand one after another.
///
/// A count that is past its limit is refused before memory is taken for it.
pub fn decode(alloc: Global, bytes: &[u8]) -> Result<List<Effect>, EffectFault>
    ensures value { IsDecoded bytes.now result }
    ensures only { (es : _) → All IsEncodable es → bytes.now ≡ effects_bytes es → MatchResult result (λ fs. fs ≡ es) (λ fault. fault ≡ memory) }
{
    let mut effects = List::new(alloc);
    let mut place = 0;
    while place < bytes.len() {
        let Some((effect, next)) = get_effect(alloc, bytes, place)? else {
            return Err(EffectFault::Torn { at: place });
        };
        effects.push(effect)?;
        place = next;
    }
    Ok(effects)
}

// The effect at the place.
fn get_effect(alloc: Global, bytes: &[u8], place: usize) -> Found<Effect>
    ensures { IfOk result (IsReadAt IsEncodable effect_bytes bytes.now place) }
{
    let Some((moment, next)) = get_eight(bytes, place) else {
        return Ok(None);
    };
    let Some((change, next)) = get_change(alloc, bytes, next)? else {
        return Ok(None);
    };
    Ok(effect_with(moment, change, next))
}

// The effect of that moment with the place behind it, unless the change is of a compacted journal and
// the moment is not 0.
fn effect_with(moment: u64, change: Change, next: usize) -> Option<(Effect, usize)>
    ensures { result ≡ option_map (λ e. (e, next)) (effect_with moment change) }
{
    if is_late(&change, moment) {
        drop(change);
        return None;
    }
    Some((Effect { moment, change }, next))
}

// Whether it is of a compacted journal, and yet of a moment other than 0.
fn is_late(change: &Change, moment: u64) -> bool
    ensures { result ≡ (is_kept change.now && not (moment == 0)) }
{
    is_kept(change) && moment != 0
}

fn is_kept(change: &Change) -> bool
    ensures { result ≡ is_kept change.now }
{
    matches!(change, Change::Kept(_) | Change::KeptSale(_))
}

// The change at the place.
fn get_change(alloc: Global, bytes: &[u8], place: usize) -> Found<Change>
    ensures { IfOk result (IsReadAt IsChange change_bytes bytes.now place) }
{
    let Some((tag, next)) = get_tag(bytes, place) else {
        return Ok(None);
    };
    get_body(alloc, tag, bytes, next)
}

// The change of that tag whose body is at the place.
fn get_body(alloc: Global, tag: Tag, bytes: &[u8], place: usize) -> Found<Change>
    requires { place ≤ length bytes.now }
    ensures { IfOk result (IsReadAt (IsTagged tag) body_bytes bytes.now place) }
{
    match tag {
        Tag::Swept => Ok(Some((Change::Swept, place))),
        Tag::Sold => get_sold(alloc, bytes, place),
        Tag::Added => get_added(alloc, bytes, place),
        Tag::Changed => get_changed(alloc, bytes, place),
        Tag::Paused => Ok(get_paused(bytes, place)),
        Tag::Resumed => Ok(get_resumed(bytes, place)),
        Tag::Billed => Ok(get_billed(bytes, place)),
        Tag::Lost => Ok(get_lost(bytes, place)),
        Tag::SoldTo => get_sold_to(alloc, bytes, place),
        Tag::CappedAdded => get_capped_added(alloc, bytes, place),
        Tag::CappedChanged => get_capped_changed(alloc, bytes, place),
        Tag::Kept => get_kept(alloc, bytes, place),
        Tag::KeptSale => get_kept_sale(alloc, bytes, place),
        Tag::Forgot => Ok(get_forgot(bytes, place)),
    }
}
