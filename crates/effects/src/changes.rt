//! The bodies of effects read, tag by tag.
ghost use Rattle.std.specs.Prelude.{◌≡◌, ◌≤◌, length, Some, IfOk};
ghost use Rattle.byte_fields.specs.Codes.{IsReadAt};
ghost use Rattle.campaign.specs.Kept.{with_cap};
ghost use Rattle.effects.specs.Bodies.{IsAddition, IsAlteration, IsCapped, IsCappedAddition, IsCappedAlteration, IsCappedChange, IsNumbered, IsTagged, addition_bytes, alteration_bytes, capped_addition_bytes, capped_alteration_bytes, capped_bytes, capped_change_bytes, numbered_bytes};
ghost use Rattle.effects.specs.Bytes.{body_bytes};
ghost use Rattle.effects.specs.declared.tag.Tag.{Tag as tag_type};
ghost use Rattle.plain_exchange.specs.declared.changes.Change.{Change as change_type};

use crate::fields::{get_expr, get_facts, get_terms, get_user};
use crate::items::get_items;
use byte_fields::{Found, get_eight, get_four, paired};
use campaign::{Cap, Facts};
use plain_exchange::Change;
use std::alloc::Global;
use target_expr::Expr;

pub(crate) fn get_sold(alloc: Global, bytes: &[u8], place: usize) -> Found<Change>
    ensures { IfOk result (IsReadAt (IsTagged tag_type.Sold) body_bytes bytes.now place) }
{
    let Some((items, next)) = get_items(alloc, bytes, place)? else {
        return Ok(None);
    };
    Ok(Some((Change::Sold(items), next)))
}

pub(crate) fn get_sold_to(alloc: Global, bytes: &[u8], place: usize) -> Found<Change>
    ensures { IfOk result (IsReadAt (IsTagged tag_type.SoldTo) body_bytes bytes.now place) }
{
    let Some((user, next)) = get_user(alloc, bytes, place)? else {
        return Ok(None);
    };
    let Some((items, next)) = get_items(alloc, bytes, next)? else {
        return Ok(None);
    };
    Ok(Some((Change::SoldTo(user, items), next)))
}

fn get_numbered_facts(alloc: Global, bytes: &[u8], place: usize) -> Found<(u32, Facts)>
    ensures { IfOk result (IsReadAt IsNumbered numbered_bytes bytes.now place) }
{
    let Some((n, next)) = get_four(bytes, place) else {
        return Ok(None);
    };
    let Some((facts, next)) = get_facts(alloc, bytes, next)? else {
        return Ok(None);
    };
    Ok(Some(((n, facts), next)))
}

fn get_capped_facts(alloc: Global, bytes: &[u8], place: usize) -> Found<(Facts, Cap)>
    ensures { IfOk result (IsReadAt IsCapped capped_bytes bytes.now place) }
{
    let Some((facts, next)) = get_facts(alloc, bytes, place)? else {
        return Ok(None);
    };
    paired(facts, Ok(get_terms(bytes, next)))
}

fn get_capped_change(alloc: Global, bytes: &[u8], place: usize) -> Found<((u32, Facts), Cap)>
    ensures { IfOk result (IsReadAt IsCappedChange capped_change_bytes bytes.now place) }
{
    let Some((numbered, next)) = get_numbered_facts(alloc, bytes, place)? else {
        return Ok(None);
    };
    paired(numbered, Ok(get_terms(bytes, next)))
}

pub(crate) fn get_added(alloc: Global, bytes: &[u8], place: usize) -> Found<Change>
    ensures { IfOk result (IsReadAt (IsTagged tag_type.Added) body_bytes bytes.now place) }
{
    let Some((added, next)) = get_facts_expr(alloc, bytes, place)? else {
        return Ok(None);
    };
    Ok(Some((added_from(added), next)))
}

fn get_facts_expr(alloc: Global, bytes: &[u8], place: usize) -> Found<(Facts, Expr)>
    ensures { IfOk result (IsReadAt IsAddition addition_bytes bytes.now place) }
{
    let Some((facts, next)) = get_facts(alloc, bytes, place)? else {
        return Ok(None);
    };
    paired(facts, get_expr(alloc, bytes, next))
}

fn added_from(added: (Facts, Expr)) -> Change
    ensures { result ≡ change_type.Added added.0 added.1 }
{
    let (facts, expr) = added;
    Change::Added(facts, expr)
}

pub(crate) fn get_changed(alloc: Global, bytes: &[u8], place: usize) -> Found<Change>
    ensures { IfOk result (IsReadAt (IsTagged tag_type.Changed) body_bytes bytes.now place) }
{
    let Some((changed, next)) = get_numbered_facts_expr(alloc, bytes, place)? else {
        return Ok(None);
    };
    Ok(Some((changed_from(changed), next)))
}

fn get_numbered_facts_expr(alloc: Global, bytes: &[u8], place: usize) -> Found<((u32, Facts), Expr)>
    ensures { IfOk result (IsReadAt IsAlteration alteration_bytes bytes.now place) }
{
    let Some((numbered, next)) = get_numbered_facts(alloc, bytes, place)? else {
        return Ok(None);
    };
    paired(numbered, get_expr(alloc, bytes, next))
}

fn changed_from(changed: ((u32, Facts), Expr)) -> Change
    ensures { result ≡ change_type.Changed changed.0.0 changed.0.1 changed.1 }
{
    let ((n, facts), expr) = changed;
    Change::Changed(n, facts, expr)
}

pub(crate) fn get_capped_added(alloc: Global, bytes: &[u8], place: usize) -> Found<Change>
    ensures { IfOk result (IsReadAt (IsTagged tag_type.CappedAdded) body_bytes bytes.now place) }
{
    let Some((added, next)) = get_capped_facts_expr(alloc, bytes, place)? else {
        return Ok(None);
    };
    Ok(Some((capped_added_from(added), next)))
}

fn get_capped_facts_expr(alloc: Global, bytes: &[u8], place: usize) -> Found<((Facts, Cap), Expr)>
    ensures { IfOk result (IsReadAt IsCappedAddition capped_addition_bytes bytes.now place) }
{
    let Some((capped, next)) = get_capped_facts(alloc, bytes, place)? else {
        return Ok(None);
    };
    paired(capped, get_expr(alloc, bytes, next))
}

fn capped_added_from(added: ((Facts, Cap), Expr)) -> Change
    ensures { result ≡ change_type.Added (with_cap (Some added.0.1) added.0.0) added.1 }
{
    let ((facts, cap), expr) = added;
    Change::Added(facts.with_cap(Some(cap)), expr)
}

pub(crate) fn get_capped_changed(alloc: Global, bytes: &[u8], place: usize) -> Found<Change>
    ensures { IfOk result (IsReadAt (IsTagged tag_type.CappedChanged) body_bytes bytes.now place) }
{
    let Some((changed, next)) = get_capped_change_expr(alloc, bytes, place)? else {
        return Ok(None);
    };
    Ok(Some((capped_changed_from(changed), next)))
}

fn get_capped_change_expr(
    alloc: Global,
    bytes: &[u8],
    place: usize,
) -> Found<(((u32, Facts), Cap), Expr)>
    ensures { IfOk result (IsReadAt IsCappedAlteration capped_alteration_bytes bytes.now place) }
{
    let Some((capped, next)) = get_capped_change(alloc, bytes, place)? else {
        return Ok(None);
    };
    paired(capped, get_expr(alloc, bytes, next))
}

fn capped_changed_from(changed: (((u32, Facts), Cap), Expr)) -> Change
    ensures { result ≡ change_type.Changed changed.0.0.0 (with_cap (Some changed.0.1) changed.0.0.1) changed.1 }
{
    let (((n, facts), cap), expr) = changed;
    Change::Changed(n, facts.with_cap(Some(cap)), expr)
}

pub(crate) fn get_paused(bytes: &[u8], place: usize) -> Option<(Change, usize)>
    ensures { IsReadAt (IsTagged tag_type.Paused) body_bytes bytes.now place result }
{
    let (n, next) = get_four(bytes, place)?;
    Some((Change::Paused(n), next))
}

pub(crate) fn get_resumed(bytes: &[u8], place: usize) -> Option<(Change, usize)>
    ensures { IsReadAt (IsTagged tag_type.Resumed) body_bytes bytes.now place result }
{
    let (n, next) = get_four(bytes, place)?;
    Some((Change::Resumed(n), next))
}

pub(crate) fn get_billed(bytes: &[u8], place: usize) -> Option<(Change, usize)>
    ensures { IsReadAt (IsTagged tag_type.Billed) body_bytes bytes.now place result }
{
    let (n, next) = get_eight(bytes, place)?;
    Some((Change::Billed(n), next))
}

pub(crate) fn get_lost(bytes: &[u8], place: usize) -> Option<(Change, usize)>
    ensures { IsReadAt (IsTagged tag_type.Lost) body_bytes bytes.now place result }
{
    let (n, next) = get_eight(bytes, place)?;
    Some((Change::Lost(n), next))
}

pub(crate) fn get_forgot(bytes: &[u8], place: usize) -> Option<(Change, usize)>
    ensures { IsReadAt (IsTagged tag_type.Forgot) body_bytes bytes.now place result }
{
    let (n, next) = get_eight(bytes, place)?;
    Some((Change::Forgot(n), next))
}
