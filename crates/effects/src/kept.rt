//! The bodies of a compacted journal's effects read: campaigns and sales that were kept.
ghost use Rattle.std.specs.Prelude.{◌≡◌, IfOk};
ghost use Rattle.byte_fields.specs.Codes.{IsReadAt};
ghost use Rattle.effects.specs.Bodies.{IsAimed, IsAimedGone, IsDated, IsLive, IsLiveCapped, IsStated, IsTagged, aimed_bytes, aimed_gone_bytes, dated_bytes, kept_from, live_bytes, live_capped_bytes, row_from, stated_bytes};
ghost use Rattle.effects.specs.Bytes.{body_bytes};
ghost use Rattle.effects.specs.declared.tag.Tag.{Tag as tag_type};

use crate::fields::{
    get_expr, get_facts, get_gone, get_optional_cap, get_optional_user, get_state, get_triple,
};
use budget_book::{Gone, SaleRow, SaleState};
use byte_fields::{Found, get_eight, get_flag, paired};
use campaign::{Cap, Facts};
use plain_exchange::{Change, KeptCampaign};
use rtb_num::{Nanos, Txt};
use std::alloc::Global;
use target_expr::Expr;

// Whether it is live and its facts, its cap, its expression.
type Aimed = (((bool, Facts), Option<Cap>), Expr);

// Campaign and price, moment, due.
type Dated = (((u32, Nanos), u64), u64);

fn get_live_facts(alloc: Global, bytes: &[u8], place: usize) -> Found<(bool, Facts)>
    ensures { IfOk result (IsReadAt IsLive live_bytes bytes.now place) }
{
    let Some((live, next)) = get_flag(bytes, place) else {
        return Ok(None);
    };
    let Some((facts, next)) = get_facts(alloc, bytes, next)? else {
        return Ok(None);
    };
    Ok(Some(((live, facts), next)))
}

fn get_kept_cap(alloc: Global, bytes: &[u8], place: usize) -> Found<((bool, Facts), Option<Cap>)>
    ensures { IfOk result (IsReadAt IsLiveCapped live_capped_bytes bytes.now place) }
{
    let Some((facts, next)) = get_live_facts(alloc, bytes, place)? else {
        return Ok(None);
    };
    paired(facts, Ok(get_optional_cap(bytes, next)))
}

fn get_kept_expr(alloc: Global, bytes: &[u8], place: usize) -> Found<Aimed>
    ensures { IfOk result (IsReadAt IsAimed aimed_bytes bytes.now place) }
{
    let Some((facts, next)) = get_kept_cap(alloc, bytes, place)? else {
        return Ok(None);
    };
    paired(facts, get_expr(alloc, bytes, next))
}

pub(crate) fn get_kept(alloc: Global, bytes: &[u8], place: usize) -> Found<Change>
    ensures { IfOk result (IsReadAt (IsTagged tag_type.Kept) body_bytes bytes.now place) }
{
    let Some((kept, next)) = get_kept_gone(alloc, bytes, place)? else {
        return Ok(None);
    };
    Ok(Some((Change::Kept(kept_from(kept)), next)))
}

fn get_kept_gone(alloc: Global, bytes: &[u8], place: usize) -> Found<(Aimed, Gone)>
    ensures { IfOk result (IsReadAt IsAimedGone aimed_gone_bytes bytes.now place) }
{
    let Some((aimed, next)) = get_kept_expr(alloc, bytes, place)? else {
        return Ok(None);
    };
    paired(aimed, Ok(get_gone(bytes, next)))
}

fn kept_from(kept: (Aimed, Gone)) -> KeptCampaign
    ensures { result ≡ kept_from kept.0 kept.1 }
{
    let ((((live, facts), cap), expr), gone) = kept;
    KeptCampaign {
        live,
        facts: facts.with_cap(cap),
        expr,
        gone,
    }
}

fn get_dated(bytes: &[u8], place: usize) -> Option<(Dated, usize)>
    ensures { IsReadAt IsDated dated_bytes bytes.now place result }
{
    let (triple, next) = get_triple(bytes, place)?;
    let (due, next) = get_eight(bytes, next)?;
    Some(((triple, due), next))
}

fn get_stated(bytes: &[u8], place: usize) -> Option<((Dated, SaleState), usize)>
    ensures { IsReadAt IsStated stated_bytes bytes.now place result }
{
    let (dated, next) = get_dated(bytes, place)?;
    let (state, next) = get_state(bytes, next)?;
    Some(((dated, state), next))
}

pub(crate) fn get_kept_sale(alloc: Global, bytes: &[u8], place: usize) -> Found<Change>
    ensures { IfOk result (IsReadAt (IsTagged tag_type.KeptSale) body_bytes bytes.now place) }
{
    let Some((stated, next)) = get_stated(bytes, place) else {
        return Ok(None);
    };
    let Some((user, next)) = get_optional_user(alloc, bytes, next)? else {
        return Ok(None);
    };
    Ok(Some((Change::KeptSale(row_from(stated, user)), next)))
}

fn row_from(stated: (Dated, SaleState), user: Option<Txt>) -> SaleRow
    ensures { result ≡ row_from stated user }
{
    let ((((campaign, price), moment), due), state) = stated;
    SaleRow {
        campaign,
        price,
        moment,
        due,
        state,
        user,
    }
}
