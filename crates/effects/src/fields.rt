//! The fields of effects read: amounts, users, states and terms.
ghost use Rattle.std.specs.Prelude.{◌≡◌, IfOk};
ghost use Rattle.byte_fields.specs.Codes.{IsReadAt};
ghost use Rattle.byte_fields.specs.Encodings.{FitsEight, FitsFour, IsOptionOf, eight_bytes, four_bytes, option_bytes, text_bytes};
ghost use Rattle.campaign.specs.Encoding.{facts_bytes};
ghost use Rattle.campaign.specs.Kept.{IsEncodable as IsUncapped};
ghost use Rattle.effects.specs.Bodies.{AreEights, AreFours, AreThree, AreTwo, IsPriced, IsState, IsTriple, eights_bytes, fours_bytes, gone_from, priced_bytes, state_bytes, three_bytes, triple_bytes, two_bytes};
ghost use Rattle.effects.specs.Bytes.{IsAmount, IsCap, IsGone, IsUser, gone_bytes, terms_bytes};
ghost use Rattle.target_expr.specs.Bytes.{IsEncodable as IsExpr, expr_bytes};

use budget_book::{Gone, SaleState};
use byte_fields::{Found, get_byte, get_eight, get_flag, get_four, get_text};
use campaign::{Cap, FactBytes, Facts};
use rtb_num::{Nanos, Txt};
use std::alloc::{AllocError, Global};
use target_expr::{Expr, ExprBytes};

const LONGEST_USER: usize = 255;

pub(crate) fn get_amount(bytes: &[u8], place: usize) -> Option<(Nanos, usize)>
    ensures { IsReadAt IsAmount eight_bytes bytes.now place result }
{
    let (n, next) = get_eight(bytes, place)?;
    Some((Nanos::new(n)?, next))
}

// A campaign and a price.
fn get_priced(bytes: &[u8], place: usize) -> Option<((u32, Nanos), usize)>
    ensures { IsReadAt IsPriced priced_bytes bytes.now place result }
{
    let (campaign, next) = get_four(bytes, place)?;
    let (price, next) = get_amount(bytes, next)?;
    Some(((campaign, price), next))
}

// A campaign, a price and a moment.
pub(crate) fn get_triple(bytes: &[u8], place: usize) -> Option<(((u32, Nanos), u64), usize)>
    ensures { IsReadAt IsTriple triple_bytes bytes.now place result }
{
    let (priced, next) = get_priced(bytes, place)?;
    let (time, next) = get_eight(bytes, next)?;
    Some(((priced, time), next))
}

pub(crate) fn get_user(alloc: Global, bytes: &[u8], place: usize) -> Found<Txt>
    ensures { IfOk result (IsReadAt IsUser text_bytes bytes.now place) }
{
    let Some((user, next)) = get_text(alloc, bytes, place)? else {
        return Ok(None);
    };
    if user.is_empty() {
        return Ok(None);
    }
    if user.len() > LONGEST_USER {
        return Ok(None);
    }
    Ok(Some((user, next)))
}

pub(crate) fn get_optional_user(alloc: Global, bytes: &[u8], place: usize) -> Found<Option<Txt>>
    ensures { IfOk result (IsReadAt (IsOptionOf IsUser) (option_bytes text_bytes) bytes.now place) }
{
    let Some((is_there, next)) = get_flag(bytes, place) else {
        return Ok(None);
    };
    if !is_there {
        return Ok(Some((None, next)));
    }
    let Some((user, next)) = get_user(alloc, bytes, next)? else {
        return Ok(None);
    };
    Ok(Some((Some(user), next)))
}

pub(crate) fn get_state(bytes: &[u8], place: usize) -> Option<(SaleState, usize)>
    ensures { IsReadAt IsState state_bytes bytes.now place result }
{
    match get_byte(bytes, place)? {
        (0, next) => Some((SaleState::Held, next)),
        (1, next) => Some((SaleState::Billed, next)),
        (2, next) => Some((SaleState::Lost, next)),
        (3, next) => Some((SaleState::Expired, next)),
        _ => None,
    }
}

// The two numbers of a cap, in their ranges or not.
fn get_fours(bytes: &[u8], place: usize) -> Option<((u32, u32), usize)>
    ensures { IsReadAt AreFours fours_bytes bytes.now place result }
{
    let (count, next) = get_four(bytes, place)?;
    let (seconds, next) = get_four(bytes, next)?;
    Some(((count, seconds), next))
}

pub(crate) fn get_terms(bytes: &[u8], place: usize) -> Option<(Cap, usize)>
    ensures { IsReadAt IsCap terms_bytes bytes.now place result }
{
    let (numbers, next) = get_fours(bytes, place)?;
    let cap = Cap::new(numbers.0, numbers.1)?;
    Some((cap, next))
}

pub(crate) fn get_optional_cap(bytes: &[u8], place: usize) -> Option<(Option<Cap>, usize)>
    ensures { IsReadAt (IsOptionOf IsCap) (option_bytes terms_bytes) bytes.now place result }
{
    let (is_there, next) = get_flag(bytes, place)?;
    if !is_there {
        return Some((None, next));
    }
    let (cap, next) = get_terms(bytes, next)?;
    Some((Some(cap), next))
}

fn get_two_counts(bytes: &[u8], place: usize) -> Option<((Nanos, u64), usize)>
    ensures { IsReadAt AreTwo two_bytes bytes.now place result }
{
    let (spent, next) = get_amount(bytes, place)?;
    let (billed, next) = get_eight(bytes, next)?;
    Some(((spent, billed), next))
}

fn get_three_counts(bytes: &[u8], place: usize) -> Option<(((Nanos, u64), u64), usize)>
    ensures { IsReadAt AreThree three_bytes bytes.now place result }
{
    let (two, next) = get_two_counts(bytes, place)?;
    let (lost, next) = get_eight(bytes, next)?;
    Some(((two, lost), next))
}

fn get_four_counts(bytes: &[u8], place: usize) -> Option<((((Nanos, u64), u64), u64), usize)>
    ensures { IsReadAt AreEights eights_bytes bytes.now place result }
{
    let (three, next) = get_three_counts(bytes, place)?;
    let (expired, next) = get_eight(bytes, next)?;
    Some(((three, expired), next))
}

pub(crate) fn get_gone(bytes: &[u8], place: usize) -> Option<(Gone, usize)>
    ensures { IsReadAt IsGone gone_bytes bytes.now place result }
{
    let (counts, next) = get_four_counts(bytes, place)?;
    Some((gone_from(counts), next))
}

fn gone_from(counts: (((Nanos, u64), u64), u64)) -> Gone
    ensures { result ≡ gone_from counts }
{
    let (((spent, billed), lost), expired) = counts;
    Gone {
        spent,
        billed,
        lost,
        expired,
    }
}

// Facts, which have no cap yet.
pub(crate) fn get_facts(alloc: Global, bytes: &[u8], place: usize) -> Found<Facts>
    ensures { IfOk result (IsReadAt IsUncapped facts_bytes bytes.now place) }
{
    match Facts::decode(alloc, bytes, place) {
        Ok(found) => Ok(Some(found)),
        Err(FactBytes::Torn { .. }) => Ok(None),
        Err(FactBytes::Memory) => Err(AllocError),
    }
}

pub(crate) fn get_expr(alloc: Global, bytes: &[u8], place: usize) -> Found<Expr>
    ensures { IfOk result (IsReadAt IsExpr expr_bytes bytes.now place) }
{
    match Expr::decode(alloc, bytes, place) {
        Ok(found) => Ok(Some(found)),
        Err(ExprBytes::Torn { .. }) => Ok(None),
        Err(ExprBytes::Memory) => Err(AllocError),
    }
}
