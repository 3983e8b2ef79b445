//! Facts read from bytes.
ghost use Rattle.std.specs.Prelude.{◌≡◌, ◌≤◌, List, length, All, IfOk};
ghost use Rattle.std.specs.List.{flat_map};
ghost use Rattle.byte_fields.specs.Codes.{BothValid, IsReadAt, both_bytes};
ghost use Rattle.byte_fields.specs.Encodings.{IsListOf, IsOptionOf, IsShort, eight_bytes, list_bytes, option_bytes, text_bytes};
ghost use Rattle.campaign.specs.declared.decode.FactBytes.TheVariants.{Memory};
ghost use Rattle.campaign.specs.Encoding.{IsDecoded, facts_bytes, int_bytes, sides_bytes};
ghost use Rattle.campaign.specs.Groups.{AreGroups, AreInts, AreNames, AreSides, IsCreative, IsLook, IsLoose, IsMicros, IsMoney, IsNanos, IsWhole, creative_bytes, groups_bytes, look_bytes, money_bytes, names_bytes, parts_from};
ghost use Rattle.campaign.specs.Kept.{IsEncodable};

use crate::MOST_ITEMS;
use crate::facts::Facts;
use crate::ints::{Ints, get_int};
use crate::parts::FactParts;
use byte_fields::{Found, get_eight, get_flag, get_list, get_text, get_texts, paired};
use rtb_num::{List, Micros, Nanos, Txt};
use std::alloc::{AllocError, Global};
use std::fmt;
use thiserror::Error;

// `seat`, `adomain`, `cat`.
pub(crate) type Names = ((Txt, Txt), List<Txt>);

// Width and height, `attr`, `secure`.
type Look = ((Option<(i32, i32)>, List<i32>), bool);

// `bid`, `deals`, `budget`.
type Money = ((Micros, List<Txt>), Nanos);

// `adm`, `crid`, `adid`.
pub(crate) type Creative = ((Txt, Txt), Option<Txt>);

/// Why no facts are decoded.
#[derive(Clone, Copy, Error)]
pub enum FactBytes {
    /// The bytes of no facts begin at this place.
    #[error("the bytes are of no facts")]
    Torn { at: usize },
    #[error("memory ran out")]
    Memory,
}

impl fmt::Debug for FactBytes {
    // As it is told.
    fn fmt<W: fmt::Write>(&self, f: &mut fmt::Formatter<W>) -> fmt::Result {
        fmt::Display::fmt(self, f)
    }
}

impl From<AllocError> for FactBytes {
    ghost from_gives = { λ _ e. e ≡ Memory };

    fn from(_error: AllocError) -> FactBytes {
        FactBytes::Memory
    }
}

impl Facts {
    /// The facts whose bytes begin at the place, counted from 0 and allowed past the end, and the place
    /// behind them. They have no cap, which is no part of the bytes.
    ///
    /// A list that counts more items than its limit is refused before memory is taken for it.
    pub fn decode(alloc: Global, bytes: &[u8], place: usize) -> Result<(Facts, usize), FactBytes>
        ensures { IsDecoded bytes.now place result }
    {
        match get_facts(alloc, bytes, place)? {
            Some(found) => Ok(found),
            None => Err(FactBytes::Torn { at: place }),
        }
    }
}

// The facts at the place.
fn get_facts(alloc: Global, bytes: &[u8], place: usize) -> Found<Facts>
    ensures { IfOk result (IsReadAt IsEncodable facts_bytes bytes.now place) }
{
    let Some((parts, next)) = get_parts(alloc, bytes, place)? else {
        return Ok(None);
    };
    if parts.budget.get() % 1000 != 0 {
        drop(parts);
        return Ok(None);
    }
    match Facts::make(parts) {
        Ok(facts) => Ok(Some((facts, next))),
        Err(_) => Ok(None),
    }
}

// The parts at the place, within the limits or not.
fn get_parts(alloc: Global, bytes: &[u8], place: usize) -> Found<FactParts>
    ensures { IfOk result (IsReadAt IsLoose facts_bytes bytes.now place) }
{
    let Some((groups, next)) = get_groups(alloc, bytes, place)? else {
        return Ok(None);
    };
    let (((names, look), money), creative) = groups;
    Ok(Some((parts_of(names, look, money, creative), next)))
}

fn parts_of(names: Names, look: Look, money: Money, creative: Creative) -> FactParts
    ensures { result ≡ parts_from (((names, look), money), creative) }
{
    let ((seat, adomain), cat) = names;
    let ((size, attr), secure) = look;
    let ((bid, deals), budget) = money;
    let ((adm, crid), adid) = creative;
    let (w, h) = match size {
        Some((w, h)) => (Some(w), Some(h)),
        None => (None, None),
    };
    FactParts {
        seat,
        adomain,
        cat,
        w,
        h,
        attr,
        secure,
        bid,
        deals,
        budget,
        adm,
        crid,
        adid,
        cap: None,
    }
}

fn get_groups(
    alloc: Global,
    bytes: &[u8],
    place: usize,
) -> Found<(((Names, Look), Money), Creative)>
    ensures { IfOk result (IsReadAt AreGroups groups_bytes bytes.now place) }
{
    let Some((first, next)) = get_names_look_money(alloc, bytes, place)? else {
        return Ok(None);
    };
    paired(first, get_creative(alloc, bytes, next))
}

fn get_names_look_money(alloc: Global, bytes: &[u8], place: usize) -> Found<((Names, Look), Money)>
    ensures { IfOk result (IsReadAt (BothValid (BothValid AreNames IsLook) IsMoney) (both_bytes (both_bytes names_bytes look_bytes) money_bytes) bytes.now place) }
{
    let Some((first, next)) = get_names_look(alloc, bytes, place)? else {
        return Ok(None);
    };
    paired(first, get_money(alloc, bytes, next))
}

fn get_names_look(alloc: Global, bytes: &[u8], place: usize) -> Found<(Names, Look)>
    ensures { IfOk result (IsReadAt (BothValid AreNames IsLook) (both_bytes names_bytes look_bytes) bytes.now place) }
{
    let Some((names, next)) = get_names(alloc, bytes, place)? else {
        return Ok(None);
    };
    paired(names, get_look(alloc, bytes, next))
}

fn get_names(alloc: Global, bytes: &[u8], place: usize) -> Found<Names>
    ensures { IfOk result (IsReadAt AreNames names_bytes bytes.now place) }
{
    let Some((texts, next)) = get_two_texts(alloc, bytes, place)? else {
        return Ok(None);
    };
    paired(texts, get_texts(alloc, bytes, next, MOST_ITEMS))
}

fn get_two_texts(alloc: Global, bytes: &[u8], place: usize) -> Found<(Txt, Txt)>
    ensures { IfOk result (IsReadAt (BothValid IsShort IsShort) (both_bytes text_bytes text_bytes) bytes.now place) }
{
    let Some((text, next)) = get_text(alloc, bytes, place)? else {
        return Ok(None);
    };
    paired(text, get_text(alloc, bytes, next))
}

fn get_look(alloc: Global, bytes: &[u8], place: usize) -> Found<Look>
    ensures { IfOk result (IsReadAt IsLook look_bytes bytes.now place) }
{
    let Some((size, next)) = get_size(bytes, place) else {
        return Ok(None);
    };
    let Some((attr, next)) = get_ints(alloc, bytes, next)? else {
        return Ok(None);
    };
    let Some((secure, next)) = get_flag(bytes, next) else {
        return Ok(None);
    };
    Ok(Some((((size, attr), secure), next)))
}

fn get_money(alloc: Global, bytes: &[u8], place: usize) -> Found<Money>
    ensures { IfOk result (IsReadAt IsMoney money_bytes bytes.now place) }
{
    let Some((bid, next)) = get_micros(bytes, place) else {
        return Ok(None);
    };
    let Some((deals, next)) = get_texts(alloc, bytes, next, MOST_ITEMS)? else {
        return Ok(None);
    };
    let Some((budget, next)) = get_nanos(bytes, next) else {
        return Ok(None);
    };
    Ok(Some((((bid, deals), budget), next)))
}

fn get_creative(alloc: Global, bytes: &[u8], place: usize) -> Found<Creative>
    ensures { IfOk result (IsReadAt IsCreative creative_bytes bytes.now place) }
{
    let Some((texts, next)) = get_two_texts(alloc, bytes, place)? else {
        return Ok(None);
    };
    paired(texts, get_optional(alloc, bytes, next))
}

fn get_optional(alloc: Global, bytes: &[u8], place: usize) -> Found<Option<Txt>>
    ensures { IfOk result (IsReadAt (IsOptionOf IsShort) (option_bytes text_bytes) bytes.now place) }
{
    let Some((is_there, next)) = get_flag(bytes, place) else {
        return Ok(None);
    };
    if !is_there {
        return Ok(Some((None, next)));
    }
    let Some((text, next)) = get_text(alloc, bytes, next)? else {
        return Ok(None);
    };
    Ok(Some((Some(text), next)))
}

fn get_size(bytes: &[u8], place: usize) -> Option<(Option<(i32, i32)>, usize)>
    ensures { IsReadAt (IsOptionOf AreSides) (option_bytes sides_bytes) bytes.now place result }
{
    let (is_there, next) = get_flag(bytes, place)?;
    if !is_there {
        return Some((None, next));
    }
    let (sides, next) = get_sides(bytes, next)?;
    Some((Some(sides), next))
}

fn get_sides(bytes: &[u8], place: usize) -> Option<((i32, i32), usize)>
    ensures { IsReadAt AreSides sides_bytes bytes.now place result }
{
    let (w, next) = get_int(bytes, place)?;
    let (h, next) = get_int(bytes, next)?;
    Some(((w, h), next))
}

// The list of whole numbers at the place.
fn get_ints(alloc: Global, bytes: &[u8], place: usize) -> Found<List<i32>>
    ensures { IfOk result (IsReadAt AreInts (list_bytes int_bytes) bytes.now place) }
{
    get_list::<Ints>(alloc, bytes, place, MOST_ITEMS)
}

fn get_micros(bytes: &[u8], place: usize) -> Option<(Micros, usize)>
    ensures { IsReadAt IsMicros eight_bytes bytes.now place result }
{
    let (n, next) = get_eight(bytes, place)?;
    Some((Micros::new(n)?, next))
}

fn get_nanos(bytes: &[u8], place: usize) -> Option<(Nanos, usize)>
    ensures { IsReadAt IsNanos eight_bytes bytes.now place result }
{
    let (n, next) = get_eight(bytes, place)?;
    Some((Nanos::new(n)?, next))
}
