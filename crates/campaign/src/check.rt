//! The first fault of what an advertiser states, in the order of the parts.
ghost use Rattle.std.specs.Prelude.{◌≡◌, ◌≤◌, ◌^◌, nat_le, length, All, FitsSigned, IfNone, not, pos, int_le};
ghost use Rattle.std.specs.Option.{option_to_list};
ghost use Rattle.std.specs.List.{flat_map, position, slice_get};
ghost use Rattle.std.specs.Int.{w32};
ghost use Rattle.campaign.specs.declared.field.CampField.TheVariants.{Adid, Cat, CatItem, Deals, DealsItem};
ghost use Rattle.campaign.specs.declared.parts.FactFault.TheVariants.{BidZero, TextLength};
ghost use Rattle.campaign.specs.Faults.{attr_faults, fact_faults, fault_unless, is_side, is_size, is_text, text_faults, texts_faults};
ghost use Rattle.campaign.specs.Kept.{IsInRange};

use crate::field::CampField;
use crate::parts::{FactFault, FactParts};
use crate::{LONGEST_MARKUP, LONGEST_SIDE, LONGEST_TEXT, MOST_ITEMS};
use rtb_num::{Micros, Txt};

// The first fault, in the order of the fields.
pub(crate) fn first_fault(parts: &FactParts) -> Option<FactFault>
    ensures value { result ≡ slice_get (fact_faults parts.now) 0 }
    ensures range { IfNone result (IsInRange parts.now) }
{
    let _budget = parts.budget.get();
    text_fault(CampField::Seat, &parts.seat)
        .or(text_fault(CampField::Adomain, &parts.adomain))
        .or(cat_fault(parts.cat.as_slice()))
        .or(size_fault(parts.w, parts.h))
        .or(attr_fault(parts.attr.as_slice()))
        .or(bid_fault(parts.bid))
        .or(deals_fault(parts.deals.as_slice()))
        .or(markup_fault(&parts.adm))
        .or(text_fault(CampField::Crid, &parts.crid))
        .or(adid_fault(&parts.adid))
}

fn text_fault(field: CampField, text: &Txt) -> Option<FactFault>
    ensures { result ≡ slice_get (text_faults field text.now) 0 }
{
    if is_text(text) {
        None
    } else {
        Some(FactFault::TextLength { field })
    }
}

// Whether it has 1 to 255 bytes.
fn is_text(text: &Txt) -> bool
    ensures { result ≡ is_text text.now }
{
    1 <= text.len() && text.len() <= LONGEST_TEXT
}

fn cat_fault(cat: &[Txt]) -> Option<FactFault>
    ensures { result ≡ slice_get (texts_faults Cat CatItem cat.now) 0 }
{
    if !is_few(cat.len()) {
        return Some(FactFault::ListLength {
            field: CampField::Cat,
        });
    }
    let place = first_misfit(cat)?;
    Some(FactFault::TextLength {
        field: CampField::CatItem(place),
    })
}

// Whether a list may have so many items.
fn is_few(items: usize) -> bool
    ensures { result ≡ nat_le items 64 }
{
    items <= MOST_ITEMS
}

// The place of the first text that is empty or too long.
fn first_misfit(texts: &[Txt]) -> Option<usize>
    ensures { result ≡ position (λ t. not (is_text t)) texts.now }
{
    texts.iter().position(|text| !is_text(text))
}

fn size_fault(w: Option<i32>, h: Option<i32>) -> Option<FactFault>
    ensures { result ≡ slice_get (fault_unless (is_size w h) FactFault.Size) 0 }
{
    let is_size = match (w, h) {
        (None, None) => true,
        (Some(w), Some(h)) => is_side(w) && is_side(h),
        _ => false,
    };
    if is_size { None } else { Some(FactFault::Size) }
}

// Whether it has 1 to 32767 pixels.
fn is_side(pixels: i32) -> bool
    ensures { result ≡ is_side pixels }
{
    1 <= pixels && pixels <= LONGEST_SIDE
}

fn attr_fault(attr: &[i32]) -> Option<FactFault>
    ensures value { result ≡ slice_get (attr_faults attr.now) 0 }
    ensures range { IfNone result (All (FitsSigned w32) attr.now) }
{
    if !is_few(attr.len()) {
        return Some(FactFault::ListLength {
            field: CampField::Attr,
        });
    }
    let place = first_negative(attr)?;
    Some(FactFault::ListLength {
        field: CampField::AttrItem(place),
    })
}

// The place of the first negative number.
fn first_negative(ints: &[i32]) -> Option<usize>
    ensures place { result ≡ position (λ z. not (int_le (pos 0) z)) ints.now }
    ensures range { IfNone result (All (FitsSigned w32) ints.now) }
{
    for (place, n) in ints.iter().enumerate() {
        if *n < 0 {
            return Some(place);
        }
    }
    None
}

fn bid_fault(bid: Micros) -> Option<FactFault>
    ensures value { result ≡ slice_get (fault_unless (nat_le 1 bid) BidZero) 0 }
    ensures range { bid ≤ 10 ^ 12 }
{
    if bid.get() >= 1 {
        None
    } else {
        Some(FactFault::BidZero)
    }
}

fn deals_fault(deals: &[Txt]) -> Option<FactFault>
    ensures { result ≡ slice_get (texts_faults Deals DealsItem deals.now) 0 }
{
    if !is_few(deals.len()) {
        return Some(FactFault::ListLength {
            field: CampField::Deals,
        });
    }
    let place = first_misfit(deals)?;
    Some(FactFault::TextLength {
        field: CampField::DealsItem(place),
    })
}

fn markup_fault(adm: &Txt) -> Option<FactFault>
    ensures { result ≡ slice_get (fault_unless (nat_le (length adm.now) LONGEST_MARKUP) (TextLength CampField.Adm)) 0 }
{
    if adm.len() <= LONGEST_MARKUP {
        None
    } else {
        Some(FactFault::TextLength {
            field: CampField::Adm,
        })
    }
}

fn adid_fault(adid: &Option<Txt>) -> Option<FactFault>
    ensures { result ≡ slice_get (flat_map (text_faults Adid) (option_to_list adid.now)) 0 }
{
    match adid {
        Some(adid) => text_fault(CampField::Adid, adid),
        None => None,
    }
}
