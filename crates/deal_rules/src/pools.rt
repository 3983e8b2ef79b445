//! The terms by which the pools of an impression sell.
ghost use Rattle.std.specs.Prelude.{◌≡◌, ◌++◌, map, option_and_then, IfOk, OnOk};
ghost use Rattle.std.specs.Option.{option_copied};
ghost use Rattle.deal_rules.specs.Terms.{deal_terms, kind_of, known_id, terms_at, terms_of, user_of};

use clearing::{PriceKind, Terms};
use rtb_num::{List, Micros, Txt};
use rtb_types::{BidRequest, Deal, Imp};
use std::alloc::{AllocError, Global};

// The most bytes of a user's id.
const LONGEST_ID: usize = 255;

/// The terms by which the pools of each impression sell.
pub(crate) fn all_terms(alloc: Global, request: &BidRequest) -> Result<Vec<List<Terms>>, AllocError>
    ensures { IfOk result (λ all. all.items ≡ map (terms_of request.now) request.now.imps) }
{
    let mut all = Vec::with_capacity(alloc, request.imps.len())?;
    for imp in request.imps.as_slice() {
        all.push(terms_for(alloc, request, imp)?)?;
    }
    Ok(all)
}

/// The user whom the impressions are shown to: `user.id` (OpenRTB 2.5, section 3.2.20), where it has 1 to 255
/// bytes.
#[tactic(auto, unfolding(crate::specs::Terms::user_of))]
pub fn user_of(request: &BidRequest) -> Option<&Txt>
    ensures { option_copied result ≡ user_of request.now }
{
    match &request.user {
        Some(user) => known_id(user.id.as_ref()),
        None => None,
    }
}

#[tactic(auto, unfolding(crate::specs::Terms::terms_of))]
fn terms_for(alloc: Global, request: &BidRequest, imp: &Imp) -> Result<List<Terms>, AllocError>
    ensures { IfOk result (λ ts. ts ≡ terms_of request.now imp.now) }
{
    let mut terms = List::with_capacity(alloc, imp.pmp.deals.len().saturating_add(1))?;
    terms.push(terms_at(imp.floor, request.at))?;
    push_terms(&mut terms, imp.pmp.deals.as_slice())?;
    Ok(terms)
}

// Appends the terms of the deals.
fn push_terms(terms: &mut List<Terms>, deals: &[Deal]) -> Result<(), AllocError>
    ensures { OnOk result (terms.new ≡ terms.old ++ map deal_terms deals.now) }
{
    for deal in deals {
        terms.push(terms_at(deal.floor, deal.at))?;
    }
    Ok(())
}

fn terms_at(floor: Micros, at: u8) -> Terms
    ensures { result ≡ terms_at floor at }
{
    Terms {
        floor,
        kind: kind_of(at),
    }
}

fn kind_of(at: u8) -> PriceKind
    ensures { result ≡ kind_of at }
{
    match at {
        1 => PriceKind::First,
        3 => PriceKind::Agreed,
        _ => PriceKind::Second,
    }
}

// The id, where it has 1 to 255 bytes.
fn known_id(id: Option<&Txt>) -> Option<&Txt>
    ensures { option_copied result ≡ option_and_then known_id (option_copied id.entry) }
{
    match id {
        Some(id) if 1 <= id.len() && id.len() <= LONGEST_ID => Some(id),
        _ => None,
    }
}
