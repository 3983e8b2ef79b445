//! Impressions that are the same but for their ids, and those that the rules cannot tell apart.
ghost use Rattle.std.specs.Prelude.{◌≡◌, is_none, option_and_then, true};
ghost use Rattle.deal_rules.specs.Alike.{AreRuledAlike, position_of};
ghost use Rattle.deal_rules.specs.Rules.{blocked_attributes_of, sizes_of};

use crate::opportunity::{blocked_attributes_of, sizes_of};
use rtb_num::Txt;
use rtb_types::{Deal, Imp, Size};

/// Whether the impressions are the same but for their ids.
pub(crate) fn is_alike(a: &Imp, b: &Imp) -> bool
    ensures { result ≡ true → a.now ≡ record b.now { id = a.now.id } }
{
    if !are_ruled_alike(a, b) {
        return false;
    }
    if !is_same_tag(&a.tagid, &b.tagid) {
        return false;
    }
    is_same_position(position_of(a), position_of(b))
}

/// Whether all that the rules look at is the same.
pub(crate) fn are_ruled_alike(a: &Imp, b: &Imp) -> bool
    ensures { result ≡ true → AreRuledAlike a.now b.now }
{
    if !has_same_terms(a, b) {
        return false;
    }
    if !is_same_text(&a.currency, &b.currency) {
        return false;
    }
    if !has_same_banner(a, b) {
        return false;
    }
    has_same_deals(a.pmp.deals.as_slice(), b.pmp.deals.as_slice())
}

fn has_same_terms(a: &Imp, b: &Imp) -> bool
    ensures { result ≡ true → (a.now.floor ≡ b.now.floor) × (a.now.secure ≡ b.now.secure) × (a.now.pmp.private_auction ≡ b.now.pmp.private_auction) }
{
    if a.secure != b.secure {
        return false;
    }
    if a.pmp.private_auction != b.pmp.private_auction {
        return false;
    }
    a.floor == b.floor
}

// Whether the banners are the same but for where they stand.
fn has_same_banner(a: &Imp, b: &Imp) -> bool
    ensures { result ≡ true → (is_none a.now.banner ≡ is_none b.now.banner) × (sizes_of a.now ≡ sizes_of b.now) × (blocked_attributes_of a.now ≡ blocked_attributes_of b.now) }
{
    if a.banner.is_none() != b.banner.is_none() {
        return false;
    }
    if !are_same_numbers(blocked_attributes_of(a), blocked_attributes_of(b)) {
        return false;
    }
    has_same_sizes(sizes_of(a), sizes_of(b))
}

// Where the banner stands.
fn position_of(imp: &Imp) -> Option<i32>
    ensures { result ≡ position_of imp.now }
{
    match &imp.banner {
        Some(banner) => banner.pos,
        None => None,
    }
}

fn is_same_position(a: Option<i32>, b: Option<i32>) -> bool
    ensures { result ≡ true → a ≡ b }
{
    a == b
}

fn is_same_tag(a: &Option<Txt>, b: &Option<Txt>) -> bool
    ensures { result ≡ true → a.now ≡ b.now }
{
    match (a, b) {
        (None, None) => true,
        (Some(a), Some(b)) => is_same_text(a, b),
        _ => false,
    }
}

fn is_same_text(a: &Txt, b: &Txt) -> bool
    ensures { result ≡ true → a.now ≡ b.now }
{
    a == b
}

fn are_same_numbers(a: &[i32], b: &[i32]) -> bool
    ensures { result ≡ true → a.now ≡ b.now }
{
    a == b
}

fn has_same_sizes(a: &[Size], b: &[Size]) -> bool
    ensures { result ≡ true → a.now ≡ b.now }
{
    if a.len() != b.len() {
        return false;
    }
    for (k, size) in a.iter().enumerate() {
        if !is_same_size(size, &b[k]) {
            return false;
        }
    }
    true
}

fn is_same_size(a: &Size, b: &Size) -> bool
    ensures { result ≡ true → a.now ≡ b.now }
{
    a.w == b.w && a.h == b.h
}

fn has_same_deals(a: &[Deal], b: &[Deal]) -> bool
    ensures { result ≡ true → a.now ≡ b.now }
{
    if a.len() != b.len() {
        return false;
    }
    for (k, deal) in a.iter().enumerate() {
        if !is_same_deal(deal, &b[k]) {
            return false;
        }
    }
    true
}

fn is_same_deal(a: &Deal, b: &Deal) -> bool
    ensures { result ≡ true → a.now ≡ b.now }
{
    if !has_same_price(a, b) {
        return false;
    }
    if !is_same_text(&a.id, &b.id) {
        return false;
    }
    if !is_same_text(&a.currency, &b.currency) {
        return false;
    }
    if !has_same_texts(a.wseat.as_slice(), b.wseat.as_slice()) {
        return false;
    }
    has_same_texts(a.wadomain.as_slice(), b.wadomain.as_slice())
}

fn has_same_price(a: &Deal, b: &Deal) -> bool
    ensures { result ≡ true → (a.now.floor ≡ b.now.floor) × (a.now.at ≡ b.now.at) }
{
    if a.at != b.at {
        return false;
    }
    a.floor == b.floor
}

fn has_same_texts(a: &[Txt], b: &[Txt]) -> bool
    ensures { result ≡ true → a.now ≡ b.now }
{
    if a.len() != b.len() {
        return false;
    }
    for (k, text) in a.iter().enumerate() {
        if !is_same_text(text, &b[k]) {
            return false;
        }
    }
    true
}
