//! The calls of `deal_rules` and `clearing` on a market.
ghost use Rattle.std.specs.Prelude.{◌≡◌, ◌<◌, Some, length, slice_get, IfOk, IsTrue};
ghost use Rattle.std.specs.List.{list_all};
ghost use Rattle.clearing.specs.Clearing.{is_fit};
ghost use Rattle.deal_rules.specs.Terms.{terms_of};
ghost use Rattle.rtb_types.specs.declared.request.Imp.{Imp as Impression};

use crate::market::{Market, market_of};
use case_lines::{done, put_space};
use clearing::{Offer, PriceKind, Terms, Win, clear, put_in_order};
use deal_rules::{Asked, Rule, offers, push_candidates, user_of, why_not};
use rtb_num::{Txt, write_decimal};
use std::alloc::{AllocError, Global};

/// Answers a call of this area, or tells that it is none. Each is on the words of a market (`market.rt`):
///
/// - `offers | ..`: the offers for the first impression, all campaigns in their order, as
///   `CAMPAIGN:BID:POOL` in micro-dollars, or `none`.
/// - `candidates | ..`: the candidates for it, whatever is free of their budgets and was shown, in the order in which
///   one beats the other, in the same form.
/// - `why_not | ..`: the rule that excludes each campaign, or `offers`.
/// - `terms | ..`: the terms of each pool, as `second 300000`.
/// - `sold | ..`: what the offers are cleared to, as `1 pays 1010000 in pool 0`, or `no sale`.
/// - `user_of | ..`: the user, or `none`.
pub fn answer(alloc: Global, call: &[u8], args: &[Txt], out: &mut Txt) -> Result<bool, AllocError> {
    match market_of(alloc, args)? {
        Some(market) => {
            let told = answer_in(alloc, call, &market, out);
            drop(market);
            told
        }
        None => done(out.extend(b"unreadable")),
    }
}

fn answer_in(
    alloc: Global,
    call: &[u8],
    market: &Market,
    out: &mut Txt,
) -> Result<bool, AllocError> {
    let asked = Asked::new(alloc, &market.request)?;
    let told = answer_asked(alloc, call, market, &asked, out);
    drop(asked);
    told
}

fn answer_asked(
    alloc: Global,
    call: &[u8],
    market: &Market,
    asked: &Asked<'_>,
    out: &mut Txt,
) -> Result<bool, AllocError>
    requires some { 0 < length asked.now.imps }
{
    if call == b"offers".as_slice() {
        return done(put_offers(alloc, market, asked, out));
    }
    if call == b"candidates".as_slice() {
        return done(put_candidates(alloc, market, asked, out));
    }
    if call == b"why_not".as_slice() {
        return done(put_reasons(market, asked, out));
    }
    if call == b"terms".as_slice() {
        return done(put_each_term(asked.terms_at(0), out));
    }
    if call == b"sold".as_slice() {
        return done(put_sale(alloc, market, asked, out));
    }
    if call == b"user_of".as_slice() {
        return done(put_user(market, out));
    }
    Ok(false)
}

// ---- offers

fn put_offers(
    alloc: Global,
    market: &Market,
    asked: &Asked<'_>,
    out: &mut Txt,
) -> Result<(), AllocError>
    requires some { 0 < length asked.now.imps }
{
    let offers = all_offers(alloc, market, asked)?;
    let told = put_each_offer(&offers, out);
    drop(offers);
    told
}

fn put_each_offer(offers: &[Offer], out: &mut Txt) -> Result<(), AllocError> {
    if offers.is_empty() {
        return out.extend(b"none");
    }
    for (i, offer) in offers.iter().enumerate() {
        put_space(i, out)?;
        put_offer(offer, out)?;
    }
    Ok(())
}

// The offers of all campaigns, which fit the terms.
fn all_offers(alloc: Global, market: &Market, asked: &Asked<'_>) -> Result<Vec<Offer>, AllocError>
    requires some { 0 < length asked.now.imps }
    ensures { (i : Impression) → slice_get asked.now.imps 0 ≡ Some i → IfOk result (λ os. IsTrue (list_all (is_fit (terms_of asked.now i)) os.items)) }
{
    let mut all = Vec::new(alloc);
    let mut number: u32 = 0;
    for bidder in &market.bidders {
        number = number.saturating_add(1);
        let shown = bidder.shown_in(&market.request);
        let more = offers(alloc, asked, 0, number, &bidder.facts, bidder.free, shown)?;
        all.extend_from_slice(more.as_slice())?;
    }
    Ok(all)
}

fn put_candidates(
    alloc: Global,
    market: &Market,
    asked: &Asked<'_>,
    out: &mut Txt,
) -> Result<(), AllocError>
    requires some { 0 < length asked.now.imps }
{
    let mut candidates = all_candidates(alloc, market, asked)?;
    put_in_order(&mut candidates);
    let told = put_each_offer(&candidates, out);
    drop(candidates);
    told
}

fn all_candidates(
    alloc: Global,
    market: &Market,
    asked: &Asked<'_>,
) -> Result<Vec<Offer>, AllocError>
    requires some { 0 < length asked.now.imps }
{
    let mut all = Vec::new(alloc);
    let mut number: u32 = 0;
    for bidder in &market.bidders {
        number = number.saturating_add(1);
        push_candidates(&mut all, asked, 0, number, &bidder.facts)?;
    }
    Ok(all)
}

fn put_offer(offer: &Offer, out: &mut Txt) -> Result<(), AllocError> {
    write_decimal(u64::from(offer.campaign), out)?;
    put_number(b":", offer.bid.get(), out)?;
    put_number(b":", offer.pool as u64, out)
}

fn put_number(words: &[u8], n: u64, out: &mut Txt) -> Result<(), AllocError> {
    out.extend(words)?;
    write_decimal(n, out)
}

// ---- why there is none

fn put_reasons(market: &Market, asked: &Asked<'_>, out: &mut Txt) -> Result<(), AllocError>
    requires some { 0 < length asked.now.imps }
{
    for (i, bidder) in market.bidders.iter().enumerate() {
        put_space(i, out)?;
        let shown = bidder.shown_in(&market.request);
        let rule = why_not(asked, 0, &bidder.facts, bidder.free, shown);
        out.extend(name_of(rule))?;
    }
    Ok(())
}

fn name_of(rule: Option<Rule>) -> &'static [u8] {
    match rule {
        None => b"offers",
        Some(Rule::Request) => b"request",
        Some(Rule::NoBanner) => b"no-banner",
        Some(Rule::Size) => b"size",
        Some(Rule::Attribute) => b"attribute",
        Some(Rule::Secure) => b"secure",
        Some(Rule::SeatNotAllowed) => b"seat-not-allowed",
        Some(Rule::SeatBlocked) => b"seat-blocked",
        Some(Rule::Category) => b"category",
        Some(Rule::Advertiser) => b"advertiser",
        Some(Rule::Budget) => b"budget",
        Some(Rule::Capped) => b"capped",
        Some(Rule::Private) => b"private",
        Some(Rule::Currency) => b"currency",
        Some(Rule::Floor) => b"floor",
    }
}

// ---- terms and sales

fn put_each_term(terms: &[Terms], out: &mut Txt) -> Result<(), AllocError> {
    for (i, term) in terms.iter().enumerate() {
        put_space(i, out)?;
        out.extend(kind_name(term.kind))?;
        put_number(b" ", term.floor.get(), out)?;
    }
    Ok(())
}

fn kind_name(kind: PriceKind) -> &'static [u8] {
    match kind {
        PriceKind::First => b"first",
        PriceKind::Second => b"second",
        PriceKind::Agreed => b"agreed",
    }
}

fn put_sale(
    alloc: Global,
    market: &Market,
    asked: &Asked<'_>,
    out: &mut Txt,
) -> Result<(), AllocError>
    requires some { 0 < length asked.now.imps }
{
    let offers = all_offers(alloc, market, asked)?;
    let win = clear(&offers, asked.terms_at(0));
    drop(offers);
    put_win(win, out)
}

fn put_win(win: Option<Win>, out: &mut Txt) -> Result<(), AllocError> {
    match win {
        Some(win) => {
            write_decimal(u64::from(win.campaign), out)?;
            put_number(b" pays ", win.price.get(), out)?;
            put_number(b" in pool ", win.pool as u64, out)
        }
        None => out.extend(b"no sale"),
    }
}

fn put_user(market: &Market, out: &mut Txt) -> Result<(), AllocError> {
    match user_of(&market.request) {
        Some(user) => out.extend(user.as_bytes()),
        None => out.extend(b"none"),
    }
}
