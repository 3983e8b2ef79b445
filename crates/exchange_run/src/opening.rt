//! The exchange as it starts.
ghost use Rattle.std.specs.Prelude.{◌≡◌, ◌≤◌, ◌<◌, ◌+◌, ◌++◌, ◌^◌, ◌∷◌, [], codes, decimal, false, is_some, length, option_map, IfOk, IsSome, IsTrue, OnOk, Some};
ghost use Rattle.plain_exchange.specs.Effects.{applied, edits_in};
ghost use Rattle.plain_exchange.specs.State.{empty};
ghost use Rattle.target_expr.specs.declared.fault.ExprFault.TheVariants.{Memory};
ghost use Rattle.exchange_run.specs.Exchange.{facts_of, opening, target_of};
ghost use Rattle.exchange_run.specs.Making.{addition_of, campaigns_named, has_room_for, is_short, raw_target_of, with_one};
ghost use Rattle.exchange_run.specs.Words.{campaigns_of};

use crate::words::campaign_named;
use auction_core::{ApplyFault, Change, Core, Effect};
use campaign::{FactParts, Facts};
use rtb_num::{List, Micros, Nanos, Txt, write_decimal};
use std::alloc::{AllocError, Global};
use target_expr::{Expr, ExprFault, RawPred};

/// Adds a live campaign for each word to an exchange that has none.
pub(crate) fn add_campaigns(alloc: Global, core: &mut Core, words: &[Txt]) -> Result<(), AllocError>
    requires campaigns { IsSome (campaigns_of words.now) }
    requires few { length words.now ≤ 64 }
    requires empty { core.old.state ≡ empty }
    requires unedited { core.old.edits ≡ 0 }
    ensures state { OnOk result (core.new.state ≡ opening (campaigns_named words.now)) }
    ensures settings { core.new.settings ≡ core.old.settings }
    ensures edits { OnOk result (core.new.edits ≤ 64) }
{
    let mut number = 0;
    for word in words {
        number += 1;
        let named = campaign_named(word);
        add(alloc, core, number, named.bid, named.domain)?;
    }
    Ok(())
}

// Adds the campaign under that number.
fn add(
    alloc: Global,
    core: &mut Core,
    number: u32,
    bid: Micros,
    domain: Option<&[u8]>,
) -> Result<(), AllocError>
    requires some_bid { 1 ≤ bid }
    requires short { IsTrue (is_short (option_map (λ d. d.now) domain)) }
    requires few { core.old.edits < 2 ^ 63 }
    requires room { IsTrue (has_room_for core.old.state number (record { bid = bid; domain = option_map (λ d. d.now) domain })) }
    ensures state { OnOk result (core.new.state ≡ with_one core.old.state number (record { bid = bid; domain = option_map (λ d. d.now) domain.entry })) }
    ensures settings { core.new.settings ≡ core.old.settings }
    ensures edits { OnOk result (core.new.edits ≡ core.old.edits + 1) }
{
    let addition = addition(alloc, number, bid, domain)?;
    let carried = carry_out(alloc, core, &addition);
    drop(addition);
    carried
}

// Carries out an effect that fits.
fn carry_out(alloc: Global, core: &mut Core, effect: &Effect) -> Result<(), AllocError>
    requires fits { IsTrue (is_some (applied effect.now core.old.state)) }
    requires few { core.old.edits + edits_in effect.now.change ≤ 2 ^ 63 }
    ensures state { OnOk result (applied effect.now core.old.state ≡ Some core.new.state) }
    ensures settings { core.new.settings ≡ core.old.settings }
    ensures edits { OnOk result (core.new.edits ≡ core.old.edits + edits_in effect.now.change) }
{
    match core.apply(alloc, effect) {
        Ok(()) => Ok(()),
        Err(ApplyFault::Memory) => Err(AllocError),
        Err(ApplyFault::Unfit) => unreachable!(),
    }
}

// The effect that adds it.
#[tactic(auto, unfolding(crate::specs::Making::addition_of))]
fn addition(
    alloc: Global,
    number: u32,
    bid: Micros,
    domain: Option<&[u8]>,
) -> Result<Effect, AllocError>
    requires some_bid { 1 ≤ bid }
    requires short { IsTrue (is_short (option_map (λ d. d.now) domain)) }
    ensures { IfOk result (λ e. e ≡ addition_of number (record { bid = bid; domain = option_map (λ d. d.now) domain.entry })) }
{
    let target = target(alloc, domain)?;
    match facts(alloc, number, bid) {
        Ok(facts) => Ok(Effect {
            moment: 0,
            change: Change::Added(facts, target),
        }),
        Err(error) => {
            drop(target);
            Err(error)
        }
    }
}

// The facts of the campaign of that number, which have no fault.
fn facts(alloc: Global, number: u32, bid: Micros) -> Result<Facts, AllocError>
    requires { 1 ≤ bid }
    ensures { IfOk result (λ f. f ≡ facts_of number bid) }
{
    let parts = parts(alloc, number, bid)?;
    match Facts::make(parts) {
        Ok(facts) => Ok(facts),
        Err(_) => unreachable!(),
    }
}

fn parts(alloc: Global, number: u32, bid: Micros) -> Result<FactParts, AllocError>
    ensures { IfOk result (λ p. p ≡ facts_of number bid) }
{
    let seat = numbered_text(alloc, b"s", number)?;
    let adomain = advertiser_domain(alloc, number)?;
    let adm = numbered_text(alloc, b"ad ", number)?;
    let crid = numbered_text(alloc, b"cr", number)?;
    Ok(FactParts {
        seat,
        adomain,
        cat: List::new(alloc),
        w: None,
        h: None,
        attr: List::new(alloc),
        secure: true,
        bid,
        deals: List::new(alloc),
        budget: budget(),
        adm,
        crid,
        adid: None,
        cap: None,
    })
}

// The number behind a text.
fn numbered_text(alloc: Global, front: &[u8], number: u32) -> Result<Txt, AllocError>
    ensures { IfOk result (λ t. t ≡ front.now ++ decimal number) }
{
    let mut text = Txt::new(alloc);
    text.extend(front)?;
    write_decimal(u64::from(number), &mut text)?;
    Ok(text)
}

// The domain of the advertiser of that number.
fn advertiser_domain(alloc: Global, number: u32) -> Result<Txt, AllocError>
    ensures { IfOk result (λ t. t ≡ codes "ad" ++ decimal number ++ codes ".example") }
{
    let mut domain = numbered_text(alloc, b"ad", number)?;
    domain.extend(b".example")?;
    Ok(domain)
}

// A million dollars, in nano-dollars.
const BUDGET: u64 = 1_000_000_000_000_000;

fn budget() -> Nanos
    ensures { result ≡ 10 ^ 15 }
{
    match Nanos::new(BUDGET) {
        Some(budget) => budget,
        None => unreachable!(),
    }
}

// The target of a campaign that wants the domain, or any.
fn target(alloc: Global, domain: Option<&[u8]>) -> Result<Expr, AllocError>
    requires { IsTrue (is_short (option_map (λ d. d.now) domain)) }
    ensures { IfOk result (λ e. e ≡ target_of (option_map (λ d. d.now) domain.entry)) }
{
    let written = raw_target(alloc, domain)?;
    match Expr::make(alloc, &written) {
        Ok(target) => Ok(target),
        Err(fault) => Err(want_of_memory(fault)),
    }
}

// The conjunctions that a campaign states.
fn raw_target(alloc: Global, domain: Option<&[u8]>) -> Result<List<List<RawPred>>, AllocError>
    ensures { IfOk result (λ raw. raw ≡ raw_target_of (option_map (λ d. d.now) domain.entry)) }
{
    let mut conjunction = List::new(alloc);
    if let Some(domain) = domain {
        conjunction.push(domain_pred(alloc, domain)?)?;
    }
    let mut conjunctions = List::new(alloc);
    conjunctions.push(conjunction)?;
    Ok(conjunctions)
}

// `domain in [DOMAIN]`.
fn domain_pred(alloc: Global, domain: &[u8]) -> Result<RawPred, AllocError>
    ensures { IfOk result (λ p. p ≡ record { attr = codes "domain"; negated = false; values = domain.now ∷ [] }) }
{
    let mut values = List::new(alloc);
    values.push(Txt::from_slice(alloc, domain)?)?;
    Ok(RawPred {
        attr: Txt::from_slice(alloc, b"domain")?,
        negated: false,
        values,
    })
}

// Want of memory, the only fault that is left.
fn want_of_memory(fault: ExprFault) -> AllocError
    requires { fault ≡ Memory }
{
    match fault {
        ExprFault::Memory => AllocError,
        _ => unreachable!(),
    }
}
