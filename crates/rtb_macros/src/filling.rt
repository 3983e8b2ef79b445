//! Markup with the values of one sale in place of its macros.
ghost use Rattle.std.specs.Prelude.{◌≡◌, ◌<◌, ◌≤◌, ◌++◌, length, take, drop, nat_lt, false, None, IfOk};
ghost use Rattle.std.specs.List.{prefix_len};
ghost use Rattle.rtb_macros.specs.Macros.{filled_in, is_plain, macro_at, value_of};
ghost use Rattle.rtb_macros.specs.declared.filling.MacroValues.{MacroValues};

use crate::macros::{Macro, macro_of};
use rtb_num::Txt;
use std::alloc::{AllocError, Global};

/// What stands for the macros of one sale.
#[derive(Debug, Drop)]
pub struct MacroValues {
    /// The request's `id`.
    pub auction: Txt,
    /// The `id` of the bid object.
    pub bid: Txt,
    /// The impression's `id`.
    pub imp: Txt,
    /// The seat that bought.
    pub seat: Txt,
    /// The `adid` of the creative, where it has one.
    pub ad: Option<Txt>,
    /// The clearing price in US dollars per thousand impressions, as it is written in `price`.
    pub price: Txt,
}

/// Whether the markup may have a macro, as a `$` stands in it. Without one it stays as it is, whatever the values are.
pub fn may_have_macros(markup: &[u8]) -> bool
    ensures answer { result ≡ nat_lt (prefix_len is_plain markup.now) (length markup.now) }
    ensures none { result ≡ false → (v : MacroValues) → filled_in v markup.now ≡ markup.now }
{
    plain_front(markup) < markup.len()
}

/// The markup with each macro's value in its place, from left to right. What was put in is not looked at
/// again, and any other `${..}` stays as it is written.
pub fn substitute(alloc: Global, markup: &[u8], values: &MacroValues) -> Result<Txt, AllocError>
    ensures { IfOk result (λ t. t ≡ filled_in values.now markup.now) }
{
    let mut out = Txt::new(alloc);
    out.reserve(markup.len())?;
    let mut rest = markup;
    while !rest.is_empty() {
        let (text, used) = first_part(values, rest);
        out.extend(text)?;
        rest = &rest[used..];
    }
    Ok(out)
}

// What the first part of the markup becomes, a macro or what stands before the next `$`, and how many
// bytes it has.
fn first_part<'a>(values: &'a MacroValues, markup: &'a [u8]) -> (&'a [u8], usize)
    requires { 0 < length markup.now }
    ensures some { 0 < result.1 }
    ensures within { result.1 ≤ length markup.now }
    ensures text { filled_in values.now markup.now ≡ result.0.now ++ filled_in values.now (drop result.1 markup.now) }
{
    match macro_of(markup) {
        Some(found) => (value_in(values, found), found.name().len()),
        None => {
            let plain = plain_len(markup);
            (&markup[..plain], plain)
        }
    }
}

// How many bytes stay as they are: those before the next `$`, or the one that is such a `$`.
fn plain_len(markup: &[u8]) -> usize
    requires some { 0 < length markup.now }
    requires none { macro_at markup.now ≡ None }
    ensures some { 0 < result }
    ensures within { result ≤ length markup.now }
    ensures text { (v : MacroValues) → filled_in v markup.now ≡ take result markup.now ++ filled_in v (drop result markup.now) }
{
    let plain = plain_front(markup);
    if plain == 0 {
        return 1;
    }
    plain
}

// How many bytes stand before the first `$`.
fn plain_front(text: &[u8]) -> usize
    ensures { result ≡ prefix_len is_plain text.now }
{
    text.iter().take_while(|b| **b != b'$').count()
}

fn value_in<'a>(values: &'a MacroValues, found: Macro) -> &'a [u8]
    ensures { result.now ≡ value_of values.now found }
{
    match found {
        Macro::AuctionId => values.auction.as_bytes(),
        Macro::BidId => values.bid.as_bytes(),
        Macro::ImpId => values.imp.as_bytes(),
        Macro::SeatId => values.seat.as_bytes(),
        Macro::AdId => match &values.ad {
            Some(ad) => ad.as_bytes(),
            None => b"",
        },
        Macro::Price => values.price.as_bytes(),
        Macro::Currency => b"USD",
    }
}
