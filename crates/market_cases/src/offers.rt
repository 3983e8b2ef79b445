//! Calls of `clearing`: offers, terms, and what comes of them.
ghost use Rattle.std.specs.Prelude.{◌≡◌};
ghost use Rattle.std.specs.List.{list_all};
ghost use Rattle.clearing.specs.Clearing.{is_fit};

use case_lines::{done, number_in};
use clearing::{Offer, PriceKind, Terms, Win, clear};
use rtb_num::{Micros, Txt, write_decimal};
use std::alloc::{AllocError, Global};

/// Answers a call of this area, or tells that it is none.
///
/// - `clear | OFFERS | TERMS | .. | TERMS`: as `1 pays 1010000`, in micro-dollars, or `no sale`. OFFERS
///   has each offer as `CAMPAIGN:BID:POOL` with blanks between them, and the pools' terms are as
///   `second 0`, from pool 0 on. An offer that does not fit its pool's terms is `unfit`.
pub fn answer(alloc: Global, call: &[u8], args: &[Txt], out: &mut Txt) -> Result<bool, AllocError> {
    match args {
        [offers, terms @ ..] if call == b"clear".as_slice() => done(sell(
            alloc,
            offers.as_bytes(),
            terms,
            out,
        )),
        _ => Ok(false),
    }
}

fn sell(alloc: Global, offers: &[u8], terms: &[Txt], out: &mut Txt) -> Result<(), AllocError> {
    let Some(offers) = offers_in(alloc, offers)? else {
        return out.extend(b"unreadable");
    };
    let Some(terms) = all_terms_in(alloc, terms)? else {
        return out.extend(b"unreadable");
    };
    if !are_fit(&offers, &terms) {
        return out.extend(b"unfit");
    }
    put_sale(clear(&offers, &terms), out)
}

fn put_sale(sale: Option<Win>, out: &mut Txt) -> Result<(), AllocError> {
    match sale {
        Some(win) => {
            write_decimal(u64::from(win.campaign), out)?;
            out.extend(b" pays ")?;
            write_decimal(win.price.get(), out)
        }
        None => out.extend(b"no sale"),
    }
}

// Whether each offer is at least the floor of its pool.
fn are_fit(offers: &[Offer], terms: &[Terms]) -> bool
    ensures { result ≡ list_all (is_fit terms.now) offers.now }
{
    offers.iter().all(|offer| is_fit(offer, terms))
}

fn is_fit(offer: &Offer, terms: &[Terms]) -> bool
    ensures { result ≡ is_fit terms.now offer.now }
{
    match terms.get(offer.pool) {
        Some(terms) => terms.floor <= offer.bid,
        None => false,
    }
}

fn offers_in(alloc: Global, text: &[u8]) -> Result<Option<Vec<Offer>>, AllocError> {
    let mut offers = Vec::new(alloc);
    if text.is_empty() {
        return Ok(Some(offers));
    }
    for word in text.split(|c| *c == b' ') {
        match offer_in(word) {
            Some(offer) => offers.push(offer)?,
            None => return Ok(None),
        }
    }
    Ok(Some(offers))
}

fn offer_in(word: &[u8]) -> Option<Offer> {
    let mut numbers = word.split(|c| *c == b':');
    let campaign = number_in(numbers.next()?)?;
    let bid = Micros::new(number_in(numbers.next()?)?)?;
    let pool = number_in(numbers.next()?)?;
    Some(Offer {
        campaign: u32::try_from(campaign).ok()?,
        bid,
        pool: usize::try_from(pool).ok()?,
    })
}

fn all_terms_in(alloc: Global, texts: &[Txt]) -> Result<Option<Vec<Terms>>, AllocError> {
    let mut all = Vec::new(alloc);
    for text in texts {
        match terms_in(text.as_bytes()) {
            Some(terms) => all.push(terms)?,
            None => return Ok(None),
        }
    }
    Ok(Some(all))
}

fn terms_in(text: &[u8]) -> Option<Terms> {
    let mut words = text.split(|c| *c == b' ');
    let kind = kind_in(words.next()?)?;
    let floor = Micros::new(number_in(words.next()?)?)?;
    Some(Terms { floor, kind })
}

fn kind_in(word: &[u8]) -> Option<PriceKind> {
    if word == b"first".as_slice() {
        return Some(PriceKind::First);
    }
    if word == b"second".as_slice() {
        return Some(PriceKind::Second);
    }
    if word == b"agreed".as_slice() {
        return Some(PriceKind::Agreed);
    }
    None
}
