//! Calls of `rtb_macros`: markup with its macros filled in.
use case_lines::done;
use rtb_macros::{MacroValues, substitute};
use rtb_num::Txt;
use std::alloc::{AllocError, Global};

/// Answers a call of this area, or tells that it is none.
///
/// - `substitute | MARKUP | REQUEST | BID | IMP | SEAT | PRICE`, and behind them the `adid` where there is
///   one: the markup with the values in the places of its macros.
pub fn answer(alloc: Global, call: &[u8], args: &[Txt], out: &mut Txt) -> Result<bool, AllocError> {
    match args {
        [markup, values @ ..] if call == b"substitute".as_slice() => done(fill(
            alloc,
            markup.as_bytes(),
            values,
            out,
        )),
        _ => Ok(false),
    }
}

fn fill(alloc: Global, markup: &[u8], values: &[Txt], out: &mut Txt) -> Result<(), AllocError> {
    match values_in(alloc, values)? {
        Some(values) => {
            let filled = substitute(alloc, markup, &values)?;
            out.extend(filled.as_bytes())
        }
        None => out.extend(b"unreadable"),
    }
}

fn values_in(alloc: Global, words: &[Txt]) -> Result<Option<MacroValues>, AllocError> {
    match words {
        [auction, bid, imp, seat, price, rest @ ..] => {
            let mut values = bare(alloc);
            set_ids(&mut values, auction, bid, imp)?;
            set_buyer(&mut values, seat, price)?;
            set_ad(&mut values, rest)?;
            Ok(Some(values))
        }
        _ => Ok(None),
    }
}

// Values whose texts are empty.
fn bare(alloc: Global) -> MacroValues {
    MacroValues {
        auction: Txt::new(alloc),
        bid: Txt::new(alloc),
        imp: Txt::new(alloc),
        seat: Txt::new(alloc),
        ad: None,
        price: Txt::new(alloc),
    }
}

fn set_ids(
    values: &mut MacroValues,
    auction: &Txt,
    bid: &Txt,
    imp: &Txt,
) -> Result<(), AllocError> {
    values.auction.extend(auction.as_bytes())?;
    values.bid.extend(bid.as_bytes())?;
    values.imp.extend(imp.as_bytes())
}

fn set_buyer(values: &mut MacroValues, seat: &Txt, price: &Txt) -> Result<(), AllocError> {
    values.seat.extend(seat.as_bytes())?;
    values.price.extend(price.as_bytes())
}

fn set_ad(values: &mut MacroValues, words: &[Txt]) -> Result<(), AllocError> {
    if let [ad] = words {
        values.ad = Some(ad.copy()?);
    }
    Ok(())
}
