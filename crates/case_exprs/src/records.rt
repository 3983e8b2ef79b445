//! Records of campaigns of which cases say the expression alone.
ghost use Rattle.std.specs.Prelude.{◌≡◌, ◌%◌, IfOk, IfSome};

use crate::kept;
use campaign::{FactParts, Facts};
use campaign_store::{SharedRecord, make_record};
use rtb_num::{List, Micros, Nanos, Txt};
use std::alloc::{AllocError, Global};
use target_expr::Expr;

/// The record of the least campaign with this expression; none where a part is refused.
pub fn least_record(alloc: Global, expr: Expr) -> Result<Option<SharedRecord>, AllocError> {
    match least_facts(alloc) {
        Ok(Some(facts)) => Ok(Some(make_record(alloc, facts, expr)?)),
        Ok(None) => {
            drop(expr);
            Ok(None)
        }
        Err(refused) => {
            drop(expr);
            Err(refused)
        }
    }
}

// The facts of the least campaign, with one byte of text in each of four fields; none where they are refused.
fn least_facts(alloc: Global) -> Result<Option<Facts>, AllocError> {
    let (Some(bid), Some(budget)) = (Micros::new(1), Nanos::new(1_000)) else {
        return Ok(None);
    };
    let mut parts = bare_parts(alloc, bid, budget);
    let filled = fill_parts(&mut parts);
    let parts = kept(parts, filled)?;
    if parts.budget.get() % 1_000 != 0 {
        drop(parts);
        return Ok(None);
    }
    Ok(Facts::make(parts).ok())
}

// The parts without their texts.
fn bare_parts(alloc: Global, bid: Micros, budget: Nanos) -> FactParts {
    FactParts {
        seat: Txt::new(alloc),
        adomain: Txt::new(alloc),
        cat: List::new(alloc),
        w: None,
        h: None,
        attr: List::new(alloc),
        secure: false,
        bid,
        deals: List::new(alloc),
        budget,
        adm: Txt::new(alloc),
        crid: Txt::new(alloc),
        adid: None,
        cap: None,
    }
}

fn fill_parts(parts: &mut FactParts) -> Result<(), AllocError> {
    parts.seat.push(b's')?;
    parts.adomain.push(b'd')?;
    parts.adm.push(b'm')?;
    parts.crid.push(b'c')
}
