//! An expression read from bytes.
ghost use Rattle.std.specs.Prelude.{◌≡◌, None, Ok, Err, IfOk};
ghost use Rattle.byte_fields.specs.Codes.{IsReadAt};
ghost use Rattle.byte_fields.specs.Encodings.{CountsMore};
ghost use Rattle.target_expr.specs.Bytes.{IsDecoded, IsEncodable, attr_bytes, conjunction_bytes, expr_bytes, pred_bytes};
ghost use Rattle.target_expr.specs.Loose.{IsAttr, IsLooseConjunction, IsLoosePred};
ghost use Rattle.target_expr.specs.declared.decode.ExprBytes.TheVariants.{Memory as memory, Torn};

use crate::attr::Attr;
use crate::encode::put_pred;
use crate::expr::Expr;
use crate::order::is_kept;
use crate::pred::Pred;
use crate::{MOST_CONJUNCTIONS, MOST_PREDICATES, MOST_VALUES};
use byte_fields::{Element, Found, get_byte, get_flag, get_list, get_texts, put_list};
use rtb_num::{List, Txt};
use std::alloc::{AllocError, Global};
use std::fmt;
use thiserror::Error;

/// Why no expression is decoded.
#[derive(Clone, Copy, Error)]
pub enum ExprBytes {
    /// The bytes of no expression begin at this place.
    #[error("the bytes are of no expression")]
    Torn { at: usize },
    #[error("memory ran out")]
    Memory,
}

impl fmt::Debug for ExprBytes {
    // As it is told.
    fn fmt<W: fmt::Write>(&self, f: &mut fmt::Formatter<W>) -> fmt::Result {
        fmt::Display::fmt(self, f)
    }
}

impl From<AllocError> for ExprBytes {
    ghost from_gives = { λ _ f. f ≡ memory };

    fn from(_: AllocError) -> ExprBytes {
        ExprBytes::Memory
    }
}

impl Expr {
    /// The expression whose bytes begin at the place, counted from 0 and allowed past the end, and the
    /// place behind them.
    ///
    /// Bytes that `encode` does not write are torn: also where predicates or values stand in another
    /// order or twice, and where a limit is passed. A count past its limit is refused before memory is
    /// taken for it.
    pub fn decode(alloc: Global, bytes: &[u8], place: usize) -> Result<(Expr, usize), ExprBytes>
        ensures value { IsDecoded bytes.now place result }
        ensures counted { CountsMore 64 bytes.now place → result ≡ Err (Torn place) }
    {
        match get_expr(alloc, bytes, place)? {
            Some(found) => Ok(found),
            None => Err(ExprBytes::Torn { at: place }),
        }
    }
}

// The expression at the place.
fn get_expr(alloc: Global, bytes: &[u8], place: usize) -> Found<Expr>
    ensures value { IfOk result (IsReadAt IsEncodable expr_bytes bytes.now place) }
    ensures counted { CountsMore 64 bytes.now place → result ≡ Ok None }
{
    let found = get_list::<Conjunctions>(alloc, bytes, place, MOST_CONJUNCTIONS)?;
    let Some((all, next)) = found else {
        return Ok(None);
    };
    if is_kept(all.as_slice()) {
        Ok(Some((Expr::of(all.into_vec()), next)))
    } else {
        Ok(None)
    }
}

// The predicates of a conjunction, as the items of a list.
pub(crate) struct Preds;

impl Element for Preds {
    type Item = Pred;

    ghost IsValid = { IsLoosePred };

    ghost encode = { pred_bytes };

    fn put(item: &Pred, out: &mut Txt) -> Result<(), AllocError> {
        put_pred(item, out)
    }

    fn get(alloc: Global, bytes: &[u8], place: usize) -> Found<Pred> {
        get_pred(alloc, bytes, place)
    }
}

// The conjunctions of an expression, as the items of a list.
pub(crate) struct Conjunctions;

impl Element for Conjunctions {
    type Item = List<Pred>;

    ghost IsValid = { IsLooseConjunction };

    ghost encode = { conjunction_bytes };

    fn put(item: &List<Pred>, out: &mut Txt) -> Result<(), AllocError> {
        put_list::<Preds>(item.as_slice(), out)
    }

    fn get(alloc: Global, bytes: &[u8], place: usize) -> Found<List<Pred>> {
        get_list::<Preds>(alloc, bytes, place, MOST_PREDICATES)
    }
}

// The predicate at the place.
fn get_pred(alloc: Global, bytes: &[u8], place: usize) -> Found<Pred>
    ensures { IfOk result (IsReadAt IsLoosePred pred_bytes bytes.now place) }
{
    let Some((attr, place_of_flag)) = get_attr(bytes, place) else {
        return Ok(None);
    };
    let Some((negated, place_of_values)) = get_flag(bytes, place_of_flag) else {
        return Ok(None);
    };
    let Some((values, next)) = get_texts(alloc, bytes, place_of_values, MOST_VALUES)? else {
        return Ok(None);
    };
    let pred = Pred {
        attr,
        negated,
        values,
    };
    Ok(Some((pred, next)))
}

// The attribute whose number stands at the place.
fn get_attr(bytes: &[u8], place: usize) -> Option<(Attr, usize)>
    ensures { IsReadAt IsAttr attr_bytes bytes.now place result }
{
    let (n, next) = get_byte(bytes, place)?;
    let attr = Attr::with_number(n)?;
    Some((attr, next))
}
