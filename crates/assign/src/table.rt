//! The assignment of an impression: the rows of its request, and the law that no attribute stands twice.
ghost use Rattle.std.specs.Prelude.{◌≡◌, ◌<◌, ◌++◌, length, get_or, option_and_then, option_map, IfOk, IsTrue, OnOk};
ghost use Rattle.std.specs.List.{flat_map};
ghost use Rattle.target_expr.specs.Truth.{are_single, value_at};
ghost use Rattle.rtb_types.specs.declared.request.BidRequest.{BidRequest as Request};
ghost use Rattle.rtb_types.specs.declared.request.Imp.{Imp as Impression};
ghost use Rattle.target_expr.specs.declared.attr.Attr.{Attr as Attribute};
ghost use Rattle.assign.specs.Rows.{pairs_of, rows, pair_of, text_at};

use crate::rows::{
    push_app, push_device, push_geo, push_imp, push_publisher, push_site, push_user,
};
use rtb_num::{List, Txt};
use rtb_types::{BidRequest, Device, Geo, Imp};
use std::alloc::{AllocError, Global};
use target_expr::{Assignment, Attr};

/// The values that the impression at the place, counted from 0, gives to the attributes.
#[tactic(auto, using(crate::proofs::Rising::pairs_single))]
pub fn assignment(alloc: Global, request: &BidRequest, imp: usize) -> Result<Assignment, AllocError>
    requires { imp < length request.now.imps }
    ensures { IfOk result (λ a. (d : Impression) → a ≡ pairs_of request.now (get_or request.now.imps imp d)) }
{
    let pairs = pairs(alloc, request, &request.imps.as_slice()[imp])?;
    Ok(Assignment::make(pairs))
}

// Room for the rows of the table.
const MOST_ROWS: usize = 22;

// The present rows.
fn pairs(alloc: Global, request: &BidRequest, imp: &Imp) -> Result<List<(Attr, Txt)>, AllocError>
    ensures { IfOk result (λ pairs. pairs ≡ pairs_of request.now imp.now) }
{
    let mut pairs = List::from_vec(Vec::with_capacity(alloc, MOST_ROWS)?);
    match push_rows(alloc, &mut pairs, request, imp) {
        Ok(()) => Ok(pairs),
        Err(AllocError) => {
            drop(pairs);
            Err(AllocError)
        }
    }
}

// Appends the present rows.
#[tactic(auto, using(crate::proofs::Rising::behind_groups))]
fn push_rows(
    alloc: Global,
    pairs: &mut List<(Attr, Txt)>,
    request: &BidRequest,
    imp: &Imp,
) -> Result<(), AllocError>
    ensures { OnOk result (pairs.new ≡ pairs.old ++ pairs_of request.now imp.now) }
{
    push_site(pairs, request.site.as_ref())?;
    push_app(pairs, request.app.as_ref())?;
    push_publisher(pairs, request.site.as_ref(), request.app.as_ref())?;
    push_geo(pairs, geo_of(request.device.as_ref()))?;
    push_device(alloc, pairs, request.device.as_ref())?;
    push_user(alloc, pairs, request.user.as_ref())?;
    push_imp(alloc, pairs, imp)?;
    Ok(())
}

fn geo_of(device: Option<&Device>) -> Option<&Geo>
    ensures { option_map (λ g. g.now) result ≡ option_and_then (λ d. d.geo) (option_map (λ d. d.now) device.entry) }
{
    match device {
        Some(device) => device.geo.as_ref(),
        None => None,
    }
}

/// The law of the table, with nothing to run: no attribute has two rows.
#[tactic(auto, using(crate::proofs::Rising::pairs_single))]
pub fn no_attribute_stands_twice()
    ensures { (r : Request) (i : Impression) → IsTrue (are_single (pairs_of r i)) }
{}

/// The law of the values, with nothing to run: what an attribute is assigned is the text of its row.
#[tactic(auto, using(crate::proofs::Rising::pairs_value))]
pub fn each_value_is_of_its_row()
    ensures { (r : Request) (i : Impression) (a : Attribute) → value_at (pairs_of r i) a ≡ text_at (rows r i) a }
{}
