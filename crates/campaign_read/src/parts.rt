//! The fields of a body: texts, amounts, sides and flags.
ghost use Rattle.std.specs.Prelude.{◌≡◌, ◌*◌, ◌++◌, [], option_map, IfOk};
ghost use Rattle.exact_json.specs.Forms.{HasForms};
ghost use Rattle.exact_json.specs.View.{tree_of};
ghost use Rattle.json_fields.specs.Answers.{Answers, map_ok};
ghost use Rattle.json_fields.specs.Readings.{Reading, with_faults};
ghost use Rattle.campaign_read.specs.Campaign.{parts_in};
ghost use Rattle.campaign_read.specs.Parts.{amount_field, fault_of, flag_field, optional_text, optional_whole, side_bounds, text_field};

use crate::cap::cap_field;
use crate::fault::CampFault;
use crate::lists::{ListField, attr_field, texts_field};
use campaign::{CampField, FactParts};
use exact_json::Value;
use json_fields as fields;
use json_fields::{Bounds, Flaw};
use rtb_num::{List, Micros, Nanos, Txt};
use std::alloc::{AllocError, Global};

// The flaw of the field.
pub(crate) fn fault(field: CampField, flaw: Flaw) -> CampFault
    ensures { result ≡ fault_of field flaw }
{
    match flaw {
        Flaw::Missing => CampFault::Missing { field },
        Flaw::WrongType => CampFault::WrongType { field },
        Flaw::Range => CampFault::Range { field },
        Flaw::Price(fault) => CampFault::Price { field, fault },
    }
}

// A text.
#[tactic(auto, unfolding(crate::specs::Parts::text_field))]
pub(crate) fn text_field(
    alloc: Global,
    object: &Value<'_>,
    field: CampField,
) -> Result<Txt, CampFault>
    ensures { Answers CampFault.Memory (text_field field (tree_of object.now)) result }
{
    match fields::required_text(object, field.member()) {
        Ok(text) => Ok(Txt::from_slice(alloc, text)?),
        Err(flaw) => Err(fault(field, flaw)),
    }
}

// The fields other than the target, in the order in which they are read.
pub(crate) fn parts_in(alloc: Global, body: &Value<'_>) -> Result<FactParts, CampFault>
    requires forms { HasForms (tree_of body.now) }
    ensures { Answers CampFault.Memory (parts_in (tree_of body.now)) result }
{
    let mut parts = blank_parts(alloc);
    let filled = fill_parts(alloc, body, &mut parts);
    kept(parts, filled)
}

// The value, once all of it was filled in.
pub(crate) fn kept<T: Drop>(value: T, filled: Result<(), CampFault>) -> Result<T, CampFault>
    ensures { result ≡ map_ok (λ _. value) filled }
{
    match filled {
        Ok(()) => Ok(value),
        Err(fault) => Err(fault),
    }
}

// Fields in which nothing is filled yet.
fn blank_parts(alloc: Global) -> FactParts {
    FactParts {
        seat: Txt::new(alloc),
        adomain: Txt::new(alloc),
        cat: List::new(alloc),
        w: None,
        h: None,
        attr: List::new(alloc),
        secure: false,
        bid: Micros::new(0).unwrap(),
        deals: List::new(alloc),
        budget: Nanos::new(0).unwrap(),
        adm: Txt::new(alloc),
        crid: Txt::new(alloc),
        adid: None,
        cap: None,
    }
}

// Fills in each field; the budget in nano-dollars.
#[tactic(auto, using(json_fields::proofs::First::firsts), unfolding(crate::specs::Campaign::parts_in))]
fn fill_parts(alloc: Global, body: &Value<'_>, parts: &mut FactParts) -> Result<(), CampFault>
    requires forms { HasForms (tree_of body.now) }
    ensures { Answers CampFault.Memory (parts_in (tree_of body.now)) (map_ok (λ _. parts.new) result) }
{
    parts.seat = text_field(alloc, body, CampField::Seat)?;
    parts.adomain = text_field(alloc, body, CampField::Adomain)?;
    parts.cat = texts_field(alloc, body, ListField::Cat)?;
    parts.w = side_field(body, CampField::W)?;
    parts.h = side_field(body, CampField::H)?;
    parts.attr = attr_field(alloc, body)?;
    parts.secure = secure_field(body)?;
    parts.bid = amount_field(body, CampField::Bid)?;
    parts.deals = texts_field(alloc, body, ListField::Deals)?;
    let budget = amount_field(body, CampField::Budget)?;
    parts.budget = nanos(budget);
    parts.adm = text_field(alloc, body, CampField::Adm)?;
    parts.crid = text_field(alloc, body, CampField::Crid)?;
    parts.adid = adid_field(alloc, body)?;
    parts.cap = cap_field(body)?;
    Ok(())
}

// What two fields hold, or the fault of the first that has one. A value of a type parameter is let go of in one
// step, so a reader that ends in this lets go of nothing field by field.
#[tactic(auto, using(json_fields::proofs::First::firsts))]
pub(crate) fn both<A: Drop, B: Drop>(
    first: Result<A, CampFault>,
    second: Result<B, CampFault>,
) -> Result<(A, B), CampFault>
    ensures { (a : Reading CampFault A) (b : Reading CampFault B) → Answers CampFault.Memory a first → Answers CampFault.Memory b second → Answers CampFault.Memory (with_faults (a.faults ++ (b.faults ++ [])) (a.value, b.value)) result }
{
    match first {
        Ok(first) => match second {
            Ok(second) => Ok((first, second)),
            Err(fault) => Err(fault),
        },
        Err(fault) => Err(fault),
    }
}

// A side of the creative has 1 to 32767 pixels.
const SIDE: Bounds = Bounds {
    least: 1,
    greatest: 32_767,
};

// A side of the creative, which may be absent.
#[tactic(auto, unfolding(crate::specs::Parts::optional_whole))]
fn side_field(body: &Value<'_>, field: CampField) -> Result<Option<i32>, CampFault>
    requires forms { HasForms (tree_of body.now) }
    ensures { Answers CampFault.Memory (optional_whole side_bounds field (tree_of body.now)) result }
{
    match fields::whole_number(body, field.member(), &SIDE) {
        Ok(found) => Ok(found),
        Err(flaw) => Err(fault(field, flaw)),
    }
}

#[tactic(auto, unfolding(crate::specs::Parts::flag_field))]
fn secure_field(body: &Value<'_>) -> Result<bool, CampFault>
    requires forms { HasForms (tree_of body.now) }
    ensures { Answers CampFault.Memory (flag_field CampField.Secure (tree_of body.now)) result }
{
    match fields::flag(body, CampField::Secure.member()) {
        Ok(found) => Ok(found),
        Err(flaw) => Err(fault(CampField::Secure, flaw)),
    }
}

// An amount in US dollars.
#[tactic(auto, unfolding(crate::specs::Parts::amount_field))]
fn amount_field(body: &Value<'_>, field: CampField) -> Result<Micros, CampFault>
    requires forms { HasForms (tree_of body.now) }
    ensures { Answers CampFault.Memory (amount_field field (tree_of body.now)) result }
{
    match fields::exact_price(body, field.member()) {
        Ok(found) => Ok(found),
        Err(flaw) => Err(fault(field, flaw)),
    }
}

// So many micro-dollars in nano-dollars.
fn nanos(amount: Micros) -> Nanos
    ensures { result ≡ amount * 1000 }
{
    Nanos::new(amount.get() * 1000).unwrap()
}

#[tactic(auto, unfolding(crate::specs::Parts::optional_text))]
fn adid_field(alloc: Global, body: &Value<'_>) -> Result<Option<Txt>, CampFault>
    ensures { Answers CampFault.Memory (optional_text CampField.Adid (tree_of body.now)) result }
{
    match fields::text(body, CampField::Adid.member()) {
        Ok(found) => Ok(copy_of(alloc, found)?),
        Err(flaw) => Err(fault(CampField::Adid, flaw)),
    }
}

fn copy_of(alloc: Global, text: Option<&[u8]>) -> Result<Option<Txt>, AllocError>
    ensures { IfOk result (λ t. t ≡ option_map (λ s. s.now) text.entry) }
{
    match text {
        Some(text) => Ok(Some(Txt::from_slice(alloc, text)?)),
        None => Ok(None),
    }
}
