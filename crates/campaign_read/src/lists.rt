//! The lists of a body: categories, attributes and deals.
#![tactic(auto, using(json_fields::proofs::First::firsts_mapped), unfolding(crate::specs::Parts::texts_field, crate::specs::Parts::wholes_field))]

ghost use Rattle.std.specs.Prelude.{◌≡◌};
ghost use Rattle.exact_json.specs.Forms.{HasForms};
ghost use Rattle.exact_json.specs.View.{tree_of};
ghost use Rattle.json_fields.specs.Answers.{Answers};
ghost use Rattle.campaign_read.specs.Parts.{attr_bounds, list_fault, list_item, list_whole, texts_field, wholes_field};

use crate::fault::CampFault;
use crate::parts::fault;
use campaign::CampField;
use exact_json::Value;
use json_fields as fields;
use json_fields::{Bounds, ListFlaw};
use rtb_num::{List, Txt};
use std::alloc::Global;

// A list of a campaign, or of a predicate by the places of its conjunction and of its own.
#[derive(Clone, Copy)]
pub(crate) enum ListField {
    Cat,
    Attr,
    Deals,
    In(usize, usize),
    Not(usize, usize),
}

impl ListField {
    // The list itself.
    fn whole(self) -> CampField
        ensures { result ≡ list_whole self }
    {
        match self {
            ListField::Cat => CampField::Cat,
            ListField::Attr => CampField::Attr,
            ListField::Deals => CampField::Deals,
            ListField::In(i, j) => CampField::In(i, j),
            ListField::Not(i, j) => CampField::Not(i, j),
        }
    }

    // The element at the place.
    fn item(self, place: usize) -> CampField
        ensures { result ≡ list_item self place }
    {
        match self {
            ListField::Cat => CampField::CatItem(place),
            ListField::Attr => CampField::AttrItem(place),
            ListField::Deals => CampField::DealsItem(place),
            ListField::In(i, j) => CampField::InItem(i, j, place),
            ListField::Not(i, j) => CampField::NotItem(i, j, place),
        }
    }
}

// A list of texts, which may be absent.
pub(crate) fn texts_field(
    alloc: Global,
    object: &Value<'_>,
    list: ListField,
) -> Result<List<Txt>, CampFault>
    ensures { Answers CampFault.Memory (texts_field list (tree_of object.now)) result }
{
    match fields::texts(alloc, object, list.whole().member()) {
        Ok(texts) => Ok(texts),
        Err(flaw) => Err(list_fault(list, flaw)),
    }
}

fn list_fault(list: ListField, flaw: ListFlaw) -> CampFault
    ensures { result ≡ list_fault list flaw }
{
    match flaw {
        ListFlaw::Whole(flaw) => fault(list.whole(), flaw),
        ListFlaw::Item(place, flaw) => fault(list.item(place), flaw),
        ListFlaw::Memory => CampFault::Memory,
    }
}

// An attribute of the creative is not negative.
const ATTR: Bounds = Bounds {
    least: 0,
    greatest: i32::MAX,
};

// The attributes of the creative, which may be absent.
pub(crate) fn attr_field(alloc: Global, object: &Value<'_>) -> Result<List<i32>, CampFault>
    requires forms { HasForms (tree_of object.now) }
    ensures { Answers CampFault.Memory (wholes_field attr_bounds ListField.Attr (tree_of object.now)) result }
{
    match fields::whole_numbers(alloc, object, CampField::Attr.member(), &ATTR) {
        Ok(attr) => Ok(attr),
        Err(flaw) => Err(list_fault(ListField::Attr, flaw)),
    }
}
