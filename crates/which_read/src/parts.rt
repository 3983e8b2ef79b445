//! The fields of a request: texts, numbers and lists.
ghost use Rattle.std.specs.Prelude.{◌≡◌, ◌++◌, ◌∷◌, [], is_some, OnOk};
ghost use Rattle.exact_json.specs.Forms.{HasForms};
ghost use Rattle.exact_json.specs.View.{tree_of};
ghost use Rattle.json_fields.specs.Answers.{Answers, map_ok};
ghost use Rattle.json_fields.specs.Fields.{as_whole, present, required};
ghost use Rattle.json_fields.specs.Readings.{Reading, with_faults};
ghost use Rattle.which_read.specs.Parts.{fault_of, list_fault, number_field, text_field, texts_field};
ghost use Rattle.which_read.specs.Paths.{member_name};
ghost use Rattle.which_read.specs.declared.fault.WhichFault.{WhichFault};

use crate::fault::WhichFault;
use crate::field::WhichField;
use crate::lists::texts;
use cnf_match::{Listed, NameView, TextView};
use exact_json::Value;
use json_fields as fields;
use json_fields::{Bounds, Flaw, ListFlaw};
use rtb_num::List;
use std::alloc::AllocError;

// The flaw of the field.
pub(crate) fn fault(field: WhichField, flaw: Flaw) -> WhichFault
    ensures { result ≡ fault_of field flaw }
{
    match flaw {
        Flaw::Missing => WhichFault::Missing { field },
        Flaw::WrongType => WhichFault::WrongType { field },
        Flaw::Range | Flaw::Price(_) => WhichFault::Range { field },
    }
}

// A text that has to be there.
#[inline(always)]
#[tactic(auto, unfolding(crate::specs::Parts::text_field))]
pub(crate) fn text_field<'a>(
    object: &Value<'a>,
    field: WhichField,
) -> Result<TextView<'a>, WhichFault>
    ensures { Answers WhichFault.Memory (text_field field (tree_of object.now)) result }
{
    match fields::required_text(object, field.member()) {
        Ok(text) => Ok(TextView::new(text)),
        Err(flaw) => Err(fault(field, flaw)),
    }
}

// The name of an attribute, which has to be there.
#[inline(always)]
#[tactic(auto, unfolding(crate::specs::Parts::text_field))]
pub(crate) fn name_field<'a>(
    object: &Value<'a>,
    field: WhichField,
) -> Result<NameView<'a>, WhichFault>
    ensures { Answers WhichFault.Memory (text_field field (tree_of object.now)) result }
{
    match fields::required_text(object, field.member()) {
        Ok(text) => Ok(NameView::new(text)),
        Err(flaw) => Err(fault(field, flaw)),
    }
}

// A whole number that has to be there, within bounds from 0 on.
#[inline(always)]
#[tactic(auto, unfolding(crate::specs::Parts::number_field))]
pub(crate) fn number_field(
    object: &Value<'_>,
    field: WhichField,
    bounds: &Bounds,
) -> Result<u32, WhichFault>
    requires forms { HasForms (tree_of object.now) }
    ensures { Answers WhichFault.Memory (number_field bounds.now field (tree_of object.now)) result }
{
    match required_whole(object, field.member(), bounds) {
        Ok(n) => Ok(n.unsigned_abs()),
        Err(flaw) => Err(fault(field, flaw)),
    }
}

#[inline(always)]
#[tactic(auto, using(crate::proofs::Required::there, crate::proofs::Required::absent, crate::proofs::Required::flawed))]
fn required_whole(object: &Value<'_>, name: &[u8], bounds: &Bounds) -> Result<i32, Flaw>
    requires forms { HasForms (tree_of object.now) }
    ensures { result ≡ required (as_whole bounds.now) (present name.now (tree_of object.now)) }
{
    match fields::whole_number(object, name, bounds) {
        Ok(Some(n)) => Ok(n),
        Ok(None) => Err(Flaw::Missing),
        Err(flaw) => Err(flaw),
    }
}

// A list of texts, which may be absent. Whether it is there is known, so one that is not is not looked up.
#[inline(always)]
pub(crate) fn texts_where<'a>(
    there: bool,
    object: &Value<'a>,
    field: WhichField,
) -> Result<Listed<'a>, WhichFault>
    requires { there ≡ is_some (present (member_name field) (tree_of object.now)) }
    ensures { Answers WhichFault.Memory (texts_field field (tree_of object.now)) result }
{
    if !there {
        return Ok(Listed::new(&[]));
    }
    texts_field(object, field)
}

// A list of texts, which may be absent.
#[inline(always)]
#[tactic(auto, using(json_fields::proofs::First::firsts_mapped), unfolding(crate::specs::Parts::texts_field))]
fn texts_field<'a>(object: &Value<'a>, field: WhichField) -> Result<Listed<'a>, WhichFault>
    ensures { Answers WhichFault.Memory (texts_field field (tree_of object.now)) result }
{
    match texts(object, field.member()) {
        Ok(texts) => Ok(texts),
        Err(flaw) => Err(list_fault(field, flaw)),
    }
}

fn list_fault(field: WhichField, flaw: ListFlaw) -> WhichFault
    ensures { result ≡ list_fault field flaw }
{
    match flaw {
        ListFlaw::Whole(flaw) => fault(field, flaw),
        ListFlaw::Item(place, flaw) => fault(field.item(place), flaw),
        ListFlaw::Memory => WhichFault::Memory,
    }
}

// What two fields hold, or the fault of the first that has one. A value of a type parameter is let go of in one
// step, so a reader that ends in this lets go of nothing field by field.
#[tactic(auto, using(json_fields::proofs::First::firsts))]
pub(crate) fn both<A: Drop, B: Drop>(
    first: Result<A, WhichFault>,
    second: Result<B, WhichFault>,
) -> Result<(A, B), WhichFault>
    ensures { (a : Reading WhichFault A) (b : Reading WhichFault B) → Answers WhichFault.Memory a first → Answers WhichFault.Memory b second → Answers WhichFault.Memory (with_faults (a.faults ++ (b.faults ++ [])) (a.value, b.value)) result }
{
    match first {
        Ok(first) => match second {
            Ok(second) => Ok((first, second)),
            Err(fault) => Err(fault),
        },
        Err(fault) => Err(fault),
    }
}

// The items of a list, unless one could not be read.
pub(crate) fn filled<T: Drop>(
    items: Vec<T>,
    read: Result<(), WhichFault>,
) -> Result<List<T>, WhichFault>
    ensures { result ≡ map_ok (λ _. items.items) read }
{
    match read {
        Ok(()) => Ok(List::from_vec(items)),
        Err(fault) => Err(fault),
    }
}

// Appends one more.
pub(crate) fn push<T: Drop>(items: &mut Vec<T>, item: T) -> Result<(), AllocError>
    ensures { OnOk result (items.new.items ≡ items.old.items ++ item ∷ []) }
{
    items.push(item)?;
    Ok(())
}
