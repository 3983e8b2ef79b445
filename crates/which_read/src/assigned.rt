//! The assignment of a request for the best expressions.
ghost use Rattle.std.specs.Prelude.{◌≡◌, ◌++◌, [], ◌<◌, not, option_map, map, List, None, is_some, IfOk, OnOk, IsTrue};
ghost use Rattle.std.specs.List.{list_all};
ghost use Rattle.std.specs.Option.{option_to_list};
ghost use Rattle.exact_json.specs.View.{pair_of as member_of, tree_of};
ghost use Rattle.json_fields.specs.Answers.{Answers, map_ok, value_or};
ghost use Rattle.json_fields.specs.Fields.{as_text, optional, present};
ghost use Rattle.target_expr.specs.Attributes.{attr_named, name_of};
ghost use Rattle.which_read.specs.Assigned.{assigned_in, assignment_field, is_assigned, is_text, members_in, object_in, pair_of, pairs_from};
ghost use Rattle.which_read.specs.Numbered.{pair_numbered};
ghost use Rattle.which_read.specs.declared.fault.WhichFault.{WhichFault};

use crate::fault::WhichFault;
use crate::field::WhichField;
use crate::parts::fault;
use exact_json::{Member, Value};
use json_fields as fields;
use json_fields::Flaw;
use rtb_num::{List, Txt};
use std::alloc::{AllocError, Global};
use target_expr::{Assignment, Attr, attr_named};

/// The assignment of a request, or the fault of its field. Each member has to name an attribute and to be a text, and
/// of members of one name the last counts.
#[tactic(auto, unfolding(crate::specs::Assigned::assignment_field))]
pub fn assignment_field(alloc: Global, body: &Value<'_>) -> Result<Assignment, WhichFault>
    ensures { Answers WhichFault.Memory (assignment_field (tree_of body.now)) result }
{
    match object_in(body, WhichField::Assignment.member()) {
        Ok(assigned) => assignment_in(alloc, assigned),
        Err(flaw) => Err(fault(WhichField::Assignment, flaw)),
    }
}

// The object of that name, which has to be there.
#[tactic(auto, unfolding(crate::specs::Assigned::object_in, json_fields::specs::Fields::required))]
fn object_in<'a>(body: &Value<'a>, name: &[u8]) -> Result<&'a Value<'a>, Flaw>
    ensures { map_ok (λ v. tree_of v.now) result ≡ object_in name.now (tree_of body.now) }
{
    match fields::present(body, name) {
        Some(value) => fields::object_in(value),
        None => Err(Flaw::Missing),
    }
}

#[tactic(auto, unfolding(crate::specs::Assigned::assigned_in))]
fn assignment_in(alloc: Global, assigned: &Value<'_>) -> Result<Assignment, WhichFault>
    ensures { Answers WhichFault.Memory (assigned_in (tree_of assigned.now)) result }
{
    if !are_assigned(assigned) {
        return Err(WhichFault::WrongType {
            field: WhichField::Assignment,
        });
    }
    let pairs = pairs_in(alloc, assigned)?;
    Ok(Assignment::make(pairs))
}

// Whether each member is named as an attribute and is a text.
fn are_assigned(assigned: &Value<'_>) -> bool
    ensures { result ≡ list_all is_assigned (members_in (tree_of assigned.now)) }
{
    each_is_assigned(members_in(assigned))
}

#[tactic(auto, unfolding(crate::specs::Assigned::members_in))]
fn members_in<'a>(assigned: &Value<'a>) -> &'a [Member<'a>]
    ensures { map member_of result.now ≡ members_in (tree_of assigned.now) }
{
    match assigned {
        Value::Obj(members) => *members,
        _ => &[],
    }
}

fn each_is_assigned(members: &[Member<'_>]) -> bool
    ensures { result ≡ list_all (λ m. is_assigned (member_of m)) members.now }
{
    members.iter().all(|member| is_assigned(member))
}

fn is_assigned(member: &Member<'_>) -> bool
    ensures { result ≡ is_assigned (member_of member.now) }
{
    is_attribute(member.name) && is_text(&member.value)
}

fn is_attribute(name: &[u8]) -> bool
    ensures { result ≡ is_some (attr_named name.now) }
{
    attr_named(name).is_some()
}

#[tactic(auto, unfolding(crate::specs::Assigned::is_text))]
fn is_text(value: &Value<'_>) -> bool
    ensures { result ≡ is_text (tree_of value.now) }
{
    match fields::text_in(value) {
        Ok(_) => true,
        Err(_) => false,
    }
}

/// How many attributes there are.
const ATTRIBUTES: u8 = 22;

// The attributes that have a text, in the order of their numbers.
fn pairs_in(alloc: Global, assigned: &Value<'_>) -> Result<List<(Attr, Txt)>, AllocError>
    ensures { IfOk result (λ ps. ps ≡ pairs_from (tree_of assigned.now)) }
{
    let mut pairs = List::new(alloc);
    for before in 0..ATTRIBUTES {
        push_numbered(alloc, &mut pairs, before + 1, assigned)?;
    }
    Ok(pairs)
}

// Appends the attribute of that number, where it has a text.
fn push_numbered(
    alloc: Global,
    pairs: &mut List<(Attr, Txt)>,
    number: u8,
    assigned: &Value<'_>,
) -> Result<(), AllocError>
    ensures { OnOk result (pairs.new ≡ pairs.old ++ option_to_list (pair_numbered (tree_of assigned.now) number)) }
{
    match Attr::with_number(number) {
        Some(attr) => push_pair(alloc, pairs, attr, assigned),
        None => Ok(()),
    }
}

fn push_pair(
    alloc: Global,
    pairs: &mut List<(Attr, Txt)>,
    attr: Attr,
    assigned: &Value<'_>,
) -> Result<(), AllocError>
    ensures { OnOk result (pairs.new ≡ pairs.old ++ option_to_list (pair_of (tree_of assigned.now) attr)) }
{
    match text_of(assigned, attr) {
        Some(text) => pairs.push((attr, Txt::from_slice(alloc, text)?)),
        None => Ok(()),
    }
}

// The text of the attribute, where it has one.
fn text_of<'a>(assigned: &Value<'a>, attr: Attr) -> Option<&'a [u8]>
    ensures { option_map (λ t. t.now) result ≡ value_or None (optional as_text (present (name_of attr) (tree_of assigned.now))) }
{
    match fields::text(assigned, attr.name()) {
        Ok(text) => text,
        Err(_) => None,
    }
}
