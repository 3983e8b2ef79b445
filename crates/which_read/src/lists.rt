//! Lists of texts, which stay where they were read.
#![tactic(auto, unfolding(json_fields::specs::Items::item_at, json_fields::specs::Items::list_in))]

ghost use Rattle.std.specs.Prelude.{[], map};
ghost use Rattle.exact_json.specs.View.{tree_of};
ghost use Rattle.json_fields.specs.Answers.{Answers};
ghost use Rattle.json_fields.specs.Fields.{as_text, present};
ghost use Rattle.json_fields.specs.Items.{item_at, items_in, list_in};
ghost use Rattle.json_fields.specs.Readings.{with_faults};

use cnf_match::Listed;
use exact_json::Value;
use json_fields as fields;
use json_fields::ListFlaw;

// A list of texts, and the empty one where it is absent.
#[inline(always)]
pub(crate) fn texts<'a>(object: &Value<'a>, name: &[u8]) -> Result<Listed<'a>, ListFlaw>
    ensures { Answers ListFlaw.Memory (list_in [] as_text (present name.now (tree_of object.now))) result }
{
    match fields::array(object, name) {
        Ok(Some(values)) => all_texts(values),
        Ok(None) => Ok(Listed::new(&[])),
        Err(flaw) => Err(ListFlaw::Whole(flaw)),
    }
}

fn all_texts<'a>(values: &'a [Value<'a>]) -> Result<Listed<'a>, ListFlaw>
    ensures { Answers ListFlaw.Memory (items_in [] as_text (map tree_of values.now)) result }
{
    for (place, value) in values.iter().enumerate() {
        check_text(place, value)?;
    }
    Ok(Listed::new(values))
}

// Whether the element at the place is a text.
#[inline(always)]
fn check_text(place: usize, value: &Value<'_>) -> Result<(), ListFlaw>
    ensures { Answers ListFlaw.Memory (with_faults (item_at [] as_text place (tree_of value.now)).faults tt) result }
{
    match fields::text_in(value) {
        Ok(_) => Ok(()),
        Err(flaw) => Err(ListFlaw::Item(place, flaw)),
    }
}
