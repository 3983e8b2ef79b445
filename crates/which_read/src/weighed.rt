//! The weights of an expression.
ghost use Rattle.std.specs.Prelude.{◌≡◌, [], map};
ghost use Rattle.std.specs.List.{All};
ghost use Rattle.exact_json.specs.Forms.{HasForms};
ghost use Rattle.exact_json.specs.View.{tree_of};
ghost use Rattle.json_fields.specs.Answers.{Answers, map_ok};
ghost use Rattle.json_fields.specs.Readings.{each_in};
ghost use Rattle.which_read.specs.Weighed.{weight_at, weight_in, weights_field};
ghost use Rattle.which_read.specs.declared.fault.WhichFault.{WhichFault};

use crate::fault::WhichFault;
use crate::field::WhichField;
use crate::parts::{fault, filled, name_field, number_field, push, text_field};
use cnf_match::RawWeight;
use exact_json::Value;
use json_fields as fields;
use json_fields::Bounds;
use rtb_num::List;
use std::alloc::Global;

// The weights of the expression at place `i`, which may be absent.
#[tactic(auto, unfolding(crate::specs::Weighed::weights_field))]
pub(crate) fn weights_field<'a>(
    alloc: Global,
    i: usize,
    expression: &Value<'a>,
) -> Result<List<RawWeight<'a>>, WhichFault>
    requires forms { HasForms (tree_of expression.now) }
    ensures { Answers WhichFault.Memory (weights_field i (tree_of expression.now)) result }
{
    match fields::array(expression, WhichField::Weights(i).member()) {
        Ok(Some(values)) => all_weights(alloc, i, values),
        Ok(None) => Ok(List::new(alloc)),
        Err(flaw) => Err(fault(WhichField::Weights(i), flaw)),
    }
}

fn all_weights<'a>(
    alloc: Global,
    i: usize,
    values: &[Value<'a>],
) -> Result<List<RawWeight<'a>>, WhichFault>
    requires forms { All (λ v. HasForms (tree_of v)) values.now }
    ensures { Answers WhichFault.Memory (each_in (weight_at i) (map tree_of values.now)) result }
{
    let mut weights = Vec::with_capacity(alloc, values.len())?;
    let read = push_weights(i, values, &mut weights);
    filled(weights, read)
}

// Appends them, where none was there.
fn push_weights<'a>(
    i: usize,
    values: &[Value<'a>],
    weights: &mut Vec<RawWeight<'a>>,
) -> Result<(), WhichFault>
    requires none { weights.old.items ≡ [] }
    requires forms { All (λ v. HasForms (tree_of v)) values.now }
    ensures { Answers WhichFault.Memory (each_in (weight_at i) (map tree_of values.now)) (map_ok (λ _. weights.new.items) result) }
{
    for (j, value) in values.iter().enumerate() {
        push(weights, weight_entry(i, j, value)?)?;
    }
    Ok(())
}

fn weight_entry<'a>(i: usize, j: usize, value: &Value<'a>) -> Result<RawWeight<'a>, WhichFault>
    requires forms { HasForms (tree_of value.now) }
    ensures { Answers WhichFault.Memory (weight_at i j (tree_of value.now)) result }
{
    match fields::object_in(value) {
        Ok(weight) => weight_in(i, j, weight),
        Err(flaw) => Err(fault(WhichField::Weight(i, j), flaw)),
    }
}

// What a value may weigh when it is read; that it weighs at most a million is tested when all has been read.
const WEIGHT: Bounds = Bounds {
    least: 0,
    greatest: i32::MAX,
};

#[tactic(auto, using(json_fields::proofs::First::firsts), unfolding(crate::specs::Weighed::weight_in))]
fn weight_in<'a>(i: usize, j: usize, value: &Value<'a>) -> Result<RawWeight<'a>, WhichFault>
    requires forms { HasForms (tree_of value.now) }
    ensures { Answers WhichFault.Memory (weight_in i j (tree_of value.now)) result }
{
    let attr = name_field(value, WhichField::WeightAttr(i, j))?;
    let text = text_field(value, WhichField::WeightValue(i, j))?;
    let weight = number_field(value, WhichField::WeightNumber(i, j), &WEIGHT)?;
    Ok(RawWeight {
        attr,
        value: text,
        weight,
    })
}
