//! A request for the best expressions with each expression judged, or its first fault.
#![tactic(auto, using(json_fields::proofs::First::firsts), unfolding(crate::specs::Request::which_request))]

ghost use Rattle.std.specs.Prelude.{◌≡◌, ◌≤◌, length, IfOk};
ghost use Rattle.exact_json.specs.Docs.{doc_tree};
ghost use Rattle.exact_json.specs.Forms.{HasForms};
ghost use Rattle.exact_json.specs.View.{tree_of};
ghost use Rattle.json_fields.specs.Answers.{Answers, map_ok};
ghost use Rattle.json_fields.specs.Readings.{map_value};
ghost use Rattle.which_read.specs.Judged.{judged};
ghost use Rattle.which_read.specs.Request.{fields_in, which_request};
ghost use Rattle.which_read.specs.declared.fault.WhichFault.{WhichFault};

use crate::assigned::assignment_field;
use crate::expressions::{Reasons, expressions_field};
use crate::fault::WhichFault;
use crate::field::WhichField;
use crate::parts::number_field;
use exact_json::{Doc, Value};
use json_fields as fields;
use json_fields::Bounds;
use rtb_num::List;
use std::alloc::Global;
use top_match::Mark;

/// A request for the best expressions, of which no expression is kept, but how each stands for the assignment.
#[derive(Drop)]
pub struct Judged {
    /// How many are wanted at most: 1 to 4,096.
    pub n: u32,
    /// Of each expression its first clause that is false, or else its score. Up to 4,096, in the order in which they
    /// are written.
    pub reasons: List<Mark>,
}

/// The request in a JSON text with each expression judged for its assignment, or the first of its faults in the order
/// in which the fields are read; behind all of them come the faults of the expressions, in their order.
pub fn read_judged(alloc: Global, doc: &Doc<'_>) -> Result<Judged, WhichFault>
    ensures answer { Answers WhichFault.Memory (map_value judged (which_request (doc_tree doc.now))) result }
    ensures few { IfOk result (λ r. length r.reasons ≤ 4096) }
{
    match fields::object_in(doc.root()) {
        Ok(body) => request_in(alloc, body),
        Err(_) => Err(WhichFault::NotObject),
    }
}

// How many expressions may be wanted.
const N: Bounds = Bounds {
    least: 1,
    greatest: 4_096,
};

// The assignment is there before the expressions are read, so that each is judged as soon as it is made.
#[tactic(auto, using(json_fields::proofs::First::firsts), unfolding(crate::specs::Request::fields_in))]
fn request_in(alloc: Global, body: &Value<'_>) -> Result<Judged, WhichFault>
    requires forms { HasForms (tree_of body.now) }
    ensures { Answers WhichFault.Memory (map_value judged (fields_in (tree_of body.now))) result }
{
    let n = number_field(body, WhichField::N, &N)?;
    let assignment = assignment_field(alloc, body)?;
    let read = expressions_field(alloc, body, &assignment);
    drop(assignment);
    match read {
        Ok(reasons) => judged_of(n, reasons),
        Err(fault) => Err(fault),
    }
}

// The request of these parts, where the expressions could be made.
fn judged_of(n: u32, reasons: Reasons) -> Result<Judged, WhichFault>
    ensures { result ≡ map_ok (λ all. record { n = n; reasons = all }) reasons }
{
    match reasons {
        Ok(reasons) => Ok(Judged { n, reasons }),
        Err(fault) => Err(fault),
    }
}
