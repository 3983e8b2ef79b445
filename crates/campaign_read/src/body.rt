//! A campaign read from its body, or the body's first fault.
#![tactic(auto, using(json_fields::proofs::First::firsts), unfolding(crate::specs::Campaign::campaign_body))]

ghost use Rattle.std.specs.Prelude.{◌≡◌, ◌%◌, map};
ghost use Rattle.exact_json.specs.Docs.{doc_tree};
ghost use Rattle.exact_json.specs.Forms.{HasForms};
ghost use Rattle.exact_json.specs.View.{tree_of};
ghost use Rattle.json_fields.specs.Answers.{Answers};
ghost use Rattle.json_fields.specs.Readings.{with_faults};
ghost use Rattle.campaign.specs.Faults.{fact_faults};
ghost use Rattle.target_expr.specs.Kept.{faults, keep};
ghost use Rattle.campaign_read.specs.Campaign.{body_in, campaign_body, fault_of_target, made_of};
ghost use Rattle.campaign_read.specs.declared.fault.CampFault.{CampFault};

use crate::fault::CampFault;
use crate::parts::{both, parts_in};
use crate::target::target_field;
use campaign::{FactParts, Facts};
use exact_json::{Doc, Value};
use json_fields as fields;
use rtb_num::List;
use std::alloc::Global;
use target_expr::{Expr, ExprFault, RawPred};

/// The campaign in a JSON text, or the first of its faults in the order in which the fields are read;
/// then come the faults of the facts, and then those of the target.
pub fn read_campaign(alloc: Global, doc: &Doc<'_>) -> Result<(Facts, Expr), CampFault>
    ensures { Answers CampFault.Memory (campaign_body (doc_tree doc.now)) result }
{
    match fields::object_in(doc.root()) {
        Ok(body) => campaign_in(alloc, body),
        Err(_) => Err(CampFault::NotObject),
    }
}

fn campaign_in(alloc: Global, body: &Value<'_>) -> Result<(Facts, Expr), CampFault>
    requires forms { HasForms (tree_of body.now) }
    ensures { Answers CampFault.Memory (body_in (tree_of body.now)) result }
{
    let read = both(parts_in(alloc, body), target_field(alloc, body));
    match read {
        Ok((parts, target)) => made_of(alloc, parts, target),
        Err(fault) => Err(fault),
    }
}

// The facts and the expression of these parts and this target.
fn made_of(
    alloc: Global,
    parts: FactParts,
    target: List<List<RawPred>>,
) -> Result<(Facts, Expr), CampFault>
    requires { parts.budget % 1000 ≡ 0 }
    ensures { Answers CampFault.Memory (made_of parts target) result }
{
    let made = both(facts_of(parts), expr_of(alloc, &target));
    drop(target);
    made
}

fn facts_of(parts: FactParts) -> Result<Facts, CampFault>
    requires { parts.budget % 1000 ≡ 0 }
    ensures { Answers CampFault.Memory (with_faults (map CampFault.Fact (fact_faults parts)) parts) result }
{
    match Facts::make(parts) {
        Ok(facts) => Ok(facts),
        Err(fault) => Err(CampFault::Fact { fault }),
    }
}

fn expr_of(alloc: Global, raw: &List<List<RawPred>>) -> Result<Expr, CampFault>
    ensures { Answers CampFault.Memory (with_faults (map CampFault.Target (faults raw.now)) (keep raw.now)) result }
{
    match Expr::make(alloc, raw) {
        Ok(expr) => Ok(expr),
        Err(fault) => Err(target_fault(fault)),
    }
}

fn target_fault(fault: ExprFault) -> CampFault
    ensures { result ≡ fault_of_target fault }
{
    match fault {
        ExprFault::Memory => CampFault::Memory,
        fault => CampFault::Target { fault },
    }
}
