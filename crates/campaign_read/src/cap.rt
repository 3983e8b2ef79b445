//! The cap of a body.
ghost use Rattle.std.specs.Prelude.{◌≡◌};
ghost use Rattle.exact_json.specs.Forms.{HasForms};
ghost use Rattle.exact_json.specs.View.{tree_of};
ghost use Rattle.json_fields.specs.Answers.{Answers};
ghost use Rattle.json_fields.specs.Fields.{as_whole, present as present_in, required};
ghost use Rattle.campaign_read.specs.Cap.{cap_field, terms_in};
ghost use Rattle.campaign_read.specs.Parts.{whole_field};
ghost use Rattle.campaign_read.specs.declared.fault.CampFault.{CampFault};

use crate::fault::CampFault;
use crate::parts::fault;
use campaign::{CampField, Cap};
use exact_json::Value;
use json_fields as fields;
use json_fields::{Bounds, Flaw};

// How many times a cap lets a campaign be shown.
const COUNT: Bounds = Bounds {
    least: 1,
    greatest: 1_000,
};

// In how many seconds: at most a year.
const SECONDS: Bounds = Bounds {
    least: 1,
    greatest: 31_536_000,
};

// The cap, which may be absent.
#[tactic(auto, unfolding(crate::specs::Cap::cap_field))]
pub(crate) fn cap_field(body: &Value<'_>) -> Result<Option<Cap>, CampFault>
    requires forms { HasForms (tree_of body.now) }
    ensures { Answers CampFault.Memory (cap_field (tree_of body.now)) result }
{
    match fields::object(body, CampField::Cap.member()) {
        Ok(Some(cap)) => terms_of(cap),
        Ok(None) => Ok(None),
        Err(flaw) => Err(fault(CampField::Cap, flaw)),
    }
}

// The two numbers of a cap, in the order in which they are read.
#[tactic(auto, using(json_fields::proofs::First::firsts), unfolding(crate::specs::Cap::terms_in))]
fn terms_of(cap: &Value<'_>) -> Result<Option<Cap>, CampFault>
    requires forms { HasForms (tree_of cap.now) }
    ensures { Answers CampFault.Memory (terms_in (tree_of cap.now)) result }
{
    let count = whole_field(cap, CampField::CapCount, &COUNT)?;
    let seconds = whole_field(cap, CampField::CapSeconds, &SECONDS)?;
    Ok(Cap::new(count.unsigned_abs(), seconds.unsigned_abs()))
}

// A whole number that has to be there.
#[tactic(auto, unfolding(crate::specs::Parts::whole_field))]
fn whole_field(object: &Value<'_>, field: CampField, bounds: &Bounds) -> Result<i32, CampFault>
    requires forms { HasForms (tree_of object.now) }
    ensures { Answers CampFault.Memory (whole_field bounds.now field (tree_of object.now)) result }
{
    match required_whole(object, field.member(), bounds) {
        Ok(n) => Ok(n),
        Err(flaw) => Err(fault(field, flaw)),
    }
}

#[tactic(auto, using(crate::proofs::Required::there, crate::proofs::Required::absent, crate::proofs::Required::flawed))]
fn required_whole(object: &Value<'_>, name: &[u8], bounds: &Bounds) -> Result<i32, Flaw>
    requires forms { HasForms (tree_of object.now) }
    ensures { result ≡ required (as_whole bounds.now) (present_in name.now (tree_of object.now)) }
{
    match fields::whole_number(object, name, bounds) {
        Ok(Some(n)) => Ok(n),
        Ok(None) => Err(Flaw::Missing),
        Err(flaw) => Err(flaw),
    }
}
