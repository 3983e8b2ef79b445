//! The answers that refuse a message, by status and body.
ghost use Rattle.std.specs.Prelude.{◌≡◌, ◌≢◌, Err, IfOk, MatchResult, OnOk};
ghost use Rattle.command_read.specs.Commands.{bad_body, forbidden, not_allowed, not_found};
ghost use Rattle.command_read.specs.declared.fault.CommandFault.TheVariants as fault;
ghost use Rattle.refusal_text.specs.Refusals.{campaign_fault_text, json_fault_text, request_fault_text};

use crate::fault::CommandFault;
use campaign_read::CampFault;
use exact_json::JsonFault;
use http_wire::{Allow, Answer};
use plain_exchange::Command;
use refusal_text::{campaign_fault_text, error_text, json_fault_text, request_fault_text};
use rtb_num::Txt;
use rtb_read::ReqFault;
use std::alloc::{AllocError, Global};

/// No command, for this refusal, or for want of memory for its text.
pub(crate) fn refuse(refusal: Result<Answer, AllocError>) -> Result<Command, CommandFault>
    ensures { MatchResult refusal (λ a. result ≡ Err (fault.Refused a)) (λ _. result ≡ Err fault.Memory) }
{
    match refusal {
        Ok(refusal) => Err(CommandFault::Refused { refusal }),
        Err(_) => Err(CommandFault::Memory),
    }
}

/// The refusal of a method, with those that are taken.
pub(crate) fn not_allowed(alloc: Global, methods: Allow) -> Answer
    ensures { result ≡ not_allowed methods }
{
    Answer {
        status: 405,
        allow: methods,
        body: Txt::new(alloc),
    }
}

/// The refusal of a path that is not listed.
pub(crate) fn not_found(alloc: Global) -> Result<Answer, AllocError>
    ensures { IfOk result (λ a. a ≡ not_found) }
{
    let body = error_text(alloc, b"not-found")?;
    Ok(Answer {
        status: 404,
        allow: Allow::None,
        body,
    })
}

/// The refusal of what is asked for without the token that opens the path.
pub(crate) fn forbidden(alloc: Global) -> Result<Answer, AllocError>
    ensures { IfOk result (λ a. a ≡ forbidden) }
{
    let body = error_text(alloc, b"forbidden")?;
    Ok(Answer {
        status: 403,
        allow: Allow::None,
        body,
    })
}

/// The refusal of a body that is no JSON text.
pub(crate) fn json_refusal(alloc: Global, fault: JsonFault) -> Result<Answer, AllocError>
    ensures refused { IfOk result (λ a. a ≡ bad_body (json_fault_text fault)) }
    ensures fault { OnOk result (fault ≢ JsonFault.Memory) }
{
    if fault == JsonFault::Memory {
        return Err(AllocError);
    }
    let body = json_fault_text(alloc, fault)?;
    Ok(bad_body(body))
}

/// The refusal of a JSON text that is no bid request.
pub(crate) fn request_refusal(alloc: Global, fault: &ReqFault) -> Result<Answer, AllocError>
    ensures refused { IfOk result (λ a. a ≡ bad_body (request_fault_text fault.now)) }
    ensures fault { OnOk result (fault.now ≢ ReqFault.Memory) }
{
    if matches!(fault, ReqFault::Memory) {
        return Err(AllocError);
    }
    let body = request_fault_text(alloc, fault)?;
    Ok(bad_body(body))
}

/// The refusal of a JSON text that is no campaign.
pub(crate) fn campaign_refusal(alloc: Global, fault: &CampFault) -> Result<Answer, AllocError>
    ensures refused { IfOk result (λ a. a ≡ bad_body (campaign_fault_text fault.now)) }
    ensures fault { OnOk result (fault.now ≢ CampFault.Memory) }
{
    if matches!(fault, CampFault::Memory) {
        return Err(AllocError);
    }
    let body = campaign_fault_text(alloc, fault)?;
    Ok(bad_body(body))
}

fn bad_body(body: Txt) -> Answer
    ensures { result ≡ bad_body body }
{
    Answer {
        status: 400,
        allow: Allow::None,
        body,
    }
}
