//! The answer to the bytes of a request.
ghost use Rattle.std.specs.Prelude.{◌≡◌, ◌≢◌, ◌≤◌, length, IfOk, OnOk};
ghost use Rattle.exact_json.specs.Docs.{doc_tree};
ghost use Rattle.exact_json.specs.declared.fault.JsonFault.TheVariants.{Memory as json_memory};
ghost use Rattle.refusal_text.specs.Refusals.{error_text, json_fault_text};
ghost use Rattle.which_read.specs.Judged.{judged};
ghost use Rattle.which_read.specs.Request.{Request};
ghost use Rattle.which_read.specs.declared.fault.WhichFault.TheVariants.{Memory};
ghost use Rattle.which_run.specs.Answers.{IsReply, answer_to, refusal_of, tree_reply};
ghost use Rattle.which_run.specs.Texts.{which_fault_text};

use crate::answer::answer_text;
use crate::refusals::which_fault_text;
use bumpalo::Bump;
use exact_json::{Doc, JsonFault, read, room_for};
use refusal_text::{error_text, json_fault_text};
use rtb_num::Txt;
use std::alloc::{AllocError, Global};
use which_read::{Judged, WhichFault, read_judged};

/// What is answered.
#[derive(Drop)]
pub struct Reply {
    /// One JSON text, without a line feed.
    pub text: Txt,
    /// Whether it is a refusal.
    pub refused: bool,
}

/// The longest input, in bytes.
pub const LONGEST_INPUT: usize = 16_777_216;

/// The best expressions of a request in JSON with the mark of each expression, or the refusal of the first fault.
pub fn which_text(alloc: Global, bytes: &[u8]) -> Result<Reply, AllocError>
    ensures { IfOk result (IsReply bytes.now) }
{
    if bytes.len() > LONGEST_INPUT {
        return refusal(alloc, b"body-too-large");
    }
    let arena = Bump::try_with_capacity(alloc, room_for(bytes.len()))?;
    let reply = text_reply(alloc, &arena, bytes);
    drop(arena);
    reply
}

fn text_reply(alloc: Global, arena: &Bump, bytes: &[u8]) -> Result<Reply, AllocError>
    requires fits { length bytes.now ≤ 16777216 }
    ensures { IfOk result (IsReply bytes.now) }
{
    match read(alloc, arena, bytes) {
        Ok(doc) => doc_reply(alloc, &doc),
        Err(fault) => json_refusal(alloc, fault),
    }
}

// A refusal that names only what is wrong.
fn refusal(alloc: Global, word: &[u8]) -> Result<Reply, AllocError>
    ensures { IfOk result (λ r. r ≡ refusal_of (error_text word.now)) }
{
    let text = error_text(alloc, word)?;
    Ok(Reply {
        text,
        refused: true,
    })
}

// The refusal of bytes that are no JSON text.
fn json_refusal(alloc: Global, fault: JsonFault) -> Result<Reply, AllocError>
    ensures refused { IfOk result (λ r. r ≡ refusal_of (json_fault_text fault)) }
    ensures fault { OnOk result (fault ≢ json_memory) }
{
    if fault == JsonFault::Memory {
        return Err(AllocError);
    }
    let text = json_fault_text(alloc, fault)?;
    Ok(Reply {
        text,
        refused: true,
    })
}

// What is answered to the request that the text makes, or its first fault.
fn doc_reply(alloc: Global, doc: &Doc<'_>) -> Result<Reply, AllocError>
    ensures { IfOk result (λ r. r ≡ tree_reply (doc_tree doc.now)) }
{
    match read_judged(alloc, doc) {
        Ok(asked) => request_reply(alloc, asked),
        Err(fault) => request_refusal(alloc, fault),
    }
}

fn request_reply(alloc: Global, asked: Judged) -> Result<Reply, AllocError>
    requires few { length asked.reasons ≤ 4096 }
    ensures { IfOk result (λ reply. (r : Request) → asked ≡ judged r → reply ≡ answer_to r) }
{
    let text = answer_text(alloc, asked)?;
    Ok(Reply {
        text,
        refused: false,
    })
}

fn request_refusal(alloc: Global, fault: WhichFault) -> Result<Reply, AllocError>
    ensures refused { IfOk result (λ r. r ≡ refusal_of (which_fault_text fault)) }
    ensures fault { OnOk result (fault ≢ Memory) }
{
    if matches!(fault, WhichFault::Memory) {
        return Err(AllocError);
    }
    let text = which_fault_text(alloc, fault)?;
    Ok(Reply {
        text,
        refused: true,
    })
}
