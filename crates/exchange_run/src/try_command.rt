//! The command `try`: one bid request sold to the campaigns of the words.
ghost use Rattle.std.specs.Prelude.{◌≡◌, ◌≢◌, ◌≤◌, ◌⊎◌, Err, None, length, IfErr, IfOk, IsSome, IsTrue, OnOk};
ghost use Rattle.rtb_base.specs.Faults.{RisesOnlyWhere, Rose};
ghost use Rattle.rtb_io.specs.Fronts.{TakesAtMost};
ghost use Rattle.rtb_io.specs.Statuses.{code_of};
ghost use Rattle.rtb_io.specs.declared.status.Status.TheVariants.{Done, NotRead, NotWritten, Refused, Usage};
ghost use Rattle.exchange_run.specs.Answer.{HalfTold, IsOutcome, IsReply, Replies, Told, refusal_of, reply_to, tree_reply};
ghost use Rattle.refusal_text.specs.Refusals.{error_text, json_fault_text, request_fault_text};
ghost use Rattle.exact_json.specs.Docs.{doc_tree};
ghost use Rattle.exchange_run.specs.Words.{campaigns_of, command_of};
ghost use Rattle.run_commands.specs.Endings.{line_of};
ghost use Rattle.exchange_run.specs.Making.{campaigns_named};
ghost use Rattle.rtb_types.specs.Valid.{is_valid};

use crate::auction::auction_line;
use crate::words::command_in;
use bumpalo::Bump;
use exact_json::{Doc, JsonFault, read, room_for};
use refusal_text::{error_text, json_fault_text, request_fault_text};
use rtb_io::{ReadFault, Status, read_all};
use rtb_num::{Sink, Source, Txt};
use rtb_read::{ReqFault, read_request};
use rtb_types::BidRequest;
use run_commands::{end_with, tell};
use std::alloc::{AllocError, Global};

/// A status and the line that goes with it.
#[derive(Drop)]
struct Reply {
    status: Status,
    line: Txt,
}

/// Runs the command `try`: reads one bid request (OpenRTB 2.5), sells it on an exchange with the campaigns
/// that the words name, and writes the bid response, `no-bid` or the refusal, and a line feed.
///
/// It answers the status that the program ends with: 0 where the request was sold or got no bid, 1
/// where it was refused, 2 where the words are of no command, 9 for want of memory, 10 where the
/// source failed, each of the last three with a line of its own; and in place of each of them 7,
/// where the sink failed. From the source it takes at most 266,240 bytes.
pub fn try_run<S: Source, K: Sink>(alloc: Global, words: &[Txt], source: &mut S, sink: &mut K) -> u8
    // What the run comes to is written, or a front of it where the sink fails.
    ensures told { result ≢ code_of NotWritten → Told words.now (S.left source.old) (S.left source.new) (S.faults source.old) (S.faults source.new) (K.written sink.old) (K.written sink.new) result }
    ensures half_told { result ≡ code_of NotWritten → HalfTold words.now (S.left source.old) (S.left source.new) (S.faults source.old) (S.faults source.new) (K.written sink.old) (K.written sink.new) }
    ensures cause { RisesOnlyWhere (result ≡ code_of NotWritten) (K.faults sink.old) (K.faults sink.new) }

    // It is usage exactly where the words are of no command, unless the sink fails.
    ensures usage { command_of words.now ≡ None → (result ≡ code_of Usage) ⊎ (result ≡ code_of NotWritten) }
    ensures named { result ≡ code_of Usage → command_of words.now ≡ None }
    ensures not_read { result ≡ code_of NotRead → Rose (S.faults source.old) (S.faults source.new) }

    // Words of no command leave the source alone; of another source not more is taken than this.
    ensures unread { command_of words.now ≡ None → source.new ≡ source.old }
    ensures taken { TakesAtMost 266240 (S.left source.old) (S.left source.new) }
{
    match reply_or_status(alloc, words, source) {
        Ok(reply) => tell(reply.status, reply.line.as_bytes(), sink).code(),
        Err(status) => end_with(status, sink).code(),
    }
}

/// The longest input that is taken, in bytes.
const MAX_INPUT: usize = 262_144;

// What the run comes to, before it is written: a reply, or the status of what stands in its place.
fn reply_or_status<S: Source>(alloc: Global, words: &[Txt], source: &mut S) -> Result<Reply, Status>
    ensures replied { IfOk result (λ r. IsOutcome words.now (S.left source.old) (S.left source.new) (S.faults source.old) (S.faults source.new) r.status r.line) }
    ensures stopped { IfErr result (λ s. IsOutcome words.now (S.left source.old) (S.left source.new) (S.faults source.old) (S.faults source.new) s (line_of s)) }
    ensures ends { IfOk result (λ r. (r.status ≡ Done) ⊎ (r.status ≡ Refused)) }
    ensures stops { IfErr result (λ s. s ≢ NotWritten) }
    ensures usage { command_of words.now ≡ None → result ≡ Err Status.Usage }
    ensures named { result ≡ Err Status.Usage → command_of words.now ≡ None }
    ensures not_read { result ≡ Err Status.NotRead → Rose (S.faults source.old) (S.faults source.new) }
    ensures unread { command_of words.now ≡ None → source.new ≡ source.old }
    ensures taken { TakesAtMost 266240 (S.left source.old) (S.left source.new) }
{
    match command_in(words) {
        None => Err(Status::Usage),
        Some(campaigns) => match read_all(alloc, source, MAX_INPUT) {
            Ok(bytes) => match reply_line(alloc, campaigns, bytes.as_bytes()) {
                Ok(reply) => Ok(reply),
                Err(_) => Err(Status::Memory),
            },
            Err(ReadFault::Failed) => Err(Status::NotRead),
            Err(ReadFault::Memory) => Err(Status::Memory),
        },
    }
}

// The reply to the bytes, with a line feed.
fn reply_line(alloc: Global, words: &[Txt], bytes: &[u8]) -> Result<Reply, AllocError>
    requires campaigns { IsSome (campaigns_of words.now) }
    requires few { length words.now ≤ 64 }
    ensures replies { IfOk result (λ r. Replies (campaigns_of words.now) bytes.now r.status r.line) }
    ensures ends { IfOk result (λ r. (r.status ≡ Done) ⊎ (r.status ≡ Refused)) }
{
    let mut reply = bytes_reply(alloc, words, bytes)?;
    reply.line.push(b'\n')?;
    Ok(reply)
}

// The reply to the bytes.
fn bytes_reply(alloc: Global, words: &[Txt], bytes: &[u8]) -> Result<Reply, AllocError>
    requires campaigns { IsSome (campaigns_of words.now) }
    requires few { length words.now ≤ 64 }
    ensures { IfOk result (IsReply (campaigns_named words.now) bytes.now) }
{
    if bytes.len() > MAX_INPUT {
        return refusal(alloc, b"body-too-large");
    }
    let arena = Bump::try_with_capacity(alloc, room_for(bytes.len()))?;
    let reply = text_reply(alloc, words, &arena, bytes);
    drop(arena);
    reply
}

fn text_reply(alloc: Global, words: &[Txt], arena: &Bump, bytes: &[u8]) -> Result<Reply, AllocError>
    requires campaigns { IsSome (campaigns_of words.now) }
    requires few { length words.now ≤ 64 }
    requires fits { length bytes.now ≤ 262144 }
    ensures { IfOk result (IsReply (campaigns_named words.now) bytes.now) }
{
    match read(alloc, arena, bytes) {
        Ok(doc) => doc_reply(alloc, words, &doc),
        Err(fault) => json_refusal(alloc, fault),
    }
}

// A refusal that names only what is wrong.
fn refusal(alloc: Global, word: &[u8]) -> Result<Reply, AllocError>
    ensures { IfOk result (λ r. r ≡ refusal_of (error_text word.now)) }
{
    let line = error_text(alloc, word)?;
    Ok(Reply {
        status: Status::Refused,
        line,
    })
}

// What is answered to the request that the text makes, or its first fault.
fn doc_reply(alloc: Global, words: &[Txt], doc: &Doc<'_>) -> Result<Reply, AllocError>
    requires campaigns { IsSome (campaigns_of words.now) }
    requires few { length words.now ≤ 64 }
    ensures { IfOk result (λ r. r ≡ tree_reply (campaigns_named words.now) (doc_tree doc.now)) }
{
    match read_request(alloc, doc) {
        Ok(request) => request_reply(alloc, words, request),
        Err(fault) => request_refusal(alloc, &fault),
    }
}

// What the exchange answers to the request.
fn request_reply(alloc: Global, words: &[Txt], request: BidRequest) -> Result<Reply, AllocError>
    requires campaigns { IsSome (campaigns_of words.now) }
    requires few { length words.now ≤ 64 }
    requires valid { IsTrue (is_valid request) }
    ensures { IfOk result (λ r. r ≡ reply_to (campaigns_named words.now) request) }
{
    let line = auction_line(alloc, words, request)?;
    Ok(Reply {
        status: Status::Done,
        line,
    })
}

fn request_refusal(alloc: Global, fault: &ReqFault) -> Result<Reply, AllocError>
    ensures refused { IfOk result (λ r. r ≡ refusal_of (request_fault_text fault.now)) }
    ensures fault { OnOk result (fault.now ≢ ReqFault.Memory) }
{
    if matches!(fault, ReqFault::Memory) {
        return Err(AllocError);
    }
    let line = request_fault_text(alloc, fault)?;
    Ok(Reply {
        status: Status::Refused,
        line,
    })
}

// The refusal of bytes that are no JSON text.
fn json_refusal(alloc: Global, fault: JsonFault) -> Result<Reply, AllocError>
    ensures refused { IfOk result (λ r. r ≡ refusal_of (json_fault_text fault)) }
    ensures fault { OnOk result (fault ≢ JsonFault.Memory) }
{
    if fault == JsonFault::Memory {
        return Err(AllocError);
    }
    let line = json_fault_text(alloc, fault)?;
    Ok(Reply {
        status: Status::Refused,
        line,
    })
}
