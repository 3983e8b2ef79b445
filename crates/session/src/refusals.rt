//! What is sent in place of answers, before the link ends.
ghost use Rattle.std.specs.Prelude.{◌≡◌, ◌++◌, ℕ, List, IfOk, OnOk};
ghost use Rattle.http_wire.specs.Answers.{IsWritable, error_answer, error_body};
ghost use Rattle.rtb_base.specs.Faults.{RisesOnlyWhere, RoseAtMost};
ghost use Rattle.session.specs.Receives.{IsMemoryEnd, IsTail, SendsTail};
ghost use Rattle.session.specs.Talk.{memory_closes, refusal_closes};

use crate::link_end::LinkEnd;
use crate::send::send_all;
use http_wire::{Allow, Answer, memory_text, write_answer};
use link_door::Link;
use rtb_num::Txt;
use std::alloc::{AllocError, Global};

/// Answers what is no message, and ends the link.
pub(crate) fn refuse<L: Link>(
    alloc: Global,
    status: u16,
    word: &Txt,
    out: &mut Txt,
    link: &mut L,
) -> LinkEnd
    requires { IsWritable (error_answer status word.now) }
    ensures sent { (tail : List ℕ) × IsTail status word.now tail result × SendsTail (L.sent link.old) (L.sent link.new) tail result }
    ensures left { L.left link.new ≡ L.left link.old }
    ensures cause { RisesOnlyWhere (result ≡ LinkEnd.LinkFailed) (L.faults link.old) (L.faults link.new) }
    ensures once { RoseAtMost 1 (L.faults link.old) (L.faults link.new) }
{
    out.truncate(0);
    if write_refusal(alloc, status, word, out).is_err() {
        return out_of_memory(link);
    }
    match send_all(link, out.as_bytes()) {
        Ok(()) => LinkEnd::Refused { status },
        Err(_) => LinkEnd::LinkFailed,
    }
}

// Appends the answer to what is no message.
fn write_refusal(alloc: Global, status: u16, word: &Txt, out: &mut Txt) -> Result<(), AllocError>
    requires { IsWritable (error_answer status word.now) }
    ensures { OnOk result (out.new ≡ out.old ++ refusal_closes status word.now) }
{
    let body = error_body(alloc, word.as_bytes())?;
    let answer = Answer {
        status,
        allow: Allow::None,
        body,
    };
    write_answer(&answer, true, out)
}

// The body of an answer that tells what is wrong.
fn error_body(alloc: Global, word: &[u8]) -> Result<Txt, AllocError>
    ensures { IfOk result (λ t. t ≡ error_body word.now) }
{
    let mut body = Txt::new(alloc);
    body.extend(b"{\"error\":\"")?;
    body.extend(word)?;
    body.extend(b"\"}")?;
    Ok(body)
}

/// Tells that memory was refused, and ends the link.
pub(crate) fn out_of_memory<L: Link>(link: &mut L) -> LinkEnd
    ensures end { IsMemoryEnd result }
    ensures sent { SendsTail (L.sent link.old) (L.sent link.new) memory_closes result }
    ensures left { L.left link.new ≡ L.left link.old }
    ensures cause { RisesOnlyWhere (result ≡ LinkEnd.LinkFailed) (L.faults link.old) (L.faults link.new) }
    ensures once { RoseAtMost 1 (L.faults link.old) (L.faults link.new) }
{
    match send_all(link, memory_text(false, true)) {
        Ok(()) => LinkEnd::NoMemory,
        Err(_) => LinkEnd::LinkFailed,
    }
}
