//! Calls of `http_wire`: what stands at the front of some bytes, and the texts of answers.
ghost use Rattle.std.specs.Prelude.{◌≡◌, ◌≢◌, ◌==◌, ◌<◌, IfSome, IsTrue};
ghost use Rattle.std.specs.List.{list_any};
ghost use Rattle.http_wire.specs.Answers.{IsWritable, statuses};
ghost use Rattle.http_wire.specs.Wire.{Reads};

use crate::small_service::{no_content, not_allowed, with_body};
use case_lines::{done, number_in, say};
use http_wire::{
    Allow, Answer, Message, Step, at_least, is_blank, memory_text, next_message, store_failed_text,
    write_answer,
};
use rtb_base::Steps;
use rtb_num::{Txt, write_decimal};
use std::alloc::{AllocError, Global};
use std::marker::Brand;
use std::sync::ledger::{Blank, Ledger};

/// Answers a call of this area, or tells that it is none.
///
/// - `message | BYTES`: `METHOD TARGET [BODY] stays` or `closes`, and how many bytes of BYTES stand
///   behind it; or `refused STATUS WORD`; or `need N`, the least number of bytes that decides more.
/// - `blank | BYTES`: `yes` where they are empty lines alone.
/// - `answer | STATUS | ALLOW | BODY | CLOSES`: its text. ALLOW is `POST`, `GET, POST` or nothing, and
///   CLOSES `closes` or nothing.
/// - `memory | CLOSES`, `memory_late | CLOSES`, `store_failed | CLOSES`: the text of that answer.
pub fn answer(alloc: Global, call: &[u8], args: &[Txt], out: &mut Txt) -> Result<bool, AllocError> {
    if put_message_of::<Brand>(alloc, call, args, out, Blank::new(1))? {
        return Ok(true);
    }
    if put_text(call, args, out)? {
        return Ok(true);
    }
    match args {
        [status, allow, body, closes] if call == b"answer".as_slice() => {
            let closes = is_closes(closes.as_bytes());
            done(put_answer(
                alloc,
                status.as_bytes(),
                allow.as_bytes(),
                body,
                closes,
                out,
            ))
        }
        _ => Ok(false),
    }
}

fn put_message_of<L: Ledger>(
    alloc: Global,
    call: &[u8],
    args: &[Txt],
    out: &mut Txt,
    blank: Blank,
) -> Result<bool, AllocError>
    requires name { blank.name ≡ L.name }
    requires parts { blank.parts ≡ L.parts }
    requires some { 0 < blank.parts }
{
    match args {
        [text] if call == b"message".as_slice() => {
            let mut steps = Steps::<L>::new(blank);
            done(put_message(alloc, text.as_bytes(), &mut steps, out))
        }
        _ => Ok(false),
    }
}

fn put_text(call: &[u8], args: &[Txt], out: &mut Txt) -> Result<bool, AllocError> {
    match args {
        [text] => put_text_of(call, text.as_bytes(), out),
        _ => Ok(false),
    }
}

fn put_text_of(call: &[u8], text: &[u8], out: &mut Txt) -> Result<bool, AllocError> {
    if call == b"blank".as_slice() {
        return done(say(is_blank(text), out));
    }
    let closes = is_closes(text);
    if call == b"memory".as_slice() {
        return done(out.extend(memory_text(false, closes)));
    }
    if call == b"memory_late".as_slice() {
        return done(out.extend(memory_text(true, closes)));
    }
    if call == b"store_failed".as_slice() {
        return done(out.extend(store_failed_text(closes)));
    }
    Ok(false)
}

fn is_closes(word: &[u8]) -> bool {
    word == b"closes".as_slice()
}

fn put_message<L: Ledger>(
    alloc: Global,
    bytes: &[u8],
    steps: &mut Steps<L>,
    out: &mut Txt,
) -> Result<(), AllocError> {
    let step = next_message(alloc, bytes, steps)?;
    let told = tell_step(&step, bytes, out);
    drop(step);
    told
}

fn tell_step(step: &Step, bytes: &[u8], out: &mut Txt) -> Result<(), AllocError>
    requires { Reads bytes.now step.now }
{
    match step {
        Step::Need => {
            out.extend(b"need ")?;
            write_decimal(at_least(bytes) as u64, out)
        }
        Step::Got { message, used } => {
            tell_message(message, bytes.len().saturating_sub(*used), out)
        }
        Step::Refused { status, word } => {
            out.extend(b"refused ")?;
            write_decimal(u64::from(*status), out)?;
            out.extend_all(&[b" ", word.as_bytes()])
        }
    }
}

// The message, and how many bytes stand behind it.
fn tell_message(message: &Message, rest: usize, out: &mut Txt) -> Result<(), AllocError> {
    out.extend_all(&[message.method.as_bytes(), b" ", message.target.as_bytes()])?;
    out.extend_all(&[b" [", message.body.as_bytes(), b"]"])?;
    out.extend(if message.closes {
        b" closes "
    } else {
        b" stays "
    })?;
    write_decimal(rest as u64, out)
}

fn put_answer(
    alloc: Global,
    status: &[u8],
    allow: &[u8],
    body: &Txt,
    closes: bool,
    out: &mut Txt,
) -> Result<(), AllocError> {
    if status == b"204".as_slice() {
        return put_whole(no_content(alloc), closes, out);
    }
    if status != b"405".as_slice() {
        return put_body(status, body.copy()?, closes, out);
    }
    if allow == b"POST".as_slice() {
        return put_whole(not_allowed(alloc, Allow::Post), closes, out);
    }
    put_whole(not_allowed(alloc, Allow::GetPost), closes, out)
}

fn put_body(status: &[u8], body: Txt, closes: bool, out: &mut Txt) -> Result<(), AllocError> {
    match status_of(status) {
        Some(status) => put_whole(with_body(status, body), closes, out),
        None => {
            drop(body);
            out.extend(b"no such status")
        }
    }
}

// The status of an answer with a body.
fn status_of(digits: &[u8]) -> Option<u16>
    ensures known { IfSome result (λ status. IsTrue (list_any (λ n. n == status) statuses)) }
    ensures no_content { IfSome result (λ status. status ≢ 204) }
    ensures not_allowed { IfSome result (λ status. status ≢ 405) }
{
    match number_in(digits) {
        Some(200) => Some(200),
        Some(201) => Some(201),
        Some(400) => Some(400),
        Some(403) => Some(403),
        Some(404) => Some(404),
        Some(409) => Some(409),
        Some(410) => Some(410),
        Some(413) => Some(413),
        Some(415) => Some(415),
        Some(431) => Some(431),
        Some(500) => Some(500),
        Some(501) => Some(501),
        Some(503) => Some(503),
        _ => None,
    }
}

fn put_whole(answer: Answer, closes: bool, out: &mut Txt) -> Result<(), AllocError>
    requires { IsWritable answer }
{
    let written = write_answer(&answer, closes, out);
    drop(answer);
    written
}
