//! A service of few rules.
ghost use Rattle.std.specs.Prelude.{◌≢◌, ◌==◌, IfOk, IsTrue, ⊤};
ghost use Rattle.std.specs.List.{list_any};
ghost use Rattle.http_wire.specs.Answers.{IsWritable, statuses};
ghost use Rattle.session.specs.Talk.{IsGivable};

use bumpalo::Bump;
use case_lines::kept;
use exact_json::{JsonFault, read};
use http_wire::{Allow, Answer, Message};
use rtb_num::{Txt, write_decimal};
use session::{Given, Service};
use std::alloc::{AllocError, Global};

/// It sells nothing: a JSON text posted to `/openrtb2/auction` is answered with 204, any other body
/// there with its fault. `/echo` gives a body back. Each other path has one answer.
#[derive(Drop)]
pub struct Small {
    pub alloc: Global,
}

impl Service for Small {
    ghost answers = { λ a m g b. ⊤ };

    fn answer(&mut self, message: &Message) -> Given {
        give(self.alloc, message)
    }
}

fn give(alloc: Global, message: &Message) -> Given
    ensures { IsGivable result }
{
    let target = message.target.as_bytes();
    if target == b"/store-failed".as_slice() {
        return Given::StoreFailed;
    }
    if target == b"/memory".as_slice() {
        return Given::Memory;
    }
    if target == b"/memory-late".as_slice() {
        return Given::MemoryLate;
    }
    match route(alloc, message) {
        Ok(answer) => Given::Text {
            answer,
            entered: false,
        },
        Err(AllocError) => Given::Memory,
    }
}

fn route(alloc: Global, message: &Message) -> Result<Answer, AllocError>
    ensures { IfOk result IsWritable }
{
    let method = message.method.as_bytes();
    if method == b"POST".as_slice() {
        return answer_post(alloc, message);
    }
    if method == b"GET".as_slice() {
        return got(alloc, message.target.as_bytes());
    }
    Ok(not_allowed(alloc, Allow::GetPost))
}

fn got(alloc: Global, target: &[u8]) -> Result<Answer, AllocError>
    ensures { IfOk result IsWritable }
{
    if target == b"/204".as_slice() {
        return Ok(no_content(alloc));
    }
    if target == b"/openrtb2/auction".as_slice() {
        return Ok(not_allowed(alloc, Allow::Post));
    }
    error(alloc, b"not-found")
}

fn answer_post(alloc: Global, message: &Message) -> Result<Answer, AllocError>
    ensures { IfOk result IsWritable }
{
    let target = message.target.as_bytes();
    if target == b"/openrtb2/auction".as_slice() {
        return sell(alloc, message.body.as_bytes());
    }
    if target == b"/echo".as_slice() {
        return Ok(with_body(200, message.body.copy()?));
    }
    if target == b"/pause/9".as_slice() {
        return error(alloc, b"no-such-campaign");
    }
    error(alloc, b"not-found")
}

fn error(alloc: Global, word: &[u8]) -> Result<Answer, AllocError>
    ensures { IfOk result IsWritable }
{
    let body = word_text(alloc, word)?;
    Ok(with_body(404, body))
}

fn word_text(alloc: Global, word: &[u8]) -> Result<Txt, AllocError> {
    let mut body = Txt::new(alloc);
    let filled = body.extend_all(&[b"{\"error\":\"", word, b"\"}"]);
    kept(body, filled)
}

fn sell(alloc: Global, body: &[u8]) -> Result<Answer, AllocError>
    ensures { IfOk result IsWritable }
{
    match fault_of(alloc, body) {
        None => Ok(no_content(alloc)),
        Some(JsonFault::Memory) => Err(AllocError),
        Some(JsonFault::Utf8 { at }) => refuse(alloc, b"json-utf8", at),
        Some(JsonFault::Syntax { at }) => refuse(alloc, b"json-syntax", at),
        Some(JsonFault::Ended { at }) => refuse(alloc, b"json-ended", at),
        Some(JsonFault::Deep { at }) => refuse(alloc, b"json-deep", at),
    }
}

// Why the body is no JSON text, where it is none.
fn fault_of(alloc: Global, body: &[u8]) -> Option<JsonFault> {
    let arena = Bump::new(alloc);
    read(alloc, &arena, body).err()
}

fn refuse(alloc: Global, word: &[u8], at: usize) -> Result<Answer, AllocError>
    ensures { IfOk result IsWritable }
{
    let body = place_text(alloc, word, at)?;
    Ok(with_body(400, body))
}

fn place_text(alloc: Global, word: &[u8], at: usize) -> Result<Txt, AllocError> {
    let mut body = Txt::new(alloc);
    let filled = put_place(word, at, &mut body);
    kept(body, filled)
}

fn put_place(word: &[u8], at: usize, out: &mut Txt) -> Result<(), AllocError> {
    out.extend_all(&[b"{\"error\":\"", word, b"\",\"at\":"])?;
    write_decimal(at as u64, out)?;
    out.push(b'}')
}

/// An answer with a body.
pub fn with_body(status: u16, body: Txt) -> Answer
    requires known { IsTrue (list_any (λ n. n == status) statuses) }
    requires no_content { status ≢ 204 }
    requires not_allowed { status ≢ 405 }
    ensures { IsWritable result }
{
    Answer {
        status,
        allow: Allow::None,
        body,
    }
}

/// The answer without a body.
pub fn no_content(alloc: Global) -> Answer
    ensures { IsWritable result }
{
    Answer {
        status: 204,
        allow: Allow::None,
        body: Txt::new(alloc),
    }
}

/// The answer that lists methods.
pub fn not_allowed(alloc: Global, allow: Allow) -> Answer
    requires { allow ≢ Allow.None }
    ensures { IsWritable result }
{
    Answer {
        status: 405,
        allow,
        body: Txt::new(alloc),
    }
}
