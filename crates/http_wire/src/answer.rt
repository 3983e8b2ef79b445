//! How answers are written.
ghost use Rattle.std.specs.Prelude.{◌≡◌, ◌++◌, ◌+◌, ◌%◌, ◌<◌, ◌≤◌, List, ℕ, [], length, take, false, decimal, IsTrue, OnOk, OnErr};
ghost use Rattle.http_wire.specs.Answers.{IsWritable, allow_line, answer_text, close_line, crlf, length_line, memory_answer, status_line, store_failed_answer, type_line};
ghost use Rattle.http_wire.specs.Common.{bare_text, common_front, zeros_before};

use rtb_num::{Txt, write_decimal};
use std::alloc::AllocError;

/// The methods that an answer of 405 lists (RFC 9110, section 10.2.1).
#[derive(Clone, Copy, Debug, PartialEq, Eq)]
pub enum Allow {
    None,
    Post,
    GetPost,
}

/// An answer.
#[derive(Debug, Drop)]
pub struct Answer {
    /// A code of RFC 9110, section 15, or of RFC 6585.
    pub status: u16,
    /// Some methods at 405, and none at any other status.
    pub allow: Allow,
    /// JSON, or nothing; nothing at 204 and 405.
    pub body: Txt,
}

/// Appends the text of the answer, all or nothing. `closes`: the link ends behind it.
///
/// The status is 200, 201, 204, 400, 403, 404, 405, 409, 410, 413, 415, 431, 500, 501 or 503.
pub fn write_answer(answer: &Answer, closes: bool, out: &mut Txt) -> Result<(), AllocError>
    requires { IsWritable answer.now }
    ensures ok { OnOk result (out.new ≡ out.old ++ answer_text answer.now closes) }
    ensures err { OnErr result (out.new ≡ out.old) }
{
    let before = out.len();
    let written = push_answer(answer, closes, out);
    out.settle(before, written)
}

/// The answer where memory is refused: 503 with `memory`, or `memory-late` where `late` says that the
/// message has an entry. It takes no memory.
#[tactic(auto, unfolding(crate::specs::Answers::answer_text, crate::specs::Answers::status_text))]
pub fn memory_text(late: bool, closes: bool) -> &'static [u8]
    ensures { result.now ≡ answer_text (memory_answer late) closes }
{
    match (late, closes) {
        (false, false) =>
            b"HTTP/1.1 503 Service Unavailable\r\nContent-Type: application/json\r\nContent-Length: 18\r\n\r\n{\"error\":\"memory\"}",
        (false, true) =>
            b"HTTP/1.1 503 Service Unavailable\r\nContent-Type: application/json\r\nContent-Length: 18\r\nConnection: close\r\n\r\n{\"error\":\"memory\"}",
        (true, false) =>
            b"HTTP/1.1 503 Service Unavailable\r\nContent-Type: application/json\r\nContent-Length: 23\r\n\r\n{\"error\":\"memory-late\"}",
        (true, true) =>
            b"HTTP/1.1 503 Service Unavailable\r\nContent-Type: application/json\r\nContent-Length: 23\r\nConnection: close\r\n\r\n{\"error\":\"memory-late\"}",
    }
}

/// The answer where the store failed: 500 with `store-failed`. It takes no memory.
#[tactic(auto, unfolding(crate::specs::Answers::answer_text, crate::specs::Answers::status_text))]
pub fn store_failed_text(closes: bool) -> &'static [u8]
    ensures { result.now ≡ answer_text store_failed_answer closes }
{
    if closes {
        b"HTTP/1.1 500 Internal Server Error\r\nContent-Type: application/json\r\nContent-Length: 24\r\nConnection: close\r\n\r\n{\"error\":\"store-failed\"}"
    } else {
        b"HTTP/1.1 500 Internal Server Error\r\nContent-Type: application/json\r\nContent-Length: 24\r\n\r\n{\"error\":\"store-failed\"}"
    }
}

// Appends the answer, or a front of it where memory is refused.
fn push_answer(answer: &Answer, closes: bool, out: &mut Txt) -> Result<(), AllocError>
    ensures ok { OnOk result (out.new ≡ out.old ++ answer_text answer.now closes) }
    ensures front { (more : List ℕ) × (out.new ≡ out.old ++ more) }
{
    let body = answer.body.as_bytes();
    if is_common(answer, closes) {
        return push_common(body, out);
    }
    if is_bare(answer, closes) {
        return push_bare(out);
    }
    out.extend(status_line(answer.status))?;
    out.extend(allow_line(answer.allow))?;
    out.extend(type_line(body))?;
    push_length(answer.status, body, out)?;
    out.extend(close_line(closes))?;
    out.extend(b"\r\n")?;
    out.extend(body)?;
    Ok(())
}

// Whether it is a common answer: 200 with a body of two to four digits' bytes, and the link stays.
fn is_common(answer: &Answer, closes: bool) -> bool
    ensures status { IsTrue result → answer.now.status ≡ 200 }
    ensures allow { IsTrue result → answer.now.allow ≡ Allow.None }
    ensures stays { IsTrue result → closes ≡ false }
    ensures least { IsTrue result → 10 ≤ length answer.now.body }
    ensures most { IsTrue result → length answer.now.body < 10000 }
{
    let length = answer.body.len();
    answer.status == 200
        && allows_nothing(answer.allow)
        && !closes
        && 10 <= length
        && length < 10_000
}

fn allows_nothing(allow: Allow) -> bool
    ensures { IsTrue result → allow ≡ Allow.None }
{
    match allow {
        Allow::None => true,
        Allow::Post => false,
        Allow::GetPost => false,
    }
}

// Whether it is an answer of 204 behind which the link stays.
fn is_bare(answer: &Answer, closes: bool) -> bool
    ensures status { IsTrue result → answer.now.status ≡ 204 }
    ensures allow { IsTrue result → answer.now.allow ≡ Allow.None }
    ensures stays { IsTrue result → closes ≡ false }
    ensures body { IsTrue result → answer.now.body ≡ [] }
{
    answer.status == 204 && allows_nothing(answer.allow) && !closes && answer.body.is_empty()
}

// Appends such an answer, all or nothing.
fn push_bare(out: &mut Txt) -> Result<(), AllocError>
    ensures ok { OnOk result (out.new ≡ out.old ++ bare_text) }
    ensures err { OnErr result (out.new ≡ out.old) }
{
    out.extend(bare_text())
}

#[tactic(auto, unfolding(crate::specs::Common::bare_text))]
fn bare_text() -> &'static [u8]
    ensures { result.now ≡ bare_text }
{
    b"HTTP/1.1 204 No Content\r\n\r\n"
}

// Appends a common answer, or a front of it where memory is refused.
fn push_common(body: &[u8], out: &mut Txt) -> Result<(), AllocError>
    requires least { 10 ≤ length body.now }
    requires most { length body.now < 10000 }
    ensures ok { OnOk result (out.new ≡ out.old ++ common_front ++ (decimal (length body.now) ++ crlf ++ crlf) ++ body.now) }
    ensures front { (more : List ℕ) × (out.new ≡ out.old ++ more) }
{
    out.extend(common_front())?;
    push_head_end(body.len(), out)?;
    out.extend(body)
}

// What a common answer begins with, up to its length.
#[tactic(auto, unfolding(crate::specs::Common::common_front))]
fn common_front() -> &'static [u8]
    ensures { result.now ≡ common_front }
{
    b"HTTP/1.1 200 OK\r\nContent-Type: application/json\r\nContent-Length: "
}

// Appends the length, and the end of its line and of the head.
fn push_head_end(length: usize, out: &mut Txt) -> Result<(), AllocError>
    requires least { 10 ≤ length }
    requires most { length < 10000 }
    ensures ok { OnOk result (out.new ≡ out.old ++ (decimal length ++ crlf ++ crlf)) }
    ensures err { OnErr result (out.new ≡ out.old) }
{
    let end = [
        digit(length / 1000),
        digit(length / 100),
        digit(length / 10),
        digit(length),
        b'\r',
        b'\n',
        b'\r',
        b'\n',
    ];
    out.extend(&end[zeros_before(length)..])
}

// The last digit of a number.
fn digit(number: usize) -> u8
    ensures { result ≡ 48 + number % 10 }
{
    b'0' + (number % 10) as u8
}

// How many zeros stand before a number of two to four digits that is written in four.
fn zeros_before(number: usize) -> usize
    ensures { result ≡ zeros_before number }
{
    if number < 100 {
        2
    } else if number < 1000 {
        1
    } else {
        0
    }
}

// Appends the line of the length.
fn push_length(status: u16, body: &[u8], out: &mut Txt) -> Result<(), AllocError>
    ensures ok { OnOk result (out.new ≡ out.old ++ length_line status body.now) }
    ensures front { (more : List ℕ) × (out.new ≡ out.old ++ more) }
{
    if status == 204 {
        return Ok(());
    }
    out.extend(b"Content-Length: ")?;
    write_decimal(body.len() as u64, out)?;
    out.extend(b"\r\n")?;
    Ok(())
}

// The status line of a status, and nothing for what is no status of an answer.
#[tactic(auto, unfolding(crate::specs::Answers::status_text))]
fn status_line(status: u16) -> &'static [u8]
    ensures { result.now ≡ status_line status }
{
    match status {
        200 => b"HTTP/1.1 200 OK\r\n",
        201 => b"HTTP/1.1 201 Created\r\n",
        204 => b"HTTP/1.1 204 No Content\r\n",
        400 => b"HTTP/1.1 400 Bad Request\r\n",
        403 => b"HTTP/1.1 403 Forbidden\r\n",
        404 => b"HTTP/1.1 404 Not Found\r\n",
        405 => b"HTTP/1.1 405 Method Not Allowed\r\n",
        409 => b"HTTP/1.1 409 Conflict\r\n",
        410 => b"HTTP/1.1 410 Gone\r\n",
        413 => b"HTTP/1.1 413 Content Too Large\r\n",
        415 => b"HTTP/1.1 415 Unsupported Media Type\r\n",
        431 => b"HTTP/1.1 431 Request Header Fields Too Large\r\n",
        500 => b"HTTP/1.1 500 Internal Server Error\r\n",
        501 => b"HTTP/1.1 501 Not Implemented\r\n",
        503 => b"HTTP/1.1 503 Service Unavailable\r\n",
        _ => b"HTTP/1.1 \r\n",
    }
}

fn allow_line(allow: Allow) -> &'static [u8]
    ensures { result.now ≡ allow_line allow }
{
    match allow {
        Allow::None => b"",
        Allow::Post => b"Allow: POST\r\n",
        Allow::GetPost => b"Allow: GET, POST\r\n",
    }
}

fn type_line(body: &[u8]) -> &'static [u8]
    ensures { result.now ≡ type_line body.now }
{
    match body {
        [] => b"",
        [_, ..] => b"Content-Type: application/json\r\n",
    }
}

fn close_line(closes: bool) -> &'static [u8]
    ensures { result.now ≡ close_line closes }
{
    if closes {
        b"Connection: close\r\n"
    } else {
        b""
    }
}
