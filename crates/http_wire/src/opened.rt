//! What is decided before the body.
ghost use Rattle.std.specs.Prelude.{◌≡◌, ◌+◌, ◌≤◌, ℕ, length, map, All};
ghost use Rattle.httparse.specs.Spans.{IsHeaderWithin, IsWithin, header_bytes, span_bytes};
ghost use Rattle.http_wire.specs.Opened.{Follows, IsOpened, IsRead};

use crate::fields::{body_length, closes};
use crate::head::{MOST_HEAD, cut, has_many_lines};
use crate::refusal::Refusal;
use httparse::Status;
use httparse::spans::{EMPTY_HEADER_SPAN, HeaderSpan, RequestSpans, parse_request};

// The most fields of a head.
const MOST_FIELDS: usize = 64;

/// A head that was accepted, and where its body begins and ends.
#[derive(Clone, Copy)]
pub(crate) struct Begun<'b> {
    pub method: &'b [u8],
    pub target: &'b [u8],
    pub closes: bool,
    pub from: usize,
    pub to: usize,
}

/// What the bytes at the front are, as far as that is decided without the body.
#[derive(Clone, Copy)]
pub(crate) enum Opened<'b> {
    Need,
    Refused(Refusal),
    Begun(Begun<'b>),
}

/// What is decided of the bytes without the body.
pub(crate) fn open(bytes: &[u8]) -> Opened<'_>
    ensures { IsOpened bytes.now result }
{
    let Some((blank, head)) = cut(bytes) else {
        return if bytes.len() < MOST_HEAD {
            Opened::Need
        } else {
            Opened::Refused(Refusal::HeadTooLarge)
        };
    };
    if has_many_lines(head) {
        return Opened::Refused(Refusal::HeadTooLarge);
    }
    match read_head(head, blank + head.len()) {
        Ok(begun) => Opened::Begun(begun),
        Err(refusal) => Opened::Refused(refusal),
    }
}

// Reads a head, behind which the body begins at `at`.
fn read_head(head: &[u8], at: usize) -> Result<Begun<'_>, Refusal>
    requires { at ≤ 8192 }
    ensures { IsRead head.now at result }
{
    let mut spans = [EMPTY_HEADER_SPAN; MOST_FIELDS];
    match parse_request(head, &mut spans) {
        Ok(Status::Complete(found)) => {
            if found.len != head.len() {
                return Err(Refusal::Head);
            }
            begin(head, &spans[..found.headers], &found, at)
        }
        Ok(Status::Partial) => Err(Refusal::Head),
        Err(_) => Err(Refusal::Head),
    }
}

// What an accepted head says of the message.
fn begin<'b>(
    head: &'b [u8],
    fields: &[HeaderSpan],
    found: &RequestSpans,
    at: usize,
) -> Result<Begun<'b>, Refusal>
    requires fields { All (IsHeaderWithin (length head.now)) fields.now }
    requires method { IsWithin (length head.now) found.now.method }
    requires path { IsWithin (length head.now) found.now.path }
    requires room { at ≤ 8192 }
    ensures { Follows (span_bytes head.now found.now.method) (span_bytes head.now found.now.path) found.now.version (map (header_bytes head.now) fields.now) at result }
{
    let length = body_length(head, fields)?;
    Ok(Begun {
        method: found.method.of(head),
        target: found.path.of(head),
        closes: closes(head, fields, found.version),
        from: at,
        to: at + length,
    })
}
