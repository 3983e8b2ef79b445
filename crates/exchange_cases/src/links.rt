//! Links of messages.
//!
//! A link's text has its messages, `METHOD TARGET BODY`, with ` ; ` between two; `bodies.rt` says what BODY stands for.
use crate::bodies::body_of;
use case_lines::numbers_in;
use link_door::MemLink;
use rtb_num::{List, Txt, write_decimal};
use std::alloc::{AllocError, Global};

/// Appends the links of a text, with ` // ` between two; none where it is empty. Of each the calls with the numbers in
/// `fails` fail.
pub fn put_links(
    alloc: Global,
    text: &[u8],
    fails: &[u8],
    links: &mut List<MemLink>,
) -> Result<(), AllocError> {
    let Ok(text) = str::from_utf8(text) else {
        return Ok(());
    };
    if text.is_empty() {
        return Ok(());
    }
    for link in text.split(" // ") {
        links.push(link_of(alloc, link, fails)?)?;
    }
    Ok(())
}

fn link_of(alloc: Global, text: &str, fails: &[u8]) -> Result<MemLink, AllocError> {
    let fails = numbers_in(alloc, fails)?;
    let left = bytes_of(alloc, text)?;
    Ok(MemLink::new(alloc, left, fails))
}

// The bytes of the messages of a link.
fn bytes_of(alloc: Global, text: &str) -> Result<Txt, AllocError> {
    let mut bytes = Txt::new(alloc);
    for message in text.split(" ; ") {
        put_message(alloc, message, &mut bytes)?;
    }
    Ok(bytes)
}

// `METHOD TARGET BODY` as a message of HTTP/1.1.
fn put_message(alloc: Global, text: &str, out: &mut Txt) -> Result<(), AllocError> {
    match text.split_once(" ") {
        Some((method, rest)) => match rest.split_once(" ") {
            Some((target, body)) => put_parts(alloc, method, target, body, out),
            None => put_parts(alloc, method, rest, "", out),
        },
        None => out.extend(text.as_bytes()),
    }
}

fn put_parts(
    alloc: Global,
    method: &str,
    target: &str,
    body: &str,
    out: &mut Txt,
) -> Result<(), AllocError> {
    let body = body_of(alloc, body)?;
    out.extend_all(&[method.as_bytes(), b" ", target.as_bytes()])?;
    out.extend(b" HTTP/1.1\r\nContent-Length: ")?;
    write_decimal(body.len() as u64, out)?;
    out.extend_all(&[b"\r\n\r\n", body.as_bytes()])
}
