//! Bodies that go by short names.
use rtb_num::Txt;
use std::alloc::{AllocError, Global};

/// The body for the text: `NAME` or `NAME MEMBERS`, where members that come later stand for earlier ones of
/// the same name; or the text itself where it begins with no name.
pub fn body_of(alloc: Global, text: &str) -> Result<Txt, AllocError> {
    match text.split_once(" ") {
        Some((name, members)) => body_with(alloc, name.as_bytes(), members.as_bytes(), text),
        None => body_with(alloc, text.as_bytes(), b"", text),
    }
}

fn body_with(alloc: Global, name: &[u8], members: &[u8], text: &str) -> Result<Txt, AllocError> {
    match front_of(name) {
        Some(front) => join(alloc, front, members),
        None => Txt::from_slice(alloc, text.as_bytes()),
    }
}

fn join(alloc: Global, front: &[u8], members: &[u8]) -> Result<Txt, AllocError> {
    let mut body = Txt::from_slice(alloc, front)?;
    if !members.is_empty() {
        body.push(b',')?;
        body.extend(members)?;
    }
    body.push(b'}')?;
    Ok(body)
}

// The body of that name, up to its last brace: the campaigns A and B have a size, and A a target; C and D
// have neither. P1 and Q1 are bid requests of one impression.
fn front_of(name: &[u8]) -> Option<&'static [u8]> {
    if name == b"A".as_slice() {
        return Some(TARGETED);
    }
    if name == b"B".as_slice() {
        return Some(SIZED);
    }
    if name == b"C".as_slice() {
        return Some(FIRST);
    }
    if name == b"D".as_slice() {
        return Some(SECOND);
    }
    if name == b"P1".as_slice() {
        return Some(SMALL_REQUEST);
    }
    if name == b"Q1".as_slice() {
        return Some(LARGE_REQUEST);
    }
    None
}

const TARGETED: &[u8] =
    b"{\"seat\":\"s1\",\"adomain\":\"shoes.example\",\"w\":300,\"h\":250,\"secure\":1,\"bid\":2.50,\"budget\":10,\"adm\":\"<p>${AUCTION_PRICE}</p>\",\"crid\":\"c1\",\"target\":[[{\"attr\":\"domain\",\"in\":[\"news.example\"]}]]";

const SIZED: &[u8] =
    b"{\"seat\":\"s2\",\"adomain\":\"cars.example\",\"w\":300,\"h\":250,\"secure\":1,\"bid\":1.00,\"budget\":10,\"adm\":\"B\",\"crid\":\"c2\"";

const FIRST: &[u8] =
    b"{\"seat\":\"s1\",\"adomain\":\"one.example\",\"secure\":1,\"bid\":2.50,\"budget\":10,\"adm\":\"C\",\"crid\":\"c1\"";

const SECOND: &[u8] =
    b"{\"seat\":\"s2\",\"adomain\":\"two.example\",\"secure\":1,\"bid\":1.00,\"budget\":10,\"adm\":\"D\",\"crid\":\"c2\"";

const SMALL_REQUEST: &[u8] =
    b"{\"id\":\"b1\",\"imp\":[{\"id\":\"1\",\"banner\":{}}],\"site\":{\"domain\":\"news.example\"}";

const LARGE_REQUEST: &[u8] =
    b"{\"id\":\"b1\",\"at\":2,\"tmax\":120,\"cur\":[\"USD\"],\"imp\":[{\"id\":\"1\",\"tagid\":\"top\",\"bidfloor\":0.30,\"bidfloorcur\":\"USD\",\"secure\":1,\"instl\":0,\"banner\":{\"w\":300,\"h\":250,\"pos\":1,\"battr\":[13],\"format\":[{\"w\":300,\"h\":250},{\"w\":320,\"h\":50}]}}],\"site\":{\"id\":\"102855\",\"domain\":\"news.example\",\"publisher\":{\"id\":\"8953\",\"name\":\"News\"},\"page\":\"http://news.example/a?b=1\"},\"device\":{\"ua\":\"Mozilla/5.0\",\"ip\":\"192.0.2.7\",\"devicetype\":2,\"os\":\"OS X\",\"osv\":\"10.15\",\"language\":\"en\",\"geo\":{\"lat\":37.789,\"lon\":-122.394,\"country\":\"USA\",\"city\":\"San Francisco\"}},\"user\":{\"id\":\"55816b39\",\"yob\":1984},\"badv\":[\"other.example\"],\"bcat\":[\"IAB25\"],\"ext\":{\"x\":[1.5e3,null]}";
