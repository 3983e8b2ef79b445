//! Calls of `session`: conversations of the small service.
ghost use Rattle.std.specs.Prelude.{◌≡◌, ◌<◌};

use crate::pieces::Pieces;
use crate::small_service::Small;
use case_lines::{done, kept, number_in, numbers_in};
use link_door::MemLink;
use rtb_base::Steps;
use rtb_num::{List, Txt, write_decimal};
use session::{LinkEnd, serve_link};
use std::alloc::{AllocError, Global};
use std::marker::Brand;
use std::sync::ledger::{Blank, Ledger};

/// Answers a call of this area, or tells that it is none.
///
/// - `serve | BYTES`: why the link ended, and behind a colon what was sent. The conversation is held with
///   the bytes at once, one by one, and in two pieces cut at every byte; where two of them differ, the
///   answer says `differs at` and the cut.
/// - `serve_whole | BYTES`: the same with the bytes at once and one by one only.
/// - `serve_times | N | BYTES | STEP`: the same of N times BYTES, cut at every STEP bytes only, with how
///   many bytes were sent in place of them.
/// - `serve_failing | BYTES | CALLS`: the bytes at once over a link where these calls fail, counted from 1.
pub fn answer(alloc: Global, call: &[u8], args: &[Txt], out: &mut Txt) -> Result<bool, AllocError> {
    match args {
        [text] => serve_cut(alloc, call, text.as_bytes(), out),
        [times, text, step] if call == b"serve_times".as_slice() => {
            done(serve_times(
                alloc,
                times.as_bytes(),
                text.as_bytes(),
                step.as_bytes(),
                out,
            ))
        }
        [text, calls] if call == b"serve_failing".as_slice() => {
            done(serve_failing(alloc, text.as_bytes(), calls.as_bytes(), out))
        }
        _ => Ok(false),
    }
}

fn serve_cut(alloc: Global, call: &[u8], text: &[u8], out: &mut Txt) -> Result<bool, AllocError> {
    if call == b"serve".as_slice() {
        return done(tell_whole(cut_everywhere(alloc, text, 1), out));
    }
    if call == b"serve_whole".as_slice() {
        return done(tell_whole(cut_everywhere(alloc, text, usize::MAX), out));
    }
    Ok(false)
}

fn serve_times(
    alloc: Global,
    times: &[u8],
    text: &[u8],
    step: &[u8],
    out: &mut Txt,
) -> Result<(), AllocError> {
    let all = repeat(alloc, times, text)?;
    let step = usize::try_from(number_in(step).unwrap_or(0)).unwrap_or(usize::MAX);
    let came = cut_everywhere(alloc, all.as_bytes(), step);
    drop(all);
    tell_length(came, out)
}

fn serve_failing(
    alloc: Global,
    text: &[u8],
    calls: &[u8],
    out: &mut Txt,
) -> Result<(), AllocError> {
    let fails = numbers_in(alloc, calls)?;
    tell_whole(serve(alloc, text, 0, false, fails), out)
}

// Why the link ended, and what was sent.
fn tell_whole(came: Result<Came, AllocError>, out: &mut Txt) -> Result<(), AllocError> {
    let came = came?;
    let told = put_whole(&came, out);
    drop(came);
    told
}

fn put_whole(came: &Came, out: &mut Txt) -> Result<(), AllocError> {
    out.extend_all(&[came.end.as_bytes(), b": ", came.sent.as_bytes()])
}

// Why the link ended, and how many bytes were sent.
fn tell_length(came: Result<Came, AllocError>, out: &mut Txt) -> Result<(), AllocError> {
    let came = came?;
    let told = put_length(&came, out);
    drop(came);
    told
}

fn put_length(came: &Came, out: &mut Txt) -> Result<(), AllocError> {
    out.extend_all(&[came.end.as_bytes(), b": "])?;
    write_decimal(came.sent.len() as u64, out)
}

fn repeat(alloc: Global, times: &[u8], text: &[u8]) -> Result<Txt, AllocError> {
    let mut all = Txt::new(alloc);
    let filled = put_times(number_in(times).unwrap_or(0), text, &mut all);
    kept(all, filled)
}

fn put_times(times: u64, text: &[u8], out: &mut Txt) -> Result<(), AllocError> {
    for _ in 0..times {
        out.extend(text)?;
    }
    Ok(())
}

// What came of a conversation.
#[derive(Drop)]
struct Came {
    end: Txt,
    sent: Txt,
}

// The conversation held with the bytes cut in many ways.
fn cut_everywhere(alloc: Global, text: &[u8], step: usize) -> Result<Came, AllocError> {
    let whole = serve(alloc, text, 0, false, List::new(alloc))?;
    match first_different(alloc, text, step, &whole) {
        Ok(None) => Ok(whole),
        Ok(Some(at)) => {
            drop(whole);
            different(alloc, at)
        }
        Err(refused) => {
            drop(whole);
            Err(refused)
        }
    }
}

// The first cut by which something else comes.
fn first_different(
    alloc: Global,
    text: &[u8],
    step: usize,
    whole: &Came,
) -> Result<Option<usize>, AllocError> {
    if !comes_again(alloc, text, 0, true, whole)? {
        return Ok(Some(0));
    }
    for at in (0..text.len()).step_by(step.max(1)) {
        if !comes_again(alloc, text, at, false, whole)? {
            return Ok(Some(at));
        }
    }
    Ok(None)
}

fn comes_again(
    alloc: Global,
    text: &[u8],
    first: usize,
    single: bool,
    whole: &Came,
) -> Result<bool, AllocError> {
    let cut = serve(alloc, text, first, single, List::new(alloc))?;
    let same = is_same(whole, &cut);
    drop(cut);
    Ok(same)
}

fn is_same(a: &Came, b: &Came) -> bool {
    a.end == b.end && a.sent == b.sent
}

fn different(alloc: Global, at: usize) -> Result<Came, AllocError> {
    let mut came = nothing(alloc);
    let filled = put_difference(at, &mut came.end);
    kept(came, filled)
}

fn nothing(alloc: Global) -> Came {
    Came {
        end: Txt::new(alloc),
        sent: Txt::new(alloc),
    }
}

fn put_difference(at: usize, out: &mut Txt) -> Result<(), AllocError> {
    out.extend(b"differs at ")?;
    write_decimal(at as u64, out)
}

fn serve(
    alloc: Global,
    text: &[u8],
    first: usize,
    single: bool,
    fails: List<u64>,
) -> Result<Came, AllocError> {
    let left = Txt::from_slice(alloc, text)?;
    let link = Pieces {
        inner: MemLink::new(alloc, left, fails),
        first,
        single,
    };
    hold_conversation::<Brand>(alloc, link, Blank::new(1))
}

fn hold_conversation<L: Ledger>(
    alloc: Global,
    link: Pieces,
    blank: Blank,
) -> Result<Came, AllocError>
    requires name { blank.name ≡ L.name }
    requires parts { blank.parts ≡ L.parts }
    requires some { 0 < blank.parts }
{
    let mut link = link;
    let mut service = Small { alloc };
    let mut steps = Steps::<L>::new(blank);
    let end = serve_link(alloc, &mut service, &mut link, &mut steps);
    let came = came_of(alloc, &end, link.inner.sent());
    drop(link);
    came
}

fn came_of(alloc: Global, end: &LinkEnd, sent: &Txt) -> Result<Came, AllocError> {
    let mut came = nothing(alloc);
    let filled = fill(&mut came, end, sent);
    kept(came, filled)
}

fn fill(came: &mut Came, end: &LinkEnd, sent: &Txt) -> Result<(), AllocError> {
    came.sent.extend(sent.as_bytes())?;
    put_end(end, &mut came.end)
}

fn put_end(end: &LinkEnd, out: &mut Txt) -> Result<(), AllocError> {
    match end {
        LinkEnd::Done => out.extend(b"done"),
        LinkEnd::Cut { left } => out.extend_all(&[b"cut [", left.as_bytes(), b"]"]),
        LinkEnd::Refused { status } => put_refused(*status, out),
        LinkEnd::Asked => out.extend(b"asked"),
        LinkEnd::Spent => out.extend(b"spent"),
        LinkEnd::LinkFailed => out.extend(b"failed"),
        LinkEnd::NoMemory => Err(AllocError),
    }
}

fn put_refused(status: u16, out: &mut Txt) -> Result<(), AllocError> {
    out.extend(b"refused ")?;
    write_decimal(u64::from(status), out)
}
