//! What a trace begins with.
ghost use Rattle.std.specs.Prelude.{◌≡◌, ◌++◌, ◌≤◌, IfOk, OnErr, OnOk, List, ℕ};
ghost use Rattle.byte_fields.specs.Codes.{IsReadAt};
ghost use Rattle.byte_fields.specs.Encodings.{IsShort};
ghost use Rattle.trace.specs.Parts.{IsMarkAt, IsPair, IsTtl, header_from, pair_bytes, ttl_bytes};
ghost use Rattle.trace.specs.Traces.{IsHeader, header_bytes};

use byte_fields::{Element, Found, get_eight, get_text, paired, put_eight, put_text};
use rtb_num::Txt;
use std::alloc::{AllocError, Global};

/// What all answers of a trace depend on beside its messages.
#[derive(Debug, Drop)]
pub struct Header {
    /// For how many milliseconds a sale is held: 1 to 31,536,000,000.
    pub ttl: u64,
    /// What the addresses of notices begin with.
    pub public: Txt,
}

const MARK: &[u8] = b"RTBXT01";

// A year.
const MOST_TTL: u64 = 31_536_000_000;

/// Headers, as what stands at a place.
pub struct Headers;

impl Element for Headers {
    type Item = Header;

    ghost IsValid = { IsHeader };

    ghost encode = { header_bytes };

    fn put(item: &Header, out: &mut Txt) -> Result<(), AllocError> {
        append_header(item.ttl, &item.public, out)
    }

    fn get(alloc: Global, bytes: &[u8], place: usize) -> Found<Header> {
        get_header(alloc, bytes, place)
    }
}

/// Appends a header, all or none.
pub fn put_header(ttl: u64, public: &Txt, out: &mut Txt) -> Result<(), AllocError>
    requires range { (1 ≤ ttl) × (ttl ≤ 31536000000) }
    requires public { IsShort public.now }
    ensures ok { OnOk result (out.new ≡ out.old ++ header_bytes (record { ttl = ttl; public = public.now })) }
    ensures err { OnErr result (out.new ≡ out.old) }
{
    let before = out.len();
    let done = append_header(ttl, public, out);
    out.settle(before, done)
}

// The same; where memory is refused, a front may stay.
#[tactic(auto, unfolding(crate::specs::Traces::header_bytes))]
fn append_header(ttl: u64, public: &Txt, out: &mut Txt) -> Result<(), AllocError>
    requires public { IsShort public.now }
    ensures ok { OnOk result (out.new ≡ out.old ++ header_bytes (record { ttl = ttl; public = public.now })) }
    ensures front { (more : List ℕ) × (out.new ≡ out.old ++ more) }
{
    out.extend(MARK)?;
    put_eight(ttl, out)?;
    put_text(public.as_bytes(), out)?;
    Ok(())
}

/// The header at the place, and the place behind it; none where no whole header begins there.
pub fn get_header(alloc: Global, bytes: &[u8], place: usize) -> Found<Header>
    ensures { IfOk result (IsReadAt IsHeader header_bytes bytes.now place) }
{
    let Some((parts, next)) = get_pair(alloc, bytes, place)? else {
        return Ok(None);
    };
    let (ttl, public) = parts;
    Ok(Some((Header { ttl, public }, next)))
}

fn get_pair(alloc: Global, bytes: &[u8], place: usize) -> Found<(u64, Txt)>
    ensures { IfOk result (IsReadAt IsPair pair_bytes bytes.now place) }
{
    let Some((ttl, next)) = get_ttl(bytes, place) else {
        return Ok(None);
    };
    paired(ttl, get_text(alloc, bytes, next))
}

// The place behind the mark, where it stands at the place.
fn get_mark(bytes: &[u8], place: usize) -> Option<usize>
    ensures { IsMarkAt bytes.now place result }
{
    if place > bytes.len() {
        return None;
    }
    if bytes[place..].starts_with(MARK) {
        Some(place + MARK.len())
    } else {
        None
    }
}

// The mark and the milliseconds behind it.
fn get_ttl(bytes: &[u8], place: usize) -> Option<(u64, usize)>
    ensures { IsReadAt IsTtl ttl_bytes bytes.now place result }
{
    let next = get_mark(bytes, place)?;
    let (ttl, next) = get_eight(bytes, next)?;
    if ttl == 0 || ttl > MOST_TTL {
        return None;
    }
    Some((ttl, next))
}
