//! Calls of `campaign` and `campaign_read`: campaigns, their faults and their bytes.
use crate::requests::{put_listed, put_numbers, put_signed};
use bumpalo::Bump;
use campaign::{CampField, Cap, FactBytes, FactFault, FactParts, Facts};
use campaign_read::read_campaign;
use case_lines::{done, kept, number_in};
use exact_json::{Doc, read};
use rtb_num::{List, Micros, Nanos, Txt, write_decimal};
use std::alloc::{AllocError, Global};
use target_expr::Expr;

/// Answers a call of this area, or tells that it is none.
///
/// - `read_campaign | CAMPAIGN`: of the JSON text, what it states, or `refused`.
/// - `why_no_campaign | CAMPAIGN`: what is wrong with it, in words.
/// - `make_facts | W | H | ATTR`: `made`, or the fault, of facts with this size, or `none`, and these attributes, each
///   with `;` behind it; their other fields are right.
/// - `decode_facts | BYTES | PLACE`: the place behind the facts and what they state, or where they are torn.
pub fn answer(alloc: Global, call: &[u8], args: &[Txt], out: &mut Txt) -> Result<bool, AllocError> {
    match args {
        [w, h, attr] if call == b"make_facts".as_slice() => {
            done(make_facts(alloc, w.as_bytes(), h.as_bytes(), attr.as_bytes(), out))
        }
        [bytes, place] if call == b"decode_facts".as_slice() => done(decode(
            alloc, bytes, place, out,
        )),
        [text] if call == b"read_campaign".as_slice() => {
            done(tell(alloc, text.as_bytes(), false, out))
        }
        [text] if call == b"why_no_campaign".as_slice() => {
            done(tell(alloc, text.as_bytes(), true, out))
        }
        _ => Ok(false),
    }
}

/// A number that fits a place.
pub fn place_in(text: &Txt) -> Option<usize> {
    usize::try_from(number_in(text.as_bytes())?).ok()
}

// ---- what is read

fn tell(alloc: Global, text: &[u8], is_why: bool, out: &mut Txt) -> Result<(), AllocError> {
    let arena = Bump::new(alloc);
    match read(alloc, &arena, text) {
        Ok(doc) if is_why => put_why(alloc, &doc, out),
        Ok(doc) => put_campaign(alloc, &doc, out),
        Err(fault) => out.extend(format!(in alloc; "{fault}")?.as_bytes()),
    }
}

// Why the text is no campaign, in words.
fn put_why(alloc: Global, doc: &Doc<'_>, out: &mut Txt) -> Result<(), AllocError> {
    match read_campaign(alloc, doc).err() {
        None => out.extend(b"it is one"),
        Some(fault) => out.extend(format!(in alloc; "{fault}")?.as_bytes()),
    }
}

fn put_campaign(alloc: Global, doc: &Doc<'_>, out: &mut Txt) -> Result<(), AllocError> {
    match read_campaign(alloc, doc).ok() {
        Some(read) => {
            let written = put_stated(&read.0, &read.1, out);
            drop(read);
            written
        }
        None => out.extend(b"refused"),
    }
}

fn put_stated(facts: &Facts, target: &Expr, out: &mut Txt) -> Result<(), AllocError> {
    put_facts(facts, out)?;
    put_number(b"; target ", target.conjunctions() as u64, out)?;
    put_number(b" of ", target.values() as u64, out)
}

fn put_number(words: &[u8], n: u64, out: &mut Txt) -> Result<(), AllocError> {
    out.extend(words)?;
    write_decimal(n, out)
}

// ---- what facts state

fn put_facts(facts: &Facts, out: &mut Txt) -> Result<(), AllocError> {
    out.extend_all(&[b"seat ", facts.seat().as_bytes()])?;
    out.extend_all(&[b"; adomain ", facts.adomain().as_bytes()])?;
    put_listed(b"; cat ", facts.cat(), out)?;
    put_look(facts, out)?;
    put_number(b"; bid ", facts.bid().get(), out)?;
    put_listed(b"; deals ", facts.deals(), out)?;
    put_number(b"; budget ", facts.budget().get(), out)?;
    put_creative(facts, out)?;
    put_cap(facts.cap(), out)?;
    put_number(b"; ", facts.text_bytes(), out)?;
    out.extend(b" bytes of text")
}

fn put_look(facts: &Facts, out: &mut Txt) -> Result<(), AllocError> {
    if let Some((w, h)) = facts.size() {
        put_signed(b"; ", w, out)?;
        put_signed(b"x", h, out)?;
    }
    out.extend(b"; attr")?;
    put_numbers(b" ", facts.attr().as_slice(), out)?;
    if facts.secure() {
        return out.extend(b"; secure");
    }
    Ok(())
}

fn put_creative(facts: &Facts, out: &mut Txt) -> Result<(), AllocError> {
    out.extend_all(&[b"; adm ", facts.adm().as_bytes()])?;
    out.extend_all(&[b"; crid ", facts.crid().as_bytes()])?;
    match facts.adid() {
        Some(adid) => out.extend_all(&[b"; adid ", adid.as_bytes()]),
        None => Ok(()),
    }
}

fn put_cap(cap: Option<Cap>, out: &mut Txt) -> Result<(), AllocError> {
    match cap {
        Some(cap) => {
            put_number(b"; cap ", u64::from(cap.count()), out)?;
            put_number(b" in ", u64::from(cap.seconds()), out)
        }
        None => Ok(()),
    }
}

// ---- facts by their fields

fn make_facts(
    alloc: Global,
    w: &[u8],
    h: &[u8],
    attr: &[u8],
    out: &mut Txt,
) -> Result<(), AllocError> {
    let (Some(bid), Some(budget)) = (Micros::new(2_500_000), Nanos::new(5_000_000_000)) else {
        return out.extend(b"unreadable");
    };
    let mut parts = bare(alloc, bid, budget);
    parts.w = signed_in(w);
    parts.h = signed_in(h);
    let filled = fill(attr, &mut parts);
    put_made(kept(parts, filled)?, out)
}

// Makes the parts right, and sets the attributes.
fn fill(attr: &[u8], parts: &mut FactParts) -> Result<(), AllocError> {
    parts.seat.extend(b"s1")?;
    parts.adomain.extend(b"a.b")?;
    parts.crid.extend(b"c")?;
    for item in attr.split(|c| *c == b';') {
        if let Some(n) = signed_in(item) {
            parts.attr.push(n)?;
        }
    }
    Ok(())
}

fn signed_in(text: &[u8]) -> Option<i32> {
    str::from_utf8(text).ok()?.parse::<i32>().ok()
}

fn put_made(parts: FactParts, out: &mut Txt) -> Result<(), AllocError> {
    if parts.budget.get() % 1000 != 0 {
        drop(parts);
        return out.extend(b"unreadable");
    }
    match Facts::make(parts).err() {
        None => out.extend(b"made"),
        Some(fault) => put_fact(fault, out),
    }
}

fn put_fact(fault: FactFault, out: &mut Txt) -> Result<(), AllocError> {
    match fault {
        FactFault::TextLength { field } => put(b"text-length ", field, out),
        FactFault::ListLength { field } => put(b"list-length ", field, out),
        FactFault::BidZero => out.extend(b"bid-zero"),
        FactFault::Size => out.extend(b"size"),
    }
}

// The words and the path of the field.
fn put(words: &[u8], field: CampField, out: &mut Txt) -> Result<(), AllocError> {
    out.extend(words)?;
    field.write(out)
}

// Parts whose texts are empty.
fn bare(alloc: Global, bid: Micros, budget: Nanos) -> FactParts {
    FactParts {
        seat: Txt::new(alloc),
        adomain: Txt::new(alloc),
        cat: List::new(alloc),
        w: None,
        h: None,
        attr: List::new(alloc),
        secure: true,
        bid,
        deals: List::new(alloc),
        budget,
        adm: Txt::new(alloc),
        crid: Txt::new(alloc),
        adid: None,
        cap: None,
    }
}

// ---- bytes

fn decode(alloc: Global, bytes: &Txt, place: &Txt, out: &mut Txt) -> Result<(), AllocError> {
    match place_in(place) {
        Some(place) => decode_at(alloc, bytes.as_bytes(), place, out),
        None => out.extend(b"unreadable"),
    }
}

fn decode_at(alloc: Global, bytes: &[u8], place: usize, out: &mut Txt) -> Result<(), AllocError> {
    match Facts::decode(alloc, bytes, place) {
        Ok(read) => {
            let written = put_facts_behind(read.1, &read.0, out);
            drop(read);
            written
        }
        Err(FactBytes::Torn { at }) => put_number(b"torn ", at as u64, out),
        Err(FactBytes::Memory) => Err(AllocError),
    }
}

fn put_facts_behind(next: usize, facts: &Facts, out: &mut Txt) -> Result<(), AllocError> {
    put_number(b"", next as u64, out)?;
    out.extend(b": ")?;
    put_facts(facts, out)
}
