//! Calls of `target_expr` and `assign`: expressions, their truth and their bytes, and what a request
//! assigns.
//!
//! `case_exprs` says how expressions and assignments are written.
ghost use Rattle.std.specs.Prelude.{◌≡◌, ◌<◌};

use crate::campaigns::place_in;
use assign::assignment;
use bumpalo::Bump;
use case_exprs::{assignment_in, make_expr};
use case_lines::{done, number_in, say};
use rtb_base::Steps;
use rtb_num::{List, Txt, write_decimal};
use rtb_read::read_request;
use rtb_types::BidRequest;
use std::alloc::{AllocError, Global};
use std::marker::Brand;
use std::sync::ledger::{Blank, Ledger};
use target_expr::{Assignment, Attr, Expr, ExprBytes, ExprFault, Pair, attr_named};

/// Answers a call of this area, or tells that it is none.
///
/// - `attr_named | NAME`, `attr_with_number | N`: the attribute's number and name, or `none`.
/// - `make_expr | EXPRESSION`: the expression as it is kept, or the fault with its places.
/// - `holds | EXPRESSION | ASSIGNMENT`: yes or no.
/// - `expr_size | EXPRESSION`: how many conjunctions, values and bytes of values it has, and the size of
///   each conjunction.
/// - `expr_pairs | EXPRESSION`: each pair, with its conjunction and that one's size.
/// - `encode_expr | EXPRESSION`: its bytes. `decode_expr | BYTES | PLACE`: the place behind it and the
///   expression, or where it is torn.
/// - `assign | REQUEST | IMP`: what the impression of the JSON text assigns.
pub fn answer(alloc: Global, call: &[u8], args: &[Txt], out: &mut Txt) -> Result<bool, AllocError> {
    match args {
        [first, second] => of_two(alloc, call, first, second, out),
        [one] => of_one(alloc, call, one, out),
        _ => Ok(false),
    }
}

fn of_two(
    alloc: Global,
    call: &[u8],
    first: &Txt,
    second: &Txt,
    out: &mut Txt,
) -> Result<bool, AllocError> {
    if call == b"holds".as_slice() {
        return done(put_holds(alloc, first, second, out));
    }
    if call == b"decode_expr".as_slice() {
        return done(decode(alloc, first, second, out));
    }
    if call == b"assign".as_slice() {
        return done(put_assignment(alloc, first, second, out));
    }
    Ok(false)
}

fn of_one(alloc: Global, call: &[u8], one: &Txt, out: &mut Txt) -> Result<bool, AllocError> {
    if call == b"attr_named".as_slice() {
        return done(put_attr(attr_named(one.as_bytes()), out));
    }
    if call == b"attr_with_number".as_slice() {
        return done(put_attr(attr_numbered(one), out));
    }
    of_expr(alloc, call, one.as_bytes(), out)
}

fn put_attr(attr: Option<Attr>, out: &mut Txt) -> Result<(), AllocError> {
    match attr {
        Some(attr) => {
            write_decimal(u64::from(attr.number()), out)?;
            out.extend_all(&[b" ", attr.name()])
        }
        None => out.extend(b"none"),
    }
}

fn attr_numbered(n: &Txt) -> Option<Attr> {
    Attr::with_number(u8::try_from(number_in(n.as_bytes())?).ok()?)
}

fn put_holds(alloc: Global, written: &Txt, given: &Txt, out: &mut Txt) -> Result<(), AllocError> {
    match make_expr(alloc, written.as_bytes())? {
        Ok(expr) => {
            let told = put_holds_of(alloc, &expr, given, out);
            drop(expr);
            told
        }
        Err(fault) => put_expr_fault(fault, out),
    }
}

fn put_holds_of(alloc: Global, expr: &Expr, given: &Txt, out: &mut Txt) -> Result<(), AllocError> {
    let assignment = assignment_in(alloc, given.as_bytes())?;
    let told = put_truth(expr, &assignment, out);
    drop(assignment);
    told
}

fn put_truth(expr: &Expr, assignment: &Assignment, out: &mut Txt) -> Result<(), AllocError> {
    say(holds_by::<Brand>(expr, assignment, Blank::new(1)), out)
}

fn holds_by<L: Ledger>(expr: &Expr, assignment: &Assignment, blank: Blank) -> bool
    requires name { blank.name ≡ L.name }
    requires parts { blank.parts ≡ L.parts }
    requires some { 0 < blank.parts }
{
    let mut steps = Steps::<L>::new(blank);
    expr.holds(assignment, &mut steps)
}

fn pairs(expr: &Expr) -> Result<List<Pair>, AllocError> {
    pairs_by::<Brand>(expr, Blank::new(1))
}

fn pairs_by<L: Ledger>(expr: &Expr, blank: Blank) -> Result<List<Pair>, AllocError>
    requires name { blank.name ≡ L.name }
    requires parts { blank.parts ≡ L.parts }
    requires some { 0 < blank.parts }
{
    let mut steps = Steps::<L>::new(blank);
    expr.pairs(&mut steps)
}

fn decode(alloc: Global, bytes: &Txt, place: &Txt, out: &mut Txt) -> Result<(), AllocError> {
    match place_in(place) {
        Some(place) => decode_at(alloc, bytes.as_bytes(), place, out),
        None => out.extend(b"unreadable"),
    }
}

fn decode_at(alloc: Global, bytes: &[u8], place: usize, out: &mut Txt) -> Result<(), AllocError> {
    match Expr::decode(alloc, bytes, place) {
        Ok(read) => {
            let told = put_expr_behind(read.1, &read.0, out);
            drop(read);
            told
        }
        Err(ExprBytes::Torn { at }) => put_count(b"torn ", at as u64, out),
        Err(ExprBytes::Memory) => Err(AllocError),
    }
}

fn put_expr_behind(next: usize, expr: &Expr, out: &mut Txt) -> Result<(), AllocError> {
    put_count(b"", next as u64, out)?;
    out.push(b' ')?;
    put_expr(expr, out)
}

fn put_count(words: &[u8], n: u64, out: &mut Txt) -> Result<(), AllocError> {
    out.extend(words)?;
    write_decimal(n, out)
}

// The pairs, in the notation of expressions.
fn put_expr(expr: &Expr, out: &mut Txt) -> Result<(), AllocError> {
    let pairs = pairs(expr)?;
    let told = put_all_pairs(pairs.as_slice(), expr.conjunctions(), out);
    drop(pairs);
    told
}

fn put_all_pairs(pairs: &[Pair], conjunctions: usize, out: &mut Txt) -> Result<(), AllocError> {
    let mut before: Option<&Pair> = None;
    for pair in pairs {
        put_pair(before, pair, out)?;
        before = Some(pair);
    }
    put_bars(behind(before), conjunctions.saturating_sub(1), out)
}

// A bar for each conjunction from one to another.
fn put_bars(from: usize, to: usize, out: &mut Txt) -> Result<(), AllocError> {
    for _ in from..to {
        out.push(b'|')?;
    }
    Ok(())
}

// The conjunction of the pair before, or the first.
fn behind(before: Option<&Pair>) -> usize {
    match before {
        Some(pair) => pair.conjunction as usize,
        None => 0,
    }
}

// A pair behind another: of the same predicate, of the same conjunction, or of none of both.
fn put_pair(before: Option<&Pair>, pair: &Pair, out: &mut Txt) -> Result<(), AllocError> {
    put_bars(behind(before), pair.conjunction as usize, out)?;
    match before {
        Some(other) if other.conjunction == pair.conjunction => put_behind(other, pair, out),
        _ => put_whole(pair, out),
    }
}

// A pair behind another of the same conjunction.
fn put_behind(other: &Pair, pair: &Pair, out: &mut Txt) -> Result<(), AllocError> {
    if other.attr == pair.attr {
        return out.extend_all(&[b",", pair.value.as_bytes()]);
    }
    out.push(b'&')?;
    put_whole(pair, out)
}

fn put_whole(pair: &Pair, out: &mut Txt) -> Result<(), AllocError> {
    out.extend(pair.attr.name())?;
    out.push(if pair.negated { b'!' } else { b'=' })?;
    out.extend(pair.value.as_bytes())
}

fn put_assignment(alloc: Global, text: &Txt, imp: &Txt, out: &mut Txt) -> Result<(), AllocError> {
    match assignment_of(alloc, text, imp)? {
        Some(assignment) => {
            let told = put_given(&assignment, out);
            drop(assignment);
            told
        }
        None => out.extend(b"unreadable"),
    }
}

fn put_given(assignment: &Assignment, out: &mut Txt) -> Result<(), AllocError> {
    for pair in assignment.pairs() {
        out.extend(pair.0.name())?;
        out.extend_all(&[b"=", pair.1.as_bytes(), b";"])?;
    }
    Ok(())
}

// What the impression assigns, where there is such an impression.
fn assignment_of(alloc: Global, text: &Txt, imp: &Txt) -> Result<Option<Assignment>, AllocError> {
    match request_of(alloc, text) {
        Some(request) => {
            let given = assignment_at(alloc, &request, place_in(imp));
            drop(request);
            given
        }
        None => Ok(None),
    }
}

fn assignment_at(
    alloc: Global,
    request: &BidRequest,
    imp: Option<usize>,
) -> Result<Option<Assignment>, AllocError> {
    match imp {
        Some(imp) if imp < request.imps.len() => Ok(Some(assignment(alloc, request, imp)?)),
        _ => Ok(None),
    }
}

// The request of a JSON text.
fn request_of(alloc: Global, text: &Txt) -> Option<BidRequest> {
    let arena = Bump::new(alloc);
    match exact_json::read(alloc, &arena, text.as_bytes()) {
        Ok(doc) => read_request(alloc, &doc).ok(),
        Err(_) => None,
    }
}

// The calls that take an expression alone.
fn of_expr(alloc: Global, call: &[u8], written: &[u8], out: &mut Txt) -> Result<bool, AllocError> {
    if call == b"make_expr".as_slice()
        || call == b"expr_size".as_slice()
        || call == b"expr_pairs".as_slice()
        || call == b"encode_expr".as_slice()
    {
        return done(put_of_written(alloc, call, written, out));
    }
    Ok(false)
}

fn put_of_written(
    alloc: Global,
    call: &[u8],
    written: &[u8],
    out: &mut Txt,
) -> Result<(), AllocError> {
    match make_expr(alloc, written)? {
        Ok(expr) => {
            let told = put_of_expr(call, &expr, out);
            drop(expr);
            told
        }
        Err(fault) => put_expr_fault(fault, out),
    }
}

fn put_of_expr(call: &[u8], expr: &Expr, out: &mut Txt) -> Result<(), AllocError> {
    if call == b"make_expr".as_slice() {
        return put_expr(expr, out);
    }
    if call == b"expr_size".as_slice() {
        return put_size(expr, out);
    }
    if call == b"expr_pairs".as_slice() {
        return put_pairs(expr, out);
    }
    encode_copy(expr, out)
}

fn encode_copy(expr: &Expr, out: &mut Txt) -> Result<(), AllocError> {
    let copy = expr.copy()?;
    let encoded = copy.encode(out);
    drop(copy);
    encoded
}

fn put_size(expr: &Expr, out: &mut Txt) -> Result<(), AllocError> {
    put_count(b"", expr.conjunctions() as u64, out)?;
    put_count(b" conjunctions, ", expr.values() as u64, out)?;
    put_count(b" values, ", expr.text_bytes(), out)?;
    out.extend(b" bytes, sizes")?;
    let sizes = expr.sizes()?;
    for size in sizes.as_slice() {
        put_count(b" ", u64::from(*size), out)?;
    }
    Ok(())
}

fn put_pairs(expr: &Expr, out: &mut Txt) -> Result<(), AllocError> {
    let pairs = pairs(expr)?;
    for pair in pairs.as_slice() {
        put_count(b"", u64::from(pair.conjunction), out)?;
        put_count(b"/", u64::from(pair.size), out)?;
        out.push(b' ')?;
        put_whole(pair, out)?;
        out.push(b';')?;
    }
    Ok(())
}

// The fault in words, with the places of its conjunction and its predicate.
fn put_expr_fault(fault: ExprFault, out: &mut Txt) -> Result<(), AllocError> {
    match fault {
        ExprFault::NoConjunction => out.extend(b"no-conjunction"),
        ExprFault::Memory => Err(AllocError),
        ExprFault::EmptyList {
            conjunction,
            predicate,
        } => put_places(b"empty-list ", conjunction, predicate, out),
        ExprFault::AttrTwice {
            conjunction,
            predicate,
        } => put_places(b"attr-twice ", conjunction, predicate, out),
        ExprFault::TooMany {
            conjunction,
            predicate,
        } => put_places(b"too-many ", conjunction, predicate, out),
        ExprFault::UnknownAttr {
            conjunction,
            predicate,
        } => put_places(b"unknown-attr ", conjunction, predicate, out),
    }
}

fn put_places(
    words: &[u8],
    conjunction: usize,
    predicate: usize,
    out: &mut Txt,
) -> Result<(), AllocError> {
    put_count(words, conjunction as u64, out)?;
    put_count(b" ", predicate as u64, out)
}
