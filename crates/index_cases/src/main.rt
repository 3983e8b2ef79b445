//! The program `index_cases`: reads cases of expressions in conjunctive form, a line each, and prints those that are
//! answered otherwise than they say.
//!
//! `case_lines` says what a case is. Expressions and an assignment are written as `which` reads them: a JSON text with the
//! members `assignment` and `expressions`. Where it is none, or an expression has a fault, the answer is `unreadable`.
//!
//! - `cnf_find | REQUEST`: the numbers of the expressions that the index of all finds, or `none`.
//! - `top | N | REQUEST`: the best N, as `3:7` for expression 3 with a score of 7, or `none`.
//! - `certify | N | REQUEST`: the marks of all, where the best N are chosen, as `chosen false:0 later:5`.
//! - `check | N | REQUEST | BEST | MARKS`: whether these are the best N, and these the marks of all.
#![tactic(auto)]

ghost use Rattle.std.specs.Prelude.{◌≡◌, ◌+◌, ◌≤◌, ◌<◌, length};
ghost use Rattle.std.specs.List.{All};
ghost use Rattle.cnf_match.specs.Content.{IsIndexOf};
ghost use Rattle.exact_json.specs.Forms.{HasForms};
ghost use Rattle.exact_json.specs.View.{tree_of};

use bumpalo::Bump;
use case_lines::{done, kept, number_in, put_space, run_cases, say};
use cnf_match::{CnfExpr, CnfIndex, MOST_EXPRESSIONS};
use exact_json::{Doc, Value, read};
use json_fields::required_array;
use rtb_base::Steps;
use rtb_num::{List, StdSink, StdSource, Txt, write_decimal};
use std::alloc::{AllocError, Global};
use std::io;
use std::marker::Brand;
use std::process::ExitCode;
use std::sync::ledger::{Blank, Ledger};
use target_expr::Assignment;
use top_match::{Mark, Scored, certify, check, top};
use which_read::{WhichFault, assignment_field, read_expression};

// The report on all cases of standard input, or the status of what stood in the way.
fn main(rt: HostRuntime) -> ExitCode {
    let mut source = StdSource::new(rt.reader());
    let mut sink = StdSink::new(io::writer(&rt));
    ExitCode::from(run_cases(&answer, rt.alloc(), &mut source, &mut sink).code())
}

// What is asked about expressions and an assignment.
#[derive(Clone, Copy)]
enum Asked<'a> {
    Find,
    Top(u32),
    Certify(u32),
    Check(u32, &'a List<Scored>, &'a List<Mark>),
}

fn answer(alloc: Global, call: &[u8], args: &[Txt], out: &mut Txt) -> Result<bool, AllocError> {
    match args {
        [request] if call == b"cnf_find".as_slice() => {
            done(ask(alloc, &Asked::Find, request.as_bytes(), out))
        }
        [n, request] if call == b"top".as_slice() => {
            let asked = Asked::Top(count_in(n.as_bytes()));
            done(ask(alloc, &asked, request.as_bytes(), out))
        }
        [n, request] if call == b"certify".as_slice() => {
            let asked = Asked::Certify(count_in(n.as_bytes()));
            done(ask(alloc, &asked, request.as_bytes(), out))
        }
        [n, request, best, marks] if call == b"check".as_slice() => done(ask_checked(
            alloc,
            count_in(n.as_bytes()),
            request.as_bytes(),
            best.as_bytes(),
            marks.as_bytes(),
            out,
        )),
        _ => Ok(false),
    }
}

fn count_in(word: &[u8]) -> u32 {
    number_in(word)
        .and_then(|n| u32::try_from(n).ok())
        .unwrap_or(0)
}

fn ask_checked(
    alloc: Global,
    n: u32,
    request: &[u8],
    best: &[u8],
    marks: &[u8],
    out: &mut Txt,
) -> Result<(), AllocError> {
    let best = scored_in(alloc, best)?;
    let marks = marks_in(alloc, marks)?;
    let told = ask(alloc, &Asked::Check(n, &best, &marks), request, out);
    drop(best);
    drop(marks);
    told
}

// ---- what is claimed

fn scored_in(alloc: Global, line: &[u8]) -> Result<List<Scored>, AllocError> {
    let mut all = List::new(alloc);
    let filled = put_all_scored(line, &mut all);
    kept(all, filled)
}

fn put_all_scored(line: &[u8], all: &mut List<Scored>) -> Result<(), AllocError> {
    for word in line.split(|byte| *byte == b' ') {
        let (name, number) = parts(word);
        if name != b"none".as_slice() {
            all.push(Scored {
                number: count_in(name),
                score: number,
            })?;
        }
    }
    Ok(())
}

fn marks_in(alloc: Global, line: &[u8]) -> Result<List<Mark>, AllocError> {
    let mut all = List::new(alloc);
    let filled = put_all_marks(line, &mut all);
    kept(all, filled)
}

fn put_all_marks(line: &[u8], all: &mut List<Mark>) -> Result<(), AllocError> {
    for word in line.split(|byte| *byte == b' ') {
        if !word.is_empty() {
            all.push(mark_in(word))?;
        }
    }
    Ok(())
}

fn mark_in(word: &[u8]) -> Mark {
    let (name, number) = parts(word);
    if name == b"later".as_slice() {
        return Mark::Later { score: number };
    }
    if name == b"false".as_slice() {
        return Mark::False {
            clause: (number % 16) as u32,
        };
    }
    Mark::Chosen
}

// What stands before the colon, and the number behind it, or 0.
fn parts(word: &[u8]) -> (&[u8], u64) {
    match word.iter().position(|byte| *byte == b':') {
        Some(place) => (&word[..place], number_in(&word[place + 1..]).unwrap_or(0)),
        None => (word, 0),
    }
}

// ---- what is asked of

fn ask(alloc: Global, asked: &Asked<'_>, request: &[u8], out: &mut Txt) -> Result<(), AllocError> {
    let arena = Bump::new(alloc);
    let told = match read(alloc, &arena, request) {
        Ok(doc) => ask_in(alloc, asked, &doc, out),
        Err(_) => out.extend(b"unreadable"),
    };
    drop(arena);
    told
}

fn ask_in(
    alloc: Global,
    asked: &Asked<'_>,
    doc: &Doc<'_>,
    out: &mut Txt,
) -> Result<(), AllocError> {
    let body = doc.root();
    match required_array(body, b"expressions") {
        Ok(values) if values.len() <= MOST_EXPRESSIONS => {
            ask_among(alloc, asked, body, values, out)
        }
        _ => out.extend(b"unreadable"),
    }
}

// Where all of these are expressions, and there is an assignment.
fn ask_among(
    alloc: Global,
    asked: &Asked<'_>,
    body: &Value<'_>,
    values: &[Value<'_>],
    out: &mut Txt,
) -> Result<(), AllocError>
    requires few { length values.now ≤ 4096 }
    requires forms { All (λ v. HasForms (tree_of v)) values.now }
{
    let mut expressions = List::with_capacity(alloc, values.len())?;
    let told = match read_all(alloc, values, &mut expressions) {
        Ok(()) => ask_of(alloc, asked, body, &expressions, out),
        Err(WhichFault::Memory) => Err(AllocError),
        Err(_) => out.extend(b"unreadable"),
    };
    drop(expressions);
    told
}

// Appends the expressions that are written so.
fn read_all<'a>(
    alloc: Global,
    values: &[Value<'a>],
    expressions: &mut List<CnfExpr<'a>>,
) -> Result<(), WhichFault>
    requires few { length values.now ≤ 4096 }
    requires forms { All (λ v. HasForms (tree_of v)) values.now }
    ensures { length expressions.new ≤ length expressions.old + length values.now }
{
    for (place, value) in values.iter().enumerate() {
        let expression = read_expression(alloc, place, value)?;
        expressions.push(expression)?;
    }
    Ok(())
}

fn ask_of(
    alloc: Global,
    asked: &Asked<'_>,
    body: &Value<'_>,
    expressions: &List<CnfExpr<'_>>,
    out: &mut Txt,
) -> Result<(), AllocError>
    requires few { length expressions.now ≤ 4096 }
{
    match assignment_field(alloc, body) {
        Ok(assignment) => {
            let told = tell(alloc, asked, &assignment, expressions, out);
            drop(assignment);
            told
        }
        Err(WhichFault::Memory) => Err(AllocError),
        Err(_) => out.extend(b"unreadable"),
    }
}

fn tell(
    alloc: Global,
    asked: &Asked<'_>,
    assignment: &Assignment,
    expressions: &List<CnfExpr<'_>>,
    out: &mut Txt,
) -> Result<(), AllocError>
    requires few { length expressions.now ≤ 4096 }
{
    match asked {
        Asked::Check(n, best, marks) => {
            say(check(expressions, assignment, *n, best, marks), out)
        }
        _ => {
            let index = CnfIndex::build(alloc, expressions)?;
            let told = put_found::<Brand>(
                alloc,
                asked,
                assignment,
                expressions,
                &index,
                Blank::new(1),
                out,
            );
            drop(index);
            told
        }
    }
}

fn put_found<L: Ledger>(
    alloc: Global,
    asked: &Asked<'_>,
    assignment: &Assignment,
    expressions: &List<CnfExpr<'_>>,
    index: &CnfIndex,
    blank: Blank,
    out: &mut Txt,
) -> Result<(), AllocError>
    requires name { blank.name ≡ L.name }
    requires parts { blank.parts ≡ L.parts }
    requires some { 0 < blank.parts }
    requires index { IsIndexOf expressions.now index.now }
{
    let mut steps = Steps::<L>::new(blank);
    let found = index.find(alloc, assignment, &mut steps)?;
    match asked {
        Asked::Top(n) => {
            let best = top(alloc, expressions, &found, assignment, *n)?;
            put_best(best.as_slice(), out)
        }
        Asked::Certify(n) => {
            let best = top(alloc, expressions, &found, assignment, *n)?;
            let marks = certify(alloc, expressions, assignment, &best)?;
            put_marks(marks.as_slice(), out)
        }
        _ => put_numbers(found.as_slice(), out),
    }
}

fn put_numbers(numbers: &[u32], out: &mut Txt) -> Result<(), AllocError> {
    if numbers.is_empty() {
        return out.extend(b"none");
    }
    for (place, number) in numbers.iter().enumerate() {
        put_space(place, out)?;
        write_decimal(u64::from(*number), out)?;
    }
    Ok(())
}

fn put_best(best: &[Scored], out: &mut Txt) -> Result<(), AllocError> {
    if best.is_empty() {
        return out.extend(b"none");
    }
    for (place, scored) in best.iter().enumerate() {
        put_space(place, out)?;
        write_decimal(scored.number as u64, out)?;
        put_behind(b"", scored.score, out)?;
    }
    Ok(())
}

fn put_marks(marks: &[Mark], out: &mut Txt) -> Result<(), AllocError> {
    for (place, mark) in marks.iter().enumerate() {
        put_space(place, out)?;
        put_one(*mark, out)?;
    }
    Ok(())
}

fn put_one(mark: Mark, out: &mut Txt) -> Result<(), AllocError> {
    match mark {
        Mark::Chosen => out.extend(b"chosen"),
        Mark::False { clause } => put_behind(b"false", clause as u64, out),
        Mark::Later { score } => put_behind(b"later", score, out),
    }
}

// Appends the word, a colon and the number.
fn put_behind(word: &[u8], n: u64, out: &mut Txt) -> Result<(), AllocError> {
    out.extend(word)?;
    out.push(b':')?;
    write_decimal(n, out)
}
