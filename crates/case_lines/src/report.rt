//! Cases, one after the other.
ghost use Rattle.std.specs.Prelude.{◌≡◌, ◌≢◌};
ghost use Rattle.rtb_base.specs.Faults.{RisesOnlyWhere, Rose};
ghost use Rattle.rtb_io.specs.declared.status.Status.TheVariants.{NotRead, NotWritten};

use crate::notation::{expand, show};
use crate::words::done;
use rtb_io::{ReadFault, Status, read_all, write_all};
use rtb_num::{List, Sink, Source, Txt, write_decimal};
use std::alloc::{AllocError, Global};

/// The longest list of cases, in bytes.
const MOST_BYTES: usize = 4_194_304;

/// Writes a report on the cases that it reads: each line that is answered otherwise than it says, with what came, and
/// last `N cases, M differ`. The function given appends the answer of a call to its arguments, or tells that the program
/// has no such call.
pub fn run_cases<
    F: Fn(Global, &[u8], &[Txt], &mut Txt) -> Result<bool, AllocError>,
    I: Source,
    O: Sink,
>(answer: &F, alloc: Global, source: &mut I, sink: &mut O) -> Status
    requires callable { F.IsAlwaysCallable answer.now }
    ensures not_written { RisesOnlyWhere (result ≡ NotWritten) (O.faults sink.old) (O.faults sink.new) }
    ensures not_read { RisesOnlyWhere (result ≡ NotRead) (I.faults source.old) (I.faults source.new) }
{
    match read_all(alloc, source, MOST_BYTES) {
        Ok(input) => tell_report(answer, alloc, input.as_bytes(), sink),
        Err(ReadFault::Failed) => Status::NotRead,
        Err(ReadFault::Memory) => Status::Memory,
    }
}

// Writes the report on this input.
fn tell_report<F: Fn(Global, &[u8], &[Txt], &mut Txt) -> Result<bool, AllocError>, O: Sink>(
    answer: &F,
    alloc: Global,
    input: &[u8],
    sink: &mut O,
) -> Status
    requires callable { F.IsAlwaysCallable answer.now }
    ensures not_written { RisesOnlyWhere (result ≡ NotWritten) (O.faults sink.old) (O.faults sink.new) }
    ensures read { result ≢ NotRead }
{
    match report_on(answer, alloc, input) {
        Ok(report) => match write_all(sink, report.as_bytes()) {
            Ok(()) => Status::Done,
            Err(_) => Status::NotWritten,
        },
        Err(AllocError) => Status::Memory,
    }
}

// Each line whose answer differs, with what came, and last `N cases, M differ`.
fn report_on<F: Fn(Global, &[u8], &[Txt], &mut Txt) -> Result<bool, AllocError>>(
    answer: &F,
    alloc: Global,
    input: &[u8],
) -> Result<Txt, AllocError>
    requires callable { F.IsAlwaysCallable answer.now }
{
    let mut report = Txt::new(alloc);
    match put_report(answer, alloc, input, &mut report) {
        Ok(()) => Ok(report),
        Err(refused) => {
            drop(report);
            Err(refused)
        }
    }
}

fn put_report<F: Fn(Global, &[u8], &[Txt], &mut Txt) -> Result<bool, AllocError>>(
    answer: &F,
    alloc: Global,
    input: &[u8],
    report: &mut Txt,
) -> Result<(), AllocError>
    requires callable { F.IsAlwaysCallable answer.now }
{
    if input.len() > MOST_BYTES {
        report.extend(b"there are more cases than are read\n")?;
    }
    match str::from_utf8(input) {
        Ok(text) => put_lines(answer, alloc, text, report),
        Err(_) => report.extend(b"the cases are not UTF-8\n0 cases, 0 differ\n"),
    }
}

fn put_lines<F: Fn(Global, &[u8], &[Txt], &mut Txt) -> Result<bool, AllocError>>(
    answer: &F,
    alloc: Global,
    text: &str,
    report: &mut Txt,
) -> Result<(), AllocError>
    requires callable { F.IsAlwaysCallable answer.now }
{
    let mut cases: u64 = 0;
    let mut differ: u64 = 0;
    for line in text.lines() {
        if !line.is_empty() && !line.starts_with('#') {
            cases = cases.saturating_add(1);
            if !agrees(answer, alloc, line, report)? {
                differ = differ.saturating_add(1);
            }
        }
    }
    write_decimal(cases, report)?;
    report.extend(b" cases, ")?;
    write_decimal(differ, report)?;
    report.extend(b" differ\n")
}

// Whether a case is answered as it says. One that is not is told, with what came.
fn agrees<F: Fn(Global, &[u8], &[Txt], &mut Txt) -> Result<bool, AllocError>>(
    answer: &F,
    alloc: Global,
    line: &str,
    report: &mut Txt,
) -> Result<bool, AllocError>
    requires callable { F.IsAlwaysCallable answer.now }
{
    let mut came = Txt::new(alloc);
    let told = try_case(answer, alloc, line, &mut came, report);
    drop(came);
    told
}

fn try_case<F: Fn(Global, &[u8], &[Txt], &mut Txt) -> Result<bool, AllocError>>(
    answer: &F,
    alloc: Global,
    line: &str,
    came: &mut Txt,
    report: &mut Txt,
) -> Result<bool, AllocError>
    requires callable { F.IsAlwaysCallable answer.now }
{
    if answer_to(answer, alloc, line, came)? {
        return Ok(true);
    }
    report.extend(line.as_bytes())?;
    report.extend(b"\n  came: ")?;
    show(came.as_bytes(), report)?;
    report.push(b'\n')?;
    Ok(false)
}

// What a case was answered, and whether that is what it says.
fn answer_to<F: Fn(Global, &[u8], &[Txt], &mut Txt) -> Result<bool, AllocError>>(
    answer: &F,
    alloc: Global,
    line: &str,
    came: &mut Txt,
) -> Result<bool, AllocError>
    requires callable { F.IsAlwaysCallable answer.now }
{
    let Some((asked, wanted)) = line.rsplit_once(" => ") else {
        return tell(b"no answer is given", came);
    };
    let mut fields = List::new(alloc);
    let mut expected = Txt::new(alloc);
    let told = compare(
        answer,
        alloc,
        asked,
        wanted,
        &mut fields,
        &mut expected,
        came,
    );
    drop(fields);
    drop(expected);
    told
}

// Asks for the call of these fields, and compares what comes with what is wanted.
fn compare<F: Fn(Global, &[u8], &[Txt], &mut Txt) -> Result<bool, AllocError>>(
    answer: &F,
    alloc: Global,
    asked: &str,
    wanted: &str,
    fields: &mut List<Txt>,
    expected: &mut Txt,
    came: &mut Txt,
) -> Result<bool, AllocError>
    requires callable { F.IsAlwaysCallable answer.now }
{
    if !expand(wanted, expected)? {
        return tell(b"the answer is not in the notation", came);
    }
    if !put_fields(alloc, asked, fields)? {
        return tell(b"a field is not in the notation", came);
    }
    if !ask(answer, alloc, fields.as_slice(), came)? {
        return tell(b"no such call", came);
    }
    Ok(came.as_bytes() == expected.as_bytes())
}

// A case that could not be asked.
fn tell(why: &[u8], came: &mut Txt) -> Result<bool, AllocError> {
    came.truncate(0);
    came.extend(why)?;
    Ok(false)
}

// Appends the call and its arguments. Tells whether each is in the notation.
fn put_fields(alloc: Global, asked: &str, fields: &mut List<Txt>) -> Result<bool, AllocError> {
    for field in asked.split(" | ") {
        if !put_field(alloc, field, fields)? {
            return Ok(false);
        }
    }
    Ok(true)
}

fn put_field(alloc: Global, field: &str, fields: &mut List<Txt>) -> Result<bool, AllocError> {
    let mut bytes = Txt::new(alloc);
    match expand(field, &mut bytes) {
        Ok(true) => done(fields.push(bytes)),
        other => {
            drop(bytes);
            other
        }
    }
}

// The first field is the call.
fn ask<F: Fn(Global, &[u8], &[Txt], &mut Txt) -> Result<bool, AllocError>>(
    answer: &F,
    alloc: Global,
    all: &[Txt],
    out: &mut Txt,
) -> Result<bool, AllocError>
    requires callable { F.IsAlwaysCallable answer.now }
{
    match all {
        [call, args @ ..] => answer(alloc, call.as_bytes(), args, out),
        [] => Ok(false),
    }
}
