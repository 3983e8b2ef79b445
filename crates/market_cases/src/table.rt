//! Commands of a table. A record is written `CONJUNCTIONS VALUES BYTES`: so many conjunctions, each with so many
//! values of so many bytes; its facts have four bytes of text.
//!
//! - `add TIMES CONJUNCTIONS VALUES BYTES`: campaigns with one record; says how many were added, and then which
//!   limit stood in the way, if one did.
//! - `change CAMPAIGN CONJUNCTIONS VALUES BYTES`: says `ok`, or which limit stood in the way.
//! - `pause CAMPAIGN`, `resume CAMPAIGN`: says `ok`, or `no` where it is not live, or not paused.
//! - `live CAMPAIGN`: `live`, `paused` or `none`.
//! - `holds CAMPAIGN`: `CONJUNCTIONS VALUES` of its record, or `none`.
//! - `count`, `edits`.
//! - `snapshot`: the edit, and the numbers of the live campaigns.
ghost use Rattle.std.specs.Prelude.{◌≡◌, ◌≤◌, ◌<◌, ◌^◌, IsTrue, None, OnOk, Option, Some, length};
ghost use Rattle.campaign_store.specs.Limits.{passed_limit};
ghost use Rattle.campaign_store.specs.Table.{entries_with};

use crate::records::{Shape, record_of};
use crate::words::{campaign_at, number_at, put_mark, put_numbers, word_at};
use campaign_store::{Limit, SharedRecord, Snapshot, Table};
use case_lines::put_comma;
use rtb_num::{Txt, write_decimal};
use std::alloc::{AllocError, Global};

// The most edits that a table may have had before one more.
const MOST_EDITS: u64 = 1 << 62;

pub fn run(alloc: Global, commands: &[Txt], out: &mut Txt) -> Result<(), AllocError> {
    let mut table = Table::new(alloc);
    let ran = run_all(alloc, &mut table, commands, out);
    drop(table);
    ran
}

fn run_all(
    alloc: Global,
    table: &mut Table,
    commands: &[Txt],
    out: &mut Txt,
) -> Result<(), AllocError> {
    for (i, command) in commands.iter().enumerate() {
        put_mark(i, out)?;
        run_one(alloc, table, command.as_bytes(), out)?;
    }
    Ok(())
}

fn run_one(
    alloc: Global,
    table: &mut Table,
    command: &[u8],
    out: &mut Txt,
) -> Result<(), AllocError> {
    if change_one(alloc, table, command, out)? {
        return Ok(());
    }
    if tell_one(table, command, out)? {
        return Ok(());
    }
    tell_all(table, command, out)
}

fn change_one(
    alloc: Global,
    table: &mut Table,
    command: &[u8],
    out: &mut Txt,
) -> Result<bool, AllocError> {
    let name = word_at(command, 0);
    if name == b"add".as_slice() {
        return add(alloc, table, command, out);
    }
    if name == b"change".as_slice() {
        return change(alloc, table, command, out);
    }
    if name == b"pause".as_slice() {
        return pause(table, campaign_at(command, 1), out);
    }
    if name == b"resume".as_slice() {
        return resume(table, campaign_at(command, 1), out);
    }
    Ok(false)
}

fn tell_one(table: &Table, command: &[u8], out: &mut Txt) -> Result<bool, AllocError> {
    let name = word_at(command, 0);
    if name == b"live".as_slice() {
        return put_live(table.live(campaign_at(command, 1)), out);
    }
    if name == b"holds".as_slice() {
        return put_record(table.get(campaign_at(command, 1)), out);
    }
    Ok(false)
}

fn tell_all(table: &Table, command: &[u8], out: &mut Txt) -> Result<(), AllocError> {
    let name = word_at(command, 0);
    if name == b"count".as_slice() {
        return write_decimal(u64::from(table.count()), out);
    }
    if name == b"edits".as_slice() {
        return write_decimal(table.edits(), out);
    }
    if name == b"snapshot".as_slice() {
        return tell_snapshot(table, out);
    }
    out.extend(b"?")
}

fn shape_at(command: &[u8]) -> Shape {
    Shape {
        conjunctions: number_at(command, 2),
        values: number_at(command, 3),
        bytes: campaign_at(command, 4) as usize,
    }
}

// ---- changes

fn add(
    alloc: Global,
    table: &mut Table,
    command: &[u8],
    out: &mut Txt,
) -> Result<bool, AllocError> {
    match record_of(alloc, shape_at(command))? {
        Some(entry) => {
            let put = add_times(table, &entry, number_at(command, 1), out);
            drop(entry);
            put
        }
        None => put_no(out),
    }
}

// Adds the record so many times, or up to the limit that stands in the way.
fn add_times(
    table: &mut Table,
    entry: &SharedRecord,
    times: u64,
    out: &mut Txt,
) -> Result<bool, AllocError> {
    let mut added: u64 = 0;
    for _ in 0..times {
        let Some(limit) = add_one(table, entry)? else {
            added = added.saturating_add(1);
            continue;
        };
        write_decimal(added, out)?;
        out.extend(b" then ")?;
        return put_limit(limit, out);
    }
    write_decimal(added, out)?;
    Ok(true)
}

// The limit that stands in the way, if one does.
fn add_one(table: &mut Table, entry: &SharedRecord) -> Result<Option<Limit>, AllocError> {
    let record = entry.record();
    if let Err(full) = table.room(None, &record.facts, &record.expr) {
        return Ok(Some(full.limit));
    }
    let shared = entry.share()?;
    table.reserve()?;
    if table.edits() < MOST_EDITS {
        table.add(shared);
    }
    Ok(None)
}

fn change(
    alloc: Global,
    table: &mut Table,
    command: &[u8],
    out: &mut Txt,
) -> Result<bool, AllocError> {
    match record_of(alloc, shape_at(command))? {
        Some(entry) => change_to(table, campaign_at(command, 1), entry, out),
        None => put_no(out),
    }
}

fn change_to(
    table: &mut Table,
    n: u32,
    entry: SharedRecord,
    out: &mut Txt,
) -> Result<bool, AllocError> {
    if n < 1 || table.count() < n || table.edits() >= MOST_EDITS {
        drop(entry);
        return put_no(out);
    }
    let record = entry.record();
    match table.room(Some(n), &record.facts, &record.expr) {
        Ok(()) => {
            table.change(n, entry);
            put_ok(out)
        }
        Err(full) => {
            drop(entry);
            put_limit(full.limit, out)
        }
    }
}

fn pause(table: &mut Table, n: u32, out: &mut Txt) -> Result<bool, AllocError> {
    if table.edits() < MOST_EDITS && table.live(n) == Some(true) {
        table.pause(n);
        return put_ok(out);
    }
    put_no(out)
}

fn resume(table: &mut Table, n: u32, out: &mut Txt) -> Result<bool, AllocError> {
    if table.edits() < MOST_EDITS && table.live(n) == Some(false) {
        table.resume(n);
        return put_ok(out);
    }
    put_no(out)
}

// ---- answers

fn put_ok(out: &mut Txt) -> Result<bool, AllocError> {
    out.extend(b"ok")?;
    Ok(true)
}

fn put_no(out: &mut Txt) -> Result<bool, AllocError> {
    out.extend(b"no")?;
    Ok(true)
}

fn put_limit(limit: Limit, out: &mut Txt) -> Result<bool, AllocError> {
    let word: &[u8] = match limit {
        Limit::Sales => b"sales",
        Limit::Campaigns => b"campaigns",
        Limit::Conjunctions => b"conjunctions",
        Limit::Values => b"values",
        Limit::TextBytes => b"text-bytes",
    };
    out.extend(word)?;
    Ok(true)
}

fn put_live(live: Option<bool>, out: &mut Txt) -> Result<bool, AllocError> {
    let word: &[u8] = match live {
        Some(true) => b"live",
        Some(false) => b"paused",
        None => b"none",
    };
    out.extend(word)?;
    Ok(true)
}

fn put_record(entry: Option<&SharedRecord>, out: &mut Txt) -> Result<bool, AllocError> {
    match entry {
        Some(entry) => put_held(entry, out)?,
        None => out.extend(b"none")?,
    }
    Ok(true)
}

fn put_held(entry: &SharedRecord, out: &mut Txt) -> Result<(), AllocError> {
    let expr = &entry.record().expr;
    put_numbers(
        &[expr.conjunctions() as u64, expr.values() as u64],
        b' ',
        out,
    )
}

fn tell_snapshot(table: &Table, out: &mut Txt) -> Result<(), AllocError> {
    let snapshot = table.snapshot()?;
    let told = put_snapshot(&snapshot, out);
    drop(snapshot);
    told
}

fn put_snapshot(snapshot: &Snapshot, out: &mut Txt) -> Result<(), AllocError> {
    write_decimal(snapshot.edit, out)?;
    out.extend(b": ")?;
    for (i, live) in snapshot.live.iter().enumerate() {
        put_comma(i, out)?;
        write_decimal(u64::from(live.number), out)?;
    }
    Ok(())
}
