//! The answers of a follower that an exchange has not.
ghost use Rattle.std.specs.Prelude.{◌≡◌, ◌+◌, ◌≤◌, ◌++◌, ◌∷◌, [], codes, decimal, length, vec_capacity, vec_len, IfOk, OnOk};
ghost use Rattle.follower.specs.Reporting.{damaged_at, followed_members};
ghost use Rattle.json_out.specs.Inside.{in_object};
ghost use Rattle.json_out.specs.Writer.{blank};
ghost use Rattle.rtb_response.specs.Replies.{object_answer};

use crate::follower::FollowReport;
use http_wire::{Allow, Answer};
use itoa::Buffer;
use json_out::Writer;
use rtb_num::Txt;
use rtb_response::{closed, put_report};
use std::alloc::{AllocError, Global};

// More bytes than the body of an answer of damage has.
const ROOM: usize = 80;

/// Room for the answer of damage: taken before it is known whether there is any, so that damage is never told as want of
/// memory.
pub(crate) fn room_for_damage(alloc: Global) -> Result<Vec<u8>, AllocError>
    ensures empty { IfOk result (λ room. room.items ≡ []) }
    ensures len { IfOk result (λ room. vec_len room ≡ 0) }
    ensures room { IfOk result (λ room. 80 ≤ vec_capacity room) }
{
    Vec::with_capacity(alloc, ROOM)
}

/// The journal is damaged at the place.
pub(crate) fn damaged_answer(room: Vec<u8>, at: u64) -> Answer
    requires empty { room.items ≡ [] }
    requires len { vec_len room ≡ 0 }
    requires room { 80 ≤ vec_capacity room }
    ensures { result ≡ damaged_at at }
{
    let mut body = room;
    put_damaged(&mut body, at);
    Answer {
        status: 500,
        allow: Allow::None,
        body: Txt::from_vec(body),
    }
}

// Puts the object of damage into the room.
fn put_damaged(body: &mut Vec<u8>, at: u64)
    requires len { vec_len body.old ≡ 0 }
    requires room { 80 ≤ vec_capacity body.old }
    ensures { body.new.items ≡ body.old.items ++ codes "{\"error\":\"damaged\",\"at\":" ++ decimal at ++ codes "}" }
{
    put(body, b"{\"error\":\"damaged\",\"at\":");
    put(body, Buffer::new().format(at).as_bytes());
    put(body, b"}");
}

// Puts the bytes into the room.
fn put(body: &mut Vec<u8>, bytes: &[u8])
    requires room { vec_len body.old + length bytes.now ≤ vec_capacity body.old }
    ensures bytes { body.new.items ≡ body.old.items ++ bytes.now }
    ensures len { vec_len body.new ≡ vec_len body.old + length bytes.now }
    ensures room { vec_capacity body.old ≤ vec_capacity body.new }
{
    match body.extend_from_slice(bytes) {
        Ok(()) => {}
        Err(_) => unreachable!(),
    }
}

// Mostly enough bytes for a report.
const REPORT: usize = 256;

/// The report of campaign `n`, behind so many effects.
pub(crate) fn report_answer(
    alloc: Global,
    n: u32,
    report: &FollowReport,
    effects: u64,
) -> Result<Answer, AllocError>
    ensures { IfOk result (λ a. a ≡ object_answer 200 (followed_members n report.now effects)) }
{
    let mut writer = Writer::with_room(alloc, REPORT);
    let done = put_followed(&mut writer, n, report, effects);
    closed(200, writer, done)
}

// Begins the object of a report, before which nothing is written.
fn put_followed(
    writer: &mut Writer,
    n: u32,
    report: &FollowReport,
    effects: u64,
) -> Result<(), AllocError>
    requires { writer.old ≡ blank }
    ensures { OnOk result (writer.new ≡ in_object blank (followed_members n report.now effects)) }
{
    let totals = &report.totals;
    put_report(writer, n, report.live, report.bid, report.budget, totals)?;
    writer.put_number(b"effects", effects)?;
    Ok(())
}
