//! A link in memory, whose calls fail as they are told to.
ghost use Rattle.std.specs.Prelude.{◌≡◌, ◌≤◌, ◌+◌, ◌<◌, length, take, drop, min, Some, [], IfOk, OnOk, false};
ghost use Rattle.std.specs.Result.{is_err};
ghost use Rattle.std.specs.Io.{ReadsAtMost, WritesAtMost};
ghost use Rattle.std.specs.Io.KnownBytes.{ReadConsumes, WriteAppends};
ghost use Rattle.rtb_base.specs.Calls.{next_fails, no_calls, one_call_later};
ghost use Rattle.rtb_base.specs.Faults.{CountsErrors};

use crate::link::Link;
use rtb_num::{Calls, Failed, List, Txt};
use std::alloc::{AllocError, Global};
use std::marker::Model;

/// A link in memory, where the calls whose numbers are listed fail.
///
/// Reads and writes are numbered together. A write that finds no memory fails too.
#[derive(Drop)]
pub struct MemLink {
    bytes: Txt,
    place: usize,
    sent: Txt,
    calls: Calls,
}

impl Model for MemLink {
    ghost use Rattle.std.specs.Prelude.{◌≤◌, length, drop};
    ghost use Rattle.link_door.specs.Memory.{LinkState};

    ghost Value = { LinkState };

    ghost view = { λ l. record { left = drop l.place l.bytes; sent = l.sent; calls = l.calls } };

    ghost invariant = { λ l. l.place ≤ length l.bytes };
}

impl MemLink {
    /// A link that has this text left to receive, was sent nothing, and was not called yet.
    pub fn new(alloc: Global, left: Txt, fails: List<u64>) -> MemLink
        ensures { result ≡ record { left = left; sent = []; calls = no_calls fails } }
    {
        MemLink {
            bytes: left,
            place: 0,
            sent: Txt::new(alloc),
            calls: Calls::new(fails),
        }
    }

    /// The same, with room for so many bytes that are sent.
    pub fn with_room(
        alloc: Global,
        left: Txt,
        fails: List<u64>,
        room: usize,
    ) -> Result<MemLink, AllocError>
        ensures { IfOk result (λ l. l ≡ record { left = left; sent = []; calls = no_calls fails }) }
    {
        let sent = Vec::with_capacity(alloc, room)?;
        Ok(MemLink {
            bytes: left,
            place: 0,
            sent: Txt::from_vec(sent),
            calls: Calls::new(fails),
        })
    }

    /// What was sent.
    pub fn sent(&self) -> &Txt
        ensures { result.now ≡ self.now.sent }
    {
        &self.sent
    }

    /// Its calls so far.
    pub fn calls(&self) -> &Calls
        ensures { result.now ≡ self.now.calls }
    {
        &self.calls
    }
}

#[tactic(auto, using(crate::proofs::Moved::moved, crate::proofs::Moved::ended))]
impl Link for MemLink {
    ghost left = { λ l. Some l.left };

    ghost sent = { λ l. Some l.sent };

    ghost faults = { λ l. l.calls.faults };

    fn read(&mut self, out: &mut [u8], _: bool) -> Result<usize, Failed>
        ensures bound { ReadsAtMost result out.new }
        ensures bytes { ReadConsumes (Some self.old.left) (Some self.new.left) result out.new }
        ensures sent { self.new.sent ≡ self.old.sent }
        ensures cause { CountsErrors self.old.calls.faults self.new.calls.faults result }

        // A read that does not fail gives as much as fits, and a call fails where it is told to.
        ensures most { IfOk result (λ n. n ≡ min (length self.old.left) (length out.new)) }
        ensures told { is_err result ≡ next_fails self.old.calls }
        ensures calls { self.new.calls ≡ one_call_later self.old.calls (is_err result) }
    {
        if self.calls.begin() {
            self.calls.count_fault();
            return Err(Failed);
        }
        let n = fill(out, &self.bytes.as_bytes()[self.place..]);
        self.place += n;
        Ok(n)
    }

    fn write(&mut self, bytes: &[u8]) -> Result<usize, Failed>
        ensures bound { WritesAtMost result bytes.now }
        ensures some { IfOk result (λ n. 0 < length bytes.now → 0 < n) }
        ensures bytes { WriteAppends (Some self.old.sent) (Some self.new.sent) result bytes.now }
        ensures left { self.new.left ≡ self.old.left }
        ensures cause { CountsErrors self.old.calls.faults self.new.calls.faults result }

        // A write that does not fail takes all, and a call that is told to fail does.
        ensures all { IfOk result (λ n. n ≡ length bytes.now) }
        ensures told { OnOk result (next_fails self.old.calls ≡ false) }
        ensures calls { self.new.calls ≡ one_call_later self.old.calls (is_err result) }
    {
        if self.calls.begin() || self.sent.extend(bytes).is_err() {
            self.calls.count_fault();
            return Err(Failed);
        }
        Ok(bytes.len())
    }
}

// Moves as much as fits.
fn fill(out: &mut [u8], rest: &[u8]) -> usize
    ensures count { result ≡ min (length rest.now) (length out.old) }
    ensures front { take result out.new ≡ take result rest.now }
{
    let n = rest.len().min(out.len());
    out[..n].copy_from_slice(&rest[..n]);
    n
}
