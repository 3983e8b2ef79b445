//! Sources and sinks in memory.
ghost use Rattle.std.specs.Prelude.{◌≡◌, ◌+◌, ◌≤◌, ◌<◌, ◌++◌, length, take, drop, min, Some, [], IfOk, OnOk, false};
ghost use Rattle.std.specs.Result.{is_err};
ghost use Rattle.std.specs.Io.{ReadsAtMost, WritesAtMost};
ghost use Rattle.std.specs.Io.KnownBytes.{ReadConsumes, WriteAppends};
ghost use Rattle.rtb_base.specs.Calls.{next_fails, no_calls, one_call_later};
ghost use Rattle.rtb_base.specs.Faults.{CountsErrors};

use crate::calls::Calls;
use crate::lists::List;
use crate::streams::{Failed, Sink, Source};
use crate::text::Txt;
use std::alloc::Global;
use std::marker::Model;

/// A source over a text in memory, where the calls whose numbers are listed fail.
#[derive(Drop)]
pub struct MemSource {
    bytes: Txt,
    place: usize,
    calls: Calls,
}

impl Model for MemSource {
    ghost use Rattle.std.specs.Prelude.{◌≤◌, length, drop};
    ghost use Rattle.rtb_num.specs.Memory.{SourceState};

    ghost Value = { SourceState };

    ghost view = { λ s. record { left = drop s.place s.bytes; calls = s.calls } };

    ghost invariant = { λ s. s.place ≤ length s.bytes };
}

impl MemSource {
    /// A source that has this text left, and was not called yet.
    pub fn new(left: Txt, fails: List<u64>) -> MemSource
        ensures { result ≡ record { left = left; calls = no_calls fails } }
    {
        MemSource {
            bytes: left,
            place: 0,
            calls: Calls::new(fails),
        }
    }

    /// Its calls so far.
    pub fn calls(&self) -> &Calls
        ensures { result.now ≡ self.now.calls }
    {
        &self.calls
    }
}

#[tactic(auto, using(crate::proofs::Moved::moved, crate::proofs::Moved::ended))]
impl Source for MemSource {
    ghost left = { λ s. Some s.left };

    ghost faults = { λ s. s.calls.faults };

    fn read(&mut self, out: &mut [u8]) -> Result<usize, Failed>
        ensures bound { ReadsAtMost result out.new }
        ensures bytes { ReadConsumes (Some self.old.left) (Some self.new.left) result out.new }
        ensures cause { CountsErrors self.old.calls.faults self.new.calls.faults result }

        // A read that does not fail gives as much as fits, and a call fails where it is told to.
        ensures most { IfOk result (λ n. n ≡ min (length self.old.left) (length out.new)) }
        ensures told { is_err result ≡ next_fails self.old.calls }
        ensures calls { self.new.calls ≡ one_call_later self.old.calls (is_err result) }
    {
        if self.calls.begin() {
            self.calls.count_fault();
            return Err(Failed);
        }
        let n = fill(out, &self.bytes.as_bytes()[self.place..]);
        self.place += n;
        Ok(n)
    }
}

// Moves as much as fits.
fn fill(out: &mut [u8], rest: &[u8]) -> usize
    ensures count { result ≡ min (length rest.now) (length out.old) }
    ensures front { take result out.new ≡ take result rest.now }
{
    let n = rest.len().min(out.len());
    out[..n].copy_from_slice(&rest[..n]);
    n
}

/// A sink that keeps in memory what it gets, where the calls whose numbers are listed fail.
///
/// A call that finds no memory fails too.
#[derive(Drop)]
pub struct MemSink {
    written: Txt,
    calls: Calls,
}

impl Model for MemSink {
    ghost use Rattle.rtb_num.specs.Memory.{SinkState};

    ghost Value = { SinkState };

    ghost view = { λ s. record { written = s.written; calls = s.calls } };
}

impl MemSink {
    /// A sink that was written nothing, and was not called yet.
    pub fn new(alloc: Global, fails: List<u64>) -> MemSink
        ensures { result ≡ record { written = []; calls = no_calls fails } }
    {
        MemSink {
            written: Txt::new(alloc),
            calls: Calls::new(fails),
        }
    }

    /// What was written.
    pub fn written(&self) -> &Txt
        ensures { result.now ≡ self.now.written }
    {
        &self.written
    }

    /// Its calls so far.
    pub fn calls(&self) -> &Calls
        ensures { result.now ≡ self.now.calls }
    {
        &self.calls
    }
}

impl Sink for MemSink {
    ghost written = { λ s. Some s.written };

    ghost faults = { λ s. s.calls.faults };

    fn write(&mut self, bytes: &[u8]) -> Result<usize, Failed>
        ensures bound { WritesAtMost result bytes.now }
        ensures some { IfOk result (λ n. 0 < length bytes.now → 0 < n) }
        ensures bytes { WriteAppends (Some self.old.written) (Some self.new.written) result bytes.now }
        ensures cause { CountsErrors self.old.calls.faults self.new.calls.faults result }

        // A write that does not fail takes all, and a call that is told to fail does.
        ensures all { IfOk result (λ n. n ≡ length bytes.now) }
        ensures told { OnOk result (next_fails self.old.calls ≡ false) }
        ensures calls { self.new.calls ≡ one_call_later self.old.calls (is_err result) }
    {
        if self.calls.begin() || self.written.extend(bytes).is_err() {
            self.calls.count_fault();
            return Err(Failed);
        }
        Ok(bytes.len())
    }
}
