//! A disk in memory, whose calls fail as they are told to, and which crashes.
ghost use Rattle.std.specs.Prelude.{◌≡◌, ◌+◌, ◌++◌, ◌<◌, ◌≤◌, ◌^◌, ◌⊎◌, [], length, drop, take, min, true, false, nat_eq, None, IfOk, OnOk, OnErr};
ghost use Rattle.rtb_base.specs.Calls.{no_calls};
ghost use Rattle.rtb_base.specs.Faults.{CountsErrors};
ghost use Rattle.rtb_disk.specs.Stores.{IsImage, write, cut, overwritten, changed, settled, Fails};
ghost use Rattle.rtb_disk.specs.Record.{is_change};
ghost use Rattle.rtb_disk.specs.Memory.{Did, is_stopped, store_of, unheard};
ghost use Rattle.rtb_disk.specs.Crashes.{crashed};

use crate::calls::{Call, Made};
use crate::disk::Disk;
use crate::log::Log;
use rtb_num::{Calls, Failed, List, Txt};
use std::alloc::{AllocError, Global};
use std::marker::Model;

/// The most bytes that a disk has.
const MAX_LENGTH: u64 = (1 << 63) - 1;

/// A disk in memory, where the calls whose numbers are listed fail.
///
/// Calls are numbered from 1. It keeps a record of them, but for those that were stopped. A write that
/// fails has written the first half of its bytes, rounded down; any other call that fails does nothing.
/// A call that finds no memory for what it has to keep fails too, and is not in the record.
#[derive(Drop)]
pub struct MemDisk {
    log: Log,
    calls: Calls,
    stop: Option<u64>,
}

impl Model for MemDisk {
    ghost use Rattle.rtb_disk.specs.Memory.{DiskState};

    ghost Value = { DiskState };

    ghost view = { λ d. record { first = d.log.first; made = d.log.made.items; calls = d.calls; stop = d.stop } };
}

impl MemDisk {
    /// A disk with this content, which is its only image, and which was not called yet.
    pub fn new(alloc: Global, content: Txt, fails: List<u64>) -> MemDisk
        ensures { result ≡ record { first = content; made = []; calls = no_calls fails; stop = None } }
    {
        MemDisk {
            log: Log::new(alloc, content),
            calls: Calls::new(fails),
            stop: None,
        }
    }

    /// Each call from this number on fails and does nothing.
    pub fn stop_at(&mut self, call: u64)
        ensures { self.new ≡ record self.old { stop = Some call } }
    {
        self.stop = Some(call);
    }

    /// A disk over one image of this one: what the last sync that succeeded kept, with the write or cut
    /// number i behind it done, as far as its call did it, where bit i of `pick` is 1. The number is
    /// counted from 0, and of those from 64 on none is done. A gap is filled with zeros. No call of the
    /// new disk fails.
    #[tactic(auto, using(crate::proofs::Crashing::crashed_stands))]
    pub fn after_crash(&self, pick: u64) -> Result<MemDisk, AllocError>
        ensures disk { IfOk result (λ d. d ≡ record { first = crashed pick self.now.first self.now.made; made = []; calls = no_calls []; stop = None }) }
        ensures image { IsImage (store_of self.now).now (crashed pick self.now.first self.now.made) }
    {
        let alloc = self.log.allocator();
        let content = self.log.content_after(pick)?;
        Ok(MemDisk::new(alloc, content, List::new(alloc)))
    }

    /// Whether it has no byte. This is no call of the disk.
    pub fn is_empty(&self) -> bool
        ensures { result ≡ nat_eq (length (store_of self.now).reads) 0 }
    {
        self.log.content().is_empty()
    }

    /// The record of its calls.
    pub fn history(&self) -> &[Made]
        ensures { result.now ≡ self.now.made }
    {
        self.log.made.as_slice()
    }

    /// Its calls so far, by number.
    pub fn calls(&self) -> &Calls
        ensures { result.now ≡ self.now.calls }
    {
        &self.calls
    }

    // Whether the next call is stopped.
    fn is_stopped(&self) -> bool
        ensures { result ≡ is_stopped self.now }
    {
        let next = self.calls.count().saturating_add(1);
        match self.stop {
            Some(stop) => stop <= next,
            None => false,
        }
    }

    // Makes a call, records it, and tells whether it failed.
    fn make(&mut self, call: Call) -> Result<(), Failed>
        ensures did { Did call self.old self.new result }
        ensures cause { CountsErrors self.old.calls.faults self.new.calls.faults result }
    {
        if self.is_stopped() {
            return Err(self.refuse());
        }
        let failed = self.calls.begin();
        if self.log.make(call, failed).is_err() || failed {
            self.calls.count_fault();
            return Err(Failed);
        }
        Ok(())
    }

    // Writes the text at the place.
    #[tactic(auto, using(crate::proofs::Replayed::store_recorded, crate::proofs::Replayed::write_done, crate::proofs::Replayed::write_fails))]
    fn write_text(&mut self, place: u64, bytes: Txt) -> Result<(), Failed>
        requires inside { (store_of self.old).told ≡ true → place ≤ length (store_of self.old).reads }
        ensures done { (store_of self.old).told ≡ true → OnOk result (store_of self.new ≡ changed (write place (length bytes)) (overwritten (store_of self.old).reads place bytes) (store_of self.old)) }
        ensures failed { (store_of self.old).told ≡ true → OnErr result (Fails (write place (length bytes)) (store_of self.old) (store_of self.new)) }
        ensures told { (store_of self.new).told ≡ (store_of self.old).told }
        ensures bound { OnOk result (place + length bytes < 2 ^ 63) }
        ensures cause { CountsErrors self.old.calls.faults self.new.calls.faults result }
        ensures did { Did (Call.Write place bytes) self.old self.new result }
    {
        if place.saturating_add(bytes.len() as u64) > MAX_LENGTH {
            return Err(self.refuse());
        }
        self.make(Call::Write { place, bytes })
    }

    // A call that fails and does nothing.
    fn refuse(&mut self) -> Failed
        ensures did { self.new ≡ unheard self.old }
        ensures kept { self.old.calls.faults ≤ self.new.calls.faults }
    {
        self.calls.begin();
        self.calls.count_fault();
        Failed
    }
}

// The three, one behind the other.
fn joined(alloc: Global, head: &[u8], body: &[u8], tail: &[u8]) -> Result<Txt, AllocError>
    ensures { IfOk result (λ t. t ≡ head.now ++ body.now ++ tail.now) }
{
    let mut text = Txt::new(alloc);
    text.extend(head)?;
    text.extend(body)?;
    text.extend(tail)?;
    Ok(text)
}

// Moves as much as fits.
fn fill(out: &mut [u8], rest: &[u8]) -> usize
    ensures count { result ≡ min (length out.old) (length rest.now) }
    ensures front { take result out.new ≡ take result rest.now }
{
    let n = rest.len().min(out.len());
    out[..n].copy_from_slice(&rest[..n]);
    n
}

impl Disk for MemDisk {
    ghost use Rattle.rtb_disk.specs.Images.{memory_stands};

    ghost store = { store_of };

    ghost shown = { λ d. None };

    ghost faults = { λ d. d.calls.faults };

    fn length(&mut self) -> Result<u64, Failed>
        ensures value { (store_of self.old).told ≡ true → IfOk result (λ n. n ≡ length (store_of self.old).reads) }
        ensures bound { IfOk result (λ n. n < 2 ^ 63) }
        ensures same { store_of self.new ≡ store_of self.old }
        ensures cause { CountsErrors self.old.calls.faults self.new.calls.faults result }
        ensures did { Did Call.Length self.old self.new result }
    {
        let n = self.log.content().len() as u64;
        if n > MAX_LENGTH {
            return Err(self.refuse());
        }
        self.make(Call::Length)?;
        Ok(n)
    }

    fn read(&mut self, place: u64, out: &mut [u8]) -> Result<usize, Failed>
        ensures bound { IfOk result (λ n. n ≤ length out.new) }
        ensures count { (store_of self.old).told ≡ true → IfOk result (λ n. n ≡ min (length out.old) (length (drop place (store_of self.old).reads))) }
        ensures bytes { (store_of self.old).told ≡ true → IfOk result (λ n. take n out.new ≡ take n (drop place (store_of self.old).reads)) }
        ensures same { store_of self.new ≡ store_of self.old }
        ensures cause { CountsErrors self.old.calls.faults self.new.calls.faults result }
        ensures did { Did (Call.Read place (length out.old)) self.old self.new result }
    {
        let count = out.len() as u64;
        self.make(Call::Read { place, count })?;
        let content = self.log.content();
        let from = (place as usize).min(content.len());
        Ok(fill(out, &content[from..]))
    }

    fn write_at(&mut self, place: u64, bytes: &[u8]) -> Result<(), Failed>
        requires inside { (store_of self.old).told ≡ true → place ≤ length (store_of self.old).reads }
        ensures done { (store_of self.old).told ≡ true → OnOk result (store_of self.new ≡ changed (write place (length bytes.now)) (overwritten (store_of self.old).reads place bytes.now) (store_of self.old)) }
        ensures failed { (store_of self.old).told ≡ true → OnErr result (Fails (write place (length bytes.now)) (store_of self.old) (store_of self.new)) }
        ensures told { (store_of self.new).told ≡ (store_of self.old).told }
        ensures bound { OnOk result (place + length bytes.now < 2 ^ 63) }
        ensures cause { CountsErrors self.old.calls.faults self.new.calls.faults result }
        ensures did { Did (Call.Write place bytes.now) self.old self.new result }
    {
        match Txt::from_slice(self.log.allocator(), bytes) {
            Ok(bytes) => self.write_text(place, bytes),
            Err(_) => Err(self.refuse()),
        }
    }

    fn write_parts(
        &mut self,
        place: u64,
        head: &[u8],
        body: &[u8],
        tail: &[u8],
    ) -> Result<(), Failed>
        requires inside { (store_of self.old).told ≡ true → place ≤ length (store_of self.old).reads }
        ensures done { (store_of self.old).told ≡ true → OnOk result (store_of self.new ≡ changed (write place (length (head.now ++ body.now ++ tail.now))) (overwritten (store_of self.old).reads place (head.now ++ body.now ++ tail.now)) (store_of self.old)) }
        ensures failed { (store_of self.old).told ≡ true → OnErr result (Fails (write place (length (head.now ++ body.now ++ tail.now))) (store_of self.old) (store_of self.new)) }
        ensures told { (store_of self.new).told ≡ (store_of self.old).told }
        ensures bound { OnOk result (place + length (head.now ++ body.now ++ tail.now) < 2 ^ 63) }
        ensures cause { CountsErrors self.old.calls.faults self.new.calls.faults result }
        ensures did { Did (Call.Write place (head.now ++ body.now ++ tail.now)) self.old self.new result }
    {
        match joined(self.log.allocator(), head, body, tail) {
            Ok(bytes) => self.write_text(place, bytes),
            Err(_) => Err(self.refuse()),
        }
    }

    fn cut(&mut self, count: u64) -> Result<(), Failed>
        requires inside { (store_of self.old).told ≡ true → count ≤ length (store_of self.old).reads }
        ensures done { (store_of self.old).told ≡ true → OnOk result (store_of self.new ≡ changed (cut count) (take count (store_of self.old).reads) (store_of self.old)) }
        ensures failed { (store_of self.old).told ≡ true → OnErr result (Fails (cut count) (store_of self.old) (store_of self.new)) }
        ensures told { (store_of self.new).told ≡ (store_of self.old).told }
        ensures cause { CountsErrors self.old.calls.faults self.new.calls.faults result }
        ensures did { Did (Call.Cut count) self.old self.new result }
    {
        self.make(Call::Cut { count })
    }

    fn sync(&mut self) -> Result<(), Failed>
        ensures done { (store_of self.old).told ≡ true → OnOk result (store_of self.new ≡ settled (store_of self.old)) }
        ensures failed { (store_of self.old).told ≡ true → OnErr result (store_of self.new ≡ store_of self.old) }
        ensures told { (store_of self.new).told ≡ (store_of self.old).told }
        ensures cause { CountsErrors self.old.calls.faults self.new.calls.faults result }
        ensures did { Did Call.Sync self.old self.new result }
    {
        self.make(Call::Sync)
    }

    ghost stands = { λ d told. memory_stands d };
}
