//! The entries of a trace, one after the other.
ghost use Rattle.std.specs.Prelude.{◌≡◌, ◌≢◌, ◌+◌, ◌<◌, ◌≤◌, ◌^◌, ℕ, List, None, Ok, Err, IfOk, Option, Some, if◌then◌else◌, length};
ghost use Rattle.address_keys.specs.declared.keys.Keys.{Keys as AKeys};
ghost use Rattle.audit.specs.Accounts.{settings_of};
ghost use Rattle.audit.specs.Standing.{Goes, IsBefore, IsStanding, Said};
ghost use Rattle.plain_exchange.specs.State.{State};
ghost use Rattle.rtb_base.specs.Faults.{RisesOnlyWhere};
ghost use Rattle.trace.specs.Traces.{IsEntry, entry_bytes};

use crate::accounting::{account, passes};
use crate::input::{Input, Next};
use crate::verdict::{AuditFault, Verdict};
use address_keys::Keys;
use auction_core::Core;
use rtb_num::Source;
use std::alloc::{AllocError, Global};
use trace::{Entries, Entry, Header};

// The most entries of a trace.
const MOST_ENTRIES: u64 = 1 << 32;

/// A trace that was read and judged so far.
#[derive(Drop)]
pub(crate) struct Audit {
    core: Core,
    header: Header,
    input: Input,
    entries: u64,
    passed: u64,
    // In bytes, behind the last entry.
    place: u64,
}

impl Audit {
    /// A trace of which the header was read, which has so many bytes.
    pub(crate) fn new(core: Core, header: Header, size: u64, input: Input) -> Audit
        ensures { result ≡ record { core = core; header = header; input = input; entries = 0; passed = 0; place = size } }
    {
        Audit {
            core,
            header,
            input,
            entries: 0,
            passed: 0,
            place: size,
        }
    }

    /// Reads and judges what is left of the trace.
    pub(crate) fn run<S: Source>(
        &mut self,
        alloc: Global,
        keys: &Keys,
        source: &mut S,
    ) -> Result<Verdict, AuditFault>
        requires settings { self.old.core.settings ≡ settings_of self.old.header }
        requires few { self.old.entries ≤ 2 ^ 32 }
        requires passed { self.old.passed ≤ self.old.entries }
        ensures says { (s : State) (left : Option (List ℕ)) → IsStanding keys.now s left (S.left source.old) self.old → Said keys.now s left (S.left source.new) result }
        ensures cause { RisesOnlyWhere (result ≡ Err AuditFault.SourceFailed) (S.faults source.old) (S.faults source.new) }
    {
        while self.entries < MOST_ENTRIES {
            if let Some(verdict) = self.step(alloc, keys, source)? {
                return Ok(verdict);
            }
        }
        self.end(alloc, source)
    }

    // Reads and judges one entry more. It answers where nothing more is to be judged.
    fn step<S: Source>(
        &mut self,
        alloc: Global,
        keys: &Keys,
        source: &mut S,
    ) -> Result<Option<Verdict>, AuditFault>
        requires settings { self.old.core.settings ≡ settings_of self.old.header }
        requires few { self.old.entries < 2 ^ 32 }
        requires passed { self.old.passed ≤ self.old.entries }
        ensures counted { result ≡ Ok None → self.new.entries ≡ self.old.entries + 1 }
        ensures settings { self.new.core.settings ≡ settings_of self.new.header }
        ensures passed { self.new.passed ≤ self.new.entries }
        ensures says { (s : State) (left : Option (List ℕ)) → IsStanding keys.now s left (S.left source.old) self.old → Goes keys.now s left (S.left source.new) self.new result }
        ensures cause { RisesOnlyWhere (result ≡ Err AuditFault.SourceFailed) (S.faults source.old) (S.faults source.new) }
    {
        match self.input.next::<Entries, S>(alloc, source)? {
            Next::Item(entry, size) => {
                let judged = self.judge(alloc, keys, &entry, size);
                drop(entry);
                judged
            }
            Next::End => Ok(Some(self.legal())),
            Next::Torn => Err(AuditFault::Torn { at: self.place }),
        }
    }

    // Judges the entry of so many bytes that was taken, which stands between what was judged and what is held.
    fn judge(
        &mut self,
        alloc: Global,
        keys: &Keys,
        entry: &Entry,
        size: usize,
    ) -> Result<Option<Verdict>, AuditFault>
        requires settings { self.old.core.settings ≡ settings_of self.old.header }
        requires few { self.old.entries < 2 ^ 32 }
        requires passed { self.old.passed ≤ self.old.entries }
        requires entry { IsEntry entry.now }
        requires size { size ≡ length (entry_bytes entry.now) }
        ensures counted { result ≡ Ok None → self.new.entries ≡ self.old.entries + 1 }
        ensures settings { self.new.core.settings ≡ settings_of self.new.header }
        ensures passed { self.new.passed ≤ self.new.entries }
        ensures no_source { result ≢ Err AuditFault.SourceFailed }
        ensures says { (s : State) (left left' : Option (List ℕ)) → IsBefore keys.now s left left' entry.now self.old → Goes keys.now s left left' self.new result }
    {
        if !account(alloc, &mut self.core, &self.header, keys, entry)? {
            return Ok(Some(Verdict::Illegal { at: self.entries }));
        }
        self.entries += 1;
        self.passed += one_where(passes(entry));
        self.place = behind(self.place, size)?;
        Ok(None)
    }

    // Behind the most entries nothing may be left.
    fn end<S: Source>(&mut self, alloc: Global, source: &mut S) -> Result<Verdict, AuditFault>
        requires most { self.old.entries ≡ 2 ^ 32 }
        ensures says { (keys : AKeys) (s : State) (left : Option (List ℕ)) → IsStanding keys s left (S.left source.old) self.old → Said keys s left (S.left source.new) result }
        ensures cause { RisesOnlyWhere (result ≡ Err AuditFault.SourceFailed) (S.faults source.old) (S.faults source.new) }
    {
        if self.input.has_more(alloc, source)? {
            return Err(AuditFault::TooLong);
        }
        Ok(self.legal())
    }

    fn legal(&self) -> Verdict
        ensures { result ≡ Verdict.Legal self.now.entries self.now.passed }
    {
        Verdict::Legal {
            entries: self.entries,
            passed: self.passed,
        }
    }
}

// One where it holds.
fn one_where(holds: bool) -> u64
    ensures { result ≡ (if holds then 1 else 0) }
{
    u64::from(holds)
}

// The place so many bytes further.
fn behind(place: u64, size: usize) -> Result<u64, AllocError>
    ensures { IfOk result (λ next. next ≡ place + size) }
{
    match place.checked_add(size as u64) {
        Some(next) => Ok(next),
        None => Err(AllocError),
    }
}
