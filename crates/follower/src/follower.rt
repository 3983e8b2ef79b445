//! The exchange that a journal gives, as far as it was read, and its reports.
ghost use Rattle.std.specs.Prelude.{◌≡◌, Err};
ghost use Rattle.std.specs.Option.{option_copied};

use crate::block::carry_out;
use crate::header::{Header, read_header};
use crate::piece::{PIECE, is_shut, payload_of};
use auction_core::{ApplyFault, Core};
use budget_book::Totals;
use campaign::Facts;
use journal_file::{JournalFault, block_at};
use rtb_disk::Disk;
use rtb_num::{Micros, Nanos, Txt};
use std::alloc::Global;

/// What a campaign is, and what its sales add up to.
#[derive(Clone, Copy)]
pub struct FollowReport {
    /// Whether it is live, or else paused.
    pub live: bool,
    /// In micro-dollars per thousand impressions.
    pub bid: Micros,
    /// In nano-dollars.
    pub budget: Nanos,
    pub totals: Totals,
}

/// The exchange that a journal gives, as far as it was read.
#[derive(Drop)]
pub struct Follower<D: Disk> {
    pub(crate) alloc: Global,
    disk: D,
    core: Core,
    // The place of the gate that is looked at next; 0, that of the file's own, until the file was a journal.
    gate: u64,
    // How many effects of the block at the gate are carried out: none but after a refusal inside it.
    done: usize,
    // How many effects are carried out in all.
    count: u64,
}

impl<D: Disk> Follower<D> {
    ghost use Rattle.std.specs.Prelude.{◌≡◌, ◌⊎◌, ◌+◌, ◌<◌, ◌≤◌, ◌^◌, ℕ, List, [], ◌∷◌, drop, true, false, Ok, Err, IfOk, IsTrue, MatchResult, OnOk, Result, Some, is_some, length, option_map};
    ghost use Rattle.auction_core.specs.declared.fault.ApplyFault.{ApplyFault};
    ghost use Rattle.follower.specs.Following.{CatchesUp, GoesOn, IsCaughtUp, IsShownBy, IsWithin, count_in, disk_in, report_of, state_in};
    ghost use Rattle.follower.specs.Moving.{IsBegun, IsBlockAlone, IsRefused, IsTurn, Passes, spot};
    ghost use Rattle.follower.specs.Passing.{IsCarried, Turns, at_gate};
    ghost use Rattle.follower.specs.Seen.{Since};
    ghost use Rattle.journal_file.specs.Damage.{HasBlock};
    ghost use Rattle.journal_file.specs.Pieces.{BeginsFrom};
    ghost use Rattle.journal_file.specs.Shows.{ShowsMore, ShowsShut};
    ghost use Rattle.plain_exchange.specs.State.{Campaign, campaign_at, empty};
    ghost use Rattle.recovery.specs.Damage.{IsDamagedAt};
    ghost use Rattle.rtb_base.specs.Faults.{RisesOnlyWhere};
    ghost use Rattle.rtb_disk.specs.Showing.{Shown, bytes_from};

    /// A follower that has read nothing of the journal on the disk.
    pub fn new(alloc: Global, disk: D) -> Follower<D>
        ensures disk { disk_in result ≡ disk }
        ensures state { state_in result ≡ empty }
        ensures count { count_in result ≡ 0 }
        ensures within { (image : List ℕ) → IsWithin image result }
    {
        Follower {
            alloc,
            disk,
            core: Core::new(alloc, 0, 0),
            gate: 0,
            done: 0,
            count: 0,
        }
    }

    /// The disk as it stands.
    pub fn into_disk(self) -> D
        ensures { result ≡ disk_in self }
    {
        self.disk
    }

    /// Carries out what the journal says that was not carried out before, as far as the disk is long now, and tells how
    /// many effects were carried out in all. After a refusal those before it are carried out, and the next call goes on
    /// there. A creation of a journal that was not finished says nothing, and is looked at again.
    pub fn catch_up(&mut self) -> Result<u64, JournalFault>
        ensures { CatchesUp D.Disk self.old self.new result }
    {
        self.pass_all()
    }

    // The same, where each clause stands for itself.
    fn pass_all(&mut self) -> Result<u64, JournalFault>
        ensures goes { GoesOn self.old self.new }
        ensures count { IfOk result (λ n. n ≡ count_in self.new) }
        ensures within { (D.store self.old.disk).told ≡ true → IsWithin (D.store self.old.disk).reads self.old → IsWithin (D.store self.old.disk).reads self.new }
        ensures all { (D.store self.old.disk).told ≡ true → IsWithin (D.store self.old.disk).reads self.old → OnOk result (IsCaughtUp (D.store self.old.disk).reads self.new) }
        ensures damaged { (D.store self.old.disk).told ≡ true → IsWithin (D.store self.old.disk).reads self.old → (at : ℕ) → result ≡ Err (JournalFault.Damaged at) → IsDamagedAt (D.store self.old.disk).reads at }
        ensures shows { ShowsMore (D.shown self.old.disk) (D.shown self.new.disk) (λ shown. IsShownBy shown self.old self.new result) }
        ensures same { D.store self.new.disk ≡ D.store self.old.disk }
        ensures cause { RisesOnlyWhere (result ≡ Err JournalFault.DiskFailed) (D.faults self.old.disk) (D.faults self.new.disk) }
    {
        let size = self.disk.length()?;
        let begun = self.begin()?;
        if begun {
            self.pass_blocks(size)?;
        }
        Ok(self.count)
    }

    // Sees whether the file is a journal, where that was not seen before. False where its creation is not finished.
    fn begin(&mut self) -> Result<bool, JournalFault>
        ensures begun { result ≡ Ok true → 0 < self.new.gate }
        ensures same_state { state_in self.new ≡ state_in self.old }
        ensures same_count { count_in self.new ≡ count_in self.old }
        ensures turns { (D.store self.old.disk).told ≡ true → IsWithin (D.store self.old.disk).reads self.old → Turns (D.store self.old.disk).reads self.new result }
        ensures done { self.new.done ≡ self.old.done }
        ensures shows { ShowsMore (D.shown self.old.disk) (D.shown self.new.disk) (λ shown. IsBegun shown (spot self.old) (spot self.new) result) }
        ensures same { D.store self.new.disk ≡ D.store self.old.disk }
        ensures cause { RisesOnlyWhere (result ≡ Err JournalFault.DiskFailed) (D.faults self.old.disk) (D.faults self.new.disk) }
    {
        if self.gate > 0 {
            return Ok(true);
        }
        match read_header(&mut self.disk)? {
            Header::Creation => Ok(false),
            Header::Journal => {
                self.gate = 8;
                Ok(true)
            }
            Header::Foreign => Err(JournalFault::Damaged { at: 0 }),
        }
    }

    // Carries out the blocks whose gates lie below the size.
    fn pass_blocks(&mut self, size: u64) -> Result<(), JournalFault>
        requires begun { 0 < self.old.gate }
        requires small { size < 2 ^ 63 }
        ensures goes { GoesOn self.old self.new }
        ensures turns { (D.store self.old.disk).told ≡ true → size ≡ length (D.store self.old.disk).reads → IsWithin (D.store self.old.disk).reads self.old → MatchResult result (λ _. Turns (D.store self.old.disk).reads self.new (Ok false)) (λ e. Turns (D.store self.old.disk).reads self.new (Err e)) }
        ensures shows { ShowsMore (D.shown self.old.disk) (D.shown self.new.disk) (λ shown. MatchResult result (λ _. Passes shown (spot self.old) (spot self.new) × (ShowsShut self.new.gate shown ⊎ (size ≤ self.new.gate))) (IsRefused shown (spot self.old) (spot self.new))) }
        ensures same { D.store self.new.disk ≡ D.store self.old.disk }
        ensures cause { RisesOnlyWhere (result ≡ Err JournalFault.DiskFailed) (D.faults self.old.disk) (D.faults self.new.disk) }
    {
        while self.gate < size {
            let more = self.pass_piece(size)?;
            if !more {
                return Ok(());
            }
        }
        Ok(())
    }

    // Reads from the gate on in one call, no further than the size, and carries out the blocks that are there whole. Where
    // there is none it reads the block at the gate by itself. False where a gate is shut.
    //
    // A call reads from its front on, so each gate before its block: a block that another writer adds in the meantime is
    // there whole where its gate was open. No later call goes by what this one read.
    fn pass_piece(&mut self, size: u64) -> Result<bool, JournalFault>
        requires begun { 0 < self.old.gate }
        requires inside { self.old.gate < size }
        requires small { size < 2 ^ 63 }
        ensures begun { 0 < self.new.gate }
        ensures on { result ≡ Ok true → self.old.gate < self.new.gate }
        ensures goes { GoesOn self.old self.new }
        ensures turns { (D.store self.old.disk).told ≡ true → length (D.store self.old.disk).reads < 2 ^ 64 → IsWithin (D.store self.old.disk).reads self.old → Turns (D.store self.old.disk).reads self.new result }
        ensures shows { ShowsMore (D.shown self.old.disk) (D.shown self.new.disk) (λ shown. IsTurn shown (spot self.old) (spot self.new) result) }
        ensures same { D.store self.new.disk ≡ D.store self.old.disk }
        ensures cause { RisesOnlyWhere (result ≡ Err JournalFault.DiskFailed) (D.faults self.old.disk) (D.faults self.new.disk) }
    {
        let mut piece = [0u8; PIECE];
        let gate = self.gate;
        let want = (size - gate).min(PIECE as u64) as usize;
        let more = self.pass_into(&mut piece[..want])?;
        if more && self.gate == gate {
            return self.pass_block();
        }
        Ok(more)
    }

    // Reads from the gate on into the room, in one call, and carries out the blocks that are there whole. False where they
    // end before a gate that is shut.
    fn pass_into(&mut self, room: &mut [u8]) -> Result<bool, JournalFault>
        requires begun { 0 < self.old.gate }
        requires low { self.old.gate + length room.old < 2 ^ 64 }
        ensures begun { 0 < self.new.gate }
        ensures on { IfOk result (λ _. self.old.gate ≤ self.new.gate) }
        ensures goes { GoesOn self.old self.new }
        ensures turns { (D.store self.old.disk).told ≡ true → length (D.store self.old.disk).reads < 2 ^ 64 → IsWithin (D.store self.old.disk).reads self.old → Turns (D.store self.old.disk).reads self.new result }
        ensures shows { ShowsMore (D.shown self.old.disk) (D.shown self.new.disk) (λ shown. IsTurn shown (spot self.old) (spot self.new) result) }
        ensures same { D.store self.new.disk ≡ D.store self.old.disk }
        ensures cause { RisesOnlyWhere (result ≡ Err JournalFault.DiskFailed) (D.faults self.old.disk) (D.faults self.new.disk) }
    {
        let n = self.disk.read(self.gate, room)?;
        self.pass_read(&room[..n])
    }

    // Carries out the blocks that stand whole in these bytes, which were read from the gate on. False where they end
    // before a gate that is shut.
    fn pass_read(&mut self, read: &[u8]) -> Result<bool, JournalFault>
        requires begun { 0 < self.old.gate }
        requires low { self.old.gate + length read.now < 2 ^ 64 }
        ensures begun { 0 < self.new.gate }
        ensures on { IfOk result (λ _. self.old.gate ≤ self.new.gate) }
        ensures goes { GoesOn self.old self.new }
        ensures turns { (reads : List ℕ) → length reads < 2 ^ 64 → BeginsFrom self.old.gate read.now reads → IsWithin reads self.old → Turns reads self.new result }
        ensures shows { (asked : ℕ) → IsTurn (bytes_from self.old.gate asked read.now ∷ []) (spot self.old) (spot self.new) result }
        ensures disk { self.new.disk ≡ self.old.disk }
        ensures quiet { result ≡ Err JournalFault.DiskFailed → ⊥ }
    {
        let mut rest = read;
        while let Some(payload) = payload_of(rest) {
            let next = self.gate + 9 + payload.len() as u64;
            self.pass_payload(payload, next)?;
            rest = &rest[9 + payload.len()..];
        }
        Ok(!is_shut(rest))
    }

    // Carries out the block at the gate, which is read by itself. False where the gate is shut.
    fn pass_block(&mut self) -> Result<bool, JournalFault>
        requires begun { 0 < self.old.gate }
        ensures begun { 0 < self.new.gate }
        ensures on { result ≡ Ok true → self.old.gate < self.new.gate }
        ensures goes { GoesOn self.old self.new }
        ensures turns { (D.store self.old.disk).told ≡ true → length (D.store self.old.disk).reads < 2 ^ 64 → IsWithin (D.store self.old.disk).reads self.old → Turns (D.store self.old.disk).reads self.new result }
        ensures shows { ShowsMore (D.shown self.old.disk) (D.shown self.new.disk) (λ shown. IsTurn shown (spot self.old) (spot self.new) result) }
        ensures same { D.store self.new.disk ≡ D.store self.old.disk }
        ensures cause { RisesOnlyWhere (result ≡ Err JournalFault.DiskFailed) (D.faults self.old.disk) (D.faults self.new.disk) }
    {
        let mut payload = Txt::new(self.alloc);
        let found = block_at(&mut self.disk, self.gate, &mut payload)?;
        match found {
            Some(next) => {
                self.pass_payload(payload.as_bytes(), next)?;
                Ok(true)
            }
            None => Ok(false),
        }
    }

    // Carries out the block at the gate, of which this is the payload, and goes on to the next gate.
    fn pass_payload(&mut self, payload: &[u8], next: u64) -> Result<(), JournalFault>
        requires begun { 0 < self.old.gate }
        requires place { next ≡ self.old.gate + 9 + length payload.now }
        ensures begun { 0 < self.new.gate }
        ensures goes { GoesOn self.old self.new }
        ensures turns { (reads : List ℕ) → length reads < 2 ^ 64 → HasBlock payload.now (drop self.old.gate reads) → IsWithin reads self.old → MatchResult result (λ _. IsWithin reads self.new) (λ e. Turns reads self.new (Err e)) }
        ensures shows { (shown : List Shown) → Since (IsBlockAlone self.old.gate payload.now) shown → MatchResult result (λ _. Passes shown (spot self.old) (spot self.new)) (IsRefused shown (spot self.old) (spot self.new)) }
        ensures place { OnOk result (self.new.gate ≡ next) }
        ensures disk { self.new.disk ≡ self.old.disk }
        ensures quiet { result ≡ Err JournalFault.DiskFailed → ⊥ }
    {
        self.carry_block(payload)?;
        self.gate = next;
        self.done = 0;
        Ok(())
    }

    // Carries out the effects of the block with this payload, but for those that were carried out before.
    fn carry_block(&mut self, payload: &[u8]) -> Result<(), JournalFault>
        ensures carried { (done : Result Unit ApplyFault) × IsCarried payload.now self.old.done self.new.done (state_in self.old) (state_in self.new) (count_in self.old) (count_in self.new) done × (result ≡ at_gate self.old.gate done) }
        ensures gate { self.new.gate ≡ self.old.gate }
        ensures disk { self.new.disk ≡ self.old.disk }
    {
        match carry_out(
            self.alloc,
            payload,
            &mut self.core,
            &mut self.done,
            &mut self.count,
        ) {
            Ok(()) => Ok(()),
            Err(ApplyFault::Unfit) => Err(JournalFault::Damaged { at: self.gate }),
            Err(ApplyFault::Memory) => Err(JournalFault::Memory),
        }
    }

    /// What campaign `n`, counted from 1, is by what was carried out, and what its sales add up to; none where there is
    /// no such campaign. No sale expires by it.
    pub fn report(&self, n: u64) -> Option<FollowReport>
        ensures { result ≡ option_map (report_of (state_in self.now) n) (campaign_at (state_in self.now) n) }
    {
        match self.number(n) {
            Some(number) => Some(self.report_at(number)),
            None => None,
        }
    }

    // The number of the campaign, where it is there.
    pub(crate) fn number(&self, n: u64) -> Option<u32>
        ensures { result ≡ option_map (λ (c : Campaign). n) (campaign_at (state_in self.now) n) }
    {
        if 1 <= n && n <= u64::from(self.core.table().count()) {
            Some(n as u32)
        } else {
            None
        }
    }

    // The report of campaign `n`.
    pub(crate) fn report_at(&self, n: u32) -> FollowReport
        requires there { IsTrue (is_some (campaign_at (state_in self.now) n)) }
        ensures { (c : Campaign) → campaign_at (state_in self.now) n ≡ Some c → result ≡ report_of (state_in self.now) n c }
    {
        let (live, facts) = self.listed(n);
        FollowReport {
            live,
            bid: facts.bid(),
            budget: facts.budget(),
            totals: self.core.book().report(n),
        }
    }

    // Whether campaign `n` is live, and what it states.
    fn listed(&self, n: u32) -> (bool, &Facts)
        requires there { IsTrue (is_some (campaign_at (state_in self.now) n)) }
        ensures live { (c : Campaign) → campaign_at (state_in self.now) n ≡ Some c → result.0 ≡ c.live }
        ensures facts { (c : Campaign) → campaign_at (state_in self.now) n ≡ Some c → result.1.now ≡ c.facts }
    {
        let table = self.core.table();
        match (table.live(n), table.get(n)) {
            (Some(live), Some(entry)) => (live, &entry.record().facts),
            _ => unreachable!(),
        }
    }
}
