//! A world in memory, whose calls fail as they are told to.
ghost use Rattle.std.specs.Prelude.{◌≡◌, ◌+◌, true, false, ◌∷◌, [], Some, Err, length, map, take, drop, ◌<◌, ◌≤◌, IfErr, IfOk, OnOk, OnErr, MatchOption, MatchResult};
ghost use Rattle.rtb_base.specs.Calls.{next_fails, no_calls, one_call_later};
ghost use Rattle.std.specs.Result.{is_err};
ghost use Rattle.link_door.specs.MemoryWorld.{key_front, lacks, lacks_there};
ghost use Rattle.rtb_disk.specs.Memory.{store_of};
ghost use Rattle.rtb_base.specs.Faults.{CountsErrors, RisesOnlyWhere, RoseAtMost};
ghost use Rattle.std.specs.Option.{option_to_list};
ghost use Rattle.link_door.specs.Worlds.{Asks, AsksAgain, HandsOut};
ghost use Rattle.link_door.specs.declared.asked.Asked.TheVariants as asked_for;
ghost use Rattle.link_door.specs.declared.world.WorldFault.TheVariants.{Memory as memory};

use crate::asked::{
    Asked, note_disk, note_disk_there, note_disk_to_read, note_disk_when_free, note_doors, note_key,
};
use crate::memory_door::MemDoor;
use crate::world::{World, WorldFault};
use rtb_disk::MemDisk;
use rtb_num::{Calls, Failed, List, Txt};
use std::alloc::Global;
use std::marker::Model;
use std::mem;

/// A world in memory, where the calls whose numbers are listed fail.
///
/// Its calls are numbered together. Addresses and names are kept and else passed over: doors, disks and texts of keys are
/// handed out in their order. A call that asks for more than are left fails too, and so does one that finds no memory to
/// keep the name.
#[derive(Drop)]
pub struct MemWorld {
    doors: Vec<MemDoor>,
    disks: Vec<MemDisk>,
    keys: Vec<Txt>,
    // How many calls find a disk that another writes.
    busy: u64,
    asked: List<Asked>,
    calls: Calls,
}

impl Model for MemWorld {
    ghost use Rattle.std.specs.Prelude.{map};
    ghost use Rattle.link_door.specs.MemoryWorld.{WorldState, key_front};

    ghost Value = { WorldState };

    ghost view = { λ w. record { doors = w.doors.items; disks = w.disks.items; keys = map key_front w.keys.items; busy = w.busy; asked = w.asked; calls = w.calls } };
}

impl MemWorld {
    /// A world that has these left, and was not called yet. It takes no memory.
    pub fn new(
        alloc: Global,
        doors: List<MemDoor>,
        disks: List<MemDisk>,
        keys: List<Txt>,
        fails: List<u64>,
    ) -> MemWorld
        ensures { result ≡ record { doors = doors; disks = disks; keys = map key_front keys; busy = 0; asked = []; calls = no_calls fails } }
    {
        MemWorld {
            doors: doors.into_vec(),
            disks: disks.into_vec(),
            keys: keys.into_vec(),
            busy: 0,
            asked: List::new(alloc),
            calls: Calls::new(fails),
        }
    }

    /// So many calls of `disk_when_free` find that another writes the disk.
    pub fn busy_for(&mut self, calls: u64)
        ensures { self.new ≡ record self.old { busy = calls } }
    {
        self.busy = calls;
    }

    /// What it was asked for so far, in order.
    pub fn asked(&self) -> &List<Asked>
        ensures { result.now ≡ self.now.asked }
    {
        &self.asked
    }

    /// Its calls so far.
    pub fn calls(&self) -> &Calls
        ensures { result.now ≡ self.now.calls }
    {
        &self.calls
    }
}

impl World for MemWorld {
    type Door = MemDoor;

    type Disk = MemDisk;

    ghost doors_left = { λ w. Some w.doors };

    ghost disks_left = { λ w. Some w.disks };

    ghost keys_left = { λ w. Some w.keys };

    ghost asked = { λ w. w.asked };

    ghost faults = { λ w. w.calls.faults };

    fn doors(
        &mut self,
        _: Global,
        address: &Txt,
        n: u32,
        patience: u64,
    ) -> Result<List<MemDoor>, WorldFault> {
        if self.calls.begin() || self.doors.len() < n as usize {
            self.calls.count_fault();
            return Err(WorldFault::Failed);
        }
        note_doors(&mut self.asked, address, n, patience)?;
        take_front(&mut self.doors, n as usize)
    }

    fn disk_to_read(&mut self, path: &Txt) -> Result<MemDisk, Failed>
        ensures disks { MatchResult result (λ disk. HandsOut (Some self.old.disks) (Some self.new.disks) (disk ∷ [])) (λ _. self.new.disks ≡ self.old.disks) }
        ensures doors { self.new.doors ≡ self.old.doors }
        ensures keys { self.new.keys ≡ self.old.keys }
        ensures asks { Asks self.old.asked self.new.asked (asked_for.DiskToRead path.now) result }
        ensures cause { CountsErrors self.old.calls.faults self.new.calls.faults result }

        // A call fails where it is told to, and where none is left.
        ensures told { OnOk result (lacks self.old.calls self.old.disks 1 ≡ false) }
        ensures calls { self.new.calls ≡ one_call_later self.old.calls (is_err result) }
    {
        if self.calls.begin()
            || self.disks.is_empty()
            || note_disk_to_read(&mut self.asked, path).is_err()
        {
            self.calls.count_fault();
            return Err(Failed);
        }
        Ok(take_first(&mut self.disks))
    }

    fn disk(&mut self, path: &Txt) -> Result<MemDisk, Failed>
        ensures disks { MatchResult result (λ disk. HandsOut (Some self.old.disks) (Some self.new.disks) (disk ∷ [])) (λ _. self.new.disks ≡ self.old.disks) }
        ensures doors { self.new.doors ≡ self.old.doors }
        ensures keys { self.new.keys ≡ self.old.keys }
        ensures asks { Asks self.old.asked self.new.asked (asked_for.Disk path.now) result }
        ensures cause { CountsErrors self.old.calls.faults self.new.calls.faults result }

        // A call fails where it is told to, and where none is left.
        ensures told { OnOk result (lacks self.old.calls self.old.disks 1 ≡ false) }
        ensures calls { self.new.calls ≡ one_call_later self.old.calls (is_err result) }
    {
        if self.calls.begin()
            || self.disks.is_empty()
            || note_disk(&mut self.asked, path).is_err()
        {
            self.calls.count_fault();
            return Err(Failed);
        }
        Ok(take_first(&mut self.disks))
    }

    fn disk_there(&mut self, path: &Txt) -> Result<MemDisk, Failed>
        ensures long { IfOk result (λ disk. (store_of disk).told ≡ true → 0 < length (store_of disk).reads) }
        ensures disks { MatchResult result (λ disk. HandsOut (Some self.old.disks) (Some self.new.disks) (disk ∷ [])) (λ _. self.new.disks ≡ self.old.disks) }
        ensures doors { self.new.doors ≡ self.old.doors }
        ensures keys { self.new.keys ≡ self.old.keys }
        ensures asks { Asks self.old.asked self.new.asked (asked_for.DiskThere path.now) result }
        ensures cause { CountsErrors self.old.calls.faults self.new.calls.faults result }

        // A call fails where it is told to, and where none is left, or the next has nothing in it.
        ensures told { OnOk result (lacks self.old.calls self.old.disks 1 ≡ false) }
        ensures calls { self.new.calls ≡ one_call_later self.old.calls (is_err result) }
    {
        if self.calls.begin()
            || is_none_there(&self.disks)
            || note_disk_there(&mut self.asked, path).is_err()
        {
            self.calls.count_fault();
            return Err(Failed);
        }
        Ok(take_first(&mut self.disks))
    }

    fn disk_when_free(&mut self, path: &Txt, ms: u64) -> Result<Option<MemDisk>, Failed>
        ensures disks { MatchResult result (λ disk. HandsOut (Some self.old.disks) (Some self.new.disks) (option_to_list disk)) (λ _. self.new.disks ≡ self.old.disks) }
        ensures doors { self.new.doors ≡ self.old.doors }
        ensures keys { self.new.keys ≡ self.old.keys }
        ensures asks { AsksAgain self.old.asked self.new.asked (asked_for.DiskWhenFree path.now ms) result }
        ensures cause { CountsErrors self.old.calls.faults self.new.calls.faults result }

        // A call fails where it is told to, and where none is left. Before one is handed out so many find it written by another.
        ensures told { OnOk result (next_fails self.old.calls ≡ false) }
        ensures busy { MatchResult result (λ disk. MatchOption disk (self.old.busy ≡ self.new.busy + 1) (λ _. (self.old.busy ≡ 0) × (self.new.busy ≡ 0))) (λ _. self.new.busy ≡ self.old.busy) }
        ensures calls { self.new.calls ≡ one_call_later self.old.calls (is_err result) }
    {
        if self.calls.begin() {
            self.calls.count_fault();
            return Err(Failed);
        }
        if self.busy > 0 {
            self.busy -= 1;
            return Ok(None);
        }
        if self.disks.is_empty() || note_disk_when_free(&mut self.asked, path, ms).is_err() {
            self.calls.count_fault();
            return Err(Failed);
        }
        Ok(Some(take_first(&mut self.disks)))
    }

    fn key(&mut self, path: &Txt) -> Result<Txt, Failed>
        ensures keys { MatchResult result (λ text. HandsOut (Some self.old.keys) (Some self.new.keys) (text ∷ [])) (λ _. self.new.keys ≡ self.old.keys) }
        ensures most { IfOk result (λ text. length text ≤ 65) }
        ensures doors { self.new.doors ≡ self.old.doors }
        ensures disks { self.new.disks ≡ self.old.disks }
        ensures asks { Asks self.old.asked self.new.asked (asked_for.Key path.now) result }
        ensures cause { CountsErrors self.old.calls.faults self.new.calls.faults result }

        // A call fails where it is told to, and where none is left.
        ensures told { OnOk result (lacks self.old.calls self.old.keys 1 ≡ false) }
        ensures calls { self.new.calls ≡ one_call_later self.old.calls (is_err result) }
    {
        if self.calls.begin() || self.keys.is_empty() || note_key(&mut self.asked, path).is_err() {
            self.calls.count_fault();
            return Err(Failed);
        }
        Ok(take_text(&mut self.keys))
    }
}

// Takes the first so many.
fn take_front<T: Drop>(items: &mut Vec<T>, n: usize) -> Result<List<T>, WorldFault>
    requires { n ≤ length items.old.items }
    ensures given { IfOk result (λ front. front ≡ take n items.old.items) }
    ensures left { OnOk result (items.new.items ≡ drop n items.old.items) }
    ensures kept { OnErr result (items.new.items ≡ items.old.items) }
    ensures memory { IfErr result (λ e. e ≡ memory) }
{
    let rest = items.split_off(n)?;
    Ok(List::from_vec(mem::replace(items, rest)))
}

// Whether none is left, or the first has nothing in it.
fn is_none_there(disks: &Vec<MemDisk>) -> bool
    ensures { result ≡ lacks_there disks.now.items }
{
    match disks.as_slice() {
        [] => true,
        [first, ..] => first.is_empty(),
    }
}

// Takes the first.
fn take_first<T: Drop>(items: &mut Vec<T>) -> T
    requires { 0 < length items.old.items }
    ensures { items.old.items ≡ result ∷ items.new.items }
{
    items.remove(0)
}

// Takes the first text, of which the front is read.
fn take_text(texts: &mut Vec<Txt>) -> Txt
    requires { 0 < length texts.old.items }
    ensures first { map key_front texts.old.items ≡ result ∷ map key_front texts.new.items }
    ensures most { length result ≤ 65 }
{
    let mut text = take_first(texts);
    text.truncate(65);
    text
}
