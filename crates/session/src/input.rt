//! The bytes that were received and belong to no message yet.
ghost use Rattle.std.specs.Prelude.{◌≡◌, ◌+◌, ◌-◌, ◌<◌, ◌≤◌, ◌++◌, false, ℕ, List, [], length, take, drop, MatchResult, OnErr, IfOk};
ghost use Rattle.std.specs.Io.KnownBytes.{Consumes, IsAtEnd, Keeps};
ghost use Rattle.rtb_base.specs.Faults.{CountsErrors};

use link_door::Link;
use rtb_num::Failed;
use std::alloc::{AllocError, Global};
use std::marker::Model;

/// Room for a head and a body of the greatest size.
pub(crate) const ROOM: usize = 270_336;

// Where less room than this is left from the first byte on, the bytes are moved to the front: a head and
// half as much.
const NEAR: usize = 12_288;

/// What was received and not taken yet, in one room of a fixed size.
#[derive(Drop)]
pub(crate) struct Input {
    room: Vec<u8>,
    start: usize,
    end: usize,
}

impl Model for Input {
    ghost use Rattle.std.specs.Prelude.{List, ℕ, ◌≡◌, ◌≤◌, length, take, drop};

    ghost Value = { List ℕ };

    ghost view = { λ i. drop i.start (take i.end i.room.items) };

    ghost invariant = { λ i. (i.start ≤ i.end) × (i.end ≤ 270336) × (length i.room.items ≡ 270336) };
}

impl Input {
    /// An empty room.
    pub(crate) fn new(alloc: Global) -> Result<Input, AllocError>
        ensures { IfOk result (λ i. i ≡ []) }
    {
        let room = vec![in alloc; 0u8; ROOM]?;
        Ok(Input {
            room,
            start: 0,
            end: 0,
        })
    }

    /// The same room, empty.
    pub(crate) fn clear(&mut self)
        ensures { self.new ≡ [] }
    {
        self.start = 0;
        self.end = 0;
    }

    /// The bytes.
    pub(crate) fn bytes(&self) -> &[u8]
        ensures value { result.now ≡ self.now }
        ensures bound { length self.now ≤ 270336 }
    {
        &self.room.as_slice()[self.start..self.end]
    }

    /// Takes the first bytes away.
    pub(crate) fn pass(&mut self, n: usize)
        requires { n ≤ length self.old }
        ensures { self.new ≡ drop n self.old }
    {
        self.start += n;
        if self.start == self.end {
            self.start = 0;
            self.end = 0;
        }
    }

    /// Receives more of a message of so many bytes, by one read.
    pub(crate) fn fill<L: Link>(&mut self, link: &mut L, least: usize) -> Result<usize, Failed>
        requires needed { length self.old < least }
        requires fits { least ≤ 270336 }
        ensures ok { IfOk result (λ n. (more : List ℕ) × (length more ≡ n) × (self.new ≡ self.old ++ more)
            × Consumes (L.left link.old) (L.left link.new) more × (n ≡ 0 → IsAtEnd (L.left link.new))) }
        ensures err { OnErr result ((self.new ≡ self.old) × Keeps (L.left link.old) (L.left link.new)) }
        ensures sent { L.sent link.new ≡ L.sent link.old }
        ensures cause { CountsErrors (L.faults link.old) (L.faults link.new) result }
    {
        if is_far(self.start, least) {
            to_front(self.room.as_mut_slice(), self.start, self.end);
            self.end -= self.start;
            self.start = 0;
        }
        let inside = self.start < self.end;
        let n = read_behind(link, self.room.as_mut_slice(), self.end, inside)?;
        self.end += n;
        Ok(n)
    }
}

// Whether a message of so many bytes that begins there is moved to the front, before more of it comes:
// where it would not fit, or near the end.
fn is_far(start: usize, least: usize) -> bool
    requires within { start ≤ 270336 }
    requires fits { least ≤ 270336 }
    ensures stays { result ≡ false → start + least ≤ 270336 }
{
    let room = ROOM - start;
    start > 0 && (room < least || room < NEAR)
}

// Reads behind the first bytes, some of which may be of a message.
fn read_behind<L: Link>(
    link: &mut L,
    room: &mut [u8],
    end: usize,
    inside: bool,
) -> Result<usize, Failed>
    requires { end < length room.old }
    ensures ok { IfOk result (λ n. (more : List ℕ) × (length more ≡ n) × (end + n ≤ length room.new) × (take (end + n) room.new ≡ take end room.old ++ more)
        × Consumes (L.left link.old) (L.left link.new) more × (n ≡ 0 → IsAtEnd (L.left link.new))) }
    ensures err { OnErr result ((take end room.new ≡ take end room.old) × Keeps (L.left link.old) (L.left link.new)) }
    ensures sent { L.sent link.new ≡ L.sent link.old }
    ensures cause { CountsErrors (L.faults link.old) (L.faults link.new) result }
{
    link.read(&mut room[end..], inside)
}

// Moves the bytes to the front.
fn to_front(room: &mut [u8], start: usize, end: usize)
    requires ordered { start ≤ end }
    requires within { end ≤ length room.old }
    ensures { take (end - start) room.new ≡ drop start (take end room.old) }
{
    for i in 0..end - start {
        room[i] = room[start + i];
    }
}
