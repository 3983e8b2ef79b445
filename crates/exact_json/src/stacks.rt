//! What a reading has found: the open arrays and objects on two stacks, the closed ones in the arena.
ghost use Rattle.std.specs.Prelude.{◌≡◌, ◌≤◌, ◌+◌, ◌*◌, ◌++◌, ◌∷◌, [], length, take, drop, min, IfOk, OnOk};
ghost use Rattle.exact_json.specs.Held.{held};

use crate::value::{Member, Value};
use bumpalo::Bump;
use std::alloc::{AllocError, Global};

/// The bytes with which an arena begins best to read a text of so many bytes, or the greatest number where that
/// is more. Nearly every bid request then lies in one piece of memory; a text that takes more is read as well.
pub fn room_for(bytes: usize) -> usize
    ensures { result ≡ min (bytes * 6 + 1024) 18446744073709551615 }
{
    bytes.saturating_mul(6).saturating_add(1024)
}

// What a reading has found. The values of arrays and the members of objects that are not closed yet stand on two
// stacks, one for all nests, and what is closed lies in the arena: a nest takes no memory of its own.
#[derive(Drop)]
pub(crate) struct Stacks<'a> {
    pub(crate) alloc: Global,
    pub(crate) arena: &'a Bump,
    pub(crate) values: Vec<Value<'a>, &'a Bump>,
    pub(crate) members: Vec<Member<'a>, &'a Bump>,
}

// How many values and members the stacks have room for at first: more than most requests have open at once.
const FIRST_ROOM: usize = 16;

impl<'a> Stacks<'a> {
    pub(crate) fn new(alloc: Global, arena: &'a Bump) -> Result<Stacks<'a>, AllocError> {
        let values = Vec::with_capacity(arena, FIRST_ROOM)?;
        match Vec::with_capacity(arena, FIRST_ROOM) {
            Ok(members) => Ok(Stacks {
                alloc,
                arena,
                values,
                members,
            }),
            Err(refused) => {
                drop(values);
                Err(refused)
            }
        }
    }

    // How many values stand on their stack.
    #[inline(always)]
    pub(crate) fn value_count(&self) -> usize
        ensures { result ≡ length (held self.now).0 }
    {
        self.values.len()
    }

    // How many members stand on theirs.
    #[inline(always)]
    pub(crate) fn member_count(&self) -> usize
        ensures { result ≡ length (held self.now).1 }
    {
        self.members.len()
    }

    #[inline(always)]
    pub(crate) fn push_value(&mut self, value: Value<'a>) -> Result<(), AllocError>
        ensures { OnOk result (held self.new ≡ ((held self.old).0 ++ value.entry ∷ [], (held self.old).1)) }
    {
        if self.values.push(value).is_err() {
            return Err(AllocError);
        }
        Ok(())
    }

    #[inline(always)]
    pub(crate) fn push_member(&mut self, member: Member<'a>) -> Result<(), AllocError>
        ensures { OnOk result (held self.new ≡ ((held self.old).0, (held self.old).1 ++ member.entry ∷ [])) }
    {
        if self.members.push(member).is_err() {
            return Err(AllocError);
        }
        Ok(())
    }

    // Moves the values from this place on into the arena.
    pub(crate) fn keep_values(&mut self, base: usize) -> Result<&'a [Value<'a>], AllocError>
        requires { base ≤ length (held self.old).0 }
        ensures kept { IfOk result (λ s. s.now ≡ drop base (held self.old).0) }
        ensures left { IfOk result (λ s. held self.new ≡ (take base (held self.old).0, (held self.old).1)) }
    {
        let kept: &'a [Value<'a>] = self.arena.try_alloc_slice_copy(&self.values[base..])?;
        self.values.truncate(base);
        Ok(kept)
    }

    // Moves the members from this place on into the arena.
    pub(crate) fn keep_members(&mut self, base: usize) -> Result<&'a [Member<'a>], AllocError>
        requires { base ≤ length (held self.old).1 }
        ensures kept { IfOk result (λ s. s.now ≡ drop base (held self.old).1) }
        ensures left { IfOk result (λ s. held self.new ≡ ((held self.old).0, take base (held self.old).1)) }
    {
        let kept: &'a [Member<'a>] = self.arena.try_alloc_slice_copy(&self.members[base..])?;
        self.members.truncate(base);
        Ok(kept)
    }
}
