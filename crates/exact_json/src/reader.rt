//! Values read: scalars, arrays and objects.
ghost use Rattle.std.specs.Prelude.{◌≡◌, ◌≤◌, ◌++◌, ◌∷◌, length, map, take, drop, IfOk};
ghost use Rattle.exact_json.specs.Gives.{Gives, Leaves, Reads};
ghost use Rattle.exact_json.specs.Reading.{byte_then, end_of, entries_at, flat_at, is_space, mapped, member_at, more_at, quoted_at, skip, text_at, value_at, word_at, word_value_at};
ghost use Rattle.exact_json.specs.Reading as reading;
ghost use Rattle.exact_json.specs.View.{pair_of, tree_of};
ghost use Rattle.exact_json.specs.Held.{held};

use crate::character::text_before;
use crate::number::{is_digit, number_end};
use crate::stacks::Stacks;
use crate::stop::Stop;
use crate::string::string_of;
use crate::value::{Member, Value};
use bumpalo::Bump;
use std::alloc::Global;

// The value of a whole text that nests at most so deep.
#[tactic(auto, unfolding(crate::specs::Reading::text_at))]
pub(crate) fn text_of<'a>(
    alloc: Global,
    arena: &'a Bump,
    bytes: &'a [u8],
    depth: usize,
) -> Result<Value<'a>, Stop>
    ensures { Reads result (text_at depth bytes.now) }
{
    let mut stacks = Stacks::new(alloc, arena)?;
    let read = value_of(&mut stacks, skip_spaces(bytes), depth);
    drop(stacks);
    let (value, rest) = read?;
    at_end(value, skip_spaces(rest))
}

// The value, where nothing stands behind it.
fn at_end<'a>(value: Value<'a>, rest: &[u8]) -> Result<Value<'a>, Stop>
    ensures { Reads result (end_of (tree_of value.entry) rest.now) }
{
    if !rest.is_empty() {
        return Err(Stop::At(rest.len()));
    }
    Ok(value)
}

// The value at the front, and what stands behind it. The stacks are then as they were.
#[inline(always)]
#[cycle(reading)]
#[tactic(auto, unfolding(crate::specs::Reading::value_at))]
fn value_of<'a>(
    stacks: &mut Stacks<'a>,
    bytes: &'a [u8],
    depth: usize,
) -> Result<(Value<'a>, &'a [u8]), Stop>
    ensures gives { Gives tree_of result (value_at depth bytes.now) }
    ensures held { IfOk result (λ _. held stacks.new ≡ held stacks.old) }
{
    if depth == 0 {
        return scalar_of(stacks, bytes);
    }
    let Some((first, rest)) = bytes.split_first() else {
        return Err(Stop::Short);
    };
    if *first == b'[' {
        let (items, rest) = items_of(stacks, skip_spaces(rest), depth - 1)?;
        return Ok((Value::Arr(items), rest));
    }
    if *first == b'{' {
        let (members, rest) = members_of(stacks, skip_spaces(rest), depth - 1)?;
        return Ok((Value::Obj(members), rest));
    }
    scalar_of(stacks, bytes)
}

// A value that is neither an array nor an object.
#[inline(always)]
#[tactic(auto, unfolding(crate::specs::Reading::scalar_at))]
fn scalar_of<'a>(stacks: &Stacks<'a>, bytes: &'a [u8]) -> Result<(Value<'a>, &'a [u8]), Stop>
    ensures { Gives tree_of result (flat_at bytes.now) }
{
    let Some((first, rest)) = bytes.split_first() else {
        return Err(Stop::Short);
    };
    if *first == b'"' {
        let (text, rest) = string_of(stacks.alloc, stacks.arena, rest)?;
        return Ok((Value::Str(text), rest));
    }
    if *first == b'-' || is_digit(*first) {
        let (text, rest) = number_of(bytes)?;
        return Ok((Value::Num(text), rest));
    }
    word_value(*first, rest, bytes.len())
}

// A value that is a word with this first byte, where so many bytes are left with it.
#[inline(always)]
fn word_value<'a>(first: u8, rest: &'a [u8], left: usize) -> Result<(Value<'a>, &'a [u8]), Stop>
    requires { left ≡ length (first ∷ rest.now) }
    ensures { Gives tree_of result (word_value_at first rest.now) }
{
    if first == b'n' {
        let rest = after_word(rest, b"ull")?;
        return Ok((Value::Null, rest));
    }
    if first == b't' {
        let rest = after_word(rest, b"rue")?;
        return Ok((Value::Bool(true), rest));
    }
    if first == b'f' {
        let rest = after_word(rest, b"alse")?;
        return Ok((Value::Bool(false), rest));
    }
    Err(Stop::At(left))
}

#[inline(always)]
fn number_of(bytes: &[u8]) -> Result<(&[u8], &[u8]), Stop>
    ensures { Gives (λ text. text.now) result (reading.number_at bytes.now) }
{
    let rest = number_end(bytes)?;
    Ok((text_before(bytes, rest), rest))
}

// What stands behind this word.
fn after_word<'a>(bytes: &'a [u8], word: &[u8]) -> Result<&'a [u8], Stop>
    ensures { Leaves word.now result (word_at word.now bytes.now) }
{
    let mut left = bytes;
    for expected in word {
        let Some((first, rest)) = left.split_first() else {
            return Err(Stop::Short);
        };
        if *first != *expected {
            return Err(Stop::At(left.len()));
        }
        left = rest;
    }
    Ok(left)
}

// The items of an array and its closing bracket.
#[inline(never)]
#[cycle(reading)]
#[tactic(auto, unfolding(crate::specs::Reading::entries_at))]
fn items_of<'a>(
    stacks: &mut Stacks<'a>,
    bytes: &'a [u8],
    depth: usize,
) -> Result<(&'a [Value<'a>], &'a [u8]), Stop>
    ensures gives { Gives (λ items. map tree_of items.now) result (entries_at (value_at depth) 93 bytes.now) }
    ensures held { IfOk result (λ _. held stacks.new ≡ held stacks.old) }
{
    let Some((first, rest)) = bytes.split_first() else {
        return Err(Stop::Short);
    };
    if *first == b']' {
        return Ok((&[], rest));
    }
    let base = stacks.value_count();
    let (value, rest) = value_of(stacks, bytes, depth)?;
    stacks.push_value(value)?;
    more_items_of(stacks, base, skip_spaces(rest), depth)
}

// What stands behind white space.
#[tactic(auto, unfolding(crate::specs::Reading::skip))]
fn skip_spaces(bytes: &[u8]) -> &[u8]
    ensures value { result.now ≡ skip bytes.now }
    ensures shorter { length result.now ≤ length bytes.now }
{
    let mut left = bytes;
    while let Some((first, rest)) = left.split_first() {
        if !is_space(*first) {
            return left;
        }
        left = rest;
    }
    left
}

fn is_space(byte: u8) -> bool
    ensures { result ≡ is_space byte }
{
    if byte > b' ' {
        return false;
    }
    matches!(byte, b' ' | b'\t' | b'\n' | b'\r')
}

// What follows the first items, which stand on the stack from that place on.
#[cycle(reading)]
fn more_items_of<'a>(
    stacks: &mut Stacks<'a>,
    base: usize,
    bytes: &'a [u8],
    depth: usize,
) -> Result<(&'a [Value<'a>], &'a [u8]), Stop>
    requires { base ≤ length (held stacks.old).0 }
    ensures gives { Gives (λ items. map tree_of items.now) result (mapped (λ ts. map tree_of (drop base (held stacks.old).0) ++ ts) (more_at (value_at depth) 93 (length bytes.now) bytes.now)) }
    ensures held { IfOk result (λ _. held stacks.new ≡ (take base (held stacks.old).0, (held stacks.old).1)) }
{
    let mut left = bytes;
    loop {
        let Some((first, rest)) = left.split_first() else {
            return Err(Stop::Short);
        };
        if *first == b']' {
            let items = stacks.keep_values(base)?;
            return Ok((items, rest));
        }
        if *first != b',' {
            return Err(Stop::At(left.len()));
        }
        let (value, rest) = value_of(stacks, skip_spaces(rest), depth)?;
        stacks.push_value(value)?;
        left = skip_spaces(rest);
    }
}

// The members of an object and its closing brace.
#[inline(never)]
#[cycle(reading)]
#[tactic(auto, unfolding(crate::specs::Reading::entries_at))]
fn members_of<'a>(
    stacks: &mut Stacks<'a>,
    bytes: &'a [u8],
    depth: usize,
) -> Result<(&'a [Member<'a>], &'a [u8]), Stop>
    ensures gives { Gives (λ members. map pair_of members.now) result (entries_at (member_at (value_at depth)) 125 bytes.now) }
    ensures held { IfOk result (λ _. held stacks.new ≡ held stacks.old) }
{
    let Some((first, rest)) = bytes.split_first() else {
        return Err(Stop::Short);
    };
    if *first == b'}' {
        return Ok((&[], rest));
    }
    let base = stacks.member_count();
    let (member, rest) = member_of(stacks, bytes, depth)?;
    stacks.push_member(member)?;
    more_members_of(stacks, base, skip_spaces(rest), depth)
}

#[inline(always)]
#[cycle(reading)]
#[tactic(auto, unfolding(crate::specs::Reading::member_at))]
fn member_of<'a>(
    stacks: &mut Stacks<'a>,
    bytes: &'a [u8],
    depth: usize,
) -> Result<(Member<'a>, &'a [u8]), Stop>
    ensures gives { Gives pair_of result (member_at (value_at depth) bytes.now) }
    ensures held { IfOk result (λ _. held stacks.new ≡ held stacks.old) }
{
    let (name, rest) = name_of(stacks, bytes)?;
    let (value, rest) = value_after_colon(stacks, skip_spaces(rest), depth)?;
    Ok((Member { name, value }, rest))
}

// The name of a member.
#[inline(always)]
fn name_of<'a>(stacks: &Stacks<'a>, bytes: &'a [u8]) -> Result<(&'a [u8], &'a [u8]), Stop>
    ensures { Gives (λ text. text.now) result (byte_then 34 quoted_at bytes.now) }
{
    let Some((first, rest)) = bytes.split_first() else {
        return Err(Stop::Short);
    };
    if *first != b'"' {
        return Err(Stop::At(bytes.len()));
    }
    string_of(stacks.alloc, stacks.arena, rest)
}

// A colon and the value of a member.
#[inline(always)]
#[cycle(reading)]
fn value_after_colon<'a>(
    stacks: &mut Stacks<'a>,
    bytes: &'a [u8],
    depth: usize,
) -> Result<(Value<'a>, &'a [u8]), Stop>
    ensures gives { Gives tree_of result (byte_then 58 (λ after. value_at depth (skip after)) bytes.now) }
    ensures held { IfOk result (λ _. held stacks.new ≡ held stacks.old) }
{
    let Some((first, rest)) = bytes.split_first() else {
        return Err(Stop::Short);
    };
    if *first != b':' {
        return Err(Stop::At(bytes.len()));
    }
    value_of(stacks, skip_spaces(rest), depth)
}

// What follows the first members, which stand on the stack from that place on.
#[cycle(reading)]
fn more_members_of<'a>(
    stacks: &mut Stacks<'a>,
    base: usize,
    bytes: &'a [u8],
    depth: usize,
) -> Result<(&'a [Member<'a>], &'a [u8]), Stop>
    requires { base ≤ length (held stacks.old).1 }
    ensures gives { Gives (λ members. map pair_of members.now) result (mapped (λ ps. map pair_of (drop base (held stacks.old).1) ++ ps) (more_at (member_at (value_at depth)) 125 (length bytes.now) bytes.now)) }
    ensures held { IfOk result (λ _. held stacks.new ≡ ((held stacks.old).0, take base (held stacks.old).1)) }
{
    let mut left = bytes;
    loop {
        let Some((first, rest)) = left.split_first() else {
            return Err(Stop::Short);
        };
        if *first == b'}' {
            let members = stacks.keep_members(base)?;
            return Ok((members, rest));
        }
        if *first != b',' {
            return Err(Stop::At(left.len()));
        }
        let (member, rest) = member_of(stacks, skip_spaces(rest), depth)?;
        stacks.push_member(member)?;
        left = skip_spaces(rest);
    }
}
