//! Characters of UTF-8 (RFC 3629), and runs of plain ones.
ghost use Rattle.std.specs.Prelude.{◌≡◌, ◌<◌, ◌≤◌, ◌∷◌, false, ◌+◌, length, drop, option_map, IfOk};
ghost use Rattle.exact_json.specs.Gives.{Leaves};
ghost use Rattle.exact_json.specs.Reading.{before, char_at, one_at, ones_at, skip_plain, tails_of};
ghost use Rattle.exact_json.specs.Strings.{followers, in_range, is_plain};

use crate::lanes::plain_front;
use crate::stop::Stop;

// The bytes before the rest, which is an end of them.
#[inline(always)]
pub(crate) fn text_before<'a>(bytes: &'a [u8], rest: &[u8]) -> &'a [u8]
    requires { length rest.now ≤ length bytes.now }
    ensures { result.now ≡ before rest.now bytes.now }
{
    &bytes[..bytes.len() - rest.len()]
}

// What stands behind plain characters, which are passed 16 at a time while there are as many bytes.
#[inline(always)]
pub(crate) fn skip_plain(bytes: &[u8]) -> &[u8]
    ensures value { result.now ≡ skip_plain bytes.now }
    ensures shorter { length result.now ≤ length bytes.now }
{
    let mut left = bytes;
    while left.len() >= 16 {
        let count = plain_front(left);
        if count < 16 {
            return behind(left, count);
        }
        left = behind(left, 16);
    }
    skip_by_one(left)
}

// What stands behind so many bytes.
#[inline(always)]
fn behind(bytes: &[u8], count: usize) -> &[u8]
    requires { count ≤ length bytes.now }
    ensures value { result.now ≡ drop count bytes.now }
    ensures len { length result.now + count ≡ length bytes.now }
{
    &bytes[count..]
}

// What stands behind plain characters, which are passed one by one.
#[inline(always)]
#[tactic(auto, unfolding(crate::specs::Reading::skip_plain))]
fn skip_by_one(bytes: &[u8]) -> &[u8]
    ensures value { result.now ≡ skip_plain bytes.now }
    ensures shorter { length result.now ≤ length bytes.now }
{
    let mut left = bytes;
    while let Some((first, rest)) = left.split_first() {
        if !is_plain(*first) {
            return left;
        }
        left = rest;
    }
    left
}

fn is_plain(byte: u8) -> bool
    ensures { result ≡ is_plain byte }
{
    in_range(0x20, 0x7F, byte) && byte != b'"' && byte != b'\\'
}

fn in_range(low: u8, high: u8, byte: u8) -> bool
    ensures { result ≡ in_range low high byte }
{
    low <= byte && byte <= high
}

// What stands behind an unescaped character.
pub(crate) fn character_end(bytes: &[u8]) -> Result<&[u8], Stop>
    ensures gives { Leaves tt result (char_at bytes.now) }
    ensures shorter { IfOk result (λ rest. length rest.now < length bytes.now) }
{
    let Some((first, rest)) = bytes.split_first() else {
        return Err(Stop::Short);
    };
    if is_plain(*first) {
        return Ok(rest);
    }
    let Some((low, high, tails)) = followers_of(*first) else {
        return Err(Stop::At(bytes.len()));
    };
    let rest = after_one(rest, low, high)?;
    after_tails(rest, tails)
}

// The range of the second byte of a character and how many tails follow it, by its first byte.
fn followers_of(first: u8) -> Option<(u8, u8, usize)>
    requires { is_plain first ≡ false }
    ensures { option_map (λ f. in_range f.0 f.1 ∷ tails_of f.2) result ≡ followers first }
{
    if in_range(0xC2, 0xDF, first) {
        return Some((0x80, 0xBF, 0));
    }
    if first == 0xE0 {
        return Some((0xA0, 0xBF, 1));
    }
    if first == 0xED {
        return Some((0x80, 0x9F, 1));
    }
    if in_range(0xE1, 0xEF, first) {
        return Some((0x80, 0xBF, 1));
    }
    if first == 0xF0 {
        return Some((0x90, 0xBF, 2));
    }
    if first == 0xF4 {
        return Some((0x80, 0x8F, 2));
    }
    if in_range(0xF1, 0xF3, first) {
        return Some((0x80, 0xBF, 2));
    }
    None
}

// What stands behind a byte of the range.
fn after_one(bytes: &[u8], low: u8, high: u8) -> Result<&[u8], Stop>
    ensures gives { Leaves tt result (one_at (in_range low high) bytes.now) }
    ensures shorter { IfOk result (λ rest. length rest.now ≤ length bytes.now) }
{
    let Some((first, rest)) = bytes.split_first() else {
        return Err(Stop::Short);
    };
    if !in_range(low, high, *first) {
        return Err(Stop::At(bytes.len()));
    }
    Ok(rest)
}

// What stands behind so many tails.
fn after_tails(bytes: &[u8], tails: usize) -> Result<&[u8], Stop>
    ensures gives { Leaves tt result (ones_at (tails_of tails) bytes.now) }
    ensures shorter { IfOk result (λ rest. length rest.now ≤ length bytes.now) }
{
    let mut left = bytes;
    let mut due = tails;
    while due > 0 {
        left = after_one(left, 0x80, 0xBF)?;
        due -= 1;
    }
    Ok(left)
}
