//! Strings of JSON written (RFC 8259, section 7).
ghost use Rattle.std.specs.Prelude.{◌≡◌, ◌+◌, ◌<◌, ◌≤◌, ◌/◌, ◌%◌, ◌++◌, ◌∷◌, [], ℕ, List, decimal, drop, length, take, OnOk, OnErr};
ghost use Rattle.std.specs.List.{flat_map};
ghost use Rattle.json_out.specs.Strings.{IsString, escape, hexadecimal, string_text};

use crate::lanes::plain_front;
use rtb_num::{Txt, write_decimal};
use std::alloc::AllocError;

/// Appends the string of these bytes; where memory is refused, its front may stay.
#[inline(always)]
#[tactic(auto, using(crate::proofs::Plain::all_plain))]
pub fn push_string(out: &mut Txt, text: &[u8]) -> Result<(), AllocError>
    ensures ok { OnOk result (out.new ≡ out.old ++ string_text text.now) }
    ensures front { (more : List ℕ) × (out.new ≡ out.old ++ more) }
{
    if plain_len(text) == text.len() {
        return push_plain(out, text);
    }
    push_any(out, text)
}

// Appends the string of a text that stands in it as it is, as nearly all do.
#[inline(always)]
fn push_plain(out: &mut Txt, text: &[u8]) -> Result<(), AllocError>
    requires { flat_map escape text.now ≡ text.now }
    ensures ok { OnOk result (out.new ≡ out.old ++ string_text text.now) }
    ensures front { (more : List ℕ) × (out.new ≡ out.old ++ more) }
{
    out.push(b'"')?;
    out.extend(text)?;
    out.push(b'"')
}

// Appends the string of any text.
#[inline(never)]
fn push_any(out: &mut Txt, text: &[u8]) -> Result<(), AllocError>
    ensures ok { OnOk result (out.new ≡ out.old ++ string_text text.now) }
    ensures front { (more : List ℕ) × (out.new ≡ out.old ++ more) }
{
    out.push(b'"')?;
    push_escaped(out, text)?;
    out.push(b'"')
}

// Appends the inside of a string; where memory is refused, its front may stay.
fn push_escaped(out: &mut Txt, text: &[u8]) -> Result<(), AllocError>
    ensures ok { OnOk result (out.new ≡ out.old ++ flat_map escape text.now) }
    ensures front { (more : List ℕ) × (out.new ≡ out.old ++ more) }
{
    let mut rest = text;
    loop {
        let plain = plain_len(rest);
        out.extend(&rest[..plain])?;
        let Some((byte, behind)) = rest[plain..].split_first() else {
            return Ok(());
        };
        push_byte(out, *byte)?;
        rest = behind;
    }
}

// How many bytes at the front stand in a string as they are: they are looked at 16 at a time while there are as many.
#[inline(always)]
#[tactic(auto, using(crate::proofs::Plain::plain_then))]
fn plain_len(text: &[u8]) -> usize
    ensures bound { result ≤ length text.now }
    ensures plain { flat_map escape (take result text.now) ≡ take result text.now }
{
    let mut front = 0;
    while text.len() - front >= 16 {
        let plain = plain_front(behind(text, front));
        front += plain;
        if plain < 16 {
            return front;
        }
    }
    front + plain_rest(behind(text, front))
}

// What stands behind so many bytes.
#[inline(always)]
fn behind(bytes: &[u8], count: usize) -> &[u8]
    requires { count ≤ length bytes.now }
    ensures value { result.now ≡ drop count bytes.now }
    ensures len { length result.now + count ≡ length bytes.now }
{
    &bytes[count..]
}

// How many bytes at the front stand in a string as they are, looked at one by one.
#[inline(always)]
fn plain_rest(text: &[u8]) -> usize
    ensures bound { result ≤ length text.now }
    ensures plain { flat_map escape (take result text.now) ≡ take result text.now }
{
    for (i, byte) in text.iter().enumerate() {
        if *byte < b' ' || *byte == b'"' || *byte == b'\\' {
            return i;
        }
    }
    text.len()
}

// Appends one byte of a string.
fn push_byte(out: &mut Txt, byte: u8) -> Result<(), AllocError>
    ensures ok { OnOk result (out.new ≡ out.old ++ escape byte) }
    ensures err { OnErr result (out.new ≡ out.old) }
{
    match byte {
        b'"' | b'\\' => out.extend(&[b'\\', byte]),
        0..=0x1f => push_control(out, byte),
        _ => out.push(byte),
    }
}

// Appends a control character by its number.
fn push_control(out: &mut Txt, byte: u8) -> Result<(), AllocError>
    requires { byte < 32 }
    ensures ok { OnOk result (out.new ≡ out.old ++ 92 ∷ 117 ∷ 48 ∷ 48 ∷ hexadecimal (byte / 16) ∷ hexadecimal (byte % 16) ∷ []) }
    ensures err { OnErr result (out.new ≡ out.old) }
{
    let high = hexadecimal(byte / 16);
    let low = hexadecimal(byte % 16);
    out.extend(&[b'\\', b'u', b'0', b'0', high, low])
}

// A hexadecimal digit, in lower case.
fn hexadecimal(n: u8) -> u8
    requires { n < 16 }
    ensures { result ≡ hexadecimal n }
{
    if n < 10 { b'0' + n } else { b'a' + (n - 10) }
}

// Appends a name and the colon behind it; where memory is refused, its front may stay.
pub(crate) fn push_name(out: &mut Txt, name: &[u8]) -> Result<(), AllocError>
    ensures ok { OnOk result (out.new ≡ out.old ++ string_text name.now ++ 58 ∷ []) }
    ensures front { (more : List ℕ) × (out.new ≡ out.old ++ more) }
{
    push_string(out, name)?;
    out.push(b':')
}

// Appends the string of a number's digits; where memory is refused, its front may stay.
pub(crate) fn push_digits(out: &mut Txt, n: u64) -> Result<(), AllocError>
    ensures ok { OnOk result (out.new ≡ out.old ++ string_text (decimal n)) }
    ensures front { (more : List ℕ) × (out.new ≡ out.old ++ more) }
{
    out.push(b'"')?;
    write_decimal(n, out)?;
    out.push(b'"')
}

// Appends the string of two texts and a number's digits, one behind the other; where memory is refused, its front
// may stay.
pub(crate) fn push_numbered(
    out: &mut Txt,
    text: &[u8],
    path: &[u8],
    n: u64,
) -> Result<(), AllocError>
    ensures ok { OnOk result (out.new ≡ out.old ++ string_text (text.now ++ path.now ++ decimal n)) }
    ensures front { (more : List ℕ) × (out.new ≡ out.old ++ more) }
{
    out.push(b'"')?;
    push_escaped(out, text)?;
    push_escaped(out, path)?;
    write_decimal(n, out)?;
    out.push(b'"')
}

/// The law of the written strings, with nothing to run, byte by byte: each is a string by the rules of
/// RFC 8259, section 7, that says the bytes that it was given, and a string says one thing. Bytes from
/// 0x80 on stand for themselves, so what is written is a JSON string where the bytes are UTF-8.
pub fn strings_read_back()
    ensures back { (s : List ℕ) → IsString s (string_text s) }
    ensures one { (s t bytes : List ℕ) → IsString s bytes → IsString t bytes → s ≡ t }
{}
