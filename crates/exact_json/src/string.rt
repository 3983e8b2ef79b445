//! Strings (RFC 8259, section 7), with their escapes.
ghost use Rattle.std.specs.Prelude.{◌≡◌, ◌<◌, ◌≤◌, ◌+◌, ◌++◌, [], ◌∷◌, Some, List, ℕ, true, false, length, option_map, IfErr, IfOk, IfSome, OnOk};
ghost use Rattle.exact_json.specs.Gives.{Fails, Gives, Leaves, Runs};
ghost use Rattle.exact_json.specs.Escapes.{piece_view};
ghost use Rattle.exact_json.specs.Reading.{EndsRun, after_run, body_at, escape_at, hex_at, is_special, mapped, quoted_at, unit_at};
ghost use Rattle.exact_json.specs.Strings.{Piece, alone, escape_value, hex_digit, is_escape, is_hex, is_high, is_low, code_point, text_behind, unit_text, utf8};

use crate::character::{character_end, skip_plain, text_before};
use crate::stop::Stop;
use bumpalo::Bump;
use rtb_num::Txt;
use std::alloc::{AllocError, Global};

// What stands behind a backslash: a byte, or a unit of UTF-16.
#[derive(Clone, Copy, Drop)]
enum Escape {
    Byte(u8),
    Unit(u16),
}

// The text of a string, behind its opening quotation mark. Where no escape stands in it, it lies in the bytes.
#[inline(always)]
pub(crate) fn string_of<'a>(
    alloc: Global,
    arena: &'a Bump,
    bytes: &'a [u8],
) -> Result<(&'a [u8], &'a [u8]), Stop>
    ensures gives { Gives (λ t. t.now) result (quoted_at bytes.now) }
    ensures shorter { IfOk result (λ p. length p.1.now ≤ length bytes.now) }
{
    let rest = skip_plain(bytes);
    let Some((first, after)) = rest.split_first() else {
        return unescaped(alloc, arena, bytes);
    };
    if *first != b'"' {
        return unescaped(alloc, arena, bytes);
    }
    Ok((text_before(bytes, rest), after))
}

// The text of any string, put together and copied into the arena.
#[inline(never)]
fn unescaped<'a>(
    alloc: Global,
    arena: &'a Bump,
    bytes: &'a [u8],
) -> Result<(&'a [u8], &'a [u8]), Stop>
    ensures gives { Gives (λ t. t.now) result (quoted_at bytes.now) }
    ensures shorter { IfOk result (λ p. length p.1.now ≤ length bytes.now) }
{
    let mut text = Txt::new(alloc);
    let read = append_pieces(&mut text, bytes);
    let kept = copied(arena, text.as_bytes());
    drop(text);
    let rest = read?;
    Ok((kept?, rest))
}

// The bytes, in the arena.
fn copied<'a>(arena: &'a Bump, bytes: &[u8]) -> Result<&'a [u8], AllocError>
    ensures { IfOk result (λ t. t.now ≡ bytes.now) }
{
    Ok(arena.try_alloc_slice_copy(bytes)?)
}

// Appends the text of the pieces up to the quotation mark. It gives what stands behind.
fn append_pieces<'a>(onto: &mut Txt, bytes: &'a [u8]) -> Result<&'a [u8], Stop>
    ensures gives { Leaves onto.new result (mapped (λ t. onto.old ++ t) (quoted_at bytes.now)) }
    ensures shorter { IfOk result (λ rest. length rest.now ≤ length bytes.now) }
{
    let mut high = None;
    let mut left = bytes;
    loop {
        let (run, rest) = run_of(left)?;
        high = push_run(onto, high, run)?;
        let Some((first, after)) = rest.split_first() else {
            return Err(Stop::Short);
        };
        if *first == b'"' {
            push_alone(onto, high)?;
            return Ok(after);
        }
        let (behind, rest) = append_escapes(onto, high, after)?;
        high = behind;
        left = rest;
    }
}

// The unescaped characters at the front, and the rest: a quotation mark, a backslash or nothing.
fn run_of(bytes: &[u8]) -> Result<(&[u8], &[u8]), Stop>
    ensures gives { Runs bytes.now result }
    ensures ends { IfOk result (λ p. EndsRun p.1.now) }
    ensures shorter { IfOk result (λ p. length p.1.now ≤ length bytes.now) }
{
    let mut left = skip_plain(bytes);
    while let Some((first, _)) = left.split_first() {
        if is_special(*first) {
            return Ok((&bytes[..bytes.len() - left.len()], left));
        }
        let after = character_end(left)?;
        left = skip_plain(after);
    }
    Ok((&bytes[..bytes.len() - left.len()], left))
}

// What ends a run of unescaped characters, where they are well formed.
fn is_special(byte: u8) -> bool
    ensures { result ≡ is_special byte }
{
    byte == b'"' || byte == b'\\'
}

// Appends a run behind a high surrogate, or none.
fn push_run(text: &mut Txt, high: Option<u16>, run: &[u8]) -> Result<Option<u16>, AllocError>
    requires { IfSome high (λ h. is_high h ≡ true) }
    ensures high { IfOk result (λ h. IfSome h (λ n. is_high n ≡ true)) }
    ensures value { IfOk result (λ h. (s : List ℕ) → mapped (λ t. text.new ++ t) (body_at h s) ≡ mapped (λ t. text.old ++ t) (after_run high run.now s)) }
{
    if run.is_empty() {
        return Ok(high);
    }
    push_alone(text, high)?;
    text.extend(run)?;
    Ok(None)
}

const REPLACEMENT: u32 = 0xFFFD;

// Appends what stands for a high surrogate that no low one follows.
fn push_alone(text: &mut Txt, high: Option<u16>) -> Result<(), AllocError>
    ensures { OnOk result (text.new ≡ text.old ++ alone high) }
{
    match high {
        None => Ok(()),
        Some(_) => push_utf8(text, REPLACEMENT),
    }
}

// Appends a character in UTF-8.
fn push_utf8(text: &mut Txt, code: u32) -> Result<(), AllocError>
    requires { code < 1114112 }
    ensures { OnOk result (text.new ≡ text.old ++ utf8 code) }
{
    if code <= 0x7F {
        return text.push(code as u8);
    }
    if code <= 0x7FF {
        return text.extend(&[(0xC0 + code / 0x40) as u8, (0x80 + code % 0x40) as u8]);
    }
    let last = [
        (0x80 + code / 0x40 % 0x40) as u8,
        (0x80 + code % 0x40) as u8,
    ];
    if code <= 0xFFFF {
        return text.extend(&[(0xE0 + code / 0x1000) as u8, last[0], last[1]]);
    }
    text.extend(&[
        (0xF0 + code / 0x40000) as u8,
        (0x80 + code / 0x1000 % 0x40) as u8,
        last[0],
        last[1],
    ])
}

// Appends the escape whose backslash is behind, and the escapes of two bytes that follow. It gives the high
// surrogate, if the last is one, and what stands behind.
fn append_escapes<'a>(
    onto: &mut Txt,
    high: Option<u16>,
    bytes: &'a [u8],
) -> Result<(Option<u16>, &'a [u8]), Stop>
    requires { IfSome high (λ h. is_high h ≡ true) }
    ensures high { IfOk result (λ p. IfSome p.0 (λ n. is_high n ≡ true)) }
    ensures value { IfOk result (λ p. mapped (λ t. onto.old ++ t) (body_at high (92 ∷ bytes.now)) ≡ mapped (λ t. onto.new ++ t) (body_at p.0 p.1.now)) }
    ensures fails { IfErr result (λ e. Fails e (mapped (λ t. onto.old ++ t) (body_at high (92 ∷ bytes.now)))) }
    ensures shorter { IfOk result (λ p. length p.1.now ≤ length bytes.now) }
{
    let (escape, after) = escape_of(bytes)?;
    let behind = push_escape(onto, high, escape)?;
    let rest = push_escapes(onto, behind, after)?;
    Ok((behind, rest))
}

fn escape_of(bytes: &[u8]) -> Result<(Escape, &[u8]), Stop>
    ensures gives { Gives piece_view result (escape_at bytes.now) }
    ensures shorter { IfOk result (λ p. length p.1.now ≤ length bytes.now) }
{
    let Some((first, rest)) = bytes.split_first() else {
        return Err(Stop::Short);
    };
    if *first == b'u' {
        let (unit, rest) = unit_of(rest)?;
        return Ok((Escape::Unit(unit), rest));
    }
    if !is_escape(*first) {
        return Err(Stop::At(bytes.len()));
    }
    Ok((Escape::Byte(*first), rest))
}

// Four hexadecimal digits: a unit of UTF-16.
#[tactic(auto, unfolding(crate::specs::Reading::unit_at))]
fn unit_of(bytes: &[u8]) -> Result<(u16, &[u8]), Stop>
    ensures gives { Gives (λ n. n) result (unit_at bytes.now) }
    ensures shorter { IfOk result (λ p. length p.1.now ≤ length bytes.now) }
{
    let (a, rest) = hex_of(bytes)?;
    let (b, rest) = hex_of(rest)?;
    let (c, rest) = hex_of(rest)?;
    let (d, rest) = hex_of(rest)?;
    Ok((((a * 16 + b) * 16 + c) * 16 + d, rest))
}

fn hex_of(bytes: &[u8]) -> Result<(u16, &[u8]), Stop>
    ensures gives { Gives (λ n. n) result (hex_at bytes.now) }
    ensures bound { IfOk result (λ p. p.0 < 16) }
    ensures shorter { IfOk result (λ p. length p.1.now ≤ length bytes.now) }
{
    let Some((first, rest)) = bytes.split_first() else {
        return Err(Stop::Short);
    };
    if !is_hex(*first) {
        return Err(Stop::At(bytes.len()));
    }
    Ok((hex_digit(*first), rest))
}

fn is_hex(byte: u8) -> bool
    ensures { result ≡ is_hex byte }
{
    matches!(byte, b'0'..=b'9' | b'A'..=b'F' | b'a'..=b'f')
}

fn hex_digit(byte: u8) -> u16
    requires { is_hex byte ≡ true }
    ensures value { result ≡ hex_digit byte }
    ensures bound { result < 16 }
{
    match byte {
        b'0'..=b'9' => byte as u16 - 48,
        b'A'..=b'F' => byte as u16 - 55,
        _ => byte as u16 - 87,
    }
}

fn is_escape(byte: u8) -> bool
    ensures { result ≡ is_escape byte }
{
    matches!(byte, b'"' | b'\\' | b'/' | b'b' | b'f' | b'n' | b'r' | b't')
}

// Appends an escape behind a high surrogate, or none.
fn push_escape(text: &mut Txt, high: Option<u16>, escape: Escape) -> Result<Option<u16>, AllocError>
    requires { IfSome high (λ h. is_high h ≡ true) }
    ensures high { IfOk result (λ h. IfSome h (λ n. is_high n ≡ true)) }
    ensures value { IfOk result (λ h. (ps : List Piece) → text.new ++ text_behind h ps ≡ text.old ++ text_behind high (piece_view escape ∷ ps)) }
{
    match escape {
        Escape::Byte(byte) => {
            push_alone(text, high)?;
            text.push(escape_value(byte))?;
            Ok(None)
        }
        Escape::Unit(unit) if is_high(unit) => {
            push_alone(text, high)?;
            Ok(Some(unit))
        }
        Escape::Unit(unit) => {
            push_low(text, high, unit)?;
            Ok(None)
        }
    }
}

// The character that the byte behind a backslash stands for.
fn escape_value(byte: u8) -> u8
    ensures { result ≡ escape_value byte }
{
    match byte {
        b'b' => 0x08,
        b'f' => 0x0C,
        b'n' => b'\n',
        b'r' => b'\r',
        b't' => b'\t',
        _ => byte,
    }
}

fn is_high(unit: u16) -> bool
    ensures { result ≡ is_high unit }
{
    matches!(unit, 0xD800..=0xDBFF)
}

// Appends a unit that is no high surrogate, behind one, or none.
fn push_low(text: &mut Txt, high: Option<u16>, unit: u16) -> Result<(), AllocError>
    requires { IfSome high (λ h. is_high h ≡ true) }
    ensures { OnOk result (text.new ≡ text.old ++ unit_text high unit) }
{
    if !is_low(unit) {
        push_alone(text, high)?;
        return push_utf8(text, unit as u32);
    }
    match high {
        Some(high) => push_utf8(text, code_point(high, unit)),
        None => push_utf8(text, REPLACEMENT),
    }
}

fn is_low(unit: u16) -> bool
    ensures { result ≡ is_low unit }
{
    matches!(unit, 0xDC00..=0xDFFF)
}

// The character of a high and a low surrogate.
fn code_point(high: u16, low: u16) -> u32
    requires high { is_high high ≡ true }
    requires low { is_low low ≡ true }
    ensures value { result ≡ code_point high low }
    ensures bound { result < 1114112 }
{
    0x10000 + (high as u32 - 0xD800) * 0x400 + (low as u32 - 0xDC00)
}

// Appends the escapes of two bytes that stand at the front, where no high surrogate is before them. It
// gives what stands behind.
fn push_escapes<'a>(
    text: &mut Txt,
    high: Option<u16>,
    bytes: &'a [u8],
) -> Result<&'a [u8], AllocError>
    ensures value { IfOk result (λ rest. mapped (λ t. text.new ++ t) (body_at high rest.now) ≡ mapped (λ t. text.old ++ t) (body_at high bytes.now)) }
    ensures shorter { IfOk result (λ rest. length rest.now ≤ length bytes.now) }
{
    let mut left = bytes;
    if high.is_some() {
        return Ok(left);
    }
    while let Some((first, after)) = left.split_first() {
        if *first != b'\\' {
            return Ok(left);
        }
        let Some((byte, rest)) = after.split_first() else {
            return Ok(left);
        };
        if !is_escape(*byte) {
            return Ok(left);
        }
        text.push(escape_value(*byte))?;
        left = rest;
    }
    Ok(left)
}
