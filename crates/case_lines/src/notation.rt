//! What stands in a field of a case, and how an answer is shown.
//!
//! A field stands for its bytes, but that `%HH` is the byte with that hexadecimal number, in capitals,
//! and `%(N*TEXT)` is TEXT as often as N says, where a `#` in TEXT is the number of the turn, from 1
//! on. TEXT has no `)` and no `%`.
use rtb_num::{Txt, write_decimal};
use std::alloc::AllocError;

/// The most turns of a repetition.
const MOST_TURNS: u32 = 1_000_000;

/// Appends the bytes that a field stands for. Tells whether it is in the notation.
pub fn expand(field: &str, out: &mut Txt) -> Result<bool, AllocError> {
    let mut pieces = field.split('%');
    if let Some(first) = pieces.next() {
        out.extend(first.as_bytes())?;
    }
    for piece in pieces {
        if !extend_by(piece, out)? {
            return Ok(false);
        }
    }
    Ok(true)
}

// Appends what stands for the text behind a `%`, up to the next.
fn extend_by(piece: &str, out: &mut Txt) -> Result<bool, AllocError> {
    let Some(inside) = piece.strip_prefix("(") else {
        return extend_by_byte(piece.as_bytes(), out);
    };
    let Some((repetition, rest)) = inside.split_once(")") else {
        return Ok(false);
    };
    if !repeat(repetition, out)? {
        return Ok(false);
    }
    out.extend(rest.as_bytes())?;
    Ok(true)
}

// `N*TEXT`
fn repeat(repetition: &str, out: &mut Txt) -> Result<bool, AllocError> {
    let Some((count, text)) = repetition.split_once("*") else {
        return Ok(false);
    };
    match count.parse::<u32>() {
        Ok(turns) if turns <= MOST_TURNS => extend_by_turns(text, turns, out),
        _ => Ok(false),
    }
}

fn extend_by_turns(text: &str, turns: u32, out: &mut Txt) -> Result<bool, AllocError> {
    for turn in 1..=turns {
        extend_by_turn(text, turn, out)?;
    }
    Ok(true)
}

// The text of one turn.
fn extend_by_turn(text: &str, turn: u32, out: &mut Txt) -> Result<(), AllocError> {
    for (i, part) in text.split('#').enumerate() {
        if i > 0 {
            write_decimal(u64::from(turn), out)?;
        }
        out.extend(part.as_bytes())?;
    }
    Ok(())
}

// Two hexadecimal digits, and what stands behind them.
fn extend_by_byte(piece: &[u8], out: &mut Txt) -> Result<bool, AllocError> {
    let [high, low, rest @ ..] = piece else {
        return Ok(false);
    };
    let (Some(high), Some(low)) = (digit_of(*high), digit_of(*low)) else {
        return Ok(false);
    };
    out.push(high.wrapping_mul(16).wrapping_add(low))?;
    out.extend(rest)?;
    Ok(true)
}

fn digit_of(byte: u8) -> Option<u8> {
    match byte {
        b'0'..=b'9' => Some(byte - b'0'),
        b'A'..=b'F' => Some(byte - b'A' + 10),
        _ => None,
    }
}

/// Appends the bytes as a field writes them, the first 400 at most.
pub fn show(bytes: &[u8], out: &mut Txt) -> Result<(), AllocError> {
    for byte in bytes.iter().take(400) {
        show_byte(*byte, out)?;
    }
    Ok(())
}

fn show_byte(byte: u8, out: &mut Txt) -> Result<(), AllocError> {
    if byte == b'%' || byte < 0x20 || 0x7e < byte {
        return out.extend(&[b'%', hex_of(byte >> 4), hex_of(byte & 15)]);
    }
    out.push(byte)
}

// A digit of a hexadecimal number.
fn hex_of(digit: u8) -> u8 {
    match b"0123456789ABCDEF".get(usize::from(digit)) {
        Some(byte) => *byte,
        None => b'?',
    }
}
