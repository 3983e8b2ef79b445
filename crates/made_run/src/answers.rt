//! The answers of a run, which are read one after the other from what was sent. They are compared with what has to be
//! answered, so no contract speaks of them here.
use rtb_num::Txt;
use std::alloc::{AllocError, Global};

/// Where the answers of a run come from, in the order of its messages.
pub(crate) trait Tells {
    /// Puts the body of the next answer in the place of what the text was. The answer's status.
    fn tell(&mut self, alloc: Global, answer: &mut Txt) -> Result<u32, AllocError>;
}

/// Puts the body of the answer at the place of what was sent in the place of what the text was. The answer's status, and
/// the place behind it. None is there only where a link ended early, which a link in memory does for want of memory alone.
pub(crate) fn tell_at(
    sent: &[u8],
    place: usize,
    answer: &mut Txt,
) -> Result<(u32, usize), AllocError> {
    let Some((status, body, next)) = answer_at(sent, place) else {
        return Err(AllocError);
    };
    answer.truncate(0);
    answer.extend(body)?;
    Ok((status, next))
}

// What an answer with bids begins with, and one without bids.
const SOLD_HEAD: &[u8] = b"HTTP/1.1 200 OK\r\nContent-Type: application/json\r\nContent-Length: ";

const NO_BID: &[u8] = b"HTTP/1.1 204 No Content\r\n\r\n";

// Its status, its body, and the place behind it.
fn answer_at(sent: &[u8], place: usize) -> Option<(u32, &[u8], usize)> {
    let rest = sent.get(place..)?;
    let (status, length, behind) = head_of(rest)?;
    let body = behind.get(..length)?;
    let next = sent.len().checked_sub(behind.len())?.checked_add(length)?;
    Some((status, body, next))
}

// Its status, how many bytes its body has, and what stands behind its head. Nearly all heads are one of two texts.
fn head_of(bytes: &[u8]) -> Option<(u32, usize, &[u8])> {
    if let Some(digits) = bytes.strip_prefix(SOLD_HEAD) {
        let (length, behind) = number_ahead(digits)?;
        return Some((200, length, behind.strip_prefix(b"\r\n\r\n".as_slice())?));
    }
    if let Some(behind) = bytes.strip_prefix(NO_BID) {
        return Some((204, 0, behind));
    }
    any_head_of(bytes)
}

// The same of a head line by line.
#[inline(never)]
fn any_head_of(bytes: &[u8]) -> Option<(u32, usize, &[u8])> {
    let (line, fields) = line_of(bytes)?;
    let status = status_in(line)?;
    let (length, behind) = length_in(fields)?;
    Some((status, length, behind))
}

// The number that the digits at the front spell, and what stands behind them.
fn number_ahead(bytes: &[u8]) -> Option<(usize, &[u8])> {
    let end = bytes.iter().position(|byte| !byte.is_ascii_digit())?;
    let number = number_in(bytes.get(..end)?)?;
    Some((number, bytes.get(end..)?))
}

// An answer has no more lines between its status and the empty one.
const MOST_FIELDS: u32 = 8;

// How many bytes the body has, and what stands behind the fields: 0 where no field tells it (RFC 9110, section 15.3.5).
fn length_in(fields: &[u8]) -> Option<(usize, &[u8])> {
    let mut length = 0;
    let mut rest = fields;
    for _ in 0..MOST_FIELDS {
        let (line, behind) = line_of(rest)?;
        rest = behind;
        if line.is_empty() {
            return Some((length, rest));
        }
        if let Some(digits) = line.strip_prefix(b"Content-Length: ".as_slice()) {
            length = number_in(digits)?;
        }
    }
    None
}

// The line that the bytes begin with, without its end, and what stands behind it.
fn line_of(bytes: &[u8]) -> Option<(&[u8], &[u8])> {
    let end = bytes.iter().position(|byte| *byte == b'\r')?;
    let line = bytes.get(..end)?;
    let behind = bytes.get(end.checked_add(2)?..)?;
    Some((line, behind))
}

fn status_in(line: &[u8]) -> Option<u32> {
    let digits = line.get(9..12)?;
    let status = number_in(digits)?;
    u32::try_from(status).ok()
}

// A number of decimal digits.
fn number_in(digits: &[u8]) -> Option<usize> {
    let mut number = 0usize;
    for digit in digits {
        let value = digit.checked_sub(b'0')?;
        number = number.checked_mul(10)?.checked_add(usize::from(value))?;
    }
    Some(number)
}
