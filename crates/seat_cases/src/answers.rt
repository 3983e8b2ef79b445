//! Words of commands, and how answers are shown.
use case_lines::number_in;
use plain_exchange::{Reply, Sold};
use rtb_num::{List, Txt, write_decimal};
use std::alloc::AllocError;

/// The word at that place, from 0 on, with one space between two; nothing where there is none.
pub fn word_at(command: &[u8], place: usize) -> &[u8] {
    let mut words = command.split(|byte| *byte == b' ').skip(place);
    match words.next() {
        Some(word) => word,
        None => &[],
    }
}

/// The number at that place, or 0.
pub fn number_at(command: &[u8], place: usize) -> u64 {
    number_in(word_at(command, place)).unwrap_or(0)
}

/// Appends what stands between the answers of two commands.
pub fn put_mark(out: &mut Txt) -> Result<(), AllocError> {
    if out.as_bytes().is_empty() {
        return Ok(());
    }
    out.extend(b"; ")
}

/// Appends the word, or that the store failed.
pub fn put_done(word: &[u8], done: bool, out: &mut Txt) -> Result<(), AllocError> {
    if done {
        return out.extend(word);
    }
    out.extend(b"store failed")
}

/// Appends a word, and its number behind a space.
pub fn put_numbered(word: &[u8], number: u64, out: &mut Txt) -> Result<(), AllocError> {
    out.extend(word)?;
    out.push(b' ')?;
    write_decimal(number, out)
}

/// Appends the reply: what was done with which campaign or sale, or what was sold, or another word.
pub fn put_reply(reply: &Reply, out: &mut Txt) -> Result<(), AllocError> {
    match reply {
        Reply::Sold(all) => put_sold(all, out),
        Reply::NoBid => out.extend(b"no bid"),
        Reply::Added { n } => put_numbered(b"added", u64::from(*n), out),
        Reply::Changed { n } => put_numbered(b"changed", u64::from(*n), out),
        Reply::Paused { n } => put_numbered(b"paused", u64::from(*n), out),
        Reply::Resumed { n } => put_numbered(b"resumed", u64::from(*n), out),
        Reply::Billed { sale } => put_numbered(b"billed", *sale, out),
        _ => out.extend(b"other"),
    }
}

// Of each impression that was sold the number of the sale, the campaign and the price.
fn put_sold(all: &List<Sold>, out: &mut Txt) -> Result<(), AllocError> {
    for sold in all.as_slice() {
        put_numbered(b"sale", sold.sale, out)?;
        put_numbered(b" to", u64::from(sold.campaign), out)?;
        put_numbered(b" at", sold.price.get(), out)?;
    }
    Ok(())
}
