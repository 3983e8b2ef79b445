//! The words of a command, and what answers are made of.

use case_lines::number_in;
use rtb_num::{Txt, write_decimal};
use std::alloc::AllocError;

// The word at that place, from 0 on, with one space between two; nothing where there is none.
pub fn word_at(command: &[u8], place: usize) -> &[u8] {
    let mut words = command.split(|byte| *byte == b' ').skip(place);
    match words.next() {
        Some(word) => word,
        None => &[],
    }
}

// The number at that place, or 0.
pub fn number_at(command: &[u8], place: usize) -> u64 {
    number_in(word_at(command, place)).unwrap_or(0)
}

// The campaign's number at that place, or 0, which is no campaign's.
pub fn campaign_at(command: &[u8], place: usize) -> u32 {
    match u32::try_from(number_at(command, place)) {
        Ok(n) => n,
        Err(_) => 0,
    }
}

// Appends what stands between the answers of two commands.
pub fn put_mark(place: usize, out: &mut Txt) -> Result<(), AllocError> {
    if place == 0 {
        return Ok(());
    }
    out.extend(b"; ")
}

// Appends numbers with a byte between two.
pub fn put_numbers(numbers: &[u64], mark: u8, out: &mut Txt) -> Result<(), AllocError> {
    for (i, number) in numbers.iter().enumerate() {
        put_before(i, mark, out)?;
        write_decimal(*number, out)?;
    }
    Ok(())
}

fn put_before(place: usize, mark: u8, out: &mut Txt) -> Result<(), AllocError> {
    if place == 0 {
        return Ok(());
    }
    out.push(mark)
}
