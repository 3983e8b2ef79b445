//! What stands in the fields of cases, and how areas answer.
ghost use Rattle.std.specs.Prelude.{◌≡◌, IfOk};

use rtb_num::{List, Txt};
use std::alloc::{AllocError, Global};

/// What an area answers where it knows the call, once the call's answer is appended.
pub fn done(told: Result<(), AllocError>) -> Result<bool, AllocError> {
    told?;
    Ok(true)
}

/// What was made, unless it could not be filled.
pub fn kept<T: Drop>(made: T, filled: Result<(), AllocError>) -> Result<T, AllocError>
    ensures { IfOk result (λ t. t ≡ made) }
{
    match filled {
        Ok(()) => Ok(made),
        Err(refused) => Err(refused),
    }
}

/// What was made, where it could be filled; it may be that there is nothing to fill it with.
pub fn kept_if<T: Drop>(
    made: T,
    filled: Result<bool, AllocError>,
) -> Result<Option<T>, AllocError> {
    match filled {
        Ok(true) => Ok(Some(made)),
        Ok(false) => Ok(None),
        Err(refused) => Err(refused),
    }
}

/// Both of what was made, where both could be.
pub fn paired<A: Drop, B: Drop>(
    first: Result<A, AllocError>,
    second: Result<B, AllocError>,
) -> Result<(A, B), AllocError> {
    match (first, second) {
        (Ok(first), Ok(second)) => Ok((first, second)),
        _ => Err(AllocError),
    }
}

/// Appends `yes` or `no`.
pub fn say(yes: bool, out: &mut Txt) -> Result<(), AllocError> {
    if yes {
        return out.extend(b"yes");
    }
    out.extend(b"no")
}

/// Appends the comma that stands before all but the first.
pub fn put_comma(place: usize, out: &mut Txt) -> Result<(), AllocError> {
    if place > 0 {
        return out.push(b',');
    }
    Ok(())
}

/// Appends the space that stands before all but the first.
pub fn put_space(place: usize, out: &mut Txt) -> Result<(), AllocError> {
    if place > 0 {
        return out.push(b' ');
    }
    Ok(())
}

/// A whole number of 64 bits.
pub fn number_in(word: &[u8]) -> Option<u64> {
    str::from_utf8(word).ok()?.parse::<u64>().ok()
}

/// The numbers of a line, with one space between two; what is no number is passed over.
pub fn numbers_in(alloc: Global, line: &[u8]) -> Result<List<u64>, AllocError> {
    let mut numbers = List::new(alloc);
    for word in line.split(|c| *c == b' ') {
        if let Some(number) = number_in(word) {
            numbers.push(number)?;
        }
    }
    Ok(numbers)
}
