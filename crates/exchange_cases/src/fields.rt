//! The fields of a run: each is a name and what stands behind it.
use case_lines::numbers_in;
use rtb_num::{List, Txt};
use std::alloc::{AllocError, Global};

/// What stands behind the name in the first field that begins with it, and nothing where none does.
pub fn field<'a>(args: &'a [Txt], name: &[u8]) -> &'a [u8] {
    for arg in args {
        if let Some(rest) = arg.as_bytes().strip_prefix(name) {
            return rest;
        }
    }
    b""
}

/// The numbers behind the name.
pub fn numbers(alloc: Global, args: &[Txt], name: &[u8]) -> Result<List<u64>, AllocError> {
    numbers_in(alloc, field(args, name))
}

/// The words of a line; no word stands on an empty line.
pub fn words_in(alloc: Global, line: &[u8]) -> Result<Vec<Txt>, AllocError> {
    let mut words = Vec::new(alloc);
    if line.is_empty() {
        return Ok(words);
    }
    for word in line.split(|c| *c == b' ') {
        words.push(Txt::from_slice(alloc, word)?)?;
    }
    Ok(words)
}
