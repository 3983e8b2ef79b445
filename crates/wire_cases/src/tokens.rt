//! Calls of `address_keys`: HMAC, and the tokens of paths.
use address_keys::{Key, hmac};
use case_lines::{done, number_in};
use rtb_num::Txt;
use std::alloc::AllocError;

/// Answers a call of this area, or tells that it is none.
///
/// - `hmac | KEY | TEXT`: HMAC-SHA-256 of the text in hexadecimal digits; no key has more than 64 bytes.
/// - `token | KEY | FRONT | N`: the token of the path that is FRONT and the number.
pub fn answer(call: &[u8], args: &[Txt], out: &mut Txt) -> Result<bool, AllocError> {
    match args {
        [key, text] if call == b"hmac".as_slice() => {
            done(put_hmac(key.as_bytes(), text.as_bytes(), out))
        }
        [key, front, n] if call == b"token".as_slice() => done(put_token(
            key.as_bytes(),
            front.as_bytes(),
            n.as_bytes(),
            out,
        )),
        _ => Ok(false),
    }
}

fn put_hmac(key: &[u8], text: &[u8], out: &mut Txt) -> Result<(), AllocError> {
    if key.len() > 64 {
        return out.extend(b"no key");
    }
    let mac = hmac(key, text);
    for byte in mac.as_slice() {
        out.extend(&[digit_of(byte >> 4), digit_of(byte & 15)])?;
    }
    Ok(())
}

// A digit of a hexadecimal number.
fn digit_of(digit: u8) -> u8 {
    match b"0123456789abcdef".get(usize::from(digit)) {
        Some(byte) => *byte,
        None => b'?',
    }
}

fn put_token(key: &[u8], front: &[u8], n: &[u8], out: &mut Txt) -> Result<(), AllocError> {
    let (Some(key), Some(n)) = (Key::new(key), number_in(n)) else {
        return out.extend(b"no key");
    };
    out.extend(&key.token(front, n))
}
