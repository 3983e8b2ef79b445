//! Texts, and lists of texts, as fields.
ghost use Rattle.std.specs.Prelude.{◌≡◌, ℕ, List, ◌++◌, None, Ok, option_map, IfOk, OnOk, OnErr};
ghost use Rattle.byte_fields.specs.Codes.{IsReadAt};
ghost use Rattle.byte_fields.specs.Encodings.{CountsMore, IsListOf, IsListWithin, IsShort, list_bytes, text_bytes};

use crate::lists::{Element, Found, get_list, put_list};
use crate::scalars::{get_four, put_four};
use rtb_num::{List, Txt};
use std::alloc::{AllocError, Global};

/// Texts, as the items of a list.
pub struct Texts;

impl Element for Texts {
    type Item = Txt;

    ghost IsValid = { IsShort };

    ghost encode = { text_bytes };

    fn put(item: &Txt, out: &mut Txt) -> Result<(), AllocError> {
        append_text(item.as_bytes(), out)
    }

    fn get(alloc: Global, bytes: &[u8], place: usize) -> Found<Txt> {
        get_text(alloc, bytes, place)
    }
}

/// Appends a text: its length in four bytes, and then itself.
pub fn put_text(text: &[u8], out: &mut Txt) -> Result<(), AllocError>
    requires { IsShort text.now }
    ensures ok { OnOk result (out.new ≡ out.old ++ text_bytes text.now) }
    ensures err { OnErr result (out.new ≡ out.old) }
{
    let before = out.len();
    let done = append_text(text, out);
    out.settle(before, done)
}

/// Appends a list of texts: how many there are in four bytes, and then each.
pub fn put_texts(texts: &[Txt], out: &mut Txt) -> Result<(), AllocError>
    requires { IsListOf IsShort texts.now }
    ensures ok { OnOk result (out.new ≡ out.old ++ list_bytes text_bytes texts.now) }
    ensures err { OnErr result (out.new ≡ out.old) }
{
    put_list::<Texts>(texts, out)
}

/// The text at the place, and the place behind it; none where no whole text begins there.
pub fn get_text(alloc: Global, bytes: &[u8], place: usize) -> Found<Txt>
    ensures { IfOk result (IsReadAt IsShort text_bytes bytes.now place) }
{
    let Some((text, next)) = text_at(bytes, place) else {
        return Ok(None);
    };
    Ok(Some((Txt::from_slice(alloc, text)?, next)))
}

/// The list of at most `most` texts at the place, and the place behind it; none where no whole list of
/// so few begins there.
///
/// A count above `most` is refused before any memory is taken.
pub fn get_texts(alloc: Global, bytes: &[u8], place: usize, most: usize) -> Found<List<Txt>>
    ensures value { IfOk result (IsReadAt (IsListWithin most IsShort) (list_bytes text_bytes) bytes.now place) }
    ensures counted { CountsMore most bytes.now place → result ≡ Ok None }
{
    get_list::<Texts>(alloc, bytes, place, most)
}

// Appends a text; where memory is refused, its length may stay.
fn append_text(text: &[u8], out: &mut Txt) -> Result<(), AllocError>
    requires { IsShort text.now }
    ensures ok { OnOk result (out.new ≡ out.old ++ text_bytes text.now) }
    ensures front { (more : List ℕ) × (out.new ≡ out.old ++ more) }
{
    put_four(text.len() as u32, out)?;
    out.extend(text)?;
    Ok(())
}

// The text at the place, where it stands.
fn text_at(bytes: &[u8], place: usize) -> Option<(&[u8], usize)>
    ensures { IsReadAt IsShort text_bytes bytes.now place (option_map (λ p. (p.0.now, p.1)) result) }
{
    let (length, start) = get_four(bytes, place)?;
    let rest = &bytes[start..];
    let length = length as usize;
    if length > rest.len() {
        return None;
    }
    Some((&rest[..length], start + length))
}
