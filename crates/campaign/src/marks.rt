//! Marks of texts: small numbers, by which most texts are told apart without a look at them.
ghost use Rattle.std.specs.Prelude.{◌≡◌, ◌<◌};
ghost use Rattle.std.proofs.Common.{get_or};
ghost use Rattle.campaign.specs.Marks.{mark_at, mark_of, marks_of};

use crate::parts::FactParts;
use rtb_num::Txt;

/// How many marks there are.
pub const MARKS: usize = 4096;

/// The marks of a campaign's advertiser, of its first three categories and of its first deal; 0 where there is none.
#[derive(Clone, Copy)]
pub struct Marks {
    pub advertiser: u16,
    pub first: u16,
    pub second: u16,
    pub third: u16,
    pub deal: u16,
}

/// The mark of the text, by its length and three of its bytes.
#[inline(always)]
#[tactic(auto, unfolding(crate::specs::Marks::mark_of))]
pub fn mark_of(text: &Txt) -> u16
    ensures value { result ≡ mark_of text.now }
    ensures bound { result < 4096 }
{
    let bytes = text.as_bytes();
    let len = bytes.len();
    let first = byte_at(bytes, 0);
    let middle = byte_at(bytes, len / 2);
    let last = byte_at(bytes, len.saturating_sub(1));
    ((first + 7 * middle + 49 * last + 343 * (len % 256)) % MARKS) as u16
}

// The byte at the place, or 0 past the end.
fn byte_at(bytes: &[u8], place: usize) -> usize
    ensures value { result ≡ get_or bytes.now place 0 }
    ensures bound { result < 256 }
{
    match bytes.get(place) {
        Some(byte) => usize::from(*byte),
        None => 0,
    }
}

/// The marks of these parts.
pub(crate) fn marks_of(parts: &FactParts) -> Marks
    ensures { result ≡ marks_of parts.now }
{
    let categories = parts.cat.as_slice();
    Marks {
        advertiser: mark_of(&parts.adomain),
        first: mark_at(categories, 0),
        second: mark_at(categories, 1),
        third: mark_at(categories, 2),
        deal: mark_at(parts.deals.as_slice(), 0),
    }
}

// The mark of the text at the place, or 0 past the end.
fn mark_at(texts: &[Txt], place: usize) -> u16
    ensures { result ≡ mark_at texts.now place }
{
    match texts.get(place) {
        Some(text) => mark_of(text),
        None => 0,
    }
}
