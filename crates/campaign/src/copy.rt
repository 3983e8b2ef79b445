//! Facts copied, with all their texts.
ghost use Rattle.std.specs.Prelude.{◌≡◌, ◌≤◌, ◌<◌, ◌*◌, ◌^◌, [], length, All, IfOk, OnOk};
ghost use Rattle.std.specs.Option.{option_to_list};
ghost use Rattle.std.specs.List.{sum_by};
ghost use Rattle.campaign.specs.Groups.{creative_of, join, names_of};
ghost use Rattle.campaign.specs.Kept.{text_bytes_of};

use crate::decode::{Creative, Names};
use crate::facts::Facts;
use crate::parts::FactParts;
use rtb_num::{List, Txt, pair_with};
use std::alloc::{AllocError, Global};

impl Facts {
    /// How many bytes its texts have in all.
    pub fn text_bytes(&self) -> u64
        ensures value { result ≡ text_bytes_of self.now }
        ensures bound { result < 2 ^ 17 }
    {
        let parts = self.parts();
        let names = parts.seat.len() + parts.adomain.len();
        let creative = parts.adm.len() + parts.crid.len() + optional_length(&parts.adid);
        let lists = lengths(parts.cat.as_slice()) + lengths(parts.deals.as_slice());
        (names + creative) as u64 + lists
    }

    /// Facts of the same parts.
    pub fn copy(&self) -> Result<Facts, AllocError>
        ensures { IfOk result (λ f. f ≡ self.now) }
    {
        let parts = copy_parts(self.parts())?;
        Ok(Facts::of(parts))
    }
}

// The length of the text, or 0 where there is none.
fn optional_length(text: &Option<Txt>) -> usize
    ensures { result ≡ sum_by length (option_to_list text.now) }
{
    match text {
        Some(text) => text.len(),
        None => 0,
    }
}

// The sum of the lengths of at most 64 texts of at most 255 bytes.
fn lengths(texts: &[Txt]) -> u64
    requires many { length texts.now ≤ 64 }
    requires short { All (λ t. length t ≤ 255) texts.now }
    ensures value { result ≡ sum_by length texts.now }
    ensures bound { result ≤ 64 * 255 }
{
    let mut sum = 0;
    for text in texts {
        sum += text.len() as u64;
    }
    sum
}

fn copy_parts(parts: &FactParts) -> Result<FactParts, AllocError>
    ensures { IfOk result (λ p. p ≡ parts.now) }
{
    let alloc = allocator(parts);
    let attr = List::from_vec(Vec::from_slice(alloc, parts.attr.as_slice())?);
    let lists = pair_with(attr, copy_texts(alloc, parts.deals.as_slice()))?;
    let more = pair_with(lists, copy_creative(parts))?;
    let copies = pair_with(more, copy_names(alloc, parts))?;
    Ok(join(parts, copies))
}

// What the memory of the parts comes from.
fn allocator(parts: &FactParts) -> Global {
    let empty = parts.attr.new_like().into_vec();
    *empty.allocator()
}

fn copy_names(alloc: Global, parts: &FactParts) -> Result<Names, AllocError>
    ensures { IfOk result (λ names. names ≡ names_of parts.now) }
{
    let seat = parts.seat.copy()?;
    let texts = pair_with(seat, parts.adomain.copy())?;
    pair_with(texts, copy_texts(alloc, parts.cat.as_slice()))
}

fn copy_creative(parts: &FactParts) -> Result<Creative, AllocError>
    ensures { IfOk result (λ creative. creative ≡ creative_of parts.now) }
{
    let adm = parts.adm.copy()?;
    let texts = pair_with(adm, parts.crid.copy())?;
    pair_with(texts, copy_optional(&parts.adid))
}

// These parts, and those numbers that are no lists.
fn join(parts: &FactParts, copies: (((List<i32>, List<Txt>), Creative), Names)) -> FactParts
    ensures { result ≡ join parts.now copies.1 copies.0.0.0 copies.0.0.1 copies.0.1 }
{
    let (((attr, deals), creative), names) = copies;
    let ((seat, adomain), cat) = names;
    let ((adm, crid), adid) = creative;
    FactParts {
        seat,
        adomain,
        cat,
        w: parts.w,
        h: parts.h,
        attr,
        secure: parts.secure,
        bid: parts.bid,
        deals,
        budget: parts.budget,
        adm,
        crid,
        adid,
        cap: parts.cap,
    }
}

fn copy_texts(alloc: Global, texts: &[Txt]) -> Result<List<Txt>, AllocError>
    ensures { IfOk result (λ ts. ts ≡ texts.now) }
{
    let mut copies = Vec::with_capacity(alloc, texts.len())?;
    let done = put_copies(texts, &mut copies);
    listed(copies, done)
}

fn put_copies(texts: &[Txt], copies: &mut Vec<Txt>) -> Result<(), AllocError>
    requires { copies.old.items ≡ [] }
    ensures { OnOk result (copies.new.items ≡ texts.now) }
{
    for text in texts {
        copies.push(text.copy()?)?;
    }
    Ok(())
}

// The items as a list, where all could be put there.
fn listed<T: Drop>(items: Vec<T>, done: Result<(), AllocError>) -> Result<List<T>, AllocError>
    ensures { (all : _) → OnOk done (items.items ≡ all) → IfOk result (λ l. l ≡ all) }
{
    done?;
    Ok(List::from_vec(items))
}

fn copy_optional(text: &Option<Txt>) -> Result<Option<Txt>, AllocError>
    ensures { IfOk result (λ t. t ≡ text.now) }
{
    match text {
        Some(text) => Ok(Some(text.copy()?)),
        None => Ok(None),
    }
}
