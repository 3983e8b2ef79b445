//! Lists of any item as fields: their length, and then each item.
ghost use Rattle.std.specs.Prelude.{◌≡◌, ◌≤◌, ℕ, List, ◌++◌, length, None, Ok, All, IfOk, OnOk, OnErr};
ghost use Rattle.std.specs.List.{flat_map};
ghost use Rattle.byte_fields.specs.Codes.{IsCode, IsReadAt};
ghost use Rattle.byte_fields.specs.Encodings.{CountsMore, IsListOf, IsListWithin, list_bytes};

use crate::scalars::{get_four, put_four};
use rtb_num::{List, Txt};
use std::alloc::{AllocError, Global};

/// What is read at a place, and the place behind it; none where nothing valid begins there.
pub type Found<T> = Result<Option<(T, usize)>, AllocError>;

/// A form of the items of a list: how one is written, and read again.
///
/// A list is read of those forms alone whose bytes are a code: no item's bytes are a front of another's.
pub trait Element {
    type Item: Drop;

    ghost IsValid: { Self.Item → Type 0 };

    ghost encode: { Self.Item → List ℕ };

    /// Appends the item; where memory is refused, a front of it may stay.
    fn put(item: &Self::Item, out: &mut Txt) -> Result<(), AllocError>
        requires { IsValid item.now }
        ensures ok { OnOk result (out.new ≡ out.old ++ encode item.now) }
        ensures front { (more : List ℕ) × (out.new ≡ out.old ++ more) };

    /// The item at the place, and the place behind it.
    fn get(alloc: Global, bytes: &[u8], place: usize) -> Found<Self::Item>
        ensures { IfOk result (IsReadAt IsValid encode bytes.now place) };
}

/// Appends a list: how many items there are in four bytes, and then each.
pub fn put_list<E: Element>(items: &[E::Item], out: &mut Txt) -> Result<(), AllocError>
    requires { IsListOf E.IsValid items.now }
    ensures ok { OnOk result (out.new ≡ out.old ++ list_bytes E.encode items.now) }
    ensures err { OnErr result (out.new ≡ out.old) }
{
    let before = out.len();
    let done = append_list::<E>(items, out);
    out.settle(before, done)
}

/// The list of at most `most` items at the place, and the place behind it; none where no whole list of
/// so few begins there.
///
/// A count above `most` is refused before any memory is taken.
pub fn get_list<E: Element>(
    alloc: Global,
    bytes: &[u8],
    place: usize,
    most: usize,
) -> Found<List<E::Item>>
    requires code { IsCode E.IsValid E.encode }
    ensures value { IfOk result (IsReadAt (IsListWithin most E.IsValid) (list_bytes E.encode) bytes.now place) }
    ensures counted { CountsMore most bytes.now place → result ≡ Ok None }
{
    let Some((count, next)) = get_four(bytes, place) else {
        return Ok(None);
    };
    let count = count as usize;
    if count > most {
        return Ok(None);
    }
    get_row::<E>(alloc, bytes, next, count)
}

// Appends a list; where memory is refused, a front of it may stay.
fn append_list<E: Element>(items: &[E::Item], out: &mut Txt) -> Result<(), AllocError>
    requires { IsListOf E.IsValid items.now }
    ensures ok { OnOk result (out.new ≡ out.old ++ list_bytes E.encode items.now) }
    ensures front { (more : List ℕ) × (out.new ≡ out.old ++ more) }
{
    put_four(items.len() as u32, out)?;
    for item in items {
        E::put(item, out)?;
    }
    Ok(())
}

// So many items in a row.
fn get_row<E: Element>(
    alloc: Global,
    bytes: &[u8],
    place: usize,
    count: usize,
) -> Found<List<E::Item>>
    requires inside { place ≤ length bytes.now }
    requires code { IsCode E.IsValid E.encode }
    ensures { IfOk result (IsReadAt (λ items. (length items ≡ count) × All E.IsValid items) (flat_map E.encode) bytes.now place) }
{
    let mut items = Vec::with_capacity(alloc, count)?;
    let mut next = place;
    for _ in 0..count {
        let Some((item, behind)) = E::get(alloc, bytes, next)? else {
            return Ok(None);
        };
        items.push(item)?;
        next = behind;
    }
    Ok(Some((List::from_vec(items), next)))
}
