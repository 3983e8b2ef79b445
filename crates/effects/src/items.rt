//! The items of a sale as bytes.
ghost use Rattle.std.specs.Prelude.{◌≡◌, ◌≤◌, ℕ, List, ◌++◌, length, All, IfOk, OnOk};
ghost use Rattle.std.specs.List.{flat_map};
ghost use Rattle.byte_fields.specs.Codes.{IsReadAt};
ghost use Rattle.effects.specs.Bodies.{IsItemRow, item_from};
ghost use Rattle.effects.specs.Bytes.{AreItems, AreSome, IsItem, item_bytes, items_bytes};

use crate::fields::get_triple;
use byte_fields::{Found, get_byte, put_byte};
use plain_exchange::SoldItem;
use rtb_num::{List, Nanos, Txt};
use std::alloc::{AllocError, Global};

const MOST_ITEMS: usize = 64;

// The bytes of one item.
const ITEM_LENGTH: usize = 20;

// Appends sold items, or a front of their bytes.
pub(crate) fn put_items(items: &[SoldItem], out: &mut Txt) -> Result<(), AllocError>
    requires { AreSome items.now }
    ensures ok { OnOk result (out.new ≡ out.old ++ items_bytes items.now) }
    ensures front { (more : List ℕ) × (out.new ≡ out.old ++ more) }
    ensures valid { OnOk result (AreItems items.now) }
{
    put_byte(items.len() as u8, out)?;
    for item in items {
        put_item(item, out)?;
    }
    Ok(())
}

fn put_item(item: &SoldItem, out: &mut Txt) -> Result<(), AllocError>
    ensures ok { OnOk result (out.new ≡ out.old ++ item_bytes item.now) }
    ensures front { (more : List ℕ) × (out.new ≡ out.old ++ more) }
    ensures valid { OnOk result (IsItem item.now) }
{
    let bytes = bytes_of(item);
    out.extend(&bytes)
}

// The bytes of one item.
#[inline(always)]
#[tactic(auto, unfolding(byte_fields::specs::Encodings::four_bytes, byte_fields::specs::Encodings::eight_bytes))]
fn bytes_of(item: &SoldItem) -> [u8; ITEM_LENGTH]
    ensures bytes { result ≡ item_bytes item.now }
    ensures valid { IsItem item.now }
{
    let campaign = item.campaign;
    let price = item.price.get();
    let due = item.due;
    let mut row = [0; ITEM_LENGTH];
    row[..4].copy_from_slice(&campaign.to_be_bytes());
    row[4..12].copy_from_slice(&price.to_be_bytes());
    row[12..].copy_from_slice(&due.to_be_bytes());
    row
}

// The sold items at the place: how many in a byte, 1 to 64, and then each.
pub(crate) fn get_items(alloc: Global, bytes: &[u8], place: usize) -> Found<List<SoldItem>>
    ensures { IfOk result (IsReadAt AreItems items_bytes bytes.now place) }
{
    let Some((count, next)) = get_byte(bytes, place) else {
        return Ok(None);
    };
    let count = count as usize;
    if count < 1 {
        return Ok(None);
    }
    if count > MOST_ITEMS {
        return Ok(None);
    }
    get_item_row(alloc, bytes, next, count)
}

// So many items in a row. Memory is taken for no more than the bytes can hold.
fn get_item_row(alloc: Global, bytes: &[u8], place: usize, count: usize) -> Found<List<SoldItem>>
    requires inside { place ≤ length bytes.now }
    ensures { IfOk result (IsReadAt (IsItemRow count) (flat_map item_bytes) bytes.now place) }
{
    let room = count.min((bytes.len() - place) / ITEM_LENGTH);
    let mut items = Vec::with_capacity(alloc, room)?;
    let mut next = place;
    for _ in 0..count {
        let Some((item, behind)) = get_item(bytes, next) else {
            return Ok(None);
        };
        items.push(item)?;
        next = behind;
    }
    Ok(Some((List::from_vec(items), next)))
}

fn get_item(bytes: &[u8], place: usize) -> Option<(SoldItem, usize)>
    ensures { IsReadAt IsItem item_bytes bytes.now place result }
{
    let (triple, next) = get_triple(bytes, place)?;
    Some((item_from(triple), next))
}

fn item_from(triple: ((u32, Nanos), u64)) -> SoldItem
    ensures { result ≡ item_from triple }
{
    let ((campaign, price), due) = triple;
    SoldItem {
        campaign,
        price,
        due,
    }
}
