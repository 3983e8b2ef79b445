//! Numbers in four and in eight bytes.
ghost use Rattle.std.specs.Prelude.{◌≡◌, ℕ, List, ◌<◌, ◌^◌, ◌++◌, length, Some, OnOk, OnErr};
ghost use Rattle.std.specs.Int.{w32, w64, to_be_bytes};
ghost use Rattle.rtb_num.specs.Fields.{u32_at, u64_at};

use crate::text::Txt;
use std::alloc::AllocError;

/// Appends the number in four bytes, the greatest place first.
pub fn put_u32(n: u32, out: &mut Txt) -> Result<(), AllocError>
    ensures ok { OnOk result (out.new ≡ out.old ++ to_be_bytes w32 n) }
    ensures err { OnErr result (out.new ≡ out.old) }
{
    out.extend(&n.to_be_bytes())
}

/// Appends the number in eight bytes, the greatest place first.
pub fn put_u64(n: u64, out: &mut Txt) -> Result<(), AllocError>
    ensures ok { OnOk result (out.new ≡ out.old ++ to_be_bytes w64 n) }
    ensures err { OnErr result (out.new ≡ out.old) }
{
    out.extend(&n.to_be_bytes())
}

/// The number in the four bytes from the place on, or none where the bytes end first.
pub fn get_u32(bytes: &[u8], place: usize) -> Option<u32>
    ensures { result ≡ u32_at bytes.now place }
{
    if place > bytes.len() {
        return None;
    }
    let field = bytes[place..].first_chunk()?;
    Some(u32::from_be_bytes(*field))
}

/// The number in the eight bytes from the place on, or none where the bytes end first.
pub fn get_u64(bytes: &[u8], place: usize) -> Option<u64>
    ensures { result ≡ u64_at bytes.now place }
{
    if place > bytes.len() {
        return None;
    }
    let field = bytes[place..].first_chunk()?;
    Some(u64::from_be_bytes(*field))
}

/// The law of the fields, with nothing to run: what was put is read again at its place, whatever
/// stands before it and behind it.
pub fn fields_are_read_again()
    ensures four { (front back : List ℕ) (n : ℕ) → n < 2 ^ 32 → u32_at ((front ++ to_be_bytes w32 n) ++ back) (length front) ≡ Some n }
    ensures eight { (front back : List ℕ) (n : ℕ) → n < 2 ^ 64 → u64_at ((front ++ to_be_bytes w64 n) ++ back) (length front) ≡ Some n }
{}
