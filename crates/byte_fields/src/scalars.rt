//! Bytes, flags and numbers as fields.
ghost use Rattle.std.specs.Prelude.{◌≡◌, ◌++◌, OnOk, OnErr};
ghost use Rattle.byte_fields.specs.Codes.{IsReadAt};
ghost use Rattle.byte_fields.specs.Encodings.{FitsEight, FitsFour, IsByte, IsFlag, byte_bytes, eight_bytes, flag_bytes, four_bytes};

use rtb_num::{Txt, get_u32, get_u64, put_u32, put_u64};
use std::alloc::AllocError;

/// Appends one byte.
pub fn put_byte(n: u8, out: &mut Txt) -> Result<(), AllocError>
    ensures ok { OnOk result (out.new ≡ out.old ++ byte_bytes n) }
    ensures err { OnErr result (out.new ≡ out.old) }
{
    out.push(n)
}

/// Appends a flag in one byte, 0 or 1.
pub fn put_flag(flag: bool, out: &mut Txt) -> Result<(), AllocError>
    ensures ok { OnOk result (out.new ≡ out.old ++ flag_bytes flag) }
    ensures err { OnErr result (out.new ≡ out.old) }
{
    out.push(u8::from(flag))
}

/// Appends the number in four bytes.
#[tactic(auto, unfolding(crate::specs::Encodings::four_bytes))]
pub fn put_four(n: u32, out: &mut Txt) -> Result<(), AllocError>
    ensures ok { OnOk result (out.new ≡ out.old ++ four_bytes n) }
    ensures err { OnErr result (out.new ≡ out.old) }
{
    put_u32(n, out)
}

/// Appends the number in eight bytes.
#[tactic(auto, unfolding(crate::specs::Encodings::eight_bytes))]
pub fn put_eight(n: u64, out: &mut Txt) -> Result<(), AllocError>
    ensures ok { OnOk result (out.new ≡ out.old ++ eight_bytes n) }
    ensures err { OnErr result (out.new ≡ out.old) }
{
    put_u64(n, out)
}

/// The byte at the place, and the place behind it; none at and past the end.
pub fn get_byte(bytes: &[u8], place: usize) -> Option<(u8, usize)>
    ensures { IsReadAt IsByte byte_bytes bytes.now place result }
{
    let byte = bytes.get(place)?;
    Some((*byte, place + 1))
}

/// The flag at the place, and the place behind it; none where no byte 0 or 1 stands there.
pub fn get_flag(bytes: &[u8], place: usize) -> Option<(bool, usize)>
    ensures { IsReadAt IsFlag flag_bytes bytes.now place result }
{
    match get_byte(bytes, place)? {
        (0, next) => Some((false, next)),
        (1, next) => Some((true, next)),
        _ => None,
    }
}

/// The number in four bytes at the place, and the place behind it; none where the bytes end first.
pub fn get_four(bytes: &[u8], place: usize) -> Option<(u32, usize)>
    ensures { IsReadAt FitsFour four_bytes bytes.now place result }
{
    let n = get_u32(bytes, place)?;
    Some((n, place + 4))
}

/// The number in eight bytes at the place, and the place behind it; none where the bytes end first.
pub fn get_eight(bytes: &[u8], place: usize) -> Option<(u64, usize)>
    ensures { IsReadAt FitsEight eight_bytes bytes.now place result }
{
    let n = get_u64(bytes, place)?;
    Some((n, place + 8))
}
