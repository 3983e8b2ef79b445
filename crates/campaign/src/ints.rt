//! Numbers with a sign as fields of bytes.
ghost use Rattle.std.specs.Prelude.{◌≡◌, ◌++◌, OnOk, OnErr};
ghost use Rattle.byte_fields.specs.Codes.{IsReadAt};
ghost use Rattle.campaign.specs.Encoding.{int_bytes};
ghost use Rattle.campaign.specs.Groups.{IsWhole};

use byte_fields::{Element, Found, get_four, put_four};
use rtb_num::Txt;
use std::alloc::{AllocError, Global};

// Whole numbers that are not negative, as the items of a list.
pub(crate) struct Ints;

impl Element for Ints {
    type Item = i32;

    ghost IsValid = { IsWhole };

    ghost encode = { int_bytes };

    fn put(item: &i32, out: &mut Txt) -> Result<(), AllocError> {
        put_int(*item, out)
    }

    fn get(_alloc: Global, bytes: &[u8], place: usize) -> Found<i32> {
        Ok(get_int(bytes, place))
    }
}

// Appends a whole number.
pub(crate) fn put_int(n: i32, out: &mut Txt) -> Result<(), AllocError>
    requires { IsWhole n }
    ensures ok { OnOk result (out.new ≡ out.old ++ int_bytes n) }
    ensures err { OnErr result (out.new ≡ out.old) }
{
    put_four(n as u32, out)
}

// A whole number that is not negative.
pub(crate) fn get_int(bytes: &[u8], place: usize) -> Option<(i32, usize)>
    ensures { IsReadAt IsWhole int_bytes bytes.now place result }
{
    let (n, next) = get_four(bytes, place)?;
    if n > i32::MAX as u32 {
        return None;
    }
    Some((n as i32, next))
}
