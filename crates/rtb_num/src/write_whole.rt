//! Whole numbers written in decimal.
ghost use Rattle.std.specs.Prelude.{◌≡◌, ◌++◌, OnOk, OnErr, decimal};
ghost use Rattle.std.specs.Fmt.{signed_decimal};

use crate::text::Txt;
use itoa::Buffer;
use std::alloc::AllocError;

/// Appends a number in decimal, without leading zeros, all or none.
pub fn write_decimal(n: u64, out: &mut Txt) -> Result<(), AllocError>
    ensures ok { OnOk result (out.new ≡ out.old ++ decimal n) }
    ensures err { OnErr result (out.new ≡ out.old) }
{
    out.extend(Buffer::new().format(n).as_bytes())
}

/// Appends a number with a sign in decimal: a minus where it is below 0, and then the same.
pub fn write_signed(n: i32, out: &mut Txt) -> Result<(), AllocError>
    ensures ok { OnOk result (out.new ≡ out.old ++ signed_decimal n) }
    ensures err { OnErr result (out.new ≡ out.old) }
{
    out.extend(Buffer::new().format(n).as_bytes())
}
