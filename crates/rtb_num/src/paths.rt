//! Names and places in lists, as paths are written.
ghost use Rattle.std.specs.Prelude.{◌≡◌, ◌++◌, ◌∷◌, ℕ, List, OnOk};
ghost use Rattle.rtb_num.specs.Paths.{place};

use crate::text::Txt;
use crate::write_whole::write_decimal;
use std::alloc::AllocError;

/// Appends a name and its place in a list, as `cat[2]`; where memory is refused, a front of it may stay.
pub fn put_item(name: &[u8], index: usize, out: &mut Txt) -> Result<(), AllocError>
    ensures ok { OnOk result (out.new ≡ out.old ++ (name.now ++ place index)) }
    ensures front { (more : List ℕ) × (out.new ≡ out.old ++ more) }
{
    put_name(name, out)?;
    put_place(index, out)
}

/// Appends a member of what the path leads to, as `.attr`; where memory is refused, a front of it may
/// stay.
pub fn put_member(name: &[u8], out: &mut Txt) -> Result<(), AllocError>
    ensures ok { OnOk result (out.new ≡ out.old ++ (46 ∷ name.now)) }
    ensures front { (more : List ℕ) × (out.new ≡ out.old ++ more) }
{
    put_name(b".", out)?;
    put_name(name, out)
}

/// Appends a place in an array, counted from 0, as `[2]`; where memory is refused, a front of it may stay.
pub fn put_place(index: usize, out: &mut Txt) -> Result<(), AllocError>
    ensures ok { OnOk result (out.new ≡ out.old ++ place index) }
    ensures front { (more : List ℕ) × (out.new ≡ out.old ++ more) }
{
    put_name(b"[", out)?;
    write_decimal(index as u64, out)?;
    put_name(b"]", out)
}

/// Appends a name, or nothing where memory is refused.
pub fn put_name(name: &[u8], out: &mut Txt) -> Result<(), AllocError>
    ensures ok { OnOk result (out.new ≡ out.old ++ name.now) }
    ensures front { (more : List ℕ) × (out.new ≡ out.old ++ more) }
{
    out.extend(name)
}
