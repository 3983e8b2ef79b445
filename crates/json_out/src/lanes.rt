//! How far a text stands in a string as it is, 16 bytes at once.
ghost use Rattle.std.specs.Prelude.{◌≡◌, ◌≤◌, ◌==◌, length, map, take, nat_lt, not, if◌then◌else◌};
ghost use Rattle.std.specs.List.{flat_map, prefix_len};
ghost use Rattle.json_out.specs.Strings.{escape};

use std::simd::prelude::*;

// How many of the first 16 bytes stand in a string as they are, up to the first that does not. The 16 are tested
// together, a lane for each.
#[inline(always)]
pub(crate) fn plain_front(bytes: &[u8]) -> usize
    requires { 16 ≤ length bytes.now }
    ensures bound { result ≤ 16 }
    ensures plain { flat_map escape (take result bytes.now) ≡ take result bytes.now }
{
    let lanes = u8x16::from_slice(bytes);
    let lanes = without(lanes, b'"');
    let lanes = without(lanes, b'\\');
    first_below_32(lanes)
}

// The lanes, with 0 for each that is this byte.
#[inline(always)]
fn without(v: u8x16, byte: u8) -> u8x16
    ensures { result ≡ map (λ x. if x == byte then 0 else x) v }
{
    v.simd_eq(u8x16::splat(byte)).select(u8x16::splat(0), v)
}

// How many lanes stand before the first that is below 32.
#[inline(always)]
fn first_below_32(v: u8x16) -> usize
    ensures { result ≡ prefix_len (λ x. not (nat_lt x 32)) v }
{
    let mask = v.simd_lt(u8x16::splat(32)).to_bitmask();
    if mask == 0 {
        16
    } else {
        mask.trailing_zeros() as usize
    }
}
