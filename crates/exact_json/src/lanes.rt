//! How far a text is plain, 16 bytes at once.
ghost use Rattle.std.specs.Prelude.{◌≡◌, ◌≤◌, ◌==◌, length, map, take, nat_lt, not, if◌then◌else◌};
ghost use Rattle.std.specs.List.{prefix_len};
ghost use Rattle.exact_json.specs.Strings.{is_plain};

use std::simd::prelude::*;

// How many of the first 16 bytes are plain, up to the first that is not. The 16 are tested together, a lane for each.
#[inline(always)]
pub(crate) fn plain_front(bytes: &[u8]) -> usize
    requires { 16 ≤ length bytes.now }
    ensures { result ≡ prefix_len is_plain (take 16 bytes.now) }
{
    let lanes = u8x16::from_slice(bytes);
    let lanes = without(lanes, b'"');
    let lanes = without(lanes, b'\\');
    first_below_32(ascii(lanes))
}

// The lanes, with 0 for each that is this byte.
#[inline(always)]
fn without(v: u8x16, byte: u8) -> u8x16
    ensures { result ≡ map (λ x. if x == byte then 0 else x) v }
{
    v.simd_eq(u8x16::splat(byte)).select(u8x16::splat(0), v)
}

// The lanes, with 0 for each that is 128 or more.
#[inline(always)]
fn ascii(v: u8x16) -> u8x16
    ensures { result ≡ map (λ x. if nat_lt x 128 then x else 0) v }
{
    v.simd_lt(u8x16::splat(128)).select(v, u8x16::splat(0))
}

// How many lanes stand before the first that is below 32.
#[inline(always)]
fn first_below_32(v: u8x16) -> usize
    ensures { result ≡ prefix_len (λ x. not (nat_lt x 32)) v }
{
    let mask = v.simd_lt(u8x16::splat(32)).to_bitmask();
    if mask == 0 {
        16
    } else {
        mask.trailing_zeros() as usize
    }
}
