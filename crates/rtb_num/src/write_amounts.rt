//! Amounts of money written in decimal.
ghost use Rattle.std.specs.Prelude.{◌≡◌, ℕ, List, ◌^◌, ◌<◌, ◌≤◌, ◌++◌, ◌*◌, IsTrue, OnOk, OnErr};
ghost use Rattle.rtb_num.specs.Amounts.{micros_text, nanos_text, amount_text, fraction_digits, is_decimal, number_of, digits_of, places_of};

use crate::money::{Micros, Nanos};
use crate::text::Txt;
use crate::write_whole::write_decimal;
use std::alloc::AllocError;

/// Appends a price in US dollars per thousand impressions: the whole part, then, where the rest is
/// not 0, a point and the rest without trailing zeros, as `2.5` and `0.000001`.
pub fn write_micros(m: Micros, out: &mut Txt) -> Result<(), AllocError>
    ensures ok { OnOk result (out.new ≡ out.old ++ micros_text m) }
    ensures err { OnErr result (out.new ≡ out.old) }
{
    write_amount(m.get(), 6, out)
}

/// Appends an amount of money in US dollars, in the same form.
pub fn write_nanos(n: Nanos, out: &mut Txt) -> Result<(), AllocError>
    ensures ok { OnOk result (out.new ≡ out.old ++ nanos_text n) }
    ensures err { OnErr result (out.new ≡ out.old) }
{
    write_amount(n.get(), 9, out)
}

// Appends n / 10 ^ places, or nothing.
fn write_amount(n: u64, places: u32, out: &mut Txt) -> Result<(), AllocError>
    requires { places ≤ 9 }
    ensures ok { OnOk result (out.new ≡ out.old ++ amount_text places n) }
    ensures err { OnErr result (out.new ≡ out.old) }
{
    let before = out.len();
    let written = push_amount(n, places, out);
    out.settle(before, written)
}

// Appends n / 10 ^ places; where memory is refused, its front may stay.
fn push_amount(n: u64, places: u32, out: &mut Txt) -> Result<(), AllocError>
    requires { places ≤ 9 }
    ensures ok { OnOk result (out.new ≡ out.old ++ amount_text places n) }
    ensures front { (more : List ℕ) × (out.new ≡ out.old ++ more) }
{
    let unit = 10u64.pow(places);
    write_decimal(n / unit, out)?;
    let rest = n % unit;
    if rest == 0 {
        return Ok(());
    }
    out.push(b'.')?;
    push_fraction(rest, places, out)
}

// Appends the digits of rest / 10 ^ places behind the point.
fn push_fraction(rest: u64, places: u32, out: &mut Txt) -> Result<(), AllocError>
    requires few { places ≤ 9 }
    requires below { rest < 10 ^ places }
    ensures ok { OnOk result (out.new ≡ out.old ++ fraction_digits places rest) }
    ensures front { (more : List ℕ) × (out.new ≡ out.old ++ more) }
{
    let mut left = rest;
    let mut place = places;
    while left > 0 {
        place -= 1;
        let unit = 10u64.pow(place);
        out.push(b'0' + (left / unit) as u8)?;
        left %= unit;
    }
    Ok(())
}

/// The law of the written form, with nothing to run: it is a number of RFC 8259, section 6, without
/// sign and without exponent, and worth exactly the amount.
pub fn written_amounts_are_exact()
    ensures decimal { (k n : ℕ) → n < 2 ^ 64 → IsTrue (is_decimal (amount_text k n)) }
    ensures worth { (k n : ℕ) → n < 2 ^ 64 → number_of (digits_of (amount_text k n)) * 10 ^ k ≡ n * 10 ^ places_of (amount_text k n) }
{}
