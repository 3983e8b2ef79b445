//! Amounts of money read from decimal text.
ghost use Rattle.std.specs.Prelude.{◌≡◌, ◌≢◌, ℕ, ℤ, pos, negsuc, ◌+◌, ◌-◌, ◌*◌, ◌^◌, ◌<◌, ◌≤◌, ◌≤ℤ◌, ◌↔◌, ◌⊎◌, IfOk, IfSome, IsErrOf, IsTrue, true, false, None};
ghost use Rattle.std.specs.Int.{from_bool};
ghost use Rattle.rtb_num.specs.Numbers.{is_number, number_in, is_below_zero, IsWithinMillionths, IsMillionths, IsWhole, IsInteger, with_sign};

use crate::money::Micros;
use crate::number_parts::scale;
use thiserror::Error;

/// Why a number is no amount. Where several apply, the first in this order is answered.
#[derive(Clone, Copy, Debug, PartialEq, Eq, Error)]
pub enum PriceFault {
    #[error("the amount is below 0")]
    Negative,
    #[error("the amount is above 1000000")]
    TooLarge,
    #[error("the amount is no whole number of millionths")]
    TooFine,
}

// How many digits behind the point a whole number of millionths has.
const PLACES: usize = 6;

// The greatest amount in micro-dollars.
const GREATEST: u64 = 1_000_000_000_000;

/// The least whole number of millionths that is not below the value of the number: US dollars become
/// micro-dollars, rounded up. It is never `TooFine`.
pub fn floor_micros(text: &[u8]) -> Result<Micros, PriceFault>
    requires { IsTrue (is_number text.now) }
    ensures enough { IfOk result (λ m. IsWithinMillionths (number_in text.now) m) }
    ensures least { IfOk result (λ m. (k : ℕ) → IsWithinMillionths (number_in text.now) k → m ≤ k) }
    ensures negative { IsErrOf result PriceFault.Negative ↔ IsTrue (is_below_zero (number_in text.now)) }
    ensures large { IsErrOf result PriceFault.TooLarge ↔ ((is_below_zero (number_in text.now) ≡ false) × ¬ IsWithinMillionths (number_in text.now) (10 ^ 12)) }
    ensures never { result ≢ Err PriceFault.TooFine }
{
    let number = scale(text, PLACES);
    if number.below_zero {
        return Err(PriceFault::Negative);
    }
    round_up(number.units, number.finer)
}

/// The value of the number in millionths, exactly: US dollars become micro-dollars.
pub fn exact_micros(text: &[u8]) -> Result<Micros, PriceFault>
    requires { IsTrue (is_number text.now) }
    ensures exact { IfOk result (λ m. IsMillionths (number_in text.now) m) }
    ensures negative { IsErrOf result PriceFault.Negative ↔ IsTrue (is_below_zero (number_in text.now)) }
    ensures large { IsErrOf result PriceFault.TooLarge ↔ ((is_below_zero (number_in text.now) ≡ false) × ¬ IsWithinMillionths (number_in text.now) (10 ^ 12)) }
    ensures fine { IsErrOf result PriceFault.TooFine ↔ ((is_below_zero (number_in text.now) ≡ false) × IsWithinMillionths (number_in text.now) (10 ^ 12) × ((m : ℕ) → ¬ IsMillionths (number_in text.now) m)) }
{
    let number = scale(text, PLACES);
    if number.below_zero {
        return Err(PriceFault::Negative);
    }
    amount(number.units, number.finer)
}

/// The value of the number, or none where it is not whole or is no `i32`.
pub fn whole(text: &[u8]) -> Option<i32>
    requires { IsTrue (is_number text.now) }
    ensures value { IfSome result (λ z. IsInteger (number_in text.now) z) }
    ensures none { result ≡ None → (z : ℤ) → negsuc 2147483647 ≤ℤ z → z ≤ℤ pos 2147483647 → ¬ IsInteger (number_in text.now) z }
{
    let number = scale(text, 0);
    if number.finer {
        return None;
    }
    to_i32(number.units, number.below_zero)
}

/// Whether the value of the number is whole, whatever its size.
pub fn is_whole(text: &[u8]) -> bool
    requires { IsTrue (is_number text.now) }
    ensures { IsTrue result ↔ ((m : ℕ) × IsWhole (number_in text.now) m) }
{
    !scale(text, 0).finer
}

// The amount of so many units, and one more where there is finer.
fn round_up(units: u64, finer: bool) -> Result<Micros, PriceFault>
    requires { units ≤ 1000000000001 }
    ensures value { IfOk result (λ m. (m ≡ units + from_bool finer) × (m ≤ 10 ^ 12)) }
    ensures large { IsErrOf result PriceFault.TooLarge ↔ (10 ^ 12 < units + from_bool finer) }
    ensures never { result ≢ Err PriceFault.Negative }
    ensures never_fine { result ≢ Err PriceFault.TooFine }
{
    Micros::new(units + u64::from(finer)).ok_or(PriceFault::TooLarge)
}

// The amount of so many units, and of something less than one more where there is finer.
fn amount(units: u64, finer: bool) -> Result<Micros, PriceFault>
    ensures exact { IfOk result (λ m. (m ≡ units) × (m ≤ 10 ^ 12) × (finer ≡ false)) }
    ensures large { IsErrOf result PriceFault.TooLarge ↔ ((10 ^ 12 < units) ⊎ ((units ≡ 10 ^ 12) × (finer ≡ true))) }
    ensures fine { IsErrOf result PriceFault.TooFine ↔ ((units < 10 ^ 12) × (finer ≡ true)) }
    ensures never { result ≢ Err PriceFault.Negative }
{
    if finer {
        return Err(if units >= GREATEST {
            PriceFault::TooLarge
        } else {
            PriceFault::TooFine
        });
    }
    Micros::new(units).ok_or(PriceFault::TooLarge)
}

// The number with its sign.
fn to_i32(size: u64, below_zero: bool) -> Option<i32>
    ensures value { IfSome result (λ z. (z ≡ with_sign below_zero size) × (size ≤ 2147483648)) }
    ensures none { result ≡ None → below_zero ≡ false → 2147483647 < size }
    ensures none_below { result ≡ None → below_zero ≡ true → 2147483648 < size }
{
    if below_zero {
        if size > 1 << 31 {
            return None;
        }
        return Some((-(size as i64)) as i32);
    }
    if size >= 1 << 31 {
        return None;
    }
    Some(size as i32)
}
