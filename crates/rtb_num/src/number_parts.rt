//! The parts of a number in decimal text, and its value at a scale.
ghost use Rattle.std.specs.Prelude.{◌≡◌, ◌+◌, ◌-◌, ◌*◌, ◌/◌, ◌%◌, ◌^◌, ◌≤◌, ◌++◌, ◌==◌, ◌&&◌, ◌||◌, nat_lt, not, min, length, IsTrue};
ghost use Rattle.std.specs.List.{list_all};
ghost use Rattle.rtb_num.specs.Amounts.{is_digit as is_digit_code, number_of};
ghost use Rattle.rtb_num.specs.Numbers.{is_number, number_in, is_below_zero, up_by, down_by, without_sign as without_sign_text};
ghost use Rattle.rtb_num.specs.Parts.{IsParted, units_of, is_finer};

use crate::number_form::{
    has_minus, split_at_exponent, split_at_point, without_minus, without_sign,
};

// A number's text in its parts. Powers of ten that `usize` cannot hold are its greatest value.
#[derive(Clone, Copy)]
struct NumberParts<'a> {
    minus: bool,
    whole: &'a [u8],
    fraction: &'a [u8],
    up: usize,
    down: usize,
}

// A number without its sign as a whole number of units, and whether something finer is left.
#[derive(Clone, Copy)]
pub(crate) struct Scaled {
    pub below_zero: bool,
    // At most `TOO_MANY`.
    pub units: u64,
    pub finer: bool,
}

impl Scaled {
    fn new(minus: bool, units: u64, finer: bool) -> Scaled
        ensures sign { result.below_zero ≡ (minus && (nat_lt 0 units || finer)) }
        ensures units { result.units ≡ units }
        ensures finer { result.finer ≡ finer }
    {
        let below_zero = minus && (units > 0 || finer);
        Scaled {
            below_zero,
            units,
            finer,
        }
    }
}

// The number in units of which so many digits make a whole: 0 for whole ones, 6 for millionths.
pub(crate) fn scale(text: &[u8], places: usize) -> Scaled
    requires number { IsTrue (is_number text.now) }
    requires few { places ≤ 6 }
    ensures sign { result.below_zero ≡ is_below_zero (number_in text.now) }
    ensures units { result.units ≡ units_of (number_in text.now) places }
    ensures finer { result.finer ≡ is_finer (number_in text.now) places }
    ensures bound { result.units ≤ 1000000000001 }
{
    let number = parts(text);
    let up = number.up.saturating_add(places);
    let zeros = up.saturating_sub(number.down);
    let behind = number.down.saturating_sub(up);
    let before = (number.whole.len() + number.fraction.len()).saturating_sub(behind);
    let (whole, whole_rest) = number.whole.split_at(before.min(number.whole.len()));
    let (fraction, fraction_rest) = number.fraction.split_at(before - whole.len());
    let units = with_zeros(read_on(read_on(0, whole), fraction), zeros);
    let finer = !are_both_zeros(whole_rest, fraction_rest);
    Scaled::new(number.minus, units, finer)
}

// Its powers of ten count up or down by the exponent, and down by the digits behind the point.
fn parts(text: &[u8]) -> NumberParts<'_>
    requires { IsTrue (is_number text.now) }
    ensures { IsParted (number_in text.now) result.minus result.whole.now result.fraction.now result.up result.down }
{
    let (decimal, exponent) = split_at_exponent(without_minus(text));
    let (whole, fraction) = split_at_point(decimal);
    let (up, down) = powers(exponent);
    NumberParts {
        minus: has_minus(text),
        whole,
        fraction,
        up,
        down: fraction.len().saturating_add(down),
    }
}

// How far the exponent counts up, and how far down.
fn powers(exponent: &[u8]) -> (usize, usize)
    requires { IsTrue (list_all is_digit_code (without_sign_text exponent.now)) }
    ensures up { result.0 ≡ min (up_by exponent.now) (2 ^ 64 - 1) }
    ensures down { result.1 ≡ min (down_by exponent.now) (2 ^ 64 - 1) }
{
    let power = read_usize(without_sign(exponent));
    if has_minus(exponent) {
        (0, power)
    } else {
        (power, 0)
    }
}

// What the digits spell, or the greatest `usize` where that is less.
fn read_usize(digits: &[u8]) -> usize
    requires { IsTrue (list_all is_digit_code digits.now) }
    ensures { result ≡ min (number_of digits.now) (2 ^ 64 - 1) }
{
    let mut number: usize = 0;
    for c in digits {
        number = number
            .saturating_mul(10)
            .saturating_add(usize::from(*c - b'0'));
    }
    number
}

// Above every amount: a greater number is taken for this one.
const TOO_MANY: u64 = 1_000_000_000_001;

// As many zeros behind a digit that is not 0 make a number above `TOO_MANY`.
const MANY_ZEROS: usize = 13;

// The number with so many zeros behind it, or `TOO_MANY` where that is less.
fn with_zeros(number: u64, zeros: usize) -> u64
    requires { number ≤ 1000000000001 }
    ensures value { result ≡ min (number * 10 ^ zeros) 1000000000001 }
    ensures bound { result ≤ 1000000000001 }
{
    let power = 10u64.pow(zeros.min(MANY_ZEROS) as u32);
    number.saturating_mul(power).min(TOO_MANY)
}

// What the digits spell behind the digits of the number, or `TOO_MANY` where that is less.
fn read_on(start: u64, digits: &[u8]) -> u64
    requires small { start ≤ 1000000000001 }
    requires digits { IsTrue (list_all is_digit_code digits.now) }
    ensures { result ≡ min (start * 10 ^ length digits.now + number_of digits.now) 1000000000001 }
{
    let mut number = start;
    for c in digits {
        number = (number * 10 + u64::from(*c - b'0')).min(TOO_MANY);
    }
    number
}

fn are_both_zeros(digits: &[u8], more: &[u8]) -> bool
    ensures { result ≡ (list_all (λ c. c == 48) digits.now && list_all (λ c. c == 48) more.now) }
{
    are_zeros(digits) && are_zeros(more)
}

fn are_zeros(digits: &[u8]) -> bool
    ensures { result ≡ list_all (λ c. c == 48) digits.now }
{
    digits.iter().all(|c| *c == b'0')
}
