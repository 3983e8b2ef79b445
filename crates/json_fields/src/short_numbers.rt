//! Numbers of a few digits, as nearly all are, by a shorter way than the one for any number.
ghost use Rattle.std.specs.Prelude.{◌≡◌, ◌≤◌, ◌+◌, ◌*◌, ◌-◌, ◌^◌, pos, position, Ok, Some, IfSome, IsTrue};
ghost use Rattle.std.specs.List.{before_first, after_first, list_all};
ghost use Rattle.rtb_num.specs.Amounts.{is_digit, is_point, number_of};
ghost use Rattle.json_fields.specs.Amounts.{floor_of, in_32_bits};

use rtb_num::Micros;

// Whatever digits these are, their number is below 2 ^ 31.
const FEW_DIGITS: usize = 9;

// The value, where the text is at most nine digits and nothing else.
pub(crate) fn short_whole(text: &[u8]) -> Option<i32>
    ensures { IfSome result (λ n. in_32_bits text.now ≡ Some n) }
{
    match few_digits(text) {
        Some(number) => signed(number),
        None => None,
    }
}

#[inline(always)]
fn signed(number: u32) -> Option<i32>
    requires { number ≤ 999999999 }
    ensures { result ≡ Some (pos number) }
{
    Some(number as i32)
}

// Whatever digits these are, their number of US dollars is below a million.
const FEW_DOLLARS: usize = 6;

// How many digits behind the point a whole number of micro-dollars has.
const PLACES: usize = 6;

// The amount in micro-dollars, where the text is at most six digits and at most six more behind a point.
pub(crate) fn short_floor(text: &[u8]) -> Option<Micros>
    ensures { IfSome result (λ m. floor_of text.now ≡ Ok m) }
{
    let (dollars, fraction) = split_at_point(text);
    if dollars.len() > FEW_DOLLARS || fraction.len() > PLACES {
        return None;
    }
    match (few_digits(dollars), few_digits(fraction)) {
        (Some(dollars), Some(micros)) => Micros::new(in_micros(dollars, micros, fraction.len())),
        _ => None,
    }
}

// So many US dollars, and what so many digits behind the point spell, in micro-dollars.
#[inline(always)]
fn in_micros(dollars: u32, digits: u32, places: usize) -> u64
    requires dollars { dollars ≤ 999999999 }
    requires digits { digits ≤ 999999999 }
    requires places { places ≤ 6 }
    ensures { result ≡ dollars * 10 ^ 6 + digits * 10 ^ (6 - places) }
{
    u64::from(dollars) * 1_000_000 + u64::from(digits) * 10u64.pow((PLACES - places) as u32)
}

// What the digits spell, where these are at most nine bytes and each is a digit.
#[inline(always)]
fn few_digits(text: &[u8]) -> Option<u32>
    ensures digits { IfSome result (λ n. IsTrue (list_all is_digit text.now)) }
    ensures value { IfSome result (λ n. n ≡ number_of text.now) }
    ensures bound { IfSome result (λ n. n ≤ 999999999) }
{
    if text.len() > FEW_DIGITS {
        return None;
    }
    let mut number: u32 = 0;
    for c in text {
        if !c.is_ascii_digit() {
            return None;
        }
        number = number * 10 + u32::from(*c - b'0');
    }
    Some(number)
}

// What stands before the point and what stands behind it.
fn split_at_point(text: &[u8]) -> (&[u8], &[u8])
    ensures whole { result.0.now ≡ before_first is_point text.now }
    ensures fraction { result.1.now ≡ after_first is_point text.now }
{
    match point_of(text) {
        None => text.split_at(text.len()),
        Some(at) => (&text[..at], &text[at + 1..]),
    }
}

// Where the point stands.
fn point_of(text: &[u8]) -> Option<usize>
    ensures { result ≡ position is_point text.now }
{
    text.iter().position(|c| *c == b'.')
}
