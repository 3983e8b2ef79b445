//! The numbers in paths.
ghost use Rattle.std.specs.Prelude.{◌≡◌, ◌-◌, ◌^◌, min};
ghost use Rattle.std.specs.List.{list_all};
ghost use Rattle.rtb_num.specs.Amounts.{is_digit, number_of};
ghost use Rattle.command_read.specs.Numbers.{is_positive_decimal, number_in, number_up_to};

/// The number from 1 to 2^64 - 1 that the text is in decimal, without a zero in front.
pub(crate) fn number_in(text: &[u8]) -> Option<u64>
    ensures { result ≡ number_in text.now }
{
    if is_positive_decimal(text) {
        u64::try_from(digits_value(text)).ok()
    } else {
        None
    }
}

/// The number from 0 to the most that the text is in decimal, without a needless zero.
pub(crate) fn number_up_to(most: u64, text: &[u8]) -> Option<u64>
    ensures { result ≡ number_up_to most text.now }
{
    if text == b"0".as_slice() {
        return Some(0);
    }
    match number_in(text) {
        Some(number) if number <= most => Some(number),
        _ => None,
    }
}

// Digits, of which the first is no zero.
fn is_positive_decimal(text: &[u8]) -> bool
    ensures { result ≡ is_positive_decimal text.now }
{
    match text {
        [first, ..] => *first != b'0' && are_digits(text),
        [] => false,
    }
}

fn are_digits(text: &[u8]) -> bool
    ensures { result ≡ list_all is_digit text.now }
{
    text.iter().all(|c| c.is_ascii_digit())
}

// What the digits spell, or the greatest `u128` where that is less.
fn digits_value(digits: &[u8]) -> u128
    ensures { result ≡ min (number_of digits.now) (2 ^ 128 - 1) }
{
    let mut number: u128 = 0;
    for c in digits {
        number = number
            .saturating_mul(10)
            .saturating_add(u128::from(c.saturating_sub(b'0')));
    }
    number
}
