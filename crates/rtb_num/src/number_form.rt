//! The form of numbers in decimal text (RFC 8259, section 6).
ghost use Rattle.std.specs.Prelude.{◌≡◌, ◌+◌, ◌==◌, ◌&&◌, not, length, position};
ghost use Rattle.std.specs.List.{before_first, after_first, list_all};
ghost use Rattle.rtb_num.specs.Amounts.{is_decimal as is_decimal_text, is_whole_part as is_whole_text, is_digit as is_digit_code, is_point};
ghost use Rattle.rtb_num.specs.Numbers.{is_number as is_number_text, is_exponent as is_exponent_text, is_exponent_mark, without_minus as without_minus_text, without_sign as without_sign_text, has_minus as has_minus_text};

/// Whether the text is a number of RFC 8259, section 6: `-0.5e+10`.
pub fn is_number(text: &[u8]) -> bool
    ensures { result ≡ is_number_text text.now }
{
    let unsigned = without_minus(text);
    match exponent_mark_of(unsigned) {
        None => is_decimal(unsigned),
        Some(at) => is_decimal(&unsigned[..at]) && is_exponent(&unsigned[at + 1..]),
    }
}

// Where the mark of the exponent stands.
fn exponent_mark_of(text: &[u8]) -> Option<usize>
    ensures { result ≡ position is_exponent_mark text.now }
{
    text.iter().position(|c| *c == b'e' || *c == b'E')
}

// Of what stands behind the exponent's mark.
fn is_exponent(part: &[u8]) -> bool
    ensures { result ≡ is_exponent_text part.now }
{
    is_fraction(without_sign(part))
}

fn is_fraction(text: &[u8]) -> bool
    ensures { result ≡ (list_all is_digit_code text.now && not (length text.now == 0)) }
{
    are_digits(text) && !text.is_empty()
}

fn are_digits(text: &[u8]) -> bool
    ensures { result ≡ list_all is_digit_code text.now }
{
    text.iter().all(|c| c.is_ascii_digit())
}

/// Whether the text is a number of RFC 8259, section 6, without sign and without exponent.
pub fn is_decimal(text: &[u8]) -> bool
    ensures { result ≡ is_decimal_text text.now }
{
    match point_of(text) {
        None => is_whole_part(text),
        Some(at) => is_whole_part(&text[..at]) && is_fraction(&text[at + 1..]),
    }
}

// Where the point stands.
fn point_of(text: &[u8]) -> Option<usize>
    ensures { result ≡ position is_point text.now }
{
    text.iter().position(|c| *c == b'.')
}

fn is_whole_part(text: &[u8]) -> bool
    ensures { result ≡ is_whole_text text.now }
{
    match text {
        [] => false,
        [first, rest @ ..] => are_digits(text) && (*first != b'0' || rest.is_empty()),
    }
}

pub(crate) fn has_minus(text: &[u8]) -> bool
    ensures { result ≡ has_minus_text text.now }
{
    matches!(text, [b'-', ..])
}

pub(crate) fn without_minus(text: &[u8]) -> &[u8]
    ensures { result.now ≡ without_minus_text text.now }
{
    match text {
        [b'-', rest @ ..] => rest,
        _ => text,
    }
}

pub(crate) fn without_sign(part: &[u8]) -> &[u8]
    ensures { result.now ≡ without_sign_text part.now }
{
    match part {
        [b'+' | b'-', rest @ ..] => rest,
        _ => part,
    }
}

// The digits before the point and those behind it.
pub(crate) fn split_at_point(text: &[u8]) -> (&[u8], &[u8])
    ensures whole { result.0.now ≡ before_first is_point text.now }
    ensures fraction { result.1.now ≡ after_first is_point text.now }
{
    match point_of(text) {
        None => text.split_at(text.len()),
        Some(at) => (&text[..at], &text[at + 1..]),
    }
}

// What stands before the exponent's mark and what stands behind it.
pub(crate) fn split_at_exponent(text: &[u8]) -> (&[u8], &[u8])
    ensures decimal { result.0.now ≡ before_first is_exponent_mark text.now }
    ensures exponent { result.1.now ≡ after_first is_exponent_mark text.now }
{
    match exponent_mark_of(text) {
        None => text.split_at(text.len()),
        Some(at) => (&text[..at], &text[at + 1..]),
    }
}
