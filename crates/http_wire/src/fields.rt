//! What the fields of a head say about the message.
ghost use Rattle.std.specs.Prelude.{◌≡◌, ◌≤◌, ◌==◌, ◌+◌, min, length, map, drop, codes, All, IfSome, IfNone, Option, Some, None, [], ◌∷◌, slice_range};
ghost use Rattle.std.specs.List.{list_any, list_all};
ghost use Rattle.std.specs.Option.{option_map};
ghost use Rattle.httparse.specs.Grammar.{is_ows, skip_ows, trim_ows};
ghost use Rattle.httparse.specs.Spans.{IsHeaderWithin, header_bytes};
ghost use Rattle.std.specs.Prelude.{reverse, true, ◌-◌, ◌^◌, IfOk};
ghost use Rattle.rtb_num.specs.Amounts.{is_digit, number_of};
ghost use Rattle.http_wire.specs.Numbers.{lengths, without_zeros};
ghost use Rattle.http_wire.specs.Rules.{asks_close, body_length, closes, content_length, is_identity, is_close, is_digits, is_named, same_word, spells, values};

use crate::refusal::Refusal;
use httparse::spans::HeaderSpan;

/// The most bytes of a body.
pub(crate) const MOST_BODY: usize = 262_144;

/// How many bytes the body has.
pub(crate) fn body_length(head: &[u8], fields: &[HeaderSpan]) -> Result<usize, Refusal>
    requires { All (IsHeaderWithin (length head.now)) fields.now }
    ensures value { result ≡ body_length (map (header_bytes head.now) fields.now) }
    ensures bound { IfOk result (λ n. n ≤ MOST_BODY) }
{
    if has_named(head, fields, b"transfer-encoding") {
        return Err(Refusal::TransferEncoding);
    }
    let Some(length) = content_length(head, fields) else {
        return Err(Refusal::ContentLength);
    };
    if length > MOST_BODY {
        return Err(Refusal::BodyTooLarge);
    }
    if !is_plain(head, fields) {
        return Err(Refusal::ContentEncoding);
    }
    Ok(length)
}

// The one number that the fields of the name `content-length` spell, 0 where there is none.
fn content_length(head: &[u8], fields: &[HeaderSpan]) -> Option<usize>
    requires { All (IsHeaderWithin (length head.now)) fields.now }
    ensures { result ≡ option_map (λ n. min n (2 ^ 64 - 1)) (content_length (lengths head.now fields.now)) }
{
    let Some((first, rest)) = first_length(head, fields) else {
        return Some(0);
    };
    if is_digits(first) && are_same_number(head, rest, first) {
        Some(digits_value(first))
    } else {
        None
    }
}

// The value of the first field of that name, and the fields behind it.
fn first_length<'h, 'f>(
    head: &'h [u8],
    fields: &'f [HeaderSpan],
) -> Option<(&'h [u8], &'f [HeaderSpan])>
    requires { All (IsHeaderWithin (length head.now)) fields.now }
    ensures found { IfSome result (λ found. lengths head.now fields.now ≡ found.0.now ∷ lengths head.now found.1.now) }
    ensures within { IfSome result (λ found. All (IsHeaderWithin (length head.now)) found.1.now) }
    ensures none { IfNone result (lengths head.now fields.now ≡ []) }
{
    let mut rest = fields;
    while let [field, more @ ..] = rest {
        if is_length(head, field) {
            return Some((field.value.of(head), more));
        }
        rest = more;
    }
    None
}

// Whether the field has that name, which most write in one way.
fn is_length(head: &[u8], field: &HeaderSpan) -> bool
    requires { IsHeaderWithin (length head.now) field.now }
    ensures { result ≡ is_named (codes "content-length") (header_bytes head.now field.now) }
{
    let name = field.name.of(head);
    name == b"Content-Length".as_slice() || same_word(name, b"content-length")
}

// Whether each field of that name is the same number.
fn are_same_number(head: &[u8], fields: &[HeaderSpan], first: &[u8]) -> bool
    requires within { All (IsHeaderWithin (length head.now)) fields.now }
    requires digits { is_digits first.now ≡ true }
    ensures { result ≡ list_all (spells (number_of first.now)) (lengths head.now fields.now) }
{
    for field in fields {
        if is_length(head, field) && !is_same_number(first, field.value.of(head)) {
            return false;
        }
    }
    true
}

// Whether the second is digits too, and the same number.
#[tactic(auto, using(crate::proofs::Digits::same_number))]
fn is_same_number(first: &[u8], value: &[u8]) -> bool
    requires { is_digits first.now ≡ true }
    ensures { result ≡ spells (number_of first.now) value.now }
{
    is_digits(value) && without_zeros(first) == without_zeros(value)
}

// The digits behind the zeros at the front.
fn without_zeros(value: &[u8]) -> &[u8]
    ensures { result.now ≡ without_zeros value.now }
{
    let mut rest = value;
    while let [first, more @ ..] = rest
        && *first == b'0'
    {
        rest = more;
    }
    rest
}

// What the digits spell, or the greatest `usize` where that is less.
fn digits_value(digits: &[u8]) -> usize
    requires { list_all is_digit digits.now ≡ true }
    ensures { result ≡ min (number_of digits.now) (2 ^ 64 - 1) }
{
    let mut number: usize = 0;
    for c in digits {
        number = number
            .saturating_mul(10)
            .saturating_add(usize::from(*c - b'0'));
    }
    number
}

// Whether these are digits, one at least.
fn is_digits(value: &[u8]) -> bool
    ensures { result ≡ is_digits value.now }
{
    !value.is_empty() && are_digits(value)
}

fn are_digits(value: &[u8]) -> bool
    ensures { result ≡ list_all is_digit value.now }
{
    value.iter().all(|b| is_digit(*b))
}

fn is_digit(b: u8) -> bool
    ensures { result ≡ is_digit b }
{
    b'0' <= b && b <= b'9'
}

// Whether each field of the name `content-encoding` is `identity`.
fn is_plain(head: &[u8], fields: &[HeaderSpan]) -> bool
    requires { All (IsHeaderWithin (length head.now)) fields.now }
    ensures { result ≡ list_all is_identity (values (codes "content-encoding") (map (header_bytes head.now) fields.now)) }
{
    for field in fields {
        if is_named(head, field, b"content-encoding")
            && !same_word(field.value.of(head), b"identity")
        {
            return false;
        }
    }
    true
}

/// Whether the link ends after the answer.
pub(crate) fn closes(head: &[u8], fields: &[HeaderSpan], minor: u8) -> bool
    requires { All (IsHeaderWithin (length head.now)) fields.now }
    ensures { result ≡ closes minor (map (header_bytes head.now) fields.now) }
{
    if minor == 0 {
        return true;
    }
    for field in fields {
        if is_named(head, field, b"connection") && asks_close(field.value.of(head)) {
            return true;
        }
    }
    false
}

// Whether one of the items between commas is `close`.
fn asks_close(value: &[u8]) -> bool
    ensures { result ≡ asks_close value.now }
{
    value.split(|b| *b == b',').any(|item| is_close(item))
}

// Whether the item is `close`.
fn is_close(item: &[u8]) -> bool
    ensures { result ≡ is_close item.now }
{
    same_word(trim(item), b"close")
}

// Without the white space around it.
#[tactic(auto, unfolding(httparse::specs::Grammar::trim_ows))]
fn trim(value: &[u8]) -> &[u8]
    ensures { result.now ≡ trim_ows value.now }
{
    trim_back(trim_front(value))
}

// Without the white space at its front.
fn trim_front(value: &[u8]) -> &[u8]
    ensures { result.now ≡ skip_ows value.now }
{
    let mut rest = value;
    while let [first, more @ ..] = rest
        && is_space(*first)
    {
        rest = more;
    }
    rest
}

// Without the white space at its end.
fn trim_back(value: &[u8]) -> &[u8]
    ensures { result.now ≡ reverse (skip_ows (reverse value.now)) }
{
    let mut rest = value;
    while let [front @ .., last] = rest
        && is_space(*last)
    {
        rest = front;
    }
    rest
}

fn is_space(b: u8) -> bool
    ensures { result ≡ is_ows b }
{
    b == b' ' || b == b'\t'
}

// Whether a field has the name.
fn has_named(head: &[u8], fields: &[HeaderSpan], name: &[u8]) -> bool
    requires { All (IsHeaderWithin (length head.now)) fields.now }
    ensures { result ≡ list_any (is_named name.now) (map (header_bytes head.now) fields.now) }
{
    for field in fields {
        if is_named(head, field, name) {
            return true;
        }
    }
    false
}

// Whether the field has the name.
fn is_named(head: &[u8], field: &HeaderSpan, name: &[u8]) -> bool
    requires { IsHeaderWithin (length head.now) field.now }
    ensures { result ≡ is_named name.now (header_bytes head.now field.now) }
{
    same_word(field.name.of(head), name)
}

// Whether two words are one, in any case.
#[tactic(auto, unfolding(crate::specs::Rules::same_word))]
fn same_word(a: &[u8], b: &[u8]) -> bool
    ensures { result ≡ same_word a.now b.now }
{
    a.eq_ignore_ascii_case(b)
}
