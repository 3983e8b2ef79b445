//! Where a head begins and ends.
ghost use Rattle.std.specs.Prelude.{◌≡◌, ◌↔◌, true, ℕ, ◌+◌, ◌<◌, ◌≤◌, ◌==◌, ◌&&◌, ◌++◌, List, length, drop, count_by, slice_index, IfSome, IfNone, Some, nat_lt};
ghost use Rattle.httparse.specs.Grammar.{LineEnd, print_blank};
ghost use Rattle.http_wire.specs.Heads.{HasHead, HasNoHead, empty_line, head_end, lines_in};
ghost use Rattle.http_wire.specs.Lines.{GoesTo, HasNoEnd};

use memchr::memchr;

/// The most bytes of a head, with the empty lines before it.
pub(crate) const MOST_HEAD: usize = 8192;

// The most lines of a head: that of the request, those of 64 fields and the empty one.
const MOST_LINES: usize = 66;

// Each line but the last has two bytes at least: so few have no more lines than are allowed.
const FEW_BYTES: usize = 2 * MOST_LINES - 2;

/// The head at the front, and how many bytes of empty lines stand before it.
pub(crate) fn cut(bytes: &[u8]) -> Option<(usize, &[u8])>
    ensures head { IfSome result (λ found. (blank : List LineEnd) × (rest : List ℕ)
        × HasHead bytes.now blank found.1.now rest × (found.0 ≡ length (print_blank blank))) }
    ensures none { IfNone result (HasNoHead bytes.now) }
{
    let window = &bytes[..bytes.len().min(MOST_HEAD)];
    let begun = behind_blank(window);
    match head_end(begun) {
        Some(n) => Some((window.len() - begun.len(), &begun[..n])),
        None => None,
    }
}

/// Whether these are empty lines alone.
pub fn is_blank(bytes: &[u8]) -> bool
    ensures { (result ≡ true) ↔ ((blank : List LineEnd) × (bytes.now ≡ print_blank blank)) }
{
    behind_blank(bytes).is_empty()
}

// What stands behind the empty lines at the front.
fn behind_blank(bytes: &[u8]) -> &[u8]
    ensures blank { (blank : List LineEnd) × (bytes.now ≡ print_blank blank ++ result.now) }
    ensures stops { empty_line result.now ≡ 0 }
    ensures within { length result.now ≤ length bytes.now }
{
    let mut rest = bytes;
    let mut n = empty_line(rest);
    while n > 0 {
        rest = &rest[n..];
        n = empty_line(rest);
    }
    rest
}

// Behind the first empty line that directly follows an LF.
fn head_end(bytes: &[u8]) -> Option<usize>
    ensures { result ≡ head_end bytes.now }
{
    let mut at = 0;
    'lines: loop {
        let Some(place) = behind_line(bytes, at) else {
            return None;
        };
        let n = empty_line(&bytes[place..]);
        if n > 0 {
            return Some(place + n);
        }
        at = place;
    }
}

// Behind the first LF at the place or behind it.
fn behind_line(bytes: &[u8], at: usize) -> Option<usize>
    requires { at ≤ length bytes.now }
    ensures found { IfSome result (GoesTo bytes.now at) }
    ensures none { IfNone result (HasNoEnd bytes.now at) }
{
    match memchr(b'\n', &bytes[at..]) {
        Some(n) => Some(at + n + 1),
        None => None,
    }
}

// The bytes of the empty line at the front.
#[tactic(auto, unfolding(crate::specs::Heads::empty_line))]
fn empty_line(bytes: &[u8]) -> usize
    ensures value { result ≡ empty_line bytes.now }
    ensures within { result ≤ length bytes.now }
{
    match bytes {
        [b'\n', ..] => 1,
        [b'\r', b'\n', ..] => 2,
        _ => 0,
    }
}

/// Whether a head has more than 66 lines, the empty one at its end included.
pub(crate) fn has_many_lines(head: &[u8]) -> bool
    requires { head_end head.now ≡ Some (length head.now) }
    ensures { result ≡ nat_lt 66 (lines_in head.now) }
{
    head.len() > FEW_BYTES && lines_in(head) > MOST_LINES
}

// The lines of a head, the empty one at its end included.
fn lines_in(head: &[u8]) -> usize
    ensures { result ≡ lines_in head.now }
{
    head.iter().filter(|b| **b == b'\n').count()
}
