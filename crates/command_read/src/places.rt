//! What a path stands for, and whether it may be asked there, where addresses are signed.
ghost use Rattle.std.specs.Prelude.{◌≡◌, option_map, true};
ghost use Rattle.std.specs.List.{list_all};
ghost use Rattle.address_keys.specs.Tokens.{is_signed};
ghost use Rattle.command_read.specs.Paths.{before_token, has_token, is_open, is_token_digit, is_token_end, place_of, route_of, signed_path, signed_place, token_of};

use crate::paths::{Route, route_of};
use address_keys::Keys;

// A token has 32 digits, and stands behind a `/`.
const DIGITS: usize = 32;

const END: usize = 33;

/// What the path stands for, where it is listed, and whether what is asked there may be asked so.
pub(crate) fn place_of(keys: &Keys, path: &[u8]) -> Option<(Route, bool)>
    ensures { result ≡ place_of keys.now path.now }
{
    if keys.key.is_none() {
        return open_place(path);
    }
    if has_token(path) {
        return signed_place(keys, path);
    }
    bare_place(path)
}

// Where addresses are not signed, what is asked at a path may be asked.
fn open_place(path: &[u8]) -> Option<(Route, bool)>
    ensures { result ≡ option_map (λ r. (r, true)) (route_of path.now) }
{
    match route_of(path) {
        Some(route) => Some((route, true)),
        None => None,
    }
}

// Where they are, and it has no token.
fn bare_place(path: &[u8]) -> Option<(Route, bool)>
    ensures { result ≡ option_map (λ r. (r, is_open r)) (route_of path.now) }
{
    match route_of(path) {
        Some(route) => Some((route, route.is_open())),
        None => None,
    }
}

// Where they are, and it has one.
fn signed_place(keys: &Keys, path: &[u8]) -> Option<(Route, bool)>
    ensures { result ≡ signed_place keys.now path.now }
{
    match route_of(before_token(path)) {
        Some(route) => opened_by(keys, route, token_of(path)),
        None => None,
    }
}

// A route that some token opens, and whether these digits are it.
fn opened_by(keys: &Keys, route: Route, digits: &[u8]) -> Option<(Route, bool)>
    ensures { result ≡ option_map (λ p. (route, is_signed keys.now p digits.now)) (signed_path route) }
{
    match route {
        Route::Campaign(n) => Some((route, keys.are_signed(b"/campaign/", n, digits))),
        Route::Pause(n) => Some((route, keys.are_signed(b"/campaign/", n, digits))),
        Route::Resume(n) => Some((route, keys.are_signed(b"/campaign/", n, digits))),
        Route::Bill(n) => Some((route, keys.are_signed(b"/bill/", n, digits))),
        Route::Lose(n) => Some((route, keys.are_signed(b"/lose/", n, digits))),
        Route::Auction | Route::Campaigns | Route::Forget(_) => None,
    }
}

// Whether the path ends in a token.
fn has_token(path: &[u8]) -> bool
    ensures { result ≡ has_token path.now }
{
    END <= path.len() && is_token_end(&path[path.len() - END..])
}

fn is_token_end(end: &[u8]) -> bool
    ensures { result ≡ is_token_end end.now }
{
    match end {
        [slash, digits @ ..] => *slash == b'/' && are_token_digits(digits),
        [] => false,
    }
}

fn are_token_digits(digits: &[u8]) -> bool
    ensures { result ≡ list_all is_token_digit digits.now }
{
    digits.iter().all(|c| is_token_digit(*c))
}

fn is_token_digit(c: u8) -> bool
    ensures { result ≡ is_token_digit c }
{
    matches!(c, b'0'..=b'9' | b'a'..=b'f')
}

fn before_token(path: &[u8]) -> &[u8]
    ensures { result.now ≡ before_token path.now }
{
    &path[..path.len().saturating_sub(END)]
}

fn token_of(path: &[u8]) -> &[u8]
    ensures { result.now ≡ token_of path.now }
{
    &path[path.len().saturating_sub(DIGITS)..]
}
