//! What a path stands for.
ghost use Rattle.std.specs.Prelude.{◌≡◌};
ghost use Rattle.std.specs.List.{prefix_len};
ghost use Rattle.command_read.specs.Paths.{is_of_path, is_open, keep_behind, methods_of, number_behind, numbered_route, path_of, route_of};

use crate::numbers::{number_in, number_up_to};
use http_wire::Allow;

// As many sales as a list may have at all.
const MOST_SALES: u64 = 67_108_864;

/// What a path stands for. Numbers are of campaigns and of sales.
#[derive(Clone, Copy)]
pub(crate) enum Route {
    Auction,
    Campaigns,
    Campaign(u64),
    Pause(u64),
    Resume(u64),
    Bill(u64),
    Lose(u64),
    /// How many sales stay where others are forgotten.
    Forget(u64),
}

impl Route {
    /// The methods that the path takes.
    pub(crate) fn methods(self) -> Allow
        ensures { result ≡ methods_of self }
    {
        match self {
            Route::Auction | Route::Campaigns | Route::Pause(_) | Route::Resume(_) => Allow::Post,
            Route::Forget(_) => Allow::Post,
            Route::Campaign(_) | Route::Bill(_) | Route::Lose(_) => Allow::GetPost,
        }
    }

    /// Whether it is taken without a token where addresses are signed.
    pub(crate) fn is_open(self) -> bool
        ensures { result ≡ is_open self }
    {
        match self {
            Route::Auction | Route::Campaigns | Route::Campaign(_) | Route::Pause(_) => true,
            Route::Resume(_) | Route::Forget(_) => true,
            Route::Bill(_) | Route::Lose(_) => false,
        }
    }
}

/// The path of a target: what stands before the first `?`.
pub(crate) fn path_of(target: &[u8]) -> &[u8]
    ensures { result.now ≡ path_of target.now }
{
    &target[..query_start(target)]
}

// Where the first `?` stands, and the end where there is none.
fn query_start(target: &[u8]) -> usize
    ensures { result ≡ prefix_len is_of_path target.now }
{
    target.iter().take_while(|c| **c != b'?').count()
}

/// What the path stands for, where it is listed.
pub(crate) fn route_of(path: &[u8]) -> Option<Route>
    ensures { result ≡ route_of path.now }
{
    if path == b"/openrtb2/auction".as_slice() {
        return Some(Route::Auction);
    }
    if path == b"/campaign".as_slice() {
        return Some(Route::Campaigns);
    }
    numbered_route(path)
}

fn numbered_route(path: &[u8]) -> Option<Route>
    ensures { result ≡ numbered_route path.now }
{
    if let Some(n) = number_behind(b"/campaign/", path) {
        return Some(Route::Campaign(n));
    }
    if let Some(n) = number_behind(b"/pause/", path) {
        return Some(Route::Pause(n));
    }
    if let Some(n) = number_behind(b"/resume/", path) {
        return Some(Route::Resume(n));
    }
    if let Some(n) = number_behind(b"/bill/", path) {
        return Some(Route::Bill(n));
    }
    if let Some(n) = number_behind(b"/lose/", path) {
        return Some(Route::Lose(n));
    }
    match keep_behind(b"/forget/", path) {
        Some(keep) => Some(Route::Forget(keep)),
        None => None,
    }
}

// How many sales stay where others are forgotten, which is all that stands behind the front.
fn keep_behind(front: &[u8], path: &[u8]) -> Option<u64>
    ensures { result ≡ keep_behind front.now path.now }
{
    match path.strip_prefix(front) {
        Some(digits) => number_up_to(MOST_SALES, digits),
        None => None,
    }
}

// The number that is all that stands behind the front.
fn number_behind(front: &[u8], path: &[u8]) -> Option<u64>
    ensures { result ≡ number_behind front.now path.now }
{
    match path.strip_prefix(front) {
        Some(digits) => number_in(digits),
        None => None,
    }
}
