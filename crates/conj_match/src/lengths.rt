//! How long the chosen lists are.
ghost use Rattle.std.specs.Prelude.{◌≡◌, ◌≤◌, ◌<◌, ℕ, [], All, Contains, get_or, length, sum_by};
ghost use Rattle.conj_match.specs.Matching.{digits, lists_at, longest, shortest};

use postings::Postings;

/// How many entries the chosen lists have.
pub(crate) fn entries_in(lists: &[Postings], chosen: &[usize]) -> u128
    requires { All (λ n. n < length lists.now) chosen.now }
    ensures { result ≡ sum_by length (lists_at lists.now chosen.now) }
{
    let mut entries: u128 = 0;
    for place in chosen {
        entries += lists[*place].len() as u128;
    }
    entries
}

/// How many entries the longest of the chosen lists has.
pub(crate) fn longest_in(lists: &[Postings], chosen: &[usize]) -> usize
    requires { All (λ n. n < length lists.now) chosen.now }
    ensures { result ≡ longest (lists_at lists.now chosen.now) }
{
    let mut most = 0;
    for place in chosen {
        most = lists[*place].len().max(most);
    }
    most
}

/// The place of a shortest of the chosen lists.
pub(crate) fn shortest_in(lists: &[Postings], chosen: &[usize]) -> usize
    requires within { All (λ n. n < length lists.now) chosen.now }
    requires some { 0 < length chosen.now }
    ensures there { result < length lists.now }
    ensures member { Contains (lists_at lists.now chosen.now) (get_or lists.now result []) }
    ensures least { length (get_or lists.now result []) ≡ shortest (lists_at lists.now chosen.now) }
{
    let mut best = chosen[0];
    for place in chosen {
        best = shorter(lists, best, *place);
    }
    best
}

// The place of the shorter of two lists.
fn shorter(lists: &[Postings], a: usize, b: usize) -> usize
    requires a { a < length lists.now }
    requires b { b < length lists.now }
    ensures a { length (get_or lists.now a []) ≤ length (get_or lists.now b []) → result ≡ a }
    ensures b { length (get_or lists.now b []) < length (get_or lists.now a []) → result ≡ b }
{
    if lists[b].len() < lists[a].len() {
        b
    } else {
        a
    }
}

/// The number of binary digits.
#[tactic(auto, using(crate::proofs::Digits::digits_none, crate::proofs::Digits::digits_is))]
pub(crate) fn digits_of(n: usize) -> u32
    ensures value { result ≡ digits n }
    ensures few { result ≤ 64 }
{
    if n == 0 {
        return 0;
    }
    n.ilog2() + 1
}
