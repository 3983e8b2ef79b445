//! The words of `try`: campaigns as `BID` or `BID@DOMAIN`.
ghost use Rattle.std.specs.Prelude.{◌≡◌, ◌==◌, ◌<◌, ◌≤◌, position, length, IfSome, Option, None, Some, if◌then◌else◌, option_map, is_some, IsSome, IsTrue};
ghost use Rattle.std.specs.List.{after_first, before_first, list_all, list_any};
ghost use Rattle.exchange_run.specs.Words.{amount_of, campaign_of, campaign_words, campaigns_of, command_of, domain_of, bid_of, is_at};
ghost use Rattle.exchange_run.specs.Making.{is_short};
ghost use Rattle.exchange_run.specs.View.{campaign_view};

use json_fields::exact_amount;
use rtb_num::{Micros, Txt, is_number};

/// A campaign that a word names.
#[derive(Drop)]
pub(crate) struct NamedCampaign<'a> {
    /// Micro-dollars per thousand impressions.
    pub bid: Micros,
    /// The site domain that it wants, or any.
    pub domain: Option<&'a [u8]>,
}

/// The most campaigns of a command.
pub(crate) const MAX_CAMPAIGNS: usize = 64;

/// Whether the word is a campaign.
pub(crate) fn is_campaign(word: &Txt) -> bool
    ensures { result ≡ is_some (campaign_of word.now) }
{
    campaign(word.as_bytes()).is_some()
}

// `BID` or `BID@DOMAIN`.
fn campaign(word: &[u8]) -> Option<NamedCampaign<'_>>
    ensures { option_map campaign_view result ≡ campaign_of word.now }
{
    let bid = bid(word)?;
    let domain = domain(word)?;
    Some(NamedCampaign { bid, domain })
}

fn bid(word: &[u8]) -> Option<Micros>
    ensures { result ≡ bid_of word.now }
{
    let bid = amount(bid_part(word))?;
    if bid.get() == 0 {
        return None;
    }
    Some(bid)
}

// The amount that a number of JSON is worth exactly, up to a million dollars.
fn amount(text: &[u8]) -> Option<Micros>
    ensures { result ≡ amount_of text.now }
{
    if !is_number(text) {
        return None;
    }
    exact_amount(text).ok()
}

// What stands before the first `@`.
fn bid_part(word: &[u8]) -> &[u8]
    ensures { result.now ≡ before_first is_at word.now }
{
    match place_of(word, b'@') {
        Some(at) => &word[..at],
        None => word,
    }
}

fn place_of(text: &[u8], byte: u8) -> Option<usize>
    ensures place { result ≡ position (λ c. c == byte) text.now }
    ensures inside { IfSome result (λ at. at < length text.now) }
{
    text.iter().position(|c| *c == byte)
}

const MAX_DOMAIN: usize = 255;

fn domain(word: &[u8]) -> Option<Option<&[u8]>>
    ensures { option_map (λ d. option_map (λ t. t.now) d) result ≡ domain_of word.now }
{
    match domain_part(word) {
        None => Some(None),
        Some(domain) => {
            if domain.is_empty() {
                return None;
            }
            if domain.len() > MAX_DOMAIN {
                return None;
            }
            Some(Some(domain))
        }
    }
}

// What stands behind the first `@`, if there is one.
fn domain_part(word: &[u8]) -> Option<&[u8]>
    ensures { option_map (λ d. d.now) result ≡ (if list_any is_at word.now then Some (after_first is_at word.now) else None) }
{
    match place_of(word, b'@') {
        Some(at) => Some(&word[at + 1..]),
        None => None,
    }
}

/// The words of the command `try` behind its name, where each is a campaign.
#[tactic(auto, using(crate::proofs::Campaigns::all_are))]
pub(crate) fn command_in(words: &[Txt]) -> Option<&[Txt]>
    ensures command { is_some result ≡ is_some (command_of words.now) }
    ensures words { IfSome result (λ ws. (campaigns_of ws.now ≡ command_of words.now) × IsSome (campaigns_of ws.now) × (length ws.now ≤ 64)) }
{
    let words = words_behind_try(words)?;
    if !are_campaigns(words) {
        return None;
    }
    Some(words)
}

// What stands behind the command's name: at most 64 words.
fn words_behind_try(words: &[Txt]) -> Option<&[Txt]>
    ensures { option_map (λ ws. ws.now) result ≡ campaign_words words.now }
{
    match words {
        [] => None,
        [name, words @ ..] => {
            if name.as_bytes() != b"try".as_slice() {
                return None;
            }
            if words.len() > MAX_CAMPAIGNS {
                return None;
            }
            Some(words)
        }
    }
}

fn are_campaigns(words: &[Txt]) -> bool
    ensures { result ≡ list_all (λ word. is_some (campaign_of word)) words.now }
{
    words.iter().all(|word| is_campaign(word))
}

/// The campaign that the word names.
pub(crate) fn campaign_named(word: &Txt) -> NamedCampaign<'_>
    requires { IsSome (campaign_of word.now) }
    ensures value { Some (campaign_view result) ≡ campaign_of word.now }
    ensures some_bid { 1 ≤ result.bid }
    ensures short { IsTrue (is_short (campaign_view result).domain) }
{
    match campaign(word.as_bytes()) {
        Some(campaign) => campaign,
        None => unreachable!(),
    }
}
