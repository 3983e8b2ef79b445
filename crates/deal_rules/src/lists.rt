//! What lists name and allow.
ghost use Rattle.std.specs.Prelude.{◌≡◌, ◌||◌, codes, is_none};
ghost use Rattle.std.specs.List.{list_any};
ghost use Rattle.deal_rules.specs.Rules.{allows, has_text, is_closed, is_size, is_usd, is_without_pool, takes_size};

use rtb_num::Txt;
use rtb_types::{BidRequest, Imp, Size};

/// Whether nothing is sold, or not for US dollars.
pub(crate) fn is_closed(request: &BidRequest) -> bool
    ensures { result ≡ is_closed request.now }
{
    request.test || !allows_usd(request.cur.as_slice())
}

// Whether bids may be in US dollars where these currencies are allowed.
fn allows_usd(currencies: &[Txt]) -> bool
    ensures { result ≡ allows currencies.now (codes "USD") }
{
    currencies.is_empty() || has_usd(currencies)
}

fn has_usd(currencies: &[Txt]) -> bool
    ensures { result ≡ list_any is_usd currencies.now }
{
    currencies.iter().any(|currency| is_usd(currency))
}

/// Whether the impression asks for no banner, or has no pool in which somebody may buy.
pub(crate) fn sells_nothing(imp: &Imp) -> bool
    ensures { result ≡ (is_none imp.now.banner || is_without_pool imp.now) }
{
    imp.banner.is_none() || is_without_pool(imp)
}

// Whether the impression has no deal, and nobody may buy in its public pool.
fn is_without_pool(imp: &Imp) -> bool
    ensures { result ≡ is_without_pool imp.now }
{
    imp.pmp.deals.is_empty() && (imp.pmp.private_auction || !is_usd(&imp.currency))
}

/// Whether it is the code of the US dollar (ISO 4217).
pub(crate) fn is_usd(currency: &Txt) -> bool
    ensures { result ≡ is_usd currency.now }
{
    currency.as_bytes() == b"USD".as_slice()
}

/// Whether the text is one of those, byte for byte.
pub(crate) fn has_text(texts: &[Txt], text: &Txt) -> bool
    ensures { result ≡ has_text texts.now text.now }
{
    texts.iter().any(|t| t == text)
}

/// Whether a banner of these sizes takes a creative of this one.
pub(crate) fn takes_size(sizes: &[Size], size: (i32, i32)) -> bool
    ensures { result ≡ takes_size sizes.now size }
{
    sizes.is_empty() || has_size(sizes, size)
}

fn has_size(sizes: &[Size], size: (i32, i32)) -> bool
    ensures { result ≡ list_any (is_size size) sizes.now }
{
    sizes.iter().any(|s| s.w == size.0 && s.h == size.1)
}
