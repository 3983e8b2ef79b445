//! What an advertiser states, part by part and not yet checked, and why parts are no facts.
ghost use Rattle.std.specs.Prelude.{◌≡◌};
ghost use Rattle.campaign.specs.Kept.{size_of};

use crate::cap::Cap;
use crate::field::CampField;
use rtb_num::{List, Micros, Nanos, Txt};
use std::fmt;
use thiserror::Error;

/// What an advertiser states of a campaign beside its target, field by field, not yet checked.
#[derive(Drop)]
pub struct FactParts {
    /// Who pays: the bidder's seat (OpenRTB 2.5, section 4.2.2).
    pub seat: Txt,
    /// The advertiser's domain (section 4.2.3, as are the fields of the creative below).
    pub adomain: Txt,
    /// Content categories of the creative.
    pub cat: List<Txt>,
    /// Width of the creative, in pixels.
    pub w: Option<i32>,
    /// Height of the creative, in pixels.
    pub h: Option<i32>,
    /// Attributes of the creative (section 5.3).
    pub attr: List<i32>,
    /// Whether the markup is safe on pages that ask for secure content.
    pub secure: bool,
    /// Micro-dollars per thousand impressions.
    pub bid: Micros,
    /// Identifiers of the deals that the advertiser has.
    pub deals: List<Txt>,
    pub budget: Nanos,
    /// The markup of the creative.
    pub adm: Txt,
    /// Identifier of the creative.
    pub crid: Txt,
    /// Identifier of the preloaded ad.
    pub adid: Option<Txt>,
    /// How often one user is shown the campaign.
    pub cap: Option<Cap>,
}

/// Why parts are no facts. The first in the order of the fields is answered.
#[derive(Clone, Copy, Error)]
pub enum FactFault {
    /// A text that is not of 1 to 255 bytes, or markup of more than 65,536.
    #[error("a text is longer or shorter than it may be")]
    TextLength { field: CampField },
    /// A list of more than 64 entries, or a negative attribute, with its place.
    #[error("a list is past what it may have")]
    ListLength { field: CampField },
    /// The bid is less than a micro-dollar.
    #[error("bid is less than a micro-dollar")]
    BidZero,
    /// One of width and height without the other, or a side that is not of 1 to 32767 pixels.
    #[error("w and h are not both there, each of 1 to 32767 pixels")]
    Size,
}

impl fmt::Debug for FactFault {
    // As it is told.
    fn fmt<W: fmt::Write>(&self, f: &mut fmt::Formatter<W>) -> fmt::Result {
        fmt::Display::fmt(self, f)
    }
}

// Width and height, where both are given.
pub(crate) fn size_of(parts: &FactParts) -> Option<(i32, i32)>
    ensures { result ≡ size_of parts.now }
{
    match (parts.w, parts.h) {
        (Some(w), Some(h)) => Some((w, h)),
        _ => None,
    }
}
