//! The rules that exclude a campaign, in the order in which they are asked.

/// Why a campaign does not offer for an impression, in the order in which the rules are asked.
///
/// Sections are of OpenRTB 2.5.
#[derive(Clone, Copy)]
pub enum Rule {
    /// The request is a test (`test`), or takes no bid in US dollars (`cur`, section 3.2.1).
    Request,
    /// No banner is asked for (section 3.2.4).
    NoBanner,
    /// The creative has a size, and the banner others (section 3.2.6, `w`, `h` and `format`).
    Size,
    /// An attribute of the creative is blocked (section 3.2.6, `battr`).
    Attribute,
    /// The markup must load over HTTPS, and the creative does not (section 3.2.4, `secure`).
    Secure,
    /// The seat is not among those that may buy (section 3.2.1, `wseat`).
    SeatNotAllowed,
    /// The seat is blocked (section 3.2.1, `bseat`).
    SeatBlocked,
    /// A category of the creative is blocked (section 3.2.1, `bcat`).
    Category,
    /// The advertiser's domain is blocked (section 3.2.1, `badv`).
    Advertiser,
    /// Less of the budget is free than one impression may cost.
    Budget,
    /// The campaign has a cap, and the user was shown it as often as that, or there is no user.
    Capped,
    /// Only deals may buy (section 3.2.11, `private_auction`). Here and below, there is no deal to buy in
    /// either.
    Private,
    /// The floor is in another currency (section 3.2.4, `bidfloorcur`).
    Currency,
    /// The bid is below the floor (section 3.2.4, `bidfloor`).
    Floor,
}
