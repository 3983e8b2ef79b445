//! The macros that the exchange fills in.
ghost use Rattle.std.specs.Prelude.{◌≡◌, option_map, find};
ghost use Rattle.rtb_macros.specs.Macros.{all_macros, begins_with, macro_at, name_of};

/// A macro that the exchange fills in. Any other stays as it is written.
#[derive(Clone, Copy, Debug, PartialEq, Eq)]
pub enum Macro {
    /// `${AUCTION_ID}`: the request's `id`.
    AuctionId,
    /// `${AUCTION_BID_ID}`: the `id` of the bid object.
    BidId,
    /// `${AUCTION_IMP_ID}`: the impression's `id`.
    ImpId,
    /// `${AUCTION_SEAT_ID}`: the seat.
    SeatId,
    /// `${AUCTION_AD_ID}`: the `adid`, or nothing where there is none.
    AdId,
    /// `${AUCTION_PRICE}`: the price, as the bid object has it.
    Price,
    /// `${AUCTION_CURRENCY}`: `USD`.
    Currency,
}

const ALL: [Macro; 7] = [
    Macro::AuctionId,
    Macro::BidId,
    Macro::ImpId,
    Macro::SeatId,
    Macro::AdId,
    Macro::Price,
    Macro::Currency,
];

impl Macro {
    /// How it is written.
    pub fn name(&self) -> &'static [u8]
        ensures { result.now ≡ name_of self.now }
    {
        match self {
            Macro::AuctionId => b"${AUCTION_ID}",
            Macro::BidId => b"${AUCTION_BID_ID}",
            Macro::ImpId => b"${AUCTION_IMP_ID}",
            Macro::SeatId => b"${AUCTION_SEAT_ID}",
            Macro::AdId => b"${AUCTION_AD_ID}",
            Macro::Price => b"${AUCTION_PRICE}",
            Macro::Currency => b"${AUCTION_CURRENCY}",
        }
    }

    // Whether the text begins with it.
    fn begins(&self, text: &[u8]) -> bool
        ensures { result ≡ begins_with text.now self.now }
    {
        text.starts_with(self.name())
    }
}

// The macro that the text begins with.
pub(crate) fn macro_of(text: &[u8]) -> Option<Macro>
    ensures { result ≡ macro_at text.now }
{
    first_in(&ALL, text).copied()
}

fn first_in<'a>(all: &'a [Macro], text: &[u8]) -> Option<&'a Macro>
    ensures { option_map (λ m. m.now) result ≡ find (begins_with text.now) all.now }
{
    all.iter().find(|m| m.begins(text))
}
