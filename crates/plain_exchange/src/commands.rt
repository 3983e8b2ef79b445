//! What is asked of an exchange, and what it replies.
use budget_book::Totals;
use campaign::Facts;
use campaign_store::{Limit, SharedRecord};
use rtb_num::{List, Micros, Nanos, Txt};
use rtb_types::BidRequest;
use target_expr::Expr;

/// What is asked of an exchange.
#[derive(Drop)]
pub enum Command {
    /// Sells the impressions of a bid request.
    Auction(BidRequest),
    /// Anything else.
    Act(Act),
}

/// What is asked of an exchange beside auctions. Campaigns and sales are numbered from 1.
#[derive(Drop)]
pub enum Act {
    Add(Facts, Expr),
    Change(u64, Facts, Expr),
    Pause(u64),
    Resume(u64),
    /// The impression of a sale was shown.
    Bill(u64),
    /// It was not.
    Lose(u64),
    /// The oldest sales are forgotten, so that at least so many are left.
    Forget(u64),
    Look(Look),
}

/// What is asked and changes nothing, but that held sales that are due expire as with every command.
#[derive(Clone, Copy)]
pub enum Look {
    /// What the sales of a campaign add up to.
    Report(u64),
}

/// A sold impression.
#[derive(Drop)]
pub struct Sold {
    /// The place of the impression in the request, counted from 0.
    pub imp: u32,
    /// The number of the sale.
    pub sale: u64,
    /// Micro-dollars per thousand impressions.
    pub price: Micros,
    /// The deal's id, where it was sold in the pool of a deal.
    pub deal: Option<Txt>,
    /// The number of the campaign that won it.
    pub campaign: u32,
    /// What that campaign states.
    pub record: SharedRecord,
}

/// What an exchange answers.
#[derive(Drop)]
pub enum Reply {
    NoBid,
    Sold(List<Sold>),
    Added {
        n: u32,
    },
    Changed {
        n: u32,
    },
    Paused {
        n: u32,
    },
    Resumed {
        n: u32,
    },
    Reported {
        n: u32,
        live: bool,
        bid: Micros,
        budget: Nanos,
        totals: Totals,
    },
    Billed {
        sale: u64,
    },
    Lost {
        sale: u64,
    },
    /// How many sales the list has left, and how many are forgotten in all.
    Trimmed {
        sales: u64,
        forgotten: u64,
    },
    NoSuchCampaign,
    NoSuchSale,
    WasLost,
    WasBilled,
    WasExpired,
    Forgotten,
    BelowCommitted {
        committed: Nanos,
    },
    Full {
        limit: Limit,
    },
}
