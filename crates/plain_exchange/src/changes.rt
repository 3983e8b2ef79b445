//! What commands change: effects and their parts.
ghost use Rattle.std.specs.Prelude.{◌≡◌, ◌≤◌};
ghost use Rattle.plain_exchange.specs.Effects.{edits_in, edits_of_kept};

use budget_book::{Gone, SaleRow};
use campaign::Facts;
use rtb_num::{List, Nanos, Txt};
use target_expr::Expr;

/// One sale of an auction.
#[derive(Drop)]
pub struct SoldItem {
    pub campaign: u32,
    pub price: Nanos,
    /// The moment, in milliseconds, at which the sale expires.
    pub due: u64,
}

/// A campaign as a compacted journal has it.
#[derive(Drop)]
pub struct KeptCampaign {
    pub live: bool,
    pub facts: Facts,
    pub expr: Expr,
    pub gone: Gone,
}

impl KeptCampaign {
    // One that is paused is added and then paused.
    fn edits(&self) -> u32
        ensures { result ≡ edits_of_kept self.now }
    {
        if self.live { 1 } else { 2 }
    }
}

/// What a command changed.
#[derive(Drop)]
pub enum Change {
    /// Sales expired, and nothing else changed.
    Swept,
    /// Sold to no user that is known.
    Sold(List<SoldItem>),
    Added(Facts, Expr),
    Changed(u32, Facts, Expr),
    Paused(u32),
    Resumed(u32),
    Billed(u64),
    Lost(u64),
    /// Sold to a user.
    SoldTo(Txt, List<SoldItem>),
    /// The oldest sales were forgotten, until so many are in all.
    Forgot(u64),
    /// A campaign of a compacted journal. No command makes one.
    Kept(KeptCampaign),
    /// A sale of a compacted journal. No command makes one.
    KeptSale(SaleRow),
}

impl Change {
    /// How many edits it is: how often it alters which campaigns are live, or whom they reach.
    pub fn edits(&self) -> u32
        ensures value { result ≡ edits_in self.now }
        ensures bound { result ≤ 2 }
    {
        match self {
            Change::Swept | Change::Billed(_) | Change::Lost(_) | Change::Forgot(_) => 0,
            Change::Sold(_) | Change::SoldTo(_, _) => 0,
            Change::Added(_, _) | Change::Changed(_, _, _) => 1,
            Change::Paused(_) | Change::Resumed(_) => 1,
            Change::Kept(kept) => kept.edits(),
            Change::KeptSale(_) => 0,
        }
    }
}

/// A change, and the moment of its command in milliseconds.
#[derive(Drop)]
pub struct Effect {
    pub moment: u64,
    pub change: Change,
}
