//! A sale: its row, its states, and why one is not settled.
ghost use Rattle.std.specs.Prelude.{◌≡◌, ◌≤◌, ◌^◌, IfOk, option_map};
ghost use Rattle.budget_book.specs.Sales.{is_due, is_held, none_gone, sale_at, state_at};

use rtb_num::{Nanos, Txt};
use std::alloc::AllocError;
use std::collections::VecDeque;
use thiserror::Error;

/// The most sales that a list may have at all. An exchange may be told to sell no more before.
pub const MOST_SALES: u64 = 67_108_864;

/// The most sales that are ever forgotten.
pub const MOST_FORGOTTEN: u64 = 1 << 62;

// The most sales that are forgotten at once while others are served.
pub(crate) const MOST_AT_ONCE: u64 = 16_384;

/// What has become of a sale.
#[derive(Clone, Copy, PartialEq, Eq)]
pub enum SaleState {
    /// Its price is reserved until it is due.
    Held,
    /// Its price is spent.
    Billed,
    /// The impression was not shown.
    Lost,
    /// It was not billed by the time that it was due.
    Expired,
}

impl SaleState {
    pub(crate) fn is_held(self) -> bool
        ensures { result ≡ is_held self }
    {
        match self {
            SaleState::Held => true,
            SaleState::Billed | SaleState::Lost | SaleState::Expired => false,
        }
    }
}

/// Why a sale is not billed, or not lost.
#[derive(Clone, Copy, Debug, Error)]
pub enum SaleFault {
    /// The number was never given to a sale.
    #[error("there is no sale of that number")]
    NoSuchSale,
    #[error("the sale was lost")]
    WasLost,
    #[error("the sale has expired")]
    WasExpired,
    #[error("the sale was billed")]
    WasBilled,
    /// Its number was given, and only sums are left of it.
    #[error("the sale is forgotten")]
    Forgotten,
}

/// The budget is below what the campaign has spent and reserved.
#[derive(Clone, Copy, Debug, Error)]
#[error("the budget is below what is committed")]
pub struct BelowCommitted {
    pub committed: Nanos,
}

/// A sale.
#[derive(Drop)]
pub struct SaleRow {
    /// The number of the campaign that it is to.
    pub campaign: u32,
    // Beside the campaign's number it takes no room of its own.
    pub state: SaleState,
    pub price: Nanos,
    /// When it was made.
    pub moment: u64,
    /// When it expires, unless it is billed or lost before.
    pub due: u64,
    /// To whom it is shown, where that is known: 1 to 255 bytes.
    pub user: Option<Txt>,
}

impl SaleRow {
    // The state that it has once held sales that are due by the moment have expired.
    pub(crate) fn state_at(&self, moment: u64) -> SaleState
        ensures { result ≡ state_at moment self.now }
    {
        if self.is_due(moment) {
            return SaleState::Expired;
        }
        self.state
    }

    // Whether it is held, and due by the moment.
    pub(crate) fn is_due(&self, moment: u64) -> bool
        ensures { result ≡ is_due moment self.now }
    {
        self.state == SaleState::Held && self.due <= moment
    }

    pub(crate) fn copy(&self) -> Result<SaleRow, AllocError>
        ensures { IfOk result (λ s. s ≡ self.now) }
    {
        let user = copy_user(&self.user)?;
        Ok(SaleRow {
            campaign: self.campaign,
            price: self.price,
            moment: self.moment,
            due: self.due,
            state: self.state,
            user,
        })
    }
}

// The sale of that number, where it is in the list.
pub(crate) fn row_at(rows: &VecDeque<SaleRow>, forgotten: u64, number: u64) -> Option<&SaleRow>
    ensures { option_map (λ s. s.now) result ≡ sale_at forgotten rows.now.items number }
{
    if number <= forgotten {
        return None;
    }
    rows.get((number - forgotten - 1) as usize)
}

fn copy_user(user: &Option<Txt>) -> Result<Option<Txt>, AllocError>
    ensures { IfOk result (λ u. u ≡ user.now) }
{
    match user {
        None => Ok(None),
        Some(user) => Ok(Some(user.copy()?)),
    }
}

/// What is left of a campaign's sales that were forgotten.
#[derive(Clone, Copy)]
pub struct Gone {
    pub spent: Nanos,
    pub billed: u64,
    pub lost: u64,
    pub expired: u64,
}

impl Gone {
    // Nothing is gone of a new campaign.
    pub(crate) fn none() -> Gone
        ensures { result ≡ none_gone }
    {
        Gone {
            spent: nanos(0),
            billed: 0,
            lost: 0,
            expired: 0,
        }
    }
}

/// What a campaign's sales add up to.
#[derive(Clone, Copy)]
pub struct Totals {
    /// The prices of the held sales.
    pub reserved: Nanos,
    /// The prices of the billed sales.
    pub spent: Nanos,
    pub held: u64,
    pub billed: u64,
    pub lost: u64,
    pub expired: u64,
}

// An amount that is known to fit.
pub(crate) fn nanos(n: u64) -> Nanos
    requires { n ≤ 10 ^ 15 }
    ensures { result ≡ n }
{
    match Nanos::new(n) {
        Some(amount) => amount,
        None => unreachable!(),
    }
}
