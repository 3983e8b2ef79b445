//! How often a user was shown a campaign within so many seconds, from its last sale backwards.
ghost use Rattle.std.specs.Prelude.{◌≡◌, ◌-◌, ◌<◌, ◌≤◌, ◌&&◌, ◌||◌, nat_lt, ◌+◌, ◌*◌, Option, length};
ghost use Rattle.budget_book.specs.declared.sales.SaleRow.{SaleRow};
ghost use Rattle.budget_book.specs.Sales.{expired, expired_at, is_billed, is_held, is_shown, is_to, shown_of};
ghost use Rattle.budget_book.specs.LastSales.{place_of};
ghost use Rattle.budget_book.specs.Users.{AreChains, places_of, last_below};

use crate::hash::{hash_user, mix, place_in};
use crate::last_sales::LastSales;
use crate::sales::{SaleRow, SaleState};
use rtb_num::Txt;
use std::collections::VecDeque;

/// What is asked of the sales to a user.
#[derive(Drop)]
pub(crate) struct Ask<'a> {
    pub campaign: u32,
    pub user: &'a [u8],
    pub seconds: u32,
    pub moment: u64,
}

// How many sales count, as they would be after the held ones that are due have expired. It goes along the sales at the
// place of the campaign and the user, and over no other one.
pub(crate) fn count_shown(
    rows: &VecDeque<SaleRow>,
    links: &VecDeque<u32>,
    lasts: &LastSales,
    forgotten: u64,
    ask: &Ask,
) -> u64
    requires chains { AreChains forgotten (places_of rows.now.items) links.now.items lasts.now }
    requires few { length rows.now.items ≤ 67108864 }
    ensures { result ≡ shown_of ask.now.campaign ask.now.user.now ask.now.seconds ask.now.moment (expired ask.now.moment rows.now.items) }
{
    let mut count = 0;
    let last = lasts.get(ask.place()).saturating_sub(forgotten);
    // Which sale of the list comes next, counted from 1.
    let mut nth = last as usize;
    while nth > 0 {
        let place = nth - 1;
        count += u64::from(ask.counts(&rows[place]));
        nth = nth.saturating_sub(links[place] as usize);
    }
    count
}

impl<'a> Ask<'a> {
    // The place of the campaign and the user.
    fn place(&self) -> usize
        ensures { result ≡ place_of self.now.campaign self.now.user.now }
    {
        place_in(mix(self.campaign, hash_user(self.user)))
    }

    // Whether the sale is one that counts.
    fn counts(&self, sale: &SaleRow) -> bool
        ensures { result ≡ is_shown self.now.campaign self.now.user.now self.now.seconds self.now.moment (expired_at self.now.moment sale.now) }
    {
        if sale.campaign != self.campaign || !is_to(self.user, &sale.user) {
            return false;
        }
        if sale.state == SaleState::Held && sale.due <= self.moment {
            return false;
        }
        if sale.state == SaleState::Lost || sale.state == SaleState::Expired {
            return false;
        }
        u128::from(sale.moment) + 1000 * u128::from(self.seconds) > u128::from(self.moment)
    }
}

// Whether it is the user's.
fn is_to(user: &[u8], other: &Option<Txt>) -> bool
    ensures { result ≡ is_to user.now other.now }
{
    match other {
        None => false,
        Some(other) => other.as_bytes() == user,
    }
}
