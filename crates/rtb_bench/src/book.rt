//! A book of sales. Its steps, each of which answers how many sales it reached:
//!
//! - `make`: each sale's user is made, of 16 bytes, and dropped;
//! - `sell`: the sales are made, one user each, the campaigns in turn, one a millisecond and each due after a
//!   second;
//! - `fall`: the same, each due before all that are held;
//! - `mixed`: the same, the dues as good as drawn at random;
//! - `count`: each user is counted for the user's campaign;
//! - `bill`: every second sale is billed;
//! - `sweep`: the book is swept at each millisecond.
ghost use Rattle.std.specs.Prelude.{◌≡◌, ◌≤◌, ◌<◌, ◌+◌, ◌-◌, IsTrue, get_or, length};
ghost use Rattle.budget_book.specs.Book.{Funds};
ghost use Rattle.budget_book.specs.Sales.{committed_of};

use budget_book::{Book, MOST_SALES, UserKey};
use rtb_num::Nanos;
use std::alloc::{AllocError, Global};
use std::io;
use std::marker::Model;

// A million dollars, in nano-dollars.
const BUDGET: u64 = 1_000_000_000_000_000;

// A millionth of a dollar.
const PRICE: u64 = 1_000;

// Milliseconds for which a sale is held.
const HELD: u64 = 1_000;

// A book, how many campaigns it has, and how many sales are to be made.
#[derive(Drop)]
struct Shop {
    book: Book,
    campaigns: u32,
    sales: u32,
}

impl Model for Shop {
    ghost use Rattle.budget_book.specs.Book.{BookState};
    ghost use Rattle.std.specs.Prelude.{◌≡◌, length};

    ghost Value = { BookState };

    ghost view = { λ s. s.book };

    ghost invariant = { λ s. s.campaigns ≡ length s.book.campaigns };
}

/// Makes a book with so many campaigns and room for so many sales, takes the step of each line of standard input, up to an
/// empty one, and prints it and how many sales it reached.
pub fn run(rt: &HostRuntime, campaigns: u32, sales: u32) -> Result<(), AllocError> {
    let mut shop = Shop {
        book: Book::new(rt.alloc()),
        campaigns: 0,
        sales,
    };
    let told = match shop.add_all(campaigns) {
        Ok(()) => take_steps(rt, &mut shop),
        Err(_) => Err(io::ErrorKind::OutOfMemory.into()),
    };
    drop(shop);
    match told {
        Ok(()) => Ok(()),
        Err(_) => Err(AllocError),
    }
}

fn take_steps(rt: &HostRuntime, shop: &mut Shop) -> io::Result<()> {
    for line in rt.lines(rt.alloc()) {
        let line = line?;
        if line.is_empty() {
            return Ok(());
        }
        let reached = shop.take_step(rt.alloc(), line.as_str())?;
        println!(rt; "{line} {reached}")?;
    }
    Ok(())
}

// The user of the sale at that place, from 0 on: another one for each, in no order.
fn user_of(i: u32) -> [u8; 16] {
    let mut user = *b"0000000000000000";
    let mut left = u64::from(i)
        .wrapping_add(1)
        .wrapping_mul(0x9e37_79b9_7f4a_7c15);
    for k in 0..16 {
        user[k] = b'a' + (left % 16) as u8;
        left /= 16;
    }
    user
}

// A number of 32 bits for each place, as good as drawn at random.
fn mixed(i: u32) -> u64 {
    let word = (u64::from(i) + 1).wrapping_mul(0x9e37_79b9_7f4a_7c15);
    (word ^ word >> 32).wrapping_mul(0x9e37_79b9_7f4a_7c15) >> 32
}

// In which order the sales are due: in that in which they are made, in the reverse of it, or in none.
#[derive(Clone, Copy)]
enum Order {
    Rising,
    Falling,
    Mixed,
}

impl Shop {
    fn add_all(&mut self, campaigns: u32) -> Result<(), AllocError> {
        self.book.reserve_room(self.sales, 0)?;
        for _ in 0..campaigns {
            self.add()?;
        }
        Ok(())
    }

    fn add(&mut self) -> Result<(), AllocError> {
        let Some(budget) = Nanos::new(BUDGET) else {
            return Ok(());
        };
        let Some(count) = self.campaigns.checked_add(1) else {
            return Ok(());
        };
        self.book.reserve_room(0, 1)?;
        self.book.add_campaign(budget);
        self.campaigns = count;
        Ok(())
    }

    // Takes the step of that name. How many sales it reached.
    fn take_step(&mut self, alloc: Global, name: &str) -> Result<u64, AllocError> {
        match name {
            "make" => self.make_users(alloc),
            "sell" => self.sell_all(alloc, Order::Rising),
            "fall" => self.sell_all(alloc, Order::Falling),
            "mixed" => self.sell_all(alloc, Order::Mixed),
            "count" => Ok(self.count_shown()),
            "bill" => Ok(self.bill_half()),
            "sweep" => Ok(self.sweep_all()),
            _ => Ok(0),
        }
    }

    fn make_users(&self, alloc: Global) -> Result<u64, AllocError> {
        for i in 0..self.sales {
            UserKey::make(alloc, &user_of(i))?;
        }
        Ok(u64::from(self.sales))
    }

    // The campaign of the sale at that place, where there is a campaign.
    fn campaign_of(&self, i: u32) -> Option<u32> {
        i.checked_rem(self.campaigns)?.checked_add(1)
    }

    // ---- sales

    fn sell_all(&mut self, alloc: Global, order: Order) -> Result<u64, AllocError> {
        for i in 0..self.sales {
            let due = self.due_of(i, order);
            self.sell(alloc, i, due)?;
        }
        Ok(self.book.sales())
    }

    // When the sale of that place is due.
    fn due_of(&self, i: u32, order: Order) -> u64 {
        match order {
            Order::Rising => u64::from(i) + HELD,
            Order::Falling => u64::from(self.sales.saturating_sub(i)) + HELD - 1,
            Order::Mixed => mixed(i).checked_rem(u64::from(self.sales)).unwrap_or(0) + HELD,
        }
    }

    // Sells to the user of that place, where the campaign can pay and there is room.
    fn sell(&mut self, alloc: Global, i: u32, due: u64) -> Result<(), AllocError> {
        let (Some(c), Some(price)) = (self.campaign_of(i), Nanos::new(PRICE)) else {
            return Ok(());
        };
        self.book.reserve_room(1, 0)?;
        if self.can_pay(c, price) {
            let user = UserKey::make(alloc, &user_of(i))?;
            self.book.sell(c, price, u64::from(i), due, Some(user));
        }
        Ok(())
    }

    // Whether the campaign is there, has that much left, and there is room in the list. The price is not 0.
    fn can_pay(&self, c: u32, price: Nanos) -> bool
        ensures there { IsTrue result → (1 ≤ c) × (c ≤ length self.now.campaigns) }
        ensures few { IsTrue result → length self.now.sales < 67108864 }
        ensures free { IsTrue result → (d : Funds) → committed_of c (get_or self.now.campaigns (c - 1) d).gone self.now.sales + price ≤ (get_or self.now.campaigns (c - 1) d).budget }
    {
        if c < 1 || self.campaigns < c || self.book.sales() >= MOST_SALES {
            return false;
        }
        let left = self.book.free(c);
        0 < price.get() && price.get() <= left.get()
    }

    // How many sales count for the users, each for the campaign of the user's sale.
    fn count_shown(&self) -> u64 {
        let mut shown: u64 = 0;
        for i in 0..self.sales {
            let c = self.campaign_of(i).unwrap_or(0);
            shown = shown.saturating_add(self.book.shown(c, &user_of(i), 3_600, 0));
        }
        shown
    }

    fn bill_half(&mut self) -> u64 {
        let mut billed: u64 = 0;
        for i in 0..self.sales / 2 {
            if self.book.bill(2 * u64::from(i) + 1).is_ok() {
                billed = billed.saturating_add(1);
            }
        }
        billed
    }

    fn sweep_all(&mut self) -> u64 {
        let mut expired: u64 = 0;
        for moment in 0..u64::from(self.sales) + HELD {
            expired = expired.saturating_add(self.book.sweep(moment));
        }
        expired
    }
}
