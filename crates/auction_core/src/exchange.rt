//! The exchange of one thread as it runs: its table of campaigns and its book of sales.
ghost use Rattle.std.specs.Prelude.{◌≡◌};
ghost use Rattle.auction_core.specs.Core.{funds, listed};
ghost use Rattle.plain_exchange.specs.State.{empty};

use budget_book::Book;
use campaign_store::Table;
use plain_exchange::Settings;
use std::alloc::Global;
use std::marker::Model;

/// An exchange of one thread: campaigns, and the sales that their budgets are spent on.
///
/// Contracts see its state, its settings (for how long a sale is held, and how many its list is to have), how many edits
/// made its table, and for how many more sales and campaigns there is room.
#[derive(Drop)]
pub struct Core {
    pub(crate) table: Table,
    pub(crate) book: Book,
    pub(crate) settings: Settings,
}

impl Model for Core {
    ghost use Rattle.std.specs.Prelude.{min};
    ghost use Rattle.auction_core.specs.Core.{CoreState, IsCore, campaigns_of};

    ghost Value = { CoreState };

    ghost view = { λ c. record { state = record { campaigns = campaigns_of c.table.campaigns c.book.campaigns; sales = c.book.sales }; settings = c.settings; edits = c.table.edits; sale_room = c.book.sale_room; campaign_room = min c.table.spare c.book.campaign_room } };

    ghost invariant = { λ c. IsCore c.table.campaigns c.book.campaigns c.book.sales };
}

impl Core {
    /// The exchange without campaigns, where a sale is held for `ttl` milliseconds and auctions bring the list of sales to
    /// `limit` at most. It takes no memory.
    pub fn new(alloc: Global, ttl: u64, limit: u64) -> Core
        ensures { result ≡ record { state = empty; settings = record { ttl = ttl; limit = limit }; edits = 0; sale_room = 0; campaign_room = 0 } }
    {
        Core {
            table: Table::new(alloc),
            book: Book::new(alloc),
            settings: Settings { ttl, limit },
        }
    }

    /// From now on a sale is held for `ttl` milliseconds, and auctions bring the list of sales to `limit` at most.
    pub fn hold_for(&mut self, ttl: u64, limit: u64)
        ensures { self.new ≡ record self.old { settings = record { ttl = ttl; limit = limit } } }
    {
        self.settings = Settings { ttl, limit };
    }

    /// The table of its campaigns.
    pub fn table(&self) -> &Table
        ensures campaigns { result.now.campaigns ≡ listed self.now.state }
        ensures edits { result.now.edits ≡ self.now.edits }
    {
        &self.table
    }

    /// The book of its sales.
    pub fn book(&self) -> &Book
        ensures campaigns { result.now.campaigns ≡ funds self.now.state }
        ensures sales { result.now.sales ≡ self.now.state.sales }
    {
        &self.book
    }
}
