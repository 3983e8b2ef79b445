//! Commands on sales, prepared.
ghost use Rattle.std.specs.Prelude.{◌≡◌, ◌&&◌, None, nat_le, if◌then◌else◌};
ghost use Rattle.auction_core.specs.Outcomes.{IsOutcome};
ghost use Rattle.plain_exchange.specs.declared.commands.Reply.TheVariants as reply;
ghost use Rattle.plain_exchange.specs.State.{forgotten, swept};
ghost use Rattle.plain_exchange.specs.Step.{at_sale, bill_sale, forget_sales, lose_sale};

use crate::exchange::Core;
use crate::outcome::{Outcome, reply_alone, reply_to};
use budget_book::SaleState;
use plain_exchange::{Change, Reply};

impl Core {
    // Bills the sale, where it is held at the moment.
    pub(crate) fn bill_outcome(&self, sale: u64, moment: u64) -> Outcome
        ensures { IsOutcome (at_sale (swept moment self.now.state) sale (bill_sale sale (swept moment self.now.state))) result }
    {
        match self.state_at(sale, moment) {
            None => reply_alone(self.missing_reply(sale)),
            Some(SaleState::Held) => reply_to(Change::Billed(sale), Reply::Billed { sale }),
            Some(SaleState::Billed) => reply_alone(Reply::Billed { sale }),
            Some(SaleState::Lost) => reply_alone(Reply::WasLost),
            Some(SaleState::Expired) => reply_alone(Reply::WasExpired),
        }
    }

    // Loses the sale, where it is held at the moment.
    pub(crate) fn lose_outcome(&self, sale: u64, moment: u64) -> Outcome
        ensures { IsOutcome (at_sale (swept moment self.now.state) sale (lose_sale sale (swept moment self.now.state))) result }
    {
        match self.state_at(sale, moment) {
            None => reply_alone(self.missing_reply(sale)),
            Some(SaleState::Held) => reply_to(Change::Lost(sale), Reply::Lost { sale }),
            Some(SaleState::Billed) => reply_alone(Reply::WasBilled),
            Some(SaleState::Lost) => reply_alone(Reply::Lost { sale }),
            Some(SaleState::Expired) => reply_alone(Reply::WasExpired),
        }
    }

    // Forgets the oldest sales that are not held at the moment, so that so many are left.
    pub(crate) fn forget_outcome(&self, keep: u64, moment: u64) -> Outcome
        ensures { IsOutcome (forget_sales keep (swept moment self.now.state)) result }
    {
        let count = self.forgettable_at(keep, moment);
        let sales = self.sales() - count;
        let forgotten = self.forgotten() + count;
        if count == 0 {
            return reply_alone(Reply::Trimmed { sales, forgotten });
        }
        reply_to(
            Change::Forgot(forgotten),
            Reply::Trimmed { sales, forgotten },
        )
    }

    // Why there is no sale of that number in the list.
    fn missing_reply(&self, sale: u64) -> Reply
        ensures { result ≡ if nat_le 1 sale && nat_le sale (forgotten self.now.state) then reply.Forgotten else reply.NoSuchSale }
    {
        if 1 <= sale && sale <= self.forgotten() {
            Reply::Forgotten
        } else {
            Reply::NoSuchSale
        }
    }
}
