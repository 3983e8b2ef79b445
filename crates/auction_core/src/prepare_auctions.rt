//! Auctions, prepared.
ghost use Rattle.std.specs.Prelude.{◌≡◌, ◌≤◌, ◌+◌, IfOk, IsTrue, length, map, nat_lt};
ghost use Rattle.auction_core.specs.Auctions.{award_outcome, selling};
ghost use Rattle.auction_core.specs.Draft.{IsDraftOf, IsReady, found_for};
ghost use Rattle.auction_core.specs.Frames.{OnlyRooms};
ghost use Rattle.auction_core.specs.Outcomes.{IsOutcome};
ghost use Rattle.plain_exchange.specs.declared.commands.Command.TheVariants as command;
ghost use Rattle.plain_exchange.specs.State.{limit_of};
ghost use Rattle.plain_exchange.specs.Step.{step};
ghost use Rattle.rtb_types.specs.Valid.{is_valid};

use crate::draft::Draft;
use crate::exchange::Core;
use crate::outcome::{Outcome, reply_alone, reply_to};
use crate::sell::sale_change;
use budget_book::MOST_SALES;
use clearing::Win;
use deal_rules::user_of;
use plain_exchange::{Limit, Reply};
use rtb_num::List;
use rtb_types::BidRequest;
use std::alloc::{AllocError, Global};

impl Core {
    // The draft of an auction.
    pub(crate) fn prepare_auction(
        &mut self,
        alloc: Global,
        request: &BidRequest,
        found: &[List<u32>],
        moment: u64,
    ) -> Result<Draft, AllocError>
        requires valid { IsTrue (is_valid request.now) }
        requires found { found.now ≡ map (found_for self.old.state request.now) request.now.imps }
        ensures draft { IfOk result (λ d. IsDraftOf self.old.settings self.old.state (command.Auction request.now) moment d) }
        ensures ready { IfOk result (λ d. IsReady d self.new) }
        ensures rooms { OnlyRooms self.old self.new }
    {
        let outcome = self.auction_outcome(alloc, request, moment, found)?;
        self.draft(alloc, outcome, moment)
    }

    // Sells the impressions of the request.
    fn auction_outcome(
        &self,
        alloc: Global,
        request: &BidRequest,
        moment: u64,
        found: &[List<u32>],
    ) -> Result<Outcome, AllocError>
        requires valid { IsTrue (is_valid request.now) }
        requires found { found.now ≡ map (found_for self.now.state request.now) request.now.imps }
        ensures { IfOk result (λ o. IsOutcome (step self.now.settings moment self.now.state (command.Auction request.now)) o) }
    {
        let awards = self.awards(alloc, request, moment, found)?;
        self.award_outcome(alloc, request, moment, awards.as_slice())
    }

    // What comes of the awards.
    pub(crate) fn award_outcome(
        &self,
        alloc: Global,
        request: &BidRequest,
        moment: u64,
        awards: &[(u32, Win)],
    ) -> Result<Outcome, AllocError>
        requires few { length awards.now ≤ 64 }
        ensures { IfOk result (λ o. o ≡ award_outcome self.now.settings moment request.now self.now.state awards.now) }
    {
        if awards.is_empty() {
            return Ok(reply_alone(Reply::NoBid));
        }
        if self.is_too_many(awards.len()) {
            return Ok(reply_alone(Reply::Full {
                limit: Limit::Sales,
            }));
        }
        self.sale_outcome(alloc, request, moment, awards)
    }

    // Whether the list has no room for so many sales more.
    fn is_too_many(&self, count: usize) -> bool
        requires few { count ≤ 64 }
        ensures { result ≡ nat_lt (limit_of self.now.settings) (length self.now.state.sales + count) }
    {
        self.sales() + count as u64 > self.settings.limit.min(MOST_SALES)
    }

    // Sells the awards.
    fn sale_outcome(
        &self,
        alloc: Global,
        request: &BidRequest,
        moment: u64,
        awards: &[(u32, Win)],
    ) -> Result<Outcome, AllocError>
        requires few { length awards.now ≤ 64 }
        ensures { IfOk result (λ o. o ≡ selling self.now.settings moment request.now self.now.state awards.now) }
    {
        let due = moment.saturating_add(self.settings.ttl);
        let user = user_of(request);
        let sold = self.list_sales(alloc, request, awards)?;
        let change = sale_change(alloc, awards, due, user)?;
        Ok(reply_to(change, Reply::Sold(sold)))
    }
}
