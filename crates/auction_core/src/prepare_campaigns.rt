//! Commands on campaigns, prepared.
ghost use Rattle.std.specs.Prelude.{ℕ, IsTrue, is_some};
ghost use Rattle.auction_core.specs.Outcomes.{IsOutcome};
ghost use Rattle.plain_exchange.specs.State.{State, campaign_at, swept};
ghost use Rattle.plain_exchange.specs.Step.{at_campaign, pause_campaign, resume_campaign, told, unchanged};

use crate::draft::Answer;
use crate::exchange::Core;
use crate::outcome::{Outcome, reply_alone, reply_to};
use plain_exchange::{Change, Look, Reply};

impl Core {
    // Takes campaign `n` out of auctions.
    pub(crate) fn pause_outcome(&self, n: u64) -> Outcome
        ensures { (m : ℕ) → IsOutcome (at_campaign (swept m self.now.state) n (pause_campaign n (swept m self.now.state))) result }
    {
        match self.number(n) {
            None => reply_alone(Reply::NoSuchCampaign),
            Some(n) => self.pause_there(n),
        }
    }

    fn pause_there(&self, n: u32) -> Outcome
        requires there { IsTrue (is_some (campaign_at self.now.state n)) }
        ensures { (m : ℕ) → IsOutcome (at_campaign (swept m self.now.state) n (pause_campaign n (swept m self.now.state))) result }
    {
        if self.is_live(n) {
            reply_to(Change::Paused(n), Reply::Paused { n })
        } else {
            reply_alone(Reply::Paused { n })
        }
    }

    // Lets campaign `n` take part in auctions again.
    pub(crate) fn resume_outcome(&self, n: u64) -> Outcome
        ensures { (m : ℕ) → IsOutcome (at_campaign (swept m self.now.state) n (resume_campaign n (swept m self.now.state))) result }
    {
        match self.number(n) {
            None => reply_alone(Reply::NoSuchCampaign),
            Some(n) => self.resume_there(n),
        }
    }

    fn resume_there(&self, n: u32) -> Outcome
        requires there { IsTrue (is_some (campaign_at self.now.state n)) }
        ensures { (m : ℕ) → IsOutcome (at_campaign (swept m self.now.state) n (resume_campaign n (swept m self.now.state))) result }
    {
        if self.is_live(n) {
            reply_alone(Reply::Resumed { n })
        } else {
            reply_to(Change::Resumed(n), Reply::Resumed { n })
        }
    }
}

// What a look is told once what is due has expired.
pub(crate) fn look_outcome(look: &Look) -> Outcome
    ensures { (m : ℕ) (s : State) → IsOutcome (unchanged (swept m s) (told (swept m s) look.now)) result }
{
    Outcome {
        answer: Answer::Look(*look),
        change: None,
    }
}
