//! The messages of a run, in their order.
ghost use Rattle.std.specs.Prelude.{◌≡◌, IfOk, OnOk, codes};
ghost use Rattle.loadgen.specs.Draws.{behind_campaign, behind_request};
ghost use Rattle.made_run.specs.Runs.{campaign_post, post, request_post};
ghost use Rattle.made_run.specs.Standing.{IsPostTo};

use http_wire::Message;
use loadgen::Gen;
use rtb_num::Txt;
use std::alloc::{AllocError, Global};

/// How many campaigns there are.
pub(crate) const CAMPAIGNS: u32 = 100;

/// The message of the next campaign.
#[tactic(auto, unfolding(crate::specs::Runs::campaign_post))]
pub(crate) fn next_campaign(alloc: Global, drawn: &mut Gen) -> Result<Message, AllocError>
    ensures message { IfOk result (λ m. m ≡ campaign_post drawn.old) }
    ensures behind { drawn.new ≡ behind_campaign drawn.old }
{
    let body = drawn.campaign(alloc)?;
    post(alloc, b"/campaign", body)
}

// Where bid requests are posted.
const AUCTION: &[u8] = b"/openrtb2/auction";

/// A bid request without a body, in whose place others are drawn.
pub(crate) fn blank_request(alloc: Global) -> Result<Message, AllocError>
    ensures { IfOk result (λ m. IsPostTo (codes "/openrtb2/auction") m) }
{
    post(alloc, AUCTION, Txt::new(alloc))
}

/// Draws the next bid request, which has this number, in the place of another.
#[tactic(auto, unfolding(crate::specs::Runs::request_post))]
pub(crate) fn next_request(
    drawn: &mut Gen,
    number: u32,
    message: &mut Message,
) -> Result<(), AllocError>
    requires post { IsPostTo (codes "/openrtb2/auction") message.old }
    ensures post { IsPostTo (codes "/openrtb2/auction") message.new }
    ensures message { OnOk result (message.new ≡ request_post number drawn.old) }
    ensures behind { drawn.new ≡ behind_request drawn.old }
{
    drawn.request_into(number, &mut message.body)
}

fn post(alloc: Global, target: &[u8], body: Txt) -> Result<Message, AllocError>
    ensures { IfOk result (λ m. m ≡ post target.now body) }
{
    let method = Txt::from_slice(alloc, b"POST")?;
    let target = Txt::from_slice(alloc, target)?;
    Ok(Message {
        method,
        target,
        body,
        closes: false,
    })
}
