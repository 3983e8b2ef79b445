//! The body of a campaign.
ghost use Rattle.std.specs.Prelude.{◌≡◌, ◌++◌, List, OnOk, IfOk, Option, ℕ};
ghost use Rattle.loadgen.specs.Texts.{campaign_text, refusal_of, refused_system};

use crate::parts::{put_number, put_price};
use rtb_num::{Micros, Txt};
use std::alloc::{AllocError, Global};

/// What is drawn for a campaign. Systems and countries are told by their numbers.
#[derive(Clone, Copy)]
pub(crate) struct CampaignDraws {
    pub bid: Micros,
    pub budget: u32,
    pub country: u32,
    pub system: Option<u32>,
}

pub(crate) fn write_campaign(alloc: Global, draws: CampaignDraws) -> Result<Txt, AllocError>
    ensures { IfOk result (λ body. body ≡ campaign_text draws) }
{
    let mut body = Txt::new(alloc);
    put_price(
        b"{\"seat\":\"g\",\"adomain\":\"g.example\",\"bid\":",
        draws.bid,
        &mut body,
    )?;
    put_number(
        b",\"budget\":",
        draws.budget,
        b",\"adm\":\"g\",\"crid\":\"g\",\"target\":[[",
        &mut body,
    )?;
    put_number(
        b"{\"attr\":\"country\",\"in\":[\"c",
        draws.country,
        b"\"]}",
        &mut body,
    )?;
    refuse_system(draws.system, &mut body)?;
    body.extend(b"]]}")?;
    Ok(body)
}

fn refuse_system(system: Option<u32>, body: &mut Txt) -> Result<(), AllocError>
    ensures { OnOk result (body.new ≡ body.old ++ refused_system system) }
{
    match system {
        Some(system) => refuse(system, body),
        None => Ok(()),
    }
}

fn refuse(system: u32, body: &mut Txt) -> Result<(), AllocError>
    ensures { OnOk result (body.new ≡ body.old ++ refusal_of system) }
{
    put_number(b",{\"attr\":\"os\",\"not\":[\"o", system, b"\"]}", body)
}
