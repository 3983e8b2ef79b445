//! The numbers that are drawn.
ghost use Rattle.std.specs.Prelude.{◌≡◌, ◌<◌, ◌*◌, ◌/◌, ◌%◌, ◌^◌, OnOk, IfOk};
ghost use Rattle.loadgen.specs.Draws.{behind_campaign, behind_request, campaign_draws, drawn, next, request_draws};
ghost use Rattle.loadgen.specs.Pieces.{AreShort};
ghost use Rattle.loadgen.specs.Texts.{campaign_text, request_text};

use crate::campaign::{CampaignDraws, write_campaign};
use crate::request::{RequestDraws, write_over, write_request};
use rtb_num::{Micros, Txt};
use std::alloc::{AllocError, Global};
use std::marker::Model;

// The factor and the addend of Knuth's MMIX.
const FACTOR: u64 = 6_364_136_223_846_793_005;

const ADDEND: u64 = 1_442_695_040_888_963_407;

/// A state that leads to all numbers that are drawn from it. It is no source of secrets: each number tells the rest.
#[derive(Drop)]
pub struct Gen {
    state: u64,
}

impl Model for Gen {
    ghost use Rattle.std.specs.Prelude.{ℕ};

    ghost Value = { ℕ };

    ghost view = { λ x. x.state };
}

impl Gen {
    /// The generator that starts with this state.
    pub fn new(start: u64) -> Gen
        ensures start { result ≡ start }
    {
        Gen { state: start }
    }

    /// The next number below `k`, by the upper 31 bits of the state behind this one: up to a part in 2^31 / `k`, each
    /// comes as often as each other.
    #[tactic(auto, unfolding(crate::specs::Draws::drawn))]
    pub fn draw(&mut self, k: u32) -> u32
        requires some { 0 < k }
        ensures drawn { result ≡ drawn k self.old }
        ensures below { result < k }
        ensures next { self.new ≡ next self.old }
    {
        self.state = next(self.state);
        below(self.state, k)
    }

    /// The body of the next campaign: a bid from 0.1 to 5.09 US dollars per thousand, a budget from 1 to 9 US
    /// dollars, one of eight countries, and in half of them one of four systems that is refused.
    ///
    /// The numbers are drawn also where there is no memory for the body.
    pub fn campaign(&mut self, alloc: Global) -> Result<Txt, AllocError>
        ensures text { IfOk result (λ body. body ≡ campaign_text (campaign_draws self.old)) }
        ensures behind { self.new ≡ behind_campaign self.old }
    {
        let draws = self.draw_campaign();
        write_campaign(alloc, draws)
    }

    /// The body of the next bid request, which has the id `r` and the number: one impression, a floor from 0 to 0.99
    /// US dollars per thousand, one of eight countries, and one of four systems or none.
    ///
    /// The numbers are drawn also where there is no memory for the body.
    pub fn request(&mut self, alloc: Global, number: u32) -> Result<Txt, AllocError>
        ensures text { IfOk result (λ body. body ≡ request_text number (request_draws self.old)) }
        ensures behind { self.new ≡ behind_request self.old }
    {
        let draws = self.draw_request();
        write_request(alloc, number, draws)
    }

    /// The same, in the place of what the text was, and in its memory as far as it goes. Behind an error the text is of no
    /// use.
    pub fn request_into(&mut self, number: u32, body: &mut Txt) -> Result<(), AllocError>
        ensures text { OnOk result (body.new ≡ request_text number (request_draws self.old)) }
        ensures behind { self.new ≡ behind_request self.old }
    {
        let draws = self.draw_request();
        write_over(number, draws, body)
    }

    fn draw_campaign(&mut self) -> CampaignDraws
        ensures draws { result ≡ campaign_draws self.old }
        ensures behind { self.new ≡ behind_campaign self.old }
    {
        let bid = price(10 + self.draw(500));
        let budget = 1 + self.draw(9);
        let country = self.draw(8);
        let system = if self.draw(2) == 1 {
            Some(self.draw(4))
        } else {
            None
        };
        CampaignDraws {
            bid,
            budget,
            country,
            system,
        }
    }

    fn draw_request(&mut self) -> RequestDraws
        ensures draws { result ≡ request_draws self.old }
        ensures short { AreShort result }
        ensures behind { self.new ≡ behind_request self.old }
    {
        let cents = self.draw(100);
        let country = self.draw(8);
        let system = self.draw(5);
        RequestDraws {
            cents,
            country,
            system: if system == 4 { None } else { Some(system) },
        }
    }
}

// The state behind a state.
#[tactic(auto, unfolding(crate::specs::Draws::next))]
fn next(state: u64) -> u64
    ensures { result ≡ next state }
{
    state.wrapping_mul(FACTOR).wrapping_add(ADDEND)
}

// The number below `k` by the upper 31 bits of a state.
fn below(state: u64, k: u32) -> u32
    requires some { 0 < k }
    ensures { result ≡ state / 2 ^ 33 % k }
{
    (state >> 33) as u32 % k
}

// So many cents per thousand.
fn price(cents: u32) -> Micros
    requires few { cents < 1000 }
    ensures { result ≡ 10000 * cents }
{
    match Micros::new(10_000 * u64::from(cents)) {
        Some(price) => price,
        None => unreachable!(),
    }
}
