//! What the rules look at, and the rules.
ghost use Rattle.std.specs.Prelude.{◌≡◌, ◌∷◌, ◌++◌, [], false, find, not, option_map};
ghost use Rattle.std.specs.List.{list_any};
ghost use Rattle.std.specs.Option.{option_map_or};
ghost use Rattle.campaign.specs.Kept.{size_of};
ghost use Rattle.deal_rules.specs.Offers.{first_reason, is_excluded};
ghost use Rattle.deal_rules.specs.Rules.{blocked_attributes_of, common_rules, is_over, public_rules, sizes_of, takes_size, test_of};
ghost use Rattle.deal_rules.specs.Seen.{opportunity_seen};
ghost use Rattle.deal_rules.specs.declared.rule.Rule.TheVariants as rule;

use crate::asked::{Asked, AskedImp};
use crate::lists::{is_usd, takes_size};
use crate::rule::Rule;
use campaign::{Cap, Facts};
use rtb_num::Nanos;
use rtb_types::{Imp, Size};

// All rules, in the order in which they are asked.
const RULES: [Rule; 14] = [
    Rule::Request,
    Rule::NoBanner,
    Rule::Size,
    Rule::Attribute,
    Rule::Secure,
    Rule::SeatNotAllowed,
    Rule::SeatBlocked,
    Rule::Category,
    Rule::Advertiser,
    Rule::Budget,
    Rule::Capped,
    Rule::Private,
    Rule::Currency,
    Rule::Floor,
];

// How many of them, the first, are for each pool; the others are for the public pool alone.
const COMMON: usize = 11;

/// An impression of a request that a campaign may offer for.
#[derive(Clone, Copy)]
pub(crate) struct Opportunity<'o, 'a> {
    pub asked: &'o Asked<'a>,
    pub imp: &'o AskedImp<'a>,
    pub facts: &'o Facts,
    /// What is free of the campaign's budget.
    pub free: Nanos,
    /// How many sales to the request's user count for the campaign's cap, where it has a user.
    pub shown: Option<u64>,
}

impl Opportunity<'_, '_> {
    /// Whether a rule for each pool excludes the campaign that asks the impression, or whether the request sells. Short
    /// tests come first.
    pub fn is_excluded_at_sight(&self) -> bool
        ensures { result ≡ list_any (λ r. test_of r (opportunity_seen self.now)) (rule.NoBanner ∷ rule.Secure ∷ rule.Size ∷ rule.Request ∷ rule.Attribute ∷ []) }
    {
        self.is_excluded_by(Rule::NoBanner)
            || self.is_excluded_by(Rule::Secure)
            || self.is_excluded_by(Rule::Size)
            || self.is_excluded_by(Rule::Request)
            || self.is_excluded_by(Rule::Attribute)
    }

    /// Whether a rule for the public pool excludes it there.
    #[tactic(auto, unfolding(crate::specs::Rules::public_rules))]
    pub fn is_excluded_in_public(&self) -> bool
        ensures { result ≡ is_excluded public_rules (opportunity_seen self.now) }
    {
        self.is_excluded_by(Rule::Floor)
            || self.is_excluded_by(Rule::Private)
            || self.is_excluded_by(Rule::Currency)
    }

    /// The first rule for each pool that excludes it.
    pub fn common_reason(&self) -> Option<Rule>
        ensures { result ≡ first_reason common_rules (opportunity_seen self.now) }
    {
        self.first_reason(&RULES[..COMMON]).copied()
    }

    /// The first of all rules that excludes it.
    pub fn reason_of_all(&self) -> Option<Rule>
        ensures { result ≡ first_reason (common_rules ++ public_rules) (opportunity_seen self.now) }
    {
        self.first_reason(&RULES).copied()
    }

    fn first_reason<'r>(&self, rules: &'r [Rule]) -> Option<&'r Rule>
        ensures { option_map (λ r. r.now) result ≡ find (λ r. test_of r (opportunity_seen self.now)) rules.now }
    {
        rules.iter().find(|rule| self.is_excluded_by(**rule))
    }

    // Whether the rule excludes it.
    #[inline(always)]
    fn is_excluded_by(&self, rule: Rule) -> bool
        ensures { result ≡ test_of rule (opportunity_seen self.now) }
    {
        match rule {
            Rule::Request => self.asked.is_closed(),
            Rule::NoBanner => self.imp.imp().banner.is_none(),
            Rule::Size => is_wrong_size(self.imp.imp(), self.facts),
            Rule::Attribute => self.imp.blocks_one_of(self.facts.attr().as_slice()),
            Rule::Secure => self.imp.imp().secure && !self.facts.secure(),
            Rule::SeatNotAllowed => !self.asked.allows_seat(self.facts.seat()),
            Rule::SeatBlocked => self.asked.blocks_seat(self.facts.seat()),
            Rule::Category => self.asked.blocks_one_of(self.facts.cat().as_slice()),
            Rule::Advertiser => self.asked.blocks_advertiser(self.facts.adomain()),
            Rule::Budget => self.free < Nanos::from(self.facts.bid()),
            Rule::Capped => is_capped(self.facts.cap(), self.shown),
            Rule::Private => self.imp.imp().pmp.private_auction,
            Rule::Currency => !is_usd(&self.imp.imp().currency),
            Rule::Floor => self.facts.bid() < self.imp.imp().floor,
        }
    }
}

// Whether the creative has a size, and the banner others.
fn is_wrong_size(imp: &Imp, facts: &Facts) -> bool
    ensures { result ≡ option_map_or (λ p. not (takes_size (sizes_of imp.now) p)) (size_of facts.now) false }
{
    match facts.size() {
        Some(size) => !takes_size(sizes_of(imp), size),
        None => false,
    }
}

/// The sizes that fit; none where each does.
pub(crate) fn sizes_of(imp: &Imp) -> &[Size]
    ensures { result.now ≡ sizes_of imp.now }
{
    match &imp.banner {
        Some(banner) => banner.sizes.as_slice(),
        None => &[],
    }
}

/// The attributes that are blocked.
pub(crate) fn blocked_attributes_of(imp: &Imp) -> &[i32]
    ensures { result.now ≡ blocked_attributes_of imp.now }
{
    match &imp.banner {
        Some(banner) => banner.battr.as_slice(),
        None => &[],
    }
}

/// Whether a cap leaves no sale to the user, or to nobody.
pub(crate) fn is_capped(cap: Option<Cap>, shown: Option<u64>) -> bool
    ensures { result ≡ option_map_or (is_over shown) cap false }
{
    match cap {
        Some(cap) => is_over(shown, cap),
        None => false,
    }
}

fn is_over(shown: Option<u64>, cap: Cap) -> bool
    ensures { result ≡ is_over shown cap }
{
    match shown {
        Some(times) => u64::from(cap.count()) <= times,
        None => true,
    }
}
