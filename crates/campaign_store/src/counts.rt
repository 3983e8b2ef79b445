//! What the campaigns of a table count up to, and the limits that they keep together.
ghost use Rattle.std.specs.Prelude.{◌≡◌};
ghost use Rattle.campaign_store.specs.Counts.{AreOfOne, AreParts, AreWithin, counts_of, first_passed, minus, plus};

use crate::limit::Limit;
use campaign::Facts;
use target_expr::Expr;

const MOST_CAMPAIGNS: usize = 65_536;

const MOST_CONJUNCTIONS: u32 = 1_000_000;

const MOST_VALUES: u32 = 4_194_304;

const MOST_TEXT_BYTES: u32 = 67_108_864;

// What one record holds, or several.
#[derive(Clone, Copy)]
pub(crate) struct Counts {
    pub conjunctions: u32,
    pub values: u32,
    pub text_bytes: u32,
}

impl Counts {
    // What a record holds.
    pub fn of(facts: &Facts, expr: &Expr) -> Counts
        ensures value { result ≡ counts_of (record { facts = facts.now; expr = expr.now }) }
        ensures bound { AreOfOne result }
    {
        Counts {
            conjunctions: expr.conjunctions() as u32,
            values: expr.values() as u32,
            text_bytes: (facts.text_bytes() + expr.text_bytes()) as u32,
        }
    }

    // What all records hold with another one.
    pub fn plus(self, one: Counts) -> Counts
        requires all { AreWithin self }
        requires one { AreOfOne one }
        ensures { result ≡ plus self one }
    {
        Counts {
            conjunctions: self.conjunctions + one.conjunctions,
            values: self.values + one.values,
            text_bytes: self.text_bytes + one.text_bytes,
        }
    }

    // What all records hold without one of them.
    pub fn minus(self, one: Counts) -> Counts
        requires { AreParts self one }
        ensures { result ≡ minus self one }
    {
        Counts {
            conjunctions: self.conjunctions - one.conjunctions,
            values: self.values - one.values,
            text_bytes: self.text_bytes - one.text_bytes,
        }
    }

    // The first limit that so many campaigns that hold this are above.
    pub fn first_passed(self, campaigns: usize) -> Option<Limit>
        ensures { result ≡ first_passed campaigns self }
    {
        if campaigns > MOST_CAMPAIGNS {
            Some(Limit::Campaigns)
        } else if self.conjunctions > MOST_CONJUNCTIONS {
            Some(Limit::Conjunctions)
        } else if self.values > MOST_VALUES {
            Some(Limit::Values)
        } else if self.text_bytes > MOST_TEXT_BYTES {
            Some(Limit::TextBytes)
        } else {
            None
        }
    }
}
