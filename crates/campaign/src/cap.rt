//! How often a campaign may be shown to one user, and within how many seconds.
ghost use Rattle.std.specs.Prelude.{◌≡◌, ◌≤◌};
ghost use Rattle.campaign.specs.Caps.{cap_of};

use std::marker::Model;

/// The most times that a cap lets a campaign be shown.
pub const MOST_TIMES: u32 = 1_000;

/// The longest time that a cap speaks of, in seconds: a year.
pub const MOST_SECONDS: u32 = 31_536_000;

/// How often one user is shown a campaign: so many times in so many seconds.
///
/// Contracts see it as these two numbers.
#[derive(Clone, Copy)]
pub struct Cap {
    count: u32,
    seconds: u32,
}

impl Model for Cap {
    ghost use Rattle.std.specs.Prelude.{IsTrue};
    ghost use Rattle.campaign.specs.Caps.{CapTerms, is_cap};

    ghost Value = { CapTerms };

    ghost view = { λ c. record { count = c.count; seconds = c.seconds } };

    ghost invariant = { λ c. IsTrue (is_cap c.count c.seconds) };

    ghost inverse = { λ t. record { count = t.count; seconds = t.seconds } };
}

impl Cap {
    /// The cap, or none where `count` is not from 1 to 1,000 or `seconds` is not from 1 to 31,536,000.
    pub fn new(count: u32, seconds: u32) -> Option<Cap>
        ensures { result ≡ cap_of count seconds }
    {
        if 1 <= count && count <= MOST_TIMES && 1 <= seconds && seconds <= MOST_SECONDS {
            Some(Cap { count, seconds })
        } else {
            None
        }
    }

    /// How many times.
    pub fn count(self) -> u32
        ensures value { result ≡ self.count }
        ensures some { 1 ≤ result }
        ensures bound { result ≤ 1000 }
    {
        self.count
    }

    /// In how many seconds.
    pub fn seconds(self) -> u32
        ensures value { result ≡ self.seconds }
        ensures some { 1 ≤ result }
        ensures bound { result ≤ 31536000 }
    {
        self.seconds
    }
}
