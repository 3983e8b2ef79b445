//! When a newer version of the index pays.
//!
//! An auction asks each campaign anew that was edited behind the version in which it found: for each impression the
//! conjunctions of its expression. The more of this was done since the last version was built, the more a new one would
//! have saved; so one is due by what was asked, as where skis are rented until the rents come to their price (Karlin and
//! others 1988). By instructions alone the price is 8 asked for each conjunction that is built in. But what is asked is
//! spread over all auctions, while a build takes a processor for milliseconds at once, from those that wait: were one
//! built ten times a second, one answer in a hundred would be late by it. So 128 are asked.
//!
//! What a single auction asks is bounded too. Where what was edited is an eighth of the version, who edits builds it,
//! since nobody waits for an edit as for an auction; and an auction builds one where it would ask more than a part in 128
//! of it: so one auction pays for the build, and those behind it ask little.
//!
//! These words are hints: contracts say nothing of them.
use campaign_store::LiveRecord;
use plain_exchange::Act;
use std::sync::atomic::AtomicU64;
use std::sync::atomic::Ordering::SeqCst;

// How often a conjunction is asked for each that is built into a version.
const ASKED_FOR_ONE: u64 = 128;

// How many times as worn a version is where it is worn out.
const WORN_OUT: u64 = 2;

// A version with fewer conjunctions is worn no sooner than one with so many.
const FEWEST: u64 = 32;

// Which part of a version's conjunctions may be asked anew before who edits builds the next, and before an auction does;
// and how many may be in any case.
const EDITED_PART: u64 = 8;

const ASKED_PART: u64 = 128;

const FREE: u64 = 1024;

/// How worn the present version is.
#[derive(Drop)]
pub(crate) struct Worn {
    // How many conjunctions were asked anew since the last version was built, and how many edits came.
    asked: AtomicU64,
    edits: AtomicU64,
    // How many campaigns the version has, and how many conjunctions they have together.
    campaigns: AtomicU64,
    conjunctions: AtomicU64,
}

impl Worn {
    /// Of a version of these campaigns.
    pub(crate) fn new(live: &[LiveRecord]) -> Worn {
        Worn {
            asked: AtomicU64::new(0),
            edits: AtomicU64::new(0),
            campaigns: AtomicU64::new(live.len() as u64),
            conjunctions: AtomicU64::new(conjunctions_of(live)),
        }
    }

    /// An auction asked so many conjunctions anew.
    pub(crate) fn ask(&self, conjunctions: u64) {
        if conjunctions != 0 {
            self.asked.fetch_add(conjunctions, SeqCst);
        }
    }

    /// The act was carried out.
    pub(crate) fn note(&self, act: &Act) {
        match act {
            Act::Add(..) | Act::Change(..) | Act::Pause(_) | Act::Resume(_) => {
                self.edits.fetch_add(1, SeqCst);
            }
            _ => {}
        }
    }

    /// A version of these campaigns is built.
    pub(crate) fn renew(&self, live: &[LiveRecord]) {
        self.campaigns.store(live.len() as u64, SeqCst);
        self.conjunctions.store(conjunctions_of(live), SeqCst);
        self.asked.store(0, SeqCst);
        self.edits.store(0, SeqCst);
    }

    /// Whether a version is worn. It is told once, so that of several workers one builds the next.
    pub(crate) fn is_told(&self) -> bool {
        self.is_asked(1) || self.is_edited(self.conjunctions.load(SeqCst) / EDITED_PART)
    }

    /// The same where it is worn out.
    pub(crate) fn is_told_out(&self) -> bool {
        self.is_asked(WORN_OUT) || self.is_edited(self.conjunctions.load(SeqCst) / ASKED_PART)
    }

    // Whether so many times as much was asked as a version is worth.
    fn is_asked(&self, times: u64) -> bool {
        let most = self
            .conjunctions
            .load(SeqCst)
            .max(FEWEST)
            .saturating_mul(ASKED_FOR_ONE)
            .saturating_mul(times);
        is_taken(&self.asked, most)
    }

    // Whether so many campaigns were edited that they have this part of the conjunctions.
    fn is_edited(&self, part: u64) -> bool {
        let each = self.conjunctions.load(SeqCst) / self.campaigns.load(SeqCst).max(1);
        is_taken(&self.edits, part.max(FREE) / each.max(1))
    }
}

// Whether the count is above this. It begins again then.
fn is_taken(count: &AtomicU64, most: u64) -> bool {
    count.load(SeqCst) > most && count.swap(0, SeqCst) > most
}

// How many conjunctions they have together.
fn conjunctions_of(live: &[LiveRecord]) -> u64 {
    live.iter().fold(0, |sum, campaign| plus(sum, campaign))
}

fn plus(sum: u64, campaign: &LiveRecord) -> u64 {
    sum.saturating_add(campaign.entry.record().expr.conjunctions() as u64)
}
