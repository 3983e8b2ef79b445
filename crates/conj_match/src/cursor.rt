//! A place in a posting list, and how it moves on.
ghost use Rattle.std.specs.Prelude.{◌≡◌, ◌≤◌, ◌<◌, ◌+◌, ◌-◌, ◌*◌, length, false, true, None, slice_get};
ghost use Rattle.conj_match.specs.Place.{HasHead, IsFirstFrom, head_of, number_of, current};
ghost use Rattle.conj_match.specs.Merge.{Passed, current_id, shows_negated, shows_plain};
ghost use Rattle.conj_match.specs.Matching.{digits};
ghost use Rattle.conj_match.specs.Skip.{falls_short};
ghost use Rattle.conj_match.specs.Turn.{reaches};
ghost use Rattle.postings.specs.Order.{IsRising};

use crate::leaping::{halve, leap};
use postings::{Entry, Postings};
use rtb_base::Steps;
use std::marker::Model;
use std::sync::ledger::Ledger;

/// More than any number of a conjunction.
pub(crate) const PAST: u64 = 1 << 32;

/// A place in a posting list. Contracts see the list, the place, counted from 0, and whether the
/// entry there was read.
///
/// It keeps the entry that it stands on, so that looking at it costs nothing.
#[derive(Drop)]
pub struct Cursor<'a> {
    list: &'a Postings,
    place: usize,
    loaded: bool,
    entry: Option<Entry>,
    // The number of the entry, or more than any number where there is none.
    head: u64,
}

impl<'a> Model for Cursor<'a> {
    ghost use Rattle.conj_match.specs.Place.{Place, HasHead, current};
    ghost use Rattle.std.specs.Prelude.{◌≡◌, ◌≤◌, length};

    ghost Value = { Place };

    ghost view = { λ c. record { entries = c.list.now; place = c.place; loaded = c.loaded } };

    ghost invariant = { λ c. (c.place ≤ length c.list.now) × (c.entry ≡ current (record { entries = c.list.now; place = c.place; loaded = c.loaded })) × HasHead c.entry c.head };
}

impl<'a> Cursor<'a> {
    /// The cursor before the first entry is read.
    pub fn start(list: &'a Postings) -> Cursor<'a>
        ensures { result ≡ record { entries = list.now; place = 0; loaded = false } }
    {
        Cursor {
            list,
            place: 0,
            loaded: false,
            entry: None,
            head: PAST,
        }
    }

    /// Reads the entry at the place.
    pub fn load<L: Ledger>(&mut self, steps: &mut Steps<L>)
        ensures value { self.new ≡ record self.old { loaded = true } }
        ensures read { self.old.place < length self.old.entries → steps.new ≡ steps.old + 1 }
        ensures past { length self.old.entries ≤ self.old.place → steps.new ≡ steps.old }
        ensures within { self.new.place ≤ length self.new.entries }
        ensures rising { IsRising self.new.entries }
    {
        self.entry = self.list.at(self.place, steps);
        self.head = head_of(self.entry);
        self.loaded = true;
    }

    /// The entry at the place, or none before it is read and past the end.
    pub fn current(&self) -> Option<Entry>
        ensures value { result ≡ current self.now }
        ensures within { self.now.place ≤ length self.now.entries }
    {
        self.entry
    }

    /// Goes to the next entry and reads it. Past the end it stays.
    pub fn advance<L: Ledger>(&mut self, steps: &mut Steps<L>)
        requires { self.old.loaded ≡ true }
        ensures moved { self.old.place < length self.old.entries → self.new ≡ record self.old { place = self.old.place + 1 } }
        ensures stays { length self.old.entries ≤ self.old.place → self.new ≡ self.old }
        ensures loaded { self.new.loaded ≡ true }
        ensures read { self.old.place + 1 < length self.old.entries → steps.new ≡ steps.old + 1 }
        ensures past { length self.old.entries ≤ self.old.place + 1 → steps.new ≡ steps.old }
    {
        if self.place < self.list.len() {
            self.place += 1;
            self.entry = self.list.at(self.place, steps);
            self.head = head_of(self.entry);
        }
    }

    /// Goes to the first entry, from the present one on, whose number is at least `id`, or past the
    /// end where there is none.
    ///
    /// It looks 1, 2, 4 and so on entries ahead until one is far enough, and then halves the interval.
    /// One step is one entry that is looked at.
    pub fn skip_to<L: Ledger>(&mut self, id: u32, steps: &mut Steps<L>)
        requires { self.old.loaded ≡ true }
        ensures entries { self.new.entries ≡ self.old.entries }
        ensures loaded { self.new.loaded ≡ true }
        ensures first { IsFirstFrom self.old.entries self.old.place id self.new.place }
        ensures cost { steps.new ≤ steps.old + 2 * (self.new.place - self.old.place) }
        ensures digits { steps.new ≤ steps.old + (2 * digits (self.new.place - self.old.place) + 2) }
    {
        if !self.falls_short(id) {
            return;
        }
        self.skip_ahead(id, steps);
    }

    // Skips, where the present entry is not far enough.
    fn skip_ahead<L: Ledger>(&mut self, id: u32, steps: &mut Steps<L>)
        requires loaded { self.old.loaded ≡ true }
        requires short { falls_short id self.old ≡ true }
        ensures entries { self.new.entries ≡ self.old.entries }
        ensures loaded { self.new.loaded ≡ true }
        ensures first { IsFirstFrom self.old.entries self.old.place id self.new.place }
        ensures further { self.old.place < self.new.place }
        ensures cost { steps.new ≤ steps.old + 2 * (self.new.place - self.old.place) }
        ensures digits { steps.new ≤ steps.old + (2 * digits (self.new.place - self.old.place) + 2) }
    {
        let origin = self.place;
        self.advance(steps);
        if !self.falls_short(id) {
            return;
        }
        let reach = leap(self.list, origin, id, steps);
        let reach = halve(self.list, origin, id, reach, steps);
        self.stand(origin + reach.high, reach.entry);
    }

    // Stands on the entry at the place.
    fn stand(&mut self, place: usize, entry: Option<Entry>)
        requires loaded { self.old.loaded ≡ true }
        requires within { place ≤ length self.old.entries }
        requires shown { entry ≡ slice_get self.old.entries place }
        ensures { self.new ≡ record self.old { place = place } }
    {
        self.place = place;
        self.entry = entry;
        self.head = head_of(entry);
    }

    // Whether the entry at the place has a number below `id`.
    fn falls_short(&self, id: u32) -> bool
        ensures value { result ≡ falls_short id self.now }
        ensures within { self.now.place ≤ length self.now.entries }
        ensures rising { IsRising self.now.entries }
    {
        let _ = self.list.len();
        self.head < u64::from(id)
    }

    /// Goes past each entry whose number is at most `id`, from the present one on.
    pub(crate) fn pass<L: Ledger>(&mut self, id: u32, steps: &mut Steps<L>)
        requires { self.old.loaded ≡ true }
        ensures passed { Passed id self.old self.new }
        ensures cost { steps.new ≤ steps.old + (self.new.place - self.old.place) }
    {
        while self.reaches(id) {
            self.advance(steps);
        }
    }

    /// Whether the entry at the place has a number that is at most `id`.
    #[inline(always)]
    pub(crate) fn reaches(&self, id: u32) -> bool
        ensures value { result ≡ reaches id self.now }
        ensures within { self.now.place ≤ length self.now.entries }
    {
        self.head <= u64::from(id)
    }

    /// The number of the entry at the place, or `PAST`.
    #[inline(always)]
    pub(crate) fn head(&self) -> u64
        ensures value { result ≡ head_of self.now }
        ensures number { number_of result ≡ current_id self.now }
    {
        self.head
    }

    /// The number of the entry at the place.
    pub(crate) fn current_id(&self) -> Option<u32>
        ensures { result ≡ current_id self.now }
    {
        self.entry.map(|entry| entry.id)
    }

    /// Whether the entry at the place is a negated one of the conjunction.
    pub(crate) fn shows_negated(&self, id: u32) -> bool
        ensures { result ≡ shows_negated id self.now }
    {
        self.entry
            .is_some_and(|entry| entry.id == id && entry.negated)
    }

    /// Whether the entry at the place is another one of the conjunction.
    pub(crate) fn shows_plain(&self, id: u32) -> bool
        ensures { result ≡ shows_plain id self.now }
    {
        self.entry
            .is_some_and(|entry| entry.id == id && !entry.negated)
    }
}

// The number of the entry, or `PAST`.
#[inline(always)]
fn head_of(entry: Option<Entry>) -> u64
    ensures { HasHead entry result }
{
    match entry {
        Some(entry) => u64::from(entry.id),
        None => PAST,
    }
}
