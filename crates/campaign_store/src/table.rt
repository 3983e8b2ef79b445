//! The table of campaigns by number.
ghost use Rattle.std.specs.Prelude.{◌≡◌, ◌+◌, ◌-◌, ◌<◌, ◌≤◌, ◌^◌, [], ◌∷◌, ◌++◌, length, true, false, Some, None, option_map, IfOk, OnOk, IsOk, MatchOption, slice_set};
ghost use Rattle.std.specs.Option.{option_copied};
ghost use Rattle.std.specs.Result.{result_err};
ghost use Rattle.campaign_store.specs.Counts.{AreOfOne, AreWithin, counts_of, plus, total_of};
ghost use Rattle.campaign_store.specs.Limits.{passed_limit};
ghost use Rattle.campaign_store.specs.declared.record.Record.{Record};
ghost use Rattle.campaign_store.specs.Table.{campaign_at, entries_of, entries_with, live_record, live_records, with_changed, with_entry, with_live};

use crate::counts::Counts;
use crate::limit::Full;
use crate::listed::{Listed, LiveRecord, Snapshot};
use crate::record::SharedRecord;
use campaign::Facts;
use rtb_num::List;
use std::alloc::{AllocError, Global};
use std::marker::Model;
use target_expr::Expr;

/// The campaigns of an exchange. They are numbered from 1 as they are added, and none is ever removed.
///
/// Contracts see the campaigns in order, how many edits made them, and for how many more there is room.
/// All campaigns together are within the limits at all times.
#[derive(Drop)]
pub struct Table {
    campaigns: Vec<Listed>,
    edits: u64,
    // What the records of all campaigns hold.
    total: Counts,
}

impl Model for Table {
    ghost use Rattle.std.specs.Prelude.{◌-◌};
    ghost use Rattle.campaign_store.specs.Kept.{IsTable};
    ghost use Rattle.campaign_store.specs.Table.{TableState};

    ghost Value = { TableState };

    ghost view = { λ t. record { campaigns = t.campaigns.items; edits = t.edits; spare = t.campaigns.cap - t.campaigns.len } };

    ghost invariant = { λ t. IsTable t.campaigns.items t.total };
}

impl Table {
    /// The table without campaigns. It takes no memory.
    pub fn new(alloc: Global) -> Table
        ensures { result ≡ record { campaigns = []; edits = 0; spare = 0 } }
    {
        Table {
            campaigns: Vec::new(alloc),
            edits: 0,
            total: Counts {
                conjunctions: 0,
                values: 0,
                text_bytes: 0,
            },
        }
    }

    /// How many campaigns there are, which is the last one's number: at most 65,536. All limits are kept.
    pub fn count(&self) -> u32
        ensures value { result ≡ length self.now.campaigns }
        ensures few { result ≤ 65536 }
        ensures within { passed_limit (entries_of self.now.campaigns) ≡ None }
    {
        self.campaigns.len() as u32
    }

    /// Whether campaign `n` is live; none where there is no such campaign.
    pub fn live(&self, n: u32) -> Option<bool>
        ensures { result ≡ option_map (λ c. c.live) (campaign_at self.now.campaigns n) }
    {
        let campaign = self.at(n)?;
        Some(campaign.live)
    }

    /// The record of campaign `n`; none where there is no such campaign.
    pub fn get(&self, n: u32) -> Option<&SharedRecord>
        ensures { option_copied result ≡ option_map (λ c. c.entry) (campaign_at self.now.campaigns n) }
    {
        let campaign = self.at(n)?;
        Some(&campaign.entry)
    }

    /// How many edits made the table: additions, changes, pauses and resumptions.
    pub fn edits(&self) -> u64
        ensures { result ≡ self.now.edits }
    {
        self.edits
    }

    // Campaign `n`.
    fn at(&self, n: u32) -> Option<&Listed>
        ensures { option_copied result ≡ campaign_at self.now.campaigns n }
    {
        let place = (n as usize).checked_sub(1)?;
        self.campaigns.get(place)
    }

    // How many records there are with a new one, in place of that of campaign `old` or as one more.
    fn count_with(&self, old: Option<u32>) -> usize
        ensures { (r : Record) → result ≡ length (entries_with old r self.now.campaigns) }
    {
        match old {
            None => self.campaigns.len() + 1,
            Some(_) => self.campaigns.len(),
        }
    }

    // What all records hold with a new one that holds this.
    fn total_with(&self, old: Option<u32>, new: Counts) -> Counts
        requires there { MatchOption old (Unit {0}) (λ n. (1 ≤ n) × (n ≤ length self.now.campaigns)) }
        requires bound { AreOfOne new }
        ensures { (r : Record) → counts_of r ≡ new → result ≡ total_of (entries_with old r self.now.campaigns) }
    {
        match old {
            None => self.total.plus(new),
            Some(n) => self.total_without(n).plus(new),
        }
    }

    // What all records hold but that of campaign `n`.
    fn total_without(&self, n: u32) -> Counts
        requires there { (1 ≤ n) × (n ≤ length self.now.campaigns) }
        ensures value { (r : Record) → plus result (counts_of r) ≡ total_of (slice_set (entries_of self.now.campaigns) (n - 1) r) }
        ensures bound { AreWithin result }
    {
        let campaign = &self.campaigns[n as usize - 1];
        self.total.minus(campaign.entry.counts())
    }

    /// Whether the limits leave room for a record: in place of that of campaign `old`, or as one more.
    /// Else it names the first limit that would be passed.
    pub fn room(&self, old: Option<u32>, facts: &Facts, expr: &Expr) -> Result<(), Full>
        requires there { MatchOption old (Unit {0}) (λ n. (1 ≤ n) × (n ≤ length self.now.campaigns)) }
        ensures { option_map (λ f. f.limit) (result_err result) ≡ passed_limit (entries_with old (record { facts = facts.now; expr = expr.now }) self.now.campaigns) }
    {
        let total = self.total_with(old, Counts::of(facts, expr));
        match total.first_passed(self.count_with(old)) {
            Some(limit) => Err(Full { limit }),
            None => Ok(()),
        }
    }

    /// Makes room for at least one campaign more. Room is never lost, whatever the answer.
    pub fn reserve(&mut self) -> Result<(), AllocError>
        ensures campaigns { self.new.campaigns ≡ self.old.campaigns }
        ensures edits { self.new.edits ≡ self.old.edits }
        ensures spare { OnOk result (1 ≤ self.new.spare) }
        ensures kept { self.old.spare ≤ self.new.spare }
    {
        self.campaigns.reserve(1)
    }

    /// Adds a live campaign. It takes no memory. The campaign's number.
    pub fn add(&mut self, entry: SharedRecord) -> u32
        requires spare { 1 ≤ self.old.spare }
        requires room { passed_limit (entries_with None entry self.old.campaigns) ≡ None }
        requires few { self.old.edits < 2 ^ 63 }
        ensures number { result ≡ length self.old.campaigns + 1 }
        ensures value { self.new ≡ record { campaigns = self.old.campaigns ++ (record { entry = entry; live = true }) ∷ []; edits = self.old.edits + 1; spare = self.old.spare - 1 } }
    {
        self.total = self.total_with(None, entry.counts());
        self.edits += 1;
        self.campaigns.push_reserved(Listed { entry, live: true });
        self.campaigns.len() as u32
    }

    /// Gives campaign `n` another record; it stays live, or paused.
    pub fn change(&mut self, n: u32, entry: SharedRecord)
        requires there { (1 ≤ n) × (n ≤ length self.old.campaigns) }
        requires room { passed_limit (entries_with (Some n) entry self.old.campaigns) ≡ None }
        requires few { self.old.edits < 2 ^ 63 }
        ensures { self.new ≡ record self.old { campaigns = with_changed (with_entry entry) n self.old.campaigns; edits = self.old.edits + 1 } }
    {
        self.total = self.total_with(Some(n), entry.counts());
        self.edits += 1;
        self.campaigns[n as usize - 1].entry = entry;
    }

    /// Takes campaign `n` out of auctions.
    pub fn pause(&mut self, n: u32)
        requires live { option_map (λ c. c.live) (campaign_at self.old.campaigns n) ≡ Some true }
        requires few { self.old.edits < 2 ^ 63 }
        ensures { self.new ≡ record self.old { campaigns = with_changed (with_live false) n self.old.campaigns; edits = self.old.edits + 1 } }
    {
        self.set_live(n, false);
    }

    /// Lets campaign `n` take part in auctions again.
    pub fn resume(&mut self, n: u32)
        requires paused { option_map (λ c. c.live) (campaign_at self.old.campaigns n) ≡ Some false }
        requires few { self.old.edits < 2 ^ 63 }
        ensures { self.new ≡ record self.old { campaigns = with_changed (with_live true) n self.old.campaigns; edits = self.old.edits + 1 } }
    {
        self.set_live(n, true);
    }

    // Campaign `n` is live from now on, or is not.
    fn set_live(&mut self, n: u32, live: bool)
        requires there { (1 ≤ n) × (n ≤ length self.old.campaigns) }
        requires few { self.old.edits < 2 ^ 63 }
        ensures { self.new ≡ record self.old { campaigns = with_changed (with_live live) n self.old.campaigns; edits = self.old.edits + 1 } }
    {
        self.edits += 1;
        self.campaigns[n as usize - 1].live = live;
    }

    /// The live campaigns as they are now. No text is copied.
    pub fn snapshot(&self) -> Result<Snapshot, AllocError>
        ensures edit { IfOk result (λ s. s.edit ≡ self.now.edits) }
        ensures live { IfOk result (λ s. s.live ≡ live_records self.now.campaigns) }
    {
        let live = list_live(*self.campaigns.allocator(), self.campaigns.as_slice())?;
        Ok(Snapshot {
            edit: self.edits,
            live: List::from_vec(live),
        })
    }
}

// The live ones of campaigns that are numbered from 1.
fn list_live(alloc: Global, campaigns: &[Listed]) -> Result<Vec<LiveRecord>, AllocError>
    requires { length campaigns.now ≤ 65536 }
    ensures { IfOk result (λ live. live.items ≡ live_records campaigns.now) }
{
    let mut live = Vec::with_capacity(alloc, campaigns.len())?;
    for (place, campaign) in campaigns.iter().enumerate() {
        push_live(place as u32 + 1, campaign, &mut live)?;
    }
    Ok(live)
}

// Appends campaign `number`, where it is live.
fn push_live(number: u32, campaign: &Listed, live: &mut Vec<LiveRecord>) -> Result<(), AllocError>
    ensures { OnOk result (live.new.items ≡ live.old.items ++ live_record (number, campaign.now)) }
{
    if campaign.live {
        let entry = campaign.entry.share()?;
        live.push(LiveRecord { number, entry })?;
    }
    Ok(())
}
