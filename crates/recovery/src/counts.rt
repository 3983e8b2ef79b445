//! The counts that are told of an exchange.
ghost use Rattle.std.specs.Prelude.{◌≡◌, ◌+◌, ◌++◌, ◌-◌, ◌<◌, ◌≤◌, ◌^◌, List, OnErr, OnOk, Some, decimal, if◌then◌else◌, length, min, slice_get, ℕ};
ghost use Rattle.budget_book.specs.Sales.{totals_of};
ghost use Rattle.plain_exchange.specs.Consistent.{IsConsistent};
ghost use Rattle.plain_exchange.specs.State.{Campaign, forgotten};
ghost use Rattle.recovery.specs.Counts.{campaigns_text, count_text, counts_of, counts_text, sales_text};

use auction_core::Core;
use budget_book::Totals;
use rtb_num::{Txt, write_decimal};
use std::alloc::AllocError;

/// How many campaigns there are, how many of them are live, and how many sales there are, in all and by their
/// states. Sales that were forgotten count too.
#[derive(Clone, Copy)]
pub struct Counts {
    pub campaigns: u64,
    pub live: u64,
    pub sales: u64,
    pub held: u64,
    pub billed: u64,
    pub lost: u64,
    pub expired: u64,
}

impl Counts {
    // The counts of the exchange, by one look at each campaign: its account has what its sales add up to.
    pub(crate) fn of(core: &Core) -> Counts
        ensures { IsConsistent core.now.state → result ≡ counts_of core.now.state }
    {
        let campaigns = core.table().count();
        let mut counts = Counts::none(u64::from(campaigns), all_sales(core));
        for place in 0..campaigns {
            counts.add(is_live(core, place), totals(core, place));
        }
        counts
    }

    // So many campaigns and sales, and none of them looked at.
    fn none(campaigns: u64, sales: u64) -> Counts
        ensures { result ≡ record { campaigns = campaigns; live = 0; sales = sales; held = 0; billed = 0; lost = 0; expired = 0 } }
    {
        Counts {
            campaigns,
            live: 0,
            sales,
            held: 0,
            billed: 0,
            lost: 0,
            expired: 0,
        }
    }

    // One campaign more was looked at.
    fn add(&mut self, live: bool, totals: Totals)
        ensures campaigns { self.new.campaigns ≡ self.old.campaigns }
        ensures sales { self.new.sales ≡ self.old.sales }
        ensures live { self.new.live ≡ min (self.old.live + (if live then 1 else 0)) (2 ^ 64 - 1) }
        ensures held { self.new.held ≡ min (self.old.held + totals.held) (2 ^ 64 - 1) }
        ensures billed { self.new.billed ≡ min (self.old.billed + totals.billed) (2 ^ 64 - 1) }
        ensures lost { self.new.lost ≡ min (self.old.lost + totals.lost) (2 ^ 64 - 1) }
        ensures expired { self.new.expired ≡ min (self.old.expired + totals.expired) (2 ^ 64 - 1) }
    {
        self.live = self.live.saturating_add(u64::from(live));
        self.held = self.held.saturating_add(totals.held);
        self.billed = self.billed.saturating_add(totals.billed);
        self.lost = self.lost.saturating_add(totals.lost);
        self.expired = self.expired.saturating_add(totals.expired);
    }

    // Appends the line that tells them.
    pub(crate) fn put(&self, out: &mut Txt) -> Result<(), AllocError>
        ensures ok { OnOk result (out.new ≡ out.old ++ counts_text self.now) }
        ensures err { OnErr result (out.new ≡ out.old) }
    {
        let before = out.len();
        let done = self.put_all(out);
        out.settle(before, done)
    }

    // The same, but that a front of the line may stay where memory is refused.
    fn put_all(&self, out: &mut Txt) -> Result<(), AllocError>
        ensures ok { OnOk result (out.new ≡ out.old ++ counts_text self.now) }
        ensures front { (more : List ℕ) × (out.new ≡ out.old ++ more) }
    {
        self.put_campaigns(out)?;
        self.put_sales(out)?;
        out.push(b'\n')?;
        Ok(())
    }

    fn put_campaigns(&self, out: &mut Txt) -> Result<(), AllocError>
        ensures ok { OnOk result (out.new ≡ out.old ++ campaigns_text self.now) }
        ensures front { (more : List ℕ) × (out.new ≡ out.old ++ more) }
    {
        put_count(b"campaigns=", self.campaigns, out)?;
        put_count(b" live=", self.live, out)?;
        Ok(())
    }

    fn put_sales(&self, out: &mut Txt) -> Result<(), AllocError>
        ensures ok { OnOk result (out.new ≡ out.old ++ sales_text self.now) }
        ensures front { (more : List ℕ) × (out.new ≡ out.old ++ more) }
    {
        put_count(b" sales=", self.sales, out)?;
        put_count(b" held=", self.held, out)?;
        put_count(b" billed=", self.billed, out)?;
        put_count(b" lost=", self.lost, out)?;
        put_count(b" expired=", self.expired, out)?;
        Ok(())
    }
}

// How many sales there are, the forgotten ones included.
fn all_sales(core: &Core) -> u64
    ensures { result ≡ min (forgotten core.now.state + length core.now.state.sales) (2 ^ 64 - 1) }
{
    core.book().forgotten().saturating_add(core.book().sales())
}

// Whether the campaign at the place, counted from 0, is live.
fn is_live(core: &Core, place: u32) -> bool
    requires there { place < 2 ^ 16 }
    ensures { (c : Campaign) → slice_get core.now.state.campaigns place ≡ Some c → result ≡ c.live }
{
    match core.table().live(place + 1) {
        Some(live) => live,
        None => false,
    }
}

// What the sales of the campaign at the place add up to.
fn totals(core: &Core, place: u32) -> Totals
    requires there { place < length core.now.state.campaigns }
    requires few { place < 2 ^ 16 }
    ensures { (c : Campaign) → slice_get core.now.state.campaigns place ≡ Some c → result ≡ totals_of (place + 1) c.gone core.now.state.sales }
{
    core.book().report(place + 1)
}

// Appends a name and a number.
fn put_count(name: &[u8], count: u64, out: &mut Txt) -> Result<(), AllocError>
    ensures ok { OnOk result (out.new ≡ out.old ++ count_text name.now count) }
    ensures front { (more : List ℕ) × (out.new ≡ out.old ++ more) }
{
    out.extend(name)?;
    write_decimal(count, out)?;
    Ok(())
}
