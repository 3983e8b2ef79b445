//! What an auction sells, prepared.
ghost use Rattle.std.specs.Prelude.{◌≡◌, ◌≤◌, ◌-◌, ◌++◌, [], IfOk, List, OnOk, Option, length, map, option_and_then, option_map, option_to_list, slice_get};
ghost use Rattle.std.specs.Option.{option_copied};
ghost use Rattle.auction_core.specs.Auctions.{item_due};
ghost use Rattle.plain_exchange.specs.Step.{all_sold_as, deal_of, sold_as, sold_change};
ghost use Rattle.rtb_types.specs.declared.request.Imp.{Imp as Impression};

use crate::exchange::Core;
use clearing::Win;
use plain_exchange::{Change, SharedRecord, Sold, SoldItem};
use rtb_num::{List, Nanos, Txt};
use rtb_types::{BidRequest, Deal};
use std::alloc::{AllocError, Global};

impl Core {
    // The awards as they are answered.
    pub(crate) fn list_sales(
        &self,
        alloc: Global,
        request: &BidRequest,
        awards: &[(u32, Win)],
    ) -> Result<List<Sold>, AllocError>
        requires few { length awards.now ≤ 64 }
        ensures { IfOk result (λ sold. sold ≡ all_sold_as self.now.state request.now awards.now) }
    {
        let mut all = List::with_capacity(alloc, awards.len())?;
        let first = self.forgotten_count() + self.sales() + 1;
        for place in 0..awards.len() {
            let sold = self.sale_of_award(request, &awards[place], first + place as u64)?;
            push_sold(&mut all, sold)?;
        }
        Ok(all)
    }

    // The award as it is answered, with the number of its sale.
    fn sale_of_award(
        &self,
        request: &BidRequest,
        award: &(u32, Win),
        sale: u64,
    ) -> Result<Option<Sold>, AllocError>
        ensures { IfOk result (λ sold. sold ≡ sold_as self.now.state request.now (sale, award.now)) }
    {
        match self.table.get(award.1.campaign) {
            None => Ok(None),
            Some(entry) => Ok(Some(sold_of(request, award, sale, entry)?)),
        }
    }
}

// The award as it is answered, with what its campaign states.
fn sold_of(
    request: &BidRequest,
    award: &(u32, Win),
    sale: u64,
    entry: &SharedRecord,
) -> Result<Sold, AllocError>
    ensures { IfOk result (λ s. s ≡ record { imp = award.now.0; sale = sale; price = award.now.1.price; deal = deal_of request.now award.now.0 award.now.1.pool; campaign = award.now.1.campaign; «record» = entry.now }) }
{
    let deal = deal_id(request, award.0, award.1.pool)?;
    let record = entry.share()?;
    Ok(Sold {
        imp: award.0,
        sale,
        price: award.1.price,
        deal,
        campaign: award.1.campaign,
        record,
    })
}

fn push_sold(all: &mut List<Sold>, sold: Option<Sold>) -> Result<(), AllocError>
    ensures { OnOk result (all.new ≡ all.old ++ option_to_list sold) }
{
    if let Some(sold) = sold {
        all.push(sold)?;
    }
    Ok(())
}

// The id of the deal of a pool; the public pool has none.
fn deal_id(request: &BidRequest, imp: u32, pool: usize) -> Result<Option<Txt>, AllocError>
    ensures { IfOk result (λ id. id ≡ deal_of request.now imp pool) }
{
    if pool == 0 {
        return Ok(None);
    }
    match deal_at(request, imp as usize, pool - 1) {
        None => Ok(None),
        Some(deal) => Ok(Some(deal.id.copy()?)),
    }
}

fn deal_at(request: &BidRequest, imp: usize, place: usize) -> Option<&Deal>
    ensures { option_copied result ≡ option_and_then (λ (i : Impression). slice_get i.pmp.deals place) (slice_get request.now.imps imp) }
{
    request.imps.get(imp)?.pmp.deals.get(place)
}

// The list, where all could be put there. A generic type is let go of in one step.
pub(crate) fn filled<T: Drop>(
    all: List<T>,
    done: Result<(), AllocError>,
) -> Result<List<T>, AllocError>
    ensures { (items : _) → OnOk done (all ≡ items) → IfOk result (λ l. l ≡ items) }
{
    done?;
    Ok(all)
}

// What was sold, as a change.
pub(crate) fn sale_change(
    alloc: Global,
    awards: &[(u32, Win)],
    due: u64,
    user: Option<&Txt>,
) -> Result<Change, AllocError>
    ensures { IfOk result (λ c. c ≡ sold_change (option_copied user.entry) (map (item_due due) awards.now)) }
{
    let items = items(alloc, awards, due)?;
    match user {
        None => Ok(Change::Sold(items)),
        Some(user) => Ok(Change::SoldTo(user.copy()?, items)),
    }
}

fn items(alloc: Global, awards: &[(u32, Win)], due: u64) -> Result<List<SoldItem>, AllocError>
    ensures { IfOk result (λ items. items ≡ map (item_due due) awards.now) }
{
    let mut all = List::with_capacity(alloc, awards.len())?;
    let done = put_items(&mut all, awards, due);
    filled(all, done)
}

fn put_items(all: &mut List<SoldItem>, awards: &[(u32, Win)], due: u64) -> Result<(), AllocError>
    requires { all.old ≡ [] }
    ensures { OnOk result (all.new ≡ map (item_due due) awards.now) }
{
    for award in awards {
        all.push(item(&award.1, due))?;
    }
    Ok(())
}

fn item(win: &Win, due: u64) -> SoldItem
    ensures { result ≡ record { campaign = win.now.campaign; price = win.now.price; due = due } }
{
    SoldItem {
        campaign: win.campaign,
        price: Nanos::from(win.price),
        due,
    }
}
