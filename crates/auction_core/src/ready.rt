//! What carrying out an effect takes is made ready: all that may want memory.
ghost use Rattle.std.specs.Prelude.{◌≡◌, ◌≤◌, [], IfOk, OnOk, Some, map};
ghost use Rattle.std.specs.Option.{option_copied};
ghost use Rattle.auction_core.specs.Frames.{OnlyRooms};
ghost use Rattle.auction_core.specs.Putting.{HasRoom, keys_for, memory_of, sales_in};
ghost use Rattle.auction_core.specs.declared.draft.Memory.TheVariants as held;
ghost use Rattle.plain_exchange.specs.declared.changes.SoldItem.{SoldItem as AnItem};

use crate::draft::Memory;
use crate::exchange::Core;
use crate::sell::filled;
use budget_book::{SaleRow, UserKey};
use campaign::Facts;
use campaign_store::make_record;
use plain_exchange::{Change, SharedRecord, SoldItem};
use rtb_num::{List, Txt};
use std::alloc::{AllocError, Global};
use target_expr::Expr;

impl Core {
    // The memory that carrying the change out takes, and room for it. Only rooms change.
    pub(crate) fn make_ready(
        &mut self,
        alloc: Global,
        change: &Change,
    ) -> Result<Memory, AllocError>
        requires few { sales_in change.now ≤ 67108864 }
        ensures memory { IfOk result (λ m. m ≡ memory_of change.now) }
        ensures room { OnOk result (HasRoom change.now self.new) }
        ensures rooms { OnlyRooms self.old self.new }
    {
        self.reserve(change)?;
        memory_for(alloc, change)
    }

    // Room for the sales and campaigns that it adds.
    fn reserve(&mut self, change: &Change) -> Result<(), AllocError>
        requires few { sales_in change.now ≤ 67108864 }
        ensures room { OnOk result (HasRoom change.now self.new) }
        ensures rooms { OnlyRooms self.old self.new }
    {
        match change {
            Change::Sold(items) => self.reserve_sales(items.len() as u32),
            Change::SoldTo(_, items) => self.reserve_sales(items.len() as u32),
            Change::KeptSale(_) => self.reserve_sales(1),
            Change::Added(_, _) | Change::Kept(_) => self.reserve_campaign(),
            Change::Swept | Change::Changed(_, _, _) => Ok(()),
            Change::Paused(_) | Change::Resumed(_) => Ok(()),
            Change::Billed(_) | Change::Lost(_) | Change::Forgot(_) => Ok(()),
        }
    }

    // Room for so many more sales.
    fn reserve_sales(&mut self, sales: u32) -> Result<(), AllocError>
        ensures room { OnOk result (sales ≤ self.new.sale_room) }
        ensures rooms { OnlyRooms self.old self.new }
    {
        self.book.reserve_room(sales, 0)
    }

    fn reserve_campaign(&mut self) -> Result<(), AllocError>
        ensures room { OnOk result (1 ≤ self.new.campaign_room) }
        ensures rooms { OnlyRooms self.old self.new }
    {
        self.table.reserve()?;
        self.book.reserve_room(0, 1)
    }
}

// The memory that it takes.
fn memory_for(alloc: Global, change: &Change) -> Result<Memory, AllocError>
    ensures { IfOk result (λ m. m ≡ memory_of change.now) }
{
    match change {
        Change::Sold(_) => Ok(Memory::Keys(List::new(alloc))),
        Change::SoldTo(user, items) => keys_of(alloc, user, items.as_slice()),
        Change::Added(facts, expr) => entry_of(alloc, facts, expr),
        Change::Changed(_, facts, expr) => entry_of(alloc, facts, expr),
        Change::Kept(kept) => entry_of(alloc, &kept.facts, &kept.expr),
        Change::KeptSale(row) => sale_of(alloc, row),
        Change::Swept | Change::Paused(_) | Change::Resumed(_) => Ok(Memory::Nothing),
        Change::Billed(_) | Change::Lost(_) | Change::Forgot(_) => Ok(Memory::Nothing),
    }
}

fn entry_of(alloc: Global, facts: &Facts, expr: &Expr) -> Result<Memory, AllocError>
    ensures { IfOk result (λ m. m ≡ held.Entry (record { facts = facts.now; expr = expr.now })) }
{
    let entry = copy_entry(alloc, facts, expr)?;
    Ok(Memory::Entry(entry))
}

fn copy_entry(alloc: Global, facts: &Facts, expr: &Expr) -> Result<SharedRecord, AllocError>
    ensures { IfOk result (λ r. r ≡ record { facts = facts.now; expr = expr.now }) }
{
    let expr = expr.copy()?;
    let facts = facts.copy()?;
    make_record(alloc, facts, expr)
}

// A key of the user for each item.
fn keys_of(alloc: Global, user: &Txt, items: &[SoldItem]) -> Result<Memory, AllocError>
    ensures { IfOk result (λ m. m ≡ held.Keys (keys_for (Some user.now) items.now)) }
{
    let keys = keys(alloc, user, items)?;
    Ok(Memory::Keys(keys))
}

fn keys(alloc: Global, user: &Txt, items: &[SoldItem]) -> Result<List<UserKey>, AllocError>
    ensures { IfOk result (λ keys. keys ≡ keys_for (Some user.now) items.now) }
{
    let mut all = List::with_capacity(alloc, items.len())?;
    let done = put_keys(&mut all, alloc, user, items);
    filled(all, done)
}

fn put_keys(
    all: &mut List<UserKey>,
    alloc: Global,
    user: &Txt,
    items: &[SoldItem],
) -> Result<(), AllocError>
    requires { all.old ≡ [] }
    ensures { OnOk result (all.new ≡ map (λ (item : AnItem). user.now) items.now) }
{
    for _item in items {
        let key = UserKey::make(alloc, user.as_bytes())?;
        all.push(key)?;
    }
    Ok(())
}

// The sale, and the key of its user.
fn sale_of(alloc: Global, row: &SaleRow) -> Result<Memory, AllocError>
    ensures { IfOk result (λ m. m ≡ held.Sale row.now row.now.user) }
{
    let (copy, key) = copy_sale(alloc, row)?;
    Ok(Memory::Sale(copy, key))
}

fn copy_sale(alloc: Global, row: &SaleRow) -> Result<(SaleRow, Option<UserKey>), AllocError>
    ensures { IfOk result (λ p. p ≡ (row.now, row.now.user)) }
{
    let copy = copy_row(row)?;
    let key = key_of(alloc, row.user.as_ref())?;
    Ok((copy, key))
}

fn copy_row(row: &SaleRow) -> Result<SaleRow, AllocError>
    ensures { IfOk result (λ r. r ≡ row.now) }
{
    let user = copy_user(row.user.as_ref())?;
    Ok(SaleRow {
        campaign: row.campaign,
        price: row.price,
        moment: row.moment,
        due: row.due,
        state: row.state,
        user,
    })
}

fn copy_user(user: Option<&Txt>) -> Result<Option<Txt>, AllocError>
    ensures { IfOk result (λ u. u ≡ option_copied user.entry) }
{
    match user {
        None => Ok(None),
        Some(user) => Ok(Some(user.copy()?)),
    }
}

fn key_of(alloc: Global, user: Option<&Txt>) -> Result<Option<UserKey>, AllocError>
    ensures { IfOk result (λ key. key ≡ option_copied user.entry) }
{
    match user {
        None => Ok(None),
        Some(user) => Ok(Some(UserKey::make(alloc, user.as_bytes())?)),
    }
}
