//! Effects that fit are put into the state: the one way in which it changes. It takes no memory.
ghost use Rattle.std.specs.Prelude.{◌≡◌, ◌≤◌, ◌<◌, ◌+◌, ◌^◌, ℕ, IsTrue, List, Option, is_some, length};
ghost use Rattle.std.specs.Option.{option_copied};
ghost use Rattle.auction_core.specs.Putting.{HasRoom, Puts, keys_for, memory_of};
ghost use Rattle.auction_core.specs.declared.draft.Memory.TheVariants as held;
ghost use Rattle.budget_book.specs.declared.sales.SaleRow.{SaleRow as ASaleRow};
ghost use Rattle.budget_book.specs.declared.sales.SaleState.{SaleState};
ghost use Rattle.campaign_store.specs.declared.record.Record.{Record};
ghost use Rattle.plain_exchange.specs.Effects.{applied, change_applied, edits_in, fits, on_campaign, on_sale, only_if, with_added, with_changed, with_forgotten, with_items, with_paused, with_resumed, with_settled};
ghost use Rattle.plain_exchange.specs.State.{is_any_due, swept};

use crate::draft::Memory;
use crate::exchange::Core;
use budget_book::{SaleRow, UserKey};
use plain_exchange::{Change, Effect, SharedRecord, SoldItem};
use rtb_num::{List, Txt};

impl Core {
    // Carries out an effect that fits, with the memory that it takes.
    pub(crate) fn put(&mut self, effect: &Effect, memory: Memory)
        requires fits { IsTrue (fits effect.now self.old.state) }
        requires memory { memory ≡ memory_of effect.now.change }
        requires room { HasRoom effect.now.change self.old }
        requires few { self.old.edits + edits_in effect.now.change ≤ 2 ^ 63 }
        ensures { Puts (applied effect.now self.old.state) (edits_in effect.now.change) self.old self.new }
    {
        self.put_change(&effect.change, effect.moment, memory);
    }

    // The same, by the change and its moment.
    fn put_change(&mut self, change: &Change, moment: u64, memory: Memory)
        requires fits { IsTrue (is_some (change_applied change.now moment self.old.state)) }
        requires memory { memory ≡ memory_of change.now }
        requires room { HasRoom change.now self.old }
        requires few { self.old.edits + edits_in change.now ≤ 2 ^ 63 }
        ensures { Puts (change_applied change.now moment self.old.state) (edits_in change.now) self.old self.new }
    {
        match change {
            Change::Swept => {
                drop(memory);
                self.put_expiry(moment)
            }
            Change::Sold(items) => self.put_sales(None, items.as_slice(), moment, keys_in(memory)),
            Change::Added(_, _) => self.put_addition(entry_in(memory), moment),
            Change::Changed(n, _, _) => self.put_record(*n, entry_in(memory), moment),
            Change::Paused(n) => {
                drop(memory);
                self.put_pause(*n, moment)
            }
            Change::Resumed(n) => {
                drop(memory);
                self.put_resumption(*n, moment)
            }
            Change::Billed(sale) => {
                drop(memory);
                self.put_billing(*sale, moment)
            }
            Change::Lost(sale) => {
                drop(memory);
                self.put_loss(*sale, moment)
            }
            Change::Forgot(forgotten) => {
                drop(memory);
                self.put_forgetting(*forgotten, moment)
            }
            Change::SoldTo(user, items) => {
                self.put_sales(Some(user), items.as_slice(), moment, keys_in(memory))
            }
            Change::Kept(kept) => { self.put_kept(entry_in(memory), kept.live, kept.gone, moment) }
            Change::KeptSale(_) => self.put_kept_sale(sale_in(memory), moment),
        }
    }

    // Held sales expire.
    fn put_expiry(&mut self, moment: u64)
        requires fits { IsTrue (is_some (only_if (is_any_due moment self.old.state) (swept moment self.old.state))) }
        ensures { Puts (only_if (is_any_due moment self.old.state) (swept moment self.old.state)) 0 self.old self.new }
    {
        self.sweep(moment);
    }

    // A campaign is added.
    fn put_addition(&mut self, entry: SharedRecord, moment: u64)
        requires fits { IsTrue (is_some (with_added entry.facts entry.expr (swept moment self.old.state))) }
        requires room { 1 ≤ self.old.campaign_room }
        requires few { self.old.edits < 2 ^ 63 }
        ensures { Puts (with_added entry.facts entry.expr (swept moment self.old.state)) 1 self.old self.new }
    {
        self.sweep(moment);
        self.add(entry);
    }

    // Campaign `n` has another record.
    fn put_record(&mut self, n: u32, entry: SharedRecord, moment: u64)
        requires fits { IsTrue (is_some (on_campaign n (with_changed entry.facts entry.expr n) (swept moment self.old.state))) }
        requires few { self.old.edits < 2 ^ 63 }
        ensures { Puts (on_campaign n (with_changed entry.facts entry.expr n) (swept moment self.old.state)) 1 self.old self.new }
    {
        self.sweep(moment);
        self.change(n, entry);
    }

    // Live campaign `n` is taken out of auctions.
    fn put_pause(&mut self, n: u32, moment: u64)
        requires fits { IsTrue (is_some (on_campaign n (with_paused n) (swept moment self.old.state))) }
        requires few { self.old.edits < 2 ^ 63 }
        ensures { Puts (on_campaign n (with_paused n) (swept moment self.old.state)) 1 self.old self.new }
    {
        self.sweep(moment);
        self.pause(n);
    }

    // Paused campaign `n` takes part in auctions again.
    fn put_resumption(&mut self, n: u32, moment: u64)
        requires fits { IsTrue (is_some (on_campaign n (with_resumed n) (swept moment self.old.state))) }
        requires few { self.old.edits < 2 ^ 63 }
        ensures { Puts (on_campaign n (with_resumed n) (swept moment self.old.state)) 1 self.old self.new }
    {
        self.sweep(moment);
        self.resume(n);
    }

    // A held sale is billed.
    fn put_billing(&mut self, sale: u64, moment: u64)
        requires fits { IsTrue (is_some (on_sale sale (with_settled SaleState.Billed sale) (swept moment self.old.state))) }
        ensures { Puts (on_sale sale (with_settled SaleState.Billed sale) (swept moment self.old.state)) 0 self.old self.new }
    {
        self.sweep(moment);
        self.bill(sale);
    }

    // A held sale is lost.
    fn put_loss(&mut self, sale: u64, moment: u64)
        requires fits { IsTrue (is_some (on_sale sale (with_settled SaleState.Lost sale) (swept moment self.old.state))) }
        ensures { Puts (on_sale sale (with_settled SaleState.Lost sale) (swept moment self.old.state)) 0 self.old self.new }
    {
        self.sweep(moment);
        self.lose(sale);
    }

    // The oldest sales are forgotten, until so many are.
    fn put_forgetting(&mut self, forgotten: u64, moment: u64)
        requires { IsTrue (is_some (with_forgotten forgotten (swept moment self.old.state))) }
        ensures { Puts (with_forgotten forgotten (swept moment self.old.state)) 0 self.old self.new }
    {
        self.sweep(moment);
        self.forget_to(forgotten);
    }

    // The items are sold, all of them.
    fn put_sales(
        &mut self,
        user: Option<&Txt>,
        items: &[SoldItem],
        moment: u64,
        keys: List<UserKey>,
    )
        requires keys { keys ≡ keys_for (option_copied user) items.now }
        requires fits { IsTrue (is_some (with_items moment (option_copied user) items.now (swept moment self.old.state))) }
        requires room { length items.now ≤ self.old.sale_room }
        ensures { Puts (with_items moment (option_copied user.entry) items.now (swept moment self.old.state)) 0 self.old self.new }
    {
        self.sweep(moment);
        self.sell_all(user, items, moment, keys);
    }

    // Makes the sales in their order.
    fn sell_all(&mut self, user: Option<&Txt>, items: &[SoldItem], moment: u64, keys: List<UserKey>)
        requires keys { keys ≡ keys_for (option_copied user) items.now }
        requires fits { IsTrue (is_some (with_items moment (option_copied user) items.now self.old.state)) }
        requires room { length items.now ≤ self.old.sale_room }
        ensures { Puts (with_items moment (option_copied user.entry) items.now self.old.state) 0 self.old self.new }
    {
        let mut keys = keys.into_vec();
        let mut rest = items;
        while let Some((item, more)) = rest.split_first() {
            self.hold(item, moment, keys.pop());
            rest = more;
        }
    }
}

// The record that was made.
fn entry_in(memory: Memory) -> SharedRecord
    requires { (entry : Record) × (memory ≡ held.Entry entry) }
    ensures { (entry : Record) → memory ≡ held.Entry entry → result ≡ entry }
{
    match memory {
        Memory::Entry(entry) => entry,
        _ => unreachable!(),
    }
}

// The users' keys that were made.
fn keys_in(memory: Memory) -> List<UserKey>
    requires { (keys : List (List ℕ)) × (memory ≡ held.Keys keys) }
    ensures { (keys : List (List ℕ)) → memory ≡ held.Keys keys → result ≡ keys }
{
    match memory {
        Memory::Keys(keys) => keys,
        _ => unreachable!(),
    }
}

// The sale that was made, and its user.
fn sale_in(memory: Memory) -> (SaleRow, Option<UserKey>)
    requires { (row : ASaleRow) × (key : Option (List ℕ)) × (memory ≡ held.Sale row key) }
    ensures { (row : ASaleRow) (key : Option (List ℕ)) → memory ≡ held.Sale row key → result ≡ (row, key) }
{
    match memory {
        Memory::Sale(row, key) => (row, key),
        _ => unreachable!(),
    }
}
