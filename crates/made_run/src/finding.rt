//! The exchange of one thread with an index of the campaigns, which stay as they are once all were posted.
ghost use Rattle.std.specs.Prelude.{◌≡◌, ◌<◌, false, true, IfOk, IsTrue, Ok, Some, None, if◌then◌else◌};
ghost use Rattle.std.specs.Option.{option_copied};
ghost use Rattle.auction_core.specs.Core.{listed};
ghost use Rattle.auction_core.specs.Draft.{found_of, is_valid_command};
ghost use Rattle.audit.specs.Accounts.{LeadsTo, account as accounted, passes, settings_of};
ghost use Rattle.conj_index.specs.Content.{IsIndexOf};
ghost use Rattle.live_index.specs.Reached.{live_expressions};
ghost use Rattle.made_run.specs.Standing.{Fits};
ghost use Rattle.plain_exchange.specs.State.{State};

use address_keys::Keys;
use auction_core::{Command, Core};
use audit::{account, account_found};
use command_read::{CommandFault, Rooms, read_command_in};
use conj_index::{Index, Scratch};
use live_index::{find_by_index_with, index_of_live};
use rtb_base::Steps;
use rtb_num::List;
use std::alloc::{AllocError, Global};
use std::marker::Brand;
use std::sync::ledger::{Blank, Ledger};
use trace::{Entry, Header};

/// The room in which bodies are read, and that in which campaigns are found, which are kept from message to message.
#[derive(Drop)]
pub(crate) struct Room {
    rooms: Rooms,
    scratch: Scratch,
}

impl Room {
    pub(crate) fn new(alloc: Global) -> Room {
        Room {
            rooms: Rooms::new(alloc),
            scratch: Scratch::new(alloc),
        }
    }
}

/// The index of the exchange's campaigns.
pub(crate) fn index_of(alloc: Global, core: &Core) -> Result<Index, AllocError>
    ensures { IfOk result (IsIndexOf (live_expressions (listed core.now.state))) }
{
    index_counted::<Brand>(alloc, core, Blank::new(1))
}

// The steps are not counted.
fn index_counted<L: Ledger>(alloc: Global, core: &Core, blank: Blank) -> Result<Index, AllocError>
    requires name { blank.name ≡ L.name }
    requires parts { blank.parts ≡ L.parts }
    requires some { 0 < blank.parts }
    ensures { IfOk result (IsIndexOf (live_expressions (listed core.now.state))) }
{
    let mut steps = Steps::<L>::new(blank);
    index_of_live(alloc, core.table(), &mut steps)
}

/// Whether the entry accounts for its answer, by a look at each campaign, or by the index. With an index the entry is of
/// a request: there is no answer for any other.
pub(crate) fn accounts_for(
    alloc: Global,
    room: &mut Room,
    core: &mut Core,
    index: Option<&Index>,
    header: &Header,
    keys: &Keys,
    entry: &Entry,
) -> Result<bool, AllocError>
    requires answered { passes entry.now ≡ false }
    requires settings { core.old.settings ≡ settings_of header.now }
    requires fits { Fits (option_copied index) core.old.state }
    ensures leads { IfOk result (λ accounts. LeadsTo keys.now header.now core.old.state entry.now (if accounts then Some core.new.state else None)) }
    ensures settings { core.new.settings ≡ core.old.settings }
    ensures fits { IfOk result (λ accounts. accounts ≡ true → Fits (option_copied index.entry) core.new.state) }
{
    match index {
        Some(index) => accounts_by(alloc, room, core, index, header, keys, entry),
        None => accounts_by_look(alloc, core, header, keys, entry),
    }
}

// The same by a look at each campaign. It is rare, and has no room in what takes a request's answer.
#[inline(never)]
fn accounts_by_look(
    alloc: Global,
    core: &mut Core,
    header: &Header,
    keys: &Keys,
    entry: &Entry,
) -> Result<bool, AllocError>
    requires settings { core.old.settings ≡ settings_of header.now }
    ensures leads { IfOk result (λ accounts. LeadsTo keys.now header.now core.old.state entry.now (if accounts then Some core.new.state else None)) }
    ensures settings { core.new.settings ≡ core.old.settings }
{
    account(alloc, core, header, keys, entry)
}

// Whether the entry of a request accounts for its answer, by the index.
fn accounts_by(
    alloc: Global,
    room: &mut Room,
    core: &mut Core,
    index: &Index,
    header: &Header,
    keys: &Keys,
    entry: &Entry,
) -> Result<bool, AllocError>
    requires answered { passes entry.now ≡ false }
    requires settings { core.old.settings ≡ settings_of header.now }
    requires index { IsIndexOf (live_expressions (listed core.old.state)) index.now }
    ensures leads { IfOk result (λ accounts. LeadsTo keys.now header.now core.old.state entry.now (if accounts then Some core.new.state else None)) }
    ensures settings { core.new.settings ≡ core.old.settings }
    ensures listed { IfOk result (λ accounts. accounts ≡ true → listed core.new.state ≡ listed core.old.state) }
{
    match read_command_in(alloc, &mut room.rooms, keys, &entry.message) {
        Ok(command) => {
            let scratch = &mut room.scratch;
            let accounts = accounts_command(
                alloc, scratch, core, index, header, keys, entry, &command,
            );
            drop(command);
            accounts
        }
        Err(CommandFault::Refused { refusal }) => {
            drop(refusal);
            Err(AllocError)
        }
        Err(CommandFault::Memory) => Err(AllocError),
    }
}

// The same, where its message is the command.
fn accounts_command(
    alloc: Global,
    scratch: &mut Scratch,
    core: &mut Core,
    index: &Index,
    header: &Header,
    keys: &Keys,
    entry: &Entry,
    command: &Command,
) -> Result<bool, AllocError>
    requires valid { IsTrue (is_valid_command command.now) }
    requires settings { core.old.settings ≡ settings_of header.now }
    requires index { IsIndexOf (live_expressions (listed core.old.state)) index.now }
    ensures leads { IfOk result (λ accounts. accounted keys.now header.now core.old.state entry.now (Ok command.now) ≡ (if accounts then Some core.new.state else None)) }
    ensures settings { core.new.settings ≡ core.old.settings }
    ensures listed { IfOk result (λ accounts. accounts ≡ true → listed core.new.state ≡ listed core.old.state) }
{
    let Command::Auction(_) = command else {
        return Err(AllocError);
    };
    let found = found_by::<Brand>(alloc, scratch, index, command, Blank::new(1))?;
    let accounts = account_found(alloc, core, header, keys, entry, command, found.as_slice());
    drop(found);
    accounts
}

// The campaigns that the command's impressions reach. The steps are not counted.
fn found_by<L: Ledger>(
    alloc: Global,
    scratch: &mut Scratch,
    index: &Index,
    command: &Command,
    blank: Blank,
) -> Result<Vec<List<u32>>, AllocError>
    requires name { blank.name ≡ L.name }
    requires parts { blank.parts ≡ L.parts }
    requires some { 0 < blank.parts }
    ensures { IfOk result (λ found. (s : State) → IsIndexOf (live_expressions (listed s)) index.now → found.items ≡ found_of s command.now) }
{
    let mut steps = Steps::<L>::new(blank);
    find_by_index_with(alloc, scratch, index, command, &mut steps)
}
