//! The trace of a run, from its answers. One entry serves for all requests: each is drawn and its answer told in the place
//! of the one before. How messages come to be answered is no matter of this file.
ghost use Rattle.std.specs.Prelude.{◌≡◌, ◌↔◌, ◌+◌, ◌++◌, ◌∷◌, [], ℕ, IfOk, IfSome, IsTrue, List as AList, OnOk, Some, codes, false, if◌then◌else◌};
ghost use Rattle.std.specs.Option.{option_copied, option_map};
ghost use Rattle.auction_core.specs.Core.{listed};
ghost use Rattle.audit.specs.Accounts.{LeadsTo, passes, settings_of};
ghost use Rattle.byte_fields.specs.Encodings.{IsShort};
ghost use Rattle.conj_index.specs.Content.{IsIndexOf};
ghost use Rattle.http_wire.specs.declared.message.Message.{Message as AMessage};
ghost use Rattle.live_index.specs.Reached.{live_expressions};
ghost use Rattle.made_run.specs.Runs.{IsCounted, IsMade, behind_campaigns, campaigns_from, has_status, post_of, posted, requests_from, reserved_in};
ghost use Rattle.made_run.specs.Standing.{Fits, IsPostTo, IsReady, IsSoFar};
ghost use Rattle.trace.specs.Traces.{entry_bytes, header_bytes};

use crate::answers::Tells;
use crate::finding::{Room, accounts_for, index_of};
use crate::posting::{CAMPAIGNS, blank_request, next_campaign, next_request};
use crate::reserving::{plus, reserved_in};
use crate::run::{Made, PUBLIC, SALES, TTL};
use address_keys::Keys;
use auction_core::Core;
use audit::passes;
use conj_index::Index;
use http_wire::Message;
use loadgen::Gen;
use rtb_num::{Nanos, Txt};
use std::alloc::{AllocError, Global};
use trace::{Entry, Header, put_entry, put_header};

/// The trace so far where it is kept, the exchange of one thread behind it, and how many requests were sold and how many were not.
#[derive(Drop)]
pub(crate) struct Gathering {
    core: Core,
    room: Room,
    header: Header,
    // None: no address is signed.
    keys: Keys,
    trace: Option<Txt>,
    sold: u64,
    no_bid: u64,
}

/// Makes a run of the answers to its messages.
pub(crate) fn gather<A: Tells>(
    alloc: Global,
    start: u64,
    requests: u32,
    answers: &mut A,
) -> Result<Made, AllocError>
    ensures { IfOk result (λ made. IsMade start requests made) }
{
    let mut gathering = begin(alloc, true)?;
    let reserved = gathering.run(alloc, start, requests, answers);
    made_of(gathering, reserved)
}

/// The same without its trace.
pub(crate) fn count<A: Tells>(
    alloc: Global,
    start: u64,
    requests: u32,
    answers: &mut A,
) -> Result<Made, AllocError>
    ensures { IfOk result (λ made. IsCounted start requests made) }
{
    let mut gathering = begin(alloc, false)?;
    let reserved = gathering.run(alloc, start, requests, answers);
    counted_of(alloc, gathering, reserved)
}

// Nothing was gathered yet.
fn begin(alloc: Global, keeps: bool) -> Result<Gathering, AllocError>
    ensures ready { IfOk result (λ g. IsReady g) }
    ensures none { IfOk result (λ g. IsSoFar [] g) }
{
    let public = Txt::from_slice(alloc, PUBLIC)?;
    let trace = begin_kept(alloc, keeps, &public)?;
    Ok(Gathering {
        core: Core::new(alloc, TTL, SALES),
        room: Room::new(alloc),
        header: Header { ttl: TTL, public },
        keys: Keys::none(),
        trace,
        sold: 0,
        no_bid: 0,
    })
}

fn begin_kept(alloc: Global, keeps: bool, public: &Txt) -> Result<Option<Txt>, AllocError>
    requires { IsShort public.now }
    ensures { IfOk result (λ kept. IfSome kept (λ trace. trace ≡ header_bytes (record { ttl = 300000; public = public.now }))) }
{
    if !keeps {
        return Ok(None);
    }
    let trace = begin_trace(alloc, public)?;
    Ok(Some(trace))
}

fn begin_trace(alloc: Global, public: &Txt) -> Result<Txt, AllocError>
    requires { IsShort public.now }
    ensures { IfOk result (λ trace. trace ≡ header_bytes (record { ttl = 300000; public = public.now })) }
{
    let mut trace = Txt::new(alloc);
    put_header(TTL, public, &mut trace)?;
    Ok(trace)
}

// What was made, where all was gathered, and this is reserved.
fn made_of(gathering: Gathering, reserved: Result<Nanos, AllocError>) -> Result<Made, AllocError>
    ensures { (start n : ℕ) → IfOk reserved (λ r. IsSoFar (posted start n) gathering × (r ≡ reserved_in gathering.core.state.sales)) → IfOk result (λ made. IsMade start n made) }
{
    let Gathering {
        core,
        room,
        header,
        keys,
        trace,
        sold,
        no_bid,
    } = gathering;
    drop(core);
    drop(room);
    drop(header);
    drop(keys);
    match reserved {
        Ok(reserved) => with_trace(trace, sold, no_bid, reserved),
        Err(AllocError) => {
            drop(trace);
            Err(AllocError)
        }
    }
}

// What was made, where its trace was kept.
fn with_trace(
    trace: Option<Txt>,
    sold: u64,
    no_bid: u64,
    reserved: Nanos,
) -> Result<Made, AllocError>
    ensures { IfOk result (λ made. (trace ≡ Some made.trace) × (made.sold ≡ sold) × (made.no_bid ≡ no_bid) × (made.reserved ≡ reserved)) }
{
    match trace {
        Some(trace) => Ok(Made {
            trace,
            sold,
            no_bid,
            reserved,
        }),
        None => Err(AllocError),
    }
}

// The same without its trace.
fn counted_of(
    alloc: Global,
    gathering: Gathering,
    reserved: Result<Nanos, AllocError>,
) -> Result<Made, AllocError>
    ensures { (start n : ℕ) → IfOk reserved (λ r. IsSoFar (posted start n) gathering × (r ≡ reserved_in gathering.core.state.sales)) → IfOk result (λ made. IsCounted start n made) }
{
    let sold = gathering.sold;
    let no_bid = gathering.no_bid;
    drop(gathering);
    match reserved {
        Ok(reserved) => Ok(Made {
            trace: Txt::new(alloc),
            sold,
            no_bid,
            reserved,
        }),
        Err(AllocError) => Err(AllocError),
    }
}

impl Gathering {
    // Gathers the answers to all messages. What is reserved behind them.
    fn run<A: Tells>(
        &mut self,
        alloc: Global,
        start: u64,
        requests: u32,
        answers: &mut A,
    ) -> Result<Nanos, AllocError>
        requires ready { IsReady self.old }
        requires none { IsSoFar [] self.old }
        ensures { IfOk result (λ r. IsSoFar (posted start requests) self.new × (r ≡ reserved_in self.new.core.state.sales)) }
    {
        let mut drawn = Gen::new(start);
        self.campaigns(alloc, &mut drawn, answers)?;
        self.requests(alloc, &mut drawn, requests, answers)?;
        reserved_in(self.core.book())
    }

    // Gathers the answers to the campaigns.
    fn campaigns<A: Tells>(
        &mut self,
        alloc: Global,
        drawn: &mut Gen,
        answers: &mut A,
    ) -> Result<(), AllocError>
        requires ready { IsReady self.old }
        requires none { IsSoFar [] self.old }
        ensures ready { IsReady self.new }
        ensures gathered { OnOk result (IsSoFar (campaigns_from drawn.old 100) self.new) }
        ensures drawn { OnOk result (drawn.new ≡ behind_campaigns drawn.old 100) }
    {
        for _ in 0..CAMPAIGNS {
            let message = next_campaign(alloc, drawn)?;
            self.take_campaign(alloc, message, answers)?;
        }
        Ok(())
    }

    // Gathers the next answer, which is to the campaign of the message.
    fn take_campaign<A: Tells>(
        &mut self,
        alloc: Global,
        message: Message,
        answers: &mut A,
    ) -> Result<(), AllocError>
        requires ready { IsReady self.old }
        ensures ready { IsReady self.new }
        ensures one { OnOk result ((posts : AList (ℕ × AMessage)) → IsSoFar posts self.old → IsSoFar (posts ++ (0, message) ∷ []) self.new) }
    {
        let mut entry = entry_of(alloc, message);
        let taken = self.take(alloc, None, &mut entry, answers);
        drop(entry);
        taken
    }

    // Gathers the answers to so many requests.
    fn requests<A: Tells>(
        &mut self,
        alloc: Global,
        drawn: &mut Gen,
        requests: u32,
        answers: &mut A,
    ) -> Result<(), AllocError>
        requires ready { IsReady self.old }
        ensures gathered { OnOk result ((posts : AList (ℕ × AMessage)) → IsSoFar posts self.old → IsSoFar (posts ++ requests_from drawn.old 1 requests) self.new) }
    {
        let index = index_of(alloc, &self.core)?;
        let gathered = self.requests_by(alloc, &index, drawn, requests, answers);
        drop(index);
        gathered
    }

    // The same, by the index of the campaigns.
    fn requests_by<A: Tells>(
        &mut self,
        alloc: Global,
        index: &Index,
        drawn: &mut Gen,
        requests: u32,
        answers: &mut A,
    ) -> Result<(), AllocError>
        requires ready { IsReady self.old }
        requires index { IsIndexOf (live_expressions (listed self.old.core.state)) index.now }
        ensures gathered { OnOk result ((posts : AList (ℕ × AMessage)) → IsSoFar posts self.old → IsSoFar (posts ++ requests_from drawn.old 1 requests) self.new) }
    {
        let message = blank_request(alloc)?;
        let mut entry = entry_of(alloc, message);
        let gathered = self.requests_over(alloc, index, &mut entry, drawn, requests, answers);
        drop(entry);
        gathered
    }

    // The same, each request in the place of the one before.
    fn requests_over<A: Tells>(
        &mut self,
        alloc: Global,
        index: &Index,
        entry: &mut Entry,
        drawn: &mut Gen,
        requests: u32,
        answers: &mut A,
    ) -> Result<(), AllocError>
        requires ready { IsReady self.old }
        requires index { IsIndexOf (live_expressions (listed self.old.core.state)) index.now }
        requires post { IsPostTo (codes "/openrtb2/auction") entry.old.message }
        ensures gathered { OnOk result ((posts : AList (ℕ × AMessage)) → IsSoFar posts self.old → IsSoFar (posts ++ requests_from drawn.old 1 requests) self.new) }
    {
        for done in 0..requests {
            let number = done + 1;
            next_request(drawn, number, &mut entry.message)?;
            entry.moment = u64::from(number);
            self.take(alloc, Some(index), entry, answers)?;
        }
        Ok(())
    }

    // Gathers the next answer, which is to the entry's message, in the place of the one that the entry has. The message is a
    // request where there is an index.
    fn take<A: Tells>(
        &mut self,
        alloc: Global,
        index: Option<&Index>,
        entry: &mut Entry,
        answers: &mut A,
    ) -> Result<(), AllocError>
        requires ready { IsReady self.old }
        requires fits { Fits (option_copied index) self.old.core.state }
        ensures ready { IsReady self.new }
        ensures fits { OnOk result (Fits (option_copied index.entry) self.new.core.state) }
        ensures message { entry.new.message ≡ entry.old.message }
        ensures one { OnOk result ((posts : AList (ℕ × AMessage)) → IsSoFar posts self.old → IsSoFar (posts ++ post_of entry.old ∷ []) self.new) }
    {
        entry.status = answers.tell(alloc, &mut entry.answer)?;
        self.put(alloc, index, entry)
    }

    // One entry more.
    fn put(&mut self, alloc: Global, index: Option<&Index>, entry: &Entry) -> Result<(), AllocError>
        requires ready { IsReady self.old }
        requires fits { Fits (option_copied index) self.old.core.state }
        ensures ready { IsReady self.new }
        ensures fits { OnOk result (Fits (option_copied index.entry) self.new.core.state) }
        ensures one { OnOk result ((posts : AList (ℕ × AMessage)) → IsSoFar posts self.old → IsSoFar (posts ++ post_of entry.now ∷ []) self.new) }
    {
        judge(
            alloc,
            &mut self.room,
            &mut self.core,
            index,
            &self.header,
            &self.keys,
            entry,
        )?;
        self.sold = counted(self.sold, has_status(entry, 200))?;
        self.no_bid = counted(self.no_bid, has_status(entry, 204))?;
        keep(entry, &mut self.trace)
    }
}

// An entry of the message at moment 0, whose answer was not told yet.
fn entry_of(alloc: Global, message: Message) -> Entry
    ensures { post_of result ≡ (0, message) }
{
    Entry {
        moment: 0,
        message,
        status: 0,
        answer: Txt::new(alloc),
    }
}

// The exchange of one thread takes the entry's message, and gives its answer. One that tells of memory or of the store is
// none of a run.
fn judge(
    alloc: Global,
    room: &mut Room,
    core: &mut Core,
    index: Option<&Index>,
    header: &Header,
    keys: &Keys,
    entry: &Entry,
) -> Result<(), AllocError>
    requires settings { core.old.settings ≡ settings_of header.now }
    requires fits { Fits (option_copied index) core.old.state }
    ensures leads { OnOk result (LeadsTo keys.now header.now core.old.state entry.now (Some core.new.state)) }
    ensures answered { OnOk result (passes entry.now ≡ false) }
    ensures settings { core.new.settings ≡ core.old.settings }
    ensures fits { OnOk result (Fits (option_copied index.entry) core.new.state) }
{
    if passes(entry) {
        return Err(AllocError);
    }
    let accounts = accounts_for(alloc, room, core, index, header, keys, entry)?;
    if !accounts {
        return Err(AllocError);
    }
    Ok(())
}

// Whether it is the entry of a request that has this status.
fn has_status(entry: &Entry, status: u32) -> bool
    ensures { result ≡ has_status status entry.now }
{
    entry.moment > 0 && entry.status == status
}

// One more where it holds.
fn counted(count: u64, holds: bool) -> Result<u64, AllocError>
    ensures { IfOk result (λ n. n ≡ count + (if holds then 1 else 0)) }
{
    plus(count, u64::from(holds))
}

// Appends the entry to a trace that is kept.
fn keep(entry: &Entry, trace: &mut Option<Txt>) -> Result<(), AllocError>
    ensures { OnOk result (trace.new ≡ option_map (λ t. t ++ entry_bytes entry.now) trace.old) }
{
    match trace {
        Some(trace) => put(entry, trace),
        None => Ok(()),
    }
}

// Appends the entry, whose texts are short.
fn put(entry: &Entry, out: &mut Txt) -> Result<(), AllocError>
    ensures { OnOk result (out.new ≡ out.old ++ entry_bytes entry.now) }
{
    let message = &entry.message;
    if !(is_short(&message.method) && is_short(&message.target)) {
        return Err(AllocError);
    }
    if !(is_short(&message.body) && is_short(&entry.answer)) {
        return Err(AllocError);
    }
    put_entry(entry.moment, message, entry.status, &entry.answer, out)
}

fn is_short(text: &Txt) -> bool
    ensures { IsTrue result ↔ IsShort text.now }
{
    (text.len() as u64) < (1 << 32)
}
