//! The requests and campaigns that the words of a case stand for.
ghost use Rattle.std.specs.Prelude.{◌<◌, length};

use bumpalo::Bump;
use campaign::Facts;
use campaign_read::{CampFault, read_campaign};
use case_lines::{done, kept, number_in};
use deal_rules::user_of;
use rtb_num::{Nanos, Txt};
use rtb_read::{ReqFault, read_request};
use rtb_types::BidRequest;
use std::alloc::{AllocError, Global};

/// A request with an impression, and the campaigns that may offer for the first.
#[derive(Drop)]
pub struct Market {
    pub request: BidRequest,
    pub bidders: Vec<Bidder>,
    ghost some: { 0 < length request.imps },
}

/// A campaign, with what is free of its budget and how many sales to the request's user count for its cap.
#[derive(Drop)]
pub struct Bidder {
    pub facts: Facts,
    pub free: Nanos,
    pub shown: u64,
}

impl Bidder {
    /// How many sales count, where the request has a user.
    pub fn shown_in(&self, request: &BidRequest) -> Option<u64> {
        match user_of(request) {
            Some(_) => Some(self.shown),
            None => None,
        }
    }
}

/// The market of these words:
///
/// - `request MEMBERS` and `imp MEMBERS`: members of the request and of its impression, behind those of a
///   request for a banner on `news.example` without a user; the last of a name counts. `request {..}` is a
///   request as a whole.
/// - `campaign MEMBERS`: members of a campaign, behind those of one that bids 2.50 with a budget of 10, loads
///   over HTTPS, and has the seat `s1` and the domain `shoes.example`. `campaign {..}` is one as a whole.
///   Campaigns are numbered in their order.
/// - Behind a campaign `free N`, so many nano-dollars of its budget, where not all is free, and `shown N`, so
///   many sales to the user, where there are some.
pub fn market_of(alloc: Global, args: &[Txt]) -> Result<Option<Market>, AllocError> {
    let mut words = Words {
        request: Txt::new(alloc),
        imp: Txt::new(alloc),
        bidders: Vec::new(alloc),
    };
    match words.take_all(alloc, args) {
        Ok(true) => words.finish(alloc),
        Ok(false) => {
            drop(words);
            Ok(None)
        }
        Err(refused) => {
            drop(words);
            Err(refused)
        }
    }
}

// What stands before the first blank, and behind it.
fn split(text: &[u8]) -> (&[u8], &[u8]) {
    match text.iter().position(|byte| *byte == b' ') {
        Some(at) => (&text[..at], &text[at + 1..]),
        None => (text, b""),
    }
}

// The words of a case, as far as they are read.
#[derive(Drop)]
struct Words {
    request: Txt,
    imp: Txt,
    bidders: Vec<Bidder>,
}

impl Words {
    // All of them, or tells that one cannot be read.
    fn take_all(&mut self, alloc: Global, args: &[Txt]) -> Result<bool, AllocError> {
        for arg in args {
            let (word, rest) = split(arg.as_bytes());
            if !self.take(alloc, word, rest)? {
                return Ok(false);
            }
        }
        Ok(true)
    }

    // One more, or tells that it cannot be read.
    fn take(&mut self, alloc: Global, word: &[u8], rest: &[u8]) -> Result<bool, AllocError> {
        if word == b"request".as_slice() {
            return done(self.request.extend(rest));
        }
        if word == b"imp".as_slice() {
            return done(self.imp.extend(rest));
        }
        if word == b"campaign".as_slice() {
            return self.add(alloc, rest);
        }
        Ok(self.set(word, rest))
    }

    // Sets what the last campaign has left or was shown, or tells that the word is of neither.
    fn set(&mut self, word: &[u8], rest: &[u8]) -> bool {
        if word == b"free".as_slice() {
            return self.set_free(rest);
        }
        if word == b"shown".as_slice() {
            return self.set_shown(rest);
        }
        false
    }

    fn add(&mut self, alloc: Global, members: &[u8]) -> Result<bool, AllocError> {
        let text = campaign_text(alloc, members)?;
        let facts = facts_of(alloc, text.as_bytes());
        drop(text);
        match facts? {
            Some(facts) => done(self.push(facts)),
            None => Ok(false),
        }
    }

    fn push(&mut self, facts: Facts) -> Result<(), AllocError> {
        let free = facts.budget();
        self.bidders.push(Bidder {
            facts,
            free,
            shown: 0,
        })?;
        Ok(())
    }

    fn set_free(&mut self, text: &[u8]) -> bool {
        match (amount_in(text), self.bidders.last_mut()) {
            (Some(free), Some(bidder)) => {
                bidder.free = free;
                true
            }
            _ => false,
        }
    }

    fn set_shown(&mut self, text: &[u8]) -> bool {
        match (number_in(text), self.bidders.last_mut()) {
            (Some(shown), Some(bidder)) => {
                bidder.shown = shown;
                true
            }
            _ => false,
        }
    }

    fn finish(self, alloc: Global) -> Result<Option<Market>, AllocError> {
        match self.request_in(alloc) {
            Ok(Some(request)) => Ok(market_with(request, self)),
            Ok(None) => {
                drop(self);
                Ok(None)
            }
            Err(refused) => {
                drop(self);
                Err(refused)
            }
        }
    }

    fn request_in(&self, alloc: Global) -> Result<Option<BidRequest>, AllocError> {
        let text = request_text(alloc, self.request.as_bytes(), self.imp.as_bytes())?;
        let request = request_of(alloc, text.as_bytes());
        drop(text);
        request
    }
}

fn market_with(request: BidRequest, words: Words) -> Option<Market> {
    let Words {
        request: members,
        imp,
        bidders,
    } = words;
    drop(members);
    drop(imp);
    if request.imps.len() == 0 {
        drop(request);
        drop(bidders);
        return None;
    }
    Some(Market { request, bidders })
}

// ---- texts

fn campaign_text(alloc: Global, members: &[u8]) -> Result<Txt, AllocError> {
    let mut text = Txt::new(alloc);
    let filled = put_campaign(members, &mut text);
    kept(text, filled)
}

fn put_campaign(members: &[u8], out: &mut Txt) -> Result<(), AllocError> {
    if members.starts_with(b"{") {
        return out.extend(members);
    }
    out.extend(
        br#"{"seat":"s1","adomain":"shoes.example","secure":1,"bid":2.50,"budget":10,"adm":"A","crid":"c1""#,
    )?;
    put_members(members, out)?;
    out.push(b'}')
}

fn request_text(alloc: Global, members: &[u8], imp: &[u8]) -> Result<Txt, AllocError> {
    let mut text = Txt::new(alloc);
    let filled = put_request(members, imp, &mut text);
    kept(text, filled)
}

fn put_request(members: &[u8], imp: &[u8], out: &mut Txt) -> Result<(), AllocError> {
    if members.starts_with(b"{") {
        return out.extend(members);
    }
    out.extend(br#"{"id":"b1","site":{"domain":"news.example"}"#)?;
    put_members(members, out)?;
    out.extend(br#","imp":[{"id":"1","banner":{}"#)?;
    put_members(imp, out)?;
    out.extend(b"}]}")
}

// Members behind others.
fn put_members(members: &[u8], out: &mut Txt) -> Result<(), AllocError> {
    if members.is_empty() {
        return Ok(());
    }
    out.push(b',')?;
    out.extend(members)
}

// ---- what they stand for

fn facts_of(alloc: Global, text: &[u8]) -> Result<Option<Facts>, AllocError> {
    let arena = Bump::new(alloc);
    let Ok(doc) = exact_json::read(alloc, &arena, text) else {
        return Ok(None);
    };
    match read_campaign(alloc, &doc) {
        Ok((facts, target)) => {
            drop(target);
            Ok(Some(facts))
        }
        Err(CampFault::Memory) => Err(AllocError),
        Err(_) => Ok(None),
    }
}

fn request_of(alloc: Global, text: &[u8]) -> Result<Option<BidRequest>, AllocError> {
    let arena = Bump::new(alloc);
    let Ok(doc) = exact_json::read(alloc, &arena, text) else {
        return Ok(None);
    };
    match read_request(alloc, &doc) {
        Ok(request) => Ok(Some(request)),
        Err(ReqFault::Memory) => Err(AllocError),
        Err(_) => Ok(None),
    }
}

fn amount_in(text: &[u8]) -> Option<Nanos> {
    Nanos::new(number_in(text)?)
}
