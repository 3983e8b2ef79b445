//! The messages of a run served over links in memory, one link after the other, by one worker of an exchange whose journal
//! is in memory. A link is drawn and served when all answers of the one before were told, which is let go then.
ghost use Rattle.std.specs.Prelude.{◌≡◌, ◌≢◌, [], IfOk};
ghost use Rattle.exchange_shared.specs.Seats.{MayCall, lock_of};

use crate::answers::{Tells, tell_at};
use crate::posting::CAMPAIGNS;
use address_keys::Keys;
use door_worker::{DoorEnd, serve_door};
use exchange_shared::{Exchange, Seat};
use link_door::{Door, MemDoor, MemLink, NoPause};
use loadgen::Gen;
use rtb_disk::Disk;
use rtb_num::{List, Txt, write_decimal};
use std::alloc::{AllocError, Global};
use std::marker::Model;
use std::mem;
use std::sync::Wait;

/// A worker that serves a run, one link after the other, and tells its answers.
#[derive(Drop)]
pub(crate) struct Server<'e, D: Disk, R: Wait> {
    rt: &'e R,
    public: &'e Txt,
    keys: &'e Keys,
    clerk: Clerk<'e, D>,
    // What comes on the links that were not made yet.
    links: Links,
    // The link that was served last.
    door: Option<MemDoor>,
    // Where the next answer stands in what was sent on it.
    place: usize,
}

impl<'e, D: Disk, R: Wait> Server<'e, D, R> {
    /// Nothing was served yet of the run of the start, with so many requests. `public` is what the addresses of notices
    /// begin with, and by `keys` they are signed.
    pub(crate) fn new(
        alloc: Global,
        rt: &'e R,
        exchange: &'e Exchange<D>,
        seat: Seat<D>,
        public: &'e Txt,
        keys: &'e Keys,
        start: u64,
        requests: u32,
    ) -> Server<'e, D, R>
        requires seat { MayCall (lock_of exchange.now) seat }
        requires first { seat.worker ≡ 0 }
    {
        Server {
            rt,
            public,
            keys,
            clerk: Clerk {
                exchange,
                seat: Some(seat),
            },
            links: Links::new(alloc, start, requests),
            door: None,
            place: 0,
        }
    }

    // Makes and serves the next link, that of the campaigns first. Links are rare, and what is made for one has no room in
    // what tells an answer.
    #[inline(never)]
    fn serve_next(&mut self, alloc: Global) -> Result<(), AllocError> {
        let door = self.links.next_door(alloc, self.door.is_none())?;
        self.serve(alloc, door)
    }

    // Serves the link of the door, and lets the one before go.
    fn serve(&mut self, alloc: Global, door: MemDoor) -> Result<(), AllocError> {
        let mut door = door;
        let end = self
            .clerk
            .serve(alloc, self.rt, self.public, self.keys, &mut door);
        drop(mem::replace(&mut self.door, Some(door)));
        self.place = 0;
        match end {
            DoorEnd::Served => Ok(()),
            DoorEnd::Failed => Err(AllocError),
        }
    }
}

impl<'e, D: Disk, R: Wait> Tells for Server<'e, D, R> {
    fn tell(&mut self, alloc: Global, answer: &mut Txt) -> Result<u32, AllocError> {
        if self.place == sent_on(&self.door).len() {
            self.serve_next(alloc)?;
        }
        let (status, next) = tell_at(sent_on(&self.door), self.place, answer)?;
        self.place = next;
        Ok(status)
    }
}

// An exchange, and the seat of its one worker.
#[derive(Drop)]
struct Clerk<'e, D: Disk> {
    exchange: &'e Exchange<D>,
    // None while a call has it.
    seat: Option<Seat<D>>,
}

impl<'e, D: Disk> Model for Clerk<'e, D> {
    ghost use Rattle.std.specs.Prelude.{◌≡◌, IfSome};
    ghost use Rattle.atomic_table.specs.Seated.{TableId};
    ghost use Rattle.exchange_shared.specs.Seats.{MayCall, lock_of};

    ghost Value = { TableId };

    ghost view = { λ c. lock_of c.exchange.now };

    ghost invariant = { λ c. IfSome c.seat (λ s. MayCall (lock_of c.exchange.now) s × (s.worker ≡ 0)) };
}

impl<'e, D: Disk> Clerk<'e, D> {
    // Serves the links of the door.
    fn serve<R: Wait>(
        &mut self,
        alloc: Global,
        rt: &R,
        public: &Txt,
        keys: &Keys,
        door: &mut MemDoor,
    ) -> DoorEnd {
        let Some(seat) = self.seat.take() else {
            return DoorEnd::Failed;
        };
        let (seat, end) = serve_with(self.exchange, rt, alloc, public, keys, seat, door);
        match mem::replace(&mut self.seat, Some(seat)) {
            None => end,
            Some(_) => unreachable!(),
        }
    }
}

// Serves the links of the door with the seat.
fn serve_with<D: Disk, R: Wait>(
    exchange: &Exchange<D>,
    rt: &R,
    alloc: Global,
    public: &Txt,
    keys: &Keys,
    seat: Seat<D>,
    door: &mut MemDoor,
) -> (Seat<D>, DoorEnd)
    requires seat { MayCall (lock_of exchange.now) seat }
    requires first { seat.worker ≡ 0 }
    ensures seat { MayCall (lock_of exchange.now) result.0 }
    ensures first { result.0.worker ≡ 0 }
{
    serve_door(exchange, rt, alloc, 0, &NoPause, public, keys, seat, door)
}

// What was sent on the one link of the door.
fn sent_on(door: &Option<MemDoor>) -> &[u8] {
    let Some(door) = door else {
        return b"";
    };
    match door.served().as_slice().first() {
        Some(link) => link.sent().as_bytes(),
        None => b"",
    }
}

// What has not come on a link yet, drawn as gathering draws it.
#[derive(Drop)]
struct Links {
    drawn: Gen,
    // So many requests were drawn, of so many.
    done: u32,
    requests: u32,
    // In whose memory the body of a request is drawn before it is copied behind its head.
    body: Txt,
}

impl Links {
    // The links of the start's run, with so many requests.
    fn new(alloc: Global, start: u64, requests: u32) -> Links {
        Links {
            drawn: Gen::new(start),
            done: 0,
            requests,
            body: Txt::new(alloc),
        }
    }

    // A door with the next link, which is the first one or not.
    fn next_door(&mut self, alloc: Global, first: bool) -> Result<MemDoor, AllocError> {
        if first {
            return self.campaigns(alloc);
        }
        self.requests(alloc)
    }

    // All campaigns come on the first link, at moment 0.
    fn campaigns(&mut self, alloc: Global) -> Result<MemDoor, AllocError> {
        let mut text = text_with_room(alloc, CAMPAIGNS)?;
        for _ in 0..CAMPAIGNS {
            let body = self.drawn.campaign(alloc)?;
            put_message(alloc, CAMPAIGN_HEAD, &body, &mut text)?;
        }
        door_with(alloc, text, List::new(alloc), CAMPAIGNS)
    }

    // Each request comes at the moment that is its number.
    fn requests(&mut self, alloc: Global) -> Result<MemDoor, AllocError> {
        let count = self.requests.saturating_sub(self.done).min(MOST_MESSAGES);
        let until = self.done.saturating_add(count);
        let mut text = text_with_room(alloc, count)?;
        let mut moments = List::with_capacity(alloc, count as usize + 1)?;
        for before in self.done..until {
            let number = before + 1;
            self.drawn.request_into(number, &mut self.body)?;
            put_message(alloc, REQUEST_HEAD, &self.body, &mut text)?;
            moments.push(u64::from(number))?;
        }
        self.done = until;
        door_with(alloc, text, moments, count)
    }
}

// The most requests of a link.
const MOST_MESSAGES: u32 = 1_000;

// A message has about so many bytes, and an answer.
const ROOM: usize = 256;

const ANSWER_ROOM: usize = 512;

// An empty text with room for so many messages.
fn text_with_room(alloc: Global, messages: u32) -> Result<Vec<u8>, AllocError> {
    Vec::with_capacity(alloc, (messages as usize).saturating_mul(ROOM))
}

// A door with one link, on which this text comes, of so many messages, at these moments and then at 0.
fn door_with(
    alloc: Global,
    text: Vec<u8>,
    moments: List<u64>,
    messages: u32,
) -> Result<MemDoor, AllocError> {
    let moments = with_moment(moments, 0)?;
    let room = (messages as usize).saturating_mul(ANSWER_ROOM);
    let link = MemLink::with_room(alloc, Txt::from_vec(text), List::new(alloc), room)?;
    let mut links = List::new(alloc);
    links.push(link)?;
    MemDoor::new(alloc, links, moments, List::new(alloc))
}

fn with_moment(moments: List<u64>, moment: u64) -> Result<List<u64>, AllocError>
    ensures some { IfOk result (λ all. all ≢ []) }
{
    let mut moments = moments;
    moments.push(moment)?;
    Ok(moments)
}

// What a client sends before the length of a body (RFC 9112, section 2.1).
const CAMPAIGN_HEAD: &[u8] = b"POST /campaign HTTP/1.1\r\nHost: make.example\r\nContent-Length: ";

const REQUEST_HEAD: &[u8] =
    b"POST /openrtb2/auction HTTP/1.1\r\nHost: make.example\r\nContent-Length: ";

// Appends the message with this head.
fn put_message(
    alloc: Global,
    head: &[u8],
    body: &Txt,
    out: &mut Vec<u8>,
) -> Result<(), AllocError> {
    let body = body.as_bytes();
    out.extend_from_slice(head)?;
    put_length(alloc, body.len(), out)?;
    out.extend_from_slice(body)
}

// Appends the length and the end of the head. Nearly all have two or three digits.
fn put_length(alloc: Global, length: usize, out: &mut Vec<u8>) -> Result<(), AllocError> {
    if length < 10 || 999 < length {
        return put_any_length(alloc, length, out);
    }
    let end = [
        digit(length / 100),
        digit(length / 10),
        digit(length),
        b'\r',
        b'\n',
        b'\r',
        b'\n',
    ];
    let from = if length < 100 { 1 } else { 0 };
    out.extend_from_slice(&end[from..])
}

// The last digit of the number.
fn digit(number: usize) -> u8 {
    b'0' + (number % 10) as u8
}

#[inline(never)]
fn put_any_length(alloc: Global, length: usize, out: &mut Vec<u8>) -> Result<(), AllocError> {
    let mut end = Txt::new(alloc);
    write_decimal(length as u64, &mut end)?;
    end.extend(b"\r\n\r\n")?;
    out.extend_from_slice(end.as_bytes())
}
