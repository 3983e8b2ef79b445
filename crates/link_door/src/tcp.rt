//! Links and doors of the network (TCP).
ghost use Rattle.std.specs.Prelude.{◌≡◌, ◌≤◌, None, IfOk, length};
ghost use Rattle.rtb_base.specs.Faults.{one_more};

use crate::door::Door;
use crate::entrance::{Arrival, Entrance};
use crate::link::Link;
use rtb_num::Failed;
use std::alloc::Global;
use std::io::{self, Read, Write};
use std::net::{Net, TcpListener, TcpStream};
use std::sync::Wait;
use std::time::{Clock, Duration, Instant, SystemTime};

/// How many errors of accepting in a row one call of `next` gets over, and a link of writes that are broken off.
const MOST_ERRORS: u32 = 100;

// So many milliseconds a read waits by itself: one call of the system is enough for a message of a peer that is quick.
const QUICK: u64 = 5;

// So many milliseconds a link that came may take for its first byte before another is taken in its place.
const FIRST: u64 = 250;

/// A link over a stream of the network, which came through a door.
///
/// A write of a piece that is not empty and takes no byte is a fault, and so is a peer that takes too long: a read that has
/// nothing once the patience is over, since the link came or bytes were last sent on it, and a write that takes no byte for
/// that long. Between messages, where a read would wait while another link waits at the door and no worker is free for it,
/// the read gives no byte, as at the end, and the door's next link is that one.
#[derive(Drop)]
pub struct TcpLink<C: Clock + Copy> {
    stream: TcpStream,
    clock: C,
    patience: Duration,
    // When the link came or bytes were last sent on it.
    since: Instant,
    entrance: Entrance,
    // Whether bytes were sent on it.
    is_answered: bool,
    // Whether others may wait, as they did when it was last looked.
    is_crowded: bool,
    // Whether the entrance waits for its peer too.
    is_watched: bool,
    faults: u64,
}

impl<C: Clock + Copy> TcpLink<C> {
    /// The stream.
    pub fn stream(&self) -> &TcpStream {
        &self.stream
    }

    // Moves bytes that came to the front of `out`, or waits for some as long as the peer may still take. None where the
    // link gives way.
    fn receive(&mut self, out: &mut [u8], inside: bool) -> io::Result<usize>
        ensures faults { self.new.faults ≡ self.old.faults }
        ensures bound { IfOk result (λ n. n ≤ length out.new) }
    {
        for _ in 0..u64::MAX {
            let left = self.time_left()?;
            if self.is_crowded && !inside && self.is_answered && self.gives_way_now()? {
                return Ok(0);
            }
            match self.stream.read(out) {
                Ok(n) => return Ok(n),
                Err(fault) if is_other_than_a_wait(&fault) => return Err(fault),
                Err(_) => {}
            }
            if self.wait(left, inside)? {
                return Ok(0);
            }
        }
        Err(io::Error::from(io::ErrorKind::TimedOut))
    }

    // How long the peer may still take: an error where nothing is left.
    fn time_left(&self) -> io::Result<Duration> {
        let gone = self.since.elapsed(&self.clock)?;
        match self.patience.checked_sub(gone) {
            Some(left) if left > Duration::ZERO => Ok(left),
            _ => Err(io::Error::from(io::ErrorKind::TimedOut)),
        }
    }

    // Where nothing has come yet, whether another link is taken in its place. Where none waits it looks no more so soon.
    fn gives_way_now(&mut self) -> io::Result<bool>
        ensures faults { self.new.faults ≡ self.old.faults }
    {
        self.watch()?;
        if self.entrance.wait(Duration::ZERO)? {
            return Ok(false);
        }
        self.is_crowded = self.entrance.takes_ahead();
        Ok(self.is_crowded)
    }

    // Waits so long for the peer at most, and tells whether another link is taken in its place.
    fn wait(&mut self, left: Duration, inside: bool) -> io::Result<bool>
        ensures faults { self.new.faults ≡ self.old.faults }
    {
        self.watch()?;
        if inside {
            self.entrance.wait(left)?;
            return Ok(false);
        }
        let gone = self.patience.saturating_sub(left);
        let first = Duration::from_millis(FIRST);
        if !self.is_answered && gone < first {
            self.entrance.wait(left.min(first.saturating_sub(gone)))?;
            return Ok(false);
        }
        if self.entrance.takes_ahead() {
            return Ok(true);
        }
        self.entrance.wait_at_both(left)?;
        Ok(false)
    }

    // Has the entrance wait for the peer too.
    fn watch(&mut self) -> io::Result<()>
        ensures faults { self.new.faults ≡ self.old.faults }
    {
        if !self.is_watched {
            self.entrance.watch(&self.stream)?;
            self.is_watched = true;
        }
        Ok(())
    }

    // Sends some of the bytes. The peer has its whole time again.
    fn send(&mut self, bytes: &[u8]) -> io::Result<usize>
        ensures faults { self.new.faults ≡ self.old.faults }
        ensures bound { IfOk result (λ n. n ≤ length bytes.now) }
    {
        let n = self.write_some(bytes)?;
        self.since = Instant::now(&self.clock)?;
        self.is_answered = true;
        Ok(n)
    }

    // The same, with no word of the time. A wait that is broken off is begun again.
    fn write_some(&mut self, bytes: &[u8]) -> io::Result<usize>
        ensures faults { self.new.faults ≡ self.old.faults }
        ensures bound { IfOk result (λ n. n ≤ length bytes.now) }
    {
        for _ in 0..MOST_ERRORS {
            match self.stream.write(bytes) {
                Ok(n) => return Ok(n),
                Err(fault) if fault.kind() != io::ErrorKind::Interrupted => return Err(fault),
                Err(_) => {}
            }
        }
        Err(io::Error::from(io::ErrorKind::Interrupted))
    }
}

// Whether it tells of something else than a wait that is over, or broken off, as where the process is stopped and goes on.
fn is_other_than_a_wait(fault: &io::Error) -> bool {
    match fault.kind() {
        io::ErrorKind::WouldBlock | io::ErrorKind::TimedOut | io::ErrorKind::Interrupted => false,
        _ => true,
    }
}

impl<C: Clock + Copy> Link for TcpLink<C> {
    ghost left = { λ _. None };

    ghost sent = { λ _. None };

    ghost faults = { λ l. l.faults };

    fn read(&mut self, out: &mut [u8], inside: bool) -> Result<usize, Failed> {
        match self.receive(out, inside) {
            Ok(n) => Ok(n),
            Err(_) => Err(count_fault(&mut self.faults)),
        }
    }

    fn write(&mut self, bytes: &[u8]) -> Result<usize, Failed> {
        match self.send(bytes) {
            Ok(n) if n > 0 || bytes.is_empty() => Ok(n),
            _ => Err(count_fault(&mut self.faults)),
        }
    }
}

/// A door over a listening socket, with the system's clock. Its links wait for their peers with the same patience.
///
/// It gives one link at a time: `next` fails until the last one has come back. It never says that no link will come. Where
/// accepting fails it tries again, and `next` fails after the hundredth error in one call. Where the clock cannot be read,
/// `moment` repeats the last moment, which is 0 at first.
#[derive(Drop)]
pub struct TcpDoor<C: Clock + Copy + Send, W: Wait + Copy> {
    // None while a link has it.
    entrance: Option<Entrance>,
    clock: C,
    // By which it waits for others at the door.
    waits: W,
    patience: Duration,
    last: u64,
    faults: u64,
}

impl<C: Clock + Copy + Send, W: Wait + Copy> TcpDoor<C, W> {
    /// A door over the listener, which does not block from now on. The patience is no less than a microsecond.
    pub fn new<R: Net>(
        alloc: Global,
        net: &R,
        listener: TcpListener,
        clock: C,
        waits: W,
        patience: Duration,
    ) -> io::Result<TcpDoor<C, W>>
        ensures { IfOk result (λ d. ⟦<TcpDoor<C, W> as Door>⟧.faults d ≡ 0) }
    {
        let entrance = Entrance::new(alloc, net, listener)?;
        Ok(TcpDoor {
            entrance: Some(entrance),
            clock,
            waits,
            patience,
            last: 0,
            faults: 0,
        })
    }

    /// Another door to the same address, where this one has given no link.
    pub fn beside<R: Net>(&self, alloc: Global, net: &R) -> io::Result<TcpDoor<C, W>>
        ensures { IfOk result (λ d. ⟦<TcpDoor<C, W> as Door>⟧.faults d ≡ 0) }
    {
        let Some(entrance) = &self.entrance else {
            return Err(io::Error::from(io::ErrorKind::WouldBlock));
        };
        let entrance = entrance.beside(alloc, net)?;
        Ok(TcpDoor {
            entrance: Some(entrance),
            clock: self.clock,
            waits: self.waits,
            patience: self.patience,
            last: 0,
            faults: 0,
        })
    }
}

impl<C: Clock + Copy + Send, W: Wait + Copy> Door for TcpDoor<C, W> {
    type Link = TcpLink<C>;

    ghost held = { λ _. None };

    ghost faults = { λ d. d.faults };

    fn next(&mut self) -> Result<Option<TcpLink<C>>, Failed> {
        let Some(entrance) = self.entrance.take() else {
            return Err(count_fault(&mut self.faults));
        };
        match next_link(entrance, self.clock, &self.waits, self.patience) {
            Ok(link) => Ok(Some(link)),
            Err(entrance) => {
                self.entrance = Some(entrance);
                Err(count_fault(&mut self.faults))
            }
        }
    }

    fn moment(&mut self) -> u64 {
        if let Some(moment) = read_clock(&self.clock) {
            self.last = moment;
        }
        self.last
    }

    fn done(&mut self, link: TcpLink<C>) {
        self.entrance = Some(link.entrance);
    }
}

// Counts a fault.
fn count_fault(faults: &mut u64) -> Failed
    ensures counted { faults.new ≡ one_more faults.old }
    ensures kept { faults.old ≤ faults.new }
{
    *faults = faults.saturating_add(1);
    Failed
}

// The next link that comes through the entrance, which it has then; or the entrance again.
fn next_link<C: Clock + Copy, W: Wait>(
    entrance: Entrance,
    clock: C,
    waits: &W,
    patience: Duration,
) -> Result<TcpLink<C>, Entrance> {
    let mut entrance = entrance;
    for _ in 0..MOST_ERRORS {
        if let Ok((arrival, since)) = next_arrival(&mut entrance, &clock, waits, patience) {
            let Arrival { stream, had_waited } = arrival;
            return Ok(TcpLink {
                stream,
                clock,
                patience,
                since,
                entrance,
                is_answered: false,
                is_crowded: had_waited,
                is_watched: false,
                faults: 0,
            });
        }
    }
    Err(entrance)
}

// The next stream that comes, made ready, and when it came.
fn next_arrival<C: Clock, W: Wait>(
    entrance: &mut Entrance,
    clock: &C,
    waits: &W,
    patience: Duration,
) -> io::Result<(Arrival, Instant)> {
    let arrival = entrance.next(waits)?;
    make_ready(&arrival.stream, patience)?;
    let since = Instant::now(clock)?;
    Ok((arrival, since))
}

// Has the stream send without delay, and the system wait only so long for its peer.
fn make_ready(stream: &TcpStream, patience: Duration) -> io::Result<()> {
    stream.set_nodelay(true)?;
    stream.set_read_timeout(Some(patience.min(Duration::from_millis(QUICK))))?;
    stream.set_write_timeout(Some(patience))
}

// Milliseconds since 1970, where the clock can be read.
fn read_clock<C: Clock>(clock: &C) -> Option<u64> {
    let now = SystemTime::now(clock).ok()?;
    let since = now.duration_since(SystemTime::UNIX_EPOCH).ok()?;
    u64::try_from(since.as_millis()).ok()
}
