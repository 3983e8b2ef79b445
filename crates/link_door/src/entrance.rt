//! Where links of the network come: a listening socket, at which a door waits, and past which a link looks.
//!
//! The system tells each that waits at the socket of a stream that comes, so of the workers without a link one waits there,
//! and the others for that one's place.
use mio::unix::SourceFd;
use mio::{Events, Interest, Poll, Token};
use std::alloc::Global;
use std::io;
use std::net::{Net, TcpListener, TcpStream};
use std::os::fd::AsRawFd;
use std::sync::atomic::{AtomicU32, AtomicU64, Ordering};
use std::sync::{Arc, Wait};
use std::time::Duration;

// What the system tells to be ready: the listening socket, or the peer of the link that is served.
const LISTENER: Token = Token(0);

const PEER: Token = Token(1);

// Both, and one more of each that was told before.
const MOST_EVENTS: usize = 4;

// Whether the place at the socket is free, taken, or taken while others may wait for it.
const FREE: u64 = 0;

const TAKEN: u64 = 1;

const WANTED: u64 = 2;

/// A stream that came, and whether it had waited for the worker.
#[derive(Drop)]
pub(crate) struct Arrival {
    pub stream: TcpStream,
    pub had_waited: bool,
}

/// A listening socket that does not block, and the system's means to wait at it. Entrances beside each other share the
/// socket. One is with its door, or with the link that the door gave.
#[derive(Drop)]
pub(crate) struct Entrance {
    listener: TcpListener,
    poll: Poll,
    events: Events<Global>,
    // How many workers are without a link and take the next that comes, over all entrances beside each other.
    free: Arc<AtomicU32>,
    // The place at the socket, of which they share one too.
    place: Arc<AtomicU64>,
    // What was taken in place of the link that was served.
    ahead: Option<TcpStream>,
}

impl Entrance {
    /// An entrance over the listener, from now on one that does not block.
    pub(crate) fn new<R: Net>(
        alloc: Global,
        net: &R,
        listener: TcpListener,
    ) -> io::Result<Entrance> {
        let free = Arc::new(alloc, AtomicU32::new(0))?;
        let place = Arc::new(alloc, AtomicU64::new(FREE))?;
        Entrance::with(alloc, net, listener, free, place)
    }

    /// Another entrance beside this one.
    pub(crate) fn beside<R: Net>(&self, alloc: Global, net: &R) -> io::Result<Entrance> {
        let listener = self.listener.try_clone()?;
        let free = Arc::try_clone(&self.free)?;
        let place = Arc::try_clone(&self.place)?;
        Entrance::with(alloc, net, listener, free, place)
    }

    fn with<R: Net>(
        alloc: Global,
        net: &R,
        listener: TcpListener,
        free: Arc<AtomicU32>,
        place: Arc<AtomicU64>,
    ) -> io::Result<Entrance> {
        listener.set_nonblocking(true)?;
        let poll = Poll::new(net)?;
        let at = listener.as_raw_fd();
        poll.registry()
            .register(&mut SourceFd(&at), LISTENER, Interest::READABLE)?;
        let events = Events::with_capacity(alloc, MOST_EVENTS)?;
        Ok(Entrance {
            listener,
            poll,
            events,
            free,
            place,
            ahead: None,
        })
    }

    /// The next stream. It may wait for a peer.
    pub(crate) fn next<W: Wait>(&mut self, rt: &W) -> io::Result<Arrival> {
        if let Some(stream) = self.ahead.take() {
            return Ok(Arrival {
                stream,
                had_waited: true,
            });
        }
        self.free.fetch_add(1, Ordering::SeqCst);
        let came = self.accept(rt);
        self.free.fetch_sub(1, Ordering::SeqCst);
        came
    }

    // One that waits is taken at once.
    fn accept<W: Wait>(&mut self, rt: &W) -> io::Result<Arrival> {
        match self.listener.accept() {
            Ok((stream, _)) => Ok(Arrival {
                stream,
                had_waited: true,
            }),
            Err(fault) if fault.kind() != io::ErrorKind::WouldBlock => Err(fault),
            Err(_) => self.accept_in_place(rt),
        }
    }

    fn accept_in_place<W: Wait>(&mut self, rt: &W) -> io::Result<Arrival> {
        self.take_place(rt);
        let came = self.accept_next();
        self.leave_place();
        came
    }

    // Waits for a stream.
    fn accept_next(&mut self) -> io::Result<Arrival> {
        for _ in 0..u64::MAX {
            match self.listener.accept() {
                Ok((stream, _)) => {
                    return Ok(Arrival {
                        stream,
                        had_waited: false,
                    });
                }
                Err(fault) if fault.kind() != io::ErrorKind::WouldBlock => return Err(fault),
                Err(_) => {}
            }
            self.poll.poll(&mut self.events, None)?;
        }
        Err(io::Error::from(io::ErrorKind::TimedOut))
    }

    // Waits until nobody else waits at the socket.
    fn take_place<W: Wait>(&self, rt: &W) {
        if self
            .place
            .compare_exchange(FREE, TAKEN, Ordering::SeqCst, Ordering::SeqCst)
            .is_ok()
        {
            return;
        }
        for _ in rt.forever() {
            if self.place.swap(WANTED, Ordering::SeqCst) == FREE {
                return;
            }
            self.place.park(rt, WANTED as u32);
        }
    }

    // Another may wait there.
    fn leave_place(&self) {
        if self.place.swap(FREE, Ordering::SeqCst) == WANTED {
            self.place.wake_one();
        }
    }

    /// Takes a stream that waits, where no worker is free for it, and tells whether it did. `next` gives that one then.
    pub(crate) fn takes_ahead(&mut self) -> bool {
        if self.ahead.is_none() && self.free.load(Ordering::SeqCst) == 0 {
            if let Ok((stream, _)) = self.listener.accept() {
                self.ahead = Some(stream);
            }
        }
        self.ahead.is_some()
    }

    /// Has the system tell of the stream's peer too, until the stream is closed.
    pub(crate) fn watch(&mut self, stream: &TcpStream) -> io::Result<()> {
        let peer = stream.as_raw_fd();
        self.poll
            .registry()
            .register(&mut SourceFd(&peer), PEER, Interest::READABLE)
    }

    /// Waits as long as this, until the peer that is watched sends something, or a stream comes that had not waited
    /// before, and tells whether the peer did.
    pub(crate) fn wait(&mut self, limit: Duration) -> io::Result<bool> {
        self.poll.poll(&mut self.events, Some(limit))?;
        for event in self.events.iter() {
            if event.token() == PEER {
                return Ok(true);
            }
        }
        Ok(false)
    }

    /// The same, where a stream that waits already ends it too.
    pub(crate) fn wait_at_both(&mut self, limit: Duration) -> io::Result<bool> {
        let at = self.listener.as_raw_fd();
        self.poll
            .registry()
            .reregister(&mut SourceFd(&at), LISTENER, Interest::READABLE)?;
        self.wait(limit)
    }
}
