//! The links, doors and the world of the system, over this machine's loopback: what it does there, no
//! proof sees.
use crate::links::{read_three, write_piece};
use link_door::{Door, Link, OsWorld, TcpDoor, TcpLink, World};
use rtb_num::{Failed, List, Txt, write_decimal};
use std::io::{self, Read, Write};
use std::net::{TcpListener, TcpStream};
use std::os::fd::OwnedFd;
use std::sync::Wait;
use std::sync::atomic::{AtomicU64, Ordering};
use std::thread::sleep;
use std::time::{Clock, Duration};

/// Appends a line for each thing that is tried:
///
/// - `link`: a read, a read and a write at a link that a door gives, what its peer reads, and the link's
///   next read, when the peer is gone.
/// - `delay`: whether a link sends without delay.
/// - `patience`: at links whose peers may take 200 milliseconds, a read where nothing comes, reads of a byte each ten
///   milliseconds until one fails, a read of what came too late behind a write, and writes that nobody takes until one fails.
/// - `door`: what a door gives that cannot accept, and three moments of it by a clock that can be read
///   twice, at 4998 and 4999.
/// - `world`: for two doors at one address, whether each is reached; and whether doors and a disk come of
///   a name that nothing has.
pub fn put_tried<W: Wait + Sync>(rt: &HostRuntime, waits: &W, out: &mut Txt) -> io::Result<()> {
    out.extend(b"link: ")?;
    put_link(rt, waits, out)?;
    out.extend(b"\ndelay: ")?;
    put_delay(rt, waits, out)?;
    out.extend(b"\npatience: ")?;
    put_patience(rt, waits, out)?;
    out.extend(b"\ndoor: ")?;
    put_door(rt, waits, out)?;
    out.extend(b"\nworld: ")?;
    put_world(rt, waits, out)?;
    out.push(b'\n')?;
    Ok(())
}

fn put_link<W: Wait + Sync>(rt: &HostRuntime, waits: &W, out: &mut Txt) -> io::Result<()> {
    let listener = TcpListener::bind(rt, "127.0.0.1:0")?;
    let peer = TcpStream::connect(rt, listener.local_addr()?)?;
    let mut door = door_over(rt, waits, listener, Duration::from_secs(60))?;
    let given = door.next();
    drop(door);
    match given {
        Ok(Some(link)) => put_passed(link, peer, out),
        Ok(None) | Err(Failed) => put_none(peer, out),
    }
}

fn door_over<'r, W: Wait + Sync>(
    rt: &'r HostRuntime,
    waits: &'r W,
    listener: TcpListener,
    patience: Duration,
) -> io::Result<TcpDoor<&'r HostRuntime, &'r W>> {
    TcpDoor::new(rt.alloc(), rt, listener, rt, waits, patience)
}

fn put_passed<C: Clock + Copy>(link: TcpLink<C>, peer: TcpStream, out: &mut Txt) -> io::Result<()> {
    let mut link = link;
    let mut peer = peer;
    let passed = pass_both_ways(&mut link, &mut peer, out);
    drop(peer);
    let read = read_three(&mut link, out);
    drop(link);
    read?;
    passed
}

fn pass_both_ways<C: Clock + Copy>(
    link: &mut TcpLink<C>,
    peer: &mut TcpStream,
    out: &mut Txt,
) -> io::Result<()> {
    let mut piece = [0u8; 8];
    peer.write_all(b"hello")?;
    read_three(link, out)?;
    read_three(link, out)?;
    write_piece(link, b"answer", out)?;
    let n = peer.read(&mut piece)?;
    out.extend_all(&[&piece[..n], b" "])?;
    Ok(())
}

fn put_none(peer: TcpStream, out: &mut Txt) -> io::Result<()> {
    drop(peer);
    out.extend(b"none")?;
    Ok(())
}

fn put_delay<W: Wait + Sync>(rt: &HostRuntime, waits: &W, out: &mut Txt) -> io::Result<()> {
    let (link, peer) = linked(rt, waits)?;
    let at_once = link.stream().nodelay()?;
    drop(link);
    drop(peer);
    out.extend(if at_once { b"no" } else { b"yes" })?;
    Ok(())
}

fn put_patience<W: Wait + Sync>(rt: &HostRuntime, waits: &W, out: &mut Txt) -> io::Result<()> {
    put_silent(rt, waits, out)?;
    put_slow(rt, waits, out)?;
    put_answered(rt, waits, out)?;
    put_unread(rt, waits, out)
}

// A link whose peer may take 200 milliseconds, and the peer.
fn linked<'r, W: Wait + Sync>(
    rt: &'r HostRuntime,
    waits: &'r W,
) -> io::Result<(TcpLink<&'r HostRuntime>, TcpStream)> {
    let listener = TcpListener::bind(rt, "127.0.0.1:0")?;
    let peer = TcpStream::connect(rt, listener.local_addr()?)?;
    let mut door = door_over(rt, waits, listener, Duration::from_millis(200))?;
    let link = next_link(&mut door)?;
    Ok((link, peer))
}

fn next_link<'r, W: Wait + Sync>(
    door: &mut TcpDoor<&'r HostRuntime, &'r W>,
) -> io::Result<TcpLink<&'r HostRuntime>> {
    match door.next() {
        Ok(Some(link)) => Ok(link),
        Ok(None) | Err(Failed) => Err(io::Error::from(io::ErrorKind::Other)),
    }
}

// The peer sends nothing.
fn put_silent<W: Wait + Sync>(rt: &HostRuntime, waits: &W, out: &mut Txt) -> io::Result<()> {
    let (link, peer) = linked(rt, waits)?;
    let mut link = link;
    read_three(&mut link, out)?;
    drop(peer);
    Ok(())
}

// The peer sends a byte each ten milliseconds, which is read at once.
fn put_slow<W: Wait + Sync>(rt: &HostRuntime, waits: &W, out: &mut Txt) -> io::Result<()> {
    let (link, peer) = linked(rt, waits)?;
    let (mut link, mut peer) = (link, peer);
    let mut piece = [0u8; 1];
    for _ in 0..1000u32 {
        peer.write_all(b"a")?;
        if link.read(&mut piece, true).is_err() {
            out.extend(b"failed ")?;
            return Ok(());
        }
        sleep(rt, Duration::from_millis(10));
    }
    Ok(())
}

// The peer sends too late, but has its time again behind a write.
fn put_answered<W: Wait + Sync>(rt: &HostRuntime, waits: &W, out: &mut Txt) -> io::Result<()> {
    let (link, peer) = linked(rt, waits)?;
    let (mut link, mut peer) = (link, peer);
    sleep(rt, Duration::from_millis(250));
    peer.write_all(b"late")?;
    write_piece(&mut link, b"answer", out)?;
    read_three(&mut link, out)?;
    drop(peer);
    Ok(())
}

// The peer takes nothing of what is written, once the system has no more room for it.
fn put_unread<W: Wait + Sync>(rt: &HostRuntime, waits: &W, out: &mut Txt) -> io::Result<()> {
    let (link, peer) = linked(rt, waits)?;
    let mut link = link;
    let piece = [0u8; 4096];
    for _ in 0..100_000u32 {
        if link.write(&piece).is_err() {
            out.extend(b"failed")?;
            break;
        }
    }
    drop(peer);
    Ok(())
}

// A stream that is no listening one cannot accept.
fn put_door<W: Wait + Sync>(rt: &HostRuntime, waits: &W, out: &mut Txt) -> io::Result<()> {
    let listener = TcpListener::bind(rt, "127.0.0.1:0")?;
    let stream = TcpStream::connect(rt, listener.local_addr()?)?;
    let clock = Fading {
        left: AtomicU64::new(2),
    };
    let deaf = TcpListener::from(OwnedFd::from(stream));
    let patience = Duration::from_secs(60);
    let mut door = TcpDoor::new(rt.alloc(), rt, deaf, &clock, waits, patience)?;
    put_given(door.next(), out)?;
    put_moments(&mut door, out)?;
    Ok(())
}

fn put_given<C: Clock + Copy>(
    given: Result<Option<TcpLink<C>>, Failed>,
    out: &mut Txt,
) -> io::Result<()> {
    match given {
        Ok(Some(link)) => {
            drop(link);
            out.extend(b"reached ")?;
        }
        Ok(None) => out.extend(b"none ")?,
        Err(Failed) => out.extend(b"failed ")?,
    }
    Ok(())
}

fn put_moments<W: Wait + Sync>(door: &mut TcpDoor<&Fading, &W>, out: &mut Txt) -> io::Result<()> {
    for _ in 0..3u32 {
        write_decimal(door.moment(), out)?;
        out.push(b' ')?;
    }
    Ok(())
}

// A clock that can be read so many times.
#[derive(Drop)]
struct Fading {
    left: AtomicU64,
}

impl Clock for Fading {
    fn monotonic(&self) -> io::Result<Duration> {
        self.since_1970()
    }

    fn since_1970(&self) -> io::Result<Duration> {
        let left = self.left.load(Ordering::Relaxed);
        if left == 0 {
            return Err(io::Error::from(io::ErrorKind::Other));
        }
        self.left.store(left - 1, Ordering::Relaxed);
        Ok(Duration::from_millis(5000 - left.min(5000)))
    }
}

fn put_world<W: Wait + Sync>(rt: &HostRuntime, waits: &W, out: &mut Txt) -> io::Result<()> {
    let mut world = OsWorld::new(rt, waits);
    let address = free_address(rt)?;
    match world.doors(rt.alloc(), &address, 2, 60_000) {
        Ok(doors) => put_doors(rt, doors, &address, out)?,
        Err(_) => out.extend(b"no doors ")?,
    }
    put_missing(rt, &mut world, out)
}

// An address of this machine that nobody listens on.
fn free_address(rt: &HostRuntime) -> io::Result<Txt> {
    let listener = TcpListener::bind(rt, "127.0.0.1:0")?;
    let address = listener.local_addr()?;
    let text = format!(in rt.alloc(); "{address}")?;
    Ok(Txt::from_slice(rt.alloc(), text.as_bytes())?)
}

fn put_doors<'r, W: Wait + Sync>(
    rt: &'r HostRuntime,
    doors: List<TcpDoor<&'r HostRuntime, &'r W>>,
    address: &Txt,
    out: &mut Txt,
) -> io::Result<()> {
    let mut doors = doors.into_vec();
    let address = str::from_utf8(address.as_bytes()).unwrap_or("");
    let written = put_reached(rt, doors.as_mut_slice(), address, out);
    drop(doors);
    written
}

fn put_reached<'r, W: Wait + Sync>(
    rt: &'r HostRuntime,
    doors: &mut [TcpDoor<&'r HostRuntime, &'r W>],
    address: &str,
    out: &mut Txt,
) -> io::Result<()> {
    for door in doors.iter_mut() {
        let peer = TcpStream::connect(rt, address)?;
        let given = door.next();
        drop(peer);
        put_given(given, out)?;
    }
    Ok(())
}

fn put_missing<W: Wait + Sync>(
    rt: &HostRuntime,
    world: &mut OsWorld<'_, W>,
    out: &mut Txt,
) -> io::Result<()> {
    let nowhere = Txt::from_slice(rt.alloc(), b"nowhere/at all")?;
    let has_doors = world.doors(rt.alloc(), &nowhere, 1, 60_000).is_ok();
    let has_disk = world.disk(&nowhere).is_ok();
    out.extend(if has_doors { b"doors " } else { b"no doors " })?;
    out.extend(if has_disk { b"disk" } else { b"no disk" })?;
    Ok(())
}
