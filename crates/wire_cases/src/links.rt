//! Calls of `link_door`: links and doors in memory.
use case_lines::{done, kept, numbers_in, paired};
use link_door::{Door, Link, MemDoor, MemLink};
use rtb_num::{Failed, List, Txt, write_decimal};
use std::alloc::{AllocError, Global};

/// Answers a call of this area, or tells that it is none. CALLS are the numbers of the calls that fail,
/// from 1 on.
///
/// - `link | BYTES | PIECES | CALLS`: in turn what a read of up to three bytes gives and how much a write
///   of the next piece takes, for each piece; then in brackets what was sent, and the faults counted.
///   PIECES have one space between two.
/// - `door | LINKS | MOMENTS | CALLS`: what each call of `next` gives, up to none or the twentieth: the
///   bytes that the link has left, and a moment; then how many links came back, and the faults counted.
///   LINKS have one space between two.
pub fn answer(alloc: Global, call: &[u8], args: &[Txt], out: &mut Txt) -> Result<bool, AllocError> {
    match args {
        [bytes, pieces, calls] if call == b"link".as_slice() => {
            done(use_link(alloc, bytes, pieces.as_bytes(), calls.as_bytes(), out))
        }
        [links, moments, calls] if call == b"door".as_slice() => {
            done(use_door(
                alloc,
                links.as_bytes(),
                moments.as_bytes(),
                calls.as_bytes(),
                out,
            ))
        }
        _ => Ok(false),
    }
}

fn use_link(
    alloc: Global,
    bytes: &Txt,
    pieces: &[u8],
    calls: &[u8],
    out: &mut Txt,
) -> Result<(), AllocError> {
    let (left, fails) = paired(bytes.copy(), numbers_in(alloc, calls))?;
    let mut link = MemLink::new(alloc, left, fails);
    let written = pass_pieces(&mut link, pieces, out);
    drop(link);
    written
}

fn pass_pieces(link: &mut MemLink, pieces: &[u8], out: &mut Txt) -> Result<(), AllocError> {
    for piece in pieces.split(|c| *c == b' ') {
        read_three(link, out)?;
        write_piece(link, piece, out)?;
    }
    put_sent(link, out)?;
    tell_faults(link.calls().faults(), out)
}

fn put_sent(link: &MemLink, out: &mut Txt) -> Result<(), AllocError> {
    out.extend_all(&[b"[", link.sent().as_bytes(), b"]"])
}

// What a write of the piece takes.
pub(crate) fn write_piece<L: Link>(
    link: &mut L,
    piece: &[u8],
    out: &mut Txt,
) -> Result<(), AllocError> {
    match link.write(piece) {
        Ok(n) => {
            write_decimal(n as u64, out)?;
            out.push(b' ')
        }
        Err(Failed) => out.extend(b"failed "),
    }
}

// What a read of up to three bytes gives.
pub(crate) fn read_three<L: Link>(link: &mut L, out: &mut Txt) -> Result<(), AllocError> {
    let mut piece = [0u8; 3];
    match link.read(&mut piece, false) {
        Ok(0) => out.extend(b"end "),
        Ok(n) => out.extend_all(&[&piece[..n], b" "]),
        Err(Failed) => out.extend(b"failed "),
    }
}

fn use_door(
    alloc: Global,
    links: &[u8],
    moments: &[u8],
    calls: &[u8],
    out: &mut Txt,
) -> Result<(), AllocError> {
    let given = paired(links_in(alloc, links), numbers_in(alloc, calls));
    let ((links, fails), moments) = paired(given, numbers_in(alloc, moments))?;
    if moments.is_empty() {
        drop(links);
        drop(fails);
        drop(moments);
        return out.extend(b"no moments");
    }
    let mut door = MemDoor::new(alloc, links, moments, fails)?;
    let written = pass_all(&mut door, out);
    drop(door);
    written
}

fn pass_all(door: &mut MemDoor, out: &mut Txt) -> Result<(), AllocError> {
    for _ in 0..20u32 {
        if !pass_one(door, out)? {
            break;
        }
    }
    write_decimal(door.served().len() as u64, out)?;
    tell_faults(door.calls().faults(), out)
}

// Whether there was a link, or a fault in its place.
fn pass_one(door: &mut MemDoor, out: &mut Txt) -> Result<bool, AllocError> {
    match door.next() {
        Ok(Some(link)) => done(serve(door, link, out)),
        Ok(None) => {
            out.extend(b"none ")?;
            Ok(false)
        }
        Err(Failed) => done(out.extend(b"failed ")),
    }
}

fn serve(door: &mut MemDoor, link: MemLink, out: &mut Txt) -> Result<(), AllocError> {
    let mut link = link;
    let told = tell_link(door.moment(), &mut link, out);
    door.done(link);
    told
}

fn tell_link(moment: u64, link: &mut MemLink, out: &mut Txt) -> Result<(), AllocError> {
    read_three(link, out)?;
    write_decimal(moment, out)?;
    out.push(b' ')
}

fn links_in(alloc: Global, line: &[u8]) -> Result<List<MemLink>, AllocError> {
    let mut links = List::new(alloc);
    let filled = put_links(alloc, line, &mut links);
    kept(links, filled)
}

fn put_links(alloc: Global, line: &[u8], links: &mut List<MemLink>) -> Result<(), AllocError> {
    for word in line.split(|c| *c == b' ') {
        let left = Txt::from_slice(alloc, word)?;
        links.push(MemLink::new(alloc, left, List::new(alloc)))?;
    }
    Ok(())
}

fn tell_faults(faults: u64, out: &mut Txt) -> Result<(), AllocError> {
    out.extend(b", faults ")?;
    write_decimal(faults, out)
}
