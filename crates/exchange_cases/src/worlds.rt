//! The world of a run, in memory: two disks or three, and the doors and the keys that its fields say.
ghost use Rattle.std.specs.Prelude.{◌≢◌, [], IfOk};

use crate::fields::{field, numbers};
use crate::links::put_links;
use case_lines::{kept, number_in, numbers_in};
use link_door::{MemDoor, MemLink, MemWorld};
use rtb_disk::MemDisk;
use rtb_num::{List, Txt};
use std::alloc::{AllocError, Global};

/// The world of these fields.
pub fn world_of(alloc: Global, args: &[Txt]) -> Result<MemWorld, AllocError> {
    let fails = numbers(alloc, args, b"world ");
    match (
        disks_of(alloc, args),
        doors_of(alloc, args),
        keys_of(alloc, args),
        fails,
    ) {
        (Ok(disks), Ok(doors), Ok(keys), Ok(fails)) => {
            let mut world = MemWorld::new(alloc, doors, disks, keys, fails);
            world.busy_for(number_in(field(args, b"busy ")).unwrap_or(0));
            Ok(world)
        }
        _ => Err(AllocError),
    }
}

// The text of each field of a key, in their order.
fn keys_of(alloc: Global, args: &[Txt]) -> Result<List<Txt>, AllocError> {
    let mut keys = List::new(alloc);
    let filled = put_keys(alloc, args, &mut keys);
    kept(keys, filled)
}

fn put_keys(alloc: Global, args: &[Txt], keys: &mut List<Txt>) -> Result<(), AllocError> {
    for arg in args {
        if let Some(text) = arg.as_bytes().strip_prefix(b"key ".as_slice()) {
            keys.push(Txt::from_slice(alloc, text)?)?;
        }
    }
    Ok(())
}

fn disks_of(alloc: Global, args: &[Txt]) -> Result<List<MemDisk>, AllocError> {
    let from = disk_of(
        alloc,
        field(args, b"journal "),
        field(args, b"disk "),
        field(args, b"stop "),
    );
    let into = disk_of(
        alloc,
        field(args, b"file "),
        field(args, b"disk2 "),
        field(args, b"stop2 "),
    );
    with_last(
        alloc,
        args,
        field(args, b"disk3 "),
        field(args, b"stop3 "),
        both(alloc, from, into),
    )
}

/// These disks, and behind them the one that the world gives at last, where the fields have one, with these calls that fail.
pub fn with_last(
    alloc: Global,
    args: &[Txt],
    fails: &[u8],
    stop: &[u8],
    disks: Result<List<MemDisk>, AllocError>,
) -> Result<List<MemDisk>, AllocError> {
    match disks {
        Ok(disks) => {
            let mut disks = disks;
            let filled = put_last(alloc, args, fails, stop, &mut disks);
            kept(disks, filled)
        }
        Err(AllocError) => Err(AllocError),
    }
}

fn put_last(
    alloc: Global,
    args: &[Txt],
    fails: &[u8],
    stop: &[u8],
    disks: &mut List<MemDisk>,
) -> Result<(), AllocError> {
    for arg in args {
        if let Some(content) = arg.as_bytes().strip_prefix(b"later ".as_slice()) {
            disks.push(disk_of(alloc, content, fails, stop)?)?;
        }
    }
    Ok(())
}

/// These two disks.
pub fn both(
    alloc: Global,
    from: Result<MemDisk, AllocError>,
    into: Result<MemDisk, AllocError>,
) -> Result<List<MemDisk>, AllocError> {
    match (from, into) {
        (Ok(from), Ok(into)) => pair(alloc, from, into),
        _ => Err(AllocError),
    }
}

fn pair(alloc: Global, from: MemDisk, into: MemDisk) -> Result<List<MemDisk>, AllocError> {
    let mut disks = List::new(alloc);
    disks.push(from)?;
    disks.push(into)?;
    Ok(disks)
}

/// A disk that has these bytes, where the calls with these numbers fail, and all calls from the last number on.
pub fn disk_of(
    alloc: Global,
    content: &[u8],
    fails: &[u8],
    stop: &[u8],
) -> Result<MemDisk, AllocError> {
    let content = Txt::from_slice(alloc, content)?;
    let fails = numbers_in(alloc, fails)?;
    let mut disk = MemDisk::new(alloc, content, fails);
    if let Some(call) = number_in(stop) {
        disk.stop_at(call);
    }
    Ok(disk)
}

// A door for each field of links, in their order.
fn doors_of(alloc: Global, args: &[Txt]) -> Result<List<MemDoor>, AllocError> {
    let mut doors = List::new(alloc);
    let filled = put_doors(alloc, args, &mut doors);
    kept(doors, filled)
}

fn put_doors(alloc: Global, args: &[Txt], doors: &mut List<MemDoor>) -> Result<(), AllocError> {
    for arg in args {
        if let Some(links) = arg.as_bytes().strip_prefix(b"links".as_slice()) {
            let fails = fails_of(args, doors.is_empty());
            doors.push(door_of(alloc, args, links, fails)?)?;
        }
    }
    Ok(())
}

// The numbers of the calls of a door that fail: of the first alone.
fn fails_of(args: &[Txt], is_first: bool) -> &[u8] {
    if is_first {
        return field(args, b"door ");
    }
    b""
}

// A door with these links, behind the space that stands before them.
fn door_of(alloc: Global, args: &[Txt], links: &[u8], fails: &[u8]) -> Result<MemDoor, AllocError> {
    let moments = moments_of(alloc, args)?;
    let fails = numbers_in(alloc, fails)?;
    let links = links_of(
        alloc,
        links.strip_prefix(b" ".as_slice()),
        field(args, b"link "),
    )?;
    MemDoor::new(alloc, links, moments, fails)
}

fn links_of(alloc: Global, text: Option<&[u8]>, fails: &[u8]) -> Result<List<MemLink>, AllocError> {
    let mut links = List::new(alloc);
    let filled = put_links(alloc, text.unwrap_or(b""), fails, &mut links);
    kept(links, filled)
}

// The moments of the field, or the moment 1000, of which the last repeats.
fn moments_of(alloc: Global, args: &[Txt]) -> Result<List<u64>, AllocError>
    ensures { IfOk result (λ moments. moments ≢ []) }
{
    let moments = numbers(alloc, args, b"moments ")?;
    if moments.is_empty() {
        drop(moments);
        return one_moment(alloc);
    }
    Ok(moments)
}

fn one_moment(alloc: Global) -> Result<List<u64>, AllocError>
    ensures { IfOk result (λ moments. moments ≢ []) }
{
    let mut moments = List::new(alloc);
    moments.push(1000)?;
    Ok(moments)
}
