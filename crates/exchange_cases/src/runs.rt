//! Runs of the program's commands over a world in memory.
use crate::again::put_again;
use crate::fields::{field, numbers, words_in};
use crate::pauses::Holding;
use crate::told::tell_ended;
use crate::worlds::world_of;
use case_lines::done;
use exchange_run::{Outcome, run};
use link_door::MemWorld;
use rtb_num::{MemSink, MemSource, Txt};
use std::alloc::{AllocError, Global};
use std::sync::Wait;
use std::thread::Threads;

/// Answers a call of this area, or tells that it is none. The first field has the words of the command; the others are,
/// in any order and as far as there are any:
///
/// - `journal BYTES` and `file BYTES`: what the world's first disk has, and its second; `source BYTES`: what is read.
/// - `later BYTES`: what the disk has that the world gives at last, where there is one; `busy N`: so many calls for it find
///   that another writes it.
/// - `links LINK // ..`: a door with these links, as `links.rt` says; such a field for each door, also without a link.
/// - `key BYTES`: what the first file of a key has; a second such field is that of the next one.
/// - `moments N ..`: those of each door, of which the last repeats; without it 1000.
/// - `world N ..`, `disk N ..`, `disk2 N ..`, `disk3 N ..`, `door N ..`, `link N ..`, `reads N ..`, `writes N ..`: the numbers, from 1
///   on, of the calls that fail, of the world, the disks, the first door, each link, the source and the sink.
/// - `stop N`, `stop2 N`, `stop3 N`: each call of that disk fails from this number on.
/// - `held yes`: workers are held, as `pauses.rt` says.
///
/// The call says what is told of it: `again` is that of `again.rt`, and the others are those of `told.rt`.
pub fn answer<R: Threads + Wait + Sync>(
    rt: &R,
    alloc: Global,
    call: &[u8],
    args: &[Txt],
    out: &mut Txt,
) -> Result<bool, AllocError> {
    if call == b"again".as_slice() {
        return done(put_again(rt, alloc, args, out));
    }
    if is_told(call) {
        return done(put_run(rt, alloc, call, args, out));
    }
    Ok(false)
}

// Whether `told.rt` has this call.
fn is_told(call: &[u8]) -> bool {
    let calls = [
        b"run".as_slice(),
        b"files",
        b"sent",
        b"answers",
        b"last",
        b"crash",
    ];
    calls.contains(&call)
}

fn put_run<R: Threads + Wait + Sync>(
    rt: &R,
    alloc: Global,
    call: &[u8],
    args: &[Txt],
    out: &mut Txt,
) -> Result<(), AllocError> {
    let mut sink = MemSink::new(alloc, numbers(alloc, args, b"writes ")?);
    let ended = run_over(rt, alloc, args, world_of(alloc, args), &mut sink);
    let told = tell_ended(alloc, call, args, &ended, sink.written(), out);
    drop(ended);
    told
}

/// How the command of these fields ends over this world.
pub fn run_over<R: Threads + Wait + Sync>(
    rt: &R,
    alloc: Global,
    args: &[Txt],
    world: Result<MemWorld, AllocError>,
    sink: &mut MemSink,
) -> Result<Outcome<MemWorld>, AllocError> {
    match (words_of(alloc, args), source_of(alloc, args), world) {
        (Ok(words), Ok(source), Ok(world)) => {
            let pause = Holding::new(!field(args, b"held ").is_empty());
            Ok(run_words(rt, alloc, words.as_slice(), world, &pause, source, sink))
        }
        _ => Err(AllocError),
    }
}

fn words_of(alloc: Global, args: &[Txt]) -> Result<Vec<Txt>, AllocError> {
    match args.first() {
        Some(line) => words_in(alloc, line.as_bytes()),
        None => Ok(Vec::new(alloc)),
    }
}

fn source_of(alloc: Global, args: &[Txt]) -> Result<MemSource, AllocError> {
    let fails = numbers(alloc, args, b"reads ")?;
    let input = Txt::from_slice(alloc, field(args, b"source "))?;
    Ok(MemSource::new(input, fails))
}

fn run_words<R: Threads + Wait + Sync>(
    rt: &R,
    alloc: Global,
    words: &[Txt],
    world: MemWorld,
    pause: &Holding,
    source: MemSource,
    sink: &mut MemSink,
) -> Outcome<MemWorld> {
    let mut world = world;
    let mut source = source;
    let outcome = run(alloc, words, &mut world, pause, &mut source, sink, rt);
    drop(world);
    drop(source);
    outcome
}
