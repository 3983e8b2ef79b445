//! The links of a door, one after the other.
ghost use Rattle.std.specs.Prelude.{◌≡◌, ◌<◌, List, OnOk, false, Ok};
ghost use Rattle.follower.specs.Doors.{HasTalk, LeavesNone, ServesReports};
ghost use Rattle.rtb_base.specs.Faults.{CountsErrors};
ghost use Rattle.session.specs.Talk.{Turn};

use crate::follower::Follower;
use link_door::{Door, Link};
use rtb_base::Steps;
use rtb_disk::Disk;
use rtb_num::Failed;
use session::serve_link;
use std::alloc::Global;
use std::marker::Brand;
use std::sync::Wait;
use std::sync::ledger::{Blank, Ledger};

/// Serves the links of the door with reports, one after the other, each to its end, and gives each back to the door. It
/// ends where no more links will come, or where the door failed. No moment of the door is taken.
pub fn serve_reports<D: Disk, R: Wait, G: Door>(
    rt: &R,
    alloc: Global,
    follower: &mut Follower<D>,
    door: &mut G,
) -> Result<(), Failed>
    ensures served { ServesReports D.Disk G.Link.Link follower.old (G.held door.old) follower.new (G.held door.new) }
    ensures all { OnOk result (LeavesNone (G.held door.old) (G.held door.new)) }
    ensures cause { CountsErrors (G.faults door.old) (G.faults door.new) result }
{
    for _ in rt.forever() {
        let more = serve_next(alloc, follower, door)?;
        if !more {
            return Ok(());
        }
    }
    unreachable!()
}

// Serves the next link. False where there is none.
fn serve_next<D: Disk, G: Door>(
    alloc: Global,
    follower: &mut Follower<D>,
    door: &mut G,
) -> Result<bool, Failed>
    ensures served { ServesReports D.Disk G.Link.Link follower.old (G.held door.old) follower.new (G.held door.new) }
    ensures all { result ≡ Ok false → LeavesNone (G.held door.old) (G.held door.new) }
    ensures cause { CountsErrors (G.faults door.old) (G.faults door.new) result }
{
    let next = door.next()?;
    match next {
        Some(link) => {
            let link = serve_one::<D, G::Link, Brand>(alloc, follower, link, Blank::new(1));
            door.done(link);
            Ok(true)
        }
        None => Ok(false),
    }
}

// Serves a link. The steps are not counted.
fn serve_one<D: Disk, K: Link, L: Ledger>(
    alloc: Global,
    follower: &mut Follower<D>,
    link: K,
    blank: Blank,
) -> K
    requires name { blank.name ≡ L.name }
    requires parts { blank.parts ≡ L.parts }
    requires some { 0 < blank.parts }
    ensures { (turns : List Turn) × HasTalk D.Disk K.Link link result turns follower.old follower.new }
{
    let mut link = link;
    let mut steps = Steps::<L>::new(blank);
    let end = serve_link(alloc, follower, &mut link, &mut steps);
    drop(end);
    link
}
