//! The service of a link.
ghost use Rattle.std.specs.Prelude.{◌≡◌};
ghost use Rattle.door_worker.specs.Languages.{rtb};
ghost use Rattle.door_worker.specs.Working.{IsAt, TalksOn, Works};
ghost use Rattle.session.specs.Talk.{IsGivable};

use crate::worker::{Tools, Worker};
use http_wire::Message;
use link_door::{Door, Pause};
use rtb_base::Steps;
use rtb_disk::Disk;
use session::{Given, LinkRoom, Service, serve_link_in};
use std::sync::Wait;
use std::sync::ledger::Ledger;

// What answers the messages of a link: the worker, at the moments of its door.
#[derive(Drop)]
pub(crate) struct Desk<'a, 'e, D: Disk, R: Wait, G: Door, P: Pause> {
    pub tools: &'a Tools<'e, R, P>,
    pub worker: &'a mut Worker<'e, D>,
    pub door: &'a mut G,
}

impl<'a, 'e, D: Disk, R: Wait, G: Door, P: Pause> Service for Desk<'a, 'e, D, R, G, P> {
    ghost answers = { λ old message given new. Works (rtb old.tools.now.public.now old.tools.now.keys.now) old.worker.now.seat (G.held old.door.now) message given new.worker.now.seat (G.held new.door.now)
        × (new.tools.now.public.now ≡ old.tools.now.public.now) × (new.tools.now.keys.now ≡ old.tools.now.keys.now) × (new.worker.now.here ≡ old.worker.now.here) × (G.faults new.door.now ≡ G.faults old.door.now)
        × (new.worker.ghost_name ≡ old.worker.ghost_name) × (new.door.ghost_name ≡ old.door.ghost_name) };

    fn answer(&mut self, message: &Message) -> Given {
        let moment = self.door.moment();
        self.worker.answer(self.tools, message, moment)
    }
}

// Serves a link to its end.
pub(crate) fn converse<'a, 'e, D: Disk, R: Wait, G: Door, P: Pause, L: Ledger>(
    room: &mut LinkRoom,
    desk: &mut Desk<'a, 'e, D, R, G, P>,
    link: &mut G::Link,
    steps: &mut Steps<L>,
)
    requires seat { IsAt desk.old.worker.now }
    ensures same_worker { desk.new.worker.ghost_name ≡ desk.old.worker.ghost_name }
    ensures same_door { desk.new.door.ghost_name ≡ desk.old.door.ghost_name }
    ensures here { desk.new.worker.now.here ≡ desk.old.worker.now.here }
    ensures talked { TalksOn G.Link.Link (rtb desk.old.tools.now.public.now desk.old.tools.now.keys.now) desk.old.worker.now (G.held desk.old.door.now) link.old link.new desk.new.worker.now (G.held desk.new.door.now) }
    ensures faults { G.faults desk.new.door.now ≡ G.faults desk.old.door.now }
{
    let alloc = desk.tools.alloc;
    let end = serve_link_in(alloc, room, desk, link, steps);
    drop(end);
}
