//! A worker of an exchange.
ghost use Rattle.std.specs.Prelude.{◌≡◌};
ghost use Rattle.door_worker.specs.Languages.{rtb};
ghost use Rattle.door_worker.specs.Working.{AnswersBy};
ghost use Rattle.session.specs.Talk.{IsGivable};

use crate::messages::answer;
use address_keys::Keys;
use command_read::Rooms;
use conj_index::Scratch;
use exchange_shared::{Exchange, Seat};
use http_wire::Message;
use link_door::Pause;
use rtb_disk::Disk;
use rtb_num::Txt;
use session::Given;
use std::alloc::Global;
use std::marker::Model;
use std::mem;
use std::sync::Wait;

// What a worker takes from its caller, and its number.
#[derive(Clone, Copy)]
pub(crate) struct Tools<'e, R: Wait, P: Pause> {
    pub rt: &'e R,
    pub alloc: Global,
    pub pause: &'e P,
    pub public: &'e Txt,
    pub keys: &'e Keys,
    pub number: u32,
}

// An exchange, the worker's seat at it, the room in which it finds, and that in which it reads bodies.
pub(crate) struct Worker<'e, D: Disk> {
    pub exchange: &'e Exchange<D>,
    // None while a call has it.
    pub seat: Option<Seat<D>>,
    pub scratch: Scratch,
    pub rooms: Rooms,
}

impl<'e, D: Disk> Model for Worker<'e, D> {
    ghost use Rattle.std.specs.Prelude.{IfSome};
    ghost use Rattle.door_worker.specs.Working.{Post};
    ghost use Rattle.exchange_shared.specs.Seats.{MayCall, lock_of};

    ghost Value = { Post };

    ghost view = { λ w. record { here = lock_of w.exchange.now; seat = w.seat } };

    ghost invariant = { λ w. IfSome w.seat (λ s. MayCall (lock_of w.exchange.now) s) };
}

impl<'e, D: Disk> Worker<'e, D> {
    // Answers the message, which is taken up at the moment.
    pub(crate) fn answer<R: Wait, P: Pause>(
        &mut self,
        tools: &Tools<'e, R, P>,
        message: &Message,
        moment: u64,
    ) -> Given
        ensures here { self.new.here ≡ self.old.here }
        ensures answers { AnswersBy (rtb tools.now.public.now tools.now.keys.now) moment self.old.seat message.now result self.new.seat }
        ensures writable { IsGivable result }
    {
        let Some(seat) = self.seat.take() else {
            return Given::Memory;
        };
        let (seat, given) = answer(
            self.exchange,
            tools,
            &mut self.scratch,
            &mut self.rooms,
            seat,
            message,
            moment,
        );
        match mem::replace(&mut self.seat, Some(seat)) {
            None => given,
            Some(_) => unreachable!(),
        }
    }
}
