//! A change that is written before it is carried out, so that nobody else waits for the disk because of it.
use crate::exchange::{Exchange, Seat};
use crate::naming::{leave_acted, leave_put, leave_taken};
use crate::writing::write;
use exchange_state::{Errand, Settled, a_change_may_be_put_back};
use plain_exchange::Act;
use rtb_disk::Disk;
use std::alloc::AllocError;
use std::marker::Brand;
use std::sync::Wait;

/// What comes of a change that is to be written first.
#[derive(Drop)]
pub enum Changed {
    /// It is carried out and durable.
    Durable(Settled),
    /// It is carried out, and a call of the disk failed, so that it is not durable yet.
    StoreFailed(Settled),
    /// It is not carried out: the journal is out or broken, other effects are not durable, or it has none.
    NotAlone,
}

// The same before the block is written.
enum Staged<D: Disk> {
    Errand(Errand<D>),
    NotAlone,
}

impl<D: Disk> Exchange<D> {
    ghost use Rattle.std.specs.Prelude.{◌≡◌, IfOk, OnErr};
    ghost use Rattle.exchange_shared.specs.Errands.{HasEntered, HasStaged, Puts, Stages};
    ghost use Rattle.exchange_shared.specs.Seats.{Changes, IsOrdered, MayCall, Waits, lock_of};
    ghost use Rattle.exchange_state.specs.declared.errand.Errand.{Errand as AnErrand};
    ghost use Rattle.plain_exchange.specs.declared.commands.Command.TheVariants.{Act as AnAct};

    /// Whether effects of several workers came together lately, so that a change lands sooner with others than alone.
    pub fn is_shared(&self) -> bool {
        self.landings.is_shared()
    }

    /// Carries out an act once its effect is written. While it is, nothing else that has an effect
    /// is carried out, and what has none does not wait for it.
    pub fn change<R: Wait>(
        &self,
        rt: &R,
        seat: Seat<D>,
        act: &Act,
        moment: u64,
    ) -> (Seat<D>, Result<Changed, AllocError>)
        requires seat { MayCall (lock_of self.now) seat }
        ensures seat { MayCall (lock_of self.now) result.0 }
        ensures order { IsOrdered result.0.origin result.0.seen }
        ensures changed { IfOk result.1 (Changes (AnAct act.now) moment seat result.0) }
        ensures none { OnErr result.1 (Waits seat result.0) }
    {
        let (seat, staged) = self.stage(rt, seat, act, moment);
        match staged {
            Ok(Staged::Errand(errand)) => {
                let (seat, changed) = self.carry_ahead(rt, seat, errand, act, moment);
                (seat, Ok(changed))
            }
            Ok(Staged::NotAlone) => (seat, Ok(Changed::NotAlone)),
            Err(AllocError) => (seat, Err(AllocError)),
        }
    }

    // One turn: the journal is taken with the change's block.
    fn stage<R: Wait>(
        &self,
        rt: &R,
        seat: Seat<D>,
        act: &Act,
        moment: u64,
    ) -> (Seat<D>, Result<Staged<D>, AllocError>)
        requires seat { MayCall (lock_of self.now) seat }
        ensures staged { IfOk result.1 (Stages (lock_of self.now) (AnAct act.now) moment seat result.0) }
        ensures none { OnErr result.1 (Waits seat result.0) }
        ensures order { IsOrdered result.0.origin result.0.seen }
    {
        let (seat, mut turn) = self.lock.enter(rt, seat);
        match turn.value.stage(act, moment) {
            Ok(Some(errand)) => {
                self.landings.depart(errand.upto);
                let seat = leave_taken::<D, Brand>(&self.lock, seat, turn, &errand);
                (seat, Ok(Staged::Errand(errand)))
            }
            Ok(None) => (self.lock.leave(seat, turn), Ok(Staged::NotAlone)),
            Err(AllocError) => (self.lock.leave(seat, turn), Err(AllocError)),
        }
    }

    // Writes the block without the turn, carries the change out, and puts the journal back.
    fn carry_ahead<R: Wait>(
        &self,
        rt: &R,
        seat: Seat<D>,
        errand: Errand<D>,
        act: &Act,
        moment: u64,
    ) -> (Seat<D>, Changed)
        requires staged { HasStaged (lock_of self.now) seat (AnAct act.now) moment errand }
        ensures seat { MayCall (lock_of self.now) result.0 }
        ensures order { IsOrdered result.0.origin result.0.seen }
        ensures changed { Puts (AnAct act.now) moment seat errand result.0 result.1 }
    {
        a_change_may_be_put_back::<D>();
        let mut errand = errand;
        let written = write(&mut errand);
        let (seat, settled) = self.enter_ahead(rt, seat, act, moment);
        self.worn.note(act);
        let (seat, turn) = self.lock.enter(rt, seat);
        let landed = self.landings.land_ahead();
        let seat = leave_put::<D, Brand>(&self.lock, seat, turn, errand, written);
        self.landings.wake(landed);
        if written {
            (seat, Changed::Durable(settled))
        } else {
            (seat, Changed::StoreFailed(settled))
        }
    }

    // Carries the change out, in the first turn that finds it ahead and memory at hand. That is the first turn but where
    // memory is short, since nobody else carries out what has an effect.
    fn enter_ahead<R: Wait>(
        &self,
        rt: &R,
        seat: Seat<D>,
        act: &Act,
        moment: u64,
    ) -> (Seat<D>, Settled)
        requires staged { (e : AnErrand D D.Disk) × HasStaged (lock_of self.now) seat (AnAct act.now) moment e }
        ensures entered { (e : AnErrand D D.Disk) → HasStaged (lock_of self.now) seat (AnAct act.now) moment e → HasEntered (lock_of self.now) seat result.0 (AnAct act.now) moment e result.1 }
        ensures order { IsOrdered result.0.origin result.0.seen }
    {
        let mut seat = seat;
        for _ in rt.forever() {
            let (now, mut turn) = self.lock.enter(rt, seat);
            match turn.value.enter_ahead(act, moment) {
                Some(settled) => {
                    let reply = &settled.reply;
                    let seat = leave_acted::<D, Brand>(&self.lock, now, turn, act, moment, reply);
                    return (seat, settled);
                }
                None => seat = self.lock.leave(now, turn),
            }
        }
        unreachable!()
    }
}
