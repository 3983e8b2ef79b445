//! The journal is written without the turn.
ghost use Rattle.std.specs.Prelude.{◌≡◌};
ghost use Rattle.exchange_state.specs.Errands.{IsTried};
ghost use Rattle.journal_file.specs.Standing.{is_broken};

use crate::exchange::{Exchange, Seat};
use crate::naming::{leave_put, leave_taken};
use exchange_state::{Errand, Taken};
use rtb_disk::Disk;
use std::marker::Brand;
use std::sync::Wait;

/// A call of the disk failed while this seat's worker wrote the journal.
#[derive(Drop)]
pub struct StoreFailed<D: Disk> {
    pub seat: Seat<D>,
}

/// What a look at the journal finds.
pub enum Look<D: Disk> {
    /// So many effects are durable as were asked for.
    Durable,
    /// All are.
    Written,
    /// Another worker has it, or others were waited for. It is worth another look.
    Out,
    Errand(Errand<D>),
}

impl<D: Disk> Exchange<D> {
    ghost use Rattle.std.specs.Prelude.{◌≡◌, ◌≤◌, None, IfOk, IfErr, MatchResult};
    ghost use Rattle.exchange_shared.specs.Errands.{HasErrand, LeavesBroken, Looks, PutsBack};
    ghost use Rattle.exchange_shared.specs.Seats.{Fails, IsOrdered, MayCall, Writes, effects_in, lock_of};
    ghost use Rattle.exchange_state.specs.Views.{out, stable};

    /// Waits until so many effects are durable. Where the journal is home, this call writes it.
    pub fn make_durable<R: Wait>(
        &self,
        rt: &R,
        seat: Seat<D>,
        upto: u64,
    ) -> Result<Seat<D>, StoreFailed<D>>
        requires seat { MayCall (lock_of self.now) seat }
        requires placed { upto ≤ effects_in seat.origin seat.seen }
        ensures seat { MatchResult result (λ t. MayCall (lock_of self.now) t) (λ e. MayCall (lock_of self.now) e.seat) }
        ensures order { MatchResult result (λ t. IsOrdered t.origin t.seen) (λ e. IsOrdered e.seat.origin e.seat.seen) }
        ensures written { IfOk result (Writes seat) }
        ensures durable { IfOk result (λ t. upto ≤ stable t.seen) }
        ensures failed { IfErr result (λ e. Fails seat e.seat) }
    {
        let mut seat = seat;
        for _ in rt.forever() {
            let (now, look) = self.look(rt, seat, upto);
            match look {
                Look::Durable => return Ok(now),
                Look::Written => return Ok(now),
                Look::Out => seat = now,
                Look::Errand(errand) => match self.carry_out(rt, now, errand) {
                    Ok(next) => seat = next,
                    Err(failed) => return Err(failed),
                },
            }
        }
        unreachable!()
    }

    /// Writes what is not durable, until all is.
    pub fn flush<R: Wait>(&self, rt: &R, seat: Seat<D>) -> Result<Seat<D>, StoreFailed<D>>
        requires seat { MayCall (lock_of self.now) seat }
        ensures seat { MatchResult result (λ t. MayCall (lock_of self.now) t) (λ e. MayCall (lock_of self.now) e.seat) }
        ensures order { MatchResult result (λ t. IsOrdered t.origin t.seen) (λ e. IsOrdered e.seat.origin e.seat.seen) }
        ensures home { MatchResult result (λ t. out t.seen ≡ None) (λ e. out e.seat.seen ≡ None) }
        ensures written { IfOk result (Writes seat) }
        ensures durable { IfOk result (λ t. stable t.seen ≡ effects_in t.origin t.seen) }
        ensures failed { IfErr result (λ e. Fails seat e.seat) }
    {
        let mut seat = seat;
        for _ in rt.forever() {
            let (now, look) = self.look(rt, seat, u64::MAX);
            match look {
                Look::Written => return Ok(now),
                Look::Durable => seat = now,
                Look::Out => seat = now,
                Look::Errand(errand) => match self.carry_out(rt, now, errand) {
                    Ok(next) => seat = next,
                    Err(failed) => return Err(failed),
                },
            }
        }
        unreachable!()
    }

    // One turn: the journal is taken where it is home and fewer effects are durable.
    fn look<R: Wait>(&self, rt: &R, seat: Seat<D>, upto: u64) -> (Seat<D>, Look<D>)
        requires seat { MayCall (lock_of self.now) seat }
        ensures looks { Looks (lock_of self.now) upto seat result.0 result.1 }
        ensures order { IsOrdered result.0.origin result.0.seen }
    {
        let (seat, mut turn) = self.lock.enter(rt, seat);
        if turn.value.durable() >= upto {
            return (self.lock.leave(seat, turn), Look::Durable);
        }
        if let Some(hold) = self.landings.hold(upto) {
            let held = self.lock.leave(seat, turn);
            self.landings.wait(rt, hold);
            return (held, Look::Out);
        }
        match turn.value.take_journal() {
            Taken::Out => {
                let landing = self.landings.watch(upto);
                let seat = self.lock.leave(seat, turn);
                self.landings.park(rt, landing);
                (seat, Look::Out)
            }
            Taken::Nothing => (self.lock.leave(seat, turn), Look::Written),
            Taken::Errand(errand) => {
                self.landings.depart(errand.upto);
                let seat = leave_taken::<D, Brand>(&self.lock, seat, turn, &errand);
                (seat, Look::Errand(errand))
            }
        }
    }

    // Writes the block without the turn, and puts the journal back.
    fn carry_out<R: Wait>(
        &self,
        rt: &R,
        seat: Seat<D>,
        errand: Errand<D>,
    ) -> Result<Seat<D>, StoreFailed<D>>
        requires { HasErrand (lock_of self.now) seat errand }
        ensures seat { MatchResult result (λ t. MayCall (lock_of self.now) t) (λ e. MayCall (lock_of self.now) e.seat) }
        ensures order { MatchResult result (λ t. IsOrdered t.origin t.seen) (λ e. IsOrdered e.seat.origin e.seat.seen) }
        ensures written { IfOk result (PutsBack seat errand) }
        ensures failed { IfErr result (λ e. LeavesBroken seat errand e.seat) }
    {
        let mut errand = errand;
        let written = write(&mut errand);
        let (seat, turn) = self.lock.enter(rt, seat);
        let landed = self.landings.land();
        let seat = leave_put::<D, Brand>(&self.lock, seat, turn, errand, written);
        self.landings.wake(landed);
        if written {
            Ok(seat)
        } else {
            Err(StoreFailed { seat })
        }
    }
}

// Whether the errand's block was written.
pub(crate) fn write<D: Disk>(errand: &mut Errand<D>) -> bool
    requires { is_broken errand.old.journal ≡ errand.old.again }
    ensures { IsTried errand.old errand.new result }
{
    if errand.again {
        errand.journal.repair(errand.block.as_bytes()).is_ok()
    } else {
        errand.journal.append(errand.block.as_bytes()).is_ok()
    }
}
