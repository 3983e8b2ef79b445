//! The journal is taken out in one turn and put back in another.
ghost use Rattle.std.specs.Prelude.{◌≡◌, if◌then◌else◌};

use crate::errand::{Errand, Taken};
use crate::state::ExchangeState;
use journal_file::Journal;
use rtb_disk::Disk;
use rtb_num::Txt;
use std::mem::{replace, swap};

impl<D: Disk> ExchangeState<D> {
    ghost use Rattle.std.specs.Prelude.{◌≡◌, ◌++◌, ◌∷◌, [], ℕ, List as AList, None, Some, true};
    ghost use Rattle.exchange_state.specs.Errands.{IsDone, IsTaken, putting_mark, taking_marks};
    ghost use Rattle.exchange_state.specs.Settling.{IsHome, MayPut};
    ghost use Rattle.exchange_state.specs.Standing.{SaysFront, SaysSomeSince, StandsFor, store_in};
    ghost use Rattle.exchange_state.specs.Views.{Taking, faults_told};
    ghost use Rattle.exchange_state.specs.declared.entries.Entry.{Entry as AnEntry};
    ghost use Rattle.exchange_state.specs.declared.entries.Origin.{Origin as AnOrigin};
    ghost use Rattle.rtb_disk.specs.Stores.{EachImage};

    /// Takes the journal, with the block to be written: the one whose write failed, or else that of all effects that are
    /// not durable. There is nothing to take while the journal is out, or where all effects are durable.
    pub fn take_journal(&mut self) -> Taken<D>
        ensures taken { (o : AnOrigin) (l : AList AnEntry) → StandsFor o self.old l → IsTaken o l result }
        ensures stands { (o : AnOrigin) (l : AList AnEntry) (w : ℕ) → StandsFor o self.old l → StandsFor o self.new (l ++ taking_marks w result) }
    {
        match self.journal.take() {
            None => Taken::Out,
            Some(journal) => self.take_from_home(journal),
        }
    }

    // The journal was home.
    fn take_from_home(&mut self, journal: Journal<D>) -> Taken<D>
        requires is_out { self.old.journal ≡ None }
        ensures taken { (o : AnOrigin) (l : AList AnEntry) → StandsFor o (record self.old { journal = Some journal }) l → IsTaken o l result }
        ensures stands { (o : AnOrigin) (l : AList AnEntry) (w : ℕ) → StandsFor o (record self.old { journal = Some journal }) l → StandsFor o self.new (l ++ taking_marks w result) }
    {
        if journal.broken() {
            return Taken::Errand(self.errand(journal, true));
        }
        if self.durable == self.placed {
            self.bring_home(journal);
            return Taken::Nothing;
        }
        self.begin_block();
        Taken::Errand(self.errand(journal, false))
    }

    // The effects that are pending are the next block.
    fn begin_block(&mut self)
        ensures { self.new ≡ record self.old { block = self.old.pending; pending = []; upto = self.old.placed } }
    {
        swap(&mut self.block, &mut self.pending);
        self.pending.truncate(0);
        self.upto = self.placed;
    }

    // The errand of the block.
    fn errand(&mut self, journal: Journal<D>, again: bool) -> Errand<D>
        ensures errand { result ≡ record { journal = journal; block = self.old.block; upto = self.old.upto; again = again } }
        ensures state { self.new ≡ record self.old { block = [] } }
    {
        let block = replace(&mut self.block, Txt::new(self.alloc));
        Errand {
            journal,
            block,
            upto: self.upto,
            again,
        }
    }

    /// Puts the journal back. Where the block of the errand was not written, it is the first that is given out again.
    pub fn put_journal(&mut self, errand: Errand<D>, written: bool)
        requires done { MayPut self.old errand written }
        ensures stands { (o : AnOrigin) (l : AList AnEntry) (t : Taking) → StandsFor o self.old l → IsDone o l t errand written → StandsFor o self.new (l ++ putting_mark l t errand written ∷ []) }
    {
        let Errand {
            journal,
            block,
            upto,
            again: _,
        } = errand;
        drop(replace(&mut self.block, block));
        self.durable = durable_after(written, upto, self.durable);
        self.bring_home(journal);
    }

    // The journal was out.
    pub(crate) fn bring_home(&mut self, journal: Journal<D>)
        requires is_out { self.old.journal ≡ None }
        ensures { self.new ≡ record self.old { journal = Some journal } }
    {
        match replace(&mut self.journal, Some(journal)) {
            None => {}
            Some(_) => unreachable!(),
        }
    }

    /// The disk as it stands, of an exchange whose journal is home.
    pub fn into_disk(self) -> D
        requires home { IsHome self }
        ensures images { (o : AnOrigin) (l : AList AnEntry) → StandsFor o self l → o.told ≡ true → EachImage (SaysFront o l) (D.store result).now }
        // and at each moment since it was opened a front
        ensures since { (o : AnOrigin) (l : AList AnEntry) → StandsFor o self l → o.told ≡ true → SaysSomeSince o l (D.store result) }
        ensures faults { (o : AnOrigin) (l : AList AnEntry) → StandsFor o self l → D.faults result ≡ faults_told o l }
        ensures same { D.store result ≡ store_in self }
    {
        let ExchangeState {
            alloc: _,
            core,
            version,
            recent,
            journal,
            block,
            pending,
            upto: _,
            placed: _,
            durable: _,
        } = self;
        drop(core);
        drop(version);
        drop(recent);
        drop(block);
        drop(pending);
        match journal {
            Some(journal) => journal.into_disk(),
            None => unreachable!(),
        }
    }
}

// How many effects are durable, once those up to this one were written, or were not.
fn durable_after(written: bool, upto: u64, durable: u64) -> u64
    ensures { result ≡ if written then upto else durable }
{
    if written { upto } else { durable }
}
