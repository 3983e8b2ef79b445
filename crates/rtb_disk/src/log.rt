//! The log of a disk in memory, and what a crash may leave of it.
ghost use Rattle.std.specs.Prelude.{◌≡◌, ◌≤◌, ℕ, List, length, take, drop, OnOk, OnErr};
ghost use Rattle.rtb_disk.specs.Stores.{fresh};
ghost use Rattle.rtb_disk.specs.Record.{all_done, content_now, done, replay};
ghost use Rattle.rtb_disk.specs.Crashes.{behind_sync};

use crate::bytes::Bytes;
use crate::calls::{Call, Made};
use rtb_num::{SpareList, Txt};
use std::alloc::{AllocError, Global};

// What a disk in memory was made with, what it has now, and each call that it was asked.
#[derive(Drop)]
pub(crate) struct Log {
    alloc: Global,
    pub(crate) first: Txt,
    // None, as long as it is the first.
    content: Option<Bytes>,
    pub(crate) made: SpareList<Made>,
    ghost tied: { content_now content first ≡ (replay made.items (fresh first)).reads },
}

impl Log {
    ghost use Rattle.std.specs.Prelude.{◌≡◌, [], ◌∷◌, ◌++◌, IfOk, OnOk, OnErr};
    ghost use Rattle.rtb_disk.specs.Stores.{fresh};
    ghost use Rattle.rtb_disk.specs.Record.{made_of, replay};
    ghost use Rattle.rtb_disk.specs.Crashes.{crashed};

    pub(crate) fn new(alloc: Global, content: Txt) -> Log
        ensures first { result.first ≡ content }
        ensures made { result.made.items ≡ [] }
    {
        Log {
            alloc,
            first: content,
            content: None,
            made: SpareList::new(alloc),
        }
    }

    pub(crate) fn allocator(&self) -> Global {
        self.alloc
    }

    // What a read gives.
    pub(crate) fn content(&self) -> &[u8]
        ensures { result.now ≡ (replay self.now.made.items (fresh self.now.first)).reads }
    {
        match &self.content {
            Some(content) => content.as_slice(),
            None => self.first.as_bytes(),
        }
    }

    // Does a call, which fails or not, and records it.
    #[tactic(auto, using(crate::proofs::Replayed::replay_push))]
    pub(crate) fn make(&mut self, call: Call, failed: bool) -> Result<(), AllocError>
        ensures first { self.new.first ≡ self.old.first }
        ensures ok { OnOk result (self.new.made.items ≡ self.old.made.items ++ made_of call failed ∷ []) }
        ensures err { OnErr result (self.new.made.items ≡ self.old.made.items) }
    {
        self.made.reserve(1)?;
        let made = Made { call, failed };
        if made.changes() {
            redo_over(self.alloc, &mut self.content, &self.first, &made)?;
        }
        self.made.put(made);
        Ok(())
    }

    // What a crash leaves by the pick.
    pub(crate) fn content_after(&self, pick: u64) -> Result<Txt, AllocError>
        ensures { IfOk result (λ t. t ≡ crashed pick self.now.first self.now.made.items) }
    {
        let made = self.made.as_slice();
        let (settled, later) = made.split_at(settled_count(made));
        let mut bytes = Bytes::of(self.alloc, self.first.as_bytes())?;
        bytes.redo_all(settled)?;
        bytes.redo_picked(later, pick)?;
        Ok(bytes.into_text())
    }
}

// Does the call on the content, which is copied from the first where it is that still.
fn redo_over(
    alloc: Global,
    content: &mut Option<Bytes>,
    first: &Txt,
    made: &Made,
) -> Result<(), AllocError>
    ensures ok { OnOk result (content_now content.new first.now ≡ done made.now.call made.now.failed (content_now content.old first.now)) }
    ensures err { OnErr result (content_now content.new first.now ≡ content_now content.old first.now) }
{
    match content {
        Some(bytes) => bytes.redo(made),
        None => {
            let mut bytes = Bytes::of(alloc, first.as_bytes())?;
            bytes.redo(made)?;
            *content = Some(bytes);
            Ok(())
        }
    }
}

// How many of the calls there are up to the last sync that succeeded, with that one.
fn settled_count(made: &[Made]) -> usize
    ensures bound { result ≤ length made.now }
    ensures later { drop result made.now ≡ behind_sync made.now }
    ensures synced { (first : List ℕ) → (replay made.now (fresh first)).now.synced ≡ all_done (take result made.now) first }
{
    let mut count = 0;
    for i in 0..made.len() {
        if made[i].settles() {
            count = i + 1;
        }
    }
    count
}
