//! The edits of late, each by the number of the campaign that it touched.
ghost use Rattle.std.specs.Prelude.{◌≡◌, ◌<◌, ◌≤◌, ◌-◌, ◌∷◌, [], ◌++◌, ◌↔◌, None, IfSome, OnOk};
ghost use Rattle.index_versions.specs.Recent.{newest, touched_after};

use std::alloc::{AllocError, Global};
use std::marker::Model;

/// The edits of late, each by the number of the campaign that it touched.
///
/// Contracts see the number of the edit behind which they begin, their campaigns in order, and for how many
/// more there is room.
#[derive(Drop)]
pub struct Recent {
    oldest: u64,
    touched: Vec<u32>,
}

impl Model for Recent {
    ghost use Rattle.std.specs.Prelude.{◌-◌};
    ghost use Rattle.index_versions.specs.Recent.{RecentEdits};

    ghost Value = { RecentEdits };

    ghost view = { λ r. record { oldest = r.oldest; touched = r.touched.items; spare = r.touched.cap - r.touched.len } };
}

impl Recent {
    /// No edit yet behind this number. It takes no memory.
    pub fn new(alloc: Global, oldest: u64) -> Recent
        ensures { result ≡ record { oldest = oldest; touched = []; spare = 0 } }
    {
        Recent {
            oldest,
            touched: Vec::new(alloc),
        }
    }

    /// The number of the edit behind which the edits begin.
    pub fn oldest(&self) -> u64
        ensures { result ≡ self.now.oldest }
    {
        self.oldest
    }

    /// Makes room for at least one edit more. Room is never lost, whatever the answer.
    pub fn reserve(&mut self) -> Result<(), AllocError>
        ensures oldest { self.new.oldest ≡ self.old.oldest }
        ensures touched { self.new.touched ≡ self.old.touched }
        ensures spare { OnOk result (1 ≤ self.new.spare) }
        ensures kept { self.old.spare ≤ self.new.spare }
    {
        self.touched.reserve(1)
    }

    /// Remembers an edit of the campaign as the next. It takes no memory.
    pub fn note(&mut self, campaign: u32)
        requires { 1 ≤ self.old.spare }
        ensures { self.new ≡ record self.old { touched = self.old.touched ++ campaign ∷ []; spare = self.old.spare - 1 } }
    {
        self.touched.push_reserved(campaign);
    }

    /// Forgets the edits up to this number. It takes no memory, and the room stays.
    pub fn forget_to(&mut self, edit: u64)
        requires from { self.old.oldest ≤ edit }
        requires to { edit ≤ newest self.old }
        ensures oldest { self.new.oldest ≡ edit }
        ensures touched { self.new.touched ≡ touched_after edit self.old }
        ensures spare { self.old.spare ≤ self.new.spare }
    {
        let gone = (edit - self.oldest) as usize;
        let kept = self.touched.len() - gone;
        self.touched.rotate_left(gone);
        self.touched.truncate(kept);
        self.oldest = edit;
    }

    // The campaigns of the edits after this number; none where some of those edits are forgotten.
    pub(crate) fn after(&self, edit: u64) -> Option<&[u32]>
        ensures none { (result ≡ None) ↔ (edit < self.now.oldest) }
        ensures some { IfSome result (λ touched. touched.now ≡ touched_after edit self.now) }
    {
        let gone = edit.checked_sub(self.oldest)? as usize;
        let touched = self.touched.as_slice();
        Some(&touched[gone.min(touched.len())..])
    }
}
