//! What stays while the list of the lock goes on, for those who have seen a front of it. Nothing here runs.
ghost use Rattle.std.specs.Prelude.{◌≡◌, ◌↔◌, ◌≤◌, ◌<◌, ◌^◌, ◌+◌, ◌++◌, ◌∷◌, [], ℕ, All, Bool, List, None, Some, length, take};
ghost use Rattle.effects.specs.Bytes.{IsEncodable};
ghost use Rattle.exchange_state.specs.declared.entries.Entry.{Entry};
ghost use Rattle.exchange_state.specs.declared.entries.Origin.{Origin};
ghost use Rattle.exchange_state.specs.declared.errand.Errand.{Errand};
ghost use Rattle.exchange_state.specs.Errands.{IsDone, IsErrand, IsStaged, IsTried, taking_mark, taking_of};
ghost use Rattle.exchange_state.specs.Tickets.{IsVersionOf, edits_after, effects_after, matches_of};
ghost use Rattle.exchange_state.specs.Views.{AreInTurn, IsRising, IsSameJournal, Taking, called, calls, failed, failures, faults_told, mine, out, own, published, stable};
ghost use Rattle.index_versions.specs.declared.version.Version.{Version};
ghost use Rattle.plain_exchange.specs.Effects.{edits};
ghost use Rattle.plain_exchange.specs.declared.commands.Command.{Command};
ghost use Rattle.plain_exchange.specs.declared.commands.Reply.{Reply};
ghost use Rattle.plain_exchange.specs.History.{Call};
ghost use Rattle.rtb_types.specs.declared.request.BidRequest.{BidRequest};

use rtb_disk::Disk;

/// The law of longer histories, with nothing to run: a version stays one of the history, what is found in it for a
/// request stays the same, and no edit and no effect goes.
pub fn longer_histories_keep_versions()
    ensures calls { (l more : List Entry) → calls (l ++ more) ≡ calls l ++ calls more }
    ensures version { (o : Origin) (h more : List Call) (v : Version) → IsVersionOf o h v → IsVersionOf o (h ++ more) v }
    ensures matches { (o : Origin) (h more : List Call) (edit : ℕ) (r : BidRequest) → edit ≤ edits_after o h → matches_of o (h ++ more) edit r ≡ matches_of o h edit r }
    ensures edits { (o : Origin) (h more : List Call) → edits_after o h ≤ edits_after o (h ++ more) }
    ensures effects { (o : Origin) (h more : List Call) (n : ℕ) → n ≤ length (effects_after o h) → (take n (effects_after o (h ++ more)) ≡ take n (effects_after o h)) × (n ≤ length (effects_after o (h ++ more))) }
{}

/// The law of marks, with nothing to run: while the list goes on, the count of failed calls of the disk, the count of
/// durable effects and the edit of the present version do not fall.
pub fn marks_do_not_fall()
    ensures front { (o : Origin) (l more : List Entry) → IsRising o (l ++ more) → IsRising o l }
    ensures faults { (o : Origin) (l more : List Entry) → IsRising o (l ++ more) → faults_told o l ≤ faults_told o (l ++ more) }
    ensures durable { (o : Origin) (l more : List Entry) → IsRising o (l ++ more) → stable l ≤ stable (l ++ more) }
    ensures published { (o : Origin) (l more : List Entry) → IsRising o (l ++ more) → published o l ≤ published o (l ++ more) }
{}

/// The law of a worker and the journal, with nothing to run: by its own entries a worker knows whether it has the
/// journal, and while it has it, the entries of others tell nothing of it.
pub fn a_worker_knows_whether_it_has_the_journal()
    ensures has { (w : ℕ) (l : List Entry) (t : Taking) → AreInTurn None l → (out (own w l) ≡ Some t) ↔ ((out l ≡ Some t) × (t.worker ≡ w)) }
    ensures others { (o : Origin) (t : Taking) (l more : List Entry) → AreInTurn None (l ++ more) → out l ≡ Some t → own t.worker more ≡ [] → IsSameJournal o l (l ++ more) }
{}

/// The law of a worker's own entries, with nothing to run: they tell its calls and how often it put the journal back
/// with its block not written.
pub fn own_entries_tell_of_a_worker()
    ensures calls { (w : ℕ) (l : List Entry) → mine w (calls l) ≡ calls (own w l) }
    ensures failed { (w : ℕ) (l : List Entry) → failed l w ≡ failures (own w l) }
    ensures more_calls { (w : ℕ) (l more : List Entry) → mine w (calls (l ++ more)) ≡ mine w (calls l) ++ mine w (calls more) }
    ensures more_failed { (w : ℕ) (l more : List Entry) → failed (l ++ more) w ≡ failed l w + failed more w }
{}

/// The law of counts, with nothing to run: the edits and the effects of a list that a lock may have fit 64 bits.
pub fn counts_fit()
    ensures edits { (o : Origin) (l : List Entry) → edits o.effects ≤ 2 ^ 61 → length l < 2 ^ 62 → edits_after o (calls l) < 2 ^ 63 }
    ensures effects { (o : Origin) (l : List Entry) → length l < 2 ^ 62 → length (effects_after o (calls l)) < 2 ^ 62 }
{}

/// The law of a change that is written first, with nothing to run: what was staged and tried may be put back once the
/// change is carried out, whatever other workers did meanwhile.
pub fn a_change_may_be_put_back<D: Disk>()
    ensures { (o : Origin) (l more behind : List Entry) (w moment : ℕ) (command : Command) (reply : Reply) (old new : Errand D D.Disk) (written : Bool) → IsStaged o l command moment old → All IsEncodable (effects_after o (calls l)) → IsTried old new written
        → old.upto ≡ length (effects_after o (calls ((l ++ taking_mark w old ∷ []) ++ more))) + 1 → AreInTurn None ((((l ++ taking_mark w old ∷ []) ++ more) ++ called w command moment reply ∷ []) ++ behind) → own w more ≡ [] → own w behind ≡ []
        → IsDone o ((((l ++ taking_mark w old ∷ []) ++ more) ++ called w command moment reply ∷ []) ++ behind) (taking_of w old) new written }
{}

/// The law of an errand, with nothing to run: an errand that was tried may be put back, whatever other workers did
/// meanwhile.
pub fn an_errand_may_be_put_back<D: Disk>()
    ensures { (o : Origin) (l more : List Entry) (w : ℕ) (old new : Errand D D.Disk) (written : Bool) → IsErrand o l old → All IsEncodable (effects_after o (calls l)) → IsTried old new written → AreInTurn None (l ++ taking_mark w old ∷ more) → own w more ≡ [] → IsDone o (l ++ taking_mark w old ∷ more) (taking_of w old) new written }
{}
