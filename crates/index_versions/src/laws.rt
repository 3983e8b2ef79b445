//! The laws of versions and of their correction.
ghost use Rattle.std.specs.Prelude.{◌≡◌, ◌≤◌, ◌+◌, ◌∷◌, [], ◌++◌, ℕ, None, List, length};
ghost use Rattle.campaign_store.specs.Limits.{passed_limit};
ghost use Rattle.campaign_store.specs.Table.{entries_of, with_changed};
ghost use Rattle.campaign_store.specs.declared.listed.Listed.{Listed};
ghost use Rattle.conj_index.specs.Campaigns.{DoRise, conjunctions_in};
ghost use Rattle.conj_index.specs.Find.{true_under};
ghost use Rattle.index_versions.specs.Fixed.{Pairs, WereFound};
ghost use Rattle.index_versions.specs.Recent.{RecentEdits, newest, touched_after};
ghost use Rattle.index_versions.specs.Versions.{live_in};

/// The law of snapshots, with nothing to run: the live campaigns of a table can be indexed.
pub fn a_snapshot_can_be_built()
    ensures rising { (campaigns : List Listed) → DoRise (live_in campaigns) }
    ensures few { (campaigns : List Listed) → passed_limit (entries_of campaigns) ≡ None → conjunctions_in (live_in campaigns) ≤ 1000000 }
{}

/// The law of what was found, with nothing to run: it may be corrected at once, and after each edit of a
/// campaign that is remembered.
pub fn what_was_found_can_be_corrected()
    ensures at_once { (a : Pairs) (now : List Listed) → WereFound a (true_under a (live_in now)) [] now }
    ensures changed { (a : Pairs) (found touched : List ℕ) (now : List Listed) (change : Listed → Listed) (n : ℕ) → WereFound a found touched now → WereFound a found (touched ++ n ∷ []) (with_changed change n now) }
    ensures added { (a : Pairs) (found touched : List ℕ) (now : List Listed) (c : Listed) → WereFound a found touched now → WereFound a found (touched ++ (length now + 1) ∷ []) (now ++ c ∷ []) }
{}

/// The law of edits, with nothing to run: an edit that is remembered comes behind those before it, and to
/// forget those up to a number takes none of those after it.
pub fn edits_are_remembered()
    ensures noted { (recent : RecentEdits) (edit n spare : ℕ) → edit ≤ newest recent → touched_after edit (record { oldest = recent.oldest; touched = recent.touched ++ n ∷ []; spare = spare }) ≡ touched_after edit recent ++ n ∷ [] }
    ensures forgotten { (recent left : RecentEdits) (edit to : ℕ) → recent.oldest ≤ to → to ≤ edit → left.oldest ≡ to → left.touched ≡ touched_after to recent → touched_after edit left ≡ touched_after edit recent }
{}
