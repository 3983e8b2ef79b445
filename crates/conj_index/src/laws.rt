//! The laws of the index: order, places, and what a find costs.
ghost use Rattle.std.specs.Prelude.{ℕ, ◌≡◌, List};
ghost use Rattle.postings.specs.Order.{IsRising};
ghost use Rattle.conj_index.specs.declared.key.Key.{Key};
ghost use Rattle.conj_index.specs.Campaigns.{AreKept, Campaigns};
ghost use Rattle.conj_index.specs.declared.index.Index.{Index};
ghost use Rattle.conj_index.specs.Content.{IsIndexOf, Listed, entries_of, zero_entries};
ghost use Rattle.conj_index.specs.Cost.{campaigns_cost};
ghost use Rattle.conj_index.specs.Find.{find_cost};
ghost use Rattle.target_expr.specs.declared.attr.Attr.{Attr};
ghost use Rattle.conj_index.specs.Standing.{StandOnce, StandWhereNamed};

/// The law of order, with nothing to run: each posting list is sorted and without repeats, and so is the
/// zero list.
pub fn posting_lists_rise()
    ensures lists { (k : ℕ) (cs : List Listed) (key : Key) → IsRising (entries_of k cs key) }
    ensures zero { (cs : List Listed) → IsRising (zero_entries cs) }
{}

/// The law of entries, with nothing to run: in the posting list of a pair stands the entry of each
/// conjunction of that size that names the pair, with its predicate's negation, and just once; and no
/// other entry.
pub fn a_conjunction_stands_once_under_each_pair()
    ensures stands { (added : Campaigns) → AreKept added → StandWhereNamed added }
    ensures once { (k : ℕ) (cs : List Listed) (key : Key) → StandOnce (entries_of k cs key) }
{}

/// The law of cost, with nothing to run: what a find costs at most depends on the campaigns and the
/// assignment alone, whatever index stands for these campaigns.
pub fn a_find_costs_what_its_campaigns_say()
    ensures { (added : Campaigns) (index : Index) (a : List (Attr × List ℕ)) → IsIndexOf added index → find_cost index a ≡ campaigns_cost a added }
{}
