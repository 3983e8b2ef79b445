//! The candidates of each impression of a request.
ghost use Rattle.std.specs.Prelude.{◌≡◌, ◌≤◌, ◌<◌, ◌-◌, IsTrue, ◌++◌, ◌∷◌, [], length, slice_get, OnOk, Some, List as AList};
ghost use Rattle.clearing.specs.declared.Offer.{Offer as AnOffer};

use clearing::Offer;
use rtb_num::List;
use std::alloc::{AllocError, Global};
use std::marker::Model;

/// A list of candidates for each impression of a request, in their order. Impressions that stand next to one another
/// may share one. Contracts see it as the list of these lists.
#[derive(Drop)]
pub struct Candidates {
    lists: List<List<Offer>>,
    // Which of the lists an impression has.
    places: List<usize>,
}

impl Model for Candidates {
    ghost use Rattle.std.specs.Prelude.{List, IsTrue, length, map};
    ghost use Rattle.std.specs.List.{list_all};
    ghost use Rattle.auction_core.specs.Placed.{is_placed, list_at};
    ghost use Rattle.clearing.specs.declared.Offer.{Offer};

    ghost Value = { List (List Offer) };

    ghost view = { λ c. map (list_at c.lists) c.places };

    ghost invariant = { λ c. IsTrue (list_all (is_placed c.lists) c.places) };
}

impl Candidates {
    /// Those of no impression. It takes no memory.
    pub fn new(alloc: Global) -> Candidates
        ensures { result ≡ [] }
    {
        Candidates {
            lists: List::new(alloc),
            places: List::new(alloc),
        }
    }

    /// How many impressions have theirs.
    pub fn len(&self) -> usize
        ensures { result ≡ length self.now }
    {
        self.places.len()
    }

    /// Those of the impression at the place, counted from 0.
    pub fn at(&self, imp: usize) -> &[Offer]
        requires { imp < length self.now }
        ensures { (cs : AList AnOffer) → slice_get self.now imp ≡ Some cs → result.now ≡ cs }
    {
        let place = self.places.as_slice()[imp];
        let list = &self.lists.as_slice()[place];
        list.as_slice()
    }

    /// Whether the impression at the place shares its candidates with the one before it.
    pub fn is_shared(&self, imp: usize) -> bool
        requires { imp < length self.now }
        ensures first { IsTrue result → 1 ≤ imp }
        ensures shared { IsTrue result → slice_get self.now imp ≡ slice_get self.now (imp - 1) }
    {
        if imp == 0 {
            return false;
        }
        let last = imp - 1;
        let places = self.places.as_slice();
        places[imp] == places[last]
    }

    /// Appends those of one impression more.
    pub fn push(&mut self, candidates: List<Offer>) -> Result<(), AllocError>
        ensures { OnOk result (self.new ≡ self.old ++ candidates ∷ []) }
    {
        self.lists.push(candidates)?;
        self.places.push(self.lists.len() - 1)
    }

    /// Appends for one impression more those of the last.
    pub fn push_last(&mut self) -> Result<(), AllocError>
        requires { 0 < length self.old }
        ensures { (cs : AList AnOffer) → slice_get self.old (length self.old - 1) ≡ Some cs → OnOk result (self.new ≡ self.old ++ cs ∷ []) }
    {
        let end = self.places.len() - 1;
        let last = self.places.as_slice()[end];
        self.places.push(last)
    }
}
