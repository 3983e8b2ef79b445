//! Which campaigns an auction reaches, found without an index.
ghost use Rattle.std.specs.Prelude.{◌≡◌, ◌++◌, ◌<◌, ◌≤◌, [], ◌∷◌, if◌then◌else◌, IfOk, OnOk, Some, length, map, slice_get};
ghost use Rattle.auction_core.specs.Draft.{found_for};
ghost use Rattle.auction_core.specs.Scan.{is_open_to, open_to};
ghost use Rattle.plain_exchange.specs.State.{Campaign, campaign_at};
ghost use Rattle.rtb_types.specs.declared.request.Imp.{Imp as Impression};

use crate::exchange::Core;
use assign::assignment;
use rtb_base::Steps;
use rtb_num::List;
use rtb_types::BidRequest;
use std::alloc::{AllocError, Global};
use std::marker::Brand;
use std::sync::ledger::{Blank, Ledger};
use target_expr::Assignment;

impl Core {
    /// For each impression of the request, the numbers of the live campaigns whose expression is true of it,
    /// rising.
    ///
    /// It goes over the campaigns one after the other: what it costs are the conjunctions of all live
    /// campaigns, for each impression.
    pub fn scan(&self, alloc: Global, request: &BidRequest) -> Result<Vec<List<u32>>, AllocError>
        ensures { IfOk result (λ found. found.items ≡ map (found_for self.now.state request.now) request.now.imps) }
    {
        self.scan_counted::<Brand>(alloc, request, Blank::new(1))
    }

    fn scan_counted<L: Ledger>(
        &self,
        alloc: Global,
        request: &BidRequest,
        blank: Blank,
    ) -> Result<Vec<List<u32>>, AllocError>
        requires name { blank.name ≡ L.name }
        requires parts { blank.parts ≡ L.parts }
        requires some { 0 < blank.parts }
        ensures { IfOk result (λ found. found.items ≡ map (found_for self.now.state request.now) request.now.imps) }
    {
        let mut steps = Steps::<L>::new(blank);
        let mut found = Vec::new(alloc);
        for imp in 0..request.imps.len() {
            let numbers = self.find_at(alloc, request, imp, &mut steps)?;
            found.push(numbers)?;
        }
        Ok(found)
    }

    // The numbers for the impression at the place.
    fn find_at<L: Ledger>(
        &self,
        alloc: Global,
        request: &BidRequest,
        imp: usize,
        steps: &mut Steps<L>,
    ) -> Result<List<u32>, AllocError>
        requires imp { imp < length request.now.imps }
        ensures { (i : Impression) → slice_get request.now.imps imp ≡ Some i → IfOk result (λ numbers. numbers ≡ found_for self.now.state request.now i) }
    {
        let assignment = assignment(alloc, request, imp)?;
        let numbers = self.open_to(alloc, &assignment, steps)?;
        Ok(numbers)
    }

    // The numbers of the live campaigns whose expression is true of these values.
    fn open_to<L: Ledger>(
        &self,
        alloc: Global,
        values: &Assignment,
        steps: &mut Steps<L>,
    ) -> Result<List<u32>, AllocError>
        ensures { IfOk result (λ numbers. numbers ≡ open_to values.now self.now.state) }
    {
        let mut numbers = List::new(alloc);
        for place in 0..self.campaigns() {
            let n = place as u32 + 1;
            let open = self.is_open_to(n, values, steps);
            push_where(&mut numbers, open, n)?;
        }
        Ok(numbers)
    }

    // Whether campaign `n` is live and its expression is true of these values.
    fn is_open_to<L: Ledger>(&self, n: u32, values: &Assignment, steps: &mut Steps<L>) -> bool
        requires there { (1 ≤ n) × (n ≤ length self.now.state.campaigns) }
        ensures { (c : Campaign) → campaign_at self.now.state n ≡ Some c → result ≡ is_open_to values.now c }
    {
        self.is_live(n) && self.entry(n).record().expr.holds(values, steps)
    }
}

// Appends the number where it is wanted.
fn push_where(numbers: &mut List<u32>, wanted: bool, n: u32) -> Result<(), AllocError>
    ensures { OnOk result (numbers.new ≡ numbers.old ++ (if wanted then n ∷ [] else [])) }
{
    if wanted {
        numbers.push(n)?;
    }
    Ok(())
}
