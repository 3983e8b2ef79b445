//! Which campaigns the impressions of an auction reach.
ghost use Rattle.std.specs.Prelude.{◌≡◌, ◌≤◌, ◌<◌, ◌+◌, IfOk, Some, length, map, slice_get, sum_by};
ghost use Rattle.auction_core.specs.Core.{listed};
ghost use Rattle.auction_core.specs.Draft.{found_for, found_of};
ghost use Rattle.conj_index.specs.Content.{IsIndexOf};
ghost use Rattle.live_index.specs.Reached.{imp_cost, live_expressions, reach_cost};
ghost use Rattle.plain_exchange.specs.State.{State};
ghost use Rattle.rtb_types.specs.declared.request.Imp.{Imp as Impression};

use assign::assignment;
use conj_index::{Index, Scratch};
use plain_exchange::Command;
use rtb_base::Steps;
use rtb_num::List;
use rtb_types::BidRequest;
use std::alloc::{AllocError, Global};
use std::sync::ledger::Ledger;

/// For each impression of an auction, the numbers of the live campaigns whose expression is true of it,
/// rising; for an act nothing. It is what `Core::prepare` wants to be told, for an exchange
/// with just the campaigns of the index.
///
/// One step is one entry of the index that is read.
pub fn find_by_index<L: Ledger>(
    alloc: Global,
    index: &Index,
    command: &Command,
    steps: &mut Steps<L>,
) -> Result<Vec<List<u32>>, AllocError>
    ensures answer { IfOk result (λ found. (s : State) → IsIndexOf (live_expressions (listed s)) index.now → found.items ≡ found_of s command.now) }
    ensures cost { steps.new ≤ steps.old + reach_cost index.now command.now }
{
    let mut scratch = Scratch::new(alloc);
    find_by_index_with(alloc, &mut scratch, index, command, steps)
}

/// The same, in room that is kept from find to find.
pub fn find_by_index_with<L: Ledger>(
    alloc: Global,
    scratch: &mut Scratch,
    index: &Index,
    command: &Command,
    steps: &mut Steps<L>,
) -> Result<Vec<List<u32>>, AllocError>
    ensures answer { IfOk result (λ found. (s : State) → IsIndexOf (live_expressions (listed s)) index.now → found.items ≡ found_of s command.now) }
    ensures cost { steps.new ≤ steps.old + reach_cost index.now command.now }
{
    match command {
        Command::Auction(request) => find_for_imps(alloc, scratch, index, request, steps),
        Command::Act(_) => Ok(Vec::new(alloc)),
    }
}

// The numbers for each impression.
fn find_for_imps<L: Ledger>(
    alloc: Global,
    scratch: &mut Scratch,
    index: &Index,
    request: &BidRequest,
    steps: &mut Steps<L>,
) -> Result<Vec<List<u32>>, AllocError>
    ensures answer { IfOk result (λ found. (s : State) → IsIndexOf (live_expressions (listed s)) index.now → found.items ≡ map (found_for s request.now) request.now.imps) }
    ensures cost { steps.new ≤ steps.old + sum_by (imp_cost index.now request.now) request.now.imps }
{
    let mut found = Vec::with_capacity(alloc, request.imps.len())?;
    for imp in 0..request.imps.len() {
        let numbers = find_for_imp(alloc, scratch, index, request, imp, steps)?;
        found.push(numbers)?;
    }
    Ok(found)
}

// The numbers for the impression at the place.
fn find_for_imp<L: Ledger>(
    alloc: Global,
    scratch: &mut Scratch,
    index: &Index,
    request: &BidRequest,
    imp: usize,
    steps: &mut Steps<L>,
) -> Result<List<u32>, AllocError>
    requires imp { imp < length request.now.imps }
    ensures answer { (i : Impression) → slice_get request.now.imps imp ≡ Some i → IfOk result (λ numbers. (s : State) → IsIndexOf (live_expressions (listed s)) index.now → numbers ≡ found_for s request.now i) }
    ensures cost { (i : Impression) → slice_get request.now.imps imp ≡ Some i → steps.new ≤ steps.old + imp_cost index.now request.now i }
{
    let assignment = assignment(alloc, request, imp)?;
    let numbers = index.find_with(alloc, scratch, &assignment, steps)?;
    Ok(numbers)
}
