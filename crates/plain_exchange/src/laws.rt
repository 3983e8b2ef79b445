//! The laws of the exchange of one thread.
ghost use Rattle.std.specs.Prelude.{◌≡◌, ◌↔◌, ℕ, ◌<◌, ◌≤◌, List, ◌++◌, Option, Some, None, is_none, is_some, slice_get, IsTrue};
ghost use Rattle.budget_book.specs.declared.sales.SaleState.TheVariants.{Held};
ghost use Rattle.budget_book.specs.Sales.{forgettable, forgettable_at_once};
ghost use Rattle.clearing.specs.declared.Win.{Win};
ghost use Rattle.deal_rules.specs.Terms.{user_of};
ghost use Rattle.plain_exchange.specs.declared.changes.Effect.{Effect};
ghost use Rattle.plain_exchange.specs.declared.commands.Command.{Command};
ghost use Rattle.plain_exchange.specs.declared.commands.Command.TheVariants.{Act, Auction};
ghost use Rattle.plain_exchange.specs.declared.commands.Act.TheVariants.{Forget};
ghost use Rattle.plain_exchange.specs.declared.commands.Reply.TheVariants as reply;
ghost use Rattle.plain_exchange.specs.declared.commands.Sold.{Sold};
ghost use Rattle.plain_exchange.specs.Auction.{due_at, win};
ghost use Rattle.plain_exchange.specs.Consistent.{IsConsistent, IsSolvent};
ghost use Rattle.plain_exchange.specs.Effects.{applied, can_pay, kept_effects, state_of};
ghost use Rattle.plain_exchange.specs.Fronts.{MayBeForgotten, TellsWhatIsLeft};
ghost use Rattle.plain_exchange.specs.History.{Call, effects, replay};
ghost use Rattle.plain_exchange.specs.declared.settings.Settings.{Settings};
ghost use Rattle.plain_exchange.specs.State.{Campaign, State, campaign_at, committed, empty, forget, forgotten, sale_numbered};
ghost use Rattle.plain_exchange.specs.Step.{effect_of, step};
ghost use Rattle.rtb_types.specs.declared.request.BidRequest.{BidRequest};
ghost use Rattle.rtb_types.specs.declared.request.Imp.{Imp};

/// The law of winners, with nothing to run: who wins an impression is a live campaign, and what it pays is
/// free of its budget.
pub fn winner_can_pay()
    ensures { (s : State) (r : BidRequest) (imp : Imp) (moment : ℕ) (w : Win) → win s r imp moment ≡ Some w → IsTrue (can_pay s w.campaign w.price) }
{}

/// The law of budgets, with nothing to run: no campaign ever has spent and reserved more than its budget,
/// whatever effects the exchange was opened with and whatever commands came since.
pub fn budgets_hold()
    ensures opened { (opening : List Effect) (s : State) → state_of opening ≡ Some s → IsSolvent s }
    ensures ever { (settings : Settings) (opening : List Effect) (s : State) (calls : List Call) → state_of opening ≡ Some s → IsSolvent (replay settings s calls) }
{}

/// The law of consistency, with nothing to run: it holds at first, and effects, commands and forgetting
/// keep it.
pub fn states_stay_consistent()
    ensures first { IsConsistent empty }
    ensures effect { (e : Effect) (s after : State) → IsConsistent s → applied e s ≡ Some after → IsConsistent after }
    ensures command { (settings : Settings) (moment : ℕ) (s : State) (c : Command) → IsConsistent s → IsConsistent (step settings moment s c).after }
    ensures forgetting { (keep : ℕ) (s : State) → IsConsistent s → IsConsistent (forget keep s) }
{}

/// The law of forgetting, with nothing to run: the sales that are left keep their numbers, the numbers that
/// go are those of the sales that left, and no money is free for it.
pub fn numbers_stay()
    ensures left { (keep : ℕ) (s : State) (n : ℕ) → IsConsistent s → forgotten (forget keep s) < n → sale_numbered (forget keep s) n ≡ sale_numbered s n }
    ensures gone { (keep : ℕ) (s : State) (n : ℕ) → IsConsistent s
        → (IsTrue (is_some (sale_numbered s n)) × IsTrue (is_none (sale_numbered (forget keep s) n))) ↔ ((forgotten s < n) × (n ≤ forgotten (forget keep s))) }
    ensures money { (keep : ℕ) (s : State) (n : ℕ) (before after : Campaign) → campaign_at s n ≡ Some before → campaign_at (forget keep s) n ≡ Some after
        → committed (forget keep s) n after ≡ committed s n before }
{}

/// The law of the front that is forgotten, with nothing to run: it may be forgotten, and no longer one may.
pub fn longest_front_is_forgotten()
    ensures may { (keep : ℕ) (s : State) → IsConsistent s → MayBeForgotten keep s (forgettable keep (forgotten s) s.sales) }
    ensures longest { (keep : ℕ) (s : State) (n : ℕ) → MayBeForgotten keep s n → n ≤ forgettable keep (forgotten s) s.sales }
    ensures may_at_once { (keep : ℕ) (s : State) → IsConsistent s → MayBeForgotten keep s (forgettable_at_once keep (forgotten s) s.sales) }
    ensures longest_at_once { (keep : ℕ) (s : State) (n : ℕ) → MayBeForgotten keep s n → n ≤ 16384 → n ≤ forgettable_at_once keep (forgotten s) s.sales }
{}

/// The law of what a forgetting tells, with nothing to run: how many sales the list has left, and how many are forgotten
/// in all.
pub fn forgetting_is_counted()
    ensures { (settings : Settings) (moment keep : ℕ) (s : State) → IsConsistent s → TellsWhatIsLeft (step settings moment s (Act (Forget keep))) }
{}

/// The law of replies, with nothing to run: each impression that is answered as sold is a held sale of the
/// list under its number, to the campaign, at the price and to the user that it was sold to.
pub fn sold_impressions_are_listed()
    ensures { (settings : Settings) (moment : ℕ) (s : State) (r : BidRequest) (sold : List Sold) (i : ℕ) (x : Sold) → (step settings moment s (Auction r)).reply ≡ reply.Sold sold → slice_get sold i ≡ Some x
        → sale_numbered (step settings moment s (Auction r)).after x.sale ≡ Some (record { campaign = x.campaign; price = x.price; moment = moment; due = due_at settings.ttl moment; state = Held; user = user_of r }) }
{}

/// The law of effects, with nothing to run: the effect of a command leads to the state after it, a command
/// without one left the state as it was, and so the effects of a history lead to where the history did.
pub fn effects_lead_to_states()
    ensures effect { (settings : Settings) (moment : ℕ) (s : State) (c : Command) (e : Effect) → effect_of settings moment s c ≡ Some e → applied e s ≡ Some (step settings moment s c).after }
    ensures none { (settings : Settings) (moment : ℕ) (s : State) (c : Command) → effect_of settings moment s c ≡ None → (step settings moment s c).after ≡ s }
    ensures history { (settings : Settings) (opening : List Effect) (s : State) (calls : List Call) → state_of opening ≡ Some s → state_of (opening ++ effects settings s calls) ≡ Some (replay settings s calls) }
{}

/// The law of compaction, with nothing to run: a state is made again by its own effects, also after sales
/// were forgotten.
pub fn kept_effects_make_the_state()
    ensures state { (s : State) → IsConsistent s → state_of (kept_effects s) ≡ Some s }
    ensures forgotten { (keep : ℕ) (opening : List Effect) (s : State) → state_of opening ≡ Some s → state_of (kept_effects (forget keep s)) ≡ Some (forget keep s) }
{}
