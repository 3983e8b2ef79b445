//! The exchange as one thread with lists: what a command does, its reply, and the effect that it leaves.
//!
//! These are definitions, and no exchange runs here. `specs/State.antt` has the state, `specs/Auction.antt`
//! what is sold of a bid request, `specs/Step.antt` what each command does, `specs/History.antt` what a
//! legal history is, `specs/Effects.antt` what effects do to a state, and `specs/Consistent.antt` what
//! holds of every state. `src/laws.rt` has the laws of it. `proofs/Pricing.antt`, `proofs/Timing.antt` and
//! `proofs/Replaying.antt` work cases through by evaluation.
#![tactic(auto)]

mod changes;
mod commands;
mod laws;
mod settings;

pub use budget_book::{Gone, SaleRow, SaleState, Totals};
pub use campaign_store::{Limit, Record, SharedRecord};
pub use changes::{Change, Effect, KeptCampaign, SoldItem};
pub use commands::{Act, Command, Look, Reply, Sold};
pub use laws::{
    budgets_hold, effects_lead_to_states, forgetting_is_counted, kept_effects_make_the_state,
    longest_front_is_forgotten, numbers_stay, sold_impressions_are_listed, states_stay_consistent,
    winner_can_pay,
};
pub use settings::Settings;
