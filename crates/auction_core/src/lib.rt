//! The exchange as one thread runs it: a command is prepared, which may want memory, and then carried out,
//! which cannot fail.
//!
//! What a command does stands in `plain_exchange`: here a table of campaigns and a book of sales do just
//! that. `specs/Core.antt` says which state they are, and `specs/Draft.antt` what a draft is.
#![tactic(auto)]

mod apply;
mod apply_kept;
mod awards;
mod candidates;
mod commit;
mod draft;
mod edits;
mod exchange;
mod fault;
mod fits;
mod kept;
mod looks;
mod outcome;
mod payers;
mod prepare;
mod prepare_auctions;
mod prepare_campaigns;
mod prepare_found;
mod prepare_records;
mod prepare_sales;
mod put;
mod ready;
mod scan;
mod sell;

pub use candidates::Candidates;
pub use draft::Draft;
pub use exchange::Core;
pub use fault::ApplyFault;
pub use plain_exchange::{
    Act, Change, Command, Effect, KeptCampaign, Limit, Look, Record, Reply, SharedRecord, Sold,
    SoldItem,
};
