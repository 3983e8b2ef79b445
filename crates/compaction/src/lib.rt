//! A journal written anew: the exchange that an old one gives, without its oldest sales.
//!
//! `specs/Writing.antt` says what becomes of the journal and of the file that is written, `specs/Beside.antt` the same of
//! one that is written anew while another program goes on to write it, and `specs/Lines.antt` what is told of it.
#![tactic(auto)]

mod beside;
mod blocks;
mod carrying;
mod fault;
mod header;
mod journals;
mod laws;
mod line;
mod passing;
mod writing;

pub use beside::{Beside, begin_beside};
pub use fault::CompactionFault;
pub use journals::{Compacted, compact};
pub use laws::{an_exchange_goes_on_without_its_oldest_sales, what_is_kept_goes_on};
