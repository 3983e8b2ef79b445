//! The audit of a trace: whether the answers that an exchange gave are those of an exchange of one thread that evaluates
//! every live campaign in turn.
//!
//! It shares no index with the exchange that serves. `specs/Accounts.antt` says when a trace accounts for itself,
//! `specs/Verdicts.antt` what is said of it.
#![tactic(auto)]

mod accounting;
mod entries;
mod input;
mod laws;
mod run;
mod verdict;

pub use accounting::{account, account_found, passes};
pub use laws::a_trace_has_one_verdict;
pub use run::audit_run;
pub use verdict::{AuditFault, Verdict};
