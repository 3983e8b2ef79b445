//! The index of many workers, which is published in versions while campaigns are edited.
//!
//! A version stands for the campaigns that were live at one edit, and has their records. What was found in it
//! stays true but for the campaigns that were touched since, which are asked anew. `specs/Versions.antt` says
//! what a version stands for, `specs/Touched.antt` which campaigns are true now, and `specs/Fixed.antt` what
//! becomes of what was found.
#![tactic(auto)]

mod laws;
mod recent;
mod touched;
mod version;

pub use laws::{a_snapshot_can_be_built, edits_are_remembered, what_was_found_can_be_corrected};
pub use recent::Recent;
pub use touched::{touched_since, true_among};
pub use version::{Version, build_next};
