//! Reports of an exchange from its journal, as another program writes it.
//!
//! A follower reads the blocks that came behind those it knows, and carries out their effects. It writes nothing.
//! `specs/Following.antt` says where it stands in the file, and what it knows then, `specs/Growing.antt` why that stays
//! true where the file grows, `specs/Reporting.antt` what it answers, and `specs/Doors.antt` what comes of the links of
//! a door.
#![tactic(auto)]

mod answers;
mod block;
mod door;
mod follower;
mod header;
mod laws;
mod piece;
mod service;

pub use door::serve_reports;
pub use follower::{FollowReport, Follower};
pub use laws::what_was_carried_out_stays;
