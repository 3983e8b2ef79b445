//! A worker that serves the links of one door with its seat at an exchange that workers share.
//!
//! A message is carried out in a turn of the exchange, its effect is made durable, and only then it is answered.
//! `specs/Answers.antt` says what a message leads to and what the seat's list has of it, and `specs/Doors.antt` what
//! comes of the links of a door.
#![tactic(auto)]

mod commands;
mod desk;
mod door;
mod messages;
mod worker;

pub use door::{DoorEnd, serve_door};
