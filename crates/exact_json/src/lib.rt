//! JSON texts (RFC 8259), every byte accounted for.
//!
//! `specs/Tree.antt` says what a text says, `specs/Grammar.antt` which bytes spell it, and
//! `specs/View.antt` which tree a `Value` stands for. What is read borrows from the text and lies in an
//! arena, so a value is `Copy` and nothing is let go of piece by piece.
#![tactic(auto)]

mod character;
mod doc;
mod fault;
mod lanes;
mod number;
mod place;
mod reader;
mod stacks;
mod stop;
mod string;
mod value;
mod whole;

pub use doc::Doc;
pub use fault::JsonFault;
pub use stacks::room_for;
pub use value::{Member, Value, get};
pub use whole::{bytes_have_one_fault, places_follow_the_grammar, read, text_has_one_tree};
