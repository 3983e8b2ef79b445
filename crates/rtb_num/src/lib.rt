//! The types that every crate speaks in: texts, lists, amounts of money, and where bytes come from
//! and go to.
//!
//! Contracts see a `Txt` and a `List` as the list of what is in it, and `Micros` and `Nanos` as
//! numbers. `specs/Numbers.antt` says what a number of RFC 8259 is and what it is worth,
//! `specs/Amounts.antt` how an amount is written, `specs/Fields.antt` what a field of bytes holds, and
//! `specs/Paths.antt` how a place in an array stands in a path.
#![tactic(auto)]

mod calls;
mod fields;
mod lists;
mod memory;
mod money;
mod number_form;
mod number_parts;
mod pairs;
mod paths;
mod read_amounts;
mod real;
mod short;
mod spare;
mod streams;
mod text;
mod write_amounts;
mod write_whole;

pub use calls::Calls;
pub use fields::{fields_are_read_again, get_u32, get_u64, put_u32, put_u64};
pub use lists::List;
pub use memory::{MemSink, MemSource};
pub use money::{Micros, Nanos};
pub use number_form::{is_decimal, is_number};
pub use pairs::pair_with;
pub use paths::{put_item, put_member, put_name, put_place};
pub use read_amounts::{PriceFault, exact_micros, floor_micros, is_whole, whole};
pub use real::{StdSink, StdSource};
pub use spare::{SpareList, SpareTxt};
pub use streams::{Failed, Sink, Source};
pub use text::Txt;
pub use write_amounts::{write_micros, write_nanos, written_amounts_are_exact};
pub use write_whole::{write_decimal, write_signed};
