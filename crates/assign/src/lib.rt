//! The values that an impression assigns to the attributes of targeting expressions.
//!
//! `specs/Rows.antt` has the table: which field of the bid request each attribute is.
#![tactic(auto)]

mod rows;
mod table;

pub use table::{assignment, each_value_is_of_its_row, no_attribute_stands_twice};
