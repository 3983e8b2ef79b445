//! Cases of public calls, a line each, for the programs that run them.
//!
//! A case is `CALL | ARG | .. | ARG => ANSWER`. Lines that begin with `#` are comments, and blank
//! lines are passed over. `notation.rt` says what stands in a field. A program hands the function that
//! answers its calls, and its input, to [`run_cases`]. The code of this crate and of such a program owes
//! safety alone: what it shows is printed and compared.
#![tactic(auto)]

mod notation;
mod report;
mod words;

pub use report::run_cases;
pub use words::{done, kept, kept_if, number_in, numbers_in, paired, put_comma, put_space, say};
