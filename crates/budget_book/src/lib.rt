//! Budgets, and the sales that they are spent on.
//!
//! `specs/Sales.antt` says what sales add up to, and when they expire or are forgotten.
#![tactic(auto)]

mod account;
mod ahead;
mod appending;
mod billing;
mod book;
mod campaigns;
mod dues;
mod forgetting;
mod hash;
mod last_sales;
mod reports;
mod sales;
mod selling;
mod settling;
mod user_key;
mod users;

pub use book::Book;
pub use sales::{
    BelowCommitted, Gone, MOST_FORGOTTEN, MOST_SALES, SaleFault, SaleRow, SaleState, Totals,
};
pub use user_key::UserKey;
