//! A campaign of a table, and the live ones at one moment.
use crate::record::SharedRecord;
use rtb_num::List;

/// A campaign of a table.
#[derive(Drop)]
pub struct Listed {
    pub entry: SharedRecord,
    /// Whether it takes part in auctions; else it is paused.
    pub live: bool,
}

/// A live campaign, by its number in the table.
#[derive(Drop)]
pub struct LiveRecord {
    pub number: u32,
    pub entry: SharedRecord,
}

/// The live campaigns of a table after so many edits.
#[derive(Drop)]
pub struct Snapshot {
    pub edit: u64,
    /// In the order of their numbers.
    pub live: List<LiveRecord>,
}
