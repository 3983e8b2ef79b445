//! The limits of a table, and that one would be passed.

/// What an exchange holds no more of.
#[derive(Clone, Copy)]
pub enum Limit {
    /// Sales in the list.
    Sales,
    Campaigns,
    /// Conjunctions of all campaigns.
    Conjunctions,
    /// Values that the expressions of all campaigns list.
    Values,
    /// Bytes of the texts of all campaigns, of facts and expressions together.
    TextBytes,
}

/// A limit would be passed.
#[derive(Clone, Copy)]
pub struct Full {
    pub limit: Limit,
}
