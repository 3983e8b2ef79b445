//! What an operator decides of an exchange.

/// What an operator decides of an exchange before it begins.
#[derive(Clone, Copy)]
pub struct Settings {
    /// For how long a sale is held, in milliseconds.
    pub ttl: u64,
    /// How many sales its list is to have at most. Above it nothing is sold before some are forgotten.
    pub limit: u64,
}
