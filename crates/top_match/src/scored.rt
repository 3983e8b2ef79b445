//! A true expression with its score, and the marks of a certificate.

/// An expression that is true.
#[derive(Clone, Copy, Drop)]
pub struct Scored {
    /// Its number, counted from 1.
    pub number: u32,
    /// The sum of the weights of the values that attributes have.
    pub score: u64,
}

/// Why an expression is among the chosen ones, or is not.
#[derive(Clone, Copy, Drop)]
pub enum Mark {
    Chosen,
    /// The clause at this place, counted from 0, is its first that is false.
    False { clause: u32 },
    /// It is true and comes behind all that are chosen.
    Later { score: u64 },
}
