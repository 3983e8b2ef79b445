//! Prices in micro-dollars and amounts in nano-dollars.
ghost use Rattle.std.specs.Prelude.{◌≡◌, ◌≤◌, ◌↔◌, ◌^◌, IsSome, IfSome};

use std::marker::Model;

/// A price: whole micro-dollars per thousand impressions, from 0 to 10^12 (a million dollars).
///
/// Contracts see it as the number of micro-dollars.
#[derive(Clone, Copy, Debug, PartialEq, Eq, PartialOrd, Ord)]
pub struct Micros {
    micros: u64,
}

impl Model for Micros {
    ghost use Rattle.std.specs.Prelude.{ℕ, ◌≤◌, ◌^◌};

    ghost Value = { ℕ };

    ghost view = { λ m. m.micros };

    ghost invariant = { λ m. m.micros ≤ 10 ^ 12 };

    ghost inverse = { λ n. record { micros = n } };
}

impl Micros {
    /// The price, or none above 10^12.
    pub fn new(n: u64) -> Option<Micros>
        ensures variant { IsSome result ↔ (n ≤ 10 ^ 12) }
        ensures value { IfSome result (λ m. m ≡ n) }
    {
        if n <= 1_000_000_000_000 {
            Some(Micros { micros: n })
        } else {
            None
        }
    }

    /// The number of micro-dollars.
    pub fn get(self) -> u64
        ensures value { result ≡ self }
        ensures bound { result ≤ 10 ^ 12 }
    {
        self.micros
    }
}

/// An amount of money: whole nano-dollars, from 0 to 10^15 (a million dollars).
///
/// One impression sold at p micro-dollars per thousand costs exactly p nano-dollars. Contracts see
/// it as the number of nano-dollars.
#[derive(Clone, Copy, Debug, PartialEq, Eq, PartialOrd, Ord)]
pub struct Nanos {
    nanos: u64,
}

impl Model for Nanos {
    ghost use Rattle.std.specs.Prelude.{ℕ, ◌≤◌, ◌^◌};

    ghost Value = { ℕ };

    ghost view = { λ a. a.nanos };

    ghost invariant = { λ a. a.nanos ≤ 10 ^ 15 };

    ghost inverse = { λ n. record { nanos = n } };
}

impl Nanos {
    /// The amount, or none above 10^15.
    pub fn new(n: u64) -> Option<Nanos>
        ensures variant { IsSome result ↔ (n ≤ 10 ^ 15) }
        ensures value { IfSome result (λ a. a ≡ n) }
    {
        if n <= 1_000_000_000_000_000 {
            Some(Nanos { nanos: n })
        } else {
            None
        }
    }

    /// The number of nano-dollars.
    pub fn get(self) -> u64
        ensures value { result ≡ self }
        ensures bound { result ≤ 10 ^ 15 }
    {
        self.nanos
    }
}

impl From<Micros> for Nanos {
    ghost from_gives = { λ price cost. cost ≡ price };

    /// What one impression costs at the price: a thousandth of so many micro-dollars, which is as many
    /// nano-dollars.
    fn from(price: Micros) -> Nanos {
        Nanos { nanos: price.get() }
    }
}
