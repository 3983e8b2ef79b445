//! The last sales to users, by hashes of campaigns and users.
ghost use Rattle.std.specs.Prelude.{◌≡◌, ◌==◌, ℕ, ◌≤◌, ◌<◌, [], length, if◌then◌else◌, OnOk, OnErr};
ghost use Rattle.budget_book.specs.LastSales.{AreNone, last_at};

use std::alloc::{AllocError, Global};
use std::marker::Model;
use std::mem;

const PLACES: usize = 1_048_576;

// At each place, which the hash of a campaign and a user picks, the number of the last sale, or 0. There are no places
// before there is room for sales.
#[derive(Drop)]
pub(crate) struct LastSales {
    numbers: Vec<u64>,
}

impl Model for LastSales {
    ghost use Rattle.std.specs.Prelude.{◌≡◌, ◌⊎◌, length, List, ℕ};

    ghost Value = { List ℕ };

    ghost view = { λ l. l.numbers.items };

    ghost invariant = { λ l. (length l.numbers.items ≡ 0) ⊎ (length l.numbers.items ≡ 1048576) };
}

impl LastSales {
    pub fn new(alloc: Global) -> LastSales
        ensures { result ≡ [] }
    {
        LastSales {
            numbers: Vec::new(alloc),
        }
    }

    // Makes the places where there are none.
    pub fn reserve(&mut self) -> Result<(), AllocError>
        ensures numbers { (b : ℕ) → last_at b self.new ≡ last_at b self.old }
        ensures places { OnOk result (length self.new ≡ 1048576) }
        ensures stay { length self.old ≤ length self.new }
    {
        if !self.numbers.is_empty() {
            return Ok(());
        }
        make_places(&mut self.numbers)
    }

    // The number of the last sale at the place, or 0 where there is none.
    pub fn get(&self, place: usize) -> u64
        ensures { result ≡ last_at place self.now }
    {
        match self.numbers.get(place) {
            None => 0,
            Some(number) => *number,
        }
    }

    // The place gets the number. The number that it had, or 0.
    pub fn put(&mut self, place: usize, number: u64) -> u64
        requires some { 0 < length self.old }
        requires place { place < 1048576 }
        ensures was { result ≡ last_at place self.old }
        ensures numbers { (q : ℕ) → last_at q self.new ≡ (if q == place then number else last_at q self.old) }
        ensures many { length self.new ≡ length self.old }
    {
        mem::replace(&mut self.numbers[place], number)
    }
}

// Makes all places, each of them without a sale.
fn make_places(numbers: &mut Vec<u64>) -> Result<(), AllocError>
    requires { numbers.old.items ≡ [] }
    ensures places { OnOk result (length numbers.new.items ≡ 1048576) }
    ensures none { AreNone numbers.new.items }
    ensures err { OnErr result (numbers.new.items ≡ []) }
{
    numbers.reserve_exact(PLACES)?;
    for _ in 0..PLACES {
        numbers.push_reserved(0);
    }
    Ok(())
}
