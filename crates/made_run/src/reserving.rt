//! What is reserved behind a run.
ghost use Rattle.std.specs.Prelude.{◌≡◌, ◌+◌, ◌<◌, IfOk, length, take};
ghost use Rattle.std.specs.Option.{option_map_or};
ghost use Rattle.made_run.specs.Runs.{held_price, reserved_in};

use budget_book::{Book, SaleRow, SaleState};
use rtb_num::Nanos;
use std::alloc::AllocError;

/// The prices of all held sales. A hundred campaigns of nine dollars do not come to more than an amount holds.
pub(crate) fn reserved_in(book: &Book) -> Result<Nanos, AllocError>
    ensures { IfOk result (λ r. r ≡ reserved_in book.now.sales) }
{
    let mut sum = 0u64;
    for place in 0..book.sales() {
        let price = price_at(book, place)?;
        sum = plus(sum, price)?;
    }
    match Nanos::new(sum) {
        Some(reserved) => Ok(reserved),
        None => Err(AllocError),
    }
}

// What the sale at the place of the list reserves.
fn price_at(book: &Book, place: u64) -> Result<u64, AllocError>
    requires { place < length book.now.sales }
    ensures { IfOk result (λ price. reserved_in (take (place + 1) book.now.sales) ≡ reserved_in (take place book.now.sales) + price) }
{
    let before = plus(book.forgotten(), place)?;
    let number = plus(before, 1)?;
    let row = book.row(number)?;
    let price = price_of(&row);
    drop(row);
    Ok(price)
}

fn price_of(row: &Option<SaleRow>) -> u64
    ensures { result ≡ option_map_or held_price row.now 0 }
{
    match row {
        Some(row) => held_price(row),
        None => 0,
    }
}

fn held_price(row: &SaleRow) -> u64
    ensures { result ≡ held_price row.now }
{
    match row.state {
        SaleState::Held => row.price.get(),
        SaleState::Billed | SaleState::Lost | SaleState::Expired => 0,
    }
}

/// The sum, which no run takes past a number of 64 bits.
pub(crate) fn plus(count: u64, more: u64) -> Result<u64, AllocError>
    ensures { IfOk result (λ n. n ≡ count + more) }
{
    match count.checked_add(more) {
        Some(sum) => Ok(sum),
        None => Err(AllocError),
    }
}
