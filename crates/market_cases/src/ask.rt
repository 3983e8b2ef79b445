//! What a book is asked.
//!
//! - `report CAMPAIGN`: `RESERVED SPENT HELD BILLED LOST EXPIRED`.
//! - `gone CAMPAIGN`: `SPENT BILLED LOST EXPIRED`.
//! - `free CAMPAIGN`, `free_at CAMPAIGN MOMENT`.
//! - `due MOMENT`: how many would expire.
//! - `state SALE MOMENT`: the state that it would have then, or `none`.
//! - `shown CAMPAIGN SECONDS MOMENT USER`.
//! - `sale SALE`: `CAMPAIGN PRICE MOMENT DUE STATE [USER]`, or `none`.
//! - `at_once KEEP MOMENT`: how many may be forgotten at once, once what is due expired.
//! - `settled COUNT MOMENT`: whether so many of the oldest are there and none of them is held then, `yes` or `no`.
//! - `sales`, `forgotten`: how many there are in the list, and how many are no more.

use crate::book::Shop;
use crate::words::{campaign_at, number_at, put_numbers, word_at};
use budget_book::{SaleRow, SaleState};
use rtb_num::{Txt, write_decimal};
use std::alloc::AllocError;

// Appends the answer, or `?` where the command is none.
pub fn answer(shop: &Shop, command: &[u8], out: &mut Txt) -> Result<(), AllocError> {
    if of_campaign(shop, command, out)? {
        return Ok(());
    }
    if of_sales(shop, command, out)? {
        return Ok(());
    }
    out.extend(b"?")
}

fn of_campaign(shop: &Shop, command: &[u8], out: &mut Txt) -> Result<bool, AllocError> {
    let c = campaign_at(command, 1);
    if !shop.has(c) {
        return Ok(false);
    }
    let name = word_at(command, 0);
    if name == b"report".as_slice() {
        let totals = shop.book.report(c);
        let amounts = [totals.reserved.get(), totals.spent.get()];
        let counts = [totals.held, totals.billed, totals.lost, totals.expired];
        return put_both(&amounts, &counts, out);
    }
    if name == b"gone".as_slice() {
        let gone = shop.book.gone(c);
        return put_both(
            &[gone.spent.get()],
            &[gone.billed, gone.lost, gone.expired],
            out,
        );
    }
    if name == b"free".as_slice() {
        return put_number(shop.book.free(c).get(), out);
    }
    if name == b"free_at".as_slice() {
        return put_number(shop.book.free_at(c, number_at(command, 2)).get(), out);
    }
    Ok(false)
}

fn of_sales(shop: &Shop, command: &[u8], out: &mut Txt) -> Result<bool, AllocError> {
    let name = word_at(command, 0);
    if name == b"due".as_slice() {
        return put_number(shop.book.due_count(number_at(command, 1)), out);
    }
    if name == b"state".as_slice() {
        let state = shop
            .book
            .state_at(number_at(command, 1), number_at(command, 2));
        return put_state(state, out);
    }
    if name == b"shown".as_slice() {
        return put_number(count_shown(shop, command), out);
    }
    if name == b"sale".as_slice() {
        return put_row_of(shop, number_at(command, 1), out);
    }
    if name == b"sales".as_slice() {
        return put_number(shop.book.sales(), out);
    }
    if name == b"at_once".as_slice() {
        let keep = number_at(command, 1);
        return put_number(shop.book.forgettable_at(keep, number_at(command, 2)), out);
    }
    if name == b"settled".as_slice() {
        return put_settled(shop, command, out);
    }
    if name == b"forgotten".as_slice() {
        return put_number(shop.book.forgotten(), out);
    }
    Ok(false)
}

fn count_shown(shop: &Shop, command: &[u8]) -> u64 {
    let seconds = campaign_at(command, 2);
    let moment = number_at(command, 3);
    shop.book.shown(
        campaign_at(command, 1),
        word_at(command, 4),
        seconds,
        moment,
    )
}

fn put_both(amounts: &[u64], counts: &[u64], out: &mut Txt) -> Result<bool, AllocError> {
    put_numbers(amounts, b' ', out)?;
    out.push(b' ')?;
    put_numbers(counts, b' ', out)?;
    Ok(true)
}

fn put_number(n: u64, out: &mut Txt) -> Result<bool, AllocError> {
    write_decimal(n, out)?;
    Ok(true)
}

fn put_state(state: Option<SaleState>, out: &mut Txt) -> Result<bool, AllocError> {
    match state {
        Some(state) => out.extend(word_of(state))?,
        None => out.extend(b"none")?,
    }
    Ok(true)
}

fn word_of(state: SaleState) -> &'static [u8] {
    match state {
        SaleState::Held => b"held",
        SaleState::Billed => b"billed",
        SaleState::Lost => b"lost",
        SaleState::Expired => b"expired",
    }
}

fn put_row_of(shop: &Shop, sale: u64, out: &mut Txt) -> Result<bool, AllocError> {
    let row = shop.book.row(sale)?;
    let put = put_row(&row, out);
    drop(row);
    put
}

fn put_row(row: &Option<SaleRow>, out: &mut Txt) -> Result<bool, AllocError> {
    match row {
        Some(row) => put_sale(row, out)?,
        None => out.extend(b"none")?,
    }
    Ok(true)
}

fn put_sale(row: &SaleRow, out: &mut Txt) -> Result<(), AllocError> {
    put_numbers(
        &[
            u64::from(row.campaign),
            row.price.get(),
            row.moment,
            row.due,
        ],
        b' ',
        out,
    )?;
    out.push(b' ')?;
    out.extend(word_of(row.state))?;
    match &row.user {
        Some(user) => out.extend_all(&[b" ", user.as_bytes()]),
        None => Ok(()),
    }
}

fn put_settled(shop: &Shop, command: &[u8], out: &mut Txt) -> Result<bool, AllocError> {
    let count = number_at(command, 1);
    let settled = shop.book.are_settled_at(count, number_at(command, 2));
    out.extend(if settled {
        b"yes".as_slice()
    } else {
        b"no".as_slice()
    })?;
    Ok(true)
}
