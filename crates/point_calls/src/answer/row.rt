//! Rows of numbers.

use lists::Row;
use row_tables::{Call, Fault, Told, exactly, narrow};
use std::alloc::Global;

/// A row of as many zeros as the first number under `numbers` says, in which the third stands at the place of the
/// second, and then each number is one more.
pub fn number_row(alloc: Global, call: &Call, told: &mut Told) -> Result<(), Fault> {
    let [len, place, value] = exactly::<3>(call.text("numbers")?)?;
    let (len, place) = (narrow(len)?, narrow(place)?);
    if place >= len {
        return Err(Fault::NotAllowed);
    }
    let mut row = Row::zeros(alloc, len)?;
    row.set(place, value);
    tell_row(&mut row, told);
    Ok(())
}

// Makes each number one more, and tells them.
fn tell_row(row: &mut Row, told: &mut Told) {
    for number in row.numbers_mut() {
        *number = number.wrapping_add(1);
    }
    for n in 0..row.len() {
        told.line("", &row.get(n));
    }
}
