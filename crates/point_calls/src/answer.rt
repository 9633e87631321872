//! Calls on answers and their checker.

mod described;
mod judge_calls;
mod reading;
mod row;
mod writing;

use crate::grid::described::grid;
use hanan_grid::Grid;
use row_tables::{Call, Fault, Told};
use std::alloc::Global;

/// Makes the call of a row, and writes what comes of it.
pub fn answer(alloc: Global, call: &Call, told: &mut Told) -> Result<(), Fault> {
    match call.kind() {
        "read" => reading::read(alloc, call, told),
        "number_row" => row::number_row(alloc, call, told),
        _ => of_grid(alloc, call, &grid(alloc, call)?, told),
    }
}

// Makes a call on a grid.
fn of_grid(alloc: Global, call: &Call, grid: &Grid, told: &mut Told) -> Result<(), Fault> {
    match call.kind() {
        "write" => writing::write(alloc, call, grid, told),
        "judge" => judge_calls::judge(alloc, call, grid, told),
        _ => Err(Fault::UnknownSubject),
    }
}
