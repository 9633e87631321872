//! Calls on points, grids, and codes of full Steiner trees.

mod codes;
pub mod described;
mod ends;
mod grids;
mod joining;
mod points;

use hanan_grid::Grid;
use row_tables::{Call, Fault, Told};
use std::alloc::Global;

/// Makes the call of a row, and writes what comes of it.
pub fn answer(alloc: Global, call: &Call, told: &mut Told) -> Result<(), Fault> {
    match call.kind() {
        "points" => points::points(alloc, call, told),
        "whole" => grids::whole(alloc, call, told),
        "joining" => joining::joining(alloc, call, told),
        _ => of_grid(alloc, &described::grid(alloc, call)?, call, told),
    }
}

// Makes a call on a grid.
fn of_grid(alloc: Global, grid: &Grid, call: &Call, told: &mut Told) -> Result<(), Fault> {
    match call.kind() {
        "edges_named" => grids::edges_named(grid, call.text("names")?, told),
        "vertices_at" => grids::vertices_at(grid, call.text("at")?, told),
        "segments" => ends::segments(alloc, grid, call.text("ends")?, told),
        "distances" => grids::distances(alloc, grid, call.text("pairs")?, told),
        "lengths" => codes::lengths(alloc, grid, call.text("codes")?, told),
        "parts" => codes::parts(alloc, grid, call.text("code")?, told),
        "order" => codes::order(alloc, grid, call, told),
        _ => Err(Fault::UnknownSubject),
    }
}
