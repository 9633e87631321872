//! Calls on lists of full Steiner trees.

ghost use Rattle.std.specs.Prelude.{◌≡◌, All, length};
ghost use Rattle.full_tree.specs.Form.{IsInForm};
ghost use Rattle.full_tree.specs.Pieces.{code_length};
ghost use Rattle.fst_concat.specs.Chosen.{HasMembersBelow};

mod chosen;
mod fitting;
mod generated;
mod network;
mod places;
mod proposal;

use crate::grid::described::grid;
use crate::tree::fitting::fitting;
use full_tree::TreeList;
use hanan_grid::Grid;
use row_tables::{Call, Fault, Told, narrow};
use std::alloc::Global;

/// Makes the call of a row, and writes what comes of it.
pub fn answer(alloc: Global, call: &Call, told: &mut Told) -> Result<(), Fault> {
    match call.kind() {
        "proposal" => proposal::proposal(alloc, call, told),
        _ => of_grid(alloc, call, &grid(alloc, call)?, told),
    }
}

// Makes a call on a grid.
fn of_grid(alloc: Global, call: &Call, grid: &Grid, told: &mut Told) -> Result<(), Fault> {
    match call.kind() {
        "generated" => generated::generated(alloc, grid, call.byte("k")?, told),
        _ => of_trees(alloc, call, grid, &fitting(alloc, call, grid)?, told),
    }
}

// Makes a call on trees in form.
fn of_trees(
    alloc: Global,
    call: &Call,
    grid: &Grid,
    trees: &TreeList,
    told: &mut Told,
) -> Result<(), Fault>
    requires form { All (λ tree. IsInForm grid.now tree.code) trees.now }
    requires lengths { All (λ tree. tree.length ≡ code_length grid.now tree.code) trees.now }
    requires members { All (HasMembersBelow (length grid.now)) trees.now }
{
    match call.kind() {
        "chosen" => chosen::chosen(alloc, grid, trees, narrow(call.number("allowed")?)?, told),
        "network" => network::network(alloc, call, grid, trees, told),
        _ => Err(Fault::UnknownSubject),
    }
}
