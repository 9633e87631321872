//! The trees of points.

use fst_gen::{GenFault, generate};
use hanan_grid::Grid;
use row_tables::{Fault, Told};
use std::alloc::Global;

/// How many trees of up to `k` members the points have.
pub fn generated(alloc: Global, grid: &Grid, k: u8, told: &mut Told) -> Result<(), Fault> {
    if k < 2 || k > 8 {
        return Err(Fault::NotAllowed);
    }
    match generate(alloc, grid, k) {
        Ok(trees) => told.line("trees ", &trees.len()),
        Err(GenFault::TooManyTrees) => told.word("more than 20000 trees\n"),
        Err(GenFault::Memory(_)) => return Err(Fault::Memory),
    }
    Ok(())
}
