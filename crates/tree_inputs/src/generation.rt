//! The full trees of points that come in.

ghost use Rattle.std.specs.Prelude.{◌≤◌};
ghost use Rattle.tool_frame.specs.Stops.{IfFound};
ghost use Rattle.tree_inputs.specs.Generation.{GeneratesFst, GeneratesTrees};

use crate::generation_fault::GenerationFault;
use fst_file::FstFile;
use fst_gen::{GenFault, generate};
use full_tree::lengths_are_within_the_grid;
use hanan_grid::Grid;
use std::alloc::Global;
use tool_frame::{Stop, grid_in, within};

/// How many members a generated tree has at most, where no word asks for another number.
pub const MOST_MEMBERS: u8 = 6;

/// The file of the points that a text lists and of their trees of up to `k` members; or why there is none.
pub fn generated_in(alloc: Global, bytes: &[u8], k: u8) -> Result<FstFile, Stop<GenerationFault>>
    requires least { 2 ≤ k }
    requires most { k ≤ 8 }
    ensures { IfFound result (GeneratesFst k bytes.now) }
{
    let grid = within(grid_in(alloc, bytes), GenerationFault::List)?;
    trees_of(alloc, grid, k)
}

/// The file of the terminals of a grid and of their trees of up to `k` members; or there are more than 20,000 of these.
pub fn trees_of(alloc: Global, grid: Grid, k: u8) -> Result<FstFile, Stop<GenerationFault>>
    requires least { 2 ≤ k }
    requires most { k ≤ 8 }
    ensures { IfFound result (GeneratesTrees k grid) }
{
    lengths_are_within_the_grid();
    let _graph = grid.graph();
    match generate(alloc, &grid, k) {
        Ok(trees) => Ok(FstFile { grid, trees }),
        Err(GenFault::TooManyTrees) => Err(Stop::Fault(GenerationFault::TooManyTrees)),
        Err(GenFault::Memory(error)) => Err(Stop::Memory(error)),
    }
}
