//! The answer that a search gives for a file of full trees.

ghost use Rattle.std.specs.Prelude.{List, IfOk};
ghost use Rattle.hanan_grid.specs.Grid.{hanan_grid_of};
ghost use Rattle.full_tree.specs.declared.code.Tree.{Tree};
ghost use Rattle.branch.specs.States.{IsNetworkOf};
ghost use Rattle.tool_frame.specs.Stops.{IfFound};
ghost use Rattle.search_tools.specs.Steps.{IsFor, IsMadeOf, SolvesFile};

use crate::network::{Found, improved, network_on};
use answer_text::answer_len;
use fst_file::FstFile;
use graph_search::{Solution, answer_with, searched_on};
use hanan_grid::Grid;
use search_rules::SearchOptions;
use std::alloc::{AllocError, Global};
use tool_frame::Stop;

/// The answer for the points of a file: what a search finds that begins with a network no longer than a concatenation
/// of the file's trees. A fault is the place of the first point that all trees together leave apart.
pub fn solution_of(
    alloc: Global,
    file: FstFile,
    options: SearchOptions,
) -> Result<Solution<Grid>, Stop<u8>>
    ensures { IfFound result (SolvesFile options file) }
{
    let FstFile { grid, trees } = file;
    let found = network_on(alloc, &grid, &trees, options.concat)?;
    let found = improved(alloc, &grid, found)?;
    Ok(answered(alloc, grid, found, options)?)
}

/// What a search finds that begins with a network of a grid: an answer for all trees of a concatenation of which the
/// network is made. An `Err` is want of memory.
pub fn answered(
    alloc: Global,
    grid: Grid,
    found: Found,
    options: SearchOptions,
) -> Result<Solution<Grid>, AllocError>
    requires { IsNetworkOf (hanan_grid_of grid) found.network }
    ensures { IfOk result (λ solution. (trees : List Tree) → IsMadeOf options.concat grid trees found
        → IsFor options grid trees solution) }
{
    let Found { network, note } = found;
    let solved = searched_on(alloc, &grid, network, options.in_graph())?;
    let answer = answer_with(options.openings, note, solved);
    prove!(answer_len(&grid, &answer) < 1 << 32);
    Ok(Solution {
        instance: grid,
        answer,
    })
}
