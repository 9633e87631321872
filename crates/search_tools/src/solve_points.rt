//! The tool `solve`: points come in, the answer of a network that joins them goes out.

ghost use Rattle.std.specs.Prelude.{◌≤◌, length, IfOk, IfSome};
ghost use Rattle.rst_outside.specs.Shelf.{ShelfState};
ghost use Rattle.tool_frame.specs.Outside.{outside};
ghost use Rattle.tool_frame.specs.Stops.{IfFound};
ghost use Rattle.fst_file.specs.Value.{AreTreesOf};
ghost use Rattle.fst_gen.specs.Joins.{JoinsAll};
ghost use Rattle.search_tools.specs.Solve.{EndsSolve, Solves};
ghost use Rattle.search_tools.specs.Steps.{SolvesPoints, SolvesPruned};

use crate::longer_trees::{joined, no_longer};
use crate::solution::answered;
use concatenation::more_trees;
use fst_file::FstFile;
use graph_search::Solution;
use hanan_grid::Grid;
use rst_outside::{Sink, Source};
use search_rules::SearchOptions;
use std::alloc::{AllocError, Global};
use tool_frame::{Stop, TextTool, grid_in, run_on_text, within};
use tree_inputs::{GenerationFault, TreeLists, lists_of, pruned};

/// Runs `solve`: reads points from the input and prints the answer of a network of their grid, no longer than a
/// concatenation of their full trees of up to `k` members. Gives the status that the program ends with.
pub fn solve<I: Source, O: Sink, R: Sink>(
    alloc: Global,
    options: SearchOptions,
    k: u8,
    input: &mut I,
    out: &mut O,
    err: &mut R,
) -> u8
    requires least { 2 ≤ k }
    requires most { k ≤ 8 }
    ensures { (shelf : ShelfState) → EndsSolve options k
        (outside (I.state input.old) (O.state out.old) (R.state err.old) shelf)
        (outside (I.state input.new) (O.state out.new) (R.state err.new) shelf) result }
{
    run_on_text(alloc, b"solve", &Solving { options, k }, input, out, err)
}

// The answer for the points that a text lists.
#[derive(Drop)]
struct Solving {
    options: SearchOptions,
    k: u8,
    ghost least: { 2 ≤ k },
    ghost most: { k ≤ 8 },
}

impl TextTool for Solving {
    type Found = Solution<Grid>;

    type Wrong = GenerationFault;

    ghost prints = { λ tool. Solves tool.options tool.k };

    fn find(&self, alloc: Global, bytes: &[u8]) -> Result<Solution<Grid>, Stop<GenerationFault>> {
        let grid = within(grid_in(alloc, bytes), GenerationFault::List)?;
        solved_on(alloc, grid, self.options, self.k)
    }
}

/// The answer for the terminals of a grid, and for the kept ones of their trees of up to `k` members; or there are more
/// than 20,000 of these.
pub fn solved_on(
    alloc: Global,
    grid: Grid,
    options: SearchOptions,
    k: u8,
) -> Result<Solution<Grid>, Stop<GenerationFault>>
    requires least { 2 ≤ k }
    requires most { k ≤ 8 }
    ensures { IfFound result (SolvesPoints options k grid) }
{
    let lists = lists_of(alloc, grid, k)?;
    Ok(solved(alloc, lists, options)?)
}

// The answer for the points of a file whose trees join them, and for the kept ones of these trees: what a search finds
// that begins with a network of these, or with a shorter one of the longer list. An `Err` is want of memory.
fn solved(
    alloc: Global,
    lists: TreeLists,
    options: SearchOptions,
) -> Result<Solution<Grid>, AllocError>
    requires joins { JoinsAll (length lists.file.points) lists.file.trees }
    requires longer { IfSome lists.longer (AreTreesOf lists.file.points) }
    requires longer_joins { IfSome lists.longer (JoinsAll (length lists.file.points)) }
    ensures { IfOk result (SolvesPruned options lists.file) }
{
    more_trees();
    let TreeLists { file, longer } = lists;
    let FstFile { grid, trees } = pruned(alloc, file)?;
    let found = joined(alloc, &grid, &trees, options.concat)?;
    let found = no_longer(alloc, &grid, found, &trees, longer, options.concat)?;
    answered(alloc, grid, found, options)
}
