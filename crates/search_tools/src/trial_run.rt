//! The tool `trial`: nothing comes in; drawn points are solved, the answer is judged, and a line that sums it up goes
//! out.

ghost use Rattle.std.specs.Prelude.{◌≡◌, ◌<◌, ◌≤◌, IfOk};
ghost use Rattle.rst_outside.specs.Source.{SourceState};
ghost use Rattle.rst_outside.specs.Shelf.{ShelfState};
ghost use Rattle.tool_frame.specs.Outside.{outside};
ghost use Rattle.tool_frame.specs.Stops.{FindsDue};
ghost use Rattle.search_tools.specs.TrialLine.{trial_text, trial_status};
ghost use Rattle.search_tools.specs.Trial.{EndsTrial, Tries, drawn_terminals};

use crate::judged_text::judge;
use crate::solve_points::solved_on;
use crate::trial_line::TrialLine;
use drawn_points::{distinct_points, draw_points, short_grid};
use hanan_grid::{Grid, GridFault};
use rst_outside::Sink;
use search_rules::SearchOptions;
use std::alloc::{AllocError, Global};
use tool_frame::{Stop, end_found};
use tree_inputs::{GenerationFault, MOST_MEMBERS};

/// Runs `trial`: draws `n` points, 1 to 50, from a seed, finds the answer for the distinct ones of them as `solve` does
/// where no word asks for anything else, has it judged, and prints a line that sums it up. Gives the status that the
/// program ends with.
pub fn trial<O: Sink, R: Sink>(alloc: Global, n: u8, seed: u64, out: &mut O, err: &mut R) -> u8
    requires some { 0 < n }
    requires few { n ≤ 50 }
    ensures { (input : SourceState) (shelf : ShelfState) → EndsTrial n seed
        (outside input (O.state out.old) (R.state err.old) shelf)
        (outside input (O.state out.new) (R.state err.new) shelf) result }
{
    let found = find(alloc, n, seed);
    end_found(out, err, b"trial", found)
}

// What is told of the answer for the drawn points, or that these have too many trees.
fn find(alloc: Global, n: u8, seed: u64) -> Result<TrialLine, Stop<GenerationFault>>
    requires some { 0 < n }
    requires few { n ≤ 50 }
    ensures { FindsDue trial_text trial_status (Tries n seed) result }
{
    let grid = drawn_grid(alloc, n, seed)?;
    let solution = solved_on(alloc, grid, SearchOptions::USUAL, MOST_MEMBERS)?;
    judge(alloc, &solution)?;
    Ok(TrialLine::of(n, seed, &solution))
}

// The grid of the distinct ones of the drawn points. An `Err` is want of memory.
fn drawn_grid(alloc: Global, n: u8, seed: u64) -> Result<Grid, AllocError>
    requires some { 0 < n }
    requires few { n ≤ 50 }
    ensures { IfOk result (λ grid. grid ≡ drawn_terminals n seed) }
{
    short_grid();
    let drawn = draw_points(alloc, n, seed)?;
    let points = distinct_points(alloc, &drawn)?;
    match Grid::new(alloc, &points) {
        Ok(grid) => Ok(grid),
        Err(GridFault::TooLong { .. }) => unreachable!(),
        Err(GridFault::Memory(error)) => Err(error),
    }
}
