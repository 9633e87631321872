//! Cuts as rows describe them.

ghost use Rattle.std.specs.Prelude.{All, IfOk};
ghost use Rattle.hanan_grid.specs.Grid.{hanan_grid_of};
ghost use Rattle.answer_text.specs.Answers.{IsCutOn};

use graph_calls::described::members_of;
use hanan_grid::Grid;
use net_graph::{Cut, Packing};
use row_tables::{Call, Fault, numbers};
use std::alloc::Global;

/// The cuts under `cuts`, a line each: a weight of at least 1, and vertices of the grid.
pub fn cuts(alloc: Global, call: &Call, grid: &Grid) -> Result<Packing, Fault>
    ensures { IfOk result (All (IsCutOn (hanan_grid_of grid.now))) }
{
    let lines = call.text("cuts")?;
    let mut cuts = Packing::empty(alloc);
    for line in lines.lines() {
        cuts.push(cut(alloc, line, grid)?)?;
    }
    Ok(cuts)
}

// The cut of a line.
fn cut(alloc: Global, line: &str, grid: &Grid) -> Result<Cut, Fault>
    ensures { IfOk result (IsCutOn (hanan_grid_of grid.now)) }
{
    cut_of(alloc, &numbers(alloc, line)?, grid)
}

// The cut of numbers.
fn cut_of(alloc: Global, numbers: &[u64], grid: &Grid) -> Result<Cut, Fault>
    ensures { IfOk result (IsCutOn (hanan_grid_of grid.now)) }
{
    let (weight, vertices) = numbers.split_first().ok_or(Fault::BadNumber)?;
    if *weight == 0 {
        return Err(Fault::NotAllowed);
    }
    Ok(Cut {
        weight: *weight,
        members: members_of(alloc, grid.graph(), vertices)?,
    })
}
