//! Two ends of a straight stretch, and its edges.

use crate::grid::described::coordinates;
use graph_calls::told::tell_edges;
use hanan_grid::{EdgeName, Grid, SegmentFault};
use points_in::Point;
use row_tables::{Fault, Told};
use std::alloc::Global;

/// The ends of a line, x and y of both.
pub fn ends(line: &str) -> Result<EdgeName, Fault> {
    let [x1, y1, x2, y2] = coordinates::<4>(line)?;
    Ok(EdgeName { x1, y1, x2, y2 })
}

/// For each two ends of the lines the edges of the straight stretch between them, or its fault.
pub fn segments(alloc: Global, grid: &Grid, lines: &str, told: &mut Told) -> Result<(), Fault> {
    for line in lines.lines() {
        segment(alloc, grid, ends(line)?, told)?;
    }
    Ok(())
}

// The edges between two ends, or the fault of their stretch.
fn segment(alloc: Global, grid: &Grid, ends: EdgeName, told: &mut Told) -> Result<(), Fault> {
    let EdgeName { x1, y1, x2, y2 } = ends;
    match grid.segment(alloc, Point { x: x1, y: y1 }, Point { x: x2, y: y2 }) {
        Ok(set) => tell_edges(told, "edges", &set),
        Err(SegmentFault::Memory(_)) => return Err(Fault::Memory),
        Err(fault) => told.line("", &fault),
    }
    Ok(())
}
