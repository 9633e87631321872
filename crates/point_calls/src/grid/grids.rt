//! What is told of grids.

ghost use Rattle.std.specs.Prelude.{◌≡◌};

use crate::grid::described::{point, points};
use crate::grid::ends::ends;
use hanan_grid::{Grid, GridFault};
use row_tables::{Call, Fault, Told, exactly};
use spanning::{Table, bottlenecks};
use std::alloc::Global;

/// The fault of the grid of the points under `points`; or its columns, rows and total, and then the point of each
/// vertex, the vertex of each terminal, and the ends of each edge.
pub fn whole(alloc: Global, call: &Call, told: &mut Told) -> Result<(), Fault> {
    match Grid::new(alloc, &points(alloc, call)?) {
        Ok(grid) => tell(&grid, told),
        Err(GridFault::Memory(_)) => return Err(Fault::Memory),
        Err(fault) => told.line("", &fault),
    }
    Ok(())
}

// All of a grid.
fn tell(grid: &Grid, told: &mut Told) {
    told.value("columns ", &grid.columns());
    told.value(", rows ", &grid.rows());
    told.line(", total ", &grid.graph().total());
    vertices(grid, told);
    terminals(grid, told);
    edges(grid, told);
}

// The point of each vertex.
fn vertices(grid: &Grid, told: &mut Told) {
    for vertex in 0..grid.graph().vertex_count() {
        let point = grid.vertex_point(vertex);
        told.value("vertex ", &point.x);
        told.line(" ", &point.y);
    }
}

// The vertex of each terminal.
fn terminals(grid: &Grid, told: &mut Told) {
    for terminal in 0..grid.points().len() {
        told.line("terminal ", &grid.graph().terminal(terminal));
    }
}

// The ends of each edge.
fn edges(grid: &Grid, told: &mut Told) {
    for edge in 0..grid.graph().edge_count() {
        let name = grid.edge_name(edge);
        told.value("edge ", &name.x1);
        told.value(" ", &name.y1);
        told.value(" ", &name.x2);
        told.line(" ", &name.y2);
    }
}

/// For each name of the lines its edge, where there is one.
pub fn edges_named(grid: &Grid, lines: &str, told: &mut Told) -> Result<(), Fault> {
    for line in lines.lines() {
        match grid.edge_named(&ends(line)?) {
            Some(edge) => told.line("edge ", &edge),
            None => told.word("no edge\n"),
        }
    }
    Ok(())
}

/// For each point of the lines its vertex, with its column and its row, where there is one.
pub fn vertices_at(grid: &Grid, lines: &str, told: &mut Told) -> Result<(), Fault> {
    for line in lines.lines() {
        match grid.vertex_at(point(line)?) {
            Some(vertex) => {
                let place = grid.place(vertex);
                told.value("vertex ", &vertex);
                told.value(", column ", &place.column);
                told.line(", row ", &place.row);
            }
            None => told.word("no crossing\n"),
        }
    }
    Ok(())
}

/// For each two terminals of the lines, by their places in the list, their distance and their bottleneck.
pub fn distances(alloc: Global, grid: &Grid, lines: &str, told: &mut Told) -> Result<(), Fault> {
    distances_by(grid, &bottlenecks(alloc, grid)?, lines, told)
}

// The same by the table of bottlenecks.
fn distances_by(grid: &Grid, table: &Table, lines: &str, told: &mut Told) -> Result<(), Fault>
    requires { table.now ≡ grid.now }
{
    for line in lines.lines() {
        let [i, j] = exactly::<2>(line)?;
        distance(grid, table, i as usize, j as usize, told)?;
    }
    Ok(())
}

// The distance and the bottleneck of two terminals.
fn distance(grid: &Grid, table: &Table, i: usize, j: usize, told: &mut Told) -> Result<(), Fault>
    requires { table.now ≡ grid.now }
{
    if i >= grid.points().len() || j >= grid.points().len() {
        return Err(Fault::NotAllowed);
    }
    told.value("distance ", &grid.distance(i, j));
    told.line(", bottleneck ", &table.between(i, j));
    Ok(())
}
