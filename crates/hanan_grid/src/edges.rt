//! The edges of a grid's lines, and the vertices of points.

ghost use Rattle.std.specs.Prelude.{◌≡◌, ◌+◌, ◌-◌, ◌*◌, ◌<◌, ◌≤◌, ◌++◌, length, map, vec_len, vec_capacity, IfOk};
ghost use Rattle.std.specs.List.{range_with_len};
ghost use Rattle.hanan_grid.specs.LinesLaws.{IsRising};
ghost use Rattle.hanan_grid.specs.Grid.{horizontal, vertical, horizontals, verticals, vertex_of};
ghost use Rattle.hanan_grid.specs.GridLaws.{edges_of_lines};

use crate::lines::{gap, place_in};
use net_graph::Edge;
use points_in::Point;
use std::alloc::{AllocError, Global};

/// All edges between neighbouring crossings of at most 100 lines each way, the horizontal ones first, each kind by row
/// and then by column. An `Err` is want of memory.
pub fn line_edges(alloc: Global, xs: &[i64], ys: &[i64]) -> Result<Vec<Edge>, AllocError>
    requires columns { 0 < length xs.now }
    requires rows { 0 < length ys.now }
    requires few_columns { length xs.now ≤ 100 }
    requires few_rows { length ys.now ≤ 100 }
    ensures { IfOk result (λ edges. edges.items ≡ edges_of_lines xs.now ys.now) }
{
    let columns = xs.len();
    let rows = ys.len();
    let count = rows * (columns - 1) + (rows - 1) * columns;
    let mut edges = Vec::with_capacity(alloc, count)?;
    push_horizontals(&mut edges, xs, ys);
    push_verticals(&mut edges, xs, ys);
    Ok(edges)
}

// Appends the horizontal edges, row by row.
fn push_horizontals(edges: &mut Vec<Edge>, xs: &[i64], ys: &[i64])
    requires columns { 0 < length xs.now }
    requires few_columns { length xs.now ≤ 100 }
    requires few_rows { length ys.now ≤ 100 }
    requires room { vec_len edges.old + length ys.now * (length xs.now - 1)
        ≤ vec_capacity edges.old }
    ensures edges { edges.new.items ≡ edges.old.items ++ horizontals xs.now ys.now }
    ensures len { vec_len edges.new ≡ vec_len edges.old + length ys.now * (length xs.now - 1) }
    ensures capacity { vec_capacity edges.new ≡ vec_capacity edges.old }
{
    for row in 0..ys.len() as u32 {
        push_horizontal_row(edges, xs, row);
    }
}

// Appends the horizontal edges of a row.
fn push_horizontal_row(edges: &mut Vec<Edge>, xs: &[i64], row: u32)
    requires columns { 0 < length xs.now }
    requires few_columns { length xs.now ≤ 100 }
    requires few_rows { row < 100 }
    requires room { vec_len edges.old + (length xs.now - 1) ≤ vec_capacity edges.old }
    ensures edges { edges.new.items
        ≡ edges.old.items ++ map (horizontal xs.now row) (range_with_len 0 (length xs.now - 1)) }
    ensures len { vec_len edges.new ≡ vec_len edges.old + (length xs.now - 1) }
    ensures capacity { vec_capacity edges.new ≡ vec_capacity edges.old }
{
    for column in 0..xs.len() - 1 {
        let a = row * xs.len() as u32 + column as u32;
        edges.push_reserved(Edge {
            a,
            b: a + 1,
            length: gap(xs, column),
        });
    }
}

// Appends the vertical edges, row by row.
fn push_verticals(edges: &mut Vec<Edge>, xs: &[i64], ys: &[i64])
    requires rows { 0 < length ys.now }
    requires few_columns { length xs.now ≤ 100 }
    requires few_rows { length ys.now ≤ 100 }
    requires room { vec_len edges.old + (length ys.now - 1) * length xs.now
        ≤ vec_capacity edges.old }
    ensures edges { edges.new.items ≡ edges.old.items ++ verticals xs.now ys.now }
    ensures len { vec_len edges.new ≡ vec_len edges.old + (length ys.now - 1) * length xs.now }
    ensures capacity { vec_capacity edges.new ≡ vec_capacity edges.old }
{
    for row in 0..ys.len() - 1 {
        push_vertical_row(edges, xs.len() as u32, ys, row);
    }
}

// Appends the vertical edges from a row to the next one, where a row has `columns` crossings.
fn push_vertical_row(edges: &mut Vec<Edge>, columns: u32, ys: &[i64], row: usize)
    requires row { row + 1 < length ys.now }
    requires few_columns { columns ≤ 100 }
    requires few_rows { length ys.now ≤ 100 }
    requires room { vec_len edges.old + columns ≤ vec_capacity edges.old }
    ensures edges { edges.new.items
        ≡ edges.old.items ++ map (vertical columns ys.now row) (range_with_len 0 columns) }
    ensures len { vec_len edges.new ≡ vec_len edges.old + columns }
    ensures capacity { vec_capacity edges.new ≡ vec_capacity edges.old }
{
    let length = gap(ys, row);
    for column in 0..columns {
        let a = row as u32 * columns + column;
        edges.push_reserved(Edge {
            a,
            b: a + columns,
            length,
        });
    }
}

/// The vertex of each point among the crossings of at most 100 lines each way, in order. A point whose coordinates are
/// no lines gets the number that the lines below it make. An `Err` is want of memory.
pub fn point_vertices(
    alloc: Global,
    xs: &[i64],
    ys: &[i64],
    points: &[Point],
) -> Result<Vec<u32>, AllocError>
    requires rising_columns { IsRising xs.now }
    requires rising_rows { IsRising ys.now }
    requires few_columns { length xs.now ≤ 100 }
    requires few_rows { length ys.now ≤ 100 }
    ensures { IfOk result (λ vertices. vertices.items ≡ map (vertex_of xs.now ys.now) points.now) }
{
    let mut vertices = Vec::with_capacity(alloc, points.len())?;
    for point in points {
        vertices.push_reserved(point_vertex(xs, ys, *point));
    }
    Ok(vertices)
}

/// The vertex of a point whose coordinates are lines.
pub fn point_vertex(xs: &[i64], ys: &[i64], point: Point) -> u32
    requires rising_columns { IsRising xs.now }
    requires rising_rows { IsRising ys.now }
    requires few_columns { length xs.now ≤ 100 }
    requires few_rows { length ys.now ≤ 100 }
    ensures { result ≡ vertex_of xs.now ys.now point }
{
    place_in(ys, point.y) * xs.len() as u32 + place_in(xs, point.x)
}
