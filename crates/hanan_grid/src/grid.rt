//! Hanan's grid of a list of points.

ghost use Rattle.std.specs.Prelude.{◌≡◌, ℕ, ◌+◌, ◌<◌, ◌≤◌, ◌^◌, length, slice_get, Some, IfOk, IfErr, IfSome, IfNone};
ghost use Rattle.std.specs.Prelude.{OnOk};
ghost use Rattle.points_in.specs.declared.point.Point.{Point};
ghost use Rattle.net_graph.specs.Graph.{IsGraph, total_of};
ghost use Rattle.hanan_grid.specs.Grid.{xs_of, ys_of, vertex_number, vertex_of, horizontal, vertical, hanan_grid_of};
ghost use Rattle.hanan_grid.specs.Lines.{place_of};
ghost use Rattle.hanan_grid.specs.Names.{IsCrossing, crossing, point_of_vertex, name_of_edge, name_of_crossings};
ghost use Rattle.hanan_grid.specs.Names.{NamesNoEdge};
ghost use Rattle.hanan_grid.specs.Distance.{distance_of};
ghost use Rattle.hanan_grid.specs.Fault.{IsFaultOf};

use crate::distance::distance_between;
use crate::edges::{line_edges, point_vertices};
use crate::fault::{GridFault, grid_fault};
use crate::lines::{found_in, place_in, x_lines, y_lines};
use crate::name::{EdgeName, name_between, named_points};
use crate::place::{Place, crossing_at};
use net_graph::{EdgeList, NetGraph, VertexList};
use points_in::{MAX_POINTS, Point, Points};
use std::alloc::Global;
use std::marker::Model;

/// Hanan's grid of terminals: a vertical line through each terminal's x and a horizontal line through
/// each terminal's y, with a vertex at each crossing and an edge between neighbours on a line (Hanan
/// 1966). Contracts see the list of the terminals, since everything else is a function of it.
#[derive(Drop)]
pub struct Grid {
    points: Points,
    xs: Vec<i64>,
    ys: Vec<i64>,
    graph: NetGraph,
}

impl Model for Grid {
    ghost use Rattle.std.specs.Prelude.{List};
    ghost use Rattle.points_in.specs.declared.point.Point.{Point};
    ghost use Rattle.hanan_grid.specs.Whole.{IsGridOf};

    ghost Value = { List Point };

    ghost view = { λ g. g.points };

    ghost invariant = { λ g. IsGridOf g.points g.xs.items g.ys.items g.graph };
}

impl Grid {
    /// The grid of these terminals, of which it keeps a copy. An `Err` says that the edges' total is
    /// above 2^63 - 1, or is want of memory.
    pub fn new(alloc: Global, points: &Points) -> Result<Grid, GridFault>
        ensures ok { IfOk result (λ grid. grid ≡ points.now) }
        ensures fits { OnOk result (total_of (hanan_grid_of points.now) < 2 ^ 63) }
        ensures fault { IfErr result (IsFaultOf points.now) }
    {
        let count = points.len();
        prove!(0 < count && count <= MAX_POINTS);
        let xs = x_lines(alloc, points.as_slice())?;
        let ys = y_lines(alloc, points.as_slice())?;
        let graph = lines_graph(alloc, &xs, &ys, points.as_slice())?;
        let points = points.copy()?;
        Ok(Grid {
            points,
            xs,
            ys,
            graph,
        })
    }

    /// The terminals, in their order.
    pub fn points(&self) -> &Points
        ensures { result.now ≡ self.now }
    {
        &self.points
    }

    /// The graph of the grid. Vertices are numbered row by row; edges too, the horizontal ones before
    /// the vertical ones. Its terminals are the vertices of the grid's terminals, in their order.
    pub fn graph(&self) -> &NetGraph
        ensures graph { result.now ≡ hanan_grid_of self.now }
        ensures sound { IsGraph (hanan_grid_of self.now) }
    {
        &self.graph
    }

    /// How many columns there are, which is how many distinct x the terminals have: 1 to 50.
    pub fn columns(&self) -> u32
        ensures columns { result ≡ length (xs_of self.now) }
        ensures some { 0 < result }
        ensures few { result ≤ 50 }
    {
        self.xs.len() as u32
    }

    /// How many rows there are, which is how many distinct y the terminals have: 1 to 50.
    pub fn rows(&self) -> u32
        ensures rows { result ≡ length (ys_of self.now) }
        ensures some { 0 < result }
        ensures few { result ≤ 50 }
    {
        self.ys.len() as u32
    }

    /// The column and the row of a vertex.
    pub fn place(&self, vertex: u32) -> Place
        requires { vertex < (hanan_grid_of self.now).vertices }
        ensures column { result.column < length (xs_of self.now) }
        ensures row { result.row < length (ys_of self.now) }
        ensures vertex { vertex_number (length (xs_of self.now)) result.column result.row ≡ vertex }
    {
        let columns = self.xs.len() as u32;
        Place {
            column: vertex % columns,
            row: vertex / columns,
        }
    }

    /// The vertex of a column and a row.
    pub fn vertex(&self, place: Place) -> u32
        requires column { place.column < length (xs_of self.now) }
        requires row { place.row < length (ys_of self.now) }
        ensures vertex { result ≡ vertex_number (length (xs_of self.now)) place.column place.row }
        ensures below { result < (hanan_grid_of self.now).vertices }
    {
        let columns = self.xs.len() as u32;
        place.row * columns + place.column
    }

    /// The point of a vertex.
    pub fn vertex_point(&self, vertex: u32) -> Point
        requires { vertex < (hanan_grid_of self.now).vertices }
        ensures point { result ≡ point_of_vertex (xs_of self.now) (ys_of self.now) vertex }
        ensures crossing { IsCrossing (xs_of self.now) (ys_of self.now) result }
        ensures vertex { vertex_of (xs_of self.now) (ys_of self.now) result ≡ vertex }
    {
        crossing_at(&self.xs, &self.ys, self.place(vertex))
    }

    /// The number of the edge from a crossing to the next one to the right.
    pub fn horizontal_edge(&self, column: u32, row: u32) -> u32
        requires column { column + 1 < length (xs_of self.now) }
        requires row { row < length (ys_of self.now) }
        ensures edge { slice_get (hanan_grid_of self.now).edges result
            ≡ Some (horizontal (xs_of self.now) row column) }
        ensures below { result < length (hanan_grid_of self.now).edges }
    {
        let columns = self.xs.len() as u32;
        row * (columns - 1) + column
    }

    /// The number of the edge from a crossing to the next one above.
    pub fn vertical_edge(&self, column: u32, row: u32) -> u32
        requires column { column < length (xs_of self.now) }
        requires row { row + 1 < length (ys_of self.now) }
        ensures edge { slice_get (hanan_grid_of self.now).edges result
            ≡ Some (vertical (length (xs_of self.now)) (ys_of self.now) row column) }
        ensures below { result < length (hanan_grid_of self.now).edges }
    {
        let columns = self.xs.len() as u32;
        let rows = self.ys.len() as u32;
        rows * (columns - 1) + row * columns + column
    }

    /// The name of an edge, by its number.
    pub fn edge_name(&self, edge: u32) -> EdgeName
        requires { edge < length (hanan_grid_of self.now).edges }
        ensures name { result ≡ name_of_edge self.now edge }
        ensures alone { (other : ℕ) → other < length (hanan_grid_of self.now).edges
            → name_of_edge self.now other ≡ result → other ≡ edge }
    {
        let ends = self.graph.edge(edge);
        name_between(self.vertex_point(ends.a), self.vertex_point(ends.b))
    }

    /// The column and the row of a point, where it is a crossing.
    pub fn place_at(&self, point: Point) -> Option<Place>
        ensures column { IfSome result (λ place. place.column < length (xs_of self.now)) }
        ensures row { IfSome result (λ place. place.row < length (ys_of self.now)) }
        ensures point { IfSome result
            (λ place. crossing (xs_of self.now) (ys_of self.now) place.column place.row ≡ point) }
        ensures none { IfNone result (¬ IsCrossing (xs_of self.now) (ys_of self.now) point) }
    {
        let column = found_in(&self.xs, point.x)?;
        let row = found_in(&self.ys, point.y)?;
        Some(Place { column, row })
    }

    // The column and the row of a crossing.
    pub(crate) fn crossing_place(&self, point: Point) -> Place
        requires { IsCrossing (xs_of self.now) (ys_of self.now) point }
        ensures column { result.column ≡ place_of point.x (xs_of self.now) }
        ensures row { result.row ≡ place_of point.y (ys_of self.now) }
    {
        Place {
            column: place_in(&self.xs, point.x),
            row: place_in(&self.ys, point.y),
        }
    }

    /// The vertex of a point, where it is a crossing.
    pub fn vertex_at(&self, point: Point) -> Option<u32>
        ensures below { IfSome result (λ v. v < (hanan_grid_of self.now).vertices) }
        ensures vertex { IfSome result
            (λ v. v ≡ vertex_of (xs_of self.now) (ys_of self.now) point) }
        ensures point { IfSome result
            (λ v. point_of_vertex (xs_of self.now) (ys_of self.now) v ≡ point) }
        ensures none { IfNone result (¬ IsCrossing (xs_of self.now) (ys_of self.now) point) }
    {
        let place = self.place_at(point)?;
        Some(self.vertex(place))
    }

    /// The number of the edge of a name, where there is one.
    pub fn edge_named(&self, name: &EdgeName) -> Option<u32>
        ensures below { IfSome result (λ e. e < length (hanan_grid_of self.now).edges) }
        ensures name { IfSome result (λ e. name_of_edge self.now e ≡ name.now) }
        ensures none { IfNone result (NamesNoEdge self.now name.now) }
    {
        let (from, to) = named_points(name);
        let from = self.place_at(from)?;
        let to = self.place_at(to)?;
        self.edge_between(from, to)
    }

    // The number of the edge from one crossing to another, where there is one.
    fn edge_between(&self, from: Place, to: Place) -> Option<u32>
        requires from_column { from.column < length (xs_of self.now) }
        requires from_row { from.row < length (ys_of self.now) }
        requires to_column { to.column < length (xs_of self.now) }
        requires to_row { to.row < length (ys_of self.now) }
        ensures below { IfSome result (λ e. e < length (hanan_grid_of self.now).edges) }
        ensures name { IfSome result
            (λ e. name_of_edge self.now e ≡ name_of_crossings self.now from to) }
        ensures none { IfNone result (NamesNoEdge self.now (name_of_crossings self.now from to)) }
    {
        let columns = self.columns();
        let rows = self.rows();
        prove!(from.column < columns && from.row < rows);
        if to.is_right_of(from) {
            Some(self.horizontal_edge(from.column, from.row))
        } else if to.is_above(from) {
            Some(self.vertical_edge(from.column, from.row))
        } else {
            None
        }
    }

    /// How far it is along x and along y between the terminals at two places of the list, counted
    /// from 0. It is at most the graph's total, which is below 2^63.
    pub fn distance(&self, i: usize, j: usize) -> u64
        requires first { i < length self.now }
        requires second { j < length self.now }
        ensures distance { result ≡ distance_of self.now i j }
        ensures within { result ≤ total_of (hanan_grid_of self.now) }
        ensures fits { result < 2 ^ 63 }
    {
        distance_between(self.points.get(i), self.points.get(j))
    }
}

// The graph of the lines of points.
fn lines_graph(
    alloc: Global,
    xs: &[i64],
    ys: &[i64],
    points: &[Point],
) -> Result<NetGraph, GridFault>
    requires some { 0 < length points.now }
    requires few { length points.now ≤ 50 }
    requires columns { xs.now ≡ xs_of points.now }
    requires rows { ys.now ≡ ys_of points.now }
    ensures ok { IfOk result (λ graph. graph ≡ hanan_grid_of points.now) }
    ensures sound { IfOk result (λ graph. IsGraph graph) }
    ensures fault { IfErr result (IsFaultOf points.now) }
{
    let edges = line_edges(alloc, xs, ys)?;
    let terminals = point_vertices(alloc, xs, ys, points)?;
    let vertices = xs.len() as u32 * ys.len() as u32;
    let edges = EdgeList::from_vec(edges);
    let terminals = VertexList::from_vec(terminals);
    match NetGraph::new(alloc, vertices, edges, terminals) {
        Ok(graph) => Ok(graph),
        Err(fault) => Err(grid_fault(fault)),
    }
}
