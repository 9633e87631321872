//! The grid of points and boxes.

ghost use Rattle.std.specs.Prelude.{◌≡◌, ◌<◌, ◌≤◌, length, All, IfOk};
ghost use Rattle.net_graph.specs.Graph.{HasEndsBelow};
ghost use Rattle.obstacles_in.specs.Obstacles.{AreObstacles, corners_of, marks_of};
ghost use Rattle.obstacle_grid.specs.Grid.{obstacle_grid_of, point_of, is_blocked};

use crate::blocked::is_blocked_by_any;
use hanan_grid::{line_edges, point_vertices, x_lines, y_lines};
use net_graph::Edge;
use obstacles_in::{Obstacles, Rectangle};
use points_in::Point;
use std::alloc::{AllocError, Global};
use std::marker::Model;

/// The grid of points and boxes: a line each way through each point and along each side of a box, with a vertex at
/// each crossing and an edge between neighbours on a line. Contracts see the points and the boxes, since everything
/// else is a function of them.
#[derive(Drop)]
pub(crate) struct ObstacleGrid<'a> {
    obstacles: &'a Obstacles,
    xs: Vec<i64>,
    ys: Vec<i64>,
}

impl<'a> Model for ObstacleGrid<'a> {
    ghost use Rattle.obstacles_in.specs.Obstacles.{ObstaclesValue};
    ghost use Rattle.obstacle_grid.specs.Whole.{IsGridOf};

    ghost Value = { ObstaclesValue };

    ghost view = { λ g. g.obstacles.now };

    ghost invariant = { λ g. IsGridOf g.obstacles.now g.xs.items g.ys.items };
}

impl<'a> ObstacleGrid<'a> {
    /// The grid of these points and boxes. An `Err` is want of memory.
    pub(crate) fn new(alloc: Global, obstacles: &'a Obstacles) -> Result<Self, AllocError>
        ensures { IfOk result (λ grid. grid ≡ obstacles.now) }
    {
        let marks = marks_in(alloc, obstacles)?;
        let xs = x_lines(alloc, &marks)?;
        let ys = y_lines(alloc, &marks)?;
        Ok(ObstacleGrid { obstacles, xs, ys })
    }

    /// How many vertices there are, at most 2,500.
    pub(crate) fn vertex_count(&self) -> u32
        ensures count { result ≡ (obstacle_grid_of self.now).vertices }
        ensures few { result ≤ 2500 }
        ensures obstacles { AreObstacles self.now }
    {
        self.xs.len() as u32 * self.ys.len() as u32
    }

    /// All edges, at most 4,900. An `Err` is want of memory.
    pub(crate) fn edges(&self, alloc: Global) -> Result<Vec<Edge>, AllocError>
        ensures edges { IfOk result (λ edges. edges.items ≡ (obstacle_grid_of self.now).edges) }
        ensures ends { IfOk result (λ edges. All (HasEndsBelow (obstacle_grid_of self.now).vertices) edges.items) }
        ensures few { IfOk result (λ edges. length edges.items ≤ 4900) }
    {
        line_edges(alloc, &self.xs, &self.ys)
    }

    /// The vertices of the points, in their order. An `Err` is want of memory.
    pub(crate) fn terminals(&self, alloc: Global) -> Result<Vec<u32>, AllocError>
        ensures { IfOk result (λ vertices. vertices.items ≡ (obstacle_grid_of self.now).terminals) }
    {
        point_vertices(
            alloc,
            &self.xs,
            &self.ys,
            self.obstacles.points().as_slice(),
        )
    }

    /// Whether some box blocks the edge.
    pub(crate) fn is_blocked(&self, edge: Edge) -> bool
        requires { HasEndsBelow (obstacle_grid_of self.now).vertices edge }
        ensures { result ≡ is_blocked self.now edge }
    {
        is_blocked_by_any(
            self.obstacles.boxes(),
            self.vertex_point(edge.a),
            self.vertex_point(edge.b),
        )
    }

    // The point of a vertex.
    fn vertex_point(&self, vertex: u32) -> Point
        requires { vertex < (obstacle_grid_of self.now).vertices }
        ensures { result ≡ point_of self.now vertex }
    {
        let columns = self.xs.len() as u32;
        Point {
            x: self.xs[(vertex % columns) as usize],
            y: self.ys[(vertex / columns) as usize],
        }
    }
}

// The points, and two corners of each box, whose coordinates are the lines. An `Err` is want of memory.
fn marks_in(alloc: Global, obstacles: &Obstacles) -> Result<Vec<Point>, AllocError>
    ensures marks { IfOk result (λ marks. marks.items ≡ marks_of obstacles.now) }
    ensures obstacles { AreObstacles obstacles.now }
{
    let points = obstacles.points().as_slice();
    let boxes = obstacles.boxes();
    let mut marks = Vec::with_capacity(alloc, points.len() + 2 * boxes.len())?;
    marks.extend_from_slice(points)?;
    for b in boxes {
        marks.extend_from_slice(&corners(*b))?;
    }
    Ok(marks)
}

// The lower left corner and the upper right one.
fn corners(b: Rectangle) -> [Point; 2]
    ensures { result ≡ corners_of b }
{
    [Point { x: b.x1, y: b.y1 }, Point { x: b.x2, y: b.y2 }]
}
