//! Straight stretches of a grid.

ghost use Rattle.std.specs.Prelude.{◌≡◌, ℕ, ◌<◌, ◌↔◌, List, [], ◌∷◌, true, length, slice_get, Some, All, IfOk, IfErr};
ghost use Rattle.std.specs.Prelude.{OnOk, IsTrue};
ghost use Rattle.points_in.specs.declared.point.Point.{Point};
ghost use Rattle.net_graph.specs.Adds.{Adds};
ghost use Rattle.net_graph.specs.Network.{Joins, length_of};
ghost use Rattle.hanan_grid.specs.Grid.{xs_of, ys_of, vertex_of, hanan_grid_of};
ghost use Rattle.hanan_grid.specs.Distance.{distance_between};
ghost use Rattle.hanan_grid.specs.Names.{IsCrossing};
ghost use Rattle.hanan_grid.specs.Runs.{IsInRow, IsInColumnBetween};
ghost use Rattle.hanan_grid.specs.Stretch.{IsStraight, IsOnStretch, IsVertexOnStretch, IsGridStretch, IsSegmentFault};

use crate::fault::SegmentFault;
use crate::grid::Grid;
use net_graph::EdgeSet;
use points_in::Point;
use std::alloc::Global;

impl Grid {
    /// The edges of the straight stretch from one point to another: those with both ends on it. Points
    /// that are the same have none between them. An `Err` says that the points are on no common line, or
    /// else that one of them is no crossing, or is want of memory. No tool asks for it: `add_segment` is what
    /// trees are laid out by.
    pub fn segment(&self, alloc: Global, from: Point, to: Point) -> Result<EdgeSet, SegmentFault>
        ensures size { IfOk result (λ set. length set ≡ length (hanan_grid_of self.now).edges) }
        ensures edges { IfOk result
            (λ set. (e : ℕ) → (slice_get set e ≡ Some true) ↔ IsOnStretch self.now from to e) }
        ensures length { IfOk result
            (λ set. length_of (hanan_grid_of self.now) set ≡ distance_between from to) }
        ensures ends { IfOk result (λ set. Joins (hanan_grid_of self.now) set
            (vertex_of (xs_of self.now) (ys_of self.now) from
            ∷ vertex_of (xs_of self.now) (ys_of self.now) to ∷ [])) }
        ensures way { IfOk result (λ set. (vertices : List ℕ)
            → All (IsVertexOnStretch self.now from to) vertices
            → Joins (hanan_grid_of self.now) set vertices) }
        ensures ok { OnOk result (IsGridStretch self.now from to) }
        ensures fault { IfErr result (IsSegmentFault self.now from to) }
    {
        if !is_straight(from, to) {
            return Err(SegmentFault::Crooked);
        }
        if !self.is_crossing(from) || !self.is_crossing(to) {
            return Err(SegmentFault::OffGrid);
        }
        let mut set = EdgeSet::empty(alloc, self.graph().edge_count())?;
        self.add_segment(from, to, &mut set);
        Ok(set)
    }

    /// Whether a point is a crossing of the grid.
    pub fn is_crossing(&self, point: Point) -> bool
        ensures { IsTrue result ↔ IsCrossing (xs_of self.now) (ys_of self.now) point }
    {
        self.place_at(point).is_some()
    }

    /// Adds the edges of a straight stretch between two crossings to a set. It takes no memory.
    pub fn add_segment(&self, from: Point, to: Point, set: &mut EdgeSet)
        requires stretch { IsGridStretch self.now from to }
        requires size { length set.old ≡ length (hanan_grid_of self.now).edges }
        ensures { Adds (IsOnStretch self.now from to) set.old set.new }
    {
        let start = self.crossing_place(from);
        let end = self.crossing_place(to);
        if is_level(from, to) {
            add_row(self, start.row, start.column, end.column, set);
        } else {
            add_column(self, start.column, start.row, end.row, set);
        }
    }
}

// Whether the stretch between the points is vertical or horizontal.
fn is_straight(from: Point, to: Point) -> bool
    ensures { IsTrue result ↔ IsStraight from to }
{
    from.x == to.x || from.y == to.y
}

// Whether the points have one y.
fn is_level(from: Point, to: Point) -> bool
    ensures { IsTrue result ↔ (from.y ≡ to.y) }
{
    from.y == to.y
}

// Adds the horizontal edges of a row between two columns.
fn add_row(grid: &Grid, row: u32, from: u32, to: u32, set: &mut EdgeSet)
    requires row { row < length (ys_of grid.now) }
    requires from { from < length (xs_of grid.now) }
    requires to { to < length (xs_of grid.now) }
    requires size { length set.old ≡ length (hanan_grid_of grid.now).edges }
    ensures { Adds (IsInRow grid.now row from to) set.old set.new }
{
    for column in from.min(to)..from.max(to) {
        set.add(grid.horizontal_edge(column, row));
    }
}

// Adds the vertical edges of a column between two rows.
fn add_column(grid: &Grid, column: u32, from: u32, to: u32, set: &mut EdgeSet)
    requires column { column < length (xs_of grid.now) }
    requires from { from < length (ys_of grid.now) }
    requires to { to < length (ys_of grid.now) }
    requires size { length set.old ≡ length (hanan_grid_of grid.now).edges }
    ensures { Adds (IsInColumnBetween grid.now column from to) set.old set.new }
{
    for row in from.min(to)..from.max(to) {
        set.add(grid.vertical_edge(column, row));
    }
}
