//! Where a vertex of a grid is.

ghost use Rattle.std.specs.Prelude.{◌≡◌, ◌<◌, length, IsTrue, ◌↔◌};
ghost use Rattle.hanan_grid.specs.Names.{crossing};
ghost use Rattle.hanan_grid.specs.Neighbours.{IsRightOf, IsAbove};

use crate::lines::line;
use points_in::Point;

/// A crossing of a grid, by its column and its row.
#[derive(Clone, Copy)]
pub struct Place {
    /// The place of its x among the distinct x of the terminals, from the left and counted from 0.
    pub column: u32,
    /// The place of its y among the distinct y of the terminals, from below and counted from 0.
    pub row: u32,
}

impl Place {
    /// Whether this is the next crossing to the right of another one.
    pub fn is_right_of(self, other: Place) -> bool
        requires { other.column < 50 }
        ensures { IsTrue result ↔ IsRightOf self other }
    {
        self.row == other.row && self.column == other.column + 1
    }

    /// Whether this is the next crossing above another one.
    pub fn is_above(self, other: Place) -> bool
        requires { other.row < 50 }
        ensures { IsTrue result ↔ IsAbove self other }
    {
        self.column == other.column && self.row == other.row + 1
    }
}

/// The point where a column and a row cross.
pub fn crossing_at(xs: &[i64], ys: &[i64], place: Place) -> Point
    requires column { place.column < length xs.now }
    requires row { place.row < length ys.now }
    ensures { result ≡ crossing xs.now ys.now place.column place.row }
{
    Point {
        x: line(xs, place.column),
        y: line(ys, place.row),
    }
}
