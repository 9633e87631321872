//! The name of a grid's edge.

ghost use Rattle.std.specs.Prelude.{◌≡◌};
ghost use Rattle.hanan_grid.specs.Names.{name_between};

use points_in::Point;

/// An edge of a grid, named by its ends: first the one whose vertex has the lower number.
#[derive(Clone, Copy, Debug)]
pub struct EdgeName {
    pub x1: i64,
    pub y1: i64,
    pub x2: i64,
    pub y2: i64,
}

/// The name of an edge between two points, of which the first has the lower-numbered vertex.
pub fn name_between(from: Point, to: Point) -> EdgeName
    ensures { result ≡ name_between from to }
{
    EdgeName {
        x1: from.x,
        y1: from.y,
        x2: to.x,
        y2: to.y,
    }
}

/// The two points of a name.
pub fn named_points(name: &EdgeName) -> (Point, Point)
    ensures { name_between result.0 result.1 ≡ name.now }
{
    let from = Point {
        x: name.x1,
        y: name.y1,
    };
    let to = Point {
        x: name.x2,
        y: name.y2,
    };
    (from, to)
}
