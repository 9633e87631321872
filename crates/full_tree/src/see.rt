//! How points compare, seen from a terminal that looks in a direction.

ghost use Rattle.std.specs.Prelude.{◌≡◌, ◌<◌, length};
ghost use Rattle.std.specs.Ordering.{int_cmp};
ghost use Rattle.points_in.specs.declared.point.Point.{Point};
ghost use Rattle.full_tree.specs.Geometry.{point_at, along, across, meet};

use crate::way::Way;
use points_in::Point;
use std::cmp::Ordering;

/// Which of two points lies further ahead in a direction, wherever one looks from.
pub fn along_order(toward: Way, p: Point, q: Point) -> Ordering
    ensures { (r : Point) → result ≡ int_cmp (along r toward p) (along r toward q) }
{
    match toward {
        Way::East => p.x.cmp(&q.x),
        Way::North => p.y.cmp(&q.y),
        Way::West => q.x.cmp(&p.x),
        Way::South => q.y.cmp(&p.y),
    }
}

/// Which of two points lies further to the left of who looks in a direction, wherever one looks from.
pub fn across_order(toward: Way, p: Point, q: Point) -> Ordering
    ensures { (r : Point) → result ≡ int_cmp (across r toward p) (across r toward q) }
{
    match toward {
        Way::East => p.y.cmp(&q.y),
        Way::North => q.x.cmp(&p.x),
        Way::West => q.y.cmp(&p.y),
        Way::South => p.x.cmp(&q.x),
    }
}

/// The point at a place of a list.
pub fn point_at(points: &[Point], place: u8) -> Point
    requires { place < length points.now }
    ensures { result ≡ point_at points.now place }
{
    points[usize::from(place)]
}

/// The point that lies as far ahead as one point and as far to the left as another one, wherever one
/// looks from.
pub fn meeting_point(toward: Way, ahead: Point, left: Point) -> Point
    ensures { result ≡ meet toward ahead left }
{
    match toward {
        Way::East | Way::West => Point {
            x: ahead.x,
            y: left.y,
        },
        Way::North | Way::South => Point {
            x: left.x,
            y: ahead.y,
        },
    }
}
