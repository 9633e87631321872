//! The rectilinear distance of two points.

ghost use Rattle.std.specs.Prelude.{◌≡◌, ◌<◌, ◌^◌};
ghost use Rattle.hanan_grid.specs.Distance.{distance_between};

use points_in::Point;

/// How far it is along x and along y.
pub fn distance_between(p: Point, q: Point) -> u64
    requires { distance_between p q < 2 ^ 64 }
    ensures { result ≡ distance_between p q }
{
    p.x.abs_diff(q.x) + p.y.abs_diff(q.y)
}
