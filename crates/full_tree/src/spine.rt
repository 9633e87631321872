//! The spines of full trees, and the stations on them.

ghost use Rattle.std.specs.Prelude.{◌≡◌, ◌<◌, ◌≤◌, ◌+◌, ◌^◌, [], ◌∷◌, ◌++◌, length, map, option_to_list, All};
ghost use Rattle.hanan_grid.specs.Distance.{distance_between};
ghost use Rattle.full_tree.specs.Geometry.{point_at};
ghost use Rattle.full_tree.specs.LongLaws.{NamesFew};
ghost use Rattle.full_tree.specs.Form.{IsInForm};
ghost use Rattle.full_tree.specs.Stations.{
  station,
  stations_of,
  drop_stations,
  first_stations,
  last_foot,
  end_stations,
};

use crate::code::TreeCode;
use crate::pieces::{foot, side_foot};
use crate::see::point_at;
use crate::station::{Station, Stations};
use crate::way::Way;
use hanan_grid::Grid;
use points_in::Point;

/// The stations of a code in form, in their order on its spine.
pub fn stations(grid: &Grid, code: &TreeCode) -> Stations
    requires { IsInForm grid.now code.now }
    ensures { result ≡ stations_of grid.now code.now }
{
    let points = grid.points().as_slice();
    match code {
        TreeCode::Long {
            root,
            toward,
            drops,
            side,
            tip,
        } => long_stations(points, *root, *toward, drops.as_slice(), *side, *tip),
        TreeCode::Cross {
            west,
            south,
            east,
            north,
        } => cross_stations(points, *west, *south, *east, *north),
    }
}

// The stations of a long code.
fn long_stations(
    points: &[Point],
    root: u8,
    toward: Way,
    drops: &[u8],
    side: Option<u8>,
    tip: u8,
) -> Stations
    requires { NamesFew points.now root drops.now side tip }
    ensures { result ≡ stations_of points.now (TreeCode.Long root toward drops.now side tip) }
{
    let mut stations = Stations::empty();
    let from = push_drops(points, root, toward, drops, &mut stations);
    push_end(points, root, toward, from, side, tip, &mut stations);
    stations
}

// Appends the stations of the root and of drops, and tells where the spine has come to.
fn push_drops(
    points: &[Point],
    root: u8,
    toward: Way,
    drops: &[u8],
    stations: &mut Stations,
) -> Point
    requires root { root < length points.now }
    requires drops { All (λ d. d < length points.now) drops.now }
    requires room { length stations.old + length drops.now < 8 }
    ensures stations { stations.new ≡ stations.old ++ first_stations points.now root toward drops.now }
    ensures end { result ≡ last_foot points.now root toward (point_at points.now root) drops.now }
{
    stations.push(Station {
        member: root,
        before: 0,
        leg: 0,
    });
    let mut from = point_at(points, root);
    for drop in drops {
        let foot = foot(points, root, toward, *drop);
        stations.push(Station {
            member: *drop,
            before: gap(from, foot),
            leg: gap(foot, point_at(points, *drop)),
        });
        from = foot;
    }
    from
}

// Appends the stations behind the drops.
fn push_end(
    points: &[Point],
    root: u8,
    toward: Way,
    from: Point,
    side: Option<u8>,
    tip: u8,
    stations: &mut Stations,
)
    requires root { root < length points.now }
    requires side { All (λ d. d < length points.now) (option_to_list side) }
    requires tip { tip < length points.now }
    requires room { length stations.old + length (option_to_list side) < 8 }
    ensures { stations.new ≡ stations.old ++ end_stations points.now root toward from side tip }
{
    let corner = foot(points, root, toward, tip);
    let end = point_at(points, tip);
    let bend = gap(from, corner);
    match side {
        None => stations.push(Station {
            member: tip,
            before: bend + gap(corner, end),
            leg: 0,
        }),
        Some(side) => {
            let foot = side_foot(points, root, toward, tip, side);
            stations.push(Station {
                member: side,
                before: bend + gap(corner, foot),
                leg: gap(foot, point_at(points, side)),
            });
            stations.push(Station {
                member: tip,
                before: gap(foot, end),
                leg: 0,
            });
        }
    }
}

// The stations of a cross.
fn cross_stations(points: &[Point], west: u8, south: u8, east: u8, north: u8) -> Stations
    requires west { west < length points.now }
    requires south { south < length points.now }
    requires east { east < length points.now }
    requires north { north < length points.now }
    ensures { result ≡ stations_of points.now (TreeCode.Cross west south east north) }
{
    let middle = crossing(point_at(points, south), point_at(points, west));
    let mut stations = Stations::empty();
    stations.push(spoke(points, middle, west));
    stations.push(spoke(points, middle, south));
    stations.push(spoke(points, middle, east));
    stations.push(spoke(points, middle, north));
    stations
}

// The station of a cross's member.
fn spoke(points: &[Point], middle: Point, member: u8) -> Station
    requires { member < length points.now }
    ensures { result ≡ station member 0 (distance_between middle (point_at points.now member)) }
{
    Station {
        member,
        before: 0,
        leg: gap(middle, point_at(points, member)),
    }
}

// The point on the vertical line through one point and the horizontal line through another one.
fn crossing(upright: Point, level: Point) -> Point
    ensures { result ≡ record { x = upright.x; y = level.y } }
{
    Point {
        x: upright.x,
        y: level.y,
    }
}

/// How far it is along x and along y between two points.
pub fn gap(p: Point, q: Point) -> u128
    ensures value { result ≡ distance_between p q }
    ensures small { result < 2 ^ 65 }
{
    u128::from(p.x.abs_diff(q.x)) + u128::from(p.y.abs_diff(q.y))
}
