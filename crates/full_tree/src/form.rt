//! Which codes are in form.

ghost use Rattle.std.specs.Prelude.{ℕ, ◌≡◌, ◌≢◌, ◌<◌, ◌≤◌, pos, ◌<ℤ◌, ◌∷◌, [], ◌++◌, length, map, All, AllPairs};
ghost use Rattle.std.specs.Prelude.{IsTrue, ◌↔◌, IfSome};
ghost use Rattle.full_tree.specs.Geometry.{point_at, RisesFrom};
ghost use Rattle.full_tree.specs.Code.{named_places, HasFewMembers};
ghost use Rattle.full_tree.specs.Form.{along_of, IsOnShortLeg, LieInTurn, IsLongShape, IsCrossShape, IsShape, IsInForm};

use crate::code::TreeCode;
use crate::membership::{named, named_count};
use crate::places::MAX_PLACES;
use crate::see::{across_order, along_order, point_at};
use crate::way::Way;
use hanan_grid::Grid;
use points_in::Point;
use std::cmp::Ordering;

/// Whether a code is in form among the terminals of a grid: its members are 2 to 8 places of the list of
/// terminals, each named once, and they lie as the shape of the code wants.
pub fn in_form(grid: &Grid, code: &TreeCode) -> bool
    ensures { IsTrue result ↔ IsInForm grid.now code.now }
{
    let points = grid.points().as_slice();
    has_few_members(code) && names_terminals(points, code) && has_shape(points, code)
}

// Whether a code names at most 8 places, each once.
fn has_few_members(code: &TreeCode) -> bool
    ensures { IsTrue result ↔ HasFewMembers code.now }
{
    named_count(code) <= MAX_PLACES && are_distinct(named(code).as_slice())
}

// Whether no place stands twice.
fn are_distinct(places: &[u8]) -> bool
    ensures { IsTrue result ↔ AllPairs (λ p q. p ≢ q) places.now }
{
    for (n, place) in places.iter().enumerate() {
        if places[..n].contains(place) {
            return false;
        }
    }
    true
}

// Whether the places that a code names are places of points.
fn names_terminals(points: &[Point], code: &TreeCode) -> bool
    requires { length (named_places code.now) ≤ 8 }
    ensures { IsTrue result ↔ All (λ k. k < length points.now) (named_places code.now) }
{
    named(code)
        .as_slice()
        .iter()
        .all(|place| usize::from(*place) < points.len())
}

// Whether the terminals of a code lie as its shape wants.
fn has_shape(points: &[Point], code: &TreeCode) -> bool
    requires { All (λ k. k < length points.now) (named_places code.now) }
    ensures { IsTrue result ↔ IsShape points.now code.now }
{
    match code {
        TreeCode::Long {
            root,
            toward,
            drops,
            side,
            tip,
        } => has_long_shape(points, *root, *toward, drops.as_slice(), *side, *tip),
        TreeCode::Cross {
            west,
            south,
            east,
            north,
        } => is_cross(
            point_at(points, *west),
            point_at(points, *south),
            point_at(points, *east),
            point_at(points, *north),
        ),
    }
}

// Whether the terminals of a long code lie as its shape wants.
fn has_long_shape(
    points: &[Point],
    root: u8,
    toward: Way,
    drops: &[u8],
    side: Option<u8>,
    tip: u8,
) -> bool
    requires root { root < length points.now }
    requires drops { All (λ k. k < length points.now) drops.now }
    requires side { IfSome side (λ k. k < length points.now) }
    requires tip { tip < length points.now }
    ensures { IsTrue result ↔ IsLongShape points.now root toward drops.now side tip }
{
    goes_forward(points, root, toward, drops, tip)
        && lie_in_turn(points, root, toward, drops, tip)
        && match side {
            None => true,
            Some(side) => is_on_short_leg(points, root, toward, tip, side),
        }
}

/// Whether the drops and the tip lie ahead of the root, each further than the one before it.
pub fn goes_forward(points: &[Point], root: u8, toward: Way, drops: &[u8], tip: u8) -> bool
    requires root { root < length points.now }
    requires drops { All (λ k. k < length points.now) drops.now }
    requires tip { tip < length points.now }
    ensures { IsTrue result
        ↔ RisesFrom (pos 0) (map (along_of points.now root toward) (drops.now ++ tip ∷ [])) }
{
    let mut before = point_at(points, root);
    for drop in drops {
        let point = point_at(points, *drop);
        if along_order(toward, before, point).is_ge() {
            return false;
        }
        before = point;
    }
    along_order(toward, before, point_at(points, tip)).is_lt()
}

/// Whether the drops lie beside the long leg, on its two sides in turn, and the last one across from the
/// tip where there is a short leg.
pub fn lie_in_turn(points: &[Point], root: u8, toward: Way, drops: &[u8], tip: u8) -> bool
    requires root { root < length points.now }
    requires drops { All (λ k. k < length points.now) drops.now }
    requires tip { tip < length points.now }
    ensures { IsTrue result ↔ LieInTurn points.now root toward drops.now tip }
{
    let start = point_at(points, root);
    let mut before = Ordering::Equal;
    for drop in drops {
        let turn = across_order(toward, point_at(points, *drop), start);
        if turn.is_eq() || turn == before {
            return false;
        }
        before = turn;
    }
    let turn = across_order(toward, point_at(points, tip), start);
    turn.is_eq() || turn != before
}

/// Whether a side hangs on the short leg to the tip.
pub fn is_on_short_leg(points: &[Point], root: u8, toward: Way, tip: u8, side: u8) -> bool
    requires root { root < length points.now }
    requires tip { tip < length points.now }
    requires side { side < length points.now }
    ensures { IsTrue result ↔ IsOnShortLeg points.now root toward tip side }
{
    let tip = point_at(points, tip);
    let side = point_at(points, side);
    if along_order(toward, side, tip).is_eq() {
        return false;
    }
    let turn = across_order(toward, side, point_at(points, root));
    turn.is_ne() && across_order(toward, tip, side) == turn
}

// Whether the lines from west to east and from south to north cross between their ends.
fn is_cross(west: Point, south: Point, east: Point, north: Point) -> bool
    ensures { IsTrue result ↔ IsCrossShape west south east north }
{
    if !are_level(west, east) || !are_upright(south, north) {
        return false;
    }
    go_right(west, south, east) && go_up(south, west, north)
}

/// Whether two points lie on a horizontal line.
pub fn are_level(p: Point, q: Point) -> bool
    ensures { IsTrue result ↔ (p.y ≡ q.y) }
{
    p.y == q.y
}

// Whether two points lie on a vertical line.
fn are_upright(p: Point, q: Point) -> bool
    ensures { IsTrue result ↔ (p.x ≡ q.x) }
{
    p.x == q.x
}

/// Whether each of three points lies to the right of the one before it.
pub fn go_right(p: Point, q: Point, r: Point) -> bool
    ensures { IsTrue result ↔ ((p.x <ℤ q.x) × (q.x <ℤ r.x)) }
{
    p.x < q.x && q.x < r.x
}

// Whether each of three points lies above the one before it.
fn go_up(p: Point, q: Point, r: Point) -> bool
    ensures { IsTrue result ↔ ((p.y <ℤ q.y) × (q.y <ℤ r.y)) }
{
    p.y < q.y && q.y < r.y
}
