//! Which full trees pass.

ghost use Rattle.std.specs.Prelude.{◌≡◌, ◌<◌, ◌≤◌, ◌+◌, length, All, Contains, IsTrue, ◌↔◌};
ghost use Rattle.full_tree.specs.Code.{named_places, HasFewMembers};
ghost use Rattle.full_tree.specs.Form.{IsInForm};
ghost use Rattle.full_tree.specs.Geometry.{point_at};
ghost use Rattle.full_tree.specs.Pieces.{pieces_of};
ghost use Rattle.full_tree.specs.Stations.{stations_of};
ghost use Rattle.full_tree.specs.Passing.{
  LiesOn,
  IsBetween,
  IsEndOf,
  IsClearOf,
  IsClear,
  KeepsUpTo,
  KeepsBottlenecks,
  Passes,
};

use crate::code::TreeCode;
use crate::form::in_form;
use crate::membership::named;
use crate::pieces::{piece, piece_count};
use crate::spine::stations;
use crate::station::Station;
use crate::straight::Piece;
use hanan_grid::Grid;
use points_in::{Point, Points};
use spanning::Table;

/// Whether a code passes: it is in form; each terminal that lies on a piece is a member and one of that
/// piece's two ends; and for each two members, each stretch on the tree path between them is at most
/// their bottleneck. The stretches are the pieces, but the two that meet at the corner are one.
pub fn passes(grid: &Grid, table: &Table, code: &TreeCode) -> bool
    requires { table.now ≡ grid.now }
    ensures { IsTrue result ↔ Passes grid.now code.now }
{
    if !in_form(grid, code) {
        return false;
    }
    if !keeps_bottlenecks(table, stations(grid, code).as_slice()) {
        return false;
    }
    has_clear_pieces(grid, code)
}

// Whether each terminal on a piece of a code is one of its members, and one of that piece's two ends.
fn has_clear_pieces(grid: &Grid, code: &TreeCode) -> bool
    requires { IsInForm grid.now code.now }
    ensures { IsTrue result
        ↔ All (IsClear grid.now (named_places code.now)) (pieces_of grid.now code.now) }
{
    for n in 0..piece_count(grid, code) {
        if !is_clear(grid.points(), code, &piece(grid, code, n)) {
            return false;
        }
    }
    true
}

// Whether each two stations keep their bottleneck.
fn keeps_bottlenecks(table: &Table, stations: &[Station]) -> bool
    requires members { All (λ s. s.member < length table.now) stations.now }
    requires few { length stations.now ≤ 8 }
    ensures { IsTrue result ↔ KeepsBottlenecks table.now stations.now }
{
    for last in 0..stations.len() {
        if !keeps_up_to(table, stations, last) {
            return false;
        }
    }
    true
}

/// Whether a station and each one before it keep their bottleneck.
pub fn keeps_up_to(table: &Table, stations: &[Station], last: usize) -> bool
    requires members { All (λ s. s.member < length table.now) stations.now }
    requires last { last < length stations.now }
    ensures { IsTrue result ↔ KeepsUpTo table.now stations.now last }
{
    let end = stations[last];
    let mut greatest = end.leg;
    let mut first = last;
    while first > 0 {
        greatest = greatest.max(stations[first].before);
        first -= 1;
        let start = stations[first];
        let most = table.between(usize::from(start.member), usize::from(end.member));
        if greatest.max(start.leg) > u128::from(most) {
            return false;
        }
    }
    true
}

// Whether a point lies on a straight piece, its ends included.
fn lies_on(piece: &Piece, p: Point) -> bool
    ensures { IsTrue result ↔ LiesOn piece.now p }
{
    is_in_width(piece.from, piece.to, p) && is_in_height(piece.from, piece.to, p)
}

// Whether a point's x lies between those of two others or is one of them.
fn is_in_width(from: Point, to: Point, p: Point) -> bool
    ensures { IsTrue result ↔ IsBetween from.x to.x p.x }
{
    (from.x <= p.x && p.x <= to.x) || (to.x <= p.x && p.x <= from.x)
}

// Whether a point's y lies between those of two others or is one of them.
fn is_in_height(from: Point, to: Point, p: Point) -> bool
    ensures { IsTrue result ↔ IsBetween from.y to.y p.y }
{
    (from.y <= p.y && p.y <= to.y) || (to.y <= p.y && p.y <= from.y)
}

// Whether each terminal on a piece of a code is one of its members, and one of the piece's two ends.
fn is_clear(points: &Points, code: &TreeCode, piece: &Piece) -> bool
    requires { length (named_places code.now) ≤ 8 }
    ensures { IsTrue result ↔ IsClear points.now (named_places code.now) piece.now }
{
    for k in 0..points.len() {
        if !is_clear_of(points, code, piece, k) {
            return false;
        }
    }
    true
}

// Whether a terminal doesn't lie on a piece, or is a member and one of the piece's two ends.
fn is_clear_of(points: &Points, code: &TreeCode, piece: &Piece, k: usize) -> bool
    requires few { length (named_places code.now) ≤ 8 }
    requires terminal { k < length points.now }
    ensures { IsTrue result ↔ IsClearOf points.now (named_places code.now) piece.now k }
{
    let p = terminal_at(points, k);
    if !lies_on(piece, p) {
        return true;
    }
    if !is_end_of(piece, p) {
        return false;
    }
    names(code, k)
}

// The terminal at a place.
fn terminal_at(points: &Points, k: usize) -> Point
    requires { k < length points.now }
    ensures { result ≡ point_at points.now k }
{
    points.as_slice()[k]
}

// Whether a point is one of the two ends of a piece.
fn is_end_of(piece: &Piece, p: Point) -> bool
    ensures { IsTrue result ↔ IsEndOf piece.now p }
{
    is_same(p, piece.from) || is_same(p, piece.to)
}

// Whether two points are one.
fn is_same(p: Point, q: Point) -> bool
    ensures { IsTrue result ↔ (p ≡ q) }
{
    p == q
}

// Whether a code names a place.
fn names(code: &TreeCode, k: usize) -> bool
    requires { length (named_places code.now) ≤ 8 }
    ensures { IsTrue result ↔ Contains (named_places code.now) k }
{
    named(code)
        .as_slice()
        .iter()
        .any(|place| usize::from(*place) == k)
}
