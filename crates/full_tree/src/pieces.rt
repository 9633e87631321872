//! The straight pieces of a tree, and its length.

ghost use Rattle.std.specs.Prelude.{ℕ, ◌≡◌, ◌+◌, ◌<◌, ◌≤◌, ◌^◌, ◌∷◌, [], ◌++◌, length, map, All, slice_get};
ghost use Rattle.std.specs.Prelude.{slice_index_or, Some, IfSome, option_to_list};
ghost use Rattle.net_graph.specs.Graph.{total_of};
ghost use Rattle.hanan_grid.specs.Grid.{hanan_grid_of};
ghost use Rattle.hanan_grid.specs.Distance.{origin};
ghost use Rattle.full_tree.specs.Geometry.{point_at};
ghost use Rattle.full_tree.specs.Form.{IsInForm};
ghost use Rattle.full_tree.specs.Code.{named_places};
ghost use Rattle.full_tree.specs.Pieces.{foot, side_foot, long_leg, short_leg, drop_pieces, side_piece, crossing_of};
ghost use Rattle.full_tree.specs.Pieces.{pieces_of, length_of_piece, code_length};
ghost use Rattle.full_tree.specs.Joined.{IsStraight, IsOnGrid, JoinsMembers};

use crate::code::TreeCode;
use crate::see::{across_order, meeting_point, point_at};
use crate::straight::Piece;
use crate::way::Way;
use hanan_grid::Grid;
use points_in::Point;

/// How many pieces a tree in form has. They join its members.
pub fn piece_count(grid: &Grid, code: &TreeCode) -> usize
    requires { IsInForm grid.now code.now }
    ensures count { result ≡ length (pieces_of grid.now code.now) }
    ensures joins { JoinsMembers grid.now code.now }
{
    count_pieces(grid.points().as_slice(), code)
}

/// The nth piece of a tree in form, counted from 0. In a long code the pieces of the long leg come first,
/// from the root over the feet of the drops to the corner, then those of the short leg, then each drop
/// from its foot, then the side from its foot. In a cross they go from the crossing to west, south, east
/// and north.
pub fn piece(grid: &Grid, code: &TreeCode, n: usize) -> Piece
    requires form { IsInForm grid.now code.now }
    requires within { n < length (pieces_of grid.now code.now) }
    ensures piece { slice_get (pieces_of grid.now code.now) n ≡ Some result }
    ensures straight { IsStraight result }
    ensures on_grid { IsOnGrid grid.now result }
{
    nth_piece(grid.points().as_slice(), code, n)
}

/// The length of a tree in form: the sum of the lengths of its pieces. It is at most the grid's total.
pub fn tree_length(grid: &Grid, code: &TreeCode) -> u64
    requires { IsInForm grid.now code.now }
    ensures length { result ≡ code_length grid.now code.now }
    ensures within { result ≤ total_of (hanan_grid_of grid.now) }
    ensures fits { result < 2 ^ 63 }
{
    // No piece is longer than the grid's edges together, so that no sum wraps.
    prove!(grid.graph().total() < 1 << 63);
    let mut length = 0;
    for n in 0..piece_count(grid, code) {
        length += piece_length(piece(grid, code, n));
    }
    length
}

// How many pieces a code has.
fn count_pieces(points: &[Point], code: &TreeCode) -> usize
    requires { All (λ k. k < length points.now) (named_places code.now) }
    ensures { result ≡ length (pieces_of points.now code.now) }
{
    match code {
        TreeCode::Long {
            root,
            toward,
            drops,
            side,
            tip,
        } => {
            let short = short_leg_count(points, *root, *toward, *side, *tip);
            2 * drops.len() + 1 + short + usize::from(side.is_some())
        }
        TreeCode::Cross { .. } => 4,
    }
}

// The nth piece of a code.
fn nth_piece(points: &[Point], code: &TreeCode, n: usize) -> Piece
    requires terminals { All (λ k. k < length points.now) (named_places code.now) }
    requires within { n < length (pieces_of points.now code.now) }
    ensures { slice_get (pieces_of points.now code.now) n ≡ Some result }
{
    match code {
        TreeCode::Long {
            root,
            toward,
            drops,
            side,
            tip,
        } => long_piece(points, *root, *toward, drops.as_slice(), *side, *tip, n),
        TreeCode::Cross {
            west,
            south,
            east,
            north,
        } => {
            let places = [*west, *south, *east, *north];
            cross_piece(points, *west, *south, places[n])
        }
    }
}

// How long a piece is.
fn piece_length(piece: Piece) -> u64
    requires { length_of_piece piece < 2 ^ 64 }
    ensures { result ≡ length_of_piece piece }
{
    piece.from.x.abs_diff(piece.to.x) + piece.from.y.abs_diff(piece.to.y)
}

// The piece of a cross that leads to a terminal.
fn cross_piece(points: &[Point], west: u8, south: u8, to: u8) -> Piece
    requires west { west < length points.now }
    requires south { south < length points.now }
    requires to { to < length points.now }
    ensures from { result.from ≡ crossing_of points.now west south }
    ensures to { result.to ≡ point_at points.now to }
{
    let from = Point {
        x: point_at(points, south).x,
        y: point_at(points, west).y,
    };
    Piece {
        from,
        to: point_at(points, to),
    }
}

// The nth piece of a long code.
fn long_piece(
    points: &[Point],
    root: u8,
    toward: Way,
    drops: &[u8],
    side: Option<u8>,
    tip: u8,
    n: usize,
) -> Piece
    requires root { root < length points.now }
    requires drops { All (λ k. k < length points.now) drops.now }
    requires side { IfSome side (λ k. k < length points.now) }
    requires tip { tip < length points.now }
    requires within { n < length (pieces_of points.now (TreeCode.Long root toward drops.now side tip)) }
    ensures { slice_get (pieces_of points.now (TreeCode.Long root toward drops.now side tip)) n
        ≡ Some result }
{
    let long = drops.len() + 1;
    if n < long {
        return long_leg_piece(points, root, toward, drops, tip, n);
    }
    let legs = long + short_leg_count(points, root, toward, side, tip);
    if n < legs {
        return short_leg_piece(points, root, toward, side, tip, n - long);
    }
    if n - legs < drops.len() {
        return drop_piece(points, root, toward, drops[n - legs]);
    }
    match side {
        Some(side) => side_piece(points, root, toward, tip, side),
        None => unreachable!(),
    }
}

// The nth piece of the long leg.
fn long_leg_piece(points: &[Point], root: u8, toward: Way, drops: &[u8], tip: u8, n: usize) -> Piece
    requires root { root < length points.now }
    requires drops { All (λ k. k < length points.now) drops.now }
    requires tip { tip < length points.now }
    requires within { n ≤ length drops.now }
    ensures { slice_get (long_leg points.now root toward drops.now tip) n ≡ Some result }
{
    Piece {
        from: long_leg_stop(points, root, toward, drops, tip, n),
        to: long_leg_stop(points, root, toward, drops, tip, n + 1),
    }
}

// The nth point at which the long leg is cut, where the root counts as the first.
fn long_leg_stop(points: &[Point], root: u8, toward: Way, drops: &[u8], tip: u8, n: usize) -> Point
    requires root { root < length points.now }
    requires drops { All (λ k. k < length points.now) drops.now }
    requires tip { tip < length points.now }
    requires within { n ≤ length drops.now + 1 }
    ensures { result ≡ slice_index_or (point_at points.now root
        ∷ map (foot points.now root toward) drops.now ++ foot points.now root toward tip ∷ []) n origin }
{
    if n == 0 {
        point_at(points, root)
    } else if n <= drops.len() {
        foot(points, root, toward, drops[n - 1])
    } else {
        foot(points, root, toward, tip)
    }
}

// How many pieces the short leg has: none where the tip lies straight ahead.
fn short_leg_count(points: &[Point], root: u8, toward: Way, side: Option<u8>, tip: u8) -> usize
    requires root { root < length points.now }
    requires tip { tip < length points.now }
    ensures count { result ≡ length (short_leg points.now root toward side tip) }
    ensures few { result ≤ 2 }
{
    if across_order(toward, point_at(points, tip), point_at(points, root)).is_eq() {
        return 0;
    }
    1 + usize::from(side.is_some())
}

// The nth piece of the short leg.
fn short_leg_piece(
    points: &[Point],
    root: u8,
    toward: Way,
    side: Option<u8>,
    tip: u8,
    n: usize,
) -> Piece
    requires root { root < length points.now }
    requires side { IfSome side (λ k. k < length points.now) }
    requires tip { tip < length points.now }
    requires within { n < length (short_leg points.now root toward side tip) }
    ensures { slice_get (short_leg points.now root toward side tip) n ≡ Some result }
{
    let corner = foot(points, root, toward, tip);
    let end = point_at(points, tip);
    match side {
        None => Piece {
            from: corner,
            to: end,
        },
        Some(side) => {
            let cut = side_foot(points, root, toward, tip, side);
            if n == 0 {
                Piece {
                    from: corner,
                    to: cut,
                }
            } else {
                Piece { from: cut, to: end }
            }
        }
    }
}

// The piece of a drop.
fn drop_piece(points: &[Point], root: u8, toward: Way, place: u8) -> Piece
    requires root { root < length points.now }
    requires place { place < length points.now }
    ensures from { result.from ≡ foot points.now root toward place }
    ensures to { result.to ≡ point_at points.now place }
{
    Piece {
        from: foot(points, root, toward, place),
        to: point_at(points, place),
    }
}

// The piece of the side.
fn side_piece(points: &[Point], root: u8, toward: Way, tip: u8, side: u8) -> Piece
    requires root { root < length points.now }
    requires tip { tip < length points.now }
    requires side { side < length points.now }
    ensures from { result.from ≡ side_foot points.now root toward tip side }
    ensures to { result.to ≡ point_at points.now side }
{
    Piece {
        from: side_foot(points, root, toward, tip, side),
        to: point_at(points, side),
    }
}

/// The point of the long leg beside a terminal.
pub fn foot(points: &[Point], root: u8, toward: Way, place: u8) -> Point
    requires root { root < length points.now }
    requires place { place < length points.now }
    ensures { result ≡ foot points.now root toward place }
{
    meeting_point(toward, point_at(points, place), point_at(points, root))
}

/// The point of the short leg to the tip beside a terminal.
pub fn side_foot(points: &[Point], root: u8, toward: Way, tip: u8, place: u8) -> Point
    requires root { root < length points.now }
    requires tip { tip < length points.now }
    requires place { place < length points.now }
    ensures { result ≡ side_foot points.now root toward tip place }
{
    meeting_point(toward, point_at(points, tip), point_at(points, place))
}
