//! Which segments a box blocks.

ghost use Rattle.std.specs.Prelude.{◌≡◌};
ghost use Rattle.std.specs.List.{list_any};
ghost use Rattle.std.specs.Ordering.{int_eq};
ghost use Rattle.obstacle_grid.specs.Blocked.{is_blocked_by as is_blocked_of, blocks_level as blocks_level_of};
ghost use Rattle.obstacle_grid.specs.Blocked.{blocks_upright as blocks_upright_of, is_amid, overlap as overlap_of};

use obstacles_in::Rectangle;
use points_in::Point;

/// Whether one of the boxes blocks the segment along an axis from a point to a later one.
pub(crate) fn is_blocked_by_any(boxes: &[Rectangle], from: Point, to: Point) -> bool
    ensures { result ≡ list_any (λ b. is_blocked_of b from to) boxes.now }
{
    boxes.iter().any(|b| is_blocked_by(*b, from, to))
}

// Whether the box blocks the segment along an axis from a point to a later one: whether the segment crosses its
// interior. A segment along a side does not.
fn is_blocked_by(b: Rectangle, from: Point, to: Point) -> bool
    ensures { result ≡ is_blocked_of b from to }
{
    if is_level(from, to) {
        blocks_level(b, from, to)
    } else {
        blocks_upright(b, from, to)
    }
}

// Whether the segment between the points is horizontal.
fn is_level(from: Point, to: Point) -> bool
    ensures { result ≡ int_eq from.y to.y }
{
    from.y == to.y
}

// Whether the box blocks the horizontal segment.
fn blocks_level(b: Rectangle, from: Point, to: Point) -> bool
    ensures { result ≡ blocks_level_of b from to }
{
    is_within_height(b, from) && overlaps_width(b, from, to)
}

// Whether the box blocks the vertical segment.
fn blocks_upright(b: Rectangle, from: Point, to: Point) -> bool
    ensures { result ≡ blocks_upright_of b from to }
{
    is_within_width(b, from) && overlaps_height(b, from, to)
}

// Whether the point is above the box's lower side and below its upper one.
fn is_within_height(b: Rectangle, point: Point) -> bool
    ensures { result ≡ is_amid b.y1 b.y2 point.y }
{
    b.y1 < point.y && point.y < b.y2
}

// Whether the point is to the right of the box's left side and to the left of its right one.
fn is_within_width(b: Rectangle, point: Point) -> bool
    ensures { result ≡ is_amid b.x1 b.x2 point.x }
{
    b.x1 < point.x && point.x < b.x2
}

// Whether what is between the x of two points and what is between the box's left and right side overlap.
fn overlaps_width(b: Rectangle, from: Point, to: Point) -> bool
    ensures { result ≡ overlap_of from.x to.x b.x1 b.x2 }
{
    overlap(from.x, to.x, b.x1, b.x2)
}

// Whether what is between the y of two points and what is between the box's lower and upper side overlap.
fn overlaps_height(b: Rectangle, from: Point, to: Point) -> bool
    ensures { result ≡ overlap_of from.y to.y b.y1 b.y2 }
{
    overlap(from.y, to.y, b.y1, b.y2)
}

// Whether two stretches of a line have more than a point in common.
fn overlap(low: i64, high: i64, other_low: i64, other_high: i64) -> bool
    ensures { result ≡ overlap_of low high other_low other_high }
{
    low.max(other_low) < high.min(other_high)
}
