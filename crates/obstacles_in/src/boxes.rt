//! The boxes of a text.

ghost use Rattle.std.specs.Prelude.{◌<ℤ◌, ◌↔◌, Any, IsTrue, IfSome, IfNone};
ghost use Rattle.std.specs.Bool.{OnTrue, OnFalse};
ghost use Rattle.section_text.specs.Faults.{SpellsItem, SpellsNoItem};
ghost use Rattle.obstacles_in.specs.Obstacles.{IsBox, IsInside};
ghost use Rattle.obstacles_in.specs.Faults.{HasCoordinates, IsClear, IsBoxFault};
ghost use Rattle.obstacles_in.specs.Format.{obstacles_format};

use crate::fault::ObstacleFault;
use crate::rectangle::Rectangle;
use points_in::{Point, Points};
use text_in::LineWords;

// The coordinates that the words spell, in whatever order they stand.
pub(crate) fn coordinates_in(words: &mut LineWords<'_>) -> Option<Rectangle>
    ensures found { IfSome result (SpellsItem obstacles_format words.old) }
    ensures none { IfNone result (SpellsNoItem obstacles_format words.old) }
{
    let x1 = words.next_signed()?;
    let y1 = words.next_signed()?;
    let x2 = words.next_signed()?;
    let y2 = words.next_signed()?;
    if words.is_empty() {
        Some(Rectangle { x1, y1, x2, y2 })
    } else {
        None
    }
}

// Whether a point lies strictly between the sides of a box.
fn is_inside(rectangle: Rectangle, point: Point) -> bool
    ensures { IsTrue result ↔ IsInside rectangle point }
{
    is_in_width(rectangle, point) && is_in_height(rectangle, point)
}

// Whether a point lies strictly between the left and the right side of a box.
fn is_in_width(rectangle: Rectangle, point: Point) -> bool
    ensures { IsTrue result ↔ ((rectangle.x1 <ℤ point.x) × (point.x <ℤ rectangle.x2)) }
{
    rectangle.x1 < point.x && point.x < rectangle.x2
}

// Whether a point lies strictly between the lower and the upper side of a box.
fn is_in_height(rectangle: Rectangle, point: Point) -> bool
    ensures { IsTrue result ↔ ((rectangle.y1 <ℤ point.y) × (point.y <ℤ rectangle.y2)) }
{
    rectangle.y1 < point.y && point.y < rectangle.y2
}

// Whether a point lies strictly inside a box.
fn has_inside(rectangle: Rectangle, points: &[Point]) -> bool
    ensures inside { OnTrue result (Any (IsInside rectangle) points.now) }
    ensures outside { OnFalse result (IsClear points.now rectangle) }
{
    points.iter().any(|point| is_inside(rectangle, *point))
}

// What is wrong with coordinates in a line behind these points.
pub(crate) fn box_fault(points: &Points, line: u64, rectangle: Rectangle) -> Option<ObstacleFault>
    requires { HasCoordinates rectangle }
    ensures fault { IfSome result (IsBoxFault points.now line rectangle) }
    ensures is_box { IfNone result (IsBox rectangle) }
    ensures clear { IfNone result (IsClear points.now rectangle) }
{
    if rectangle.x1 >= rectangle.x2 || rectangle.y1 >= rectangle.y2 {
        return Some(ObstacleFault::BadBox(line));
    }
    if has_inside(rectangle, points.as_slice()) {
        Some(ObstacleFault::PointInBox(line))
    } else {
        None
    }
}
