//! How many vertices the grid of points and boxes has.

ghost use Rattle.std.specs.Prelude.{◌≡◌, ◌≤◌, ◌++◌, length, IfOk, IfErr, OnOk};
ghost use Rattle.obstacles_in.specs.Obstacles.{corners_of, marks_of, crossing_count};
ghost use Rattle.obstacles_in.specs.Faults.{value_of, AreBoxesAround, IsTooLarge};
ghost use Rattle.obstacles_in.specs.Said.{IsMemory};

use crate::fault::ObstacleFault;
use crate::obstacles::Obstacles;
use crate::rectangle::Rectangle;
use hanan_grid::{x_lines, y_lines};
use lists::ItemList;
use points_in::{MAX_POINTS, Point, Points};
use std::alloc::{AllocError, Global};

// How many vertices the grid has at most.
const MAX_VERTICES: u32 = 2_500;

// The points, and two corners of each box, which tell its sides.
fn marks(alloc: Global, points: &[Point], boxes: &[Rectangle]) -> Result<Vec<Point>, AllocError>
    ensures { IfOk result (λ marks. marks.items ≡ marks_of (value_of points.now boxes.now)) }
{
    let mut marks = Vec::new(alloc);
    marks.extend_from_slice(points)?;
    for sides in boxes {
        add_corners(&mut marks, sides)?;
    }
    Ok(marks)
}

// Appends two corners of a box.
fn add_corners(marks: &mut Vec<Point>, sides: &Rectangle) -> Result<(), AllocError>
    ensures { OnOk result (marks.new.items ≡ marks.old.items ++ corners_of sides.now) }
{
    marks.push(Point {
        x: sides.x1,
        y: sides.y1,
    })?;
    marks.push(Point {
        x: sides.x2,
        y: sides.y2,
    })?;
    Ok(())
}

// In how many places the lines through the points and along the sides of the boxes cross.
fn crossings(alloc: Global, points: &[Point], boxes: &[Rectangle]) -> Result<u32, AllocError>
    requires few_points { length points.now ≤ 50 }
    requires few_boxes { length boxes.now ≤ 25 }
    ensures { IfOk result (λ count. count ≡ crossing_count (value_of points.now boxes.now)) }
{
    let marks = marks(alloc, points, boxes)?;
    let columns = x_lines(alloc, marks.as_slice())?;
    let rows = y_lines(alloc, marks.as_slice())?;
    Ok(columns.len() as u32 * rows.len() as u32)
}

// Points and boxes that were read whole, where their grid isn't too large.
pub(crate) fn sized(
    alloc: Global,
    points: Points,
    boxes: ItemList<Rectangle>,
) -> Result<Obstacles, ObstacleFault>
    requires few { length boxes ≤ 25 }
    requires boxes { AreBoxesAround points boxes }
    ensures value { IfOk result (λ obstacles. obstacles ≡ value_of points boxes) }
    ensures small { OnOk result (crossing_count (value_of points boxes) ≤ 2500) }
    ensures err { IfErr result (λ f. (IsMemory f → ⊥) → IsTooLarge points boxes f) }
{
    let count = points.len();
    prove!(count <= MAX_POINTS);
    let vertices = crossings(alloc, points.as_slice(), boxes.as_slice())?;
    if vertices > MAX_VERTICES {
        return Err(ObstacleFault::TooLarge { vertices });
    }
    Ok(Obstacles { points, boxes })
}
