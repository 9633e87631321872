//! The lines of a grid: the distinct coordinates of points, in ascending order.

ghost use Rattle.std.specs.Prelude.{◌≡◌, ◌+◌, ◌<◌, ◌≤◌, length, Contains, IfOk, IfSome, IfNone};
ghost use Rattle.hanan_grid.specs.Lines.{ascending, gap_after, line_at, place_of};
ghost use Rattle.hanan_grid.specs.LinesLaws.{IsRising};
ghost use Rattle.hanan_grid.specs.Grid.{xs_of, ys_of};

use points_in::Point;
use std::alloc::{AllocError, Global};

/// The vertical lines of points: their distinct x in ascending order (Hanan 1966). An `Err` is want of memory.
pub fn x_lines(alloc: Global, points: &[Point]) -> Result<Vec<i64>, AllocError>
    ensures { IfOk result (λ lines. lines.items ≡ xs_of points.now) }
{
    let mut values = Vec::with_capacity(alloc, points.len())?;
    for point in points {
        values.push_reserved(point.x);
    }
    Ok(lines_of(values))
}

/// The horizontal lines of points: their distinct y in ascending order (Hanan 1966). An `Err` is want of memory.
pub fn y_lines(alloc: Global, points: &[Point]) -> Result<Vec<i64>, AllocError>
    ensures { IfOk result (λ lines. lines.items ≡ ys_of points.now) }
{
    let mut values = Vec::with_capacity(alloc, points.len())?;
    for point in points {
        values.push_reserved(point.y);
    }
    Ok(lines_of(values))
}

// The distinct values in ascending order.
fn lines_of(mut values: Vec<i64>) -> Vec<i64>
    ensures { result.items ≡ ascending values.items }
{
    values.sort_unstable();
    values.dedup();
    values
}

/// How many of the lines are below a value.
pub fn place_in(lines: &[i64], value: i64) -> u32
    requires rising { IsRising lines.now }
    requires few { length lines.now ≤ 100 }
    ensures place { result ≡ place_of value lines.now }
    ensures within { result ≤ length lines.now }
{
    lines.partition_point(|line| *line < value) as u32
}

/// The place of a value among the lines, where it is one.
pub fn found_in(lines: &[i64], value: i64) -> Option<u32>
    requires rising { IsRising lines.now }
    requires few { length lines.now ≤ 100 }
    ensures place { IfSome result (λ place. place < length lines.now) }
    ensures line { IfSome result (λ place. line_at lines.now place ≡ value) }
    ensures none { IfNone result (¬ Contains lines.now value) }
{
    let place = place_in(lines, value);
    match lines.get(place as usize) {
        Some(line) if *line == value => Some(place),
        _ => None,
    }
}

/// The line at a place.
pub fn line(lines: &[i64], place: u32) -> i64
    requires { place < length lines.now }
    ensures { result ≡ line_at lines.now place }
{
    lines[place as usize]
}

/// How far it is from a line to the next one.
pub fn gap(lines: &[i64], place: usize) -> u64
    requires { place + 1 < length lines.now }
    ensures { result ≡ gap_after lines.now place }
{
    lines[place + 1].abs_diff(lines[place])
}
