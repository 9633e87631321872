//! What is told of lists of points.

use crate::grid::described::point;
use points_in::{Added, PointFault, Points, read_points};
use row_tables::{Call, Fault, Told};
use std::alloc::Global;

/// The fault of the points under `points`; or, for each point under `add`, whether it is new, and then all points.
pub fn points(alloc: Global, call: &Call, told: &mut Told) -> Result<(), Fault> {
    match read_points(alloc, call.bytes("points")?) {
        Ok(mut points) => return added(&mut points, call.text("add")?, told),
        Err(PointFault::Memory(_)) => return Err(Fault::Memory),
        Err(fault) => told.line("", &fault),
    }
    Ok(())
}

// For each point of the lines whether it is new, and then all points.
fn added(points: &mut Points, lines: &str, told: &mut Told) -> Result<(), Fault> {
    for line in lines.lines() {
        match points.add(point(line)?) {
            Ok(Added::New) => told.word("new\n"),
            Ok(Added::Repeat) => told.word("repeat\n"),
            Err(fault) => told.line("", &fault),
        }
    }
    list(&points.copy()?, told);
    Ok(())
}

// Tells all points.
fn list(points: &Points, told: &mut Told) {
    for place in 0..points.len() {
        let point = points.get(place);
        told.show(&point.x);
        told.line(" ", &point.y);
    }
}
