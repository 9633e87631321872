//! Drawn points without repeats.

ghost use Rattle.std.specs.Prelude.{◌≡◌, IfOk};
ghost use Rattle.points_in.specs.Terminals.{terminals_of};

use crate::drawn::Drawn;
use points_in::{AddFault, Points};
use std::alloc::{AllocError, Global};

/// The distinct ones of drawn points, in order of first appearance. An `Err` is want of memory.
pub fn distinct_points(alloc: Global, drawn: &Drawn) -> Result<Points, AllocError>
    ensures { IfOk result (λ points. points ≡ terminals_of drawn.now) }
{
    let drawn = drawn.as_slice();
    let mut points = Points::begin(alloc, drawn[0])?;
    for point in &drawn[1..] {
        match points.add(*point) {
            Ok(_) => {}
            Err(AddFault::Memory(error)) => return Err(error),
            Err(AddFault::Full) => unreachable!(),
        }
    }
    Ok(points)
}
