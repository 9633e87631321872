//! The points of the terminals.

ghost use Rattle.std.specs.Prelude.{◌≡◌, [], ◌∷◌};
ghost use Rattle.stp_format.specs.Numbers.{or_fault};
ghost use Rattle.stp_format.specs.Value.{point_of_node};
ghost use Rattle.stp_format.specs.Reading.{Gives};
ghost use Rattle.stp_format.specs.Located.{with_point, with_nodes, terminal_points};

use crate::fault::{StpFault, StpSection};
use crate::file::StpFile;
use crate::node_points::NodePoints;
use points_in::{AddFault, Point, Points};
use std::alloc::Global;

// The point of a node.
fn point_at(located: &NodePoints, node: u32) -> Result<Point, StpFault>
    ensures { Gives (λ p. p) result (or_fault (StpFault.NoCoordinates node) (point_of_node located.now node)) }
{
    located.get(node).ok_or(StpFault::NoCoordinates(node))
}

// Adds the point of a node, where it is a new one.
fn add_point(points: &mut Points, node: u32, point: Point) -> Result<(), StpFault>
    ensures { Gives (λ _. points.new) result (with_point node points.old point) }
{
    match points.add(point) {
        Ok(_) => Ok(()),
        Err(AddFault::Full) => Err(StpFault::TooManyPoints(node)),
        Err(AddFault::Memory(error)) => Err(StpFault::Memory(error)),
    }
}

// The distinct points of nodes, of which there is one.
fn points_of_nodes(
    alloc: Global,
    located: &NodePoints,
    first: u32,
    others: &[u32],
) -> Result<Points, StpFault>
    ensures { Gives (λ points. points) result (with_nodes located.now [] (first ∷ others.now)) }
{
    let mut points = Points::begin(alloc, point_at(located, first)?)?;
    for node in others {
        let point = point_at(located, *node)?;
        add_point(&mut points, *node, point)?;
    }
    Ok(points)
}

/// The distinct points of a file's terminals, in the order of the terminals. It is refused where there is no
/// terminal, then where the file has no section for coordinates, and then at the first terminal that has no point,
/// or whose point is the 51st distinct one; or for want of memory.
pub fn points_of(alloc: Global, file: &StpFile) -> Result<Points, StpFault>
    ensures { Gives (λ points. points) result (terminal_points file.now) }
{
    let [first, others @ ..] = file.terminals() else {
        return Err(StpFault::NoTerminals);
    };
    match file.located() {
        Some(located) => points_of_nodes(alloc, located, *first, others),
        None => Err(StpFault::MissingSection(StpSection::Coordinates)),
    }
}
