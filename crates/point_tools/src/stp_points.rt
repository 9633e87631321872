//! The tool `stp2points`: an STP file comes in, the points of its terminals go out.

ghost use Rattle.rst_outside.specs.Shelf.{ShelfState};
ghost use Rattle.stp_format.specs.Reading.{Gives};
ghost use Rattle.tool_frame.specs.Outside.{outside};
ghost use Rattle.tool_frame.specs.Stops.{IfFound};
ghost use Rattle.point_tools.specs.StpPoints.{stp_points_of, LocatesPoints, PrintsLocated, LocatedHasNoFault, EndsStp2points};

use crate::distinct_list::DistinctList;
use points_in::Points;
use rst_outside::{Sink, Source};
use std::alloc::Global;
use stp_format::{StpFault, points_of, read_stp};
use tool_frame::{Stop, TextTool, faults_apart, run_on_text};

/// Runs `stp2points`: reads an STP file from the input and prints the distinct points of its terminals, one a line, in
/// the order of the terminals. Gives the status that the program ends with.
pub fn stp2points<I: Source, O: Sink, R: Sink>(
    alloc: Global,
    input: &mut I,
    out: &mut O,
    err: &mut R,
) -> u8
    ensures { (shelf : ShelfState) → EndsStp2points
        (outside (I.state input.old) (O.state out.old) (R.state err.old) shelf)
        (outside (I.state input.new) (O.state out.new) (R.state err.new) shelf) result }
{
    run_on_text(alloc, b"stp2points", &StpPoints, input, out, err)
}

/// Bytes that give points have no fault.
pub fn located_has_no_fault()
    ensures { LocatedHasNoFault }
{}

// The points of the terminals of the file that a text is.
struct StpPoints;

impl TextTool for StpPoints {
    type Found = DistinctList;

    type Wrong = StpFault;

    ghost prints = { λ _. PrintsLocated };

    fn find(&self, alloc: Global, bytes: &[u8]) -> Result<DistinctList, Stop<StpFault>> {
        let points = located(alloc, bytes)?;
        Ok(DistinctList { points })
    }
}

// The points of a text; or why there are none.
fn located(alloc: Global, bytes: &[u8]) -> Result<Points, Stop<StpFault>>
    ensures { IfFound result (LocatesPoints bytes.now) }
{
    faults_apart(read_located(alloc, bytes))
}

// The points of a text, or the first fault.
fn read_located(alloc: Global, bytes: &[u8]) -> Result<Points, StpFault>
    ensures { Gives (λ points. points) result (stp_points_of bytes.now) }
{
    let file = read_stp(alloc, bytes)?;
    points_of(alloc, &file)
}
