//! The tool `points`: nothing comes in, drawn points go out.

ghost use Rattle.std.specs.Prelude.{◌<◌, ◌≤◌};
ghost use Rattle.rst_outside.specs.Source.{SourceState};
ghost use Rattle.rst_outside.specs.Shelf.{ShelfState};
ghost use Rattle.tool_frame.specs.declared.status.AnswerStatus.TheVariants.{Done};
ghost use Rattle.tool_frame.specs.Outside.{outside};
ghost use Rattle.tool_frame.specs.Stops.{FindsDue};
ghost use Rattle.point_tools.specs.DrawnList.{drawn_text};
ghost use Rattle.point_tools.specs.Points.{PrintsDrawn, EndsPoints};

use crate::drawn_list::DrawnList;
use drawn_points::draw_points;
use rst_outside::Sink;
use std::alloc::Global;
use tool_frame::{InputFault, Stop, end_found};

/// Runs `points`: prints the `n` points, 1 to 50, that are drawn from a seed, one a line and repeats among them.
/// Gives the status that the program ends with.
pub fn points<O: Sink, R: Sink>(alloc: Global, n: u8, seed: u64, out: &mut O, err: &mut R) -> u8
    requires some { 0 < n }
    requires few { n ≤ 50 }
    ensures { (input : SourceState) (shelf : ShelfState) → EndsPoints n seed
        (outside input (O.state out.old) (R.state err.old) shelf)
        (outside input (O.state out.new) (R.state err.new) shelf) result }
{
    let found = draw(alloc, n, seed);
    end_found(out, err, b"points", found)
}

// The drawn points. There is no fault, as nothing is read.
fn draw(alloc: Global, n: u8, seed: u64) -> Result<DrawnList, Stop<InputFault>>
    requires some { 0 < n }
    requires few { n ≤ 50 }
    ensures { FindsDue drawn_text (λ _. Done) (PrintsDrawn n seed) result }
{
    let drawn = draw_points(alloc, n, seed)?;
    Ok(DrawnList { drawn })
}
