//! The tool `check`: the points of a file and an answer come in, the verdict on the answer goes out.

ghost use Rattle.std.specs.Prelude.{◌≡◌};
ghost use Rattle.tool_frame.specs.Outside.{readable, outside};
ghost use Rattle.tool_frame.specs.Leaves.{LeavesFiles};
ghost use Rattle.tool_frame.specs.Stops.{FindsDue, OnStarved};
ghost use Rattle.verdict_line.specs.Verdicts.{line_text, line_status};
ghost use Rattle.judge_tools.specs.Check.{Checks, EndsCheck};

use crate::judge::{CheckFault, judge};
use rst_outside::{Shelf, Sink, Source};
use std::alloc::Global;
use tool_frame::{Stop, end_found};
use verdict_line::{Counting, VerdictLine};

/// Runs `check`: reads the points of a file, then judges an answer as it comes from the input, and prints the line of
/// the verdict. Gives the status that the program ends with. Memory is taken before the input is touched alone.
pub fn check<I: Source, O: Sink, R: Sink, S: Shelf>(
    alloc: Global,
    points_name: &str,
    input: &mut I,
    out: &mut O,
    err: &mut R,
    shelf: &mut S,
) -> u8
    ensures { EndsCheck points_name.now
        (outside (I.state input.old) (O.state out.old) (R.state err.old) (S.state shelf.old))
        (outside (I.state input.new) (O.state out.new) (R.state err.new) (S.state shelf.new)) result }
{
    let found = verdict_on(alloc, points_name, input, shelf);
    end_found(out, err, b"check", found)
}

// The line of the verdict on the input as an answer for the points of a file. Memory is wanting before the input is
// touched alone.
fn verdict_on<I: Source, S: Shelf>(
    alloc: Global,
    points_name: &str,
    input: &mut I,
    shelf: &mut S,
) -> Result<VerdictLine, Stop<CheckFault>>
    ensures finds { FindsDue line_text line_status (Checks points_name.now
        (readable (I.state input.old) (S.state shelf.old)) (readable (I.state input.new) (S.state shelf.new))) result }
    ensures unread { OnStarved result (I.state input.new ≡ I.state input.old) }
    ensures leaves { LeavesFiles
        (readable (I.state input.old) (S.state shelf.old)) (readable (I.state input.new) (S.state shelf.new)) }
{
    let judgement = judge(alloc, points_name, input, shelf)?;
    Ok(VerdictLine {
        counting: Counting::FromZero,
        ruling: judgement.judged.ruling,
    })
}
