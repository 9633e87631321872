//! The tool `plot`: the points of a file and an answer come in, a plot of the network goes out where the answer is
//! accepted.

ghost use Rattle.std.specs.Prelude.{◌≡◌};
ghost use Rattle.std.specs.Result.{ForOk};
ghost use Rattle.tool_frame.specs.declared.status.AnswerStatus.TheVariants.{Done};
ghost use Rattle.tool_frame.specs.Outside.{readable, outside};
ghost use Rattle.tool_frame.specs.Leaves.{LeavesFiles};
ghost use Rattle.tool_frame.specs.Stops.{FindsDue, OnStarved};
ghost use Rattle.judge_tools.specs.Pictures.{HasEdges, picture_text};
ghost use Rattle.judge_tools.specs.Plot.{Plots, EndsPlot, plot_fault_text, plot_fault_status};

use crate::judge::{CheckFault, judge};
use crate::picture::Picture;
use cert_check::{Cause, Ruling};
use rst_outside::{Shelf, Sink, Source};
use std::alloc::Global;
use text_out::Block;
use tool_frame::{Fault, FaultStatus, Stop, end_found, within};
use verdict_line::write_refusal;

/// Why `plot` refuses.
#[derive(Clone, Copy)]
pub enum PlotFault {
    /// The answer isn't judged.
    Unjudged(CheckFault),
    /// It is refused.
    Refused(Cause),
}

impl Fault for PlotFault {
    ghost text = { plot_fault_text };

    ghost status = { plot_fault_status };

    fn status(&self) -> FaultStatus {
        match self {
            PlotFault::Unjudged(fault) => fault.status(),
            PlotFault::Refused(_) => FaultStatus::Malformed,
        }
    }

    fn write<R: Sink>(&self, block: &mut Block, err: &mut R) {
        match self {
            PlotFault::Unjudged(fault) => fault.write(block, err),
            PlotFault::Refused(cause) => write_refusal(block, err, *cause),
        }
    }
}

/// Runs `plot`: reads the points of a file, then judges an answer as it comes from the input, and prints a plot of its
/// network where it is accepted. Gives the status that the program ends with. Memory is taken before the input is
/// touched alone.
pub fn plot<I: Source, O: Sink, R: Sink, S: Shelf>(
    alloc: Global,
    points_name: &str,
    input: &mut I,
    out: &mut O,
    err: &mut R,
    shelf: &mut S,
) -> u8
    ensures { EndsPlot points_name.now
        (outside (I.state input.old) (O.state out.old) (R.state err.old) (S.state shelf.old))
        (outside (I.state input.new) (O.state out.new) (R.state err.new) (S.state shelf.new)) result }
{
    let found = picture_of(alloc, points_name, input, shelf);
    end_found(out, err, b"plot", found)
}

// The picture of the network of the input, where it is accepted as an answer for the points of a file. Memory is
// wanting before the input is touched alone.
fn picture_of<I: Source, S: Shelf>(
    alloc: Global,
    points_name: &str,
    input: &mut I,
    shelf: &mut S,
) -> Result<Picture, Stop<PlotFault>>
    ensures fits { ForOk result HasEdges }
    ensures finds { FindsDue picture_text (λ _. Done) (Plots points_name.now
        (readable (I.state input.old) (S.state shelf.old)) (readable (I.state input.new) (S.state shelf.new))) result }
    ensures unread { OnStarved result (I.state input.new ≡ I.state input.old) }
    ensures leaves { LeavesFiles
        (readable (I.state input.old) (S.state shelf.old)) (readable (I.state input.new) (S.state shelf.new)) }
{
    let judgement = within(judge(alloc, points_name, input, shelf), PlotFault::Unjudged)?;
    match judgement.judged.ruling {
        Ruling::Accepted { .. } => Ok(Picture {
            grid: judgement.grid,
            network: judgement.judged.network,
        }),
        Ruling::Refused(cause) => Err(Stop::Fault(PlotFault::Refused(cause))),
    }
}
