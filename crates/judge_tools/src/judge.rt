//! The judge of the tools: the points of a file and an answer come in, what is found of the answer goes on to a tool.

ghost use Rattle.std.specs.Prelude.{◌≡◌};
ghost use Rattle.tool_frame.specs.Outside.{readable};
ghost use Rattle.tool_frame.specs.Leaves.{LeavesFiles};
ghost use Rattle.tool_frame.specs.Stops.{IfFound, OnStarved};
ghost use Rattle.judge_tools.specs.Judging.{FindsJudgement};
ghost use Rattle.judge_tools.specs.Check.{check_fault_text, check_fault_status};

use cert_check::Subject;
use hanan_grid::Grid;
use rst_outside::{Shelf, Sink, Source};
use std::alloc::Global;
use std::marker::Brand;
use text_out::Block;
use tool_frame::{
    Fault, FaultStatus, InputFault, PointsFault, Stop, TEXT_LIMIT, grid_in_file, within,
};
use verdict_line::{Judged, judge_input};

/// The greatest number of bytes of an answer that is judged.
pub const ANSWER_LIMIT: u64 = (1 << 32) - 1;

/// Why an answer isn't judged.
#[derive(Clone, Copy)]
pub enum CheckFault {
    /// The points' file gives no grid.
    Points(PointsFault),
    /// The answer isn't read to its end.
    Input(InputFault),
}

impl Fault for CheckFault {
    ghost text = { check_fault_text };

    ghost status = { check_fault_status };

    fn status(&self) -> FaultStatus {
        match self {
            CheckFault::Points(fault) => fault.status(),
            CheckFault::Input(fault) => fault.status(),
        }
    }

    fn write<R: Sink>(&self, block: &mut Block, err: &mut R) {
        match self {
            CheckFault::Points(fault) => fault.write(block, err),
            CheckFault::Input(fault) => fault.write(block, err),
        }
    }
}

/// What is found of an answer, and the grid that it is for.
#[derive(Drop)]
pub struct Judgement {
    pub grid: Grid,
    pub judged: Judged,
}

/// What is found of the input as an answer for the points of a file. Memory is taken, and may be wanting, before the
/// input is touched alone.
#[tactic(auto, using(crate::proofs::Verdict::found_judgement, crate::proofs::Verdict::found_fault))]
pub(crate) fn judge<I: Source, S: Shelf>(
    alloc: Global,
    points_name: &str,
    input: &mut I,
    shelf: &mut S,
) -> Result<Judgement, Stop<CheckFault>>
    ensures finds { IfFound result (FindsJudgement points_name.now
        (readable (I.state input.old) (S.state shelf.old)) (readable (I.state input.new) (S.state shelf.new))) }
    ensures unread { OnStarved result (I.state input.new ≡ I.state input.old) }
    ensures leaves { LeavesFiles
        (readable (I.state input.old) (S.state shelf.old)) (readable (I.state input.new) (S.state shelf.new)) }
{
    let grid = within(
        grid_in_file(alloc, shelf, points_name, TEXT_LIMIT),
        CheckFault::Points,
    )?;
    let terminals = grid.points().len();
    prove!(terminals <= 50);
    let judging = judge_input::<Brand, I>(alloc, Subject::OnGrid(&grid), input, ANSWER_LIMIT);
    let judged = within(judging, CheckFault::Input)?;
    Ok(Judgement { grid, judged })
}
