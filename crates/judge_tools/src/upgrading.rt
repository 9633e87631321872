//! The tool `upgrade`: the points of a file and an answer come in, the same answer goes out in version 2.

ghost use Rattle.tool_frame.specs.Outside.{readable, outside};
ghost use Rattle.tool_frame.specs.Leaves.{LeavesFiles};
ghost use Rattle.tool_frame.specs.Stops.{IfFound};
ghost use Rattle.judge_tools.specs.Upgrade.{EndsUpgrade, TakesAnswer, upgrade_fault_text, upgrade_fault_status};

use answer_upgrade::{Spelled, spelled, write_upgraded};
use cert_check::{Cause, upgrading_keeps_verdict};
use rst_outside::{Shelf, Sink, Source};
use std::alloc::Global;
use text_out::Block;
use tool_frame::{
    AnswerStatus, Fault, FaultStatus, InputFault, PointsFault, Stop, TEXT_LIMIT, end_refused,
    end_starved, end_written, grid_in_file, whole_input, within,
};
use verdict_line::write_refusal;

/// The greatest number of bytes of an answer that is upgraded.
pub const UPGRADE_LIMIT: u64 = 1 << 28;

/// Why `upgrade` refuses.
#[derive(Clone, Copy)]
pub enum UpgradeFault {
    /// The points' file gives no grid.
    Points(PointsFault),
    /// The answer isn't taken whole.
    Input(InputFault),
    /// In this line, counted from 1, the bytes cease to spell an answer.
    Misspelled { line: u64 },
}

impl Fault for UpgradeFault {
    ghost text = { upgrade_fault_text };

    ghost status = { upgrade_fault_status };

    fn status(&self) -> FaultStatus {
        match self {
            UpgradeFault::Points(fault) => fault.status(),
            UpgradeFault::Input(fault) => fault.status(),
            UpgradeFault::Misspelled { .. } => FaultStatus::Malformed,
        }
    }

    fn write<R: Sink>(&self, block: &mut Block, err: &mut R) {
        match self {
            UpgradeFault::Points(fault) => fault.write(block, err),
            UpgradeFault::Input(fault) => fault.write(block, err),
            UpgradeFault::Misspelled { line } => write_refusal(block, err, Cause::NotAnswer(*line)),
        }
    }
}

/// The bytes of an answer's text, for cuts that are sets of so many vertices.
#[derive(Drop)]
pub(crate) struct TakenAnswer {
    pub vertices: u32,
    pub bytes: Vec<u8>,
}

/// Runs `upgrade`: reads the points of a file, then takes an answer of either version from the input, and prints the
/// same answer in version 2. The points give no more than how many vertices a cut's set has: what the answer says is
/// not judged. Gives the status that the program ends with.
pub fn upgrade<I: Source, O: Sink, R: Sink, S: Shelf>(
    alloc: Global,
    points_name: &str,
    input: &mut I,
    out: &mut O,
    err: &mut R,
    shelf: &mut S,
) -> u8
    ensures { EndsUpgrade points_name.now
        (outside (I.state input.old) (O.state out.old) (R.state err.old) (S.state shelf.old))
        (outside (I.state input.new) (O.state out.new) (R.state err.new) (S.state shelf.new)) result }
{
    match take_answer(alloc, points_name, input, shelf) {
        Ok(taken) => {
            upgrading_keeps_verdict();
            let written = write_upgraded(out, taken.vertices, taken.bytes.as_slice());
            end_written(err, b"upgrade", AnswerStatus::Done, written)
        }
        Err(Stop::Fault(fault)) => end_refused(err, b"upgrade", &fault),
        Err(Stop::Memory(_)) => end_starved(err),
    }
}

// The bytes of the input, where they are an answer's text for the grid of a file's points.
fn take_answer<I: Source, S: Shelf>(
    alloc: Global,
    points_name: &str,
    input: &mut I,
    shelf: &mut S,
) -> Result<TakenAnswer, Stop<UpgradeFault>>
    ensures takes { IfFound result (TakesAnswer points_name.now
        (readable (I.state input.old) (S.state shelf.old)) (readable (I.state input.new) (S.state shelf.new))) }
    ensures leaves { LeavesFiles
        (readable (I.state input.old) (S.state shelf.old)) (readable (I.state input.new) (S.state shelf.new)) }
{
    let grid = within(
        grid_in_file(alloc, shelf, points_name, TEXT_LIMIT),
        UpgradeFault::Points,
    )?;
    let bytes = within(
        whole_input(alloc, input, UPGRADE_LIMIT),
        UpgradeFault::Input,
    )?;
    let vertices = grid.graph().vertex_count();
    match spelled(alloc, vertices, bytes.as_slice())? {
        Spelled::Whole { .. } => Ok(TakenAnswer { vertices, bytes }),
        Spelled::Fault { line } => Err(Stop::Fault(UpgradeFault::Misspelled { line })),
    }
}
