//! The checker, on the text of an answer that was found.

ghost use Rattle.std.specs.Prelude.{◌≡◌, ◌≤◌, length, IfOk};
ghost use Rattle.cert_check.specs.Accepted.{IsAccepted, IsAccepting};
ghost use Rattle.cert_check.specs.Verdicts.{byte_limit};
ghost use Rattle.search_tools.specs.Steps.{IsPrintable, solution_text};
ghost use Rattle.search_tools.specs.TrialSteps.{IsSomeAnswer};

use answer_text::answer_len;
use cert_check::{Checker, Finished, Verdict, Workroom};
use graph_search::Solution;
use hanan_grid::Grid;
use rst_outside::{MemSink, PutFault};
use std::alloc::{AllocError, Global};
use tool_frame::Answer;

/// Has the text of an answer judged, which is always accepted. An `Err` is want of memory.
pub(crate) fn judge(alloc: Global, solution: &Solution<Grid>) -> Result<(), AllocError>
    requires { IsSomeAnswer solution.now }
{
    let text = text_of(alloc, solution)?;
    match verdict_on(alloc, &solution.instance, text.bytes())? {
        Verdict::Accepted { .. } => Ok(()),
        Verdict::Refused(_) | Verdict::TooLong => unreachable!(),
    }
}

// The text of an answer, in a sink with room for just this. An `Err` is want of memory.
fn text_of(alloc: Global, solution: &Solution<Grid>) -> Result<MemSink, AllocError>
    requires { IsPrintable solution.now }
    ensures { IfOk result (λ sink. sink.taken ≡ solution_text solution.now) }
{
    let room = answer_len(&solution.instance, &solution.answer) as usize;
    let mut sink = MemSink::with_room(alloc, room, usize::MAX, Vec::new(alloc))?;
    match solution.write(&mut sink) {
        Ok(()) => Ok(sink),
        Err(PutFault) => unreachable!(),
    }
}

// The verdict on bytes as an answer for the points of a grid. An `Err` is want of memory.
fn verdict_on(alloc: Global, grid: &Grid, bytes: &[u8]) -> Result<Verdict, AllocError>
    ensures { IfOk result (λ verdict. length bytes.now ≤ byte_limit → IsAccepted grid.now bytes.now
        → IsAccepting verdict) }
{
    let Workroom {
        network,
        members,
        work,
    } = Workroom::new(alloc, grid)?;
    let mut checker = Checker::begin(grid, network, members, work);
    checker.feed(bytes);
    let Finished {
        verdict,
        network: _,
    } = checker.finish();
    Ok(verdict)
}
