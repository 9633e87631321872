//! The end of a run: what a tool found is printed, or refused.

ghost use Rattle.std.specs.Prelude.{◌≡◌, ℕ, List};
ghost use Rattle.std.specs.Result.{ForOk};
ghost use Rattle.rst_outside.specs.Sink.{SinkState, Writes};
ghost use Rattle.tool_frame.specs.Outside.{writable};
ghost use Rattle.tool_frame.specs.Statuses.{fault_code};
ghost use Rattle.tool_frame.specs.Ends.{Concludes, PrintsOrNot, Refuses, fault_line, no_memory_line};
ghost use Rattle.tool_frame.specs.Stops.{prints_found};

use crate::answer::Answer;
use crate::fault::Fault;
use crate::reports::{report, report_fault, report_unwritten};
use crate::status::{AnswerStatus, NO_MEMORY, UNWRITTEN};
use crate::stop::Stop;
use rst_outside::{PutFault, Sink};

/// Ends a run of a tool by what it found: an answer, whose text is written to `out`; a fault, which is said on `err`;
/// or want of memory. Gives the status that the program ends with. It takes no memory.
pub fn end_found<O: Sink, R: Sink, A: Answer + Drop, F: Fault + Drop>(
    out: &mut O,
    err: &mut R,
    tool: &[u8],
    found: Result<A, Stop<F>>,
) -> u8
    requires { ForOk found A.fits }
    ensures { Concludes F.status F.text tool.now (prints_found A.text A.status found)
        (writable (O.state out.old) (R.state err.old)) (writable (O.state out.new) (R.state err.new)) result }
{
    match found {
        Ok(answer) => print(out, err, tool, &answer),
        Err(Stop::Fault(fault)) => end_refused(err, tool, &fault),
        Err(Stop::Memory(_)) => end_starved(err),
    }
}

/// Ends a run whose text was written to a sink with this outcome. Gives the status: that of the text, or that of a
/// failed write. It takes no memory.
pub fn end_written<R: Sink>(
    err: &mut R,
    tool: &[u8],
    status: AnswerStatus,
    written: Result<(), PutFault>,
) -> u8
    ensures { (before after : SinkState) (text : List ℕ) → Writes before text after written →
        PrintsOrNot tool.now (record { text = text; status = status })
        (writable before (R.state err.old)) (writable after (R.state err.new)) result }
{
    match written {
        Ok(()) => status.code(),
        Err(PutFault) => {
            report_unwritten(err, tool);
            UNWRITTEN
        }
    }
}

/// Ends a run that a fault refuses, which is said on `err`. Gives its status. It takes no memory.
pub fn end_refused<R: Sink, F: Fault>(err: &mut R, tool: &[u8], fault: &F) -> u8
    ensures { (out : SinkState) → Refuses (fault_line tool.now (F.text fault.now)) (fault_code (F.status fault.now))
        (writable out (R.state err.old)) (writable out (R.state err.new)) result }
{
    report_fault(err, tool, fault);
    fault.status().code()
}

/// Ends a run for which memory was wanting, which is said on `err`. Gives its status. It takes no memory.
pub fn end_starved<R: Sink>(err: &mut R) -> u8
    ensures { (out : SinkState) → Refuses no_memory_line NO_MEMORY
        (writable out (R.state err.old)) (writable out (R.state err.new)) result }
{
    report(err, b"rst: out of memory\n");
    NO_MEMORY
}

// Writes the text of an answer, and gives the status.
fn print<O: Sink, R: Sink, A: Answer>(out: &mut O, err: &mut R, tool: &[u8], answer: &A) -> u8
    requires { A.fits answer.now }
    ensures { PrintsOrNot tool.now (record { text = A.text answer.now; status = A.status answer.now })
        (writable (O.state out.old) (R.state err.old)) (writable (O.state out.new) (R.state err.new)) result }
{
    let written = answer.write(out);
    end_written(err, tool, answer.status(), written)
}
