//! Tools that read the input as one text.

ghost use Rattle.std.specs.Prelude.{IfOk};
ghost use Rattle.rst_outside.specs.Shelf.{ShelfState};
ghost use Rattle.tool_frame.specs.Ends.{Ends};
ghost use Rattle.tool_frame.specs.FaultTexts.{text_fault_text, text_fault_status};
ghost use Rattle.tool_frame.specs.FromText.{FromText};
ghost use Rattle.tool_frame.specs.Leaves.{LeavesShelf};
ghost use Rattle.tool_frame.specs.Outside.{outside, readable};
ghost use Rattle.tool_frame.specs.Stops.{FindsDue};
ghost use Rattle.tool_frame.specs.Taking.{TakesSome};

use crate::answer::Answer;
use crate::ending::end_found;
use crate::fault::Fault;
use crate::stop::{Stop, within};
use crate::take::{TEXT_LIMIT, whole_input};
use crate::text_fault::TextFault;
use rst_outside::{Sink, Source};
use std::alloc::Global;

/// A tool that reads the input as one text, and nothing else.
pub trait TextTool {
    ghost use Rattle.std.specs.Prelude.{ℕ, List, Result, IfOk};
    ghost use Rattle.tool_frame.specs.Ends.{Print};
    ghost use Rattle.tool_frame.specs.Stops.{FindsDue};

    /// What it answers.
    type Found: Answer + Drop;

    /// Why it refuses a text.
    type Wrong: Fault + Drop;

    /// What it prints of a text, or why it refuses it.
    ghost prints: { Self → List ℕ → Result Print Self.Wrong → Type 0 };

    /// What it finds in a text.
    fn find(&self, alloc: Global, bytes: &[u8]) -> Result<Self::Found, Stop<Self::Wrong>>
        ensures finds { FindsDue Self.Found.text Self.Found.status (prints self.now bytes.now) result }
        ensures fits { IfOk result Self.Found.fits };
}

/// Runs a tool of this name on the input, which may have `TEXT_LIMIT` bytes. Gives the status that the program ends
/// with.
pub fn run_on_text<T: TextTool, I: Source, O: Sink, R: Sink>(
    alloc: Global,
    name: &[u8],
    tool: &T,
    input: &mut I,
    out: &mut O,
    err: &mut R,
) -> u8
    ensures { (shelf : ShelfState) → Ends (text_fault_status T.Wrong.status) (text_fault_text T.Wrong.text) name.now
        (FromText TEXT_LIMIT (T.prints tool.now)) LeavesShelf
        (outside (I.state input.old) (O.state out.old) (R.state err.old) shelf)
        (outside (I.state input.new) (O.state out.new) (R.state err.new) shelf) result }
{
    let found = find_in_input(alloc, tool, input);
    end_found(out, err, name, found)
}

// What a tool finds in the input.
fn find_in_input<T: TextTool, I: Source>(
    alloc: Global,
    tool: &T,
    input: &mut I,
) -> Result<T::Found, Stop<TextFault<T::Wrong>>>
    ensures finds { (shelf : ShelfState) → FindsDue T.Found.text T.Found.status
        (FromText TEXT_LIMIT (T.prints tool.now)
        (readable (I.state input.old) shelf) (readable (I.state input.new) shelf))
        result }
    ensures fits { IfOk result T.Found.fits }
    ensures takes { TakesSome (I.state input.old) (I.state input.new) }
{
    match whole_input(alloc, input, TEXT_LIMIT) {
        Ok(bytes) => within(tool.find(alloc, bytes.as_slice()), TextFault::Text),
        Err(Stop::Fault(fault)) => Err(Stop::Fault(TextFault::Input(fault))),
        Err(Stop::Memory(error)) => Err(Stop::Memory(error)),
    }
}
