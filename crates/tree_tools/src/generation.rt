//! The tool `rfst`: points come in, the file of their full trees goes out.

ghost use Rattle.std.specs.Prelude.{◌≤◌};
ghost use Rattle.rst_outside.specs.Shelf.{ShelfState};
ghost use Rattle.tool_frame.specs.Outside.{outside};
ghost use Rattle.tree_tools.specs.Generation.{EndsRfst, GeneratesFile};

use crate::file_answer::FileAnswer;
use rst_outside::{Sink, Source};
use std::alloc::Global;
use tool_frame::{Stop, TextTool, run_on_text};
use tree_inputs::{GenerationFault, generated_in};

/// Runs `rfst`: reads points from the input and prints the file of their full trees of up to `size` members. Gives the
/// status that the program ends with.
pub fn rfst<I: Source, O: Sink, R: Sink>(
    alloc: Global,
    size: u8,
    input: &mut I,
    out: &mut O,
    err: &mut R,
) -> u8
    requires least { 2 ≤ size }
    requires most { size ≤ 8 }
    ensures { (shelf : ShelfState) → EndsRfst size
        (outside (I.state input.old) (O.state out.old) (R.state err.old) shelf)
        (outside (I.state input.new) (O.state out.new) (R.state err.new) shelf) result }
{
    run_on_text(alloc, b"rfst", &Generation { size }, input, out, err)
}

// The file of the points that a text lists and of their trees of up to `size` members.
#[derive(Drop)]
struct Generation {
    size: u8,
    ghost least: { 2 ≤ size },
    ghost most: { size ≤ 8 },
}

impl TextTool for Generation {
    type Found = FileAnswer;

    type Wrong = GenerationFault;

    ghost prints = { λ tool. GeneratesFile tool.size };

    fn find(&self, alloc: Global, bytes: &[u8]) -> Result<FileAnswer, Stop<GenerationFault>> {
        let file = generated_in(alloc, bytes, self.size)?;
        Ok(FileAnswer { file })
    }
}
