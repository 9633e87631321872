//! The tool `dumpfst`: a file of full trees comes in, the list of its trees goes out.

ghost use Rattle.rst_outside.specs.Shelf.{ShelfState};
ghost use Rattle.tool_frame.specs.Outside.{outside};
ghost use Rattle.tree_tools.specs.Dump.{Dumps, EndsDumpfst};

use crate::listing::Listing;
use fst_file::FstFault;
use rst_outside::{Sink, Source};
use std::alloc::Global;
use tool_frame::{Stop, TextTool, run_on_text};
use tree_inputs::fst_in;

/// Runs `dumpfst`: reads a file of full trees from the input and prints its trees, each with its members and its
/// length, and with its straight pieces where `pieces` says so. Gives the status that the program ends with.
pub fn dumpfst<I: Source, O: Sink, R: Sink>(
    alloc: Global,
    pieces: bool,
    input: &mut I,
    out: &mut O,
    err: &mut R,
) -> u8
    ensures { (shelf : ShelfState) → EndsDumpfst pieces
        (outside (I.state input.old) (O.state out.old) (R.state err.old) shelf)
        (outside (I.state input.new) (O.state out.new) (R.state err.new) shelf) result }
{
    run_on_text(alloc, b"dumpfst", &Dump { pieces }, input, out, err)
}

// The list of the trees of the file that a text spells, with or without their pieces.
#[derive(Drop)]
struct Dump {
    pieces: bool,
}

impl TextTool for Dump {
    type Found = Listing;

    type Wrong = FstFault;

    ghost prints = { λ tool. Dumps tool.pieces };

    fn find(&self, alloc: Global, bytes: &[u8]) -> Result<Listing, Stop<FstFault>> {
        let file = fst_in(alloc, bytes)?;
        Ok(Listing {
            file,
            pieces: self.pieces,
        })
    }
}
