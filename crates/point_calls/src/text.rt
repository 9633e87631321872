//! Calls on texts: sources and sinks, pieces of texts, words and lines, STP files, texts that are cut.

mod cuts;
pub mod given;
mod lines;
mod pieces;
mod sources;
mod stp;

use row_tables::{Call, Fault, Told};
use std::alloc::Global;

/// Makes the call of a row, and writes what comes of it.
pub fn answer(alloc: Global, call: &Call, told: &mut Told) -> Result<(), Fault> {
    match call.kind() {
        "source" => sources::source(alloc, call, told),
        "sure" => sources::sure(alloc, call, told),
        "pieces" => pieces::pieces(alloc, call, told),
        "lines" => lines::lines(call, told),
        "stp" => stp::stp(alloc, call, told),
        "cuts" => cuts::cuts(alloc, call, told),
        _ => Err(Fault::UnknownSubject),
    }
}
