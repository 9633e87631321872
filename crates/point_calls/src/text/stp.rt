//! STP files, read and written back.

use crate::text::given::{said_of, sink as given_sink};
use row_tables::{Call, Fault, Told, shown};
use std::alloc::Global;
use stp_format::{StpFile, read_stp, write_stp};

/// The fault of the STP file under `file`; or what it holds, and the file as it is written.
pub(crate) fn stp(alloc: Global, call: &Call, told: &mut Told) -> Result<(), Fault> {
    match read_stp(alloc, call.bytes("file")?) {
        Ok(file) => tell(alloc, call, &file, told),
        Err(fault) => {
            told.line("", &said_of(alloc, fault)?);
            Ok(())
        }
    }
}

// Tells what a file holds, and what a sink has of it as it is written.
fn tell(alloc: Global, call: &Call, file: &StpFile, told: &mut Told) -> Result<(), Fault> {
    tell_file(file, told);
    let mut sink = given_sink(alloc, call)?;
    told.debug_line("written ", &write_stp(&mut sink, file));
    told.word(shown(sink.bytes())?);
    Ok(())
}

// Tells the nodes of a file with their points, its edges and its terminals.
fn tell_file(file: &StpFile, told: &mut Told) {
    for node in 1..=file.nodes() {
        told.value("node ", &node);
        told.debug_line(" ", &file.coordinates(node));
    }
    for n in 0..file.edge_count() {
        let edge = file.edge(n);
        told.value("edge ", &edge.i);
        told.value(" ", &edge.j);
        told.line(" ", &edge.length);
    }
    for n in 0..file.terminal_count() {
        told.line("terminal ", &file.terminal(n));
    }
}
