//! Calls that search: branch and bound, networks of saturated arcs, local search.

mod asked;
mod searching;
mod shortening;
mod telling;

use crate::described::graph;
use net_graph::NetGraph;
use row_tables::{Call, Fault, Told};
use std::alloc::Global;

/// Makes the call of a row, and writes what comes of it.
pub fn answer(alloc: Global, call: &Call, told: &mut Told) -> Result<(), Fault> {
    of_graph(alloc, call, &graph(alloc, call)?, told)
}

// Makes a call on a graph.
fn of_graph(alloc: Global, call: &Call, g: &NetGraph, told: &mut Told) -> Result<(), Fault> {
    match call.kind() {
        "solve" | "steps" | "saturated" => searching::search(alloc, call, g, told),
        "shorter" => shortening::shorter(alloc, call, g, told),
        _ => Err(Fault::UnknownSubject),
    }
}
