//! Rows of calls on graphs: sets, networks, decisions, packings, ascents, certificate trees and searches. What a row
//! gives and what comes of it: docs/ROWS.md.
#![tactic(auto)]

ghost use Rattle.net_graph.specs.Decision.{IsDecisionFor};

mod ascents;
mod decisions;
pub mod described;
mod edge_bounds;
mod networks;
mod rules;
pub mod search;
mod sets;
pub mod told;
mod trees;
mod ways;

use net_graph::{Decision, NetGraph};
use row_tables::{Call, Fault, Told};
use std::alloc::Global;

/// Makes the call of a row, and writes what comes of it.
pub fn answer(alloc: Global, call: &Call, told: &mut Told) -> Result<(), Fault> {
    match call.kind() {
        "network" => networks::network(alloc, call, told),
        "edge_set" => sets::edge_set(alloc, call, told),
        "fours" => sets::fours(alloc, call, told),
        _ => of_graph(alloc, call, &described::graph(alloc, call)?, told),
    }
}

// Makes a call on a graph.
fn of_graph(alloc: Global, call: &Call, g: &NetGraph, told: &mut Told) -> Result<(), Fault> {
    match call.kind() {
        "edge_bounds" => edge_bounds::edge_bounds(alloc, call, g, told),
        "ways" => ways::ways(alloc, call, g, told),
        "tree" => trees::tree(alloc, call, g, told),
        _ => of_decision(alloc, call, g, &described::decision(alloc, call, g)?, told),
    }
}

// Makes a call on a graph under a decision.
fn of_decision(
    alloc: Global,
    call: &Call,
    g: &NetGraph,
    d: &Decision,
    told: &mut Told,
) -> Result<(), Fault>
    requires { IsDecisionFor g.now d.now }
{
    match call.kind() {
        "decision" => decisions::decision_told(alloc, g, d, told),
        "packing" => decisions::packing_told(alloc, call, g, d, told),
        "ascents" => ascents::ascents(alloc, call, g, d, told),
        _ => Err(Fault::UnknownSubject),
    }
}
