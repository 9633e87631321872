//! The packing that bounds the networks which use an edge.

ghost use Rattle.std.specs.Prelude.{◌≡◌, ◌+◌, ◌*◌, ◌<◌, ◌≤◌, length, IfOk};
ghost use Rattle.net_graph.specs.Graph.{total_of};
ghost use Rattle.net_graph.specs.Decision.{IsDecisionFor};
ghost use Rattle.net_graph.specs.Packing.{IsFeasible, packing_value};
ghost use Rattle.net_graph.specs.Saturation.{IsMaximal};
ghost use Rattle.edge_slack.specs.EdgeBound.{edge_taken_in, IsInSomeNetwork, IsEdgeBound, IsLowerBoundWith};

use dual_ascent::{Chooser, Rule, ascend};
use net_graph::{Decision, NetGraph, Packing};
use std::alloc::{AllocError, Global};

/// A packing whose value bounds the networks that use the edge `e`, those whose root part holds it. It is what the
/// ascent comes to from the empty packing under the decision that takes `e` in and decides nothing else (dual ascent:
/// Wong 1984; the bound of an edge: this project). At each step the rule chooses the candidate. An `Err` is want of
/// memory.
pub fn edge_bound<F: Rule>(
    alloc: Global,
    g: &NetGraph,
    e: u32,
    chooser: &Chooser<F>,
) -> Result<Packing, AllocError>
    // It is so exactly where all edges together are a network whose root part holds the edge.
    requires { IsInSomeNetwork g.now e }
    ensures feasible { IfOk result (λ p. IsFeasible g.now (edge_taken_in g.now e) p) }
    ensures maximal { IfOk result (λ p. IsMaximal g.now (edge_taken_in g.now e) p) }
    ensures few { IfOk result (λ p. length p ≤ 4 * length g.now.edges + 1) }
    ensures value { IfOk result (λ p. IsEdgeBound g.now e (packing_value g.now (edge_taken_in g.now e) p)) }
    // No network whose root part holds the edge is shorter than the packing's value.
    ensures bound { IfOk result
        (λ p. IsLowerBoundWith g.now e (packing_value g.now (edge_taken_in g.now e) p)) }
    ensures total { IfOk result (λ p. packing_value g.now (edge_taken_in g.now e) p ≤ total_of g.now) }
{
    let d = taking_in(alloc, g, e)?;
    let ascent = ascend(alloc, g, &d, Packing::empty(alloc), chooser)?;
    Ok(ascent.packing)
}

/// The decision that takes the edge `e` in and leaves every other edge and every vertex undecided. An `Err` is want of
/// memory.
pub fn taking_in(alloc: Global, g: &NetGraph, e: u32) -> Result<Decision, AllocError>
    requires { e < length g.now.edges }
    ensures value { IfOk result (λ d. d ≡ edge_taken_in g.now e) }
    ensures decision { IfOk result (λ d. IsDecisionFor g.now d) }
{
    Decision::none(alloc, g)?.with_inside(g, e)
}
