//! Edge bounds of ascents that begin with what a packing of nothing decided carries.

ghost use Rattle.std.specs.Prelude.{◌*◌, ◌<◌, ◌≤◌, false, replicate, length, IfOk};
ghost use Rattle.net_graph.specs.Graph.{total_of};
ghost use Rattle.net_graph.specs.Adds.{Adds};
ghost use Rattle.net_graph.specs.Decision.{IsRequired, nothing_decided};
ghost use Rattle.net_graph.specs.Packing.{IsFeasible};
ghost use Rattle.edge_slack.specs.Beginning.{IsBeginning};
ghost use Rattle.edge_slack.specs.EdgeBound.{edge_taken_in, IsInSomeNetwork, IsEdgeBound, IsLowerBoundWith};

use crate::bound::taking_in;
use dual_ascent::{Chooser, ReducedCosts, Rule, ascend_on, carry_rooms, required_in, required_set};
use net_graph::{Decision, NetGraph, Packing, VertexSet, total_weight};
use std::alloc::{AllocError, Global};

/// What the bounds of edges may begin with: the decision that decides nothing, a packing that is feasible under it,
/// what this leaves of the rooms of all arcs, and the set of the vertices that are required.
#[derive(Drop)]
pub struct Beginning {
    pub decision: Decision,
    pub packing: Packing,
    pub costs: ReducedCosts,
    pub required: VertexSet,
}

impl Beginning {
    /// A packing that is feasible where nothing is decided, as what bounds begin with; where it has more than two cuts
    /// for each edge, the empty packing. An `Err` is want of memory.
    pub fn at(alloc: Global, g: &NetGraph, packing: Packing) -> Result<Beginning, AllocError>
        requires { IsFeasible g.now (nothing_decided g.now) packing }
        ensures { IfOk result (IsBeginning g.now) }
    {
        let decision = Decision::none(alloc, g)?;
        let packing = at_most_twice(alloc, g, packing);
        let costs = ReducedCosts::of(alloc, g, &decision, &packing)?;
        let required = required_set(alloc, g, &decision)?;
        Ok(Beginning {
            decision,
            packing,
            costs,
            required,
        })
    }
}

// The packing, where it has no more than two cuts for each edge, else the empty one.
fn at_most_twice(alloc: Global, g: &NetGraph, packing: Packing) -> Packing
    requires { IsFeasible g.now (nothing_decided g.now) packing }
    ensures feasible { IsFeasible g.now (nothing_decided g.now) result }
    ensures few { length result ≤ 2 * length g.now.edges }
{
    if packing.len() <= 2 * g.edge_count() as usize {
        packing
    } else {
        Packing::empty(alloc)
    }
}

/// A bound of the networks that use the edge `e`: the value of a packing as [`edge_bound`] gives one, of the ascent
/// that begins with the cuts which a packing of nothing decided carries to the decision that takes `e` in. So only what
/// these lack is raised anew, and no cut is copied. An `Err` is want of memory.
///
/// [`edge_bound`]: crate::edge_bound
pub fn carried_edge_bound<F: Rule>(
    alloc: Global,
    g: &NetGraph,
    e: u32,
    start: &Beginning,
    chooser: &Chooser<F>,
) -> Result<u64, AllocError>
    // It is so exactly where all edges together are a network whose root part holds the edge.
    requires some { IsInSomeNetwork g.now e }
    requires start { IsBeginning g.now start.now }
    ensures value { IfOk result (IsEdgeBound g.now e) }
    // No network whose root part holds the edge is shorter.
    ensures bound { IfOk result (IsLowerBoundWith g.now e) }
    ensures total { IfOk result (λ bound. bound ≤ total_of g.now) }
{
    let _ = g.edge_count();
    let now = taking_in(alloc, g, e)?;
    let carried = carry_rooms(
        alloc,
        g,
        &start.decision,
        &now,
        &start.packing,
        &start.costs,
    )?;
    let set = required_with(g, e, start)?;
    let required = required_in(alloc, g, &now, &set)?;
    let more = Packing::empty(alloc);
    let ascent = ascend_on(alloc, g, &now, &required, more, carried.costs, chooser)?;
    let length = u128::from(g.edge(e).length);
    let weight = carried.weight + total_weight(ascent.packing.cuts());
    Ok((weight + length) as u64)
}

// The set of the vertices that are required where the edge is taken in: its ends, too. An `Err` is want of memory.
fn required_with(g: &NetGraph, e: u32, start: &Beginning) -> Result<VertexSet, AllocError>
    requires edge { e < length g.now.edges }
    requires start { IsBeginning g.now start.now }
    ensures { IfOk result
        (λ set. Adds (IsRequired g.now (edge_taken_in g.now e)) (replicate g.now.vertices false) set) }
{
    let _ = g.edge_count();
    let edge = g.edge(e);
    let mut set = start.required.copy()?;
    set.add(edge.a);
    set.add(edge.b);
    Ok(set)
}
