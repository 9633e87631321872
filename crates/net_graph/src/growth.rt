//! The vertices that lead to a vertex, kept while more arcs become open.

ghost use Rattle.std.specs.Prelude.{◌≡◌, ◌<◌, ◌↔◌, ℕ, length, All, Contains, IfOk};
ghost use Rattle.net_graph.specs.Growth.{LeadsToOne, HasArc, IsClosedBut};
ghost use Rattle.net_graph.specs.Search.{OpenStep, Leads, Extends};

use crate::arcs::Arc;
use crate::found::Found;
use crate::graph::NetGraph;
use crate::reaching::{Backward, Passage, found_from, search_on};
use std::alloc::{AllocError, Global};

/// What a search against the direction of open arcs finds from `end`: the vertices that walks over open arcs lead to
/// `end` from. An `Err` is want of memory.
pub fn found_leading_to<P: Passage>(
    alloc: Global,
    graph: &NetGraph,
    end: u32,
    passage: &P,
) -> Result<Found, AllocError>
    requires end { end < graph.now.vertices }
    requires edges { P.edges passage.now ≡ length graph.now.edges }
    ensures size { IfOk result (λ found. found.size ≡ graph.now.vertices) }
    ensures leading { IfOk result
        (λ found. (v : ℕ) → Contains found.order v ↔ Leads (OpenStep graph.now.edges (P.opens passage.now)) v end) }
{
    found_from(alloc, graph, end, &Backward { passage })
}

/// Adds the vertices that walks over open arcs lead to one of the found vertices from. The arcs are those that became
/// open since the last search. It takes no memory.
pub fn grow_leading_to<P: Passage>(graph: &NetGraph, found: &mut Found, arcs: &[Arc], passage: &P)
    requires size { found.old.size ≡ graph.now.vertices }
    requires edges { P.edges passage.now ≡ length graph.now.edges }
    requires closed { IsClosedBut graph.now.vertices graph.now.edges (P.opens passage.now) arcs.now found.old.order }
    ensures size { found.new.size ≡ found.old.size }
    ensures leading { (v : ℕ) →
        Contains found.new.order v ↔ LeadsToOne (OpenStep graph.now.edges (P.opens passage.now)) found.old.order v }
{
    let place = found.len();
    add_tails(found, arcs);
    search_on(graph, place, &Backward { passage }, found);
}

// Adds the vertices that the arcs lead from, of those that lead to a found vertex.
fn add_tails(found: &mut Found, arcs: &[Arc])
    requires below { All (λ arc. (arc.from < found.old.size) × (arc.to < found.old.size)) arcs.now }
    ensures size { found.new.size ≡ found.old.size }
    ensures more { Extends
        (λ u. (u < found.old.size) × LeadsToOne (HasArc arcs.now) found.old.order u) found.old.order found.new.order }
    ensures every { (u v : ℕ) → Contains found.old.order v → HasArc arcs.now u v → Contains found.new.order u }
{
    for arc in arcs {
        if found.has(arc.to) {
            found.add(arc.from);
        }
    }
}
