//! The active vertices of an ascent, and what is kept of each from step to step.

ghost use Rattle.std.specs.Prelude.{ℕ, ◌≡◌, ◌<◌, [], length, map, All, Contains, IfOk, OnOk};
ghost use Rattle.std.specs.List.Sorted.{IsStrictlyIncreasing};
ghost use Rattle.net_graph.specs.Graph.{root_of};
ghost use Rattle.dual_ascent.specs.declared.active.ActiveVertex.{ActiveVertex};
ghost use Rattle.dual_ascent.specs.Costs.{edges_of};
ghost use Rattle.dual_ascent.specs.Active.{AreActive, candidate_of};
ghost use Rattle.dual_ascent.specs.Growing.{MayGrow, AreGrown, LeavesOut};

use crate::candidate::Candidate;
use crate::costs::ReducedCosts;
use net_graph::{Arc, Found, NetGraph, found_leading_to, grow_leading_to, reached_from};
use std::alloc::{AllocError, Global};

/// A required vertex that saturated arcs don't lead to from the root, with the vertices that saturated arcs lead to it
/// from.
#[derive(Drop)]
pub(crate) struct ActiveVertex {
    pub vertex: u32,
    pub leading: Found,
}

/// Those of the vertices that saturated arcs don't lead to from the root. An `Err` is want of memory.
pub(crate) fn active_vertices(
    alloc: Global,
    g: &NetGraph,
    vertices: &[u32],
    costs: &ReducedCosts,
) -> Result<Vec<ActiveVertex>, AllocError>
    requires below { All (λ v. v < g.now.vertices) vertices.now }
    requires ascending { IsStrictlyIncreasing vertices.now }
    requires edges { edges_of costs.now ≡ g.now.edges }
    ensures { IfOk result (λ list. AreActive g.now vertices.now costs.now list.items) }
{
    let mut active = Vec::new(alloc);
    // One search from the root spares one to each vertex that it leads to.
    let reached = reached_from(alloc, g, g.root(), costs)?;
    for v in vertices {
        if !reached.has(*v) {
            let leading = found_leading_to(alloc, g, *v, costs)?;
            active.push(ActiveVertex {
                vertex: *v,
                leading,
            })?;
        }
    }
    Ok(active)
}

/// Lists a candidate for each, in place of what the list held. An `Err` is want of memory.
pub(crate) fn list_candidates(
    active: &[ActiveVertex],
    list: &mut Vec<Candidate>,
) -> Result<(), AllocError>
    ensures { OnOk result (list.new.items ≡ map candidate_of active.now) }
{
    list.clear();
    for a in active {
        list.push(Candidate {
            number: a.vertex,
            size: a.leading.len() as u64,
        })?;
    }
    Ok(())
}

/// Brings up to date the vertices that lead to each, once these arcs became saturated. It takes no memory.
pub(crate) fn grow_all(
    g: &NetGraph,
    active: &mut [ActiveVertex],
    arcs: &[Arc],
    costs: &ReducedCosts,
)
    requires edges { edges_of costs.now ≡ g.now.edges }
    requires each { All (MayGrow g.now costs.now arcs.now) active.old }
    ensures { AreGrown g.now costs.now active.old active.new }
{
    for a in active.iter_mut() {
        grow_leading_to(g, &mut a.leading, arcs, costs);
    }
}

/// Takes out those that the vertex leads to.
pub(crate) fn leave_reached_out(active: &mut Vec<ActiveVertex>, root: u32)
    ensures left_out { LeavesOut (λ a. Contains a.leading.order root) active.old.items active.new.items }
    ensures apart { All (λ a. Contains a.leading.order root → ⊥) active.new.items }
{
    let mut place = 0;
    while place < active.len() {
        if active[place].leading.has(root) {
            active.remove(place);
        } else {
            place += 1;
        }
    }
}
