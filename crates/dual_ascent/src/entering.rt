//! The arcs that enter a set of vertices.

ghost use Rattle.std.specs.Prelude.{◌≡◌, ◌==◌, ◌+◌, ◌*◌, ◌<◌, ℕ, true, false, length, map, filter, Some, IfSome, OnOk};
ghost use Rattle.net_graph.specs.Arcs.{IsArcOf, partner_of};
ghost use Rattle.net_graph.specs.Flags.{has};
ghost use Rattle.dual_ascent.specs.declared.entering.EnteringArc.{EnteringArc};
ghost use Rattle.dual_ascent.specs.Costs.{edges_of, cost_of, IsLeastOf};
ghost use Rattle.dual_ascent.specs.Entering.{EntersLeft, AreEntering, AreEnteringBelow, IsLeftOfOne, turned};

use crate::costs::{ReducedCosts, lesser};
use net_graph::{Arc, NetGraph, VertexSet, partner};
use std::alloc::AllocError;

/// An arc that enters a set and can be saturated, with what is left of its room.
#[derive(Clone, Copy)]
pub(crate) struct EnteringArc {
    pub arc: Arc,
    pub left: u64,
}

/// Lists the arcs that enter the set and can be saturated, with what is left of each, in place of what the list held.
/// Only the arcs at members of the set are looked at, which are found by whole words of it. An `Err` is want of memory.
pub(crate) fn list_entering(
    g: &NetGraph,
    costs: &ReducedCosts,
    members: &VertexSet,
    list: &mut Vec<EnteringArc>,
) -> Result<(), AllocError>
    requires { edges_of costs.now ≡ g.now.edges }
    ensures { OnOk result (AreEntering costs.now members.now list.new.items) }
{
    list.clear();
    for place in 0..members.len().div_ceil(64) {
        list_entering_in(g, costs, members, place, list)?;
    }
    Ok(())
}

// Lists those too that lead to the members in a word of the set. An `Err` is want of memory.
fn list_entering_in(
    g: &NetGraph,
    costs: &ReducedCosts,
    members: &VertexSet,
    place: u32,
    list: &mut Vec<EnteringArc>,
) -> Result<(), AllocError>
    requires edges { edges_of costs.now ≡ g.now.edges }
    requires within { 64 * place < length members.now }
    requires below { AreEnteringBelow costs.now members.now (64 * place) list.old.items }
    ensures { OnOk result (AreEnteringBelow costs.now members.now (64 * (place + 1)) list.new.items) }
{
    let bound = members.len().min(g.vertex_count());
    let mut v = 64 * place;
    // Which of the vertices from v on are members. What is marked past the bound tells nothing.
    let mut marks = members.word(place);
    while marks != 0 {
        let gap = marks.trailing_zeros();
        v += gap;
        if v >= bound {
            return Ok(());
        }
        list_entering_at(g, costs, members, v, list)?;
        v += 1;
        marks = marks >> gap >> 1;
    }
    Ok(())
}

// Lists those too that lead to a member. An `Err` is want of memory.
fn list_entering_at(
    g: &NetGraph,
    costs: &ReducedCosts,
    members: &VertexSet,
    v: u32,
    list: &mut Vec<EnteringArc>,
) -> Result<(), AllocError>
    requires edges { edges_of costs.now ≡ g.now.edges }
    requires vertex { v < g.now.vertices }
    requires member { has members.now v ≡ true }
    requires below { AreEnteringBelow costs.now members.now v list.old.items }
    ensures { OnOk result (AreEnteringBelow costs.now members.now (v + 1) list.new.items) }
{
    for along in g.arcs_from(v) {
        if let Some(entering) = entering_against(costs, members, *along) {
            list.push(entering)?;
        }
    }
    Ok(())
}

// The other arc of the edge of an arc that leads from a member, with what is left of it; none where it doesn't enter
// the set or can't be saturated.
fn entering_against(costs: &ReducedCosts, members: &VertexSet, along: Arc) -> Option<EnteringArc>
    requires arc { IsArcOf (edges_of costs.now) along }
    requires member { has members.now along.from ≡ true }
    ensures enters { IfSome result (EntersLeft costs.now members.now) }
    ensures only { (left : ℕ) → has members.now along.to ≡ false
        → cost_of costs.now (partner_of along.number) ≡ Some left
        → result ≡ Some (record { arc = turned along; left = left }) }
{
    if members.holds(along.to) {
        return None;
    }
    let number = partner(along.number);
    let left = costs.cost(number)?;
    let arc = Arc {
        number,
        from: along.to,
        to: along.from,
    };
    Some(EnteringArc { arc, left })
}

/// The least that is left of one of the arcs.
pub(crate) fn least_left(list: &[EnteringArc]) -> Option<u64>
    ensures { IsLeastOf (IsLeftOfOne list.now) result }
{
    let mut least = None;
    for e in list {
        least = lesser(least, Some(e.left));
    }
    least
}

/// Lists the arcs of which this much is left, in place of what the list held. An `Err` is want of memory.
pub(crate) fn list_with_left(
    entering: &[EnteringArc],
    left: u64,
    list: &mut Vec<Arc>,
) -> Result<(), AllocError>
    ensures { OnOk result (list.new.items ≡ map (λ e. e.arc) (filter (λ e. e.left == left) entering.now)) }
{
    list.clear();
    for e in entering {
        if e.left == left {
            list.push(e.arc)?;
        }
    }
    Ok(())
}
