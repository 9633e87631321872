//! The cuts of a leaf, as they are read.

ghost use Rattle.std.specs.Prelude.{◌≡◌, ◌+◌, ◌<◌, ◌≤◌, ◌↔◌, ◌⊎◌, ℕ, true, false, List, [], ◌∷◌, ◌++◌, length};
ghost use Rattle.std.specs.Prelude.{slice_index, IsTrue, IfOk, IfErr, IfNone, IfSome};
ghost use Rattle.net_graph.specs.declared.packing.Cut.{Cut};
ghost use Rattle.net_graph.specs.Flags.{has};
ghost use Rattle.net_graph.specs.Graph.{HasEndsBelow};
ghost use Rattle.net_graph.specs.Decision.{EndsInside, IsMet, IsRequired};
ghost use Rattle.net_graph.specs.Packing.{IsCut, room_of};
ghost use Rattle.tree_judge.specs.Cuts.{PacksCut, CutFault, cut_of};
ghost use Rattle.tree_judge.specs.Loads.{HasLoads, IsLeafOf, IsOverload, KeepsLoads, LoadsBelow, LoadsOnly};
ghost use Rattle.tree_judge.specs.Ways.{HasState, HasStates, RequiresOn, StandsOnWay};

use crate::border::Border;
use crate::cause::Cause;
use crate::decided::state_at;
use crate::loads::Loads;
use crate::states::States;
use crate::way::Way;
use cert_tree::SplitOn;
use net_graph::{Edge, EdgeState, NetGraph, VertexSet, enters, holds_terminal};

/// A load that is above its room.
#[derive(Clone, Copy)]
pub(crate) struct Excess {
    pub load: u128,
    pub room: u64,
}

/// Reads one more cut of a leaf, which stands in a line. Gives why the line is wrong, if it is; the loads are then
/// those of no packing.
pub(crate) fn read_cut<B: Border>(
    loads: &mut Loads,
    way: &Way,
    g: &NetGraph,
    border: &B,
    line: u64,
    weight: u64,
    members: &VertexSet,
) -> Option<Cause>
    requires loads { HasLoads g.now loads.old }
    requires on_way { StandsOnWay g.now way.now }
    requires size { length members.now ≡ g.now.vertices }
    requires border { B.is_of g.now border.now }
    ensures loads { HasLoads g.now loads.new }
    ensures passes { IfNone result ((cuts : List Cut) → IsLeafOf g.now cuts way.now.decided loads.old
        → PacksCut g.now way.now.decided cuts (cut_of weight members.now)
        × IsLeafOf g.now (cuts ++ cut_of weight members.now ∷ []) way.now.decided loads.new) }
    ensures fault { IfSome result (λ cause. (cuts : List Cut) → IsLeafOf g.now cuts way.now.decided loads.old
        → CutFault g.now way.now.decided cuts (cut_of weight members.now) line cause) }
{
    if let Some(cause) = set_fault(way, g, line, members) {
        return Some(cause);
    }
    load_arcs(loads, &way.decided, g, border, line, weight, members)
}

// Loads the arcs that enter a cut, edge by edge, up to the first edge of which one is then loaded above its room. Only
// the edges at the cut's border are looked at.
fn load_arcs<B: Border>(
    loads: &mut Loads,
    decided: &States,
    g: &NetGraph,
    border: &B,
    line: u64,
    weight: u64,
    members: &VertexSet,
) -> Option<Cause>
    requires loads { HasLoads g.now loads.old }
    requires states { HasStates g.now decided.now }
    requires size { length members.now ≡ g.now.vertices }
    requires border { B.is_of g.now border.now }
    ensures size { HasLoads g.now loads.new }
    ensures leaf { IfNone result ((cuts : List Cut) → IsLeafOf g.now cuts decided.now loads.old
        → IsLeafOf g.now (cuts ++ cut_of weight members.now ∷ []) decided.now loads.new) }
    ensures fault { IfSome result (λ cause. (cuts : List Cut) → IsCut g.now decided.now members.now
        → IsLeafOf g.now cuts decided.now loads.old
        → CutFault g.now decided.now cuts (cut_of weight members.now) line cause) }
{
    for place in 0..border.runs(g) {
        if let Some(cause) = load_run(loads, decided, g, border, place, line, weight, members) {
            return Some(cause);
        }
    }
    None
}

// The same of the edges of a run, where those of lower numbers are loaded.
fn load_run<B: Border>(
    loads: &mut Loads,
    decided: &States,
    g: &NetGraph,
    border: &B,
    place: u32,
    line: u64,
    weight: u64,
    members: &VertexSet,
) -> Option<Cause>
    requires loads { HasLoads g.now loads.old }
    requires states { HasStates g.now decided.now }
    requires size { length members.now ≡ g.now.vertices }
    requires border { B.is_of g.now border.now }
    requires place { place < B.count g.now border.now }
    ensures size { HasLoads g.now loads.new }
    ensures loads { IfNone result ((cuts : List Cut)
        → LoadsBelow g.now cuts (cut_of weight members.now) (B.before g.now border.now place) decided.now loads.old
        → LoadsBelow g.now cuts (cut_of weight members.now) (B.before g.now border.now (place + 1)) decided.now
        loads.new) }
    ensures fault { IfSome result (λ cause. (cuts : List Cut) → IsCut g.now decided.now members.now
        → LoadsBelow g.now cuts (cut_of weight members.now) (B.before g.now border.now place) decided.now loads.old
        → CutFault g.now decided.now cuts (cut_of weight members.now) line cause) }
{
    // Few edges, so their numbers are within 32 bits.
    prove!(g.edge_count() <= 4900);
    let run = border.run(g, place, members);
    let mut n = run.edge;
    // Which of the edges from n on are still to be loaded.
    let mut marks = run.marks;
    while marks != 0 {
        let gap = marks.trailing_zeros();
        n += gap;
        let state = state_at(decided, g, n);
        if let Err(over) = load_edge(loads, n, g.edge(n), state, weight, members) {
            return Some(Cause::Overload {
                line,
                edge: n,
                load: over.load,
                room: over.room,
            });
        }
        n += 1;
        marks = marks >> gap >> 1;
    }
    None
}

// Loads that arc of an edge in this state which enters the set, if it has a room. An `Err` is its load where that is
// above its room.
fn load_edge(
    loads: &mut Loads,
    n: u32,
    e: Edge,
    state: EdgeState,
    weight: u64,
    members: &VertexSet,
) -> Result<(), Excess>
    requires there { n < length loads.old.there }
    requires back { n < length loads.old.back }
    requires ends { HasEndsBelow (length members.now) e }
    ensures only { LoadsOnly n loads.old loads.new }
    ensures passes { IfOk result (λ _. (cuts : List Cut)
        → KeepsLoads state e cuts (slice_index loads.old.there n) (slice_index loads.old.back n)
        → KeepsLoads state e (cuts ++ cut_of weight members.now ∷ [])
        (slice_index loads.new.there n) (slice_index loads.new.back n)) }
    ensures over { IfErr result (λ over. (cuts : List Cut)
        → KeepsLoads state e cuts (slice_index loads.old.there n) (slice_index loads.old.back n)
        → IsOverload state e (cuts ++ cut_of weight members.now ∷ []) members.now over) }
{
    let Some(limit) = arc_room(state, &e) else {
        return Ok(());
    };
    if enters(members, e.a, e.b) {
        let load = with_weight(loads.there(n), weight, limit)?;
        loads.set_there(n, load);
        Ok(())
    } else if enters(members, e.b, e.a) {
        let load = with_weight(loads.back(n), weight, limit)?;
        loads.set_back(n, load);
        Ok(())
    } else {
        Ok(())
    }
}

// The room of each arc of an edge, where there is a limit.
fn arc_room(state: EdgeState, e: &Edge) -> Option<u64>
    ensures { result ≡ room_of state e.now }
{
    match state {
        EdgeState::Undecided => Some(e.length),
        EdgeState::Inside => Some(0),
        EdgeState::Outside => None,
    }
}

// The load with a weight more. An `Err` is that sum where it is above the room.
fn with_weight(load: u64, weight: u64, room: u64) -> Result<u64, Excess>
    ensures sum { IfOk result (λ sum. sum ≡ load + weight) }
    ensures fits { IfOk result (λ sum. sum ≤ room) }
    ensures over { IfErr result (λ over. over.load ≡ load + weight) }
    ensures room { IfErr result (λ over. over.room ≡ room) }
    ensures above { IfErr result (λ over. room < over.load) }
{
    let sum = u128::from(load) + u128::from(weight);
    if sum > u128::from(room) {
        return Err(Excess { load: sum, room });
    }
    Ok(sum as u64)
}

// Why the set is no cut, if it is none.
fn set_fault(way: &Way, g: &NetGraph, line: u64, members: &VertexSet) -> Option<Cause>
    requires on_way { StandsOnWay g.now way.now }
    requires size { length members.now ≡ g.now.vertices }
    ensures passes { IfNone result (IsCut g.now way.now.decided members.now) }
    ensures fault { IfSome result (λ cause. (cuts : List Cut) (weight : ℕ)
        → CutFault g.now way.now.decided cuts (cut_of weight members.now) line cause) }
{
    if members.has(g.root()) {
        return Some(Cause::RootInCut(line));
    }
    if !holds_required(way, g, members) {
        return Some(Cause::IdleCut(line));
    }
    None
}

// Whether the set holds a required vertex.
fn holds_required(way: &Way, g: &NetGraph, members: &VertexSet) -> bool
    requires on_way { StandsOnWay g.now way.now }
    requires size { length members.now ≡ g.now.vertices }
    ensures { IsTrue result ↔ ((v : ℕ) × IsRequired g.now way.now.decided v × (has members.now v ≡ true)) }
{
    holds_terminal(g, members) || holds_decided(way, g, members)
}

// Whether the set holds an end of an inside edge or a met vertex. Each of these edges and vertices has its split on the
// way.
fn holds_decided(way: &Way, g: &NetGraph, members: &VertexSet) -> bool
    requires on_way { StandsOnWay g.now way.now }
    requires size { length members.now ≡ g.now.vertices }
    ensures { IsTrue result ↔ ((v : ℕ) × (EndsInside g.now way.now.decided v ⊎ IsMet way.now.decided v)
        × (has members.now v ≡ true)) }
{
    for place in 0..way.path.depth() {
        if holds_by(&way.decided, g, members, way.path.turn(place).on) {
            return true;
        }
    }
    false
}

// Whether the set holds a vertex that is required by what a split is on.
fn holds_by(decided: &States, g: &NetGraph, members: &VertexSet, on: SplitOn) -> bool
    requires states { HasStates g.now decided.now }
    requires size { length members.now ≡ g.now.vertices }
    requires state { HasState decided.now on }
    ensures { IsTrue result ↔ ((v : ℕ) × RequiresOn g.now decided.now on v × (has members.now v ≡ true)) }
{
    match on {
        SplitOn::Edge(n) => decided.is_inside(n) && holds_end(members, g.edge(n)),
        SplitOn::Vertex(v) => decided.is_met(v) && members.has(v),
    }
}

// Whether the set holds an end of the edge.
fn holds_end(members: &VertexSet, e: Edge) -> bool
    requires { HasEndsBelow (length members.now) e }
    ensures { IsTrue result ↔ ((has members.now e.a ≡ true) ⊎ (has members.now e.b ≡ true)) }
{
    members.has(e.a) || members.has(e.b)
}
