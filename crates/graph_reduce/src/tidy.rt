//! The first three rules: idle edges, loops and parallel edges are dropped.

ghost use Rattle.std.specs.Prelude.{◌≡◌, ◌≢◌, ℕ, ◌+◌, ◌<◌, ◌≤◌, ◌⊎◌, length, Some, IfSome};
ghost use Rattle.std.specs.Bool.{OnTrue, OnFalse};
ghost use Rattle.net_graph.specs.Network.{HasEnds};
ghost use Rattle.graph_reduce.specs.State.{Bundle, HasEdge, EndsIn};
ghost use Rattle.graph_reduce.specs.Survey.{IsNumbered, IsSurvey, HasPlacesOf};
ghost use Rattle.graph_reduce.specs.Rules.{AreParallel};
ghost use Rattle.graph_reduce.specs.Clear.{LeadsTo, HasSomeEdge, IsClearTo, IsTidy, IsWithin};

use crate::ends::have_same_ends;
use crate::places::next_end;
use crate::survey::Survey;
use crate::work::Work;
use std::collections::BTreeSet;

/// Takes the first two rules until neither applies.
pub(crate) fn drop_idle_and_loops(work: &mut Work)
    ensures leads { LeadsTo work.old work.new }
    ensures clear { IsClearTo work.new (length work.new.edges) 0 0 }
{
    drop_idle_edges(work);
    drop_loops(work);
}

/// Drops all edges where there is one terminal; tells whether it did.
pub(crate) fn drop_idle_edges(work: &mut Work) -> bool
    ensures leads { LeadsTo work.old work.new }
    ensures within { IsWithin work.new work.old }
    ensures idle { length work.new.terminals ≡ 1 → ¬ HasSomeEdge work.new }
    ensures rest { (work.new.nodes ≡ work.old.nodes) × (work.new.terminals ≡ work.old.terminals) }
    ensures same { OnFalse result (work.new ≡ work.old) }
{
    if work.terminals().len() == 1 && has_edge(work) {
        work.drop_edges();
        return true;
    }
    false
}

// Whether an edge is left.
fn has_edge(work: &Work) -> bool
    ensures some { OnTrue result (HasSomeEdge work.now) }
    ensures none { OnFalse result (¬ HasSomeEdge work.now) }
{
    for place in 0..work.place_count() {
        if work.edge(place).is_some() {
            return true;
        }
    }
    false
}

// Drops all loops.
fn drop_loops(work: &mut Work)
    requires { length work.old.terminals ≡ 1 → ¬ HasSomeEdge work.old }
    ensures leads { LeadsTo work.old work.new }
    ensures clear { IsClearTo work.new (length work.new.edges) 0 0 }
{
    for place in 0..work.place_count() {
        drop_loop(work, place);
    }
}

// Drops the edge at the place where it is a loop.
fn drop_loop(work: &mut Work, place: u32)
    requires place { place < length work.old.edges }
    requires clear { IsClearTo work.old place 0 0 }
    ensures leads { LeadsTo work.old work.new }
    ensures places { length work.new.edges ≡ length work.old.edges }
    ensures clear { IsClearTo work.new (place + 1) 0 0 }
{
    if let Some(e) = work.edge(place) {
        if e.a == e.b {
            work.drop_edge(place);
        }
    }
}

/// Takes the third rule until it does not apply: drops the longer of any two parallel edges.
pub(crate) fn drop_parallels(work: &mut Work, survey: &mut Survey)
    requires clear { IsClearTo work.old (length work.old.edges) 0 0 }
    requires numbered { IsNumbered work.old }
    requires survey { IsSurvey work.old survey.old.places.items survey.old.terminals }
    ensures leads { LeadsTo work.old work.new }
    ensures tidy { IsTidy work.new }
    ensures survey { IsSurvey work.new survey.new.places.items survey.new.terminals }
{
    for place in 0..work.place_count() {
        drop_parallels_at(work, survey, place);
    }
}

// Drops the longer of the edge at the place and any later edge that is parallel to it.
fn drop_parallels_at(work: &mut Work, survey: &mut Survey, place: u32)
    requires few { place < 4900 }
    requires place { place < length work.old.edges }
    requires clear { IsClearTo work.old (length work.old.edges) place 0 }
    requires numbered { IsNumbered work.old }
    requires survey { IsSurvey work.old survey.old.places.items survey.old.terminals }
    ensures leads { LeadsTo work.old work.new }
    ensures within { IsWithin work.new work.old }
    ensures rest { (work.new.nodes ≡ work.old.nodes) × (work.new.terminals ≡ work.old.terminals) }
    ensures clear { IsClearTo work.new (length work.new.edges) (place + 1) 0 }
    ensures survey { IsSurvey work.new survey.new.places.items survey.new.terminals }
{
    if let Some(edge) = work.edge(place) {
        let node = survey.less_listed(edge.a, edge.b);
        drop_parallels_of(work, &mut survey.places[node as usize], node, place);
    }
}

// Drops the longer of the edge at the place, of which the node is an end, and any later edge that is parallel to it.
fn drop_parallels_of(work: &mut Work, places: &mut BTreeSet<u32>, node: u32, place: u32)
    requires few { place < 4900 }
    requires end { EndsIn work.old node place }
    requires clear { IsClearTo work.old (length work.old.edges) place 0 }
    requires places { HasPlacesOf work.old node places.old }
    ensures leads { LeadsTo work.old work.new }
    ensures within { IsWithin work.new work.old }
    ensures rest { (work.new.nodes ≡ work.old.nodes) × (work.new.terminals ≡ work.old.terminals) }
    ensures clear { IsClearTo work.new (length work.new.edges) (place + 1) 0 }
    ensures places { HasPlacesOf work.new node places.new }
{
    let mut later = place + 1;
    while let Some(n) = next_end(work, places, node, later) {
        drop_longer(work, place, n);
        let Some(_) = work.edge(place) else {
            return;
        };
        later = n + 1;
    }
}

/// Drops the longer of the two edges where they are parallel; on a tie, the later.
pub(crate) fn drop_longer(work: &mut Work, place: u32, later: u32)
    requires order { place < later }
    requires later { later < length work.old.edges }
    requires clear { IsClearTo work.old (length work.old.edges) place later }
    ensures leads { LeadsTo work.old work.new }
    ensures within { IsWithin work.new work.old }
    ensures clear { IsClearTo work.new (length work.new.edges) place (later + 1) }
    ensures others { (n : ℕ) (z : Bundle) → n ≢ place → n ≢ later → HasEdge work.old n z → HasEdge work.new n z }
    ensures rest { (work.new.nodes ≡ work.old.nodes) × (work.new.terminals ≡ work.old.terminals) }
{
    if let (Some(x), Some(y)) = (work.edge(place), work.edge(later)) {
        if have_same_ends(x, y) {
            work.drop_edge(if y.length < x.length { place } else { later });
        }
    }
}
