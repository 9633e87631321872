//! The rules at nodes, taken.

ghost use Rattle.std.specs.Prelude.{◌≡◌, ◌≢◌, ℕ, ◌<◌, length, MatchOption, OnOk};
ghost use Rattle.std.specs.Bool.{OnTrue, OnFalse};
ghost use Rattle.net_graph.specs.Network.{HasEnds};
ghost use Rattle.graph_reduce.specs.State.{Bundle, HasEdge, HasNode, IsTerminal, EndsIn};
ghost use Rattle.graph_reduce.specs.Rules.{JoinsEdges, ForcesEdge};
ghost use Rattle.graph_reduce.specs.Step.{Rule, Applies, Takes};
ghost use Rattle.graph_reduce.specs.Step as step;
ghost use Rattle.graph_reduce.specs.Survey.{IsNumbered, IsSeenTo, HasOneBelow, HasTwoBelow, HasPlacesOf, IsSurvey};
ghost use Rattle.graph_reduce.specs.UpToDate.{IsUpToDate};
ghost use Rattle.graph_reduce.specs.Clear.{IsReached, LeadsTo, IsTidy, IsTidyBut, AreAlike};

use crate::due::Due;
use crate::ends::{have_same_ends, other_end};
use crate::node_edges::NodeEdges;
use crate::places::next_end;
use crate::survey::Survey;
use crate::tidy::drop_longer;
use crate::work::Work;
use net_graph::Edge;
use std::alloc::AllocError;
use std::collections::BTreeSet;

/// Drops a node that is no terminal, with its edge where it has one.
pub(crate) fn drop_leaf(work: &mut Work, v: u32, edges: NodeEdges)
    requires applies { Applies work.old step.Leaf v }
    requires seen { IsSeenTo work.old v (length work.old.edges) edges }
    ensures { Takes step.Leaf v work.old work.new }
{
    work.drop_node(v);
    if let NodeEdges::OneEdge(place) = edges {
        work.drop_edge(place);
    }
}

/// Joins the two edges of a node that is no terminal, and drops the node. An `Err` is want of memory.
pub(crate) fn join_edges(
    work: &mut Work,
    v: u32,
    earlier: u32,
    later: u32,
) -> Result<(), AllocError>
    requires reached { IsReached work.old }
    requires node { HasNode work.old v }
    requires free { ¬ IsTerminal work.old v }
    requires edges { HasTwoBelow work.old v (length work.old.edges) earlier later }
    ensures { OnOk result
        ((joins : JoinsEdges v work.old work.new) × (joins.earlier ≡ earlier) × (joins.later ≡ later)) }
{
    let x = work.edge_at(earlier);
    let y = work.edge_at(later);
    let edge = Edge {
        a: other_end(x, v),
        b: other_end(y, v),
        length: x.length + y.length,
    };
    work.join_edges(earlier, later, edge)?;
    work.drop_node(v);
    Ok(())
}

/// Forces the edge of a terminal, and drops the terminal.
pub(crate) fn force_edge(work: &mut Work, v: u32, place: u32)
    requires reached { IsReached work.old }
    requires terminal { IsTerminal work.old v }
    requires edge { HasOneBelow work.old v (length work.old.edges) place }
    ensures { ForcesEdge v work.old work.new }
{
    let x = work.edge_at(place);
    let other = other_end(x, v);
    work.force_edge(place, x.length);
    work.move_terminal(v, other);
    work.drop_node(v);
}

/// Drops the longer of the edge at the place and another with the same ends. An `Err` is want of memory.
pub(crate) fn drop_alike(
    work: &mut Work,
    survey: &mut Survey,
    due: &mut Due,
    place: u32,
) -> Result<(), AllocError>
    requires edge { (x : Bundle) × HasEdge work.old place x }
    requires tidy { IsTidyBut work.old place }
    requires numbered { IsNumbered work.old }
    requires index { IsUpToDate work.old survey.old due.old }
    ensures leads { OnOk result (LeadsTo work.old work.new) }
    ensures tidy { OnOk result (IsTidy work.new) }
    ensures index { OnOk result (IsUpToDate work.new survey.new due.new) }
{
    if let Some(other) = alike(work, survey, place) {
        due.add_ends_of(work, NodeEdges::OneEdge(place))?;
        if other < place {
            drop_longer(work, other, place);
        } else {
            drop_longer(work, place, other);
        }
    }
    Ok(())
}

// A place whose edge has the same ends as that at the place.
fn alike(work: &Work, survey: &mut Survey, place: u32) -> Option<u32>
    requires edge { (x : Bundle) × HasEdge work.now place x }
    requires numbered { IsNumbered work.now }
    requires survey { IsSurvey work.now survey.old.places.items survey.old.terminals }
    ensures survey { IsSurvey work.now survey.new.places.items survey.new.terminals }
    ensures alike { MatchOption result ((n : ℕ) → ¬ AreAlike work.now place n) (AreAlike work.now place) }
{
    let edge = work.edge_at(place);
    let node = survey.less_listed(edge.a, edge.b);
    alike_at(work, &mut survey.places[node as usize], node, place)
}

// A place whose edge has the same ends as that at the place, of which the node is one.
fn alike_at(work: &Work, places: &mut BTreeSet<u32>, node: u32, place: u32) -> Option<u32>
    requires end { EndsIn work.now node place }
    requires places { HasPlacesOf work.now node places.old }
    ensures places { HasPlacesOf work.now node places.new }
    ensures alike { MatchOption result ((n : ℕ) → ¬ AreAlike work.now place n) (AreAlike work.now place) }
{
    let mut from = 0;
    while let Some(n) = next_end(work, places, node, from) {
        if is_alike(work, place, n) {
            return Some(n);
        }
        from = n + 1;
    }
    None
}

// Whether another place holds an edge with the same ends as that at the place.
fn is_alike(work: &Work, place: u32, n: u32) -> bool
    requires edge { (x : Bundle) × HasEdge work.now place x }
    requires other { n < length work.now.edges }
    ensures yes { OnTrue result (AreAlike work.now place n) }
    ensures no { OnFalse result (¬ AreAlike work.now place n) }
{
    n != place && holds_alike(work, n, work.edge_at(place))
}

// Whether the place holds an edge with the same ends.
fn holds_alike(work: &Work, n: u32, edge: Edge) -> bool
    requires { n < length work.now.edges }
    ensures yes { OnTrue result ((y : Bundle) × HasEdge work.now n y × HasEnds y.edge edge.a edge.b) }
    ensures no { OnFalse result ((y : Bundle) → HasEdge work.now n y → ¬ HasEnds y.edge edge.a edge.b) }
{
    match work.edge(n) {
        Some(other) => have_same_ends(edge, other),
        None => false,
    }
}
