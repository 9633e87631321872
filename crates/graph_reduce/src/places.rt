//! The places of a node's edges.

ghost use Rattle.std.specs.Prelude.{◌≡◌, ℕ, ◌<◌, ◌≤◌, ◌⊎◌, length, MatchOption, IfSome};
ghost use Rattle.std.specs.Bool.{OnTrue, OnFalse};
ghost use Rattle.graph_reduce.specs.State.{EndsIn};
ghost use Rattle.graph_reduce.specs.Survey.{HasPlacesOf, IsNextEnd, IsSeenTo};

use crate::node_edges::NodeEdges;
use crate::number_sets::{next_from, remove};
use crate::work::Work;
use std::collections::BTreeSet;

/// The edges of a node, all of whose places are in the set.
pub(crate) fn edges_at(work: &Work, places: &mut BTreeSet<u32>, v: u32) -> NodeEdges
    requires { HasPlacesOf work.now v places.old }
    ensures places { HasPlacesOf work.now v places.new }
    ensures seen { IsSeenTo work.now v (length work.now.edges) result }
{
    let Some(one) = next_end(work, places, v, 0) else {
        return NodeEdges::NoEdge;
    };
    let Some(two) = next_end(work, places, v, one + 1) else {
        return NodeEdges::OneEdge(one);
    };
    match next_end(work, places, v, two + 1) {
        Some(_) => NodeEdges::More,
        None => NodeEdges::TwoEdges(one, two),
    }
}

/// The lowest place from a number on that holds an edge of the node, all of whose places are in the set. Others that
/// are met are taken out.
pub(crate) fn next_end(work: &Work, places: &mut BTreeSet<u32>, v: u32, from: u32) -> Option<u32>
    requires { HasPlacesOf work.now v places.old }
    ensures places { HasPlacesOf work.now v places.new }
    ensures next { MatchOption result ((n : ℕ) → from ≤ n → ¬ EndsIn work.now v n) (IsNextEnd work.now v from) }
    ensures below { IfSome result (λ n. n < 4900) }
{
    while let Some(place) = next_from(places, from) {
        if ends_in(work, v, place) {
            return Some(place);
        }
        remove(places, place);
    }
    None
}

// Whether the state has such a place, and it holds an edge of the node.
fn ends_in(work: &Work, v: u32, place: u32) -> bool
    ensures yes { OnTrue result (EndsIn work.now v place) }
    ensures no { OnFalse result (¬ EndsIn work.now v place) }
    ensures below { OnTrue result (place < 4900) }
{
    place < work.place_count() && holds_end(work, v, place)
}

// Whether the place holds an edge of the node.
fn holds_end(work: &Work, v: u32, place: u32) -> bool
    requires { place < length work.now.edges }
    ensures yes { OnTrue result (EndsIn work.now v place) }
    ensures no { OnFalse result (¬ EndsIn work.now v place) }
{
    match work.edge(place) {
        Some(edge) => edge.a == v || edge.b == v,
        None => false,
    }
}
