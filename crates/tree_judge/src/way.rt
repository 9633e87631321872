//! The way of splits to the node that is read, and what is decided there.

ghost use Rattle.std.specs.Prelude.{◌≡◌, ◌<◌, ◌≤◌, false, [], ◌∷◌, length, replicate, slice_index_or, drop, IfOk};
ghost use Rattle.net_graph.specs.Decision.{decided_of, nothing_decided};
ghost use Rattle.net_graph.specs.Packing.{inside_length};
ghost use Rattle.cert_tree.specs.Decisions.{IsUndecidedSplit, outside_of};
ghost use Rattle.cert_tree.specs.Way.{after_turn};
ghost use Rattle.tree_judge.specs.Path.{decisions_behind};
ghost use Rattle.tree_judge.specs.Ways.{HasState, HasStates, StandsOnWay, undecided_of};

use crate::path::Path;
use crate::states::States;
use cert_tree::{SplitOn, Turn};
use net_graph::{EdgeState, NetGraph, VertexState};
use std::alloc::{AllocError, Global};

/// The way of splits to the node that is read.
#[derive(Drop)]
pub(crate) struct Way {
    /// What is decided at the node.
    pub(crate) decided: States,
    /// The splits from the top to the node.
    pub(crate) path: Path,
}

impl Way {
    /// The way to the top of a tree, where nothing is decided of so many edges and vertices. An `Err` is want of
    /// memory.
    pub(crate) fn new(alloc: Global, edges: u32, vertices: u32) -> Result<Way, AllocError>
        ensures decided { IfOk result (λ way. way.decided
            ≡ decided_of (replicate edges EdgeState.Undecided) (replicate vertices VertexState.Undecided)) }
        ensures path { IfOk result (λ way. way.path ≡ []) }
    {
        Ok(Way {
            decided: States::new(alloc, edges, vertices)?,
            path: Path::new(alloc)?,
        })
    }
}

/// Goes down to the outside part of a split on what is undecided.
pub(crate) fn go_outside(way: &mut Way, _g: &NetGraph, on: SplitOn)
    requires way { StandsOnWay _g.now way.old }
    requires undecided { IsUndecidedSplit _g.now way.old.decided on }
    requires few { length way.old.path < 255 }
    ensures way { StandsOnWay _g.now way.new }
    ensures decided { way.new.decided ≡ outside_of way.old.decided on }
    ensures path { way.new.path ≡ record { on = on; inside = false } ∷ way.old.path }
{
    go_down(way, Turn { on, inside: false });
}

/// Goes on to the next node that is due: to the inside part of the lowest split in whose outside part it is. Behind the
/// last node nothing is decided.
pub(crate) fn go_on(way: &mut Way, _g: &NetGraph)
    requires way { StandsOnWay _g.now way.old }
    requires few { length way.old.path ≤ 255 }
    ensures way { StandsOnWay _g.now way.new }
    ensures decision { way.new.decided
        ≡ slice_index_or (decisions_behind (nothing_decided _g.now) way.old.path) 0 (nothing_decided _g.now) }
    ensures behind { decisions_behind (nothing_decided _g.now) way.new.path
        ≡ drop 1 (decisions_behind (nothing_decided _g.now) way.old.path) }
    ensures depth { length way.new.path ≤ length way.old.path }
{
    while let Some(turn) = way.path.lowest() {
        way.path.pop();
        if !turn.inside {
            go_down(
                way,
                Turn {
                    on: turn.on,
                    inside: true,
                },
            );
            return;
        }
        undecide(&mut way.decided, turn.on);
    }
}

// Goes down to a part of a split.
fn go_down(way: &mut Way, turn: Turn)
    requires state { HasState way.old.decided turn.on }
    requires few { length way.old.path < 255 }
    ensures { way.new ≡ record way.old { decided = after_turn way.old.decided turn; path = turn ∷ way.old.path } }
{
    decide(&mut way.decided, turn);
    way.path.push(turn);
}

// Decides what a split is on, as the part of it that a way goes on in.
fn decide(decided: &mut States, turn: Turn)
    requires { HasState decided.old turn.on }
    ensures { decided.new ≡ after_turn decided.old turn }
{
    match (turn.on, turn.inside) {
        (SplitOn::Edge(n), false) => decided.set_edge(n, EdgeState::Outside),
        (SplitOn::Edge(n), true) => decided.set_edge(n, EdgeState::Inside),
        (SplitOn::Vertex(v), false) => decided.set_vertex(v, VertexState::Missed),
        (SplitOn::Vertex(v), true) => decided.set_vertex(v, VertexState::Met),
    }
}

// What a split is on is undecided again.
fn undecide(decided: &mut States, on: SplitOn)
    requires { HasState decided.old on }
    ensures { decided.new ≡ undecided_of decided.old on }
{
    match on {
        SplitOn::Edge(n) => decided.set_edge(n, EdgeState::Undecided),
        SplitOn::Vertex(v) => decided.set_vertex(v, VertexState::Undecided),
    }
}

/// The sum of the lengths of the inside edges.
pub(crate) fn length_inside(decided: &States, g: &NetGraph) -> u64
    requires { HasStates g.now decided.now }
    ensures { result ≡ inside_length g.now.edges decided.now.edges }
{
    let mut sum = 0;
    for n in 0..g.edge_count() {
        if decided.is_inside(n) {
            sum += g.edge(n).length;
        }
    }
    sum
}
