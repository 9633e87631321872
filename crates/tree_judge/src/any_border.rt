//! The border of a set in any graph, of which nothing is known of how its edges are numbered.

ghost use Rattle.std.specs.Prelude.{◌≡◌, ◌+◌, ◌≤◌, ◌↔◌, ◌⊎◌, true, length, IsTrue};
ghost use Rattle.net_graph.specs.Packing.{enters};
ghost use Rattle.tree_judge.specs.Borders.{MarksParted};

use crate::border::{Border, Run};
use net_graph::{Edge, NetGraph, VertexSet, enters};

/// The edges of any graph, in runs of 64. Each edge of a run is looked at.
#[derive(Clone, Copy)]
pub struct AnyBorder;

impl Border for AnyBorder {
    ghost use Rattle.std.specs.Prelude.{◌+◌, ◌*◌, ◌/◌, min, length};

    ghost is_of = { λ g border. Unit {0} };

    ghost count = { λ g border. (length g.edges + 63) / 64 };

    ghost before = { λ g border place. min (64 * place) (length g.edges) };

    fn runs(&self, g: &NetGraph) -> u32 {
        (g.edge_count() + 63) / 64
    }

    fn run(&self, g: &NetGraph, place: u32, members: &VertexSet) -> Run {
        let edges = g.edge_count();
        prove!(edges <= 4900);
        let edge = 64 * place;
        let count = (edges - edge).min(64);
        Run {
            edge,
            marks: marks_from(g, edge, count, members),
        }
    }
}

// Which of so many edges from one on the set parts: the first at the lowest bit.
fn marks_from(g: &NetGraph, edge: u32, count: u32, members: &VertexSet) -> u64
    requires few { count ≤ 64 }
    requires within { edge + count ≤ length g.now.edges }
    requires members { length members.now ≡ g.now.vertices }
    ensures { MarksParted g.now members.now result edge (edge + count) }
{
    let edges = g.edge_count();
    prove!(edges <= 4900);
    // The edges from n on are marked.
    let mut n = edge + count;
    let mut marks = 0;
    while n > edge {
        n -= 1;
        marks = 2 * marks + u64::from(parts(members, &g.edge(n)));
    }
    marks
}

// Whether an arc of the edge enters the set.
fn parts(members: &VertexSet, e: &Edge) -> bool
    ensures { IsTrue result ↔ ((enters members.now e.now.a e.now.b ≡ true)
        ⊎ (enters members.now e.now.b e.now.a ≡ true)) }
{
    enters(members, e.a, e.b) || enters(members, e.b, e.a)
}
