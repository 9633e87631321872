//! Searches over the arcs that may be walked.

ghost use Rattle.std.specs.Prelude.{◌≡◌, ◌*◌, ◌<◌, ◌↔◌, ℕ, Bool, true, length, Contains, IfOk};
ghost use Rattle.net_graph.specs.Flags.{has};
ghost use Rattle.net_graph.specs.Arcs.{partner_of};
ghost use Rattle.net_graph.specs.Growth.{LeadsFromOne, IsGoneOver};
ghost use Rattle.net_graph.specs.Search.{OpenStep, Leads, Extends};

use crate::arcs::partner;
use crate::found::Found;
use crate::graph::NetGraph;
use crate::sets::VertexSet;
use std::alloc::{AllocError, Global};

/// Which arcs of a graph may be walked.
pub trait Passage {
    /// Whether the arc of a number may be walked.
    ghost opens: { Self → ℕ → Bool };

    /// How many edges the arcs are of.
    ghost edges: { Self → ℕ };

    /// Whether the arc of a number may be walked.
    fn is_open(&self, arc: u32) -> bool
        requires { arc < 2 * edges self.now }
        ensures { result ≡ opens self.now arc };
}

/// The vertices that walks over open arcs lead to from `start`, which is one of them. An `Err` is want of memory.
pub fn reached_from<P: Passage>(
    alloc: Global,
    graph: &NetGraph,
    start: u32,
    passage: &P,
) -> Result<VertexSet, AllocError>
    requires start { start < graph.now.vertices }
    requires edges { P.edges passage.now ≡ length graph.now.edges }
    ensures size { IfOk result (λ marks. length marks ≡ graph.now.vertices) }
    ensures reached { IfOk result (λ marks. (v : ℕ) → (has marks v ≡ true) ↔
        Leads (OpenStep graph.now.edges (P.opens passage.now)) start v) }
{
    let found = found_from(alloc, graph, start, passage)?;
    Ok(found.into_set())
}

// What a search over open arcs finds from `start`, which it finds first. An `Err` is want of memory.
pub(crate) fn found_from<P: Passage>(
    alloc: Global,
    graph: &NetGraph,
    start: u32,
    passage: &P,
) -> Result<Found, AllocError>
    requires start { start < graph.now.vertices }
    requires edges { P.edges passage.now ≡ length graph.now.edges }
    ensures size { IfOk result (λ found. found.size ≡ graph.now.vertices) }
    ensures found { IfOk result (λ found. (v : ℕ) → Contains found.order v ↔
        Leads (OpenStep graph.now.edges (P.opens passage.now)) start v) }
{
    let mut found = Found::nothing(alloc, graph.vertex_count())?;
    found.add(start);
    search_on(graph, 0, passage, &mut found);
    Ok(found)
}

// Goes on with a search over open arcs, in which the vertices before the place were gone over.
pub(crate) fn search_on<P: Passage>(
    graph: &NetGraph,
    mut place: usize,
    passage: &P,
    found: &mut Found,
)
    requires size { found.old.size ≡ graph.now.vertices }
    requires edges { P.edges passage.now ≡ length graph.now.edges }
    requires gone_over { IsGoneOver graph.now.vertices
        (OpenStep graph.now.edges (P.opens passage.now)) place found.old.order }
    ensures size { found.new.size ≡ found.old.size }
    ensures found { (v : ℕ) → Contains found.new.order v ↔
        LeadsFromOne (OpenStep graph.now.edges (P.opens passage.now)) found.old.order v }
{
    while place < found.len() {
        add_next(graph, found.get(place), passage, found);
        place += 1;
    }
}

// Each arc may be walked where the other arc of its edge may, so that a search goes against the arcs' direction.
#[derive(Drop)]
pub(crate) struct Backward<'a, P> {
    pub(crate) passage: &'a P,
}

impl<'a, P: Passage> Passage for Backward<'a, P> {
    ghost opens = { λ b arc. P.opens b.passage.now (partner_of arc) };

    ghost edges = { λ b. P.edges b.passage.now };

    fn is_open(&self, arc: u32) -> bool {
        self.passage.is_open(partner(arc))
    }
}

// Adds the vertices that one open arc leads to from a vertex.
fn add_next<P: Passage>(graph: &NetGraph, vertex: u32, passage: &P, found: &mut Found)
    requires vertex { vertex < graph.now.vertices }
    requires edges { P.edges passage.now ≡ length graph.now.edges }
    requires size { found.old.size ≡ graph.now.vertices }
    ensures size { found.new.size ≡ found.old.size }
    ensures more { Extends (λ w. (w < graph.now.vertices) ×
        OpenStep graph.now.edges (P.opens passage.now) vertex w) found.old.order found.new.order }
    ensures every { (w : ℕ) → OpenStep graph.now.edges (P.opens passage.now) vertex w → Contains found.new.order w }
{
    for arc in graph.arcs_from(vertex) {
        if passage.is_open(arc.number) {
            found.add(arc.to);
        }
    }
}
