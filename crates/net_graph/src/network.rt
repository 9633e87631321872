//! Whether an edge set joins a graph's terminals.

ghost use Rattle.std.specs.Prelude.{◌≡◌, ◌<◌, ◌≤◌, ◌↔◌, ℕ, true, length, All, IsTrue, IfOk, IfSome, IfNone};
ghost use Rattle.net_graph.specs.Flags.{has};
ghost use Rattle.net_graph.specs.Network.{Reaches, IsNetwork, IsFirstApart};
ghost use Rattle.net_graph.specs.Joins.{opens_edges};

use crate::graph::NetGraph;
use crate::lent_room::mark_reached;
use crate::reaching::{Passage, reached_from};
use crate::sets::{EdgeSet, VertexSet};
use std::alloc::{AllocError, Global};

/// Both arcs of each edge of the set may be walked.
impl Passage for EdgeSet {
    ghost opens = { opens_edges };

    ghost edges = { λ set. length set };

    fn is_open(&self, arc: u32) -> bool {
        self.has(arc / 2)
    }
}

/// Whether the set joins all terminals to the root. An `Err` is want of memory.
pub fn joins(alloc: Global, graph: &NetGraph, set: &EdgeSet) -> Result<bool, AllocError>
    requires { length set.now ≡ length graph.now.edges }
    ensures { IfOk result (λ yes. IsTrue yes ↔ IsNetwork graph.now set.now) }
{
    let marks = reached(alloc, graph, set)?;
    Ok(has_all(&marks, graph.terminals()))
}

/// The first terminal that the set doesn't join to the root, by its place in the list of terminals: None where it
/// joins all of them. An `Err` is want of memory.
pub fn first_apart(alloc: Global, g: &NetGraph, set: &EdgeSet) -> Result<Option<u8>, AllocError>
    requires size { length set.now ≡ length g.now.edges }
    requires few { length g.now.terminals ≤ 255 }
    ensures none { IfOk result (λ place. IfNone place (IsNetwork g.now set.now)) }
    ensures first { IfOk result (λ place. IfSome place (IsFirstApart g.now set.now)) }
{
    let marks = reached(alloc, g, set)?;
    for (place, terminal) in g.terminals().iter().enumerate() {
        if !marks.has(*terminal) {
            return Ok(Some(place as u8));
        }
    }
    Ok(None)
}

/// The first terminal that the set doesn't join to the root, as `first_apart` tells it. It takes no memory: it searches
/// in room that is lent, of at least a number for each vertex in both slices. What stands there doesn't matter, and
/// other numbers stand there afterwards.
pub fn first_apart_within(
    g: &NetGraph,
    set: &EdgeSet,
    marks: &mut [u64],
    queue: &mut [u64],
) -> Option<u8>
    requires size { length set.now ≡ length g.now.edges }
    requires few { length g.now.terminals ≤ 255 }
    requires marks { g.now.vertices ≤ length marks.old }
    requires queue { g.now.vertices ≤ length queue.old }
    ensures none { IfNone result (IsNetwork g.now set.now) }
    ensures first { IfSome result (IsFirstApart g.now set.now) }
{
    let size = g.vertex_count() as usize;
    let marks = &mut marks[..size];
    mark_reached(g, g.root(), set, marks, &mut queue[..size]);
    for (place, terminal) in g.terminals().iter().enumerate() {
        if marks[*terminal as usize] != 1 {
            return Some(place as u8);
        }
    }
    None
}

/// The vertices that the set's edges join to the root, with the root. An `Err` is want of memory.
pub fn reached(alloc: Global, graph: &NetGraph, set: &EdgeSet) -> Result<VertexSet, AllocError>
    requires { length set.now ≡ length graph.now.edges }
    ensures size { IfOk result (λ marks. length marks ≡ graph.now.vertices) }
    ensures reached { IfOk result (λ marks. (v : ℕ) → (has marks v ≡ true) ↔ Reaches graph.now set.now v) }
{
    reached_from(alloc, graph, graph.root(), set)
}

/// Whether each of the vertices is in the set.
pub fn has_all(set: &VertexSet, vertices: &[u32]) -> bool
    requires { All (λ v. v < length set.now) vertices.now }
    ensures { IsTrue result ↔ All (λ v. has set.now v ≡ true) vertices.now }
{
    vertices.iter().all(|v| set.has(*v))
}
