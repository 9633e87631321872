//! Searches that take no memory, in room that is lent.

ghost use Rattle.std.specs.Prelude.{◌≡◌, ◌*◌, ◌<◌, ◌≤◌, ◌↔◌, ◌⊎◌, ◌++◌, ◌∷◌, [], ℕ, true, length, take, Contains};
ghost use Rattle.net_graph.specs.Flags.{has};
ghost use Rattle.net_graph.specs.Found.{flags_of_marks, AreFoundInRoom};
ghost use Rattle.net_graph.specs.Search.{OpenStep, Leads, Extends};

use crate::graph::NetGraph;
use crate::reaching::Passage;

// Searches over open arcs from `start`. In the end the marks are 1 at the vertices that walks over open arcs lead to,
// and at no others. The queue is room for the search. What stood in both doesn't matter.
pub(crate) fn mark_reached<P: Passage>(
    graph: &NetGraph,
    start: u32,
    passage: &P,
    marks: &mut [u64],
    queue: &mut [u64],
)
    requires few { graph.now.vertices ≤ 2500 }
    requires start { start < graph.now.vertices }
    requires edges { P.edges passage.now ≡ length graph.now.edges }
    requires marks { length marks.old ≡ graph.now.vertices }
    requires queue { length queue.old ≡ graph.now.vertices }
    ensures { (v : ℕ) → (has (flags_of_marks marks.new) v ≡ true) ↔
        Leads (OpenStep graph.now.edges (P.opens passage.now)) start v }
{
    marks.fill(0);
    let mut count = add_vertex(marks, queue, 0, start);
    let mut place = 0;
    while place < count {
        let vertex = queue[place] as u32;
        count = add_next(graph, vertex, passage, marks, queue, count);
        place += 1;
    }
}

// Adds the vertices that one open arc leads to from a vertex. The result is how many were found then.
fn add_next<P: Passage>(
    graph: &NetGraph,
    vertex: u32,
    passage: &P,
    marks: &mut [u64],
    queue: &mut [u64],
    mut count: usize,
) -> usize
    requires vertex { vertex < graph.now.vertices }
    requires edges { P.edges passage.now ≡ length graph.now.edges }
    requires marks { length marks.old ≡ graph.now.vertices }
    requires found { AreFoundInRoom marks.old queue.old count }
    ensures found { AreFoundInRoom marks.new queue.new result }
    ensures more { Extends (λ w. (w < graph.now.vertices) ×
        OpenStep graph.now.edges (P.opens passage.now) vertex w) (take count queue.old) (take result queue.new) }
    ensures every { (w : ℕ) → OpenStep graph.now.edges (P.opens passage.now) vertex w →
        Contains (take result queue.new) w }
{
    for arc in graph.arcs_from(vertex) {
        if passage.is_open(arc.number) {
            count = add_vertex(marks, queue, count, arc.to);
        }
    }
    count
}

// Adds a vertex, unless it was found before. The result is how many were found then.
fn add_vertex(marks: &mut [u64], queue: &mut [u64], count: usize, vertex: u32) -> usize
    requires vertex { vertex < length marks.old }
    requires found { AreFoundInRoom marks.old queue.old count }
    ensures found { AreFoundInRoom marks.new queue.new result }
    ensures order { (take result queue.new ≡ take count queue.old ++ vertex ∷ []) ⊎
        (Contains (take count queue.old) vertex × (take result queue.new ≡ take count queue.old)) }
{
    if marks[vertex as usize] == 1 {
        return count;
    }
    marks[vertex as usize] = 1;
    queue[count] = u64::from(vertex);
    count + 1
}
