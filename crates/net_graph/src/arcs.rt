//! Arcs, which are the two ways along an edge.

ghost use Rattle.std.specs.Prelude.{◌≡◌, ◌+◌, ◌*◌, ◌<◌, ◌≤◌, length, Contains, IfOk};
ghost use Rattle.std.specs.List.Sorted.{IsNonDecreasingBy};
ghost use Rattle.net_graph.specs.Arcs.{partner_of, AreArcsOf, AreArcsFrom, IsSplitAt, IsSplitBy};

use crate::edge::Edge;
use std::alloc::{AllocError, Global};
use std::marker::Model;

/// A way along an edge from one of its ends to the other. Edge n has the arcs 2n, from its end a to its end b, and
/// 2n + 1, from b to a.
#[derive(Clone, Copy)]
pub struct Arc {
    /// Its number among the arcs, below twice the number of edges.
    pub number: u32,
    /// The vertex that it leads from.
    pub from: u32,
    /// The vertex that it leads to.
    pub to: u32,
}

/// The number of the other arc of an arc's edge, which leads the other way.
pub fn partner(arc: u32) -> u32
    ensures { result ≡ partner_of arc }
{
    if arc % 2 == 0 { arc + 1 } else { arc - 1 }
}

/// All arcs of a graph, by the vertex that they lead from.
#[derive(Drop)]
pub struct ArcTable {
    // In the order of the vertices that they lead from.
    arcs: Vec<Arc>,
    // For each vertex, and one past the last, how many arcs lead from lesser ones.
    starts: Vec<u32>,
}

impl Model for ArcTable {
    ghost use Rattle.std.specs.Prelude.{◌-◌, length};
    ghost use Rattle.net_graph.specs.Arcs.{Arcs, IsSplitBy};

    ghost Value = { Arcs };

    ghost view = { λ t. record { vertices = length t.starts.items - 1; all = t.arcs.items } };

    ghost invariant = { λ t. IsSplitBy t.arcs.items t.starts.items };
}

impl ArcTable {
    /// The arcs of these edges, of a graph with so many vertices. An `Err` is want of memory.
    pub fn of(alloc: Global, vertices: u32, edges: &[Edge]) -> Result<ArcTable, AllocError>
        requires few_vertices { vertices ≤ 2500 }
        requires few_edges { length edges.now ≤ 4900 }
        ensures vertices { IfOk result (λ t. t.vertices ≡ vertices) }
        ensures arcs { IfOk result (λ t. AreArcsOf edges.now t.all) }
    {
        let mut arcs = both_ways(alloc, edges)?;
        arcs.sort_unstable_by_key(|arc| arc.from);
        let starts = starts_of(alloc, vertices, &arcs)?;
        Ok(ArcTable { arcs, starts })
    }

    /// The arcs that lead from a vertex, in no order.
    pub fn leaving(&self, vertex: u32) -> &[Arc]
        requires { vertex < self.now.vertices }
        ensures { AreArcsFrom (Contains self.now.all) vertex result.now }
    {
        let start = self.starts[vertex as usize] as usize;
        let end = self.starts[vertex as usize + 1] as usize;
        &self.arcs[start..end]
    }
}

// Both arcs of each edge.
fn both_ways(alloc: Global, edges: &[Edge]) -> Result<Vec<Arc>, AllocError>
    requires { length edges.now ≤ 4900 }
    ensures arcs { IfOk result (λ arcs. AreArcsOf edges.now arcs.items) }
    ensures count { IfOk result (λ arcs. length arcs.items ≡ 2 * length edges.now) }
{
    let mut arcs = Vec::with_capacity(alloc, 2 * edges.len())?;
    for (n, e) in edges.iter().enumerate() {
        let number = 2 * n as u32;
        arcs.push_reserved(Arc {
            number,
            from: e.a,
            to: e.b,
        });
        arcs.push_reserved(Arc {
            number: number + 1,
            from: e.b,
            to: e.a,
        });
    }
    Ok(arcs)
}

// Where the arcs that lead from each vertex start, and one place more.
fn starts_of(alloc: Global, vertices: u32, arcs: &[Arc]) -> Result<Vec<u32>, AllocError>
    requires few_vertices { vertices ≤ 2500 }
    requires few_arcs { length arcs.now ≤ 9800 }
    requires sorted { IsNonDecreasingBy (λ arc. arc.from) arcs.now }
    ensures split { IfOk result (λ starts. IsSplitBy arcs.now starts.items) }
    ensures count { IfOk result (λ starts. length starts.items ≡ vertices + 1) }
{
    let mut starts = Vec::with_capacity(alloc, vertices as usize + 1)?;
    for v in 0..vertices + 1 {
        starts.push_reserved(start_of(arcs, v));
    }
    Ok(starts)
}

// The place of the first arc that leads from the vertex or from a greater one.
fn start_of(arcs: &[Arc], vertex: u32) -> u32
    requires few_arcs { length arcs.now ≤ 9800 }
    requires sorted { IsNonDecreasingBy (λ arc. arc.from) arcs.now }
    ensures { IsSplitAt arcs.now vertex result }
{
    arcs.partition_point(|arc| arc.from < vertex) as u32
}
