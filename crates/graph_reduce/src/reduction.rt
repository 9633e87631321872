//! The reduction of a graph.

ghost use Rattle.std.specs.Prelude.{◌≡◌, ◌<◌, ◌≤◌, length, slice_get, All, IfOk, Some};
ghost use Rattle.net_graph.specs.Graph.{IsGraph, graph_of};
ghost use Rattle.net_graph.specs.Members.{members_of};
ghost use Rattle.graph_reduce.specs.Step.{IsReducedTo};
ghost use Rattle.graph_reduce.specs.Reduction.{IsReductionOf, lift_of, reduction_of};
ghost use Rattle.graph_reduce.specs.OneReduction.{IsOnlyReductionOf};
ghost use Rattle.graph_reduce.specs.Fitness.{IsFitFor};
ghost use Rattle.graph_reduce.specs.Lifting.{KeepsNetworks};
ghost use Rattle.graph_reduce.specs.Left.{numbers_of};

use crate::left::{Numbering, originals_left, renumbered_edges, renumbered_terminals};
use crate::originals::Originals;
use crate::steps::reduced_state;
use crate::work::Work;
use net_graph::{EdgeList, EdgeSet, GraphFault, NetGraph, VertexList};
use std::alloc::{AllocError, Global};
use std::marker::Model;

/// A smaller graph whose networks lift: what is left of a graph after its reduction.
#[derive(Drop)]
pub struct Reduced {
    graph: NetGraph,
    origins: Vec<u32>,
    // For each edge of the reduced graph what it stands for.
    originals: Vec<Originals>,
    forced: EdgeSet,
    offset: u64,
}

impl Model for Reduced {
    ghost use Rattle.graph_reduce.specs.Reduction.{Reduction};
    ghost use Rattle.graph_reduce.specs.Left.{IsLaidOut};

    ghost Value = { Reduction };

    ghost view = { λ r. record {
      graph = r.graph;
      origins = r.origins.items;
      originals = r.originals.items;
      forced = r.forced;
      offset = r.offset;
    } };

    ghost invariant = { λ r. IsLaidOut (record {
      graph = r.graph;
      origins = r.origins.items;
      originals = r.originals.items;
      forced = r.forced;
      offset = r.offset;
    }) };
}

/// The reduction of the graph: the rules are taken until none applies, each time the first one that does at its lowest
/// place or node, and what is left gets new numbers. It is the only reduction of the graph. An `Err` is want of memory.
pub fn reduce(alloc: Global, g: &NetGraph) -> Result<Reduced, AllocError>
    ensures reduction { IfOk result (IsReductionOf g.now) }
    ensures only { IfOk result (IsOnlyReductionOf g.now) }
    ensures fits { IfOk result (IsFitFor g.now) }
    ensures networks { IfOk result (KeepsNetworks g.now) }
{
    let work = reduced_state(alloc, g)?;
    let numbering = Numbering::of(alloc, work.nodes())?;
    let graph = graph_left(alloc, g, &work, &numbering)?;
    let (edges, forced, offset) = work.into_edges();
    Ok(Reduced {
        graph,
        origins: numbering.origins,
        originals: originals_left(alloc, edges)?,
        forced,
        offset,
    })
}

// The graph that is left, between new numbers. An `Err` is want of memory.
fn graph_left(
    alloc: Global,
    _g: &NetGraph,
    work: &Work,
    numbering: &Numbering,
) -> Result<NetGraph, AllocError>
    requires graph { IsGraph _g.now }
    requires reduced { IsReducedTo _g.now work.now }
    requires origins { numbering.now.origins.items ≡ members_of work.now.nodes }
    requires numbers { numbering.now.numbers.items ≡ numbers_of work.now.nodes }
    ensures { IfOk result (λ graph. graph ≡ (reduction_of work.now).graph) }
{
    let edges = renumbered_edges(alloc, work.edges(), &numbering.numbers)?;
    let terminals = renumbered_terminals(alloc, work.terminals(), &numbering.numbers)?;
    sound_graph(alloc, numbering.origins.len() as u32, edges, terminals)
}

impl Reduced {
    /// The reduced graph.
    pub fn graph(&self) -> &NetGraph
        ensures graph { result.now ≡ self.now.graph }
        ensures edges { length self.now.originals ≡ length self.now.graph.edges }
        ensures origins { length self.now.origins ≡ self.now.graph.vertices }
    {
        &self.graph
    }

    /// What the forced edges add to the length of each lifted network.
    pub fn offset(&self) -> u64
        ensures { result ≡ self.now.offset }
    {
        self.offset
    }

    /// The vertex of the original graph that a vertex of the reduced graph was.
    pub fn origin(&self, v: u32) -> u32
        requires { v < self.now.graph.vertices }
        ensures { slice_get self.now.origins v ≡ Some result }
    {
        self.origins[v as usize]
    }

    /// The vertices of the original graph that the vertices of the reduced graph were, ascending.
    pub fn origins(&self) -> &[u32]
        ensures origins { result.now ≡ self.now.origins }
        ensures below { All (λ v. v < 2500) result.now }
    {
        &self.origins
    }

    /// The forced edges.
    pub fn forced(&self) -> &EdgeSet
        ensures forced { result.now ≡ self.now.forced }
        ensures few { length result.now ≤ 4900 }
    {
        &self.forced
    }

    /// What an edge of the reduced graph stands for.
    pub fn originals(&self, n: u32) -> &Originals
        requires { n < length self.now.graph.edges }
        ensures set { slice_get self.now.originals n ≡ Some result.now }
        ensures few { length result.now ≤ 4900 }
    {
        &self.originals[n as usize]
    }

    /// What a set of the reduced graph's edges stands for, and the forced edges: a set of the original graph's edges.
    /// An `Err` is want of memory.
    pub fn lift(&self, _alloc: Global, set: &EdgeSet) -> Result<EdgeSet, AllocError>
        requires { length set.now ≡ length self.now.graph.edges }
        ensures { IfOk result (λ lifted. lifted ≡ lift_of self.now set.now) }
    {
        let mut lifted = self.forced.copy()?;
        for n in (0..set.len()).rev() {
            if set.has(n) {
                self.originals[n as usize].add_to(&mut lifted);
            }
        }
        Ok(lifted)
    }
}

// The graph of these parts, which have no fault. An `Err` is want of memory.
fn sound_graph(
    alloc: Global,
    vertices: u32,
    edges: EdgeList,
    terminals: VertexList,
) -> Result<NetGraph, AllocError>
    requires { IsGraph (graph_of vertices edges terminals) }
    ensures { IfOk result (λ g. g ≡ graph_of vertices edges terminals) }
{
    match NetGraph::new(alloc, vertices, edges, terminals) {
        Ok(graph) => Ok(graph),
        Err(GraphFault::Memory(error)) => Err(error),
        Err(_) => unreachable!(),
    }
}
