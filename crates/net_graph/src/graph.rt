//! Graphs with edge lengths and terminals.

ghost use Rattle.std.specs.Prelude.{◌≡◌, ◌*◌, ◌<◌, ◌≤◌, length, All, sum_by, slice_get, Some, IfOk, IfErr, IfNone, IfSome};
ghost use Rattle.net_graph.specs.Graph.{IsGraph, HasEndsBelow, graph_of, total_of, root_of};
ghost use Rattle.net_graph.specs.Arcs.{IsArcOf, AreArcsFrom};
ghost use Rattle.net_graph.specs.Fault.{IsFirst, IsFirstFault};

use crate::arcs::{Arc, ArcTable};
use crate::edge::{Edge, EdgeList, VertexList};
use std::alloc::{AllocError, Global};
use std::marker::Model;
use thiserror::Error;

/// What is wrong with the parts of a graph. Faults are judged in this order, and the first is named.
#[derive(Debug, Drop, Error)]
pub enum GraphFault {
    /// The first edge with an end that is no vertex, by its number.
    #[error("edge {0} has an end that is no vertex")]
    EndOutOfRange(u32),
    /// The first edge of length 0, by its number.
    #[error("edge {0} has no length")]
    ZeroLength(u32),
    /// The list of terminals is empty.
    #[error("there is no terminal")]
    NoTerminal,
    /// The first place of the list of terminals that holds no vertex.
    #[error("terminal {0} is no vertex")]
    TerminalOutOfRange(usize),
    /// The lengths sum to more than 2^63 - 1.
    #[error("the lengths sum to {total}, which is above 2^63 - 1")]
    TooLong {
        /// The sum of the lengths.
        total: u128,
    },
    /// Want of memory.
    #[error("there is not enough memory for the graph")]
    Memory(AllocError),
}

/// A graph with edge lengths and terminals. Its vertices are the numbers below a bound. Edges and terminals are
/// known by their places. The first terminal is the root.
#[derive(Drop)]
pub struct NetGraph {
    vertices: u32,
    edges: EdgeList,
    terminals: VertexList,
    total: u64,
    arcs: ArcTable,
}

impl Model for NetGraph {
    ghost use Rattle.std.specs.Prelude.{◌≡◌};
    ghost use Rattle.net_graph.specs.Graph.{Graph, IsGraph, graph_of, total_of};
    ghost use Rattle.net_graph.specs.Arcs.{AreArcsOfGraph};

    ghost Value = { Graph };

    ghost view = { λ g. graph_of g.vertices g.edges g.terminals };

    ghost invariant = { λ g. IsGraph (graph_of g.vertices g.edges g.terminals) ×
        (g.total ≡ total_of (graph_of g.vertices g.edges g.terminals)) ×
        AreArcsOfGraph (graph_of g.vertices g.edges g.terminals) g.arcs };
}

impl NetGraph {
    /// The graph of these parts. An `Err` names the first fault of the parts, or is want of memory.
    pub fn new(
        alloc: Global,
        vertices: u32,
        edges: EdgeList,
        terminals: VertexList,
    ) -> Result<NetGraph, GraphFault>
        requires few_vertices { vertices ≤ 2500 }
        requires few_edges { length edges ≤ 4900 }
        ensures ok { IfOk result (λ g. g ≡ graph_of vertices edges terminals) }
        ensures graph { IfOk result (λ g. IsGraph g) }
        ensures fault { IfErr result (IsFirstFault (graph_of vertices edges terminals)) }
    {
        let total = judged_total(vertices, edges.as_slice(), terminals.as_slice())?;
        let arcs = ArcTable::of(alloc, vertices, edges.as_slice()).map_err(GraphFault::Memory)?;
        Ok(NetGraph {
            vertices,
            edges,
            terminals,
            total,
            arcs,
        })
    }

    /// How many vertices there are, at most 2,500.
    pub fn vertex_count(&self) -> u32
        ensures count { result ≡ self.now.vertices }
        ensures graph { IsGraph self.now }
    {
        self.vertices
    }

    /// How many edges there are, at most 4,900.
    pub fn edge_count(&self) -> u32
        ensures count { result ≡ length self.now.edges }
        ensures graph { IsGraph self.now }
    {
        self.edges.len() as u32
    }

    /// The edge of a number, counted from 0.
    pub fn edge(&self, e: u32) -> Edge
        requires { e < length self.now.edges }
        ensures edge { slice_get self.now.edges e ≡ Some result }
        ensures ends { HasEndsBelow self.now.vertices result }
    {
        *self.edges.get(e as usize)
    }

    /// All edges, by number.
    pub fn edges(&self) -> &[Edge]
        ensures edges { result.now ≡ self.now.edges }
        ensures graph { IsGraph self.now }
    {
        self.edges.as_slice()
    }

    /// How many places the list of terminals has, at least 1.
    pub fn terminal_count(&self) -> usize
        ensures count { result ≡ length self.now.terminals }
        ensures graph { IsGraph self.now }
    {
        self.terminals.len()
    }

    /// The vertex at a place of the list of terminals, counted from 0.
    pub fn terminal(&self, place: usize) -> u32
        requires { place < length self.now.terminals }
        ensures vertex { slice_get self.now.terminals place ≡ Some result }
        ensures below { result < self.now.vertices }
    {
        *self.terminals.get(place)
    }

    /// All terminals, in the order of their list.
    pub fn terminals(&self) -> &[u32]
        ensures terminals { result.now ≡ self.now.terminals }
        ensures graph { IsGraph self.now }
    {
        self.terminals.as_slice()
    }

    /// The root, which is the first terminal.
    pub fn root(&self) -> u32
        ensures root { result ≡ root_of self.now }
        ensures graph { IsGraph self.now }
    {
        *self.terminals.get(0)
    }

    /// The arcs that lead from a vertex, in no order.
    pub fn arcs_from(&self, vertex: u32) -> &[Arc]
        requires { vertex < self.now.vertices }
        ensures arcs { AreArcsFrom (IsArcOf self.now.edges) vertex result.now }
        ensures bounds { All (λ arc. (arc.to < self.now.vertices) ×
            (arc.number < 2 * length self.now.edges)) result.now }
    {
        self.arcs.leaving(vertex)
    }

    /// The sum of all edge lengths, at most 2^63 - 1.
    pub fn total(&self) -> u64
        ensures total { result ≡ total_of self.now }
        ensures graph { IsGraph self.now }
    {
        self.total
    }
}

// The sum of the lengths, where the parts have no fault.
fn judged_total(vertices: u32, edges: &[Edge], terminals: &[u32]) -> Result<u64, GraphFault>
    requires few_vertices { vertices ≤ 2500 }
    requires few_edges { length edges.now ≤ 4900 }
    ensures ok { IfOk result (λ total. IsGraph (graph_of vertices edges.now terminals.now) ×
        (total ≡ total_of (graph_of vertices edges.now terminals.now))) }
    ensures fault { IfErr result (IsFirstFault (graph_of vertices edges.now terminals.now)) }
{
    if let Some(e) = first_loose_end(edges, vertices) {
        return Err(GraphFault::EndOutOfRange(e));
    }
    if let Some(e) = first_zero_length(edges) {
        return Err(GraphFault::ZeroLength(e));
    }
    if terminals.is_empty() {
        return Err(GraphFault::NoTerminal);
    }
    if let Some(place) = first_loose_terminal(terminals, vertices) {
        return Err(GraphFault::TerminalOutOfRange(place));
    }
    let total = total_length(edges);
    u64::try_from(total)
        .ok()
        .filter(|total| *total <= i64::MAX as u64)
        .ok_or(GraphFault::TooLong { total })
}

// The first edge with an end that is no vertex.
fn first_loose_end(edges: &[Edge], vertices: u32) -> Option<u32>
    requires { length edges.now ≤ 4900 }
    ensures none { IfNone result (All (HasEndsBelow vertices) edges.now) }
    ensures first { IfSome result (λ n. IsFirst (λ e. ¬ HasEndsBelow vertices e) edges.now n) }
{
    for (n, e) in edges.iter().enumerate() {
        if e.a >= vertices || e.b >= vertices {
            return Some(n as u32);
        }
    }
    None
}

// The first edge of length 0.
fn first_zero_length(edges: &[Edge]) -> Option<u32>
    requires { length edges.now ≤ 4900 }
    ensures none { IfNone result (All (λ e. 0 < e.length) edges.now) }
    ensures first { IfSome result (λ n. IsFirst (λ e. e.length ≡ 0) edges.now n) }
{
    for (n, e) in edges.iter().enumerate() {
        if e.length == 0 {
            return Some(n as u32);
        }
    }
    None
}

// The first place that holds no vertex.
fn first_loose_terminal(terminals: &[u32], vertices: u32) -> Option<usize>
    ensures none { IfNone result (All (λ t. t < vertices) terminals.now) }
    ensures first { IfSome result (λ n. IsFirst (λ t. vertices ≤ t) terminals.now n) }
{
    for (place, t) in terminals.iter().enumerate() {
        if *t >= vertices {
            return Some(place);
        }
    }
    None
}

// The sum of the lengths.
fn total_length(edges: &[Edge]) -> u128
    requires { length edges.now ≤ 4900 }
    ensures { result ≡ sum_by (λ e. e.length) edges.now }
{
    edges.iter().map(|e| u128::from(e.length)).sum()
}
