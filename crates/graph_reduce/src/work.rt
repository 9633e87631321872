//! The state of a reduction under way.

ghost use Rattle.std.specs.Prelude.{◌≡◌, ◌+◌, ◌<◌, ◌≤◌, ◌^◌, length, replicate, slice_get, slice_set, MatchOption, IfOk, OnOk, Some, None};
ghost use Rattle.graph_reduce.specs.State.{Bundle, HasEdge, start_of, union};
ghost use Rattle.graph_reduce.specs.Rules.{without_edge, without_edges, without_node, moved};
ghost use Rattle.graph_reduce.specs.Clear.{HasSetsOfOneSize};

use crate::numbers::move_all;
use crate::originals::Bundle;
use crate::start::{every_edge, every_node};
use net_graph::{Edge, EdgeSet, NetGraph, VertexSet, without_repeats};
use std::alloc::{AllocError, Global};
use std::marker::Model;

/// The state of a reduction. Its nodes and edges keep their numbers and places.
#[derive(Drop)]
pub(crate) struct Work {
    nodes: VertexSet,
    edges: Vec<Option<Bundle>>,
    terminals: Vec<u32>,
    forced: EdgeSet,
    offset: u64,
}

impl Model for Work {
    ghost use Rattle.std.specs.Prelude.{◌≤◌, length};
    ghost use Rattle.graph_reduce.specs.State.{State};

    ghost Value = { State };

    ghost view = { λ w. record {
      nodes = w.nodes;
      edges = w.edges.items;
      terminals = w.terminals.items;
      forced = w.forced;
      offset = w.offset;
    } };

    ghost invariant = { λ w. length w.edges.items ≤ 4900 };
}

impl Work {
    /// The first state of a graph's reduction. An `Err` is want of memory.
    pub fn of_graph(alloc: Global, g: &NetGraph) -> Result<Work, AllocError>
        ensures { IfOk result (λ w. w ≡ start_of g.now) }
    {
        Ok(Work {
            nodes: every_node(alloc, g.vertex_count())?,
            edges: every_edge(alloc, g.edges(), g.edge_count())?,
            terminals: without_repeats(alloc, g.terminals(), g.vertex_count())?,
            forced: EdgeSet::empty(alloc, g.edge_count())?,
            offset: 0,
        })
    }

    /// How many numbers nodes have.
    pub fn node_count(&self) -> u32
        ensures { result ≡ length self.now.nodes }
    {
        self.nodes.len()
    }

    /// How many places edges have, at most 4,900.
    pub fn place_count(&self) -> u32
        ensures count { result ≡ length self.now.edges }
        ensures few { result ≤ 4900 }
    {
        self.edges.len() as u32
    }

    /// Whether the node is left.
    pub fn has_node(&self, v: u32) -> bool
        requires { v < length self.now.nodes }
        ensures { slice_get self.now.nodes v ≡ Some result }
    {
        self.nodes.has(v)
    }

    /// The edge at the place, where it holds one.
    pub fn edge(&self, place: u32) -> Option<Edge>
        requires { place < length self.now.edges }
        ensures { MatchOption result (slice_get self.now.edges place ≡ Some None)
            (λ e. (x : Bundle) × HasEdge self.now place x × (x.edge ≡ e)) }
    {
        match &self.edges[place as usize] {
            Some(bundle) => Some(bundle.edge),
            None => None,
        }
    }

    /// The edge at a place that holds one.
    pub fn edge_at(&self, place: u32) -> Edge
        requires { (x : Bundle) × HasEdge self.now place x }
        ensures { (x : Bundle) × HasEdge self.now place x × (x.edge ≡ result) }
    {
        match self.edge(place) {
            Some(edge) => edge,
            None => unreachable!(),
        }
    }

    /// The nodes that are left.
    pub fn nodes(&self) -> &VertexSet
        ensures { result.now ≡ self.now.nodes }
    {
        &self.nodes
    }

    /// The edges at their places.
    pub fn edges(&self) -> &[Option<Bundle>]
        ensures { result.now ≡ self.now.edges }
    {
        &self.edges
    }

    /// The terminals, in order.
    pub fn terminals(&self) -> &[u32]
        ensures { result.now ≡ self.now.terminals }
    {
        &self.terminals
    }

    /// The edges at their places, the forced edges and the offset.
    pub fn into_edges(self) -> (Vec<Option<Bundle>>, EdgeSet, u64)
        ensures edges { result.0.items ≡ self.edges }
        ensures forced { result.1 ≡ self.forced }
        ensures offset { result.2 ≡ self.offset }
    {
        (self.edges, self.forced, self.offset)
    }

    /// Drops the edge at the place.
    pub fn drop_edge(&mut self, place: u32)
        requires { place < length self.old.edges }
        ensures { self.new ≡ without_edge self.old place }
    {
        self.edges[place as usize] = None;
    }

    /// Drops all edges.
    pub fn drop_edges(&mut self)
        ensures { self.new ≡ without_edges self.old }
    {
        empty_all(&mut self.edges);
    }

    /// Drops the node.
    pub fn drop_node(&mut self, v: u32)
        requires { v < length self.old.nodes }
        ensures { self.new ≡ without_node self.old v }
    {
        self.nodes.remove(v);
    }

    /// Puts an edge into the earlier place that stands for what both places stand for, and none into the later. An
    /// `Err` is want of memory.
    pub fn join_edges(&mut self, earlier: u32, later: u32, edge: Edge) -> Result<(), AllocError>
        requires order { earlier < later }
        requires earlier { (x : Bundle) × HasEdge self.old earlier x }
        requires later { (y : Bundle) × HasEdge self.old later y }
        requires sizes { HasSetsOfOneSize self.old }
        ensures { OnOk result ((x y : Bundle) → HasEdge self.old earlier x → HasEdge self.old later y →
            self.new ≡ record self.old {
              edges = slice_set (slice_set self.old.edges earlier
                  (Some (record { edge = edge; originals = union x.originals y.originals }))) later None;
            }) }
    {
        let mut originals = self.take(earlier).originals;
        originals.take_in(self.take(later).originals)?;
        self.edges[earlier as usize] = Some(Bundle { edge, originals });
        Ok(())
    }

    /// Forces what the edge at the place stands for, with its length, and drops it.
    pub fn force_edge(&mut self, place: u32, more: u64)
        requires edge { (x : Bundle) × HasEdge self.old place x }
        requires sizes { HasSetsOfOneSize self.old }
        requires fits { self.old.offset + more < 2 ^ 64 }
        ensures { (x : Bundle) → HasEdge self.old place x →
            self.new ≡ record self.old {
              edges = slice_set self.old.edges place None;
              forced = union self.old.forced x.originals;
              offset = self.old.offset + more;
            } }
    {
        let originals = self.take(place).originals;
        originals.add_to(&mut self.forced);
        self.offset += more;
    }

    // Takes the edge out of a place that holds one.
    fn take(&mut self, place: u32) -> Bundle
        requires { (x : Bundle) × HasEdge self.old place x }
        ensures edge { HasEdge self.old place result }
        ensures rest { self.new ≡ without_edge self.old place }
    {
        match self.edges[place as usize].take() {
            Some(bundle) => bundle,
            None => unreachable!(),
        }
    }

    /// Puts another node into a terminal's place, or, where that is a terminal already, takes the terminal out.
    pub fn move_terminal(&mut self, from: u32, to: u32)
        ensures { self.new ≡ record self.old { terminals = moved self.old.terminals from to } }
    {
        move_all(&mut self.terminals, from, to);
    }
}

// Takes the edge out of each place.
fn empty_all(edges: &mut [Option<Bundle>])
    ensures { edges.new ≡ replicate (length edges.old) None }
{
    for held in edges.iter_mut() {
        *held = None;
    }
}
