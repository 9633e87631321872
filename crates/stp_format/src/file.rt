//! The value of a file.

ghost use Rattle.std.specs.Prelude.{◌≡◌, ◌<◌, ◌≤◌, length, slice_get, Some, IsTrue};
ghost use Rattle.std.specs.Option.{option_copied};
ghost use Rattle.stp_format.specs.Value.{IsEdge, is_node, point_in, AreTerminals};

use crate::edge::StpEdge;
use crate::graph::Graph;
use crate::node_points::NodePoints;
use lists::ItemList;
use points_in::Point;
use std::marker::Model;

/// What an STP file of this profile holds: how many nodes there are, edges between them, terminals among them, and,
/// where it has a section for them, points of nodes. Nodes are counted from 1. Only `read_stp` makes one. No tool takes
/// more of it than `points_of` gives.
#[derive(Drop)]
pub struct StpFile {
    graph: Graph,
    terminals: ItemList<u32>,
    coordinates: Option<NodePoints>,
}

impl Model for StpFile {
    ghost use Rattle.stp_format.specs.Value.{StpValue, AreTerminals};

    ghost Value = { StpValue };

    ghost view = { λ file. record {
      nodes = file.graph.nodes;
      edges = file.graph.edges;
      terminals = file.terminals;
      coordinates = file.coordinates;
    } };

    ghost invariant = { λ file. AreTerminals file.graph.nodes file.terminals };
}

impl StpFile {
    // The file of a graph, of terminals among its nodes, and of points, if there is a section for them.
    pub(crate) fn of(
        graph: Graph,
        terminals: ItemList<u32>,
        coordinates: Option<NodePoints>,
    ) -> StpFile
        requires { AreTerminals graph.nodes terminals }
        ensures { result ≡ record {
          nodes = graph.nodes;
          edges = graph.edges;
          terminals = terminals;
          coordinates = coordinates;
        } }
    {
        StpFile {
            graph,
            terminals,
            coordinates,
        }
    }

    /// How many nodes there are: 1 or more.
    pub fn nodes(&self) -> u32
        ensures value { result ≡ self.now.nodes }
        ensures some { 1 ≤ result }
    {
        self.graph.nodes
    }

    /// How many edges there are.
    pub fn edge_count(&self) -> u32
        ensures { result ≡ length self.now.edges }
    {
        self.graph.edges.len() as u32
    }

    /// The edge at a place, which is counted from 0. Its ends are nodes.
    pub fn edge(&self, n: u32) -> StpEdge
        requires { n < length self.now.edges }
        ensures value { slice_get self.now.edges n ≡ Some result }
        ensures edge { IsEdge self.now.nodes result }
    {
        *self.graph.edges.get(n as usize)
    }

    /// How many terminals there are, with their repeats.
    pub fn terminal_count(&self) -> u32
        ensures { result ≡ length self.now.terminals }
    {
        self.terminals.len() as u32
    }

    /// The terminal at a place, which is counted from 0. It is a node.
    pub fn terminal(&self, n: u32) -> u32
        requires { n < length self.now.terminals }
        ensures value { slice_get self.now.terminals n ≡ Some result }
        ensures node { IsTrue (is_node self.now.nodes result) }
    {
        *self.terminals.get(n as usize)
    }

    /// The point of a node. None exactly where the file names no point of it. No tool calls it.
    pub fn coordinates(&self, node: u32) -> Option<Point>
        ensures { result ≡ point_in self.now node }
    {
        self.coordinates.as_ref()?.get(node)
    }

    // All edges.
    pub(crate) fn edges(&self) -> &[StpEdge]
        ensures { result.now ≡ self.now.edges }
    {
        self.graph.edges.as_slice()
    }

    // All terminals.
    pub(crate) fn terminals(&self) -> &[u32]
        ensures { result.now ≡ self.now.terminals }
    {
        self.terminals.as_slice()
    }

    // The points of nodes, if the file has a section for them.
    pub(crate) fn located(&self) -> Option<&NodePoints>
        ensures { option_copied result ≡ self.now.coordinates }
    {
        self.coordinates.as_ref()
    }
}
