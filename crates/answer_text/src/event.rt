//! What a reader tells of an answer's text.

use crate::head::AnswerHead;
use crate::label::EdgeLabel;
use crate::split::SplitName;
use net_graph::VertexSet;

/// What a line of an answer tells. The lines of the head are told together.
#[derive(Clone, Copy, Debug)]
pub enum Event {
    /// The lines of the head: the first six on a grid, and the first five in a graph.
    Head(AnswerHead),
    /// How many edges follow.
    EdgeCount(u32),
    /// An edge of the network.
    Edge(EdgeLabel),
    /// The tree follows.
    Tree,
    /// A split, with the edge or the vertex that it is on: its part outside follows, and then its part inside.
    Split(SplitName),
    /// A leaf, with how many cuts follow.
    Leaf(u32),
    /// A cut of a leaf, with its weight.
    Cut(u64),
    /// The last line.
    End,
}

/// An event, with the number of the line that ends it, counted from 1, and the members of a cut.
#[derive(Drop)]
pub struct AnswerEvent {
    /// The line, counted from 1.
    pub line: u64,
    /// What it tells.
    pub event: Event,
    /// The members of the cut where the event is one, and None else.
    pub members: Option<VertexSet>,
}
