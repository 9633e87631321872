//! The edges of an answer, as they are read.

ghost use Rattle.std.specs.Prelude.{◌≡◌, ◌<◌, length, replicate, slice_set, true, false, IfSome, IfNone};
ghost use Rattle.tree_judge.specs.Edges.{FollowsEdges, EdgeFault};

use crate::cause::Cause;
use net_graph::{EdgeSet, NetGraph};
use std::marker::Model;

/// The edges that were read so far, whose numbers ascend. Contracts see their set.
#[derive(Drop)]
pub(crate) struct EdgesRead {
    network: EdgeSet,
    /// One more than the greatest number, or 0.
    next: u32,
}

impl Model for EdgesRead {
    ghost use Rattle.std.specs.Prelude.{List, Bool};
    ghost use Rattle.tree_judge.specs.EdgesRead.{IsNextOf};

    ghost Value = { List Bool };

    ghost view = { λ r. r.network };

    ghost invariant = { λ r. IsNextOf r.network r.next };
}

impl EdgesRead {
    /// No edge so far, to be kept in an empty set.
    pub(crate) fn begin(network: EdgeSet) -> EdgesRead
        requires { network ≡ replicate (length network) false }
        ensures { result ≡ network }
    {
        EdgesRead { network, next: 0 }
    }

    /// The edges so far.
    pub(crate) fn network(&self) -> &EdgeSet
        ensures { result.now ≡ self.now }
    {
        &self.network
    }

    /// The edges, to be kept.
    pub(crate) fn into_network(self) -> EdgeSet
        ensures { result ≡ self }
    {
        self.network
    }

    /// Reads one more edge, which stands in a line. Gives why the line is wrong, if it is.
    pub(crate) fn read(&mut self, _g: &NetGraph, line: u64, edge: u32) -> Option<Cause>
        requires size { length self.old ≡ length _g.now.edges }
        requires edge { edge < length _g.now.edges }
        ensures passes { IfNone result (FollowsEdges _g.now self.old edge
            × (self.new ≡ slice_set self.old edge true)) }
        ensures fault { IfSome result (EdgeFault self.old edge line) }
        ensures kept { IfSome result (λ _. self.new ≡ self.old) }
    {
        if edge < self.next {
            return Some(Cause::EdgeOrder(line));
        }
        let size = self.network.len();
        prove!(edge < size);
        self.network.add(edge);
        self.next = edge + 1;
        None
    }
}
