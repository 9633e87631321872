//! The points of nodes.

ghost use Rattle.std.specs.Prelude.{◌≡◌, [], OnOk, OnErr, Option};
ghost use Rattle.std.specs.Ordering.{nat_cmp};
ghost use Rattle.std.specs.BTreeMap.{insert_entry};
ghost use Rattle.stp_format.specs.Value.{point_of_node};

use points_in::Point;
use std::alloc::{AllocError, Global};
use std::collections::BTreeMap;
use std::marker::Model;

/// The points of some nodes. Contracts see each node with its point, in ascending order of the nodes.
#[derive(Drop)]
pub(crate) struct NodePoints {
    map: BTreeMap<u32, Point>,
}

impl Model for NodePoints {
    ghost use Rattle.std.specs.Prelude.{ℕ, List};
    ghost use Rattle.points_in.specs.declared.point.Point.{Point};

    ghost Value = { List (ℕ × Point) };

    ghost view = { λ points. points.map.entries };
}

impl NodePoints {
    /// No node has a point. It takes no memory.
    pub(crate) fn empty(alloc: Global) -> Self
        ensures { result ≡ [] }
    {
        NodePoints {
            map: BTreeMap::new(alloc),
        }
    }

    /// The point of a node, if it has one.
    pub(crate) fn get(&self, node: u32) -> Option<Point>
        ensures { result ≡ point_of_node self.now node }
    {
        self.map.get(&node).copied()
    }

    /// Sets the point of a node. An `Err` leaves everything as it was.
    pub(crate) fn insert(&mut self, node: u32, point: Point) -> Result<(), AllocError>
        ensures ok { OnOk result (self.new ≡ insert_entry nat_cmp self.old node point) }
        ensures err { OnErr result (self.new ≡ self.old) }
    {
        self.map.insert(node, point)?;
        Ok(())
    }

    /// The points by their nodes.
    pub(crate) fn as_map(&self) -> &BTreeMap<u32, Point>
        ensures { result.now.entries ≡ self.now }
    {
        &self.map
    }
}
