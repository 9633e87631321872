//! What a search for a cut goes by.

use crate::steps::Step;
use cut_groups::{BLOCKED, Tree, at};

/// A cut that is looked for: the tree enters it at one arc. What the tree has at neither this arc's head nor below is
/// outside it, and what is on the way from the head to a terminal is inside.
#[derive(Clone, Copy)]
pub struct Query<'a> {
    pub tree: &'a Tree,
    /// The prices of the arcs.
    pub prices: &'a [i64],
    /// The arc at which the tree enters, and its head.
    pub arc: u32,
    pub head: u32,
}

impl<'a> Query<'a> {
    /// The query for a cut of a group.
    pub fn of(tree: &'a Tree, prices: &'a [i64], group: u32) -> Query<'a> {
        Query {
            tree,
            prices,
            arc: tree.arc(group),
            head: tree.head(group),
        }
    }

    /// Whether a vertex is outside.
    #[inline]
    pub fn is_outside(&self, vertex: u32) -> bool {
        self.tree.is_beside(vertex, self.head)
    }

    /// What an arc can carry beside a flow.
    #[inline]
    pub fn room(&self, step: Step, flow: &[i64]) -> i64 {
        self.room_of(step.arc, step.on_tree, flow)
    }

    /// What the other arc of its edge can carry.
    #[inline]
    pub fn room_back(&self, step: Step, flow: &[i64]) -> i64 {
        self.room_of(step.arc ^ 1, step.back_on_tree, flow)
    }

    // What an arc can carry: arcs of the tree carry all, so that it enters no second time.
    #[inline]
    fn room_of(&self, arc: u32, on_tree: bool, flow: &[i64]) -> i64 {
        if arc == self.arc {
            0
        } else if on_tree {
            BLOCKED
        } else {
            at(self.prices, arc, 0).wrapping_sub(at(flow, arc, 0))
        }
    }
}
