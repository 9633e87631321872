//! The room in which it is judged whether edges join the terminals.

ghost use Rattle.std.specs.Prelude.{◌≡◌, ◌≤◌, length, IfSome, IfNone, IfOk};
ghost use Rattle.net_graph.specs.Network.{IsNetwork, IsFirstApart};

use lists::Row;
use net_graph::{EdgeSet, NetGraph, first_apart_within};
use std::alloc::{AllocError, Global};
use std::marker::Model;

/// The numbers of a search, two for each vertex. Contracts see for how many vertices they are.
#[derive(Drop)]
pub(crate) struct SearchRoom {
    marks: Row,
    queue: Row,
}

impl Model for SearchRoom {
    ghost use Rattle.std.specs.Prelude.{ℕ, ◌≡◌, length};

    ghost Value = { ℕ };

    ghost view = { λ r. length r.marks };

    ghost invariant = { λ r. length r.queue ≡ length r.marks };
}

impl SearchRoom {
    /// The numbers for so many vertices. An `Err` is want of memory.
    pub(crate) fn new(alloc: Global, vertices: u32) -> Result<SearchRoom, AllocError>
        ensures { IfOk result (λ room. room ≡ vertices) }
    {
        Ok(SearchRoom {
            marks: Row::zeros(alloc, vertices)?,
            queue: Row::zeros(alloc, vertices)?,
        })
    }

    /// The first terminal that the set doesn't join to the root, by its place in the list of terminals: None where it
    /// joins all of them.
    pub(crate) fn first_apart(&mut self, g: &NetGraph, set: &EdgeSet) -> Option<u8>
        requires size { length set.now ≡ length g.now.edges }
        requires few { length g.now.terminals ≤ 255 }
        requires vertices { self.old ≡ g.now.vertices }
        ensures none { IfNone result (IsNetwork g.now set.now) }
        ensures first { IfSome result (IsFirstApart g.now set.now) }
        ensures kept { self.new ≡ self.old }
    {
        first_apart_within(g, set, self.marks.numbers_mut(), self.queue.numbers_mut())
    }
}
