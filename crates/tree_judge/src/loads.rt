//! The loads of a graph's arcs.

ghost use Rattle.std.specs.Prelude.{◌≡◌, ◌<◌, ◌≤◌, ◌↔◌, IsTrue, IfOk, length, replicate, slice_index, slice_set};
ghost use Rattle.tree_judge.specs.ArcLoads.{both_loads, no_loads};

use lists::Row;
use std::alloc::{AllocError, Global};
use std::marker::Model;

/// The loads of the arcs of a graph, which lists the edges of which an arc is loaded, so that a leaf which ends clears
/// these alone.
#[derive(Drop)]
pub(crate) struct Loads {
    /// Of each edge, the load of its arc from its end a to its end b.
    there: Row,
    /// Of each edge, the load of the arc back.
    back: Row,
    /// The edges of which an arc is loaded, with room for all edges.
    listed: Vec<u32>,
}

impl Model for Loads {
    ghost use Rattle.std.specs.Prelude.{vec_capacity};
    ghost use Rattle.tree_judge.specs.ArcLoads.{ArcLoads, AreLoads};

    ghost Value = { ArcLoads };

    ghost view = { λ l. record { there = l.there; back = l.back } };

    ghost invariant = { λ l. AreLoads l.there l.back l.listed.items (vec_capacity l.listed) };
}

impl Loads {
    /// No loads of so many edges. An `Err` is want of memory.
    pub(crate) fn new(alloc: Global, edges: u32) -> Result<Loads, AllocError>
        ensures { IfOk result (λ loads. loads ≡ no_loads edges) }
    {
        Ok(Loads {
            there: Row::zeros(alloc, edges)?,
            back: Row::zeros(alloc, edges)?,
            listed: Vec::with_capacity(alloc, edges as usize)?,
        })
    }

    /// The load of the arc of an edge from its end a to its end b.
    pub(crate) fn there(&self, n: u32) -> u64
        requires { n < length self.now.there }
        ensures { result ≡ slice_index self.now.there n }
    {
        self.there.get(n)
    }

    /// Writes the load of that arc, which is no less than before.
    pub(crate) fn set_there(&mut self, n: u32, load: u64)
        requires edge { n < length self.old.there }
        requires more { slice_index self.old.there n ≤ load }
        ensures { self.new ≡ record self.old { there = slice_set self.old.there n load } }
    {
        if load > 0 && !self.is_loaded(n) {
            self.listed.push_reserved(n);
        }
        self.there.set(n, load);
    }

    /// The load of the arc of an edge from its end b to its end a.
    pub(crate) fn back(&self, n: u32) -> u64
        requires { n < length self.now.back }
        ensures { result ≡ slice_index self.now.back n }
    {
        self.back.get(n)
    }

    /// Writes the load of that arc, which is no less than before.
    pub(crate) fn set_back(&mut self, n: u32, load: u64)
        requires edge { n < length self.old.back }
        requires more { slice_index self.old.back n ≤ load }
        ensures { self.new ≡ record self.old { back = slice_set self.old.back n load } }
    {
        if load > 0 && !self.is_loaded(n) {
            self.listed.push_reserved(n);
        }
        self.back.set(n, load);
    }

    /// Forgets all loads, in as many steps as edges are loaded.
    pub(crate) fn clear(&mut self)
        ensures { self.new ≡ no_loads (length self.old.there) }
    {
        while let Some(n) = self.listed.pop() {
            self.there.set(n, 0);
            self.back.set(n, 0);
        }
    }

    // Whether an arc of an edge is loaded.
    fn is_loaded(&self, n: u32) -> bool
        requires { n < length self.now.there }
        ensures { IsTrue result ↔ (0 < both_loads self.now.there self.now.back n) }
    {
        self.there.get(n) > 0 || self.back.get(n) > 0
    }
}
