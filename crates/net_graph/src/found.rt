//! The vertices that a search has found.

ghost use Rattle.std.specs.Prelude.{◌≡◌, ◌<◌, ◌≤◌, ◌↔◌, ℕ, Bool, List, true, IsTrue, [], ◌∷◌, ◌++◌, ◌⊎◌, length, count_by, slice_get, Some, Contains, IfOk};
ghost use Rattle.net_graph.specs.Flags.{has};
ghost use Rattle.net_graph.specs.Found.{HasMembers};

use crate::sets::VertexSet;
use std::alloc::{AllocError, Global};
use std::marker::Model;

/// The vertices found so far, in the order in which they were found, each once.
#[derive(Drop)]
pub struct Found {
    marks: VertexSet,
    // Has room for each vertex, so that none is moved while a search runs.
    order: Vec<u32>,
}

impl Model for Found {
    ghost use Rattle.std.specs.Prelude.{◌≡◌, ◌≤◌, length, vec_len, vec_capacity};
    ghost use Rattle.net_graph.specs.Search.{Finds};
    ghost use Rattle.net_graph.specs.Found.{AreMarksOf};

    ghost Value = { Finds };

    ghost view = { λ f. record { size = length f.marks; order = f.order.items } };

    ghost invariant = { λ f. AreMarksOf f.order.items f.marks × (vec_len f.order ≡ length f.order.items) ×
        (length f.marks ≤ vec_capacity f.order) };
}

impl Found {
    /// Nothing found among so many vertices. An `Err` is want of memory.
    pub fn nothing(alloc: Global, size: u32) -> Result<Found, AllocError>
        ensures size { IfOk result (λ found. found.size ≡ size) }
        ensures order { IfOk result (λ found. found.order ≡ []) }
    {
        let marks = VertexSet::empty(alloc, size)?;
        let order = Vec::with_capacity(alloc, size as usize)?;
        Ok(Found { marks, order })
    }

    /// How many vertices were found, at most all.
    pub fn len(&self) -> usize
        ensures len { result ≡ length self.now.order }
        ensures within { result ≤ self.now.size }
        ensures members { (members : List Bool) × HasMembers self.now members }
    {
        self.order.len()
    }

    /// Whether the vertex was found; one past the size wasn't.
    pub fn has(&self, vertex: u32) -> bool
        ensures { IsTrue result ↔ Contains self.now.order vertex }
    {
        self.marks.holds(vertex)
    }

    /// The set of the vertices that were found so far.
    pub fn set(&self) -> &VertexSet
        ensures { HasMembers self.now result.now }
    {
        &self.marks
    }

    /// The vertex that was found at a place of the order, counted from 0.
    pub fn get(&self, place: usize) -> u32
        requires { place < length self.now.order }
        ensures { slice_get self.now.order place ≡ Some result }
    {
        self.order[place]
    }

    /// Adds a vertex, unless it was found before.
    pub fn add(&mut self, vertex: u32)
        requires { vertex < self.old.size }
        ensures size { self.new.size ≡ self.old.size }
        ensures order { (self.new.order ≡ self.old.order ++ vertex ∷ []) ⊎
            (Contains self.old.order vertex × (self.new.order ≡ self.old.order)) }
    {
        if !self.marks.has(vertex) {
            self.marks.add(vertex);
            self.order.push_reserved(vertex);
        }
    }

    /// The set of the vertices that were found.
    pub fn into_set(self) -> VertexSet
        ensures size { length result ≡ self.size }
        ensures flags { (v : ℕ) → (has result v ≡ true) ↔ Contains self.order v }
    {
        let Found { marks, order: _ } = self;
        marks
    }
}
