//! Sets of a graph's edges and of its vertices.

ghost use Rattle.std.specs.Prelude.{◌≡◌, ℕ, ◌+◌, ◌*◌, ◌/◌, ◌%◌, ◌==◌, ◌<◌, ◌||◌, ◌&&◌, true, false, length, replicate, slice_get, slice_set, IfOk};
ghost use Rattle.std.specs.Int.{bit_at};
ghost use Rattle.net_graph.specs.Flags.{has, flag_of_four};

use crate::flag_set::FlagSet;
use std::alloc::{AllocError, Global};
use std::marker::Model;

/// A set of edges of a graph, by their numbers. Its size is the number of the graph's edges.
#[derive(Drop)]
pub struct EdgeSet {
    flags: FlagSet,
}

impl Model for EdgeSet {
    ghost use Rattle.std.specs.Prelude.{List, Bool};

    ghost Value = { List Bool };

    ghost view = { λ s. s.flags };
}

impl EdgeSet {
    /// The empty set among `size` edges. An error comes where memory is short.
    pub fn empty(alloc: Global, size: u32) -> Result<EdgeSet, AllocError>
        ensures { IfOk result (λ s. s ≡ replicate size false) }
    {
        let flags = FlagSet::empty(alloc, size)?;
        Ok(EdgeSet { flags })
    }

    /// The set of all `size` edges. An error comes where memory is short.
    pub fn full(alloc: Global, size: u32) -> Result<EdgeSet, AllocError>
        ensures { IfOk result (λ s. s ≡ replicate size true) }
    {
        let mut all = EdgeSet::empty(alloc, size)?;
        for n in 0..size {
            all.add(n);
        }
        Ok(all)
    }

    /// The size: the number of edges that may be in the set.
    pub fn len(&self) -> u32
        ensures { result ≡ length self.now }
    {
        self.flags.len()
    }

    /// Whether the edge `n` is in the set.
    pub fn has(&self, n: u32) -> bool
        requires { n < length self.now }
        ensures flag { slice_get self.now n ≡ Some result }
        ensures within { result ≡ has self.now n }
    {
        self.flags.has(n)
    }

    /// Puts the edge `n` into the set.
    pub fn add(&mut self, n: u32)
        requires { n < length self.old }
        ensures { self.new ≡ slice_set self.old n true }
    {
        self.flags.add(n);
    }

    /// Takes the edge `n` out of the set.
    pub fn remove(&mut self, n: u32)
        requires { n < length self.old }
        ensures { self.new ≡ slice_set self.old n false }
    {
        self.flags.remove(n);
    }

    /// Takes every edge out of the set.
    pub fn clear(&mut self)
        ensures { self.new ≡ replicate (length self.old) false }
    {
        self.flags.clear();
    }

    /// A set of the same edges. An error comes where memory is short.
    pub fn copy(&self) -> Result<EdgeSet, AllocError>
        ensures { IfOk result (λ s. s ≡ self.now) }
    {
        let flags = self.flags.copy()?;
        Ok(EdgeSet { flags })
    }
}

/// A set of vertices of a graph, by their numbers. Its size is the number of the graph's vertices.
#[derive(Drop)]
pub struct VertexSet {
    flags: FlagSet,
}

impl Model for VertexSet {
    ghost use Rattle.std.specs.Prelude.{List, Bool};

    ghost Value = { List Bool };

    ghost view = { λ s. s.flags };
}

impl VertexSet {
    /// The empty set among `size` vertices. An error comes where memory is short.
    pub fn empty(alloc: Global, size: u32) -> Result<VertexSet, AllocError>
        ensures { IfOk result (λ s. s ≡ replicate size false) }
    {
        let flags = FlagSet::empty(alloc, size)?;
        Ok(VertexSet { flags })
    }

    /// The size: the number of vertices that may be in the set.
    pub fn len(&self) -> u32
        ensures { result ≡ length self.now }
    {
        self.flags.len()
    }

    /// Whether the vertex `n` is in the set.
    pub fn has(&self, n: u32) -> bool
        requires { n < length self.now }
        ensures flag { slice_get self.now n ≡ Some result }
        ensures within { result ≡ has self.now n }
    {
        self.flags.has(n)
    }

    /// Whether the vertex is in the set; one past its size isn't.
    pub fn holds(&self, vertex: u32) -> bool
        ensures { result ≡ has self.now vertex }
    {
        vertex < self.flags.len() && self.flags.has(vertex)
    }

    /// Puts the vertex `n` into the set.
    pub fn add(&mut self, n: u32)
        requires { n < length self.old }
        ensures { self.new ≡ slice_set self.old n true }
    {
        self.flags.add(n);
    }

    /// Puts those of the four vertices from `4 * place` on into the set that the value tells: its bits 8, 4, 2 and 1
    /// stand for the first to the fourth.
    pub fn add_four(&mut self, place: u32, value: u8)
        requires value { value < 16 }
        requires within { 4 * place < length self.old }
        requires told { (r : ℕ) → r < 4 → flag_of_four value r ≡ true → 4 * place + r < length self.old }
        ensures size { length self.new ≡ length self.old }
        ensures flags { (n : ℕ) →
            has self.new n ≡ (has self.old n || (n / 4 == place && flag_of_four value (n % 4))) }
    {
        self.flags.add_four(place, value);
    }

    /// The word of the flags of the 64 vertices from `64 * place` on, the first at its lowest bit. What stands in it
    /// past the size tells nothing.
    pub fn word(&self, place: u32) -> u64
        requires { 64 * place < length self.now }
        ensures { (r : ℕ) → r < 64 → 64 * place + r < length self.now →
            has self.now (64 * place + r) ≡ (bit_at result r == 1) }
    {
        self.flags.word(place)
    }

    /// Takes the vertex `n` out of the set.
    pub fn remove(&mut self, n: u32)
        requires { n < length self.old }
        ensures { self.new ≡ slice_set self.old n false }
    {
        self.flags.remove(n);
    }

    /// Takes every vertex out of the set.
    pub fn clear(&mut self)
        ensures { self.new ≡ replicate (length self.old) false }
    {
        self.flags.clear();
    }

    /// A set of the same vertices. An error comes where memory is short.
    pub fn copy(&self) -> Result<VertexSet, AllocError>
        ensures { IfOk result (λ s. s ≡ self.now) }
    {
        let flags = self.flags.copy()?;
        Ok(VertexSet { flags })
    }
}
