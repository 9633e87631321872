//! The edges of a graph that one edge stands for.

ghost use Rattle.std.specs.Prelude.{◌≡◌, ◌<◌, false, true, length, replicate, slice_set, IfOk, OnOk};
ghost use Rattle.net_graph.specs.Flags.{has};
ghost use Rattle.graph_reduce.specs.State.{union};

use crate::numbers::stands_in;
use net_graph::{Edge, EdgeSet};
use std::alloc::{AllocError, Global};
use std::marker::Model;

/// An edge, and the set of the graph's edges that it stands for.
#[derive(Drop)]
pub(crate) struct Bundle {
    pub edge: Edge,
    pub originals: Originals,
}

/// What one edge stands for: a set of edges of a graph, in a list. Sets that have no edge in common take no more room
/// than the graph's edges.
#[derive(Drop)]
pub struct Originals {
    numbers: Vec<u32>,
    // How many edges the graph has.
    size: u32,
}

impl Model for Originals {
    ghost use Rattle.std.specs.Prelude.{List, Bool, ◌<◌, All};
    ghost use Rattle.graph_reduce.specs.Originals.{flags_of};

    ghost Value = { List Bool };

    ghost view = { λ o. flags_of o.size o.numbers.items };

    ghost invariant = { λ o. All (λ n. n < o.size) o.numbers.items };
}

impl Originals {
    /// The set of one edge, of so many that the graph has. An `Err` is want of memory.
    pub(crate) fn of_one(alloc: Global, size: u32, n: u32) -> Result<Originals, AllocError>
        requires { n < size }
        ensures { IfOk result (λ set. set ≡ slice_set (replicate size false) n true) }
    {
        let mut numbers = Vec::with_capacity(alloc, 1)?;
        numbers.push(n)?;
        Ok(Originals { numbers, size })
    }

    /// How many edges the graph has.
    pub fn len(&self) -> u32
        ensures { result ≡ length self.now }
    {
        self.size
    }

    /// Whether the edge is in the set.
    pub fn has(&self, n: u32) -> bool
        requires { n < length self.now }
        ensures { result ≡ has self.now n }
    {
        stands_in(&self.numbers, n)
    }

    /// Takes the edges of another set in. An `Err` is want of memory.
    pub(crate) fn take_in(&mut self, other: Originals) -> Result<(), AllocError>
        requires { length other ≡ length self.old }
        ensures { OnOk result (self.new ≡ union self.old other) }
    {
        let Originals {
            numbers: mut more,
            size: _,
        } = other;
        self.numbers.append(&mut more)?;
        Ok(())
    }

    /// Adds the edges to a set.
    pub(crate) fn add_to(&self, set: &mut EdgeSet)
        requires { length set.old ≡ length self.now }
        ensures { set.new ≡ union set.old self.now }
    {
        for n in &self.numbers {
            set.add(*n);
        }
    }
}
