//! Weighted directed cuts, and packings of them.

ghost use Rattle.std.specs.Prelude.{◌≡◌, ◌+◌, ◌<◌, ◌≤◌, ◌^◌, [], ◌∷◌, ◌++◌, length, slice_get, sum_by, Some, IfOk, OnOk, OnErr};
ghost use Rattle.net_graph.specs.Packing.{inside_length, packing_value};

use crate::decision::Decision;
use crate::edge::Edge;
use crate::graph::NetGraph;
use crate::sets::VertexSet;
use std::alloc::{AllocError, Global};
use std::marker::Model;

/// A set of vertices apart from the root, with a weight of at least 1.
#[derive(Drop)]
pub struct Cut {
    pub weight: u64,
    pub members: VertexSet,
}

impl Cut {
    /// The same cut again. An error comes where memory is short.
    pub fn copy(&self) -> Result<Cut, AllocError>
        ensures { IfOk result (λ c. c ≡ self.now) }
    {
        let members = self.members.copy()?;
        Ok(Cut {
            weight: self.weight,
            members,
        })
    }
}

/// A list of cuts. Contracts see the list itself.
#[derive(Drop)]
pub struct Packing {
    cuts: Vec<Cut>,
}

impl Model for Packing {
    ghost use Rattle.std.specs.Prelude.{List};
    ghost use Rattle.net_graph.specs.declared.packing.Cut.{Cut};

    ghost Value = { List Cut };

    ghost view = { λ p. p.cuts.items };
}

impl Packing {
    /// The packing with no cut. It takes no memory; a later `push` takes it from `alloc`.
    pub fn empty(alloc: Global) -> Packing
        ensures { result ≡ [] }
    {
        Packing {
            cuts: Vec::new(alloc),
        }
    }

    /// How many cuts there are.
    pub fn len(&self) -> usize
        ensures { result ≡ length self.now }
    {
        self.cuts.len()
    }

    /// The cut at a place, counted from 0.
    pub fn get(&self, place: usize) -> &Cut
        requires { place < length self.now }
        ensures { slice_get self.now place ≡ Some result.now }
    {
        &self.cuts[place]
    }

    /// All cuts, in order.
    pub fn cuts(&self) -> &[Cut]
        ensures { result.now ≡ self.now }
    {
        self.cuts.as_slice()
    }

    /// Appends a cut. An `Err` is want of memory, and leaves the packing as it was.
    pub fn push(&mut self, cut: Cut) -> Result<(), AllocError>
        ensures ok { OnOk result (self.new ≡ self.old ++ cut ∷ []) }
        ensures err { OnErr result (self.new ≡ self.old) }
    {
        self.cuts.push(cut)?;
        Ok(())
    }

    /// The same packing again. An error comes where memory is short.
    pub fn copy(&self) -> Result<Packing, AllocError>
        ensures { IfOk result (λ p. p ≡ self.now) }
    {
        let mut cuts = Vec::with_capacity(self.cuts.allocator().clone()?, self.cuts.len())?;
        for cut in &self.cuts {
            cuts.push_reserved(cut.copy()?);
        }
        Ok(Packing { cuts })
    }
}

/// The value of a packing under a decision: the length of the inside edges and the weights of the cuts, below 2^97.
pub fn value(g: &NetGraph, d: &Decision, p: &Packing) -> u128
    requires { length p.now ≤ 2 ^ 32 }
    ensures value { result ≡ packing_value g.now d.now p.now }
    ensures small { result < 2 ^ 97 }
{
    u128::from(length_inside(g.edges(), d)) + total_weight(p.cuts())
}

// The sum of the lengths of the inside edges.
fn length_inside(edges: &[Edge], d: &Decision) -> u64
    requires { sum_by (λ e. e.length) edges.now < 2 ^ 63 }
    ensures { result ≡ inside_length edges.now d.now.edges }
{
    let mut sum = 0;
    for (n, e) in edges.iter().enumerate() {
        if d.is_inside(n) {
            sum += e.length;
        }
    }
    sum
}

/// The sum of the weights of cuts, below 2^127, and below 2^96 where there are at most 2^32 of them.
pub fn total_weight(cuts: &[Cut]) -> u128
    ensures sum { result ≡ sum_by (λ c. c.weight) cuts.now }
    ensures small { result < 2 ^ 127 }
    ensures few { length cuts.now ≤ 2 ^ 32 → result < 2 ^ 96 }
{
    let mut sum = 0;
    for cut in cuts {
        sum += u128::from(cut.weight);
    }
    sum
}
