//! The part that a least joining grows in.

ghost use Rattle.std.specs.Prelude.{◌≡◌, ◌≢◌, ◌⊎◌, ◌<◌, ◌≤◌, ◌+◌, ℕ, Bool, true, false, not, length, replicate, All};
ghost use Rattle.std.specs.Prelude.{IfOk, IfSome, IfNone, IsTrue, ◌↔◌, MatchOption, Some, slice_get, slice_index_or};
ghost use Rattle.std.specs.Prelude.{count_by};
ghost use Rattle.net_graph.specs.Flags.{has};
ghost use Rattle.spanning.specs.declared.pair.Pair.{Pair};
ghost use Rattle.spanning.specs.Leaving.{HasNumbersBelow, leaves, NoneLeaves, IsShortestLeaving};
ghost use Rattle.spanning.specs.Part.{IsPart};
ghost use Rattle.std.specs.Option.{ForSome};

use crate::pair::Pair;
use net_graph::{EdgeSet, VertexSet};
use std::alloc::{AllocError, Global};

/// The numbers that are joined so far, and the pairs that were chosen for it.
#[derive(Drop)]
pub struct Part {
    pub inside: VertexSet,
    pub chosen: EdgeSet,
}

impl Part {
    /// The part of the number 0, with nothing chosen. An `Err` is want of memory.
    pub fn of_zero(alloc: Global, n: u8, pairs: &[Pair]) -> Result<Part, AllocError>
        requires some { 0 < n }
        requires few_pairs { length pairs.now ≤ 20000 }
        ensures { IfOk result (λ part. IsPart n pairs.now part.inside part.chosen) }
    {
        let mut inside = VertexSet::empty(alloc, u32::from(n))?;
        let chosen = EdgeSet::empty(alloc, pairs.len() as u32)?;
        inside.add(0);
        Ok(Part { inside, chosen })
    }

    /// Takes in the pair at a place, which is the shortest of those that leave the part.
    pub fn take_in(&mut self, n: u8, pairs: &[Pair], place: usize)
        requires few_pairs { length pairs.now ≤ 20000 }
        requires ends { All (HasNumbersBelow n) pairs.now }
        requires part { IsPart n pairs.now self.old.inside self.old.chosen }
        requires shortest { IsShortestLeaving pairs.now self.old.inside (length pairs.now) place }
        ensures part { IsPart n pairs.now self.new.inside self.new.chosen }
        ensures less { count_by not self.new.inside + 1 ≡ count_by not self.old.inside }
    {
        let pair = pairs[place];
        let a = u32::from(pair.a);
        let outer = if self.inside.has(a) {
            u32::from(pair.b)
        } else {
            a
        };
        self.inside.add(outer);
        self.chosen.add(place as u32);
    }
}

/// The place of a shortest one of the pairs that leave a set of numbers, where any leaves it.
pub fn shortest_leaving(n: u8, pairs: &[Pair], inside: &VertexSet) -> Option<usize>
    requires ends { All (HasNumbersBelow n) pairs.now }
    requires size { length inside.now ≡ n }
    ensures shortest { IfSome result (IsShortestLeaving pairs.now inside.now (length pairs.now)) }
    ensures none { IfNone result (NoneLeaves pairs.now inside.now (length pairs.now)) }
{
    let mut best = None;
    for place in 0..pairs.len() {
        if leaves(n, inside, pairs[place]) {
            best = Some(shorter(pairs, best, place));
        }
    }
    best
}

// Whether just one of the pair's two numbers is in the set.
fn leaves(n: u8, inside: &VertexSet, pair: Pair) -> bool
    requires ends { HasNumbersBelow n pair }
    requires size { length inside.now ≡ n }
    ensures { result ≡ leaves inside.now pair }
{
    inside.has(u32::from(pair.a)) != inside.has(u32::from(pair.b))
}

// The place of the shorter pair of two, or of the second one where there is no first.
fn shorter(pairs: &[Pair], first: Option<usize>, second: usize) -> usize
    requires first { ForSome first (λ k. k < length pairs.now) }
    requires second { second < length pairs.now }
    ensures either { (first ≡ Some result) ⊎ (result ≡ second) }
    ensures second { (d : Pair)
        → (slice_index_or pairs.now result d).length ≤ (slice_index_or pairs.now second d).length }
    ensures first { IfSome first (λ k. (d : Pair)
        → (slice_index_or pairs.now result d).length ≤ (slice_index_or pairs.now k d).length) }
{
    match first {
        Some(first) if pairs[first].length <= pairs[second].length => first,
        _ => second,
    }
}
