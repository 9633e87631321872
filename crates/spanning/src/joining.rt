//! The shortest set of pairs that joins numbers.

ghost use Rattle.std.specs.Prelude.{◌≡◌, ◌<◌, ◌≤◌, ◌^◌, ℕ, Bool, true, length, All, IfOk, IfSome, IfNone, OnSome};
ghost use Rattle.std.specs.Prelude.{IsTrue, ◌↔◌};
ghost use Rattle.net_graph.specs.Flags.{has};
ghost use Rattle.net_graph.specs.Members.{members_of};
ghost use Rattle.spanning.specs.Joining.{JoinsBelow, IsLeastJoining, all_of, total_of};
ghost use Rattle.spanning.specs.Leaving.{HasNumbersBelow, NoneLeaves};
ghost use Rattle.spanning.specs.Part.{IsPart};

use crate::pair::{Pair, PlaceList};
use crate::part::{Part, shortest_leaving};
use net_graph::{EdgeSet, VertexSet};
use std::alloc::{AllocError, Global};

/// A set of pairs that joins numbers: the places of its pairs, ascending, and the sum of their lengths.
#[derive(Drop)]
pub struct Joined {
    pub places: PlaceList,
    pub total: u128,
}

/// A set of the pairs that joins the numbers below `n`, such that none has a smaller sum (found by the rule
/// of Jarník 1930 and Prim 1957). `None` comes exactly where all pairs together don't join them. An `Err` is
/// want of memory.
pub fn least_joining(alloc: Global, n: u8, pairs: &[Pair]) -> Result<Option<Joined>, AllocError>
    requires some { 0 < n }
    requires few { n ≤ 50 }
    requires ends { All (HasNumbersBelow n) pairs.now }
    requires few_pairs { length pairs.now ≤ 20000 }
    ensures least { IfOk result (λ answer. IfSome answer (IsLeastJoining n pairs.now)) }
    ensures all { IfOk result (λ answer. OnSome answer (JoinsBelow n pairs.now (all_of pairs.now))) }
    ensures none { IfOk result (λ answer. IfNone answer (¬ JoinsBelow n pairs.now (all_of pairs.now))) }
{
    let part = whole_part(alloc, n, pairs)?;
    if !is_full(&part.inside) {
        return Ok(None);
    }
    let places = places_of(alloc, &part.chosen)?;
    let total = total_of(pairs, &part.chosen);
    Ok(Some(Joined { places, total }))
}

// The part of the number 0 that no pair leaves. An `Err` is want of memory.
fn whole_part(alloc: Global, n: u8, pairs: &[Pair]) -> Result<Part, AllocError>
    requires some { 0 < n }
    requires ends { All (HasNumbersBelow n) pairs.now }
    requires few_pairs { length pairs.now ≤ 20000 }
    ensures part { IfOk result (λ part. IsPart n pairs.now part.inside part.chosen) }
    ensures whole { IfOk result (λ part. NoneLeaves pairs.now part.inside (length pairs.now)) }
{
    let mut part = Part::of_zero(alloc, n, pairs)?;
    while let Some(place) = shortest_leaving(n, pairs, &part.inside) {
        part.take_in(n, pairs, place);
    }
    Ok(part)
}

// Whether every number below the size is in the set.
fn is_full(set: &VertexSet) -> bool
    ensures { IsTrue result ↔ ((i : ℕ) → i < length set.now → has set.now i ≡ true) }
{
    for i in 0..set.len() {
        if !set.has(i) {
            return false;
        }
    }
    true
}

// The numbers of a set of pairs, ascending. An `Err` is want of memory.
fn places_of(alloc: Global, set: &EdgeSet) -> Result<PlaceList, AllocError>
    ensures { IfOk result (λ places. places ≡ members_of set.now) }
{
    let mut places = PlaceList::empty(alloc);
    for place in 0..set.len() {
        if set.has(place) {
            places.push(place)?;
        }
    }
    Ok(places)
}

// The sum of the lengths of the set's pairs.
fn total_of(pairs: &[Pair], set: &EdgeSet) -> u128
    requires size { length set.now ≡ length pairs.now }
    requires few_pairs { length pairs.now ≤ 20000 }
    ensures { result ≡ total_of pairs.now set.now }
{
    let mut total = 0;
    for place in 0..set.len() {
        if set.has(place) {
            total += u128::from(pairs[place as usize].length);
        }
    }
    total
}
