//! Pruning.

ghost use Rattle.std.specs.Prelude.{◌<◌, ◌≤◌, All, Contains, IfOk, length};
ghost use Rattle.std.specs.Bool.{MatchBool};
ghost use Rattle.full_tree.specs.Order.{IsInFileOrder};
ghost use Rattle.fst_prune.specs.Kept.{IsRepeat, IsReplaced, IsDropped, AreKeptTrees};
ghost use Rattle.fst_prune.specs.Firsts.{AreFirsts, HasMembers, IsSmall};
ghost use Rattle.fst_prune.specs.LeastTotal.{IsNoWorse, IsMatched, HaveOneLeastTotal, PairsStillJoin};

use crate::copying::copy;
use crate::firsts::{first_of, firsts};
use crate::within::pairs_within;
use full_tree::{TreeList, members};
use spanning::least_joining;
use std::alloc::{AllocError, Global};
use std::collections::BTreeMap;

/// The trees of a list that pruning keeps, in their order: a tree is dropped where an earlier one has the same members,
/// or where it has three or more members and kept trees of two of its members join them all at no greater length. An
/// `Err` is want of memory.
pub fn prune(alloc: Global, trees: &TreeList) -> Result<TreeList, AllocError>
    requires small { All IsSmall trees.now }
    requires order { IsInFileOrder trees.now }
    ensures kept { IfOk result (AreKeptTrees trees.now) }
    ensures among { IfOk result (All (Contains trees.now)) }
    ensures few { IfOk result (λ kept. length kept ≤ length trees.now) }
    ensures order { IfOk result IsInFileOrder }
    ensures no_worse { IfOk result (IsNoWorse trees.now) }
    ensures matched { IfOk result (λ kept. IsMatched kept trees.now) }
    ensures least { IfOk result (HaveOneLeastTotal trees.now) }
    ensures pairs_join { IfOk result (PairsStillJoin trees.now) }
{
    let firsts = firsts(alloc, trees)?;
    let mut kept = TreeList::empty(alloc);
    for place in 0..trees.len() {
        if !is_dropped(alloc, trees, &firsts, place)? {
            kept.push(copy(trees.get(place)))?;
        }
    }
    Ok(kept)
}

// Whether pruning drops the tree at a place. An `Err` is want of memory.
fn is_dropped(
    alloc: Global,
    trees: &TreeList,
    firsts: &BTreeMap<u64, usize>,
    place: usize,
) -> Result<bool, AllocError>
    requires small { All IsSmall trees.now }
    requires firsts { AreFirsts trees.now (length trees.now) firsts.now }
    requires within { place < length trees.now }
    ensures { IfOk result (λ dropped. MatchBool dropped (IsDropped trees.now place) (¬ IsDropped trees.now place)) }
{
    let tree = trees.get(place);
    let members = members(alloc, &tree.code);
    if is_repeat(trees, firsts, place, members.as_slice()) {
        return Ok(true);
    }
    if members.len() < 3 {
        return Ok(false);
    }
    is_replaced(alloc, trees, firsts, place, members.as_slice())
}

// Whether an earlier tree has the members of the tree at a place.
fn is_repeat(trees: &TreeList, firsts: &BTreeMap<u64, usize>, place: usize, members: &[u8]) -> bool
    requires firsts { AreFirsts trees.now (length trees.now) firsts.now }
    requires members { HasMembers trees.now place members.now }
    requires below { All (λ i. i < 50) members.now }
    ensures { MatchBool result (IsRepeat trees.now place) (¬ IsRepeat trees.now place) }
{
    first_of(firsts, members) != Some(place)
}

// Whether a set of kept pairs replaces the tree at a place, which has three or more members. An `Err` is want of
// memory.
fn is_replaced(
    alloc: Global,
    trees: &TreeList,
    firsts: &BTreeMap<u64, usize>,
    place: usize,
    members: &[u8],
) -> Result<bool, AllocError>
    requires firsts { AreFirsts trees.now (length trees.now) firsts.now }
    requires members { HasMembers trees.now place members.now }
    requires three { 3 ≤ length members.now }
    requires few { length members.now ≤ 8 }
    requires below { All (λ i. i < 50) members.now }
    ensures { IfOk result (λ replaced. MatchBool replaced (IsReplaced trees.now place) (¬ IsReplaced trees.now place)) }
{
    let length = trees.get(place).length;
    let pairs = pairs_within(trees, firsts, members);
    match least_joining(alloc, members.len() as u8, pairs.as_slice())? {
        Some(joined) => Ok(joined.total <= u128::from(length)),
        None => Ok(false),
    }
}
