//! The first tree of each set of members.

ghost use Rattle.std.specs.Prelude.{◌+◌, ◌<◌, All, IfOk, OnOk, length, Some};
ghost use Rattle.std.specs.Ordering.{nat_cmp};
ghost use Rattle.std.specs.BTreeMap.{Updates};
ghost use Rattle.fst_prune.specs.Firsts.{AreFirsts, StandsUnder, IsSmall};

use full_tree::{TreeList, members, word_of};
use std::alloc::{AllocError, Global};
use std::collections::BTreeMap;

/// The places of the first trees of a list that have their members, each under the word of the members. An `Err` is
/// want of memory.
pub fn firsts(alloc: Global, trees: &TreeList) -> Result<BTreeMap<u64, usize>, AllocError>
    requires { All IsSmall trees.now }
    ensures { IfOk result (AreFirsts trees.now (length trees.now)) }
{
    let mut firsts = BTreeMap::new(alloc);
    for place in 0..trees.len() {
        add_first(alloc, trees, place, &mut firsts)?;
    }
    Ok(firsts)
}

// Adds the place of a tree, where it is the first one of its members. An `Err` is want of memory.
fn add_first(
    alloc: Global,
    trees: &TreeList,
    place: usize,
    firsts: &mut BTreeMap<u64, usize>,
) -> Result<(), AllocError>
    requires small { All IsSmall trees.now }
    requires within { place < length trees.now }
    requires firsts { AreFirsts trees.now place firsts.old }
    ensures { OnOk result (AreFirsts trees.now (place + 1) firsts.new) }
{
    let members = members(alloc, &trees.get(place).code);
    let word = word_of(members.as_slice());
    if firsts.get(&word).is_some() {
        return Ok(());
    }
    put(firsts, word, place)
}

// Stores a place under a word. An `Err` is want of memory.
fn put(firsts: &mut BTreeMap<u64, usize>, word: u64, place: usize) -> Result<(), AllocError>
    ensures { OnOk result (Updates nat_cmp firsts.old firsts.new word (Some place)) }
{
    firsts.insert(word, place)?;
    Ok(())
}

/// The place of the first tree whose members are these places, if there is one.
pub fn first_of(firsts: &BTreeMap<u64, usize>, places: &[u8]) -> Option<usize>
    requires { All (λ i. i < 50) places.now }
    ensures { StandsUnder firsts.now places.now result }
{
    let word = word_of(places);
    firsts.get(&word).copied()
}
