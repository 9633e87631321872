//! The concatenation that a search begins with.

ghost use Rattle.std.specs.Prelude.{◌≡◌, ◌<◌, ◌≤◌, All, length, map, IfOk};
ghost use Rattle.full_tree.specs.Code.{members_of};
ghost use Rattle.concatenation.specs.Concatenation.{IsConcatenation, all_of};
ghost use Rattle.fst_concat.specs.Chosen.{HasMembersBelow, IsChosen, IsUpToPairs};
ghost use Rattle.fst_concat.specs.Listed.{IsListed};
ghost use Rattle.fst_concat.specs.Pairs.{pair_of};

use crate::best::Best;
use full_tree::{Places, Tree};
use spanning::{Pair, least_joining};
use std::alloc::{AllocError, Global};

/// A least joining by the trees of two members, where these join all terminals, else all trees. An `Err` is want of
/// memory.
pub fn first_best(
    alloc: Global,
    points: u8,
    trees: &[Tree],
    listed: &[Places],
    all: &[bool],
) -> Result<Best, AllocError>
    requires some { 0 < points }
    requires few { points ≤ 50 }
    requires few_trees { length trees.now ≤ 20000 }
    requires trees { All (HasMembersBelow points) trees.now }
    requires listed { IsListed points trees.now listed.now }
    requires all { all.now ≡ all_of trees.now }
    requires joins { IsConcatenation points trees.now (all_of trees.now) }
    ensures chosen { IfOk result (λ best. IsChosen points trees.now best.places best.total) }
    ensures pairs { IfOk result (λ best. IsUpToPairs points trees.now best.total) }
{
    let pairs = pairs_of(alloc, points, trees, listed)?;
    match least_joining(alloc, points, &pairs)? {
        Some(joined) => Ok(Best {
            places: joined.places,
            total: joined.total,
        }),
        None => Best::of_set(alloc, points, trees, all),
    }
}

// Each tree as a pair. An `Err` is want of memory.
fn pairs_of(
    alloc: Global,
    points: u8,
    trees: &[Tree],
    listed: &[Places],
) -> Result<Vec<Pair>, AllocError>
    requires trees { All (HasMembersBelow points) trees.now }
    requires listed { IsListed points trees.now listed.now }
    ensures { IfOk result (λ pairs. pairs.items ≡ map pair_of trees.now) }
{
    let mut pairs = Vec::new(alloc);
    for place in 0..trees.len() {
        pairs.push(pair_of(&trees[place], listed[place].as_slice()))?;
    }
    Ok(pairs)
}

// A tree of these members as a pair: of its two members, or of the first one and itself, where it has more.
fn pair_of(tree: &Tree, members: &[u8]) -> Pair
    requires some { 2 ≤ length members.now }
    requires members { members.now ≡ members_of tree.now.code }
    ensures { result ≡ pair_of tree.now }
{
    let b = if members.len() == 2 {
        members[1]
    } else {
        members[0]
    };
    Pair {
        a: members[0],
        b,
        length: tree.length,
    }
}
