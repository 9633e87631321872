//! The least trees of sets, as they are found.

ghost use Rattle.std.specs.Prelude.{ℕ, ◌≡◌, ◌≢◌, ◌<◌, ◌≤◌, ◌^◌, Some, None, All, OnOk, OnErr, MatchBool, MatchResult};
ghost use Rattle.std.specs.Prelude.{IfSome};
ghost use Rattle.std.specs.Ordering.{nat_cmp};
ghost use Rattle.std.specs.BTreeMap.{get, btree_map_len, Updates, IsOrdered};
ghost use Rattle.full_tree.specs.declared.code.Tree.{Tree};
ghost use Rattle.fst_gen.specs.declared.fault.GenFault.TheVariants.{TooManyTrees};
ghost use Rattle.full_tree.specs.Code.{members_of, HasFewMembers};
ghost use Rattle.fst_gen.specs.Kept.{AllHaveFewMembers, IsBetter, IsWorse, PutsLeast};

use crate::fault::GenFault;
use full_tree::{Tree, members, tree_order, word_of};
use std::alloc::{AllocError, Global};
use std::collections::BTreeMap;

/// How many trees a list of trees holds at most.
pub const MAX_TREES: usize = 20_000;

/// Keeps a tree where it is the least so far of its members. An `Err` says that there are more than
/// 20,000 sets of members, or is want of memory.
pub fn keep(alloc: Global, trees: &mut BTreeMap<u64, Tree>, tree: Tree) -> Result<(), GenFault>
    requires few { HasFewMembers tree.code }
    requires places { All (λ k. k < 64) (members_of tree.code) }
    requires all_few { AllHaveFewMembers trees.old }
    requires room { btree_map_len trees.old ≤ 20000 }
    ensures { MatchResult result
        (λ done. PutsLeast tree trees.old trees.new × (btree_map_len trees.new ≤ 20000))
        (λ fault. fault ≡ TooManyTrees
        → PutsLeast tree trees.old trees.new × (20000 < btree_map_len trees.new)
        × IsOrdered nat_cmp trees.new) }
{
    let members = members(alloc, &tree.code);
    let word = word_of(members.as_slice());
    if !is_better(trees, word, &tree) {
        return Ok(());
    }
    put(trees, word, tree)?;
    if trees.len() > MAX_TREES {
        return Err(GenFault::TooManyTrees);
    }
    Ok(())
}

// Whether no tree is stored under a word, or one that is after a tree.
fn is_better(trees: &BTreeMap<u64, Tree>, word: u64, tree: &Tree) -> bool
    requires few { HasFewMembers tree.now.code }
    requires all_few { AllHaveFewMembers trees.now }
    ensures { MatchBool result (IsBetter tree.now trees.now word) (IsWorse tree.now trees.now word) }
{
    match trees.get(&word) {
        Some(old) => tree_order(tree, old).is_lt(),
        None => true,
    }
}

// Stores a tree under a word. An `Err` is want of memory.
fn put(trees: &mut BTreeMap<u64, Tree>, word: u64, tree: Tree) -> Result<(), AllocError>
    ensures { OnOk result (Updates nat_cmp trees.old trees.new word (Some tree)) }
{
    trees.insert(word, tree)?;
    Ok(())
}
