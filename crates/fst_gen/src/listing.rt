//! The list of the trees that a generation kept, in file order.

ghost use Rattle.std.specs.Prelude.{◌≡◌, All, IfOk};
ghost use Rattle.std.specs.BTreeMap.{values};
ghost use Rattle.std.specs.Ordering.{is_lt};
ghost use Rattle.std.specs.List.Sorted.{IsPermutation, IsSortedBy};
ghost use Rattle.full_tree.specs.Code.{HasFewMembers};
ghost use Rattle.full_tree.specs.Order.{tree_cmp};

use crate::listed::Listed;
use full_tree::{Tree, TreeList};
use std::alloc::{AllocError, Global};
use std::collections::BTreeMap;

/// The values of a map of trees, to be listed. An `Err` is want of memory.
pub fn gathered(alloc: Global, trees: BTreeMap<u64, Tree>) -> Result<Vec<Listed>, AllocError>
    requires { All (λ tree. HasFewMembers tree.code) (values trees) }
    ensures { IfOk result (λ list. list.items ≡ values trees) }
{
    let mut list = Vec::new(alloc);
    for tree in trees.into_values() {
        list.push(Listed::of(tree))?;
    }
    Ok(list)
}

/// Puts trees in file order.
pub fn put_in_order(list: &mut Vec<Listed>)
    ensures permutation { IsPermutation list.old.items list.new.items }
    ensures sorted { IsSortedBy (λ a b. is_lt (tree_cmp a b)) list.new.items }
{
    list.sort_unstable_by(|a, b| a.order(b));
}

/// The trees of a list, in the same order. An `Err` is want of memory.
pub fn freed(alloc: Global, list: Vec<Listed>) -> Result<TreeList, AllocError>
    ensures { IfOk result (λ trees. trees ≡ list.items) }
{
    let mut trees = TreeList::empty(alloc);
    for listed in list {
        trees.push(listed.into_tree())?;
    }
    Ok(trees)
}
