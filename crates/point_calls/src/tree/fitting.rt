//! Trees that fit the points of a row.

ghost use Rattle.std.specs.Prelude.{◌≡◌, length, All, IfOk, IsTrue};
ghost use Rattle.full_tree.specs.Form.{IsInForm};
ghost use Rattle.full_tree.specs.Pieces.{code_length};
ghost use Rattle.fst_concat.specs.Chosen.{HasMembersBelow};

use crate::grid::described::trees;
use fst_concat::trees_in_form_have_members;
use full_tree::{Tree, TreeList, in_form, tree_length};
use hanan_grid::Grid;
use row_tables::{Call, Fault};
use std::alloc::Global;

/// The trees under the key `trees`, each of which is in form among the terminals of a grid and has its length.
pub fn fitting(alloc: Global, call: &Call, grid: &Grid) -> Result<TreeList, Fault>
    ensures form { IfOk result (λ trees. All (λ tree. IsInForm grid.now tree.code) trees) }
    ensures lengths { IfOk result (λ trees. All (λ tree. tree.length ≡ code_length grid.now tree.code) trees) }
    ensures members { IfOk result (λ trees. All (HasMembersBelow (length grid.now)) trees) }
{
    let trees = trees(alloc, call, "trees")?;
    if !are_fitting(grid, trees.as_slice()) {
        return Err(Fault::NotAllowed);
    }
    Ok(trees)
}

// Whether all trees fit.
fn are_fitting(grid: &Grid, trees: &[Tree]) -> bool
    ensures form { IsTrue result → All (λ tree. IsInForm grid.now tree.code) trees.now }
    ensures lengths { IsTrue result → All (λ tree. tree.length ≡ code_length grid.now tree.code) trees.now }
    ensures members { IsTrue result → All (HasMembersBelow (length grid.now)) trees.now }
{
    for tree in trees {
        if !is_fitting(grid, tree) {
            return false;
        }
    }
    true
}

// Whether a tree is in form and has its length.
fn is_fitting(grid: &Grid, tree: &Tree) -> bool
    ensures form { IsTrue result → IsInForm grid.now tree.now.code }
    ensures has_length { IsTrue result → tree.now.length ≡ code_length grid.now tree.now.code }
    ensures members { IsTrue result → HasMembersBelow (length grid.now) tree.now }
{
    trees_in_form_have_members();
    if !in_form(grid, &tree.code) {
        return false;
    }
    tree.length == tree_length(grid, &tree.code)
}
